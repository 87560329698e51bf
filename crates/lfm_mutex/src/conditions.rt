//! The test that a seat makes of the guarded value before it waits. How it waits is decided by the crates above.
ghost use Rattle.std.specs.Prelude.{MatchBool};
ghost use Rattle.std.specs.Fn.{FnReturnsAt};
ghost use Rattle.lfm_mutex.specs.Conditions.{NeedNotWait, WouldWait};
ghost use Rattle.lfm_mutex.specs.calls.Sight.{sight};

use crate::seat::Seat;
use lfm_table::Kept;

/// Whether the condition is true of the guarded value, or the seat doesn't hold. It calls the condition at most once, and makes
/// no atomic step.
pub fn must_wait<T: Kept, F: Fn(&T) -> bool>(seat: &Seat<T>, condition: &F) -> bool
    requires { F.IsAlwaysCallable condition.now }
    ensures { MatchBool result (WouldWait (λ v b. FnReturnsAt F.Fn condition.now v b) (sight seat.now)) (NeedNotWait (λ v b. FnReturnsAt F.Fn condition.now v b) (sight seat.now)) }
{
    match seat.value() {
        Some(value) => condition(value),
        None => true,
    }
}
