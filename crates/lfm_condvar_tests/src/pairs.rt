//! A mutex and a condvar with two seats each, and a condvar with one. The seats are in hand.
ghost use Rattle.std.specs.Prelude.{◌≡◌, ℕ, [], IfSome};
ghost use Rattle.lfm_mutex.specs.Belongs.{OfMutex, limits_of};
ghost use Rattle.lfm_condvar.specs.Belongs.{OfCondvar, cond_limits};
ghost use Rattle.lfm_condvar_tests.specs.Hands.{OfCalled};
ghost use mathlib.Core.Option.{some};
ghost use lib.ListN.{get_elem?};

use crate::in_hand::InHand;
use lfm_condvar::{CondSeat, Condvar};
use lfm_mutex::Mutex;
use lfm_test_tools::two_condvars::dealing::last_cond_seat;
use lfm_test_tools::two_seats::mutex_of_two;
use std::alloc::Global;

/// The two cond seats of a condvar that has two.
fn two_cond_seats(condvar: &Condvar, mut seats: Vec<CondSeat>) -> Option<(CondSeat, CondSeat)>
    requires { (j : ℕ) (s : _) → get_elem? seats.items j ≡ some s → OfCondvar s condvar.now }
    ensures { IfSome result (λ p. OfCondvar p.0 condvar.now × OfCondvar p.1 condvar.now) }
{
    let _condvar = condvar;
    let second = seats.pop()?;
    let first = seats.pop()?;
    Some((first, second))
}

/// A condvar, and its two cond seats, each with this budget.
pub fn condvar_of_two(alloc: Global, budget: u64) -> Option<(Condvar, CondSeat, CondSeat)>
    ensures seats { IfSome result (λ r. OfCondvar r.1 r.0 × OfCondvar r.2 r.0) }
    ensures two { IfSome result (λ r. (cond_limits r.0).seats ≡ 2) }
{
    let Ok((condvar, seats)) = Condvar::new(alloc, 2, budget) else {
        return None;
    };
    let (first, second) = two_cond_seats(&condvar, seats)?;
    Some((condvar, first, second))
}

/// A condvar, and its one cond seat, which has one take.
pub fn condvar_of_one(alloc: Global) -> Option<(Condvar, CondSeat)>
    ensures seat { IfSome result (λ r. OfCondvar r.1 r.0) }
    ensures one { IfSome result (λ r. (cond_limits r.0).seats ≡ 1) }
{
    let Ok((condvar, mut seats)) = Condvar::new(alloc, 1, 1) else {
        return None;
    };
    let seat = last_cond_seat(&condvar, &mut seats)?;
    Some((condvar, seat))
}

/// A mutex around 7, whose seats have this budget, and two condvars for seat 1 alone. All seats are in hand.
pub fn in_hand_of_two_condvars(
    alloc: Global,
    budget: u64,
) -> Option<(Mutex<u64>, Condvar, Condvar, InHand)>
    ensures { IfSome result (λ r. OfCalled r.3 r.0 r.1 r.2) }
{
    let (mutex, first, second) = mutex_of_two(alloc, budget, 7u64)?;
    let (one_condvar, one) = condvar_of_one(alloc)?;
    let (other_condvar, other) = condvar_of_one(alloc)?;
    let hand = InHand {
        first,
        second,
        one,
        other,
    };
    Some((mutex, one_condvar, other_condvar, hand))
}

/// A mutex around this number, whose seats have this budget, and a condvar for both of them. All seats are in hand.
pub fn in_hand_of_one_condvar(
    alloc: Global,
    budget: u64,
    number: u64,
) -> Option<(Mutex<u64>, Condvar, InHand)>
    ensures { IfSome result (λ r. OfCalled r.2 r.0 r.1 r.1) }
{
    let (mutex, first, second) = mutex_of_two(alloc, budget, number)?;
    let (condvar, one, other) = condvar_of_two(alloc, 4)?;
    let hand = InHand {
        first,
        second,
        one,
        other,
    };
    Some((mutex, condvar, hand))
}

/// Closes the condvar, which has one cond seat, with that in this empty list. Returns its numbers. None if it can't be closed.
pub fn closed_by_one(
    condvar: Condvar,
    cond: CondSeat,
    mut room: Vec<CondSeat>,
) -> Option<(u64, u64)>
    requires cond { OfCondvar cond condvar }
    requires empty { room.items ≡ [] }
{
    room.push(cond).ok()?;
    condvar.close(room).ok()
}

/// Closes the condvar with both cond seats in this empty list. Returns its numbers. None if it can't be closed.
pub fn closed(
    condvar: Condvar,
    first: CondSeat,
    second: CondSeat,
    mut room: Vec<CondSeat>,
) -> Option<(u64, u64)>
    requires first { OfCondvar first condvar }
    requires second { OfCondvar second condvar }
    requires empty { room.items ≡ [] }
{
    let Ok(()) = room.push(first) else {
        return None;
    };
    let Ok(()) = room.push(second) else {
        return None;
    };
    condvar.close(room).ok()
}
