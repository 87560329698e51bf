//! `wait_while`: a seat that holds waits again and again while a condition is true of the guarded value.
ghost use Rattle.std.specs.Prelude.{◌≡◌};
ghost use Rattle.std.specs.Fn.{FnReturnsAt};
ghost use Rattle.lfm_mutex.specs.Conditions.{FoundMayBeLeft};
ghost use Rattle.lfm_mutex.specs.Belongs.{Beside, OfMutex, limits_of};
ghost use Rattle.lfm_mutex.specs.calls.RunGoesOn.{RunGoesOnFrom};
ghost use Rattle.lfm_mutex.specs.calls.Sight.{sight, MayRelease};
ghost use Rattle.lfm_mutex.specs.calls.Woken.{PollsAndWakesAsGranted};
ghost use Rattle.lfm_condvar.specs.Belongs.{CondWokenAsGranted, OfCondvar, cond_limits, cond_sight, cond_tries};
ghost use Rattle.lfm_condvar.specs.Repeated.{WaitWhileEnds};

use crate::cond_seat::CondSeat;
use crate::condvar::Condvar;
use lfm_model::Refusal;
use lfm_mutex::conditions::must_wait;
use lfm_mutex::{Kept, Mutex, Seat};
use std::sync::Wait;

impl Condvar {
    /// Waits, as `wait` does, for as long as the condition is true of the guarded value. It tests this before it waits, and
    /// again after each wait. When it returns, the seat holds as before. If it isn't refused, the condition is then false of
    /// the value. The seat must be allowed to leave the value as it found it, which is always so if the value is a number.
    ///
    /// Refuses as `wait`, in the same order, if the condition is true or the seat doesn't hold. The seat is then as the
    /// previous waits left it. A wait costs each seat one take. It allocates no memory, and sleeps and wakes as `wait`.
    pub fn wait_while<T: Kept, R: Wait, F: Fn(&T) -> bool>(
        &self,
        rt: &R,
        cond: &mut CondSeat,
        mutex: &Mutex<T>,
        seat: &mut Seat<T>,
        condition: F,
    ) -> Result<(), Refusal>
        requires belongs { OfCondvar cond.old self.now × OfMutex seat.old mutex.now }
        requires leaves { MayRelease T.follows T.fits (sight seat.old) }
        requires keeps { FoundMayBeLeft T.follows T.fits }
        requires callable { F.IsAlwaysCallable condition }
        ensures belongs { OfCondvar cond.new self.now × Beside seat.old seat.new }
        ensures run { RunGoesOnFrom seat.old seat.new }
        ensures cond_woken { CondWokenAsGranted cond.old cond.new }
        ensures woken { PollsAndWakesAsGranted seat.old seat.new }
        ensures depth { (sight seat.new).depth ≡ (sight seat.old).depth }
        ensures waits { WaitWhileEnds T.follows T.fits (limits_of mutex.now) (cond_limits self.now) (cond_tries self.now) (λ v b. FnReturnsAt F.Fn condition v b) (cond_sight cond.old) (cond_sight cond.new) (sight seat.old) (sight seat.new) result }
    {
        'waits: for _ in rt.forever() {
            if !must_wait(seat, &condition) {
                return Ok(());
            }
            let _waited = self.wait(rt, cond, mutex, seat)?;
        }
        unreachable!()
    }
}
