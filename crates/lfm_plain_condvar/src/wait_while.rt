//! `wait_while`: a seat that holds waits again and again while a condition is true of the guarded value.
ghost use Rattle.std.specs.Prelude.{◌≡◌};
ghost use Rattle.std.specs.Fn.{FnReturnsAt};
ghost use Rattle.lfm_mutex.specs.Conditions.{FoundMayBeLeft};
ghost use Rattle.lfm_mutex.specs.Belongs.{Beside, OfMutex, limits_of, tries_of};
ghost use Rattle.lfm_mutex.specs.calls.RunGoesOn.{RunGoesOnFrom};
ghost use Rattle.lfm_mutex.specs.calls.Sight.{sight, MayRelease};
ghost use Rattle.lfm_mutex.specs.calls.Woken.{PollsAndWakesAsGranted};
ghost use Rattle.lfm_plain_condvar.specs.Belongs.{NotifiesNobody, OfPlain};
ghost use Rattle.lfm_plain_condvar.specs.Repeated.{WaitWhileEnds};

use crate::condvar::PlainCondvar;
use crate::plain_seat::PlainSeat;
use lfm_model::Refusal;
use lfm_mutex::conditions::must_wait;
use lfm_mutex::{Kept, Mutex, Seat};
use std::sync::Wait;

impl PlainCondvar {
    /// Waits, as `wait` does, for as long as the condition is true of the guarded value. It tests this before it waits, and
    /// again after each wait. When it returns, the seat holds as before. If it isn't refused, the condition is then false of
    /// the value. The seat must be allowed to leave the value as it found it, which is always so if the value is a number.
    ///
    /// Refuses as `wait`, in the same order, if the condition is true or the seat doesn't hold. The seat is then as the
    /// previous waits left it. A wait costs each seat one take. It allocates no memory, and sleeps and wakes as `wait`.
    pub fn wait_while<T: Kept, R: Wait, F: Fn(&T) -> bool>(
        &self,
        rt: &R,
        cond: &mut PlainSeat,
        mutex: &Mutex<T>,
        seat: &mut Seat<T>,
        condition: F,
    ) -> Result<(), Refusal>
        requires belongs { OfPlain cond.old self.now × OfMutex seat.old mutex.now }
        requires leaves { MayRelease T.follows T.fits (sight seat.old) }
        requires keeps { FoundMayBeLeft T.follows T.fits }
        requires callable { F.IsAlwaysCallable condition }
        ensures belongs { OfPlain cond.new self.now × Beside seat.old seat.new }
        ensures run { RunGoesOnFrom seat.old seat.new }
        ensures cond_woken { PollsAndWakesAsGranted cond.old.seat cond.new.seat }
        ensures woken { PollsAndWakesAsGranted seat.old seat.new }
        ensures notifies { NotifiesNobody cond.old cond.new }
        ensures depth { (sight seat.new).depth ≡ (sight seat.old).depth }
        ensures waits { WaitWhileEnds T.follows T.fits (limits_of mutex.now) (limits_of self.now.inner) (tries_of self.now.inner) (tries_of mutex.now) (λ v b. FnReturnsAt F.Fn condition v b) (sight cond.old.seat) (sight cond.new.seat) (sight seat.old) (sight seat.new) result }
    {
        'waits: for _ in rt.forever() {
            if !must_wait(seat, &condition) {
                return Ok(());
            }
            let _ticket = self.wait(rt, cond, mutex, seat)?;
        }
        unreachable!()
    }
}
