//! How a user seat is added to the list in one hold of the inner mutex.
ghost use Rattle.std.specs.Prelude.{◌≡◌, ◌<◌, ◌≤◌, Some, IfErr, IfOk, length, slice_index};
ghost use Rattle.lfm_model.specs.declared.refusals.Refusal.TheVariants.{Busy};
ghost use Rattle.lfm_mutex.specs.Belongs.{Beside, OfMutex, limits_of};
ghost use Rattle.lfm_mutex.specs.calls.RunGoesOn.{RunGoesOnFrom};
ghost use Rattle.lfm_mutex.specs.calls.Sight.{sight, MayRelease};
ghost use Rattle.lfm_mutex.specs.calls.WakeUps.{Wakes};
ghost use Rattle.lfm_mutex.specs.calls.Woken.{WakesNobody};
ghost use Rattle.lfm_condvar.specs.Belongs.{CondWokenAsGranted, OfCondvar, cond_limits, cond_sight, cond_tries};
ghost use Rattle.lfm_condvar.specs.Holds.{StepsOfOneHold, HeldOnce, Rewrites};
ghost use Rattle.lfm_condvar.specs.Waits.{Enlists, MayWait, ticket_of};

use super::{leave_list, lock_list};
use crate::cond_seat::CondSeat;
use crate::condvar::Condvar;
use crate::waiters::{Waiters, enlist_without_waking};
use lfm_model::Refusal;
use lfm_mutex::{Kept, Mutex, Seat, WakeUp};
use std::sync::Wait;

/// A user seat that was added to the list: its ticket, and how many seats waited ahead of it at that time.
#[derive(Clone, Copy)]
pub(crate) struct Enlisted {
    pub(crate) ticket: u64,
    pub(crate) ahead: usize,
}

/// A seat that was added to the list with this ticket and this number of seats ahead of it, or why it was refused.
fn with_ahead(ticket: Result<u64, Refusal>, ahead: usize) -> Result<Enlisted, Refusal>
    ensures ticket { ticket_of result ≡ ticket }
    ensures ahead { IfOk result (λ e. e.ahead ≡ ahead) }
{
    match ticket {
        Ok(ticket) => Ok(Enlisted { ticket, ahead }),
        Err(refusal) => Err(refusal),
    }
}

/// Passes the list that the cond seat holds to `enlist_without_waking`, and counts the seats that wait there.
fn enlist_in_hand<T: Kept>(
    cond: &mut Seat<Waiters>,
    mutex: &Mutex<T>,
    seat: &mut Seat<T>,
) -> (Result<Enlisted, Refusal>, Option<WakeUp>)
    requires belongs { OfMutex seat.old mutex.now }
    requires held { 0 < (sight cond.old).depth }
    requires may { (v : _) → (sight cond.old).value ≡ Some v → ((sight cond.old).number ≤ v.seats) × (slice_index v.counts.items (sight cond.old).number < v.budget) }
    requires leaves { MayRelease T.follows T.fits (sight seat.old) }
    ensures belongs { Beside cond.old cond.new × Beside seat.old seat.new }
    ensures run { RunGoesOnFrom seat.old seat.new }
    ensures cond_woken { WakesNobody cond.old cond.new }
    ensures woken { WakesNobody seat.old seat.new }
    ensures enlists { (v : _) × (w : _) × Rewrites (sight cond.old) (sight cond.new) v w × Enlists (limits_of mutex.now) (sight cond.old).number (sight seat.old) (sight seat.new) v w (ticket_of result.0) × IfOk result.0 (λ e. e.ahead ≡ length v.list.items) }
    ensures wakes { Wakes (limits_of mutex.now).seats result.1 (sight seat.old).trail (sight seat.new).trail }
{
    let by = cond.number();
    let Some(waiters) = cond.value_mut() else {
        unreachable!()
    };
    let ahead = waiters.waiting();
    let (ticket, wake_up) = enlist_without_waking(waiters, by, mutex, seat);
    (with_ahead(ticket, ahead), wake_up)
}

impl Condvar {
    /// Enlists the user seat in one hold of the inner mutex. The caller has made the other checks, so the only refusal left is
    /// Busy. The wake-up of the seat that is granted the user mutex is returned, so that its thread isn't woken while the list
    /// is held.
    pub(crate) fn enlist_in_one_hold<T: Kept, R: Wait>(
        &self,
        rt: &R,
        cond: &mut CondSeat,
        mutex: &Mutex<T>,
        seat: &mut Seat<T>,
    ) -> (Result<Enlisted, Refusal>, Option<WakeUp>)
        requires belongs { OfCondvar cond.old self.now × OfMutex seat.old mutex.now }
        requires leaves { MayRelease T.follows T.fits (sight seat.old) }
        requires may { MayWait (limits_of mutex.now).budget (sight seat.old) }
        requires spare { (cond_sight cond.old).takes < (cond_limits self.now).budget }
        requires known { (sight seat.old).number ≤ (cond_limits self.now).seats }
        ensures belongs { OfCondvar cond.new self.now × Beside seat.old seat.new }
        ensures run { RunGoesOnFrom seat.old seat.new }
        ensures cond_woken { CondWokenAsGranted cond.old cond.new }
        ensures woken { WakesNobody seat.old seat.new }
        ensures enlists { (v : _) × (w : _) × HeldOnce (cond_limits self.now).budget (cond_sight cond.old) (cond_sight cond.new) v w × Enlists (limits_of mutex.now) (cond_sight cond.old).number (sight seat.old) (sight seat.new) v w (ticket_of result.0) × IfOk result.0 (λ e. e.ahead ≡ length v.list.items) }
        ensures steps { StepsOfOneHold (cond_limits self.now) (cond_tries self.now) (cond_sight cond.old) (cond_sight cond.new) }
        ensures busy { IfErr (ticket_of result.0) (λ r. r ≡ Busy) }
        ensures wakes { Wakes (limits_of mutex.now).seats result.1 (sight seat.old).trail (sight seat.new).trail }
    {
        match lock_list(&self.inner, rt, &mut cond.seat) {
            Ok(()) => {}
            Err(_) => unreachable!(),
        }
        let enlisted = enlist_in_hand(&mut cond.seat, mutex, seat);
        leave_list(&self.inner, &mut cond.seat);
        enlisted
    }
}
