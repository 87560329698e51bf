//! How waiters are sent in one hold of the inner mutex.
ghost use Rattle.std.specs.Prelude.{◌≡◌, ◌<◌, ◌≤◌, ◌++◌, ℕ, Some, false};
ghost use Rattle.lfm_mutex.specs.Belongs.{Beside, OfMutex, limits_of};
ghost use Rattle.lfm_mutex.specs.calls.RunGoesOn.{RunGoesOnFrom};
ghost use Rattle.lfm_mutex.specs.calls.Sight.{sight};
ghost use Rattle.lfm_mutex.specs.calls.WakeUps.{Wakes, as_list};
ghost use Rattle.lfm_mutex.specs.calls.Woken.{WakesNobody, WakesThese};
ghost use Rattle.lfm_condvar.specs.Belongs.{CondWokenAsGranted, OfCondvar, cond_limits, cond_sight, cond_tries};
ghost use Rattle.lfm_condvar.specs.Holds.{Rewrites};
ghost use Rattle.lfm_condvar.specs.Keeping.{WaitersFollow};
ghost use Rattle.lfm_condvar.specs.HeldBack.{HoldsLastBack, earlier_of, later_of};
ghost use Rattle.lfm_condvar.specs.Wakes.{SendsAll, SendsBy, SendsOldest, WakeAllEnds, WakeOneEnds};

use super::{leave_list, lock_list};
use crate::cond_seat::CondSeat;
use crate::condvar::Condvar;
use crate::waiters::{Waiters, send_oldest_without_waking};
use lfm_model::{Refusal, SeatNo};
use lfm_mutex::{Kept, Mutex, Seat, WakeUp};
use std::sync::Wait;

/// Keeps the later of two wake-ups, if there are two, and makes the earlier one at once. So no memory is needed for both.
fn hold_back<T: Kept>(
    mutex: &Mutex<T>,
    seat: &mut Seat<T>,
    held: Option<WakeUp>,
    next: Option<WakeUp>,
) -> Option<WakeUp>
    requires belongs { OfMutex seat.old mutex.now }
    requires inside { (t : ℕ) → held ≡ Some t → t ≤ (limits_of mutex.now).seats }
    ensures belongs { Beside seat.old seat.new }
    ensures run { RunGoesOnFrom seat.old seat.new }
    ensures same { sight seat.new ≡ sight seat.old }
    ensures later { result ≡ later_of held next }
    ensures woken { WakesThese (as_list (earlier_of held next)) seat.old seat.new }
{
    match next {
        None => held,
        Some(wake_up) => {
            mutex.wake_from(seat, held);
            Some(wake_up)
        }
    }
}

/// Sends all that wait, oldest first, and counts them. It stops at one that doesn't wait to be sent. It returns the wake-up of
/// the last seat that was granted the user mutex. Usually this is the only one: another waiter is granted the mutex only if the
/// mutex has been released since, while the list is still held.
fn send_all<T: Kept>(
    waiters: &mut Waiters,
    mutex: &Mutex<T>,
    seat: &mut Seat<T>,
) -> (Result<u64, Refusal>, Option<WakeUp>)
    requires belongs { OfMutex seat.old mutex.now }
    requires wide { waiters.old.seats ≤ (limits_of mutex.now).seats }
    requires awake { (sight seat.old).asleep ≡ false }
    ensures belongs { Beside seat.old seat.new }
    ensures run { RunGoesOnFrom seat.old seat.new }
    ensures sends { SendsAll (limits_of mutex.now).seats (sight seat.old) (sight seat.new) waiters.old waiters.new result.0 }
    ensures steps { SendsBy (limits_of mutex.now) (sight seat.old) (sight seat.new) result.0 }
    ensures follows { (s : ℕ) → WaitersFollow s waiters.old waiters.new }
    ensures wakes { HoldsLastBack (limits_of mutex.now).seats result.1 seat.old seat.new }
{
    let mut sent = 0u64;
    let mut held = None;
    'sends: loop {
        let (answer, wake_up) = send_oldest_without_waking(waiters, mutex, seat);
        held = hold_back(mutex, seat, held, wake_up);
        let oldest = match answer {
            Ok(oldest) => oldest,
            Err(refusal) => return (Err(refusal), held),
        };
        match oldest {
            Some(_) => sent += 1,
            None => return (Ok(sent), held),
        }
    }
}

/// Passes the list that the cond seat holds to `send_oldest_without_waking`.
fn send_oldest_in_hand<T: Kept>(
    cond: &mut Seat<Waiters>,
    mutex: &Mutex<T>,
    seat: &mut Seat<T>,
) -> (Result<Option<(SeatNo, u64)>, Refusal>, Option<WakeUp>)
    requires belongs { OfMutex seat.old mutex.now }
    requires held { 0 < (sight cond.old).depth }
    requires wide { (v : _) → (sight cond.old).value ≡ Some v → v.seats ≤ (limits_of mutex.now).seats }
    ensures belongs { Beside cond.old cond.new × Beside seat.old seat.new }
    ensures run { RunGoesOnFrom seat.old seat.new }
    ensures cond_woken { WakesNobody cond.old cond.new }
    ensures woken { WakesNobody seat.old seat.new }
    ensures sends { (v : _) × (w : _) × Rewrites (sight cond.old) (sight cond.new) v w × SendsOldest (limits_of mutex.now).seats (sight seat.old) (sight seat.new) v w result.0 }
    ensures steps { SendsBy (limits_of mutex.now) (sight seat.old) (sight seat.new) result.0 }
    ensures wakes { Wakes (limits_of mutex.now).seats result.1 (sight seat.old).trail (sight seat.new).trail }
{
    let Some(waiters) = cond.value_mut() else {
        unreachable!()
    };
    send_oldest_without_waking(waiters, mutex, seat)
}

/// Passes the list that the cond seat holds to `send_all`.
fn send_all_in_hand<T: Kept>(
    cond: &mut Seat<Waiters>,
    mutex: &Mutex<T>,
    seat: &mut Seat<T>,
) -> (Result<u64, Refusal>, Option<WakeUp>)
    requires belongs { OfMutex seat.old mutex.now }
    requires held { 0 < (sight cond.old).depth }
    requires wide { (v : _) → (sight cond.old).value ≡ Some v → v.seats ≤ (limits_of mutex.now).seats }
    requires awake { (sight seat.old).asleep ≡ false }
    ensures belongs { Beside cond.old cond.new × Beside seat.old seat.new }
    ensures run { RunGoesOnFrom seat.old seat.new }
    ensures cond_woken { WakesNobody cond.old cond.new }
    ensures sends { (v : _) × (w : _) × Rewrites (sight cond.old) (sight cond.new) v w × SendsAll (limits_of mutex.now).seats (sight seat.old) (sight seat.new) v w result.0 }
    ensures steps { SendsBy (limits_of mutex.now) (sight seat.old) (sight seat.new) result.0 }
    ensures wakes { HoldsLastBack (limits_of mutex.now).seats result.1 seat.old seat.new }
{
    let Some(waiters) = cond.value_mut() else {
        unreachable!()
    };
    send_all(waiters, mutex, seat)
}

impl Condvar {
    /// Sends the oldest waiter in one hold of the inner mutex, for a user seat that is awake. The wake-up of the seat that is
    /// granted the user mutex is returned, so that its thread isn't woken while the list is held.
    pub(crate) fn send_oldest_in_one_hold<T: Kept, R: Wait>(
        &self,
        rt: &R,
        cond: &mut CondSeat,
        mutex: &Mutex<T>,
        seat: &mut Seat<T>,
    ) -> (Result<Option<(SeatNo, u64)>, Refusal>, Option<WakeUp>)
        requires belongs { OfCondvar cond.old self.now × OfMutex seat.old mutex.now }
        requires wide { (cond_limits self.now).seats ≤ (limits_of mutex.now).seats }
        requires awake { (sight seat.old).asleep ≡ false }
        ensures belongs { OfCondvar cond.new self.now × Beside seat.old seat.new }
        ensures run { RunGoesOnFrom seat.old seat.new }
        ensures cond_woken { CondWokenAsGranted cond.old cond.new }
        ensures woken { WakesNobody seat.old seat.new }
        ensures sends { WakeOneEnds (limits_of mutex.now).seats (cond_limits self.now) (cond_tries self.now) (cond_sight cond.old) (cond_sight cond.new) (sight seat.old) (sight seat.new) result.0 }
        ensures steps { SendsBy (limits_of mutex.now) (sight seat.old) (sight seat.new) result.0 }
        ensures wakes { Wakes (limits_of mutex.now).seats result.1 (sight seat.old).trail (sight seat.new).trail }
    {
        match lock_list(&self.inner, rt, &mut cond.seat) {
            Ok(()) => {}
            Err(refusal) => return (Err(refusal), None),
        }
        let sent = send_oldest_in_hand(&mut cond.seat, mutex, seat);
        leave_list(&self.inner, &mut cond.seat);
        sent
    }

    /// Sends all that wait in one hold of the inner mutex, oldest first, for a user seat that is awake. The last wake-up is
    /// returned.
    pub(crate) fn send_all_in_one_hold<T: Kept, R: Wait>(
        &self,
        rt: &R,
        cond: &mut CondSeat,
        mutex: &Mutex<T>,
        seat: &mut Seat<T>,
    ) -> (Result<u64, Refusal>, Option<WakeUp>)
        requires belongs { OfCondvar cond.old self.now × OfMutex seat.old mutex.now }
        requires wide { (cond_limits self.now).seats ≤ (limits_of mutex.now).seats }
        requires awake { (sight seat.old).asleep ≡ false }
        ensures belongs { OfCondvar cond.new self.now × Beside seat.old seat.new }
        ensures run { RunGoesOnFrom seat.old seat.new }
        ensures cond_woken { CondWokenAsGranted cond.old cond.new }
        ensures sends { WakeAllEnds (limits_of mutex.now).seats (cond_limits self.now) (cond_tries self.now) (cond_sight cond.old) (cond_sight cond.new) (sight seat.old) (sight seat.new) result.0 }
        ensures steps { SendsBy (limits_of mutex.now) (sight seat.old) (sight seat.new) result.0 }
        ensures wakes { HoldsLastBack (limits_of mutex.now).seats result.1 seat.old seat.new }
    {
        match lock_list(&self.inner, rt, &mut cond.seat) {
            Ok(()) => {}
            Err(refusal) => return (Err(refusal), None),
        }
        let sent = send_all_in_hand(&mut cond.seat, mutex, seat);
        leave_list(&self.inner, &mut cond.seat);
        sent
    }
}
