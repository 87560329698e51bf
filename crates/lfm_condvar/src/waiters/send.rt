//! How a user seat leaves the list: it is sent and removed, or neither. A send refused as NotWaiting still makes a step.
ghost use Rattle.std.specs.Prelude.{◌≡◌, ◌≤◌, ℕ};
ghost use Rattle.lfm_mutex.specs.Belongs.{Beside, OfMutex, limits_of};
ghost use Rattle.lfm_mutex.specs.calls.RunGoesOn.{RunGoesOnFrom};
ghost use Rattle.lfm_mutex.specs.calls.Sight.{sight};
ghost use Rattle.lfm_mutex.specs.calls.WakeUps.{Wakes};
ghost use Rattle.lfm_mutex.specs.calls.Woken.{WakesNobody, WokenAsGranted};
ghost use Rattle.lfm_condvar.specs.Keeping.{WaitersFollow};
ghost use Rattle.lfm_condvar.specs.Wakes.{SendsBy, SendsOldest};

use crate::waiters::Waiters;
use lfm_model::{Refusal, SeatNo};
use lfm_mutex::{Kept, Mutex, Seat, WakeUp};

/// Makes `send_lock` for the seat that has waited longest, and removes it from the list. If it refuses, it does neither. It
/// returns that seat and its ticket, or None if the list is empty. The caller holds the inner mutex and lends the list for this
/// call.
///
/// Refuses, in this order: Asleep (the caller's seat sleeps, or a call of it is open) and NotWaiting (the oldest doesn't wait
/// to be sent; this takes one step). It allocates no memory and never waits, and wakes the seat that it grants the user mutex,
/// if any.
pub fn send_oldest<T: Kept>(
    waiters: &mut Waiters,
    mutex: &Mutex<T>,
    seat: &mut Seat<T>,
) -> Result<Option<(SeatNo, u64)>, Refusal>
    requires belongs { OfMutex seat.old mutex.now }
    requires wide { waiters.old.seats ≤ (limits_of mutex.now).seats }
    ensures belongs { Beside seat.old seat.new }
    ensures run { RunGoesOnFrom seat.old seat.new }
    ensures woken { WokenAsGranted seat.old seat.new }
    ensures sends { SendsOldest (limits_of mutex.now).seats (sight seat.old) (sight seat.new) waiters.old waiters.new result }
    ensures steps { SendsBy (limits_of mutex.now) (sight seat.old) (sight seat.new) result }
    ensures follows { (s : ℕ) → WaitersFollow s waiters.old waiters.new }
{
    let (sent, wake_up) = send_oldest_without_waking(waiters, mutex, seat);
    mutex.wake_from(seat, wake_up);
    sent
}

/// `send_oldest`, with the same answers and refusals, which returns the wake-up of the seat that it granted the user mutex, if
/// any. The caller makes the wake-up after it has released the list, since a thread that wakes earlier would have to wait for
/// the list.
pub(crate) fn send_oldest_without_waking<T: Kept>(
    waiters: &mut Waiters,
    mutex: &Mutex<T>,
    seat: &mut Seat<T>,
) -> (Result<Option<(SeatNo, u64)>, Refusal>, Option<WakeUp>)
    requires belongs { OfMutex seat.old mutex.now }
    requires wide { waiters.old.seats ≤ (limits_of mutex.now).seats }
    ensures belongs { Beside seat.old seat.new }
    ensures run { RunGoesOnFrom seat.old seat.new }
    ensures woken { WakesNobody seat.old seat.new }
    ensures sends { SendsOldest (limits_of mutex.now).seats (sight seat.old) (sight seat.new) waiters.old waiters.new result.0 }
    ensures steps { SendsBy (limits_of mutex.now) (sight seat.old) (sight seat.new) result.0 }
    ensures follows { (s : ℕ) → WaitersFollow s waiters.old waiters.new }
    ensures wakes { Wakes (limits_of mutex.now).seats result.1 (sight seat.old).trail (sight seat.new).trail }
{
    // `send_lock` makes this check too, but isn't called if no seat waits.
    if seat.asleep() {
        return (Err(Refusal::Asleep), None);
    }
    let Some(oldest) = waiters.oldest() else {
        return (Ok(None), None);
    };
    let (sent, wake_up) = mutex.send_lock_without_waking(seat, oldest.seat);
    match sent {
        Ok(()) => {
            let _ = waiters.take_oldest();
            (Ok(Some((oldest.seat, oldest.ticket))), wake_up)
        }
        Err(refusal) => (Err(refusal), wake_up),
    }
}
