//! How a user seat gets into the list: it is appended and falls asleep, or it does neither.
ghost use Rattle.std.specs.Prelude.{◌≡◌, ◌<◌, ◌≤◌, MatchOption, slice_index};
ghost use Rattle.lfm_mutex.specs.Belongs.{Beside, OfMutex, budget_of, limits_of};
ghost use Rattle.lfm_mutex.specs.calls.RunGoesOn.{RunGoesOnFrom};
ghost use Rattle.lfm_mutex.specs.calls.Sight.{sight, MayRelease, WaitRefused};
ghost use Rattle.lfm_mutex.specs.calls.WakeUps.{Wakes};
ghost use Rattle.lfm_mutex.specs.calls.Woken.{WakesNobody, WokenAsGranted};
ghost use Rattle.lfm_condvar.specs.Keeping.{WaitersFollow};
ghost use Rattle.lfm_condvar.specs.Waits.{Enlists, MayWait};

use crate::waiters::Waiters;
use lfm_model::{Refusal, SeatNo};
use lfm_mutex::{Kept, Mutex, Seat, WakeUp};

/// Why the seat can't make `start_wait`, if it can't: the first of Asleep, NotOwner, Nested and Spent that applies. It changes
/// nothing, allocates no memory and never waits.
pub fn bars_wait<T: Kept>(seat: &Seat<T>) -> Option<Refusal>
    ensures { MatchOption result (MayWait (budget_of seat.now) (sight seat.now)) (λ r. WaitRefused (budget_of seat.now) (sight seat.now) r) }
{
    if seat.asleep() {
        return Some(Refusal::Asleep);
    }
    if seat.depth() == 0 {
        return Some(Refusal::NotOwner);
    }
    if seat.depth() > 1 {
        return Some(Refusal::Nested);
    }
    if seat.left() == 0 {
        return Some(Refusal::Spent);
    }
    None
}

/// Appends the user seat, which holds its mutex, to the list with the next ticket, counts the ticket for the cond seat `by`,
/// and makes `start_wait`. If it refuses, it does none of this. It returns the ticket. The caller holds the inner mutex and
/// lends the list for this call.
///
/// Refuses, in this order: Asleep, NotOwner, Nested and Spent as `start_wait`, NoSuchSeat (the condvar has fewer seats than the
/// user seat's number) and Busy (the user seat is already in the list). It allocates no memory and never waits, and wakes the
/// seat that it grants the user mutex, if any.
pub fn enlist<T: Kept>(
    waiters: &mut Waiters,
    by: SeatNo,
    mutex: &Mutex<T>,
    seat: &mut Seat<T>,
) -> Result<u64, Refusal>
    requires belongs { OfMutex seat.old mutex.now }
    requires by { (by ≤ waiters.old.seats) × (slice_index waiters.old.counts.items by < waiters.old.budget) }
    requires leaves { MayRelease T.follows T.fits (sight seat.old) }
    ensures belongs { Beside seat.old seat.new }
    ensures run { RunGoesOnFrom seat.old seat.new }
    ensures woken { WokenAsGranted seat.old seat.new }
    ensures enlists { Enlists (limits_of mutex.now) by (sight seat.old) (sight seat.new) waiters.old waiters.new result }
    ensures follows { WaitersFollow by waiters.old waiters.new }
{
    let (ticket, wake_up) = enlist_without_waking(waiters, by, mutex, seat);
    mutex.wake_from(seat, wake_up);
    ticket
}

/// `enlist`, with the same answers and refusals, which returns the wake-up of the seat that it granted the user mutex, if any.
/// The caller makes the wake-up after it has released the list, since a thread that wakes earlier would have to wait for the
/// list.
pub(crate) fn enlist_without_waking<T: Kept>(
    waiters: &mut Waiters,
    by: SeatNo,
    mutex: &Mutex<T>,
    seat: &mut Seat<T>,
) -> (Result<u64, Refusal>, Option<WakeUp>)
    requires belongs { OfMutex seat.old mutex.now }
    requires by { (by ≤ waiters.old.seats) × (slice_index waiters.old.counts.items by < waiters.old.budget) }
    requires leaves { MayRelease T.follows T.fits (sight seat.old) }
    ensures belongs { Beside seat.old seat.new }
    ensures run { RunGoesOnFrom seat.old seat.new }
    ensures woken { WakesNobody seat.old seat.new }
    ensures enlists { Enlists (limits_of mutex.now) by (sight seat.old) (sight seat.new) waiters.old waiters.new result.0 }
    ensures follows { WaitersFollow by waiters.old waiters.new }
    ensures wakes { Wakes (limits_of mutex.now).seats result.1 (sight seat.old).trail (sight seat.new).trail }
{
    // `wait` has made this check and the next before it locked the list. They are made here for the other callers of `enlist`.
    if let Some(refusal) = bars_wait(seat) {
        return (Err(refusal), None);
    }
    let number = seat.number();
    if number.get() > waiters.seats() {
        return (Err(Refusal::NoSuchSeat), None);
    }
    if waiters.has(number) {
        return (Err(Refusal::Busy), None);
    }
    let ticket = waiters.append(by, number);
    let (released, wake_up) = mutex.start_wait_without_waking(seat);
    match released {
        Ok(_) => (Ok(ticket), wake_up),
        Err(_) => unreachable!(),
    }
}
