//! What a wait does with the user mutex: it unlocks it once, and locks it once again.
ghost use Rattle.std.specs.Prelude.{◌≡◌, ◌+◌, ◌-◌, ◌<◌, Ok, false, true, MatchOption};
ghost use Rattle.lfm_mutex.specs.Belongs.{Beside, OfMutex, budget_of, limits_of, tries_of};
ghost use Rattle.lfm_mutex.specs.calls.Barging.{BargesBy, MayTry, TriesFirst};
ghost use Rattle.lfm_mutex.specs.calls.RunGoesOn.{RunGoesOnFrom};
ghost use Rattle.lfm_mutex.specs.calls.Sight.{sight, LeavesOff, LocksWaiting, MayLeave, WaitRefused};
ghost use Rattle.lfm_mutex.specs.calls.Woken.{PollsAndWakesAsGranted, PollsOnce, WokenAsGranted};
ghost use Rattle.lfm_plain_condvar.specs.Holds.{Unlocks};
ghost use Rattle.lfm_plain_condvar.specs.Waits.{ComesBackAs, LocksAsWoken, MayWait};
ghost use Rattle.lfm_plain_condvar.specs.declared.polls.BehindWaker.TheVariants.{Queues};

use crate::parkers::Woken;
use crate::polls::BehindWaker;
use lfm_model::{How, Locked, Refusal};
use lfm_mutex::{Kept, Mutex, Seat};
use std::sync::Wait;
use std::thread::yield_now;

/// The count of a mutex that only one seat holds or wants.
const ONE_SEAT: u64 = 1;

/// How a seat that was woken locks the user mutex again.
#[derive(Clone, Copy)]
pub(crate) struct Relock {
    pub(crate) woken: Woken,

    /// What it does behind its waker, if it was woken alone.
    pub(crate) behind_waker: BehindWaker,
}

/// Why the user seat can't wait, if it can't: the first of Asleep, NotOwner, Nested and Spent that applies.
pub(crate) fn bars_wait<T: Kept>(seat: &Seat<T>) -> Option<Refusal>
    ensures { MatchOption result (MayWait (budget_of seat.now) (sight seat.now)) (λ r. WaitRefused (budget_of seat.now) (sight seat.now) r) }
{
    if seat.asleep() {
        return Some(Refusal::Asleep);
    }
    if seat.depth() == 0 {
        return Some(Refusal::NotOwner);
    }
    if seat.depth() > 1 {
        return Some(Refusal::Nested);
    }
    if seat.left() == 0 {
        return Some(Refusal::Spent);
    }
    None
}

/// Unlocks the user mutex, which the seat holds once.
pub(crate) fn give_up<T: Kept>(mutex: &Mutex<T>, seat: &mut Seat<T>)
    requires belongs { OfMutex seat.old mutex.now }
    requires held { ((sight seat.old).depth ≡ 1) × ((sight seat.old).asleep ≡ false) }
    requires leaves { MayLeave T.follows T.fits (sight seat.old) }
    ensures belongs { Beside seat.old seat.new }
    ensures run { RunGoesOnFrom seat.old seat.new }
    ensures woken { WokenAsGranted seat.old seat.new }
    ensures leaves { LeavesOff (sight seat.old) (sight seat.new) }
    ensures steps { Unlocks (limits_of mutex.now) (sight seat.old) (sight seat.new) }
    ensures keeps { ((sight seat.new).takes ≡ (sight seat.old).takes) × ((sight seat.new).asleep ≡ (sight seat.old).asleep) }
{
    match mutex.unlock(seat) {
        Ok(_) => {}
        Err(_) => unreachable!(),
    }
}

/// Reads the count of the user mutex. If it is 1, the counted seat is mostly that of the waker, whose thread may be ready on
/// this processor. A seat that yields does so here, which lets the waker unlock; a nap of `lock_barging` would mostly last longer
/// than its hold. Returns whether the seat is to queue.
fn yields_or_queues<T: Kept>(
    mutex: &Mutex<T>,
    seat: &mut Seat<T>,
    behind_waker: BehindWaker,
) -> bool
    requires belongs { OfMutex seat.old mutex.now }
    ensures belongs { Beside seat.old seat.new }
    ensures same { sight seat.new ≡ sight seat.old }
    ensures run { RunGoesOnFrom seat.old seat.new }
    ensures woken { PollsOnce seat.old seat.new }
    ensures queues { result ≡ true → behind_waker ≡ Queues }
{
    if mutex.count_from(seat) != ONE_SEAT {
        return false;
    }
    match behind_waker {
        BehindWaker::Barges => false,
        BehindWaker::Yields => {
            yield_now();
            false
        }
        BehindWaker::Queues => true,
    }
}

/// Locks the user mutex again, for a seat that was woken alone: by `lock_barging`, or, if it queues, by a try and, if that
/// fails, by `lock`. If the pace has no spins, the seat calls `lock_barging` even if it is to queue, and may nap before that.
fn barge_or_queue<T: Kept, R: Wait>(
    rt: &R,
    mutex: &Mutex<T>,
    seat: &mut Seat<T>,
    queues: bool,
) -> Result<Locked, Refusal>
    requires belongs { OfMutex seat.old mutex.now }
    requires free { MayTry (limits_of mutex.now).budget (sight seat.old) }
    ensures belongs { Beside seat.old seat.new }
    ensures run { RunGoesOnFrom seat.old seat.new }
    ensures woken { PollsAndWakesAsGranted seat.old seat.new }
    ensures locks { LocksWaiting T.follows T.fits (limits_of mutex.now).budget (sight seat.old) (sight seat.new) result }
    ensures steps { BargesBy (limits_of mutex.now) (tries_of mutex.now) (sight seat.old) (sight seat.new) result }
    ensures first { 0 < mutex.now.pace.spins → TriesFirst (limits_of mutex.now) (mutex.now.pace.spins - 1 + mutex.now.pace.naps) (sight seat.old) (sight seat.new) result }
    ensures tries_once { queues ≡ true → 0 < mutex.now.pace.spins → TriesFirst (limits_of mutex.now) 0 (sight seat.old) (sight seat.new) result }
{
    if !queues || mutex.pace().spins() == 0 {
        return mutex.lock_barging(rt, seat);
    }
    match mutex.try_lock(seat) {
        Ok(locked) => Ok(locked),
        Err(_) => mutex.lock(rt, seat),
    }
}

/// Locks the user mutex again. A seat that was woken with others calls `lock`: by `lock_barging`, most of them would nap while
/// another of them holds. A seat that was woken alone first reads the count, and then calls `barge_or_queue`.
fn lock_again<T: Kept, R: Wait>(
    rt: &R,
    mutex: &Mutex<T>,
    seat: &mut Seat<T>,
    relock: Relock,
) -> Result<Locked, Refusal>
    requires belongs { OfMutex seat.old mutex.now }
    requires free { MayTry (limits_of mutex.now).budget (sight seat.old) }
    ensures belongs { Beside seat.old seat.new }
    ensures run { RunGoesOnFrom seat.old seat.new }
    ensures woken { PollsAndWakesAsGranted seat.old seat.new }
    ensures locks { LocksWaiting T.follows T.fits (limits_of mutex.now).budget (sight seat.old) (sight seat.new) result }
    ensures steps { BargesBy (limits_of mutex.now) (tries_of mutex.now) (sight seat.old) (sight seat.new) result }
    ensures as_woken { LocksAsWoken mutex.now.pace (limits_of mutex.now) relock.woken (sight seat.old) (sight seat.new) result }
{
    match relock.woken {
        Woken::Alone => {
            let queues = yields_or_queues(mutex, seat, relock.behind_waker);
            barge_or_queue(rt, mutex, seat, queues)
        }
        Woken::WithOthers => mutex.lock(rt, seat),
    }
}

/// Locks the user mutex again, as `lock_again` does. Returns how the seat came to hold.
pub(crate) fn come_back<T: Kept, R: Wait>(
    rt: &R,
    mutex: &Mutex<T>,
    seat: &mut Seat<T>,
    relock: Relock,
) -> How
    requires belongs { OfMutex seat.old mutex.now }
    requires free { ((sight seat.old).depth ≡ 0) × ((sight seat.old).asleep ≡ false) × ((sight seat.old).takes < (limits_of mutex.now).budget) }
    ensures belongs { Beside seat.old seat.new }
    ensures run { RunGoesOnFrom seat.old seat.new }
    ensures woken { PollsAndWakesAsGranted seat.old seat.new }
    ensures back { ComesBackAs T.follows T.fits (limits_of mutex.now) (tries_of mutex.now) result (sight seat.old) (sight seat.new) }
    ensures as_woken { LocksAsWoken mutex.now.pace (limits_of mutex.now) relock.woken (sight seat.old) (sight seat.new) (Ok (Locked.Held result)) }
{
    match lock_again(rt, mutex, seat, relock) {
        Ok(locked) => match locked {
            Locked::Held(how) => how,
            Locked::Again(_) => unreachable!(),
        },
        Err(_) => unreachable!(),
    }
}
