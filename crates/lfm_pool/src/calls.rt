//! The calls of a seat that never wait. A seat says itself in which mutex of the pool it sleeps, and is refused then, except by a
//! receive of that mutex. It is refused as Spent only once it has made 2^63 takes or 2^47 posts, counted over all mutexes, or
//! if the mutex has had 2^48 - 2^13 pushes.
//!
//! A seat that sleeps finds its grant by `try_receive`. `ask` and `unlock` wake the thread of the seat to which they grant the
//! mutex; the other calls wake nobody. None allocates or waits: the calls that wait are in `lock`. Nothing changes in other
//! mutexes, nor in what the seat knows of them.
//!
//! Besides the atomic steps that are counted here, each call but `try_receive` loads the owner word. If the seat holds the mutex,
//! it also loads the carried word, and to change the depth loads it again and stores it. An `ask` of a seat that does not hold
//! loads the push word. Records that are popped are passed on by loads and stores of the carried word and of link words.
ghost use Rattle.std.specs.Prelude.{◌≡◌, ◌+◌, ◌<◌, ◌&&◌, Err, IfOk, length, nat_lt};
ghost use Rattle.lfm_model.specs.declared.refusals.Refusal.{Refusal as RefusalNow};
ghost use Rattle.lfm_pool.specs.Admissions.{most_posts};
ghost use Rattle.lfm_pool.specs.AnyDepth.{granted_in};
ghost use Rattle.lfm_pool.specs.Ask.{MakesBesideFailuresIn};
ghost use Rattle.lfm_pool.specs.Belongs.{IsMutex};
ghost use Rattle.lfm_pool.specs.Calls.{Asks, AsksWaking, IsBetweenCalls, MayNotTake, Receives, SamePoolSeat, Tries, Unlocks, UnlocksWaking};
ghost use Rattle.lfm_pool.specs.Moves.{MakesAtMostIn};
ghost use Rattle.lfm_pool.specs.Seats.{popped_of};
ghost use Rattle.lfm_pool.specs.WakeUps.{WakesSeatOf};

pub use crate::any_depth::Release;
use crate::pool::Pool;
use crate::seat::PoolSeat;
pub use crate::unlock::Released;
use crate::wake_up::{WakeUp, wake_and_note, wake_granted_and_note};
use crate::{any_depth, receive};
use lfm_model::{Asked, How, Locked, Refusal, Unlocked};

/// A seat that has made this number of posts acquires no mutex, and does not queue.
const MOST_POSTS: u64 = 1 << 47;

/// Acquires this mutex or deepens the hold, without queueing. An acquisition is charged one take. If it finds a post, it
/// tries to accept it.
///
/// Refuses, in this order: Asleep (the seat sleeps in some mutex of the pool), DepthFull (it holds this mutex 65,535 times),
/// Spent (it does not hold this mutex, and has made 2^63 takes or 2^47 posts), and Busy: the mutex was taken, and nothing was
/// posted, or the post had gone when the call tried to accept it. A call that is refused is charged nothing. Whatever other
/// seats do, the call makes at most 6 atomic steps.
#[inline(always)]
pub fn try_lock(pool: &Pool, seat: &mut PoolSeat, mutex: usize) -> Result<Locked, Refusal>
    requires between { IsBetweenCalls seat.old pool.now }
    requires mutex { IsMutex mutex pool.now }
    ensures belongs { SamePoolSeat seat.old seat.new }
    ensures between { IsBetweenCalls seat.new pool.now }
    ensures tries { Tries result seat.old seat.new pool.now mutex }
    ensures spent { MayNotTake seat.old pool.now mutex → result ≡ Err RefusalNow.Spent }
    ensures bounded { MakesAtMostIn 6 seat.old.table_seat seat.new.table_seat mutex }
{
    if seat.asleep_in.is_some() {
        return Err(Refusal::Asleep);
    }
    let has_take = has_take(pool, seat);
    let locked = any_depth::try_lock(pool, &mut seat.table_seat, mutex, has_take);
    match locked {
        Ok(Locked::Held(_)) => seat.takes += 1,
        Ok(Locked::Again(_)) => {}
        Err(_) => {}
    }
    locked
}

/// Asks for this mutex, or deepens the hold: a `lock` without its sleep. An acquisition is charged one take, also one that the
/// seat waits for. If the mutex is free, the seat acquires it; if the seat holds it, the hold is deepened. Else the seat queues:
/// it pushes its record, and tries to take over a post that it finds then. If it succeeds, it serves the oldest queued seat,
/// which may be itself. Returns Held, Again with the new depth, or Asleep: the seat sleeps then until a receive finds its grant.
/// It wakes no thread, and also returns the wake-up of the seat to which it has granted the mutex, if any.
///
/// Refuses, in this order: Asleep (the seat sleeps in some mutex of the pool), DepthFull (it holds this mutex 65,535 times), and
/// Spent (it does not hold this mutex, and has made 2^63 takes or 2^47 posts, or the mutex has had 2^48 - 2^13 pushes). The call
/// makes at most 10 atomic steps, one more for each record that is popped when it has ended, and two more for each push that
/// fails since another seat has changed the push word.
#[inline(always)]
pub fn ask_without_waking(
    pool: &Pool,
    seat: &mut PoolSeat,
    mutex: usize,
) -> (Result<Asked, Refusal>, Option<WakeUp>)
    requires between { IsBetweenCalls seat.old pool.now }
    requires mutex { IsMutex mutex pool.now }
    ensures belongs { SamePoolSeat seat.old seat.new }
    ensures between { IsBetweenCalls seat.new pool.now }
    ensures asks { Asks result.0 result.1 seat.old seat.new pool.now mutex }
    ensures spent { MayNotTake seat.old pool.now mutex → result.0 ≡ Err RefusalNow.Spent }
    ensures bounded { MakesBesideFailuresIn (10 + length (popped_of seat.new.table_seat mutex)) seat.old.table_seat seat.new.table_seat mutex }
    ensures inside { WakesSeatOf result.1 pool.now }
{
    if seat.asleep_in.is_some() {
        return (Err(Refusal::Asleep), None);
    }
    let has_take = has_take(pool, seat);
    let (asked, granted) = any_depth::ask(pool, &mut seat.table_seat, mutex, has_take);
    match asked {
        Ok(Asked::Held(_)) => seat.takes += 1,
        Ok(Asked::Asleep) => {
            seat.takes += 1;
            seat.asleep_in = Some(mutex);
        }
        Ok(Asked::Again(_)) => {}
        Err(_) => {}
    }
    (asked, granted)
}

/// Gives up one hold of this mutex. If that was the last one, the mutex is free, granted to the oldest queued seat, or posted for
/// a seat that is on its way into the queue, and perhaps taken over by that. It wakes no thread: if it granted the mutex, it
/// returns the wake-up of that seat.
///
/// Refuses, in this order: Asleep (the seat sleeps in some mutex of the pool), and NotOwner (it does not hold this mutex). The
/// call makes at most 9 atomic steps, and one more for each record that is popped when it has ended. A seat that still holds the
/// mutex has made none.
#[inline(always)]
pub fn unlock_without_waking(
    pool: &Pool,
    seat: &mut PoolSeat,
    mutex: usize,
) -> Result<Release, Refusal>
    requires between { IsBetweenCalls seat.old pool.now }
    requires mutex { IsMutex mutex pool.now }
    ensures belongs { SamePoolSeat seat.old seat.new }
    ensures between { IsBetweenCalls seat.new pool.now }
    ensures unlocks { Unlocks result seat.old seat.new pool.now mutex }
    ensures bounded { MakesAtMostIn (9 + length (popped_of seat.new.table_seat mutex)) seat.old.table_seat seat.new.table_seat mutex }
    ensures inside { IfOk result (λ r. WakesSeatOf (granted_in r) pool.now) }
{
    if seat.asleep_in.is_some() {
        return Err(Refusal::Asleep);
    }
    any_depth::unlock(pool, &mut seat.table_seat, mutex)
}

/// Whether the seat may acquire a mutex or queue, as far as its takes and its posts go. If so, enough numbers are left for a post
/// of each mutex that it holds.
#[inline(always)]
fn has_take(pool: &Pool, seat: &PoolSeat) -> bool
    ensures { result ≡ (nat_lt seat.now.takes pool.now.limits.budget && nat_lt seat.now.table_seat.posts most_posts) }
{
    seat.takes < pool.limits.budget && seat.table_seat.posts < MOST_POSTS
}

/// `ask_without_waking`, with the same answers and refusals, which also wakes the thread of the seat to which it has granted
/// the mutex, if any: by one system call.
#[inline(always)]
pub fn ask(pool: &Pool, seat: &mut PoolSeat, mutex: usize) -> Result<Asked, Refusal>
    requires between { IsBetweenCalls seat.old pool.now }
    requires mutex { IsMutex mutex pool.now }
    ensures belongs { SamePoolSeat seat.old seat.new }
    ensures between { IsBetweenCalls seat.new pool.now }
    ensures asks { AsksWaking result seat.old seat.new pool.now mutex }
    ensures spent { MayNotTake seat.old pool.now mutex → result ≡ Err RefusalNow.Spent }
    ensures bounded { MakesBesideFailuresIn (10 + length (popped_of seat.new.table_seat mutex)) seat.old.table_seat seat.new.table_seat mutex }
{
    let (asked, wake_up) = ask_without_waking(pool, seat, mutex);
    wake_granted_and_note(pool, wake_up, &mut seat.off_trail);
    asked
}

/// `unlock_without_waking`, with the same refusals, which also wakes the thread of the seat to which it has granted the mutex,
/// if any: by one system call. Returns Still with the depth that is left, Free, Granted with that seat, Posted, or TakenOver:
/// the mutex was posted, and another call took it before this one could take it back.
#[inline(always)]
pub fn unlock(pool: &Pool, seat: &mut PoolSeat, mutex: usize) -> Result<Unlocked, Refusal>
    requires between { IsBetweenCalls seat.old pool.now }
    requires mutex { IsMutex mutex pool.now }
    ensures belongs { SamePoolSeat seat.old seat.new }
    ensures between { IsBetweenCalls seat.new pool.now }
    ensures unlocks { UnlocksWaking result seat.old seat.new pool.now mutex }
    ensures bounded { MakesAtMostIn (9 + length (popped_of seat.new.table_seat mutex)) seat.old.table_seat seat.new.table_seat mutex }
{
    match unlock_without_waking(pool, seat, mutex) {
        Err(refusal) => Err(refusal),
        Ok(Release::Still(depth)) => Ok(Unlocked::Still(depth)),
        Ok(Release::Last(Released::Free)) => Ok(Unlocked::Free),
        Ok(Release::Last(Released::Granted(wake_up))) => {
            let next = wake_up.seat();
            wake_and_note(pool, wake_up, &mut seat.off_trail);
            Ok(Unlocked::Granted(next))
        }
        Ok(Release::Last(Released::Posted)) => Ok(Unlocked::Posted),
        Ok(Release::Last(Released::TakenOver)) => Ok(Unlocked::TakenOver),
    }
}

/// Loads the wake word of a seat that sleeps in this mutex, once, and acquires the mutex if it finds a grant there. Returns
/// how the seat acquired the mutex, or None if no grant was there, and the seat sleeps on. It makes at most 3 atomic steps.
///
/// Refuses with NotWaiting if the seat does not sleep in this mutex.
#[inline(always)]
pub fn try_receive(pool: &Pool, seat: &mut PoolSeat, mutex: usize) -> Result<Option<How>, Refusal>
    requires between { IsBetweenCalls seat.old pool.now }
    requires mutex { IsMutex mutex pool.now }
    ensures belongs { SamePoolSeat seat.old seat.new }
    ensures between { IsBetweenCalls seat.new pool.now }
    ensures receives { Receives result seat.old seat.new pool.now mutex }
    ensures bounded { MakesAtMostIn 3 seat.old.table_seat seat.new.table_seat mutex }
{
    if seat.asleep_in != Some(mutex) {
        return Err(Refusal::NotWaiting);
    }
    let received = receive::try_receive(pool, &mut seat.table_seat, mutex);
    if received.is_some() {
        seat.asleep_in = None;
    }
    Ok(received)
}
