//! The calls of a seat at rest, of a mutex that the seat does not hold, or holds any number of times, up to 65,535. A call
//! finds out by the owner word whether the seat holds the mutex, and by the carried word how often. It knows nothing of
//! sleep: `calls` refuses a seat that sleeps.
//!
//! None of these functions allocates, waits or wakes a thread. Nothing changes in other mutexes, nor in what the seat knows
//! of them.
ghost use Rattle.std.specs.Prelude.{◌≡◌, ◌⊎◌, ◌+◌, ◌^◌, ◌<◌, IfOk, length, true, false, Err};
ghost use Rattle.lfm_model.specs.declared.refusals.Refusal.{Refusal as RefusalNow};
ghost use Rattle.lfm_pool.specs.AnyDepth.{AsksAtAnyDepth, FindsNoStamp, IsAtRest, IsPlacedBy, TriesAtAnyDepth, UnlocksAtAnyDepth, granted_in};
ghost use Rattle.lfm_pool.specs.Ask.{MakesBesideFailuresIn};
ghost use Rattle.lfm_pool.specs.Belongs.{IsMutex, SameSeat};
ghost use Rattle.lfm_pool.specs.Depths.{HasDepthIn};
ghost use Rattle.lfm_pool.specs.Moves.{MakesAtMostIn};
ghost use Rattle.lfm_pool.specs.Seats.{popped_of, state_of};
ghost use Rattle.lfm_pool.specs.WakeUps.{WakesSeatOf};

use crate::admission::has_stamp;
use crate::ask_all::ask_without_waking;
use crate::deepen::{ask_again, give_up_one, try_again};
use crate::depth::depth;
use crate::pool::{Pool, TableSeat};
use crate::try_lock as free;
use crate::unlock::{Released, unlock as unlock_last};
use crate::wake_up::WakeUp;
use lfm_model::{Asked, Locked, Refusal};
use lfm_protocol::MAX_DEPTH;
use std::marker::Brand;

/// What an `unlock` has done.
pub enum Release {
    /// The seat gave up one of several holds, and still holds the mutex this many times: 1 to 65,534.
    Still(u32),
    /// The seat held the mutex once, and has released it.
    Last(Released),
}

/// Acquires this mutex or deepens the hold, without queueing. `has_take` says whether the seat may acquire a mutex.
///
/// Refuses, in this order: DepthFull, Spent (it does not hold the mutex, and may acquire none), and Busy: the mutex was taken,
/// and nothing was posted, or the post had gone when the call tried to accept it. It makes at most 6 atomic steps, and before
/// them a load of the owner word, and of the carried word if the seat holds the mutex.
#[inline(always)]
pub(crate) fn try_lock(
    pool: &Pool,
    seat: &mut TableSeat,
    mutex: usize,
    has_take: bool,
) -> Result<Locked, Refusal>
    requires rest { IsAtRest seat.old pool.now }
    requires mutex { IsMutex mutex pool.now }
    requires charged { has_take ≡ true → (state_of seat.old mutex).takes < pool.now.limits.budget }
    ensures belongs { SameSeat seat.old seat.new }
    ensures rest { IsAtRest seat.new pool.now }
    ensures tries { TriesAtAnyDepth result seat.old seat.new pool.now mutex }
    ensures spent { result ≡ Err RefusalNow.Spent → has_take ≡ false }
    ensures refuses { HasDepthIn seat.old pool.now mutex 0 → has_take ≡ false → result ≡ Err RefusalNow.Spent }
    ensures bounded { MakesAtMostIn 6 seat.old seat.new mutex }
{
    let held = depth(pool, seat, mutex);
    if held == 0 {
        if !has_take {
            return Err(Refusal::Spent);
        }
        return free::try_lock(pool, seat, mutex);
    }
    if held < MAX_DEPTH {
        return Ok(Locked::Again(try_again::<Brand>(pool, seat, mutex, held)));
    }
    Err(Refusal::DepthFull)
}

/// Asks for this mutex, or deepens the hold: a `lock` without its sleep. `has_take` says whether the seat may acquire a mutex.
/// Returns Held, Again with the new depth, or Asleep: the seat sleeps then until a receive finds its grant. It also returns the
/// wake-up of the seat to which it has granted the mutex, if any.
///
/// Refuses, in this order: DepthFull, and Spent (the seat does not hold the mutex, and may acquire none, or the mutex has no
/// stamp left). The call makes as many atomic steps as that of `ask_all`, or 3 if it deepens the hold, and before them a load of
/// the owner word, and of the carried word if the seat holds the mutex, and else of the push word.
#[inline(always)]
pub(crate) fn ask(
    pool: &Pool,
    seat: &mut TableSeat,
    mutex: usize,
    has_take: bool,
) -> (Result<Asked, Refusal>, Option<WakeUp>)
    requires rest { IsAtRest seat.old pool.now }
    requires mutex { IsMutex mutex pool.now }
    requires charged { has_take ≡ true → (state_of seat.old mutex).takes < pool.now.limits.budget }
    ensures belongs { SameSeat seat.old seat.new }
    ensures placed { IsPlacedBy result.0 seat.new pool.now mutex }
    ensures asks { AsksAtAnyDepth result.0 result.1 seat.old seat.new pool.now mutex }
    ensures spent { result.0 ≡ Err RefusalNow.Spent → (has_take ≡ false) ⊎ FindsNoStamp seat.old seat.new mutex }
    ensures refuses { HasDepthIn seat.old pool.now mutex 0 → has_take ≡ false → result.0 ≡ Err RefusalNow.Spent }
    ensures bounded { MakesBesideFailuresIn (10 + length (popped_of seat.new mutex)) seat.old seat.new mutex }
    ensures inside { WakesSeatOf result.1 pool.now }
{
    let held = depth(pool, seat, mutex);
    if held == 0 {
        if !has_take {
            return (Err(Refusal::Spent), None);
        }
        if !has_stamp(pool, seat, mutex) {
            return (Err(Refusal::Spent), None);
        }
        let (asked, granted) = ask_without_waking(pool, seat, mutex);
        return (Ok(asked), granted);
    }
    if held < MAX_DEPTH {
        let deeper = ask_again::<Brand>(pool, seat, mutex, held);
        return (Ok(Asked::Again(deeper)), None);
    }
    (Err(Refusal::DepthFull), None)
}

/// Gives up one hold of this mutex. If that was the last one, the mutex is free, granted to the oldest queued seat, or posted,
/// as `unlock` of the module of that name says. If it granted the mutex, it returns the wake-up of that seat.
///
/// Refuses with NotOwner if the seat does not hold this mutex. A seat that still holds the mutex has made no atomic step of the
/// protocol. Before its steps the call loads the owner word, and the carried word if the seat holds the mutex.
#[inline(always)]
pub(crate) fn unlock(pool: &Pool, seat: &mut TableSeat, mutex: usize) -> Result<Release, Refusal>
    requires rest { IsAtRest seat.old pool.now }
    requires mutex { IsMutex mutex pool.now }
    requires left { HasDepthIn seat.old pool.now mutex 1 → seat.old.posts + 2 < 2 ^ 48 }
    ensures belongs { SameSeat seat.old seat.new }
    ensures rest { IsAtRest seat.new pool.now }
    ensures unlocks { UnlocksAtAnyDepth result seat.old seat.new pool.now mutex }
    ensures bounded { MakesAtMostIn (9 + length (popped_of seat.new mutex)) seat.old seat.new mutex }
    ensures inside { IfOk result (λ r. WakesSeatOf (granted_in r) pool.now) }
{
    let held = depth(pool, seat, mutex);
    if held == 0 {
        return Err(Refusal::NotOwner);
    }
    if held == 1 {
        return Ok(Release::Last(unlock_last(pool, seat, mutex)));
    }
    Ok(Release::Still(give_up_one(pool, seat, mutex, held)))
}
