//! `unlock` of a seat that holds the mutex once.
ghost use Rattle.std.specs.Prelude.{◌≡◌, ◌+◌, ◌^◌, ◌<◌, length};
ghost use Rattle.lfm_protocol.specs.declared.points.Point.TheVariants.{ReleaseHandoffStore};
ghost use Rattle.lfm_protocol.specs.declared.points.Releaser.TheVariants.{Unlocker};
ghost use Rattle.lfm_pool.specs.Belongs.{IsMutex, OfPool, SameSeat};
ghost use Rattle.lfm_pool.specs.Chain.{rested};
ghost use Rattle.lfm_pool.specs.Moves.{MakesAtMostIn, MayStepIn};
ghost use Rattle.lfm_pool.specs.Seats.{note_of, popped_of, state_of, HoldsOnceIn, RestsInOthers};
ghost use Rattle.lfm_pool.specs.Unlock.{PostsIn, ReleasesIn, UnlocksIn};
ghost use Rattle.lfm_pool.specs.WakeUps.{WakesSeatOf, granted_by_release, granted_by_start};

use crate::fast_paths::leave;
use crate::handoff::{handoff_exchange, handoff_store};
use crate::layout::PUSH;
use crate::moves::go_on;
use crate::pool::{Pool, TableSeat};
use crate::serve::serve;
use crate::wake_up::WakeUp;
use lfm_protocol::points::{Carrier, Releaser};
use lfm_table::operations::Access;
use lfm_words::{pack_handoff, unpack_link};

/// What `unlock` returns.
pub enum Released {
    /// No other seat wanted the mutex: it is free.
    Free,
    /// The mutex is granted to the seat of the record that was the oldest in the queue. This is the wake-up of that seat.
    Granted(WakeUp),
    /// Another seat wants the mutex and had not pushed its record yet. The mutex is posted, for a call to take.
    Posted,
    /// The mutex was posted, and another call took it before this one could take it back.
    TakenOver,
}

/// How far an `unlock` has come.
pub enum Unlocking {
    /// No other seat wanted the mutex: it is free. The call has ended.
    Free,
    /// The mutex is granted to the seat of the oldest record, whose wake-up this is. The call has ended.
    Granted(WakeUp),
    /// Other seats are counted, but none has pushed its record yet. The call is open, and its next step posts the mutex.
    Posts,
}

/// Releases this mutex, for a seat that holds it once. If no other seat wants the mutex, it is free then. Else the call
/// grants it to the oldest queued seat: if records are popped, to that of the oldest of them; if none is, it collects the
/// push list, and grants the mutex to the seat of its oldest record. If no seat is queued, those that want the mutex have
/// not pushed their records yet: the call posts the mutex for them, by the next number of its seat's posts, and looks at the
/// push word. If it finds a record there, it tries to take the post back, and then serves the oldest queued seat. It wakes
/// no thread.
///
/// The seat has to rest in all mutexes, to hold this one once, and to have a number for a post left, so
/// that there is no refusal. It may hold other mutexes. Nothing changes in them, nor in what the seat knows of them.
/// Whatever other seats do, the call makes at most 9 atomic steps, and one more for each record that is popped when it has
/// ended. It allocates nothing and never waits.
#[inline(always)]
pub fn unlock(pool: &Pool, seat: &mut TableSeat, mutex: usize) -> Released
    requires belongs { OfPool seat.old pool.now }
    requires mutex { IsMutex mutex pool.now }
    requires holds { HoldsOnceIn seat.old pool.now mutex }
    requires elsewhere { RestsInOthers seat.old mutex }
    requires left { seat.old.posts + 2 < 2 ^ 48 }
    ensures belongs { SameSeat seat.old seat.new }
    ensures may { MayStepIn seat.new pool.now mutex }
    ensures releases { ReleasesIn result seat.old seat.new pool.now mutex }
    ensures bounded { MakesAtMostIn (9 + length (popped_of seat.new mutex)) seat.old seat.new mutex }
    ensures inside { WakesSeatOf (granted_by_release result) pool.now }
{
    match begin_unlock(pool, seat, mutex) {
        Unlocking::Free => Released::Free,
        Unlocking::Granted(wake_up) => Released::Granted(wake_up),
        Unlocking::Posts => post(pool, seat, mutex),
    }
}

/// Begins an `unlock` of this mutex: up to the point at which the mutex is free, or granted, or has to be posted. Returns how
/// far the call has come. It wakes no thread.
///
/// The seat has to rest in all mutexes, and to hold this one once, so that there is no refusal. It may hold other mutexes.
/// Nothing changes in them, nor in what the seat knows of them. The call makes at most 5 atomic steps, and one more for each
/// record that is popped when it has ended. It allocates nothing and never waits.
#[inline(always)]
pub(crate) fn begin_unlock(pool: &Pool, seat: &mut TableSeat, mutex: usize) -> Unlocking
    requires belongs { OfPool seat.old pool.now }
    requires mutex { IsMutex mutex pool.now }
    requires holds { HoldsOnceIn seat.old pool.now mutex }
    requires elsewhere { RestsInOthers seat.old mutex }
    ensures belongs { SameSeat seat.old seat.new }
    ensures may { MayStepIn seat.new pool.now mutex }
    ensures unlocks { UnlocksIn result seat.old seat.new pool.now mutex }
    ensures bounded { MakesAtMostIn (5 + length (popped_of seat.new mutex)) seat.old seat.new mutex }
    ensures inside { WakesSeatOf (granted_by_start result) pool.now }
{
    let count = leave(pool, seat, mutex);
    if count == 1 {
        return Unlocking::Free;
    }
    let carrier = Carrier::Releaser(Releaser::Unlocker);
    let Some(wake_up) = serve(pool, seat, mutex, carrier) else {
        return Unlocking::Posts;
    };
    Unlocking::Granted(wake_up)
}

/// Ends an `unlock` that has found no seat in the queue: posts the mutex, and looks at the push word. If that has no record,
/// the locker that pushes next finds the post. Else the call tries to take its post back, and serves the oldest queued seat
/// if it succeeds.
fn post(pool: &Pool, seat: &mut TableSeat, mutex: usize) -> Released
    requires may { MayStepIn seat.old pool.now mutex }
    requires at { (state_of seat.old mutex).point ≡ ReleaseHandoffStore Unlocker }
    requires whole { note_of seat.old mutex ≡ rested (popped_of seat.old mutex) }
    requires left { seat.old.posts + 2 < 2 ^ 48 }
    ensures belongs { SameSeat seat.old seat.new }
    ensures may { MayStepIn seat.new pool.now mutex }
    ensures posts { PostsIn result seat.old seat.new pool.now mutex }
    ensures inside { WakesSeatOf (granted_by_release result) pool.now }
{
    handoff_store(pool, seat, mutex);
    let word = go_on(pool, seat, mutex, Access::Load(PUSH));
    let push = unpack_link(word);
    if push.next == 0 {
        return Released::Posted;
    }
    let own = pack_handoff(seat.number, seat.posts);
    let found = handoff_exchange(pool, seat, mutex, own);
    if found != own {
        return Released::TakenOver;
    }
    let carrier = Carrier::Reclaimer(Releaser::Unlocker);
    let Some(served) = serve(pool, seat, mutex, carrier) else {
        unreachable!()
    };
    Released::Granted(served)
}
