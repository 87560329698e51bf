//! The tries that `lock_barging` makes after its first one, before it queues: by spins and by naps. Nothing here queues. No step
//! is made besides those of `try_lock`.
//!
//! Before each try the count is read, since a failed try costs the holder more than a read does. Tries, pauses and naps are as
//! many as at the usual pace of `Mutex` of lfm_mutex, which counts the first try as a spin. There they were measured.
ghost use Rattle.std.specs.Prelude.{◌≡◌, ◌↔◌, ◌<◌, ◌≤◌, Err, IsTrue};
ghost use Rattle.lfm_model.specs.declared.refusals.Refusal.{Refusal as RefusalNow};
ghost use Rattle.lfm_pool.specs.Belongs.{IsMutex};
ghost use Rattle.lfm_pool.specs.Calls.{IsBetweenCalls, SamePoolSeat};
ghost use Rattle.lfm_pool.specs.Locks.{MayTry, TriesUpTo};

use crate::calls::try_lock;
use crate::layout::{OWNER, own_at, wake_at};
use crate::pool::Pool;
use crate::reading::count;
use crate::seat::PoolSeat;
use lfm_model::{Locked, Refusal};
use lfm_words::Wake;
use std::hint::spin_loop;
use std::sync::Wait;
use std::thread::yield_now;
use std::time::Duration;

/// Spins after the first try.
const SPINS: u32 = 11;

/// Naps after the spins.
const NAPS: u32 = 4;

/// The number of pauses of a spin doubles from one spin to the next, up to 2 to the power of this.
const MOST_DOUBLINGS: u32 = 8;

/// If more than the holder and one other seat are counted, others queue already. More spins would only take the cache line of
/// the count away from the holder.
const HOLDER_AND_ONE_MORE: u64 = 2;

/// If more seats than this are counted, it is better to queue at once than to nap.
const CROWD: u64 = 16;

/// How long a nap should last, in microseconds. The system may add about 50.
const NAP_MICROSECONDS: u64 = 20;

/// Spins: pauses, reads the count, and makes a try if it is 0, until a try is not refused as Busy. Returns the answer of that
/// try. Returns Busy if there was none, also if others queue already.
pub fn spin(pool: &Pool, seat: &mut PoolSeat, mutex: usize) -> Result<Locked, Refusal>
    requires between { IsBetweenCalls seat.old pool.now }
    requires mutex { IsMutex mutex pool.now }
    ensures belongs { SamePoolSeat seat.old seat.new }
    ensures between { IsBetweenCalls seat.new pool.now }
    ensures tries { TriesUpTo 11 result seat.old seat.new pool.now mutex }
{
    for made in 0..spins_of(pool) {
        pause_for(1 << made.min(MOST_DOUBLINGS));
        let counted = count(pool, mutex);
        let tried = try_if_free(pool, seat, mutex, counted);
        if !is_busy(&tried) {
            return tried;
        }
        if counted > HOLDER_AND_ONE_MORE {
            return Err(Refusal::Busy);
        }
    }
    Err(Refusal::Busy)
}

/// Naps: reads the count, sleeps, and makes a try if the count is 0 then, until a try is not refused as Busy. Returns the
/// answer of that try. Returns Busy if there was none, also if many hold or wait. Threads that sleep leave the processors to the
/// holder, and a queue can drain meanwhile.
pub fn nap<R: Wait>(
    rt: &R,
    pool: &Pool,
    seat: &mut PoolSeat,
    mutex: usize,
) -> Result<Locked, Refusal>
    requires between { IsBetweenCalls seat.old pool.now }
    requires mutex { IsMutex mutex pool.now }
    ensures belongs { SamePoolSeat seat.old seat.new }
    ensures between { IsBetweenCalls seat.new pool.now }
    ensures tries { TriesUpTo 4 result seat.old seat.new pool.now mutex }
{
    let word = wake_at(pool.mutexes, seat.table_seat.number);
    for made in 0..NAPS {
        let found = count(pool, mutex);
        if found > CROWD {
            return Err(Refusal::Busy);
        }
        if made == 0 && is_handed_over(pool, mutex, found) {
            // That thread may be ready on this processor. A yield lets it run at once; a nap would last longer than its section.
            yield_now();
        } else if found > 0 {
            sleep(rt, pool, word);
        }
        let tried = try_if_free(pool, seat, mutex, count(pool, mutex));
        if !is_busy(&tried) {
            return tried;
        }
    }
    Err(Refusal::Busy)
}

/// Makes a try if this count of the mutex is 0. Returns its answer, and Busy if it made none.
#[inline(always)]
fn try_if_free(
    pool: &Pool,
    seat: &mut PoolSeat,
    mutex: usize,
    counted: u64,
) -> Result<Locked, Refusal>
    requires between { IsBetweenCalls seat.old pool.now }
    requires mutex { IsMutex mutex pool.now }
    ensures belongs { SamePoolSeat seat.old seat.new }
    ensures between { IsBetweenCalls seat.new pool.now }
    ensures tries { MayTry result seat.old seat.new pool.now mutex }
{
    if counted > 0 {
        return Err(Refusal::Busy);
    }
    try_lock(pool, seat, mutex)
}

/// How often a seat of this pool spins. A pool that never polls is one for a single processor, where a spin would only keep the
/// holder from running.
fn spins_of(pool: &Pool) -> u32
    ensures { result ≤ 11 }
{
    if pool.polls == 0 { 0 } else { SPINS }
}

/// Whether the mutex may have been handed over to a seat whose thread has not run since: one seat is counted, and none owns.
fn is_handed_over(pool: &Pool, mutex: usize, counted: u64) -> bool
    requires mutex { IsMutex mutex pool.now }
{
    counted == 1 && pool.table.shared.peek(own_at(mutex, OWNER)) == 0
}

/// Sleeps on this wake word, of a seat that is awake. No grant is stored there meanwhile. A late wake-up of an earlier grant
/// only ends the sleep early.
fn sleep<R: Wait>(rt: &R, pool: &Pool, word: usize)
    requires inside { word < pool.now.table.shared.table_id.words }
{
    let words = &pool.table.shared;
    let seen = words.peek(word);
    if !Wake::is_grant_word(seen) {
        words.park_timeout(
            rt,
            word,
            seen as u32,
            Duration::from_micros(NAP_MICROSECONDS),
        );
    }
}

/// Whether this try was refused as Busy.
#[inline(always)]
pub fn is_busy(tried: &Result<Locked, Refusal>) -> bool
    ensures { IsTrue result ↔ (tried.now ≡ Err RefusalNow.Busy) }
{
    matches!(tried, Err(Refusal::Busy))
}

/// Makes this number of pauses.
fn pause_for(pauses: u32) {
    for _ in 0..pauses {
        spin_loop();
    }
}
