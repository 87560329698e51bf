//! The calls of a seat that may wait: `lock`, `lock_barging`, and `receive_lock` for a seat that an ask has put to sleep.
//!
//! No grant is missed. A thread parks only after it has loaded a wake word that is no grant, and it parks on the low 32 bits of
//! that word, in which a grant differs from the other states. Whoever stores a grant wakes the thread of that seat afterwards, by
//! the contracts of `ask` and `unlock`. That this thread then wakes up is not proved: neither the sleep nor the wake-up changes a
//! word, and their contracts promise nothing.
//!
//! The loads by which a thread polls or parks are no steps of its seat, and no proof learns anything from them. They are made
//! only here and in `barging`, by calls that may wait. Besides them, `count` of `reading` makes such a load.
ghost use Rattle.std.specs.Prelude.{◌≡◌, ◌≢◌, ◌<◌, ◌≤◌, IfErr};
ghost use Rattle.lfm_model.specs.declared.refusals.Refusal.{Refusal as RefusalNow};
ghost use Rattle.lfm_pool.specs.Belongs.{IsMutex};
ghost use Rattle.lfm_pool.specs.Calls.{IsBetweenCalls, SamePoolSeat};
ghost use Rattle.lfm_pool.specs.Locks.{Awaits, Barges, BargesOn, Locks};

use crate::barging::{is_busy, nap, spin};
use crate::calls::{ask, try_lock, try_receive};
use crate::layout::wake_at;
use crate::pool::Pool;
use crate::seat::PoolSeat;
use lfm_model::{Asked, How, Locked, Refusal};
use lfm_words::Wake;
use std::hint::spin_loop;
use std::sync::Wait;

/// How often the processor is told to pause between two polls, so that the cache line stays with the seat that grants.
const PAUSES: u32 = 4;

/// Acquires this mutex, or deepens the hold: `ask`, and then `receive_lock` if that answered Asleep. Returns Held with how the
/// seat acquired the mutex, or Again with the new depth. Queued seats are served in the order in which they queued.
///
/// Refuses as `ask`: Asleep, DepthFull, Spent, in this order. It may sleep, and may wake the thread of another seat as `ask`
/// does. It allocates nothing. Nothing changes in other mutexes.
#[inline(always)]
pub fn lock<R: Wait>(
    rt: &R,
    pool: &Pool,
    seat: &mut PoolSeat,
    mutex: usize,
) -> Result<Locked, Refusal>
    requires between { IsBetweenCalls seat.old pool.now }
    requires mutex { IsMutex mutex pool.now }
    ensures belongs { SamePoolSeat seat.old seat.new }
    ensures between { IsBetweenCalls seat.new pool.now }
    ensures locks { Locks result seat.old seat.new pool.now mutex }
{
    match ask(pool, seat, mutex)? {
        Asked::Held(how) => Ok(Locked::Held(how)),
        Asked::Again(depth) => Ok(Locked::Again(depth)),
        Asked::Asleep => Ok(Locked::Held(receive_lock(rt, pool, seat, mutex)?)),
    }
}

/// A `lock` that first tries to acquire the mutex, at most 16 times, and queues only if each try fails. It makes one try at once.
/// Then it spins 11 times and naps 4 times, and makes a try each time that a read of the count finds 0 afterwards. A spin is
/// up to 256 pauses, and a nap a sleep of 20 to 70 microseconds. It queues earlier if others queue already: the spins end if
/// the count is above 2, and the naps if it is above 16. A pool that never polls never spins. A read of the count is no step of
/// the protocol.
///
/// A seat that tries has no place in the queue yet. From its push on, the order of the queue applies to it, as after `lock`. A
/// hold is deepened at once.
///
/// Refuses as `lock`: Asleep, DepthFull, Spent, in this order. It may sleep, and may wake the thread of another seat as `ask`
/// does. It allocates nothing. Nothing changes in other mutexes.
#[inline(always)]
pub fn lock_barging<R: Wait>(
    rt: &R,
    pool: &Pool,
    seat: &mut PoolSeat,
    mutex: usize,
) -> Result<Locked, Refusal>
    requires between { IsBetweenCalls seat.old pool.now }
    requires mutex { IsMutex mutex pool.now }
    ensures belongs { SamePoolSeat seat.old seat.new }
    ensures between { IsBetweenCalls seat.new pool.now }
    ensures barges { Barges 16 result seat.old seat.new pool.now mutex }
    ensures never_busy { IfErr result (λ e. e ≢ RefusalNow.Busy) }
{
    // It does not read the count first: mostly no seat holds, and the read would be one more load of its cache line.
    let tried = try_lock(pool, seat, mutex);
    if !is_busy(&tried) {
        return tried;
    }
    barge(rt, pool, seat, mutex)
}

/// The slow path of `lock_barging`, after its first try: spins, then naps, and then queues.
#[inline(never)]
fn barge<R: Wait>(rt: &R, pool: &Pool, seat: &mut PoolSeat, mutex: usize) -> Result<Locked, Refusal>
    requires between { IsBetweenCalls seat.old pool.now }
    requires mutex { IsMutex mutex pool.now }
    ensures belongs { SamePoolSeat seat.old seat.new }
    ensures between { IsBetweenCalls seat.new pool.now }
    ensures barges { BargesOn 15 result seat.old seat.new pool.now mutex }
    ensures never_busy { IfErr result (λ e. e ≢ RefusalNow.Busy) }
{
    let spun = spin(pool, seat, mutex);
    if !is_busy(&spun) {
        return spun;
    }
    let napped = nap(rt, pool, seat, mutex);
    if !is_busy(&napped) {
        return napped;
    }
    lock(rt, pool, seat, mutex)
}

/// Waits until the seat, which sleeps in this mutex, is granted it, and returns how the seat acquired the mutex. It makes a
/// receive. If that finds no grant, it polls the seat's wake word, in all at most as often as the pool says, and then sleeps
/// until it is woken; and so on until a receive finds the grant.
///
/// Refuses with NotWaiting if the seat does not sleep in this mutex. It may hold others. Nothing changes in them. It allocates
/// nothing, and wakes no thread.
pub fn receive_lock<R: Wait>(
    rt: &R,
    pool: &Pool,
    seat: &mut PoolSeat,
    mutex: usize,
) -> Result<How, Refusal>
    requires between { IsBetweenCalls seat.old pool.now }
    requires mutex { IsMutex mutex pool.now }
    ensures belongs { SamePoolSeat seat.old seat.new }
    ensures between { IsBetweenCalls seat.new pool.now }
    ensures awaits { Awaits result seat.old seat.new pool.now mutex }
{
    let word = wake_at(pool.mutexes, seat.table_seat.number);
    let mut left = pool.polls;
    'receives: for _ in rt.forever() {
        match try_receive(pool, seat, mutex) {
            Ok(Some(how)) => return Ok(how),
            Err(refusal) => return Err(refusal),
            Ok(None) => {}
        }
        left = await_grant(rt, pool, word, left);
    }
    unreachable!()
}

/// Waits for a grant in this wake word: polls it at most `polls` times, and parks if no poll finds a grant. Returns how many
/// polls are left. It may also return if there is no grant.
fn await_grant<R: Wait>(rt: &R, pool: &Pool, word: usize, polls: u32) -> u32
    requires inside { word < pool.now.table.shared.table_id.words }
    ensures left { result ≤ polls }
{
    for made in 0..polls {
        for _ in 0..PAUSES {
            spin_loop();
        }
        if Wake::is_grant_word(pool.table.shared.peek(word)) {
            return polls - made - 1;
        }
    }
    park(rt, pool, word);
    0
}

/// Parks on this wake word until a wake-up, if the word is no grant. It may also return without a wake-up.
fn park<R: Wait>(rt: &R, pool: &Pool, word: usize)
    requires inside { word < pool.now.table.shared.table_id.words }
{
    let words = &pool.table.shared;
    let seen = words.peek(word);
    if !Wake::is_grant_word(seen) {
        words.park(rt, word, seen as u32);
    }
}
