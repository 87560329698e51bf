//! What a seat reads of a mutex between two calls: which seat owns it, and how many times the seat itself holds it; and how many
//! seats hold a mutex or want it, which a thread can read without a seat.
//!
//! Nothing changes by these functions, neither in the pool nor in what the seat knows: no step of the protocol is made. None
//! allocates or waits, and none refuses anything: a seat that sleeps may call them too.
ghost use Rattle.std.specs.Prelude.{◌≡◌, ◌≢◌, Some};
ghost use Rattle.lfm_pool.specs.Belongs.{IsMutex};
ghost use Rattle.lfm_pool.specs.Calls.{IsBetweenCalls, SamePoolSeat, WakesNobody};
ghost use Rattle.lfm_pool.specs.Depths.{HasDepthIn, TellsOwner};
ghost use Rattle.lfm_pool.specs.Tables.{part};

use crate::layout::{COUNT, own_at};
use crate::pool::Pool;
use crate::seat::PoolSeat;

/// How many seats hold this mutex or want it, by one load of its count. A queued seat is counted. The holder is counted twice
/// while its `ask` adds a hold. The number is a hint, since it may change at once, and the contract promises nothing of it: the
/// load is no step of any seat. `lock_barging` makes it between its tries, and no other call does.
#[inline(always)]
pub fn count(pool: &Pool, mutex: usize) -> u64
    requires mutex { IsMutex mutex pool.now }
{
    pool.table.shared.peek(own_at(mutex, COUNT))
}

/// Loads the owner word of this mutex. Returns the number of the seat that owned it then, or 0 if none did. It is the caller's
/// own number exactly if the caller holds the mutex; the contract says only this. Another seat's number may be out of date when
/// the caller reads it.
#[inline(always)]
pub fn read_owner(pool: &Pool, seat: &mut PoolSeat, mutex: usize) -> u64
    requires between { IsBetweenCalls seat.old pool.now }
    requires mutex { IsMutex mutex pool.now }
    ensures belongs { SamePoolSeat seat.old seat.new }
    ensures between { IsBetweenCalls seat.new pool.now }
    ensures same { (seat.new.asleep_in ≡ seat.old.asleep_in) × (seat.new.takes ≡ seat.old.takes) × (seat.new.table_seat.place.me ≡ seat.old.table_seat.place.me) }
    ensures woken { WakesNobody seat.old seat.new }
    ensures tells { TellsOwner (part seat.old.table_seat.place.me.0 mutex) result }
{
    crate::depth::read_owner(pool, &mut seat.table_seat, mutex)
}

/// How many times the seat holds this mutex: 0 to 65,535. It is 0 if the seat sleeps in this mutex, and nothing is loaded then.
/// Else the call loads the owner word, and the carried word if the seat holds the mutex.
#[inline(always)]
pub fn depth(pool: &Pool, seat: &mut PoolSeat, mutex: usize) -> u32
    requires between { IsBetweenCalls seat.old pool.now }
    requires mutex { IsMutex mutex pool.now }
    ensures belongs { SamePoolSeat seat.old seat.new }
    ensures between { IsBetweenCalls seat.new pool.now }
    ensures same { (seat.new.asleep_in ≡ seat.old.asleep_in) × (seat.new.takes ≡ seat.old.takes) × (seat.new.table_seat.place.me ≡ seat.old.table_seat.place.me) }
    ensures woken { WakesNobody seat.old seat.new }
    ensures depth { seat.old.asleep_in ≢ Some mutex → HasDepthIn seat.old.table_seat pool.now mutex result }
    ensures sleeping { seat.old.asleep_in ≡ Some mutex → result ≡ 0 }
{
    if seat.asleep_in == Some(mutex) {
        return 0;
    }
    crate::depth::depth(pool, &mut seat.table_seat, mutex)
}
