//! Readers of a seat of a pool that do not change its handle. `depth` is in `pool_calls`, since it loads words for the seat.
ghost use Rattle.lfm_c.specs.PoolHandles.{TellsPoolCount, TellsPoolNumber};

use crate::pool_handles::PoolSeatHandle;
use lfm_pool::reading;

/// The seat's number, 1 to 4,095, or 0 if the handle is blank.
pub fn number(handle: &mut PoolSeatHandle) -> u64
    ensures told { TellsPoolNumber handle.old handle.new result }
{
    match &handle.seated {
        Some(seated) => seated.seat.number(),
        None => 0,
    }
}

/// How many seats hold this mutex or want it, by one load, or 0 if the handle is blank or the pool has no mutex of this number.
/// Nothing else is guaranteed of the result: the count may have changed by the time it is returned.
pub fn count(handle: &mut PoolSeatHandle, mutex: u64) -> u64
    ensures told { TellsPoolCount handle.old mutex handle.new result }
{
    let Some(seated) = &handle.seated else {
        return 0;
    };
    if !seated.has(mutex) {
        return 0;
    }
    reading::count(&seated.pool, mutex as usize)
}
