//! One thread locks and unlocks a mutex that no other thread uses: in each way, and with an addition to its value in between.
ghost use Rattle.lfm_bench.specs.PoolCalls.{MakesPair};

use crate::measure::Steps;
use crate::peers::ours::Users;
use crate::peers::pools::{acquire, free};
use crate::workloads::alone::{Call, StandardCall};
use crate::workloads::pool_calls::PoolCall;
use lfm_pool::pool::Pool;
use lfm_pool::seat::PoolSeat;
use std::sync::{Mutex, Wait};

/// `lock` and `unlock`, or `lock` of std's mutex and the drop of its guard.
pub struct Pair;

impl Call for Pair {
    /// `lock` and `unlock`.
    #[inline(always)]
    fn ours<R: Wait>(rt: &R, users: &mut Users) -> bool {
        users.user.lock(rt) && users.user.unlock()
    }

    /// The steps of a lock that finds the mutex free, and of its unlock.
    #[inline(always)]
    fn bare(steps: &mut Steps) -> bool {
        steps.pair()
    }
}

impl StandardCall for Pair {
    /// `lock`, and the drop of its guard.
    #[inline(always)]
    fn standard<R: Wait>(rt: &R, mutex: &Mutex<u64>) -> bool {
        drop(mutex.lock(rt));
        true
    }
}

impl PoolCall for Pair {
    ghost makes = { MakesPair };

    /// `lock` and `unlock`.
    #[inline(always)]
    fn of_pool<R: Wait>(rt: &R, pool: &Pool, seat: &mut PoolSeat, mutex: usize) -> bool {
        acquire(rt, pool, seat, mutex) && free(pool, seat, mutex)
    }
}

/// `lock_barging` and `unlock`.
pub struct BargingPair;

impl Call for BargingPair {
    /// `lock_barging` and `unlock`.
    #[inline(always)]
    fn ours<R: Wait>(rt: &R, users: &mut Users) -> bool {
        users.user.lock_barging(rt) && users.user.unlock()
    }

    /// The steps of a lock that finds the mutex free, and of its unlock.
    #[inline(always)]
    fn bare(steps: &mut Steps) -> bool {
        steps.pair()
    }
}

/// `with` an addition, and std's mutex with the same addition.
pub struct Addition;

impl Call for Addition {
    /// `with` an addition.
    #[inline(always)]
    fn ours<R: Wait>(rt: &R, users: &mut Users) -> bool {
        users.user.add_one_within(rt)
    }

    /// The steps of a lock that finds the mutex free, and of its unlock.
    #[inline(always)]
    fn bare(steps: &mut Steps) -> bool {
        steps.pair()
    }
}

impl StandardCall for Addition {
    /// `lock`, an addition, and the drop of the guard.
    #[inline(always)]
    fn standard<R: Wait>(rt: &R, mutex: &Mutex<u64>) -> bool {
        let mut guard = mutex.lock(rt);
        *guard = guard.wrapping_add(1);
        drop(guard);
        true
    }
}
