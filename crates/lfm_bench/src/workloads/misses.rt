//! One thread tries to acquire a mutex that is held, and fails.
ghost use Rattle.lfm_bench.specs.PoolCalls.{IsRefused};

use crate::measure::Steps;
use crate::peers::ours::Users;
use crate::peers::pools::miss;
use crate::workloads::alone::{Call, StandardCall};
use crate::workloads::pool_calls::PoolCall;
use lfm_pool::pool::Pool;
use lfm_pool::seat::PoolSeat;
use std::sync::{Mutex, Wait};

/// `try_lock`, while the other user holds, or while there is a guard of std's mutex.
pub struct Miss;

impl Call for Miss {
    /// `try_lock`, while the other user holds.
    #[inline(always)]
    fn ours<R: Wait>(_rt: &R, users: &mut Users) -> bool {
        users.user.miss()
    }

    /// The steps of a try_lock that fails.
    #[inline(always)]
    fn bare(steps: &mut Steps) -> bool {
        steps.miss()
    }
}

impl StandardCall for Miss {
    /// `try_lock`, while there is a guard.
    #[inline(always)]
    fn standard<R: Wait>(_rt: &R, mutex: &Mutex<u64>) -> bool {
        mutex.try_lock().is_none()
    }
}

impl PoolCall for Miss {
    ghost makes = { IsRefused };

    /// `try_lock`, while the other seat holds.
    #[inline(always)]
    fn of_pool<R: Wait>(_rt: &R, pool: &Pool, seat: &mut PoolSeat, mutex: usize) -> bool {
        miss(pool, seat, mutex)
    }
}
