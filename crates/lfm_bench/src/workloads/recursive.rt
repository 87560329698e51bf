//! One thread that already holds a mutex locks and unlocks it once more. std's mutex has no such call.
ghost use Rattle.lfm_bench.specs.PoolCalls.{MakesPairWithin};

use crate::measure::Steps;
use crate::peers::ours::Users;
use crate::peers::pools::{deepen, lessen};
use crate::workloads::alone::Call;
use crate::workloads::pool_calls::PoolCall;
use lfm_pool::pool::Pool;
use lfm_pool::seat::PoolSeat;
use std::sync::Wait;

/// `lock` and `unlock`, within a hold.
pub struct Again;

impl Call for Again {
    /// `lock` and `unlock`, within a hold.
    #[inline(always)]
    fn ours<R: Wait>(rt: &R, users: &mut Users) -> bool {
        users.user.lock_again(rt) && users.user.unlock()
    }

    /// The steps of a holder's lock. Its unlock makes none.
    #[inline(always)]
    fn bare(steps: &mut Steps) -> bool {
        steps.again()
    }
}

impl PoolCall for Again {
    ghost makes = { MakesPairWithin };

    /// `lock` and `unlock`, within a hold.
    #[inline(always)]
    fn of_pool<R: Wait>(rt: &R, pool: &Pool, seat: &mut PoolSeat, mutex: usize) -> bool {
        deepen(rt, pool, seat, mutex) && lessen(pool, seat, mutex)
    }
}
