//! A pool of two mutexes with two seats, for tests without threads.
ghost use Rattle.std.specs.Prelude.{◌≡◌, ℕ, IfSome};
ghost use Rattle.lfm_pool.specs.Calls.{IsBetweenCalls};
ghost use mathlib.Core.Option.{some};
ghost use lib.ListN.{get_elem?};

use lfm_pool::pool::Pool;
use lfm_pool::seat::PoolSeat;
use std::alloc::Global;

/// The two seats of a pool that has two.
fn two_seats(pool: &Pool, mut seats: Vec<PoolSeat>) -> Option<(PoolSeat, PoolSeat)>
    requires { (j : ℕ) (s : _) → get_elem? seats.items j ≡ some s → IsBetweenCalls s pool.now }
    ensures { IfSome result (λ p. IsBetweenCalls p.0 pool.now × IsBetweenCalls p.1 pool.now) }
{
    let _pool = pool;
    let second = seats.pop()?;
    let first = seats.pop()?;
    Some((first, second))
}

/// A pool of two mutexes, and its two seats. None without memory.
pub fn pool_of_two(alloc: Global) -> Option<(Pool, PoolSeat, PoolSeat)>
    ensures seats { IfSome result (λ r. IsBetweenCalls r.1 r.0 × IsBetweenCalls r.2 r.0) }
    ensures mutexes { IfSome result (λ r. r.0.mutexes ≡ 2) }
{
    let Ok((pool, seats)) = Pool::new(alloc, 2, 2) else {
        return None;
    };
    let (first, second) = two_seats(&pool, seats)?;
    Some((pool, first, second))
}
