//! The handles of a pool of mutexes in the caller's memory: one of the pool, and one of each of its seats. A blank handle has
//! no pool, or no seat.
//!
//! A seat keeps only that there is a proof that no call of it is open, since the check does not see by itself that there is at
//! most one. `proofs/BetweenCalls.antt` shows that, and so has the proof again for each call. The same holds of the seats that
//! nobody has taken, and of `proofs/FreeSeats.antt`.
ghost use Rattle.std.specs.Prelude.{◌≡◌, IfSome, None, nat_lt};
ghost use Rattle.std.specs.Arc.{arc_value};
ghost use Rattle.lfm_pool.specs.Calls.{IsBetweenCalls};
ghost use Rattle.lfm_pool.specs.NewSeats.{AreFreeSeats};

use lfm_pool::free_seats::FreeSeats;
use lfm_pool::pool::Pool;
use lfm_pool::seat::PoolSeat;
use std::alloc::Global;
use std::sync::Arc;

/// A seat with its pool. No call of the seat is open.
#[derive(Drop)]
pub struct PoolSeated {
    pub pool: Arc<Pool, Global>,
    pub seat: PoolSeat,
    pub ghost between: { ∥ IsBetweenCalls seat (arc_value pool) ∥₁ },
}

impl PoolSeated {
    /// Whether the pool has a mutex of this number.
    #[inline(always)]
    pub fn has(&self, mutex: u64) -> bool
        ensures { result ≡ nat_lt mutex (arc_value self.now.pool).mutexes }
    {
        mutex < self.pool.mutexes() as u64
    }
}

/// A seat of a pool that the caller has taken, or none.
#[derive(Drop)]
pub struct PoolSeatHandle {
    pub seated: Option<PoolSeated>,
}

/// A pool with those of its seats that are not taken, or None if all are.
#[derive(Drop)]
pub struct WholePool {
    pub pool: Arc<Pool, Global>,
    pub free: Option<FreeSeats>,
    pub ghost are_free: { ∥ IfSome free (λ f. AreFreeSeats f (arc_value pool)) ∥₁ },
}

/// A pool that the caller has opened, or none.
#[derive(Drop)]
pub struct PoolHandle {
    pub alloc: Global,
    pub whole: Option<WholePool>,
}

/// The blank handle of a pool. When it is opened, it allocates from this allocator.
pub fn blank_pool(alloc: Global) -> PoolHandle
    ensures { result ≡ record { alloc = alloc; whole = None } }
{
    PoolHandle { alloc, whole: None }
}

/// The blank handle of a seat of a pool.
pub fn blank_seat() -> PoolSeatHandle
    ensures { result ≡ record { seated = None } }
{
    PoolSeatHandle { seated: None }
}
