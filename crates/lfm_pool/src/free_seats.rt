//! The seats of a pool that nobody has taken. They are kept as one seat, the first of the pool: each other seat is split off it
//! when it is taken. So a pool of which few seats are taken writes nothing for the others.
ghost use Rattle.std.specs.Prelude.{◌≡◌, ◌<◌, IfErr, IfOk, IfSome, false, true};
ghost use Rattle.lfm_pool.specs.Bounds.{most_takes};

use crate::pool::{Pool, TableSeat};
use crate::seat::PoolSeat;
use lfm_model::NewFault;
use std::alloc::Global;

/// The seats of a pool that nobody has taken: at least one. `Pool::with_free_seats` makes them.
#[derive(Drop)]
pub struct FreeSeats {
    /// The first seat of the pool, off which the others are split. It is taken last.
    pub(crate) first: TableSeat,

    /// How many seats have been split off it, all of which are taken.
    pub(crate) taken: u64,
}

impl FreeSeats {
    ghost use Rattle.lfm_pool.specs.Calls.{IsBetweenCalls};
    ghost use Rattle.lfm_pool.specs.NewSeats.{AreFreeSeats, TakesSeat};

    /// Takes a seat. Returns it with the seats that are left, or with None if it was the last one. The seats are taken with the
    /// numbers 2, 3 and so on up to that of the last seat of the pool, and then the seat with the number 1. It refuses nothing,
    /// never waits, and allocates nothing.
    pub fn take(self, pool: &Pool) -> (PoolSeat, Option<FreeSeats>)
        requires free { AreFreeSeats self pool.now }
        ensures takes { TakesSeat self pool.now result.0 result.1 }
        ensures between { IsBetweenCalls result.0 pool.now }
        ensures left { IfSome result.1 (λ f. AreFreeSeats f pool.now) }
    {
        let FreeSeats { mut first, taken } = self;
        if taken + 1 >= pool.limits.seats {
            return (PoolSeat::new(first), None);
        }
        let seat = pool.split_seat(&mut first, taken + 2);
        let left = FreeSeats {
            first,
            taken: taken + 1,
        };
        (PoolSeat::new(seat), Some(left))
    }
}

impl Pool {
    ghost use Rattle.lfm_model.specs.declared.refusals.NewFault.{NewFault};
    ghost use Rattle.lfm_pool.specs.NewSeats.{AreFreeSeats, IsPoolSize};

    /// A pool of this many free mutexes, numbered from 0, as `new` makes it, with its seats, none of which is taken. Each of
    /// them rests in all mutexes, holds none, and may make 2^63 takes.
    ///
    /// Refuses as `new`: with Limit if there are no mutexes or 2^32 and more, or no seats or more than 4,095; and then with
    /// Memory if a request for memory was refused. It requests memory for the words alone, 64 bytes for each mutex and 16 for
    /// each seat.
    pub fn with_free_seats(
        alloc: Global,
        mutexes: usize,
        seats: u64,
    ) -> Result<(Pool, FreeSeats), NewFault>
        ensures pool { IfOk result (λ r. (r.0.mutexes ≡ mutexes) × (r.0.limits ≡ record { seats = seats; budget = most_takes }) × (r.0.polls ≡ 800)) }
        ensures free { IfOk result (λ r. AreFreeSeats r.1 r.0 × (r.1.taken ≡ 0)) }
        ensures limit { IsPoolSize mutexes seats ≡ false → IfErr result (λ e. e ≡ NewFault.Limit) × IfOk result (λ _. ⊥) }
        ensures memory { IsPoolSize mutexes seats ≡ true → IfErr result (λ e. e ≡ NewFault.Memory) }
    {
        let limits = Pool::usual_limits(mutexes, seats)?;
        let Ok((pool, first)) = Pool::with_first_seat(alloc, mutexes, limits) else {
            return Err(NewFault::Memory);
        };
        Ok((pool, FreeSeats { first, taken: 0 }))
    }
}
