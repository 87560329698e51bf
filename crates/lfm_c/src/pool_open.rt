//! How a pool is opened, and how its seats are taken.
ghost use Rattle.std.specs.Prelude.{◌≡◌, IfOk, IfErr, IfSome, true};
ghost use Rattle.std.specs.Arc.{arc_value};
ghost use Rattle.lfm_pool.specs.NewSeats.{AreFreeSeats, IsPoolSize, TakesSeat};
ghost use Rattle.lfm_c.specs.PoolHandles.{OpenedPool, PoolFaults, TakesNext, TellsPoolOpen, TellsPoolTake};

use crate::pool_handles::{PoolHandle, PoolSeatHandle, PoolSeated, WholePool};
use crate::status::Status;
use lfm_model::NewFault;
use lfm_pool::free_seats::FreeSeats;
use lfm_pool::pool::Pool;
use std::alloc::Global;
use std::sync::Arc;

/// A new pool, none of whose seats is taken.
fn opened(alloc: Global, mutexes: u64, seats: u64) -> Result<WholePool, NewFault>
    ensures ok { IfOk result (λ w. OpenedPool mutexes seats w × (IsPoolSize mutexes seats ≡ true)) }
    ensures fault { IfErr result (λ e. PoolFaults mutexes seats e) }
{
    let (pool, free) = Pool::with_free_seats(alloc, mutexes as usize, seats)?;
    let Ok(pool) = Arc::new(alloc, pool) else {
        return Err(NewFault::Memory);
    };
    Ok(WholePool {
        pool,
        free: Some(free),
    })
}

/// Opens a pool if the handle is blank.
pub fn open(handle: &mut PoolHandle, mutexes: u64, seats: u64) -> u64
    ensures told { TellsPoolOpen handle.old mutexes seats handle.new result }
{
    if handle.whole.is_some() {
        return Status::Taken.code();
    }
    match opened(handle.alloc, mutexes, seats) {
        Ok(whole) => {
            handle.whole = Some(whole);
            Status::Done.code()
        }
        Err(NewFault::Limit) => Status::Limit.code(),
        Err(NewFault::Memory) => Status::Memory.code(),
    }
}

/// The next of these free seats, with this reference to their pool, and the seats that are left.
fn seated(pool: Arc<Pool, Global>, free: FreeSeats) -> (PoolSeated, Option<FreeSeats>)
    requires free { AreFreeSeats free (arc_value pool) }
    ensures pool { result.0.pool ≡ pool }
    ensures takes { TakesSeat free (arc_value pool) result.0.seat result.1 }
    ensures left { IfSome result.1 (λ f. AreFreeSeats f (arc_value pool)) }
{
    let (seat, left) = free.take(&pool);
    (PoolSeated { pool, seat }, left)
}

impl WholePool {
    /// Takes the next seat. Refuses with NoSeat if none is left, and then with Memory if the pool has 2^63 - 1 references.
    fn next(&mut self) -> Result<PoolSeated, Status>
        ensures { TakesNext self.old self.new result }
    {
        if self.free.is_none() {
            return Err(Status::NoSeat);
        }
        let Ok(pool) = Arc::try_clone(&self.pool) else {
            return Err(Status::Memory);
        };
        let Some(free) = self.free.take() else {
            unreachable!()
        };
        let (seated, left) = seated(pool, free);
        self.free = left;
        Ok(seated)
    }
}

/// Moves the next seat of the pool into the seat's handle.
pub fn take_seat(pool: &mut PoolHandle, seat: &mut PoolSeatHandle) -> u64
    ensures told { TellsPoolTake pool.old seat.old pool.new seat.new result }
{
    if seat.seated.is_some() {
        return Status::Taken.code();
    }
    let Some(whole) = &mut pool.whole else {
        return Status::Blank.code();
    };
    match whole.next() {
        Ok(seated) => {
            seat.seated = Some(seated);
            Status::Done.code()
        }
        Err(status) => status.code(),
    }
}
