//! One step of a seat on a word of a mutex, with all that the seat needs for its next step. The calls are made of these
//! functions, and of the steps of a push, on the handoff word and on the words of seats. None is for a step that gives the
//! mutex away, loads a link or pushes, which needs more. In each of them nothing changes in other mutexes, nor in
//! what the seat knows of them. None allocates or waits.
ghost use Rattle.lfm_pool.specs.Belongs.{SameSeat};
ghost use Rattle.lfm_pool.specs.Finds.{Finds};
ghost use Rattle.lfm_pool.specs.Moves.{MayStepIn, StartsAtIn, StartsIn};
ghost use Rattle.lfm_pool.specs.Seats.{state_of, MovesIn};
ghost use Rattle.lfm_pool.specs.Steps.{begun_at, begun_in, call_of, state_at, IsPlainAccessOf, IsTold, Sits};
ghost use Rattle.lfm_pool.specs.Tables.{part};

use crate::pool::{Pool, TableSeat};
use crate::step::{OneCall, first_step, next_step};
use lfm_table::operations::Access;
use std::marker::Brand;

/// Starts the call whose first step is this access, and makes that step. Returns the number that it found or stored.
#[inline(always)]
pub fn start(pool: &Pool, seat: &mut TableSeat, mutex: usize, access: Access) -> u64
    requires may { MayStepIn seat.old pool.now mutex }
    requires is_next { IsPlainAccessOf pool.now.limits.seats seat.old.number (begun_in seat.old.place.me.0 mutex pool.now.limits (call_of access)) access }
    ensures belongs { SameSeat seat.old seat.new }
    ensures may { MayStepIn seat.new pool.now mutex }
    ensures step { StartsIn seat.old seat.new pool.now mutex (call_of access) result }
    ensures told { IsTold access result }
{
    first_step::<Brand>(pool, seat, mutex, access)
}

/// Starts the call whose first step is this access, and makes that step, for a seat that holds the mutex `C.depth` times.
/// Returns the number that it found or stored.
#[inline(always)]
pub fn start_at<C: OneCall>(pool: &Pool, seat: &mut TableSeat, mutex: usize, access: Access) -> u64
    requires may { MayStepIn seat.old pool.now mutex }
    requires now { Sits seat.old.number seat.old.place.id pool.now.limits (state_at seat.old.place.me.0 mutex C.depth) (part seat.old.place.me.0 mutex) }
    requires is_next { IsPlainAccessOf pool.now.limits.seats seat.old.number (begun_at seat.old.place.me.0 mutex C.depth pool.now.limits (call_of access)) access }
    ensures belongs { SameSeat seat.old seat.new }
    ensures may { MayStepIn seat.new pool.now mutex }
    ensures step { StartsAtIn seat.old seat.new pool.now mutex C.depth (call_of access) result }
{
    first_step::<Brand>(pool, seat, mutex, access)
}

/// Makes the next step of the open call of the seat in this mutex. Returns the number that it found or stored.
#[inline(always)]
pub fn go_on(pool: &Pool, seat: &mut TableSeat, mutex: usize, access: Access) -> u64
    requires may { MayStepIn seat.old pool.now mutex }
    requires is_next { IsPlainAccessOf pool.now.limits.seats seat.old.number (state_of seat.old mutex) access }
    ensures belongs { SameSeat seat.old seat.new }
    ensures may { MayStepIn seat.new pool.now mutex }
    ensures step { MovesIn seat.old seat.new pool.now mutex result }
    ensures finds { Finds seat.old.number (state_of seat.old mutex) result }
    ensures told { IsTold access result }
{
    next_step(pool, seat, mutex, access)
}
