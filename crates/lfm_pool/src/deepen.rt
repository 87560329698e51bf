//! Holds of a mutex beyond the first: a `try_lock` and a `lock` of a seat that holds the mutex already, and an `unlock` of a
//! seat that holds it more than once. The upper bits of the carried word have the number of holds beyond the first.
//!
//! A call that makes a step needs a seat that rests in all other mutexes. Nothing changes in other mutexes, nor in what the
//! seat knows of them. None of these functions allocates, waits or wakes a thread.
ghost use Rattle.std.specs.Prelude.{◌≡◌, ◌+◌, ◌-◌, ◌<◌, ◌≤◌, ℕ};
ghost use Rattle.lfm_protocol.specs.Limits.{max_depth};
ghost use Rattle.lfm_pool.specs.Belongs.{IsMutex, OfPool, SameSeat};
ghost use Rattle.lfm_pool.specs.Carrying.{CarriesIn, NotesIn};
ghost use Rattle.lfm_pool.specs.Chain.{deep};
ghost use Rattle.lfm_pool.specs.Depths.{AskAgainSteps, DeepensBy, GivesUpIn, HasDepthIn, TryAgainSteps};
ghost use Rattle.lfm_pool.specs.Moves.{MayStepIn};
ghost use Rattle.lfm_pool.specs.Seats.{note_of, popped_of};

use crate::chain::{carried_load, carried_store};
use crate::layout::{COUNT, OWNER};
use crate::moves::{go_on, start_at};
use crate::pool::{Pool, TableSeat};
use crate::step::OneCall;
use lfm_table::operations::Access;
use lfm_words::{pack_link, unpack_link};

/// Stores in the carried word that the seat, which holds the mutex, holds it this many times. The word keeps the seat of the
/// oldest popped record.
#[inline(always)]
fn note_depth(pool: &Pool, seat: &mut TableSeat, mutex: usize, depth: u32)
    requires belongs { OfPool seat.old pool.now }
    requires mutex { IsMutex mutex pool.now }
    requires carries { CarriesIn seat.old mutex }
    requires noted { (more : ℕ) × (note_of seat.old mutex ≡ deep more (popped_of seat.old mutex)) }
    requires above { 0 < depth }
    ensures belongs { SameSeat seat.old seat.new }
    ensures notes { NotesIn seat.old seat.new mutex (deep (depth - 1) (popped_of seat.old mutex)) }
{
    let carried = carried_load(pool, seat, mutex);
    let oldest = unpack_link(carried).next;
    let number = pack_link((depth - 1) as u64, oldest);
    carried_store(pool, seat, mutex, number);
}

/// The steps of a `try_lock` of a seat that holds the mutex this many times, fewer than 65,535: it holds it once more then.
/// The exchange of the count finds the seat's own unit there, so it does not succeed, and the owner is the seat. Returns the
/// new depth. It makes 2 atomic steps, and a load and a store of the carried word.
pub fn try_again<C: OneCall>(pool: &Pool, seat: &mut TableSeat, mutex: usize, depth: u32) -> u32
    requires one { C.depth ≡ depth }
    requires may { MayStepIn seat.old pool.now mutex }
    requires has { HasDepthIn seat.old pool.now mutex depth }
    requires holds { (0 < depth) × (depth < max_depth) }
    ensures belongs { SameSeat seat.old seat.new }
    ensures may { MayStepIn seat.new pool.now mutex }
    ensures deepens { DeepensBy TryAgainSteps seat.old seat.new pool.now mutex (depth + 1) }
    ensures deeper { result ≡ depth + 1 }
{
    start_at::<C>(pool, seat, mutex, Access::CompareExchange(COUNT, 0, 1));
    note_depth(pool, seat, mutex, depth + 1);
    go_on(pool, seat, mutex, Access::Load(OWNER));
    depth + 1
}

/// The steps of a `lock` of a seat that holds the mutex this many times, fewer than 65,535: it holds it once more then. The
/// call adds itself to the count, finds that the seat is the owner, and subtracts itself again. Returns the new depth. It
/// makes 3 atomic steps, and a load and a store of the carried word.
pub fn ask_again<C: OneCall>(pool: &Pool, seat: &mut TableSeat, mutex: usize, depth: u32) -> u32
    requires one { C.depth ≡ depth }
    requires may { MayStepIn seat.old pool.now mutex }
    requires has { HasDepthIn seat.old pool.now mutex depth }
    requires holds { (0 < depth) × (depth < max_depth) }
    ensures belongs { SameSeat seat.old seat.new }
    ensures may { MayStepIn seat.new pool.now mutex }
    ensures deepens { DeepensBy AskAgainSteps seat.old seat.new pool.now mutex (depth + 1) }
    ensures deeper { result ≡ depth + 1 }
{
    start_at::<C>(pool, seat, mutex, Access::FetchAdd(COUNT, 1));
    go_on(pool, seat, mutex, Access::Load(OWNER));
    note_depth(pool, seat, mutex, depth + 1);
    go_on(pool, seat, mutex, Access::FetchSub(COUNT, 1));
    depth + 1
}

/// An `unlock` of a seat that holds the mutex this many times, more than once: it gives one hold up, which is no step.
/// Returns the new depth. It makes a load and a store of the carried word.
pub fn give_up_one(pool: &Pool, seat: &mut TableSeat, mutex: usize, depth: u32) -> u32
    requires belongs { OfPool seat.old pool.now }
    requires mutex { IsMutex mutex pool.now }
    requires has { HasDepthIn seat.old pool.now mutex depth }
    requires inner { 1 < depth }
    ensures belongs { SameSeat seat.old seat.new }
    ensures gives { GivesUpIn seat.old seat.new pool.now mutex (depth - 1) }
    ensures fewer { result + 1 ≡ depth }
{
    note_depth(pool, seat, mutex, depth - 1);
    depth - 1
}
