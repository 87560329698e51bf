//! The atomic steps of a seat in one mutex of a pool, except those on the handoff word, which are in `handoff`.
ghost use Rattle.std.specs.Prelude.{◌≡◌, ◌+◌, ◌*◌, ◌<◌, ⊤, ℕ, List, [], Option, None, length};
ghost use Rattle.lfm_protocol.specs.declared.seats.SeatState.{SeatState as StateNow};
ghost use Rattle.lfm_protocol.specs.Seats.{absent};
ghost use Rattle.lfm_table.specs.Rule.{Advanced};
ghost use Rattle.lfm_table.specs.Steps.{CanMake};
ghost use Rattle.lfm_pool.specs.Finds.{Finds};
ghost use Rattle.lfm_pool.specs.Tables.{Slot, any_follows, any_fits, part};
ghost use Rattle.lfm_pool.specs.Steps.{state_in, begun_at, call_of, IsOwnAccessOf, IsStepAt, IsTold, KeepsChainIn, RestsElsewhere, Sits, StepsIn, TellsOf};

use crate::accesses::{PoolAccess, word_of};
use crate::layout::own_at;
use crate::pool::{Pool, TableSeat};
use crate::view::PoolView;
use atomic_table::Play;
use lfm_table::operations::Access;
use std::marker::{Brand, PhantomData};

/// For the proof alone: a step of one mutex, as a step at the table that the mutex would have by itself: the mutex, the
/// seat's plain data before the step, the value that the seat has, and the slots; for a step on the handoff word also the
/// number of the seat, and the word that an exchange expects.
pub trait OneMutex {
    ghost mutex: { ℕ };

    ghost number: { ℕ };

    ghost expected: { ℕ };

    ghost state: { StateNow };

    ghost hand: { Option ⊤ };

    ghost slots: { List (ℕ × Slot) };
}

impl OneMutex for Brand {
    ghost mutex = { 0 };

    ghost number = { 0 };

    ghost expected = { 0 };

    ghost state = { absent };

    ghost hand = { None };

    ghost slots = { [] };
}

/// For the proof alone: how many times the seat holds the mutex at the start of a call.
pub trait OneCall {
    ghost depth: { ℕ };
}

impl OneCall for Brand {
    ghost depth = { 0 };
}

/// One step in one mutex.
pub struct MutexStep<B> {
    one: PhantomData<B>,
}

impl<B: OneMutex> Play<u64, PoolView> for MutexStep<B> {
    ghost then = { λ _ me n me'. TellsOf B.mutex B.state (λ k. Advanced any_follows any_fits B.state B.hand (part me.0 B.mutex, B.slots) k) me n me' };
}

/// Makes the step at the seat's point in this mutex, which is this access. Returns the number that it found or stored. The
/// seat has to rest in all other mutexes. If the step gives the mutex away, all popped records have to be in the chain, and
/// the carried word has to name the oldest that is left; if it loads a link, all have to be in the chain.
#[inline(always)]
fn step_at<B: OneMutex>(pool: &Pool, seat: &mut TableSeat, mutex: usize, access: PoolAccess) -> u64
    requires one { B.mutex ≡ mutex }
    requires table { seat.old.place.table_id ≡ pool.now.table.shared.table_id }
    requires inside { (mutex < pool.now.mutexes) × (length seat.old.place.me.0.parts ≡ pool.now.mutexes) }
    requires can { CanMake any_follows any_fits B.state B.hand seat.old.number pool.now.limits.seats (4 + 2 * pool.now.limits.seats) (part seat.old.place.me.0 mutex, B.slots) }
    requires is_next { IsStepAt pool.now.mutexes pool.now.limits.seats mutex seat.old.number B.state access }
    requires elsewhere { RestsElsewhere seat.old.place.me.0 mutex }
    requires chained { KeepsChainIn seat.old.number mutex B.state seat.old.place.me.0 }
    ensures table { (seat.new.place.table_id ≡ seat.old.place.table_id) × (seat.new.place.id ≡ seat.old.place.id) × (seat.new.number ≡ seat.old.number) }
    ensures step { TellsOf mutex B.state (λ k. Advanced any_follows any_fits B.state B.hand (part seat.old.place.me.0 mutex, B.slots) k) seat.old.place.me result seat.new.place.me }
    ensures told { IsTold access.access result }
{
    let index = access.index;
    let words = &pool.table.shared;
    let place = &mut seat.place;
    match access.access {
        Access::Load(_) => words.load::<MutexStep<B>>(place, index),
        Access::Store(_, new) => {
            words.store::<MutexStep<B>>(place, index, new);
            new
        }
        Access::FetchAdd(_, k) => words.fetch_add::<MutexStep<B>>(place, index, k),
        Access::FetchSub(_, k) => words.fetch_sub::<MutexStep<B>>(place, index, k),
        Access::FetchAnd(_, k) => words.fetch_and::<MutexStep<B>>(place, index, k),
        Access::CompareExchange(_, old, new) => {
            words.compare_exchange::<MutexStep<B>>(place, index, old, new)
        }
    }
}

/// Starts the call whose first step is this access, and makes that step: `step_at`, with what holds of a seat between two
/// steps before and after it.
#[inline(always)]
pub fn first_at<C: OneCall>(
    pool: &Pool,
    seat: &mut TableSeat,
    mutex: usize,
    access: PoolAccess,
) -> u64
    requires table { seat.old.place.table_id ≡ pool.now.table.shared.table_id }
    requires inside { (mutex < pool.now.mutexes) × (length seat.old.place.me.0.parts ≡ pool.now.mutexes) }
    requires sits { Sits seat.old.number seat.old.place.id pool.now.limits (begun_at seat.old.place.me.0 mutex C.depth pool.now.limits (call_of access.access)) (part seat.old.place.me.0 mutex) }
    requires is_next { IsStepAt pool.now.mutexes pool.now.limits.seats mutex seat.old.number (begun_at seat.old.place.me.0 mutex C.depth pool.now.limits (call_of access.access)) access }
    requires elsewhere { RestsElsewhere seat.old.place.me.0 mutex }
    requires chained { KeepsChainIn seat.old.number mutex (begun_at seat.old.place.me.0 mutex C.depth pool.now.limits (call_of access.access)) seat.old.place.me.0 }
    ensures table { (seat.new.place.table_id ≡ seat.old.place.table_id) × (seat.new.place.id ≡ seat.old.place.id) × (seat.new.number ≡ seat.old.number) }
    ensures step { StepsIn seat.old.number seat.old.place.id mutex pool.now.limits (begun_at seat.old.place.me.0 mutex C.depth pool.now.limits (call_of access.access)) seat.old.place.me result seat.new.place.me }
    ensures told { IsTold access.access result }
{
    step_at::<Brand>(pool, seat, mutex, access)
}

/// Makes the next step of the open call of the seat in this mutex, likewise.
#[inline(always)]
pub fn next_at(pool: &Pool, seat: &mut TableSeat, mutex: usize, access: PoolAccess) -> u64
    requires table { seat.old.place.table_id ≡ pool.now.table.shared.table_id }
    requires inside { (mutex < pool.now.mutexes) × (length seat.old.place.me.0.parts ≡ pool.now.mutexes) }
    requires sits { Sits seat.old.number seat.old.place.id pool.now.limits (state_in seat.old.place.me.0 mutex) (part seat.old.place.me.0 mutex) }
    requires is_next { IsStepAt pool.now.mutexes pool.now.limits.seats mutex seat.old.number (state_in seat.old.place.me.0 mutex) access }
    requires elsewhere { RestsElsewhere seat.old.place.me.0 mutex }
    requires chained { KeepsChainIn seat.old.number mutex (state_in seat.old.place.me.0 mutex) seat.old.place.me.0 }
    ensures table { (seat.new.place.table_id ≡ seat.old.place.table_id) × (seat.new.place.id ≡ seat.old.place.id) × (seat.new.number ≡ seat.old.number) }
    ensures step { StepsIn seat.old.number seat.old.place.id mutex pool.now.limits (state_in seat.old.place.me.0 mutex) seat.old.place.me result seat.new.place.me }
    ensures finds { Finds seat.old.number (state_in seat.old.place.me.0 mutex) result }
    ensures told { IsTold access.access result }
{
    step_at::<Brand>(pool, seat, mutex, access)
}

/// `first_at`, for an access to the count, the owner or the push word of the mutex.
#[inline(always)]
pub fn first_step<C: OneCall>(
    pool: &Pool,
    seat: &mut TableSeat,
    mutex: usize,
    access: Access,
) -> u64
    requires table { seat.old.place.table_id ≡ pool.now.table.shared.table_id }
    requires inside { (mutex < pool.now.mutexes) × (length seat.old.place.me.0.parts ≡ pool.now.mutexes) }
    requires sits { Sits seat.old.number seat.old.place.id pool.now.limits (begun_at seat.old.place.me.0 mutex C.depth pool.now.limits (call_of access)) (part seat.old.place.me.0 mutex) }
    requires is_next { IsOwnAccessOf pool.now.limits.seats seat.old.number (begun_at seat.old.place.me.0 mutex C.depth pool.now.limits (call_of access)) access }
    requires elsewhere { RestsElsewhere seat.old.place.me.0 mutex }
    requires chained { KeepsChainIn seat.old.number mutex (begun_at seat.old.place.me.0 mutex C.depth pool.now.limits (call_of access)) seat.old.place.me.0 }
    ensures table { (seat.new.place.table_id ≡ seat.old.place.table_id) × (seat.new.place.id ≡ seat.old.place.id) × (seat.new.number ≡ seat.old.number) }
    ensures step { StepsIn seat.old.number seat.old.place.id mutex pool.now.limits (begun_at seat.old.place.me.0 mutex C.depth pool.now.limits (call_of access)) seat.old.place.me result seat.new.place.me }
    ensures told { IsTold access result }
{
    let index = own_at(mutex, word_of(access));
    first_at::<Brand>(pool, seat, mutex, PoolAccess { index, access })
}

/// `next_at`, for an access to the count, the owner or the push word of the mutex.
#[inline(always)]
pub fn next_step(pool: &Pool, seat: &mut TableSeat, mutex: usize, access: Access) -> u64
    requires table { seat.old.place.table_id ≡ pool.now.table.shared.table_id }
    requires inside { (mutex < pool.now.mutexes) × (length seat.old.place.me.0.parts ≡ pool.now.mutexes) }
    requires sits { Sits seat.old.number seat.old.place.id pool.now.limits (state_in seat.old.place.me.0 mutex) (part seat.old.place.me.0 mutex) }
    requires is_next { IsOwnAccessOf pool.now.limits.seats seat.old.number (state_in seat.old.place.me.0 mutex) access }
    requires elsewhere { RestsElsewhere seat.old.place.me.0 mutex }
    requires chained { KeepsChainIn seat.old.number mutex (state_in seat.old.place.me.0 mutex) seat.old.place.me.0 }
    ensures table { (seat.new.place.table_id ≡ seat.old.place.table_id) × (seat.new.place.id ≡ seat.old.place.id) × (seat.new.number ≡ seat.old.number) }
    ensures step { StepsIn seat.old.number seat.old.place.id mutex pool.now.limits (state_in seat.old.place.me.0 mutex) seat.old.place.me result seat.new.place.me }
    ensures finds { Finds seat.old.number (state_in seat.old.place.me.0 mutex) result }
    ensures told { IsTold access result }
{
    let index = own_at(mutex, word_of(access));
    next_at(pool, seat, mutex, PoolAccess { index, access })
}
