//! Pools of recursive mutexes for programs in C. The handle of a pool and the handle of each seat are in memory of the caller,
//! who passes each to one call at a time. A static library may neither sleep nor wake, so no call here does. Instead,
//! c/ligdrosa.c sleeps if a call returns that the seat sleeps, and wakes the seat that a call names.
//!
//! An export returns the answer of the pool's call as a status in the low 8 bits. Its contract states what the status means:
//! the clauses of the pool's own call about answers, steps and the bound on steps hold for it. An `ask` or `unlock` may grant
//! the mutex to at most one other seat. The number of that seat is above the status, or 0 if there is none, and the contract
//! states that it is the seat of the call's wake-up. So no wake-up is lost on this side: the caller must wake the seat that an
//! answer names.
//!
//! A call of a seat in a mutex is passed the number of this mutex, from 0. If the pool has no mutex of this number, the call is
//! refused as Limit, and a reader returns 0.
#![tactic(auto)]

ghost use Rattle.std.specs.Borrow.{full_share, sem};
ghost use Rattle.std.specs.Ptr.{lies_at, room_at};
ghost use Rattle.std.specs.Mem.{type_size};
ghost use Rattle.std.specs.Prelude.{◌≡◌, None};
ghost use base.Fml.{fsep};
ghost use denote.Param.{layout};
ghost use prog.Memory.{align, capped};
ghost use Rattle.lfm_c.specs.declared.pool_handles.PoolHandle.{PoolHandle as PoolNow};
ghost use Rattle.lfm_c.specs.declared.pool_handles.PoolSeatHandle.{PoolSeatHandle as PoolSeatNow};
ghost use Rattle.lfm_c.specs.contracts.pool_handles.PoolHandle.{the_row as pool_row};
ghost use Rattle.lfm_c.specs.contracts.pool_handles.PoolSeatHandle.{the_row as pool_seat_row};
ghost use Rattle.lfm_c.specs.Leaves.{leaves};
ghost use Rattle.lfm_c.specs.PoolHandles.{TellsPoolAsk, TellsPoolCount, TellsPoolDepth, TellsPoolNumber, TellsPoolOpen, TellsPoolReceive, TellsPoolTake, TellsPoolTry, TellsPoolUnlock};

mod answers;
pub mod crossing;
mod pool_calls;
mod pool_handles;
mod pool_open;
mod pool_reading;
mod status;

use crate::pool_handles::{PoolHandle, PoolSeatHandle};
use std::alloc::Global;
use std::mem::{align_of, size_of};

/// The size of a pool's handle, in bytes.
#[unsafe(no_mangle)]
pub extern "C" fn lfm_c_pool_size() -> usize
    ensures { result ≡ capped (type_size pool_row) }
{
    size_of::<PoolHandle>()
}

/// The alignment of a pool's handle, in bytes.
#[unsafe(no_mangle)]
pub extern "C" fn lfm_c_pool_align() -> usize
    ensures { result ≡ capped (align (layout pool_row)) }
{
    align_of::<PoolHandle>()
}

/// The size of the handle of a pool's seat, in bytes.
#[unsafe(no_mangle)]
pub extern "C" fn lfm_c_pool_seat_size() -> usize
    ensures { result ≡ capped (type_size pool_seat_row) }
{
    size_of::<PoolSeatHandle>()
}

/// The alignment of the handle of a pool's seat, in bytes.
#[unsafe(no_mangle)]
pub extern "C" fn lfm_c_pool_seat_align() -> usize
    ensures { result ≡ capped (align (layout pool_seat_row)) }
{
    align_of::<PoolSeatHandle>()
}

/// Writes the blank handle of a pool. C passes only the pointer, since an allocator has no bytes.
#[unsafe(no_mangle)]
pub unsafe extern "C" fn lfm_c_blank_pool(alloc: Global, pool: *mut u8)
    requires* { sem 𝓛 (room_at pool_row pool) }
    ensures* { sem 𝓛 (lies_at pool_row full_share pool (record { alloc = alloc; whole = None })) }
{
    (pool as *mut PoolHandle).write(pool_handles::blank_pool(alloc));
}

/// Writes the blank handle of a seat of a pool.
#[unsafe(no_mangle)]
pub unsafe extern "C" fn lfm_c_blank_pool_seat(seat: *mut u8)
    requires* { sem 𝓛 (room_at pool_seat_row seat) }
    ensures* { sem 𝓛 (lies_at pool_seat_row full_share seat (record { seated = None })) }
{
    (seat as *mut PoolSeatHandle).write(pool_handles::blank_seat());
}

/// Opens a pool of this many mutexes, 1 to 2^32 - 1, with this many seats, 1 to 4,095. Each seat may make 2^63 takes.
///
/// Returns Done, or Taken (the handle is not blank), Limit, Memory, which change nothing. No other export allocates.
#[unsafe(no_mangle)]
pub unsafe extern "C" fn lfm_c_pool_open(pool: *mut u8, mutexes: u64, seats: u64) -> u64
    ghost x: { PoolNow }
    requires* { sem 𝓛 (lies_at pool_row full_share pool x) }
    ensures* { sem 𝓛 (leaves (λ (y : PoolNow). lies_at pool_row full_share pool y) (λ y. TellsPoolOpen x mutexes seats y result)) }
{
    pool_open::open(&mut *(pool as *mut PoolHandle), mutexes, seats)
}

/// Takes the next seat of the pool: seat 2, 3 and so on up to the last one, and then seat 1. No seat is given back, and no pool
/// is closed.
///
/// Returns Done, or Taken (the seat's handle is not blank), Blank (the pool's handle is blank), NoSeat, Memory, which change
/// nothing. Memory means that the pool has 2^63 - 1 references. With at most 4,095 seats it never has, but no contract of the
/// reference says so.
#[unsafe(no_mangle)]
pub unsafe extern "C" fn lfm_c_pool_take_seat(pool: *mut u8, seat: *mut u8) -> u64
    ghost x: { PoolNow × PoolSeatNow }
    requires* { sem 𝓛 (fsep (lies_at pool_row full_share pool x.0) (lies_at pool_seat_row full_share seat x.1)) }
    ensures* { sem 𝓛 (leaves (λ (y : PoolNow × PoolSeatNow). fsep (lies_at pool_row full_share pool y.0) (lies_at pool_seat_row full_share seat y.1)) (λ y. TellsPoolTake x.0 x.1 y.0 y.1 result)) }
{
    pool_open::take_seat(
        &mut *(pool as *mut PoolHandle),
        &mut *(seat as *mut PoolSeatHandle),
    )
}

/// Returns the seat's number, 1 to 4,095, or 0 if the handle is blank.
#[unsafe(no_mangle)]
pub unsafe extern "C" fn lfm_c_pool_number(seat: *mut u8) -> u64
    ghost x: { PoolSeatNow }
    requires* { sem 𝓛 (lies_at pool_seat_row full_share seat x) }
    ensures* { sem 𝓛 (leaves (λ (y : PoolSeatNow). lies_at pool_seat_row full_share seat y) (λ y. TellsPoolNumber x y result)) }
{
    pool_reading::number(&mut *(seat as *mut PoolSeatHandle))
}

/// Returns how many seats hold this mutex of the seat's pool or want it, by one load, or 0 if the handle is blank or the pool
/// has no mutex of this number. A seat that sleeps may read it too.
#[unsafe(no_mangle)]
pub unsafe extern "C" fn lfm_c_pool_count(seat: *mut u8, mutex: u64) -> u64
    ghost x: { PoolSeatNow }
    requires* { sem 𝓛 (lies_at pool_seat_row full_share seat x) }
    ensures* { sem 𝓛 (leaves (λ (y : PoolSeatNow). lies_at pool_seat_row full_share seat y) (λ y. TellsPoolCount x mutex y result)) }
{
    pool_reading::count(&mut *(seat as *mut PoolSeatHandle), mutex)
}

/// Returns how many times the seat holds this mutex of its pool, 0 to 65,535, or 0 if the handle is blank or the pool has no
/// mutex of this number.
#[unsafe(no_mangle)]
pub unsafe extern "C" fn lfm_c_pool_depth(seat: *mut u8, mutex: u64) -> u64
    ghost x: { PoolSeatNow }
    requires* { sem 𝓛 (lies_at pool_seat_row full_share seat x) }
    ensures* { sem 𝓛 (leaves (λ (y : PoolSeatNow). lies_at pool_seat_row full_share seat y) (λ y. TellsPoolDepth x mutex y result)) }
{
    pool_calls::depth(&mut *(seat as *mut PoolSeatHandle), mutex)
}

/// `ask` of the seat in this mutex. Returns Done (it holds), Again (it holds once more), Asleep, Blank, Limit, or why it is
/// refused. The number of the seat to be woken, or 0, is above the status.
#[unsafe(no_mangle)]
pub unsafe extern "C" fn lfm_c_pool_ask(seat: *mut u8, mutex: u64) -> u64
    ghost x: { PoolSeatNow }
    requires* { sem 𝓛 (lies_at pool_seat_row full_share seat x) }
    ensures* { sem 𝓛 (leaves (λ (y : PoolSeatNow). lies_at pool_seat_row full_share seat y) (λ y. TellsPoolAsk x mutex y result)) }
{
    pool_calls::ask(&mut *(seat as *mut PoolSeatHandle), mutex)
}

/// `try_receive` of the seat in this mutex. Returns Done (it holds), Asleep (it has no grant), Blank, Limit, or why it is
/// refused.
#[unsafe(no_mangle)]
pub unsafe extern "C" fn lfm_c_pool_receive(seat: *mut u8, mutex: u64) -> u64
    ghost x: { PoolSeatNow }
    requires* { sem 𝓛 (lies_at pool_seat_row full_share seat x) }
    ensures* { sem 𝓛 (leaves (λ (y : PoolSeatNow). lies_at pool_seat_row full_share seat y) (λ y. TellsPoolReceive x mutex y result)) }
{
    pool_calls::receive(&mut *(seat as *mut PoolSeatHandle), mutex)
}

/// `try_lock` of the seat in this mutex. Returns Done (it holds), Again (it holds once more), Blank, Limit, or why it is
/// refused.
#[unsafe(no_mangle)]
pub unsafe extern "C" fn lfm_c_pool_try_lock(seat: *mut u8, mutex: u64) -> u64
    ghost x: { PoolSeatNow }
    requires* { sem 𝓛 (lies_at pool_seat_row full_share seat x) }
    ensures* { sem 𝓛 (leaves (λ (y : PoolSeatNow). lies_at pool_seat_row full_share seat y) (λ y. TellsPoolTry x mutex y result)) }
{
    pool_calls::try_lock(&mut *(seat as *mut PoolSeatHandle), mutex)
}

/// `unlock` of the seat in this mutex. Returns Still (it has one hold less and still holds), Done, Posted, Granted, Blank,
/// Limit, or why it is refused. The number of the seat to be woken, or 0, is above the status.
#[unsafe(no_mangle)]
pub unsafe extern "C" fn lfm_c_pool_unlock(seat: *mut u8, mutex: u64) -> u64
    ghost x: { PoolSeatNow }
    requires* { sem 𝓛 (lies_at pool_seat_row full_share seat x) }
    ensures* { sem 𝓛 (leaves (λ (y : PoolSeatNow). lies_at pool_seat_row full_share seat y) (λ y. TellsPoolUnlock x mutex y result)) }
{
    pool_calls::unlock(&mut *(seat as *mut PoolSeatHandle), mutex)
}
