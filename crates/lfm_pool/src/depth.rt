//! How many times a seat holds a mutex. The owner word names the seat that holds the mutex. How many holds it has beyond the
//! first is in no memory of the seat: the upper bits of the carried word have that number.
//!
//! Nothing changes by these functions, neither in the pool nor in what the seat knows: no step of the protocol is made. None
//! allocates or waits.
ghost use Rattle.std.specs.Prelude.{◌≡◌, ◌<◌, ℕ};
ghost use Rattle.atomic_table.specs.Table.{Allows};
ghost use Rattle.lfm_pool.specs.Belongs.{IsMutex, OfPool, SameSeat};
ghost use Rattle.lfm_pool.specs.Depths.{HasDepthIn, TellsOwner};
ghost use Rattle.lfm_pool.specs.Posts.{HeldPosts};
ghost use Rattle.lfm_pool.specs.Tables.{part};

use crate::chain::carried_load;
use crate::layout::{OWNER, own_at};
use crate::pool::{Pool, TableSeat};
use crate::view::PoolView;
use atomic_table::Play;
use lfm_words::unpack_link;
use std::marker::{Brand, PhantomData};

/// For the proof alone: the mutex whose owner word is loaded.
pub trait OneOwner {
    ghost mutex: { ℕ };
}

impl OneOwner for Brand {
    ghost mutex = { 0 };
}

/// One load of an owner word.
pub struct OwnerLoad<B> {
    one: PhantomData<B>,
}

impl<B: OneOwner> Play<u64, PoolView> for OwnerLoad<B> {
    ghost then = { λ _ me n me'. (me' ≡ me) × TellsOwner (part me.0 B.mutex) n };
}

/// Loads the word at this index, which is the owner word of this mutex.
#[inline(always)]
fn load_owner<B: OneOwner>(pool: &Pool, seat: &mut TableSeat, _mutex: usize, index: usize) -> u64
    requires table { seat.old.place.table_id ≡ pool.now.table.shared.table_id }
    requires inside { index < pool.now.table.shared.table_id.words }
    requires may { Allows HeldPosts pool.now.table.shared.table_id.slots seat.old.place.id seat.old.place.me index (λ n. n) (λ n me'. (me' ≡ seat.old.place.me) × TellsOwner (part seat.old.place.me.0 B.mutex) n) }
    ensures same { (seat.new.place.table_id ≡ seat.old.place.table_id) × (seat.new.place.id ≡ seat.old.place.id) × (seat.new.number ≡ seat.old.number) }
    ensures knows { seat.new.place.me ≡ seat.old.place.me }
    ensures tells { TellsOwner (part seat.old.place.me.0 B.mutex) result }
{
    pool.table
        .shared
        .load::<OwnerLoad<B>>(&mut seat.place, index)
}

/// Loads the owner word of this mutex. Returns the number of the seat that owns it, or 0 if none does. It is the caller's
/// own number exactly if the caller holds the mutex. Another seat's number may be out of date when the caller reads it. The
/// call refuses nothing, not even for a seat that sleeps or has an open call.
#[inline(always)]
pub fn read_owner(pool: &Pool, seat: &mut TableSeat, mutex: usize) -> u64
    requires belongs { OfPool seat.old pool.now }
    requires mutex { IsMutex mutex pool.now }
    ensures belongs { SameSeat seat.old seat.new }
    ensures knows { seat.new.place.me ≡ seat.old.place.me }
    ensures tells { TellsOwner (part seat.old.place.me.0 mutex) result }
{
    let index = own_at(mutex, OWNER);
    load_owner::<Brand>(pool, seat, mutex, index)
}

/// How many times the seat holds this mutex: 0 to 65,535. It loads the owner word, and the carried word if the seat holds
/// the mutex. The seat has to rest in this mutex.
#[inline(always)]
pub fn depth(pool: &Pool, seat: &mut TableSeat, mutex: usize) -> u32
    requires belongs { OfPool seat.old pool.now }
    requires mutex { IsMutex mutex pool.now }
    requires rests { (d : ℕ) × HasDepthIn seat.old pool.now mutex d }
    ensures belongs { SameSeat seat.old seat.new }
    ensures knows { seat.new.place.me ≡ seat.old.place.me }
    ensures depth { HasDepthIn seat.old pool.now mutex result }
{
    let owner = read_owner(pool, seat, mutex);
    let number = seat.number;
    if owner != number {
        return 0;
    }
    let carried = carried_load(pool, seat, mutex);
    let more = unpack_link(carried).stamp;
    more as u32 + 1
}
