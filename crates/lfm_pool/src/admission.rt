//! The load by which a seat sees, before the first step of an `ask`, whether a stamp is left for its record. It is no step of
//! the protocol. It allocates nothing and never waits.
ghost use Rattle.std.specs.Prelude.{◌≡◌, ◌<◌, ℕ, nat_lt};
ghost use Rattle.atomic_table.specs.Table.{Allows};
ghost use Rattle.lfm_pool.specs.Admissions.{after_load, most_stamps, stamp_in, with_admission};
ghost use Rattle.lfm_pool.specs.Belongs.{IsMutex, OfPool, SameSeat};
ghost use Rattle.lfm_pool.specs.Posts.{HeldPosts};

use crate::layout::{PUSH, own_at};
use crate::pool::{Pool, TableSeat};
use crate::view::PoolView;
use atomic_table::Play;
use lfm_words::unpack_link;
use std::marker::{Brand, PhantomData};

/// A seat that finds that a mutex has had this number of pushes does not ask for it: 2^13 stamps are left then.
const MOST_STAMPS: u64 = (1 << 48) - (1 << 13);

/// For the proof alone: the mutex whose push word is loaded.
pub trait OnePush {
    ghost mutex: { ℕ };
}

impl OnePush for Brand {
    ghost mutex = { 0 };
}

/// One load of a push word, after which the seat knows what it has found.
pub struct AdmissionLoad<B> {
    one: PhantomData<B>,
}

impl<B: OnePush> Play<u64, PoolView> for AdmissionLoad<B> {
    ghost then = { λ _ me n me'. me' ≡ (with_admission me.0 B.mutex n, me.1) };
}

/// Loads the word at this index, which is the push word of this mutex.
#[inline(always)]
fn load_push_word<B: OnePush>(pool: &Pool, seat: &mut TableSeat, _mutex: usize, index: usize) -> u64
    requires table { seat.old.place.table_id ≡ pool.now.table.shared.table_id }
    requires inside { index < pool.now.table.shared.table_id.words }
    requires may { Allows HeldPosts pool.now.table.shared.table_id.slots seat.old.place.id seat.old.place.me index (λ n. n) (λ n me'. me' ≡ (with_admission seat.old.place.me.0 B.mutex n, seat.old.place.me.1)) }
    ensures same { (seat.new.place.table_id ≡ seat.old.place.table_id) × (seat.new.place.id ≡ seat.old.place.id) × (seat.new.number ≡ seat.old.number) }
    ensures knows { seat.new.place.me ≡ (with_admission seat.old.place.me.0 B.mutex result, seat.old.place.me.1) }
{
    pool.table
        .shared
        .load::<AdmissionLoad<B>>(&mut seat.place, index)
}

/// Loads the push word of this mutex, and returns whether a stamp is left for a record of this seat: the mutex has had fewer
/// than 2^48 - 2^13 pushes. The seat may push one record in this mutex then.
#[inline(always)]
pub fn has_stamp(pool: &Pool, seat: &mut TableSeat, mutex: usize) -> bool
    requires belongs { OfPool seat.old pool.now }
    requires mutex { IsMutex mutex pool.now }
    ensures belongs { SameSeat seat.old seat.new }
    ensures loads { (found : ℕ) × (seat.new.place.me ≡ (after_load seat.old mutex found).place.me) × (result ≡ nat_lt (stamp_in found) most_stamps) }
{
    let index = own_at(mutex, PUSH);
    let word = load_push_word::<Brand>(pool, seat, mutex, index);
    unpack_link(word).stamp < MOST_STAMPS
}
