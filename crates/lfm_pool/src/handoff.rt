//! The steps of a seat on the handoff word of a mutex. That word has the number of a post among all posts that its seat has
//! made in the pool. The table that the mutex would have by itself has another number for it: that among the posts of the
//! seat in this mutex. A seat remembers the number in the handoff word from its load until it has tried for the post.
//!
//! In each of these functions the seat has to rest in all other mutexes, and nothing changes in them, nor in what the seat
//! knows of them. None allocates or waits.
ghost use Rattle.std.specs.Prelude.{◌≡◌, ◌+◌, ◌*◌, ◌^◌, ◌<◌, true, length};
ghost use Rattle.lfm_words.specs.Words.{handoff_word};
ghost use Rattle.lfm_table.specs.Rule.{Advanced};
ghost use Rattle.lfm_table.specs.Steps.{CanMake};
ghost use Rattle.lfm_pool.specs.Belongs.{SameSeat};
ghost use Rattle.lfm_pool.specs.Chain.{rested};
ghost use Rattle.lfm_pool.specs.Handoff.{LoadsWordIn, MakesPostIn, TellsOfLoad, TellsOfPost, TellsOfTry, TriesPostIn, loads_handoff, makes_post, tried_post, tries_post};
ghost use Rattle.lfm_pool.specs.Moves.{MayStepIn};
ghost use Rattle.lfm_pool.specs.Seats.{note_of, popped_of, state_of};
ghost use Rattle.lfm_pool.specs.Steps.{RestsElsewhere, state_in};
ghost use Rattle.lfm_pool.specs.Tables.{any_follows, any_fits, note, part};

use crate::layout::{HANDOFF, own_at};
use crate::pool::{Pool, TableSeat};
use crate::step::OneMutex;
use crate::view::PoolView;
use atomic_table::Play;
use lfm_words::pack_handoff;
use std::marker::{Brand, PhantomData};

/// A load of the handoff word.
pub struct HandoffLoad<B> {
    one: PhantomData<B>,
}

impl<B: OneMutex> Play<u64, PoolView> for HandoffLoad<B> {
    ghost then = { λ _ me n me'. TellsOfLoad B.mutex B.state (λ k. Advanced any_follows any_fits B.state B.hand (part me.0 B.mutex, B.slots) k) me n me' };
}

/// An exchange of the handoff word.
pub struct HandoffExchange<B> {
    one: PhantomData<B>,
}

impl<B: OneMutex> Play<u64, PoolView> for HandoffExchange<B> {
    ghost then = { λ _ me n me'. TellsOfTry B.mutex B.number B.state B.expected (λ k. Advanced any_follows any_fits B.state B.hand (part me.0 B.mutex, B.slots) k) me n me' };
}

/// A store of a post.
pub struct HandoffStore<B> {
    one: PhantomData<B>,
}

impl<B: OneMutex> Play<u64, PoolView> for HandoffStore<B> {
    ghost then = { λ _ me n me'. TellsOfPost B.mutex B.number B.state (λ k. Advanced any_follows any_fits B.state B.hand (part me.0 B.mutex, B.slots) k) me me' };
}

/// The load, as a step of the seat at the table of the mutex.
#[inline(always)]
fn load_at<B: OneMutex>(pool: &Pool, seat: &mut TableSeat, mutex: usize) -> u64
    requires one { B.mutex ≡ mutex }
    requires now { B.state ≡ state_in seat.old.place.me.0 mutex }
    requires table { seat.old.place.table_id ≡ pool.now.table.shared.table_id }
    requires inside { (mutex < pool.now.mutexes) × (length seat.old.place.me.0.parts ≡ pool.now.mutexes) }
    requires can { CanMake any_follows any_fits B.state B.hand seat.old.number pool.now.limits.seats (4 + 2 * pool.now.limits.seats) (part seat.old.place.me.0 mutex, B.slots) }
    requires at { loads_handoff B.state.point ≡ true }
    requires elsewhere { RestsElsewhere seat.old.place.me.0 mutex }
    ensures table { (seat.new.place.table_id ≡ seat.old.place.table_id) × (seat.new.place.id ≡ seat.old.place.id) × (seat.new.number ≡ seat.old.number) }
    ensures step { TellsOfLoad mutex B.state (λ k. Advanced any_follows any_fits B.state B.hand (part seat.old.place.me.0 mutex, B.slots) k) seat.old.place.me result seat.new.place.me }
{
    let index = own_at(mutex, HANDOFF);
    pool.table
        .shared
        .load::<HandoffLoad<B>>(&mut seat.place, index)
}

/// Loads the handoff word, by the next step of the open call of the seat in this mutex. Returns the word.
#[inline(always)]
pub fn handoff_load(pool: &Pool, seat: &mut TableSeat, mutex: usize) -> u64
    requires may { MayStepIn seat.old pool.now mutex }
    requires at { loads_handoff (state_of seat.old mutex).point ≡ true }
    ensures belongs { SameSeat seat.old seat.new }
    ensures may { MayStepIn seat.new pool.now mutex }
    ensures step { LoadsWordIn seat.old seat.new pool.now mutex result }
{
    load_at::<Brand>(pool, seat, mutex)
}

/// The exchange, as a step of the seat at the table of the mutex.
#[inline(always)]
fn exchange_at<B: OneMutex>(pool: &Pool, seat: &mut TableSeat, mutex: usize, post: u64) -> u64
    requires one { (B.mutex ≡ mutex) × (B.number ≡ seat.old.number) × (B.expected ≡ post) }
    requires now { B.state ≡ state_in seat.old.place.me.0 mutex }
    requires table { seat.old.place.table_id ≡ pool.now.table.shared.table_id }
    requires inside { (mutex < pool.now.mutexes) × (length seat.old.place.me.0.parts ≡ pool.now.mutexes) }
    requires can { CanMake any_follows any_fits B.state B.hand seat.old.number pool.now.limits.seats (4 + 2 * pool.now.limits.seats) (part seat.old.place.me.0 mutex, B.slots) }
    requires at { tries_post B.state.point ≡ true }
    requires expected { post ≡ handoff_word (tried_post seat.old.number seat.old.place.me.0 B.state.point) }
    requires elsewhere { RestsElsewhere seat.old.place.me.0 mutex }
    ensures table { (seat.new.place.table_id ≡ seat.old.place.table_id) × (seat.new.place.id ≡ seat.old.place.id) × (seat.new.number ≡ seat.old.number) }
    ensures step { TellsOfTry mutex seat.old.number B.state post (λ k. Advanced any_follows any_fits B.state B.hand (part seat.old.place.me.0 mutex, B.slots) k) seat.old.place.me result seat.new.place.me }
{
    let index = own_at(mutex, HANDOFF);
    pool.table
        .shared
        .compare_exchange::<HandoffExchange<B>>(&mut seat.place, index, post, 0)
}

/// Tries for this post, by the next step of the open call of the seat in this mutex: the exchange of the handoff word from
/// it to 0. It is the post that the call has loaded, or its own last one. Returns the word that it found: the post, or
/// another one if another seat was faster.
#[inline(always)]
pub fn handoff_exchange(pool: &Pool, seat: &mut TableSeat, mutex: usize, post: u64) -> u64
    requires may { MayStepIn seat.old pool.now mutex }
    requires at { tries_post (state_of seat.old mutex).point ≡ true }
    requires expected { post ≡ handoff_word (tried_post seat.old.number seat.old.place.me.0 (state_of seat.old mutex).point) }
    ensures belongs { SameSeat seat.old seat.new }
    ensures may { MayStepIn seat.new pool.now mutex }
    ensures step { TriesPostIn seat.old seat.new pool.now mutex post result }
{
    exchange_at::<Brand>(pool, seat, mutex, post)
}

/// The store, as a step of the seat at the table of the mutex.
#[inline(always)]
fn store_at<B: OneMutex>(pool: &Pool, seat: &mut TableSeat, mutex: usize)
    requires one { (B.mutex ≡ mutex) × (B.number ≡ seat.old.number) }
    requires now { B.state ≡ state_in seat.old.place.me.0 mutex }
    requires table { seat.old.place.table_id ≡ pool.now.table.shared.table_id }
    requires inside { (mutex < pool.now.mutexes) × (length seat.old.place.me.0.parts ≡ pool.now.mutexes) }
    requires can { CanMake any_follows any_fits B.state B.hand seat.old.number pool.now.limits.seats (4 + 2 * pool.now.limits.seats) (part seat.old.place.me.0 mutex, B.slots) }
    requires at { makes_post B.state.point ≡ true }
    requires left { seat.old.posts + 2 < 2 ^ 48 }
    requires whole { note seat.old.place.me.0 mutex ≡ rested (part seat.old.place.me.0 mutex).popped }
    requires elsewhere { RestsElsewhere seat.old.place.me.0 mutex }
    ensures table { (seat.new.place.table_id ≡ seat.old.place.table_id) × (seat.new.place.id ≡ seat.old.place.id) × (seat.new.number ≡ seat.old.number) }
    ensures step { TellsOfPost mutex seat.old.number B.state (λ k. Advanced any_follows any_fits B.state B.hand (part seat.old.place.me.0 mutex, B.slots) k) seat.old.place.me seat.new.place.me }
{
    let index = own_at(mutex, HANDOFF);
    seat.posts += 1;
    let post = pack_handoff(seat.number, seat.posts);
    pool.table
        .shared
        .store::<HandoffStore<B>>(&mut seat.place, index, post);
}

/// Posts the mutex, by the next step of the open call of the seat there: stores the seat and the next number of its posts in
/// the handoff word. The chain has to be whole, since the step gives the mutex away. The seat needs a number that is left.
#[inline(always)]
pub fn handoff_store(pool: &Pool, seat: &mut TableSeat, mutex: usize)
    requires may { MayStepIn seat.old pool.now mutex }
    requires at { makes_post (state_of seat.old mutex).point ≡ true }
    requires left { seat.old.posts + 2 < 2 ^ 48 }
    requires whole { note_of seat.old mutex ≡ rested (popped_of seat.old mutex) }
    ensures belongs { SameSeat seat.old seat.new }
    ensures may { MayStepIn seat.new pool.now mutex }
    ensures counts { seat.new.posts ≡ seat.old.posts + 1 }
    ensures step { MakesPostIn seat.old seat.new pool.now mutex }
{
    store_at::<Brand>(pool, seat, mutex)
}
