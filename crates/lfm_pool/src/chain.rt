//! The accesses of the seat that carries a mutex, or holds it, to words that no other seat touches then: the link words of
//! the popped records, which are a chain from the oldest record on, and the carried word. The mutex by itself would keep its
//! popped records in a list, so that none of these accesses is a step of its protocol: what the seat knows of the mutex
//! stays as it is, except its note.
//!
//! In each of these functions nothing changes in other mutexes, nor in what the seat knows of them. None allocates or waits.
ghost use Rattle.std.specs.Prelude.{◌≡◌, List, [], ◌+◌, ◌*◌, ◌^◌, ◌<◌, ◌≤◌, ℕ};
ghost use Rattle.lfm_words.specs.Words.{link_word};
ghost use Rattle.lfm_pool.specs.declared.view.PoolView.{PoolView as ViewNow};
ghost use Rattle.lfm_pool.specs.Belongs.{IsMutex, OfPool, SameSeat};
ghost use Rattle.lfm_pool.specs.Carrying.{CarriesIn, MayAccess, NotesIn};
ghost use Rattle.lfm_words.specs.declared.pop_lists.Record.{Record as RecordNow};
ghost use Rattle.lfm_protocol.specs.Limits.{max_seats};
ghost use Rattle.lfm_pool.specs.Chain.{AreWithin, first_link, first_seat};
ghost use Rattle.lfm_pool.specs.Seats.{note_of, popped_of};
ghost use Rattle.lfm_pool.specs.Tables.{no_pool_view};

use crate::layout::{CARRIED, link_at, own_at};
use crate::pool::{Pool, TableSeat};
use crate::view::PoolView;
use atomic_table::Play;
use lfm_words::{Link, pack_link};
use std::marker::{Brand, PhantomData};

/// For the proof alone: the number that an access finds or stores, what the seat knows after it, and records
/// of which the access tells that they are of seats.
pub trait OneAccess {
    ghost number: { ℕ };

    ghost after: { ViewNow };

    ghost within: { List RecordNow };
}

impl OneAccess for Brand {
    ghost number = { 0 };

    ghost after = { no_pool_view };

    ghost within = { [] };
}

/// One access.
pub struct WordAccess<B> {
    one: PhantomData<B>,
}

impl<B: OneAccess> Play<u64, PoolView> for WordAccess<B> {
    ghost then = { λ _ me n me'. (n ≡ B.number) × (me' ≡ (B.after, me.1)) × AreWithin max_seats B.within };
}

/// A word of the pool that a call on this mutex accesses, by its index.
#[derive(Clone, Copy)]
struct WordOf {
    mutex: usize,
    index: usize,
}

/// Loads a word whose number the seat knows.
#[inline(always)]
fn load_word<B: OneAccess>(pool: &Pool, seat: &mut TableSeat, word: WordOf) -> u64
    requires table { seat.old.place.table_id ≡ pool.now.table.shared.table_id }
    requires inside { word.index < pool.now.table.shared.table_id.words }
    requires may { MayAccess pool.now.table.shared.table_id.slots seat.old.place.id seat.old.place.me word.index (λ n. n) B.number B.after B.within }
    requires counts { B.after.posts ≡ seat.old.place.me.0.posts }
    ensures same { (seat.new.place.table_id ≡ seat.old.place.table_id) × (seat.new.place.id ≡ seat.old.place.id) × (seat.new.number ≡ seat.old.number) }
    ensures found { result ≡ B.number }
    ensures within { AreWithin max_seats B.within }
    ensures knows { seat.new.place.me ≡ (B.after, seat.old.place.me.1) }
{
    pool.table
        .shared
        .load::<WordAccess<B>>(&mut seat.place, word.index)
}

/// Stores a number in a word.
#[inline(always)]
fn store_word<B: OneAccess>(pool: &Pool, seat: &mut TableSeat, word: WordOf, number: u64)
    requires table { seat.old.place.table_id ≡ pool.now.table.shared.table_id }
    requires inside { word.index < pool.now.table.shared.table_id.words }
    requires may { MayAccess pool.now.table.shared.table_id.slots seat.old.place.id seat.old.place.me word.index (λ _. number) B.number B.after B.within }
    requires counts { B.after.posts ≡ seat.old.place.me.0.posts }
    ensures same { (seat.new.place.table_id ≡ seat.old.place.table_id) × (seat.new.place.id ≡ seat.old.place.id) × (seat.new.number ≡ seat.old.number) }
    ensures knows { seat.new.place.me ≡ (B.after, seat.old.place.me.1) }
{
    pool.table
        .shared
        .store::<WordAccess<B>>(&mut seat.place, word.index, number);
}

/// A seat, and what its link word holds in the chain: the stamp of its record, and the seat of the record after it, or 0.
#[derive(Clone, Copy)]
pub struct ChainLink {
    pub seat: u64,
    pub link: Link,
}

/// Puts the oldest popped record into the chain: stores its link there. A call does so right after it has loaded the
/// record's link, by which the record became the oldest popped one.
#[inline(always)]
pub fn chain_store(pool: &Pool, seat: &mut TableSeat, mutex: usize, chained: ChainLink)
    requires belongs { OfPool seat.old pool.now }
    requires mutex { IsMutex mutex pool.now }
    requires carries { CarriesIn seat.old mutex }
    requires due { (note_of seat.old mutex).due ≡ 1 }
    requires oldest { (chained.seat ≡ first_seat (popped_of seat.old mutex)) × (link_word chained.link ≡ first_link (popped_of seat.old mutex)) }
    requires inside { (0 < chained.seat) × (chained.seat ≤ pool.now.limits.seats) }
    requires packs { (chained.link.stamp < 2 ^ 48) × (chained.link.next < 2 ^ 16) }
    ensures belongs { SameSeat seat.old seat.new }
    ensures notes { NotesIn seat.old seat.new mutex (record (note_of seat.old mutex) { due = 0 }) }
{
    let index = link_at(pool.mutexes, chained.seat);
    let link = pack_link(chained.link.stamp, chained.link.next);
    store_word::<Brand>(pool, seat, WordOf { mutex, index }, link);
}

/// Loads the link of the oldest popped record in the chain. Returns the word: the stamp of the record, and the seat of the
/// record after it, or 0. It tells that all popped records are of seats.
#[inline(always)]
pub fn chain_load(pool: &Pool, seat: &mut TableSeat, mutex: usize, oldest: u64) -> u64
    requires belongs { OfPool seat.old pool.now }
    requires mutex { IsMutex mutex pool.now }
    requires carries { CarriesIn seat.old mutex }
    requires due { (note_of seat.old mutex).due ≡ 0 }
    requires oldest { oldest ≡ first_seat (popped_of seat.old mutex) }
    requires inside { (0 < oldest) × (oldest ≤ pool.now.limits.seats) }
    ensures belongs { SameSeat seat.old seat.new }
    ensures finds { result ≡ first_link (popped_of seat.old mutex) }
    ensures within { AreWithin max_seats (popped_of seat.old mutex) }
    ensures knows { seat.new.place.me ≡ seat.old.place.me }
{
    let index = link_at(pool.mutexes, oldest);
    load_word::<Brand>(pool, seat, WordOf { mutex, index })
}

/// Stores this number in the carried word.
#[inline(always)]
pub fn carried_store(pool: &Pool, seat: &mut TableSeat, mutex: usize, number: u64)
    requires belongs { OfPool seat.old pool.now }
    requires mutex { IsMutex mutex pool.now }
    requires carries { CarriesIn seat.old mutex }
    ensures belongs { SameSeat seat.old seat.new }
    ensures notes { NotesIn seat.old seat.new mutex (record (note_of seat.old mutex) { carried = number }) }
{
    let index = own_at(mutex, CARRIED);
    store_word::<Brand>(pool, seat, WordOf { mutex, index }, number);
}

/// Loads the carried word. Returns the number. It tells that all popped records are of seats.
#[inline(always)]
pub fn carried_load(pool: &Pool, seat: &mut TableSeat, mutex: usize) -> u64
    requires belongs { OfPool seat.old pool.now }
    requires mutex { IsMutex mutex pool.now }
    requires carries { CarriesIn seat.old mutex }
    ensures belongs { SameSeat seat.old seat.new }
    ensures finds { result ≡ (note_of seat.old mutex).carried }
    ensures within { AreWithin max_seats (popped_of seat.old mutex) }
    ensures knows { seat.new.place.me ≡ seat.old.place.me }
{
    let index = own_at(mutex, CARRIED);
    load_word::<Brand>(pool, seat, WordOf { mutex, index })
}
