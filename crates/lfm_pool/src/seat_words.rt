//! The steps of a seat in one mutex on link words and wake words. A seat stores its own link before it pushes its record. It
//! loads its own wake word to receive a grant, and stores QUIET there once it has found one. A call that carries the
//! responsibility loads the links of the records that it collects, and stores a grant in the wake word of the seat that it
//! serves (`grant` of the module `wake_up`): those seats are queued in this mutex, so that their words are its own.
//!
//! In each of these functions the seat has to rest in all other mutexes, and nothing changes in them, nor in what the seat
//! knows of them. None allocates or waits.
ghost use Rattle.std.specs.Prelude.{◌≡◌, ◌+◌};
ghost use Rattle.lfm_words.specs.Words.{link_word, wake_word};
ghost use Rattle.lfm_words.specs.declared.links.Link.{Link as LinkNow};
ghost use Rattle.lfm_words.specs.declared.wakes.Wake.TheVariants.{Quiet};
ghost use Rattle.lfm_pool.specs.Belongs.{IsMutex, OfPool, SameSeat};
ghost use Rattle.lfm_pool.specs.SeatWords.{StoresLink, LoadsLink, Sleeps, TakesGrant};
ghost use Rattle.lfm_pool.specs.Seats.{note_of, state_of, MovesIn, ReceivesIn, RestsInOthers, SitsIn};

use crate::accesses::PoolAccess;
use crate::layout::{link_at, wake_at};
use crate::pool::{Pool, TableSeat};
use crate::step::{first_at, next_at};
use lfm_table::layout as lone;
use lfm_table::operations::Access;
use lfm_words::{Link, Wake, pack_link};
use std::marker::Brand;

/// Stores the seat's link: the stamp of this push word, which the seat has loaded, plus 1, and its head.
#[inline(always)]
pub fn link_store(pool: &Pool, seat: &mut TableSeat, mutex: usize, seen: Link)
    requires belongs { OfPool seat.old pool.now }
    requires mutex { IsMutex mutex pool.now }
    requires sits { SitsIn seat.old pool.now mutex }
    requires elsewhere { RestsInOthers seat.old mutex }
    requires at { StoresLink seen (state_of seat.old mutex) }
    ensures belongs { SameSeat seat.old seat.new }
    ensures step { MovesIn seat.old seat.new pool.now mutex (link_word (record { stamp = seen.stamp + 1; next = seen.next })) }
{
    let number = seat.number;
    let index = link_at(pool.mutexes, number);
    let word = lone::link_at(number);
    let link = pack_link(seen.stamp + 1, seen.next);
    let access = Access::Store(word, link);
    next_at(pool, seat, mutex, PoolAccess { index, access });
}

/// Loads the link word of this seat, whose record is collected. Returns the word. All records that were collected before
/// have to be in the chain; this one is not yet.
#[inline(always)]
pub fn link_load(pool: &Pool, seat: &mut TableSeat, mutex: usize, target: u64) -> u64
    requires belongs { OfPool seat.old pool.now }
    requires mutex { IsMutex mutex pool.now }
    requires sits { SitsIn seat.old pool.now mutex }
    requires elsewhere { RestsInOthers seat.old mutex }
    requires at { LoadsLink target (state_of seat.old mutex) }
    requires whole { (note_of seat.old mutex).due ≡ 0 }
    ensures belongs { SameSeat seat.old seat.new }
    ensures step { MovesIn seat.old seat.new pool.now mutex result }
{
    let index = link_at(pool.mutexes, target);
    let word = lone::link_at(target);
    let access = Access::Load(word);
    next_at(pool, seat, mutex, PoolAccess { index, access })
}

/// Begins a `receive` of a seat that sleeps in this mutex, and loads its wake word. Returns the word. If it is a grant, the
/// call is open, and its next step is `wake_store`. Else the call has ended, and the seat sleeps on.
#[inline(always)]
pub fn wake_load(pool: &Pool, seat: &mut TableSeat, mutex: usize) -> u64
    requires belongs { OfPool seat.old pool.now }
    requires mutex { IsMutex mutex pool.now }
    requires sits { SitsIn seat.old pool.now mutex }
    requires elsewhere { RestsInOthers seat.old mutex }
    requires at { Sleeps (state_of seat.old mutex) }
    ensures belongs { SameSeat seat.old seat.new }
    ensures step { ReceivesIn seat.old seat.new pool.now mutex result }
{
    let number = seat.number;
    let index = wake_at(pool.mutexes, number);
    let word = lone::wake_at(pool.limits.seats, number);
    let access = Access::Load(word);
    first_at::<Brand>(pool, seat, mutex, PoolAccess { index, access })
}

/// Stores QUIET in the wake word of the seat, which has found a grant there.
#[inline(always)]
pub fn wake_store(pool: &Pool, seat: &mut TableSeat, mutex: usize)
    requires belongs { OfPool seat.old pool.now }
    requires mutex { IsMutex mutex pool.now }
    requires sits { SitsIn seat.old pool.now mutex }
    requires elsewhere { RestsInOthers seat.old mutex }
    requires at { TakesGrant (state_of seat.old mutex) }
    ensures belongs { SameSeat seat.old seat.new }
    ensures step { MovesIn seat.old seat.new pool.now mutex (wake_word Quiet) }
{
    let receiver = seat.number;
    let index = wake_at(pool.mutexes, receiver);
    let word = lone::wake_at(pool.limits.seats, receiver);
    let wake = Wake::Quiet.to_word();
    let access = Access::Store(word, wake);
    next_at(pool, seat, mutex, PoolAccess { index, access });
}
