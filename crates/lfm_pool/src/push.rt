//! The steps by which a `lock` that has found the mutex taken puts its record into the queue: it loads the push word, tries
//! to push its record, loads the handoff word once it has pushed, and takes a post over that it finds there. In each of
//! these functions the seat has to rest in all other mutexes, and nothing changes in them, nor in what the seat knows of
//! them. None allocates or waits.
ghost use Rattle.lfm_words.specs.Words.{link_of};
ghost use Rattle.lfm_laws.specs.steady.Steady.{IsSeen};
ghost use Rattle.lfm_pool.specs.Admissions.{IsAdmittedIn};
ghost use Rattle.lfm_pool.specs.Belongs.{IsMutex, OfPool, SameSeat};
ghost use Rattle.lfm_pool.specs.Moves.{MayStepIn};
ghost use Rattle.lfm_pool.specs.Push.{FindsHandoffIn, LoadsHandoff, LoadsPush, LoadsPushIn, PushesIn, TakesWord, TakesWordIn};
ghost use Rattle.lfm_pool.specs.SeatWords.{StoresLink};
ghost use Rattle.lfm_pool.specs.Seats.{state_of, RestsInOthers, SitsIn};

use crate::handoff::{handoff_exchange, handoff_load};
use crate::layout::PUSH;
use crate::pool::{Pool, TableSeat};
use crate::seat_words::link_store;
use crate::step::next_step;
use lfm_table::operations::Access;
use lfm_words::{Link, pack_link};

/// Loads the push word. Returns the word; the next step stores the seat's link after it.
#[inline(always)]
pub fn load_push(pool: &Pool, seat: &mut TableSeat, mutex: usize) -> u64
    requires belongs { OfPool seat.old pool.now }
    requires mutex { IsMutex mutex pool.now }
    requires sits { SitsIn seat.old pool.now mutex }
    requires elsewhere { RestsInOthers seat.old mutex }
    requires at { LoadsPush (state_of seat.old mutex) }
    ensures belongs { SameSeat seat.old seat.new }
    ensures loads { LoadsPushIn seat.old seat.new pool.now mutex result }
{
    next_step(pool, seat, mutex, Access::Load(PUSH))
}

/// Loads the handoff word after the record was pushed. Returns the word. If nothing is posted in it, the call has ended,
/// and the seat sleeps until a receive finds a grant. Else the next step tries to take the post over.
#[inline(always)]
pub fn load_handoff(pool: &Pool, seat: &mut TableSeat, mutex: usize) -> u64
    requires belongs { OfPool seat.old pool.now }
    requires mutex { IsMutex mutex pool.now }
    requires sits { SitsIn seat.old pool.now mutex }
    requires elsewhere { RestsInOthers seat.old mutex }
    requires at { LoadsHandoff (state_of seat.old mutex) }
    ensures belongs { SameSeat seat.old seat.new }
    ensures may { MayStepIn seat.new pool.now mutex }
    ensures loads { FindsHandoffIn seat.old seat.new pool.now mutex result }
{
    handoff_load(pool, seat, mutex)
}

/// Stores the seat's link after this push word, which it has loaded, and makes the exchange by which its record becomes the
/// newest of the push list. Returns the push word that it found. If that is the word that was loaded, the record is in the
/// queue, and the next step loads the handoff word. Else another seat was faster, and the next step stores the link again,
/// after the word that was found: it has a later stamp, or the push list was cleared.
#[inline(always)]
pub fn push(pool: &Pool, seat: &mut TableSeat, mutex: usize, loaded: Link) -> u64
    requires belongs { OfPool seat.old pool.now }
    requires mutex { IsMutex mutex pool.now }
    requires sits { SitsIn seat.old pool.now mutex }
    requires elsewhere { RestsInOthers seat.old mutex }
    requires at { StoresLink loaded (state_of seat.old mutex) }
    requires admitted { IsAdmittedIn seat.old mutex }
    ensures belongs { SameSeat seat.old seat.new }
    ensures pushes { PushesIn seat.old seat.new pool.now mutex loaded result }
    ensures sees { IsSeen (link_of result) loaded }
{
    link_store(pool, seat, mutex, loaded);
    let number = seat.number;
    let expected = pack_link(loaded.stamp, loaded.next);
    let new = pack_link(loaded.stamp + 1, number);
    let access = Access::CompareExchange(PUSH, expected, new);
    next_step(pool, seat, mutex, access)
}

/// Tries to take over the post in this handoff word, which the seat has found after its push: the exchange of the handoff
/// word from it to 0. Returns the handoff word that it found. If that is the post, the call has the responsibility, and its
/// next step grants the oldest record of the pop list, makes the seat the owner if that record is its own, or clears the
/// head of the push word if there is none. Else another seat was faster: the call has ended, and the seat sleeps until a
/// receive finds a grant.
#[inline(always)]
pub fn take_over(pool: &Pool, seat: &mut TableSeat, mutex: usize, post: u64) -> u64
    requires belongs { OfPool seat.old pool.now }
    requires mutex { IsMutex mutex pool.now }
    requires sits { SitsIn seat.old pool.now mutex }
    requires elsewhere { RestsInOthers seat.old mutex }
    requires at { TakesWord post seat.old mutex }
    ensures belongs { SameSeat seat.old seat.new }
    ensures may { MayStepIn seat.new pool.now mutex }
    ensures takes { TakesWordIn seat.old seat.new pool.now mutex post result }
{
    handoff_exchange(pool, seat, mutex, post)
}
