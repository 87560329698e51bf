//! How a call that carries a mutex, none of whose records is popped, collects the push list: it clears the head of the push
//! word, and loads the link of each record from the newest to the oldest. Each record becomes the oldest popped one, and the
//! call stores its link in the chain before it loads the next: so the chain has the records from the oldest on.
ghost use Rattle.std.specs.Prelude.{◌≡◌, ◌^◌, ◌<◌, []};
ghost use Rattle.lfm_words.specs.Words.{link_word};
ghost use Rattle.lfm_pool.specs.Belongs.{IsMutex, OfPool, SameSeat};
ghost use Rattle.lfm_pool.specs.Chain.{first_seat};
ghost use Rattle.lfm_pool.specs.Collecting.{ClearsHead, CollectsIn, CollectsOneIn};
ghost use Rattle.lfm_pool.specs.SeatWords.{LoadsLink};
ghost use Rattle.lfm_pool.specs.Seats.{note_of, popped_of, state_of, MovesIn, RestsInOthers, SitsIn};

use crate::chain::{ChainLink, carried_store, chain_store};
use crate::layout::PUSH;
use crate::pool::{Pool, TableSeat};
use crate::seat_words::link_load;
use crate::step::next_step;
use lfm_model::SeatNo;
use lfm_table::operations::Access;
use lfm_words::{Link, Record, unpack_link};

/// All bits of a push word except the head.
const STAMP: u64 = 0xffff_ffff_ffff_0000;

/// Clears the head of the push word. Returns the word that it found.
#[inline(always)]
pub fn clear_head(pool: &Pool, seat: &mut TableSeat, mutex: usize) -> u64
    requires belongs { OfPool seat.old pool.now }
    requires mutex { IsMutex mutex pool.now }
    requires sits { SitsIn seat.old pool.now mutex }
    requires elsewhere { RestsInOthers seat.old mutex }
    requires at { ClearsHead (state_of seat.old mutex) }
    ensures belongs { SameSeat seat.old seat.new }
    ensures step { MovesIn seat.old seat.new pool.now mutex result }
{
    next_step(pool, seat, mutex, Access::FetchAnd(PUSH, STAMP))
}

/// The record to collect next, and the seat of the one collected before it, which is the oldest popped one, or 0.
#[derive(Clone, Copy)]
pub struct Walk {
    pub target: u64,
    pub newer: u64,
}

/// Collects one record: loads its link, which makes it the oldest popped record, and puts it into the chain. Returns the
/// link that it loaded: the stamp of the record, and the seat of the record pushed before it, or 0 if it is the oldest.
#[inline(always)]
pub fn collect_one(pool: &Pool, seat: &mut TableSeat, mutex: usize, walk: Walk) -> Link
    requires belongs { OfPool seat.old pool.now }
    requires mutex { IsMutex mutex pool.now }
    requires sits { SitsIn seat.old pool.now mutex }
    requires elsewhere { RestsInOthers seat.old mutex }
    requires at { LoadsLink walk.target (state_of seat.old mutex) }
    requires whole { (note_of seat.old mutex).due ≡ 0 }
    requires newer { (walk.newer ≡ first_seat (popped_of seat.old mutex)) × (walk.newer < 2 ^ 16) }
    ensures belongs { SameSeat seat.old seat.new }
    ensures packs { (result.stamp < 2 ^ 48) × (result.next < 2 ^ 16) }
    ensures collects { CollectsOneIn seat.old seat.new pool.now mutex (link_word result) }
{
    let word = link_load(pool, seat, mutex, walk.target);
    let found = unpack_link(word);
    let link = Link {
        stamp: found.stamp,
        next: walk.newer,
    };
    let chained = ChainLink {
        seat: walk.target,
        link,
    };
    chain_store(pool, seat, mutex, chained);
    found
}

/// Collects the push list, whose newest record is that of the seat `head`. Returns the oldest record, which the call serves
/// next: it grants it, or acquires the mutex if the record is its own. Before, it stores in the carried word the seat of the
/// record after the oldest, or 0: the seat that is served finds it there. It makes a step for each record.
///
/// The seat has to rest in all other mutexes. Nothing changes in them, nor in what the seat knows of them. It allocates
/// nothing and does not wait.
pub fn collect(pool: &Pool, seat: &mut TableSeat, mutex: usize, head: u64) -> Record
    requires belongs { OfPool seat.old pool.now }
    requires mutex { IsMutex mutex pool.now }
    requires sits { SitsIn seat.old pool.now mutex }
    requires elsewhere { RestsInOthers seat.old mutex }
    requires at { LoadsLink head (state_of seat.old mutex) }
    requires none { popped_of seat.old mutex ≡ [] }
    requires whole { (note_of seat.old mutex).due ≡ 0 }
    ensures belongs { SameSeat seat.old seat.new }
    ensures collects { CollectsIn seat.old seat.new pool.now mutex head result }
{
    let mut target = head;
    let mut newer = 0;
    'walk: loop {
        let found = collect_one(pool, seat, mutex, Walk { target, newer });
        let number = SeatNo::known(target);
        let next = found.next;
        if next == 0 {
            carried_store(pool, seat, mutex, newer);
            return Record {
                seat: number,
                stamp: found.stamp,
            };
        }
        newer = target;
        target = next;
    }
}
