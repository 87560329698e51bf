//! The grant of a mutex to a queued seat, and the wake-up that is owed after it. Each wake-up is made here, by the step that
//! stores the grant, and is consumed here: by `wake_and_note` or `wake`, or by `into_seat`, whose caller then has to wake the
//! thread. No path of the code can lose one in between. `wake_and_note` adds the seat to the `OffTrail` of the seat that makes
//! the call: by its contract, a call that says whom it wakes wakes that seat.
//!
//! Nothing checks that a wake-up is passed to the pool whose call returned it: `wake` requires only that the pool has a seat
//! of that number.
ghost use Rattle.std.specs.Prelude.{◌≡◌, ◌<◌, ◌≤◌, ◌++◌, ◌∷◌, [], drop};
ghost use Rattle.lfm_words.specs.Words.{wake_word};
ghost use Rattle.lfm_words.specs.declared.wakes.Wake.TheVariants.{Grant};
ghost use Rattle.lfm_pool.specs.Belongs.{IsMutex, OfPool, SameSeat};
ghost use Rattle.lfm_pool.specs.Chain.{rested};
ghost use Rattle.lfm_pool.specs.Seats.{note_of, popped_of, state_of, MovesIn, RestsInOthers, SitsIn};
ghost use Rattle.lfm_pool.specs.SeatWords.{Grants};
ghost use Rattle.lfm_pool.specs.WakeUps.{IsForSeatOf, WakesSeatOf, seats_to_wake};

pub mod off_trail;

use crate::accesses::PoolAccess;
use crate::layout::wake_at;
use crate::pool::{Pool, TableSeat};
use crate::step::next_at;
use crate::wake_up::off_trail::OffTrail;
use lfm_model::SeatNo;
use lfm_table::layout as lone;
use lfm_table::operations::Access;
use lfm_words::{Record, Wake};
use std::marker::Model;

/// The duty to wake the thread of a seat to which a call has granted a mutex of a pool. Only the step that stores a grant
/// makes one, and only `wake`, `wake_and_note` and `into_seat` consume it. A contract sees the record that was granted.
///
/// The type has no `Drop` and is not `Copy`: a call that loses a wake-up, or uses it twice, does not compile.
pub struct WakeUp {
    granted: Record,
}

impl Model for WakeUp {
    ghost use Rattle.lfm_words.specs.declared.pop_lists.Record.{Record as RecordNow};

    ghost Value = { RecordNow };

    ghost view = { λ w. w.granted };
}

impl WakeUp {
    /// The record that was granted: the seat and the stamp of its push.
    pub fn record(&self) -> Record
        ensures { result ≡ self.now }
    {
        self.granted
    }

    /// The seat that is to be woken.
    pub fn seat(&self) -> SeatNo
        ensures { result ≡ self.now.seat }
    {
        self.granted.seat
    }

    /// The seat that is to be woken. After this call nothing ensures that the seat is woken. It is for callers that wake threads
    /// in another way.
    pub fn into_seat(self) -> SeatNo
        ensures { result ≡ self.seat }
    {
        let WakeUp { granted } = self;
        granted.seat
    }
}

/// Stores a grant in the wake word of the seat of this record, which is the oldest of the queue. Returns the wake-up that is
/// owed then. It wakes no thread itself. The other popped records have to be in the chain, and the carried word has to name
/// the oldest of them: the seat that is served finds them there.
///
/// The seat has to rest in all other mutexes. Nothing changes in them, nor in what the seat knows of them. It allocates
/// nothing and does not wait.
#[inline(always)]
pub(crate) fn grant(pool: &Pool, seat: &mut TableSeat, mutex: usize, oldest: Record) -> WakeUp
    requires belongs { OfPool seat.old pool.now }
    requires mutex { IsMutex mutex pool.now }
    requires sits { SitsIn seat.old pool.now mutex }
    requires elsewhere { RestsInOthers seat.old mutex }
    requires at { Grants oldest (state_of seat.old mutex) }
    requires whole { note_of seat.old mutex ≡ rested (drop 1 (popped_of seat.old mutex)) }
    ensures belongs { SameSeat seat.old seat.new }
    ensures step { MovesIn seat.old seat.new pool.now mutex (wake_word (Grant oldest.stamp)) }
    ensures owes { result ≡ oldest }
    ensures inside { IsForSeatOf result pool.now }
{
    let target = oldest.seat.get();
    let index = wake_at(pool.mutexes, target);
    let word = lone::wake_at(pool.limits.seats, target);
    let wake = Wake::Grant(oldest.stamp).to_word();
    let access = Access::Store(word, wake);
    next_at(pool, seat, mutex, PoolAccess { index, access });
    WakeUp { granted: oldest }
}

/// Wakes the thread of the seat to which a call of this pool has granted a mutex, if it is parked. It makes one system call
/// and no atomic step, and never waits. That the thread then wakes up is not proved, as the head of `lock` says.
pub fn wake(pool: &Pool, wake_up: WakeUp)
    requires inside { IsForSeatOf wake_up pool.now }
{
    let mut off_trail = OffTrail::new();
    wake_and_note(pool, wake_up, &mut off_trail);
}

/// `wake`, if a call has returned a wake-up.
#[inline(always)]
pub fn wake_granted(pool: &Pool, wake_up: Option<WakeUp>)
    requires inside { WakesSeatOf wake_up pool.now }
{
    match wake_up {
        Some(wake_up) => wake(pool, wake_up),
        None => {}
    }
}

/// `wake`, which also adds the seat to those that the calls of a seat have woken.
pub(crate) fn wake_and_note(pool: &Pool, wake_up: WakeUp, off_trail: &mut OffTrail)
    requires inside { IsForSeatOf wake_up pool.now }
    ensures { off_trail.new ≡ record off_trail.old { woken = off_trail.old.woken ++ wake_up.seat ∷ [] } }
{
    *off_trail = OffTrail::with_wake_up(off_trail, &wake_up);
    let WakeUp { granted } = wake_up;
    let word = wake_at(pool.mutexes, granted.seat.get());
    pool.table.shared.wake_one(word);
}

/// `wake_and_note`, if a call has returned a wake-up.
#[inline(always)]
pub(crate) fn wake_granted_and_note(pool: &Pool, wake_up: Option<WakeUp>, off_trail: &mut OffTrail)
    requires inside { WakesSeatOf wake_up pool.now }
    ensures { off_trail.new ≡ record off_trail.old { woken = off_trail.old.woken ++ seats_to_wake wake_up } }
{
    match wake_up {
        Some(wake_up) => wake_and_note(pool, wake_up, off_trail),
        None => {}
    }
}
