//! The pass: a thread's handle of the monitor. It contains a seat of the mutex, so the mutex can be closed with passes.
ghost use Rattle.std.specs.Prelude.{◌≡◌, ◌<◌, ◌≤◌, ◌↔◌, IsTrue, Some, false, length};
ghost use Rattle.lfm_mutex.specs.calls.Sight.{sight};
ghost use Rattle.lfm_monitor.specs.Passes.{PassKept};

use crate::journaled::Journaled;
use lfm_condvar::CondSeat;
use lfm_model::{Object, SeatNo};
use lfm_mutex::{Holder, Seat};
use lfm_plain_condvar::PlainSeat;

/// A thread's handle of a monitor. A pass may move between threads, and each call borrows it until the call returns. If it is
/// dropped while it holds, no other pass can ever acquire the monitor again. If it is dropped while it sleeps, this is so after
/// the monitor is granted to it.
///
/// ```
/// // the pass holds a monitor around a bounded buffer: it puts a number in as soon as there is room, and wakes one that waits
/// // for it
/// monitor.apply_until(rt, pass, NOT_FULL, BufferOp::Put(7), |reply| *reply != BufferReply::Full)?;
/// monitor.wake_one(rt, pass, NOT_EMPTY)?;
/// ```
#[derive(Drop)]
pub struct Pass<O: Object> {
    pub(crate) seat: Seat<Journaled<O>>,
    pub(crate) seen: u64,
    pub(crate) mine: u64,
    pub(crate) cond_seats: Vec<CondSeat>,
    pub(crate) plain_seats: Vec<PlainSeat>,
    pub ghost kept: { PassKept (sight seat) seen mine },
}

impl<O: Object> Holder<Journaled<O>> for Pass<O> {
    ghost seat_of = { λ p. p.seat };

    /// The seat of the mutex.
    fn seat(&self) -> &Seat<Journaled<O>> {
        &self.seat
    }

    /// The seat of the mutex. What the pass knows of the journal, and its seats of conditions, are dropped.
    fn into_seat(self) -> Seat<Journaled<O>> {
        let Pass {
            seat,
            seen: _,
            mine: _,
            cond_seats: _,
            plain_seats: _,
        } = self;
        seat
    }
}

/// What can be read from a pass. None of these calls accesses a word of the mutex, allocates memory or waits.
impl<O: Object> Pass<O> {
    /// The pass's number: 1 to 4,095.
    pub fn number(&self) -> SeatNo
        ensures { result ≡ (sight self.now.seat).number }
    {
        self.seat.number()
    }

    /// How many times the pass holds the monitor: 0 to 65,535.
    pub fn depth(&self) -> u32
        ensures { result ≡ (sight self.now.seat).depth }
    {
        self.seat.depth()
    }

    /// How long the journal was when the pass last left; 0 before it left for the first time.
    pub fn seen_len(&self) -> u64
        ensures { result ≡ self.now.seen }
    {
        self.seen
    }

    /// How many entries of the journal are its own.
    pub fn mine(&self) -> u64
        ensures { result ≡ self.now.mine }
    {
        self.mine
    }

    /// The length of the journal that the pass holds.
    pub(crate) fn journal_len(&self) -> u64
        ensures { (v : _) → (sight self.now.seat).value ≡ Some v → result ≡ length v.journal.items }
    {
        match self.seat.value() {
            Some(journaled) => journaled.journal.len() as u64,
            None => 0,
        }
    }

    /// Whether a call that would acquire the monitor finds no entry left for its take.
    pub(crate) fn lacks_entry(&self, share: u64) -> bool
        ensures { IsTrue result ↔ (((sight self.now.seat).asleep ≡ false) × ((sight self.now.seat).depth ≡ 0) × (share ≤ self.now.mine)) }
    {
        !self.seat.asleep() && self.seat.depth() == 0 && self.mine >= share
    }
}
