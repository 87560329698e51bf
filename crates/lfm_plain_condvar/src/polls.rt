//! Whether a seat that waits polls before its thread parks, and what it does if its waker still holds when it locks again.
//! Between two threads that take turns a wake comes early, and a poll costs less than a sleep and a wake-up. But on busy
//! processors polls keep the other thread from its work, and a yield costs a time slice. So a seat polls while it has credit, and
//! otherwise at one of 32 waits, as a trial. After a success the fifth failed round of polls in a row ends the credit, and for a
//! new seat the fourth. Behind its waker, a seat whose last round succeeded barges, another seat with credit yields, and one
//! without credit queues.
ghost use Rattle.std.specs.Prelude.{◌≡◌, ◌/◌, MatchBool, if◌then◌else◌};
ghost use Rattle.lfm_plain_condvar.specs.Polls.{ChoosesBehindWaker, MayPoll, with_wait};

/// The credit of a seat that was notified in its last round of polls. Each round without that halves it.
const FULL: u32 = 16;

/// The credit of a new seat, which may poll and yield.
const NEW_SEAT: u32 = 8;

/// A seat without credit polls at one of this many waits.
const WAITS_PER_TRIAL: u32 = 32;

/// What a seat that was woken alone does if the mutex counts one seat. Mostly that is its waker, which still holds.
#[derive(Clone, Copy)]
pub enum BehindWaker {
    /// It calls `lock_barging`: the waker runs on another processor and soon unlocks, other seats waited ahead, or no thread
    /// woke the seat.
    Barges,
    /// It yields once before that: the waker may be ready on this processor.
    Yields,
    /// It tries once, and then queues: no recent poll found a wake-up, so the waker may be on this processor, or all processors
    /// are busy. A queued seat is woken at the unlock, mostly sooner than a nap ends, and costs no time slice.
    Queues,
}

/// Whether the next waits of a seat may poll, and what it does behind its waker.
#[derive(Clone, Copy)]
pub struct PollCredit {
    credit: u32,
    /// How many waits have asked whether they may poll, modulo 2^32.
    waits: u32,
}

impl PollCredit {
    /// The credit of a new seat.
    pub(crate) const NEW: PollCredit = PollCredit {
        credit: NEW_SEAT,
        waits: 0,
    };

    /// Whether the seat polls at this wait: if it has credit, or as a trial. It counts the wait.
    pub(crate) fn allows(&mut self) -> bool
        ensures counts { self.new ≡ with_wait self.old }
        ensures allows { MatchBool result (MayPoll self.new) (MayPoll self.new → ⊥) }
    {
        self.waits = self.waits.wrapping_add(1);
        self.credit > 0 || self.waits % WAITS_PER_TRIAL == 0
    }

    /// What the seat does behind its waker, after a wait that began behind this number of waiters. It barges if there was a
    /// waiter, or if its last round of polls found that it was notified: then the waker runs on another processor. A seat that
    /// never polls keeps the credit of a new one.
    pub(crate) fn behind_waker(&self, ahead: usize) -> BehindWaker
        ensures { ChoosesBehindWaker ahead self.now.credit result }
    {
        if ahead > 0 || self.credit >= FULL {
            return BehindWaker::Barges;
        }
        if self.credit > 0 {
            BehindWaker::Yields
        } else {
            BehindWaker::Queues
        }
    }

    /// Takes note of whether the seat was notified while it polled.
    pub(crate) fn tell(&mut self, notified: bool)
        ensures { self.new ≡ record self.old { credit = (if notified then 16 else self.old.credit / 2) } }
    {
        self.credit = if notified { FULL } else { self.credit / 2 };
    }
}
