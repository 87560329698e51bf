//! The calls that a seat may start, and what a turn returns: the call is open, has ended with an answer, or was refused.
ghost use Rattle.std.specs.Prelude.{◌≡◌};
ghost use Rattle.lfm_protocol.specs.declared.answers.Turn.TheVariants.{Refused};
ghost use Rattle.lfm_protocol.specs.declared.answers.Why.TheVariants.{By};
ghost use Rattle.lfm_protocol.specs.Turns.{is_open, is_refused};

use lfm_model::{Asked, How, Locked, Refusal, Unlocked};

/// A call that a seat may start. No call makes its thread sleep: if the seat must wait, the call ends with the seat asleep.
#[derive(Clone, Copy, Debug, PartialEq, Eq)]
pub enum Call {
    /// Acquires the mutex or adds a hold; if neither is possible, queues the seat and puts it to sleep.
    Lock,
    /// Acquires the mutex or adds a hold; if neither is possible, is refused as Busy.
    TryLock,
    /// Gives up one hold. At depth 1 this releases the mutex, and may grant it to the next seat.
    Unlock,
    /// Releases the mutex at depth 1 and puts the seat to sleep until a `SendLock` names it.
    StartWait,
    /// Queues the seat with this number, which `StartWait` has put to sleep; or grants it the mutex if the mutex is free.
    SendLock(u64),
    /// Loads the sleeping seat's wake word once. If it finds a grant, the seat wakes up and holds the mutex.
    Receive,
}

/// What a call that was not refused returns at its end.
#[derive(Clone, Copy, Debug, PartialEq, Eq)]
pub enum Answer {
    /// For `Lock`.
    Asked(Asked),
    /// For `TryLock`.
    Locked(Locked),
    /// For `Unlock`.
    Unlocked(Unlocked),
    /// For `StartWait`: the seat sleeps. The payload is the answer that an `Unlock` would have had.
    Waiting(Unlocked),
    /// For `Receive`: how the seat acquired the mutex, which it holds at depth 1. None if it found no grant; the seat then
    /// stays asleep.
    Got(Option<How>),
    /// For `SendLock`: the target has been granted the mutex, or its record is queued.
    Sent,
}

/// Why a turn is refused. The causes are tested in the order of this list, and the first that applies is returned.
#[derive(Clone, Copy, Debug, PartialEq, Eq)]
pub enum Why {
    /// No seat of the mutex has the number of the turn.
    NoSuchSeat,
    /// The seat cannot start a call, since an earlier one is still open.
    InCall,
    /// The seat cannot make a step, since no call of it is open or the step is not the one at its point.
    Idle,
    /// The call itself is refused, for this cause.
    By(Refusal),
}

/// What a turn returns: a turn starts a call or makes one atomic step.
#[derive(Clone, Copy, Debug, PartialEq, Eq)]
pub enum Turn {
    /// The call is open: the seat has a step to make.
    Open,
    /// The call has ended with this answer.
    Ended(Answer),
    /// The call or the step was refused for this cause.
    Refused(Why),
}

impl Turn {
    /// The turn of a call that is refused for this cause.
    pub fn refused(refusal: Refusal) -> Turn
        ensures { result ≡ Refused (By refusal) }
    {
        Turn::Refused(Why::By(refusal))
    }

    /// Whether the call is open after the turn.
    pub fn is_open(&self) -> bool
        ensures { result ≡ is_open self.now }
    {
        matches!(self, Turn::Open)
    }

    /// Whether the turn was refused.
    pub fn is_refused(&self) -> bool
        ensures { result ≡ is_refused self.now }
    {
        matches!(self, Turn::Refused(_))
    }
}
