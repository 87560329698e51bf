//! A mutex with two condvars on it, and the parts of the threads that use them.
use crate::locking::Locking;
use lfm_condvar::{CondSeat, Condvar};
use lfm_mutex::{Mutex, Seat};

/// One of the two condvars.
#[derive(Clone, Copy, PartialEq, Eq)]
pub enum Side {
    First,
    Second,
}

impl Side {
    /// The first for even numbers, and the second for odd ones.
    pub fn of(number: u64) -> Side {
        if number % 2 == 0 {
            Side::First
        } else {
            Side::Second
        }
    }

    /// The other one.
    pub fn other(self) -> Side {
        match self {
            Side::First => Side::Second,
            Side::Second => Side::First,
        }
    }
}

/// A mutex that guards a number, how it is locked, and two condvars on it.
#[derive(Drop)]
pub struct Shared {
    pub locking: Locking,
    pub mutex: Mutex<u64>,
    pub first: Condvar,
    pub second: Condvar,
}

/// One thread's seats, and what it did and saw.
#[derive(Drop)]
pub struct Part {
    pub seat: Seat<u64>,
    pub first: CondSeat,
    pub second: CondSeat,
    pub seen: Seen,
}

impl Part {
    /// The number in hand, or 0 if the seat doesn't hold.
    pub fn number(&self) -> u64 {
        self.seat.value().copied().unwrap_or(0)
    }
}

/// What a thread did and saw. A test or a load uses what it needs of it.
#[derive(Clone, Copy)]
pub struct Seen {
    /// How many additions it made by `add_one` of `Shared`.
    pub made: u64,
    /// How often it waited by `wait` of `Shared`.
    pub waits: u64,
    /// The ticket of the latest of these waits. 0 if there was none.
    pub ticket: u64,
    /// How many threads it woke by `wake_all` of `Shared`.
    pub woken: u64,
    /// How many of its turns came when they were due.
    pub turns: u64,
    /// The number that it left or found.
    pub number: u64,
    /// How many its first `wake_all` woke, and how many its second.
    pub wakes: Option<(u64, u64)>,
}

/// What a thread that did nothing has seen.
pub const NOTHING: Seen = Seen {
    made: 0,
    waits: 0,
    ticket: 0,
    woken: 0,
    turns: 0,
    number: 0,
    wakes: None,
};

/// The sums of what threads did.
#[derive(Clone, Copy)]
pub struct Counts {
    pub made: u64,
    pub waits: u64,
    pub woken: u64,
    pub turns: u64,
}

impl Counts {
    /// The sums over these parts.
    pub fn of(parts: &[Part]) -> Counts {
        let mut counts = Counts {
            made: 0,
            waits: 0,
            woken: 0,
            turns: 0,
        };
        for part in parts {
            let seen = part.seen;
            counts.made = counts.made.wrapping_add(seen.made);
            counts.waits = counts.waits.wrapping_add(seen.waits);
            counts.woken = counts.woken.wrapping_add(seen.woken);
            counts.turns = counts.turns.wrapping_add(seen.turns);
        }
        counts
    }
}
