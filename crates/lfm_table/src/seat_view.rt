//! What a seat knows at the table: its view, which occurs in contracts and proofs alone. No code reads it.
use lfm_protocol::points::Point;
use lfm_protocol::{Call, Limits, SeatState};
use lfm_words::Record;
use std::collections::LinkedList;

/// Whether a view belongs to a seat in use, or to one that was joined into seat 1.
pub enum Role {
    User,
    Retired,
}

/// One atomic step, with the number that it found. A store finds nothing: its entry has the number that it stored.
pub struct Seen {
    pub point: Point,
    pub found: u64,
}

/// An action of a table's run. Either it is an event of the core: the seat with this number starts a call or makes its next
/// step. Or it is a load of the owner word by that seat, for `owner`, which is not a step of a call.
pub enum Action {
    Begins(u64, Call),
    Makes(u64),
    LoadsOwner(u64),
}

/// A seat that was joined: the value that it left last, the value that it had found before that, the number of the hold that it
/// then ended, its steps, and the actions of the run up to the last of them.
pub struct Joined<T> {
    pub number: u64,
    pub last: Option<T>,
    pub found: Option<T>,
    pub ended: u64,
    pub trail: LinkedList<Seen>,
    pub actions: LinkedList<Action>,
}

/// What a seat of the table knows. No value of this type is ever made: it is for proofs alone.
pub struct View<T> {
    pub role: Role,
    pub number: u64,
    pub limits: Limits,
    /// The seat's plain data after its last step.
    pub state: SeatState,
    /// Its steps so far.
    pub trail: LinkedList<Seen>,
    /// An early part of the table's run, by all seats. Only other seats have acted after it. Each step of the seat extends it
    /// up to that step. It is empty before the seat's first step.
    pub actions: LinkedList<Action>,
    /// The value that the seat left last; the opening value before that.
    pub last: Option<T>,
    /// The value that the seat found when it acquired the mutex for the hold that it ended last; None before that.
    pub last_found: Option<T>,
    /// The number of the hold that the seat ended last; 0 before that. Holds are numbered 1, 2, 3 and so on over all seats, in
    /// the order in which they end.
    pub ended: u64,
    /// While the seat carries the responsibility: the value that it found, or the value that it is about to leave.
    pub found: Option<T>,
    /// While the seat carries the responsibility: how many holds have ended.
    pub holds_ended: u64,
    /// The pop list after the seat's last step.
    pub popped: LinkedList<Record>,
    /// How many acquisitions by a queued record there had been at the seat's last step.
    pub answered: u64,
    /// The value that the mutex was opened with.
    pub opening: Option<T>,
    /// For seat 1: the number of seats that it has split off.
    pub made: u64,
    /// For seat 1: the seats that it has joined.
    pub joined: LinkedList<Joined<T>>,
}
