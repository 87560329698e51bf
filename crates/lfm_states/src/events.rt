//! The events of a mutex of two seats: the start of a call, or one atomic step.
use lfm_core::{Call, State};
pub use lfm_shown::Event;

/// How many seats the mutex has.
pub const SEATS: u64 = 2;

/// The greatest depth of a hold in the search. Deeper holds have no steps of other kinds.
pub const MOST_DEPTH: u64 = 2;

/// The calls that a seat may start.
pub const CALLS: [Call; 7] = [
    Call::Lock,
    Call::TryLock,
    Call::Unlock,
    Call::StartWait,
    Call::SendLock(1),
    Call::SendLock(2),
    Call::Receive,
];

/// Whether the search leaves this call of a seat out, since it would make its hold deeper than `MOST_DEPTH`.
pub fn is_left_out(state: &State, seat: u64, call: Call) -> bool {
    matches!(call, Call::Lock | Call::TryLock) && state.depth(seat) >= MOST_DEPTH
}
