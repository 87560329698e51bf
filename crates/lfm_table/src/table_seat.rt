//! A seat as its steps use it. The seat's state is a separate argument of a step: a fast path builds a state for each step and
//! rarely stores it.
use crate::moving_box::MovingBox;
use crate::shared_table::AtomicSeat;
use lfm_protocol::Limits;

/// What a seat needs for each of its steps. Steps move the value. The number and the limits never change.
#[derive(Drop)]
pub struct TableSeat<T: Drop> {
    /// Its place at the words and the slot, for proofs. It has no bytes.
    pub place: AtomicSeat<T>,
    /// The pop list and the guarded value. Between two steps this is `Some` exactly if the seat carries the responsibility.
    pub moving: Option<MovingBox<T>>,
    /// Its number: 1 to 4,095.
    pub number: u64,
    /// The limits of its mutex.
    pub limits: Limits,
}
