//! `{:?}` of a state, for debugging.

use crate::stepped::State;
use std::fmt::{Debug, Formatter, Result, Write};

impl Debug for State {
    /// Shows what belongs to no single seat. What each seat has can be read with the readers.
    fn fmt<W: Write>(&self, f: &mut Formatter<W>) -> Result {
        f.debug_struct("State")
            .field("seats", &self.seats())
            .field("count", &self.count())
            .field("owner", &self.owner())
            .field("handoff", &self.handoff())
            .field("place", &self.place())
            .field("queue_len", &self.queue_len())
            .finish_non_exhaustive()
    }
}
