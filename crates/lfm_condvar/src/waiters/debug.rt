//! `{:?}` of the list of those that wait, for debugging.

use crate::waiters::Waiters;
use std::fmt::{Debug, Formatter, Result, Write};

/// Shows those that wait, the oldest first, and how many tickets were sent and added.
impl Debug for Waiters {
    /// Writes the list and the two counts of tickets.
    fn fmt<W: Write>(&self, f: &mut Formatter<W>) -> Result {
        f.debug_struct("Waiters")
            .field("list", &self.list)
            .field("sent", &self.sent)
            .field("added", &self.added)
            .finish_non_exhaustive()
    }
}
