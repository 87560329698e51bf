//! `{:?}` of a monitor and of its passes, for debugging.

use crate::monitor::Monitor;
use crate::pass::Pass;
use lfm_model::Object;
use std::fmt::{Debug, Formatter, Result, Write};

/// Shows how many entries each pass may write, and how many conditions of each kind there are. The object belongs to the pass that holds it,
/// so it isn't shown.
impl<O: Object> Debug for Monitor<O> {
    /// Writes the share of each pass and the numbers of conditions.
    fn fmt<W: Write>(&self, f: &mut Formatter<W>) -> Result {
        f.debug_struct("Monitor")
            .field("share", &self.share)
            .field("conditions", &self.conditions.len())
            .field("plain_conditions", &self.plain_conditions.len())
            .finish_non_exhaustive()
    }
}

/// Shows the pass's seat, and what the pass knows of the journal. The object that it may hold isn't shown.
impl<O: Object> Debug for Pass<O> {
    /// Writes the seat and the two counts of entries.
    fn fmt<W: Write>(&self, f: &mut Formatter<W>) -> Result {
        f.debug_struct("Pass")
            .field("seat", &self.seat)
            .field("seen_len", &self.seen)
            .field("mine", &self.mine)
            .finish_non_exhaustive()
    }
}
