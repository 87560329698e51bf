//! `{:?}` of a condvar and of its seats, for debugging.

use crate::cond_seat::CondSeat;
use crate::condvar::Condvar;
use lfm_mutex::Holder;
use std::fmt::{Debug, Formatter, Result, Write};

/// Shows how many seats it has. Its list belongs to the seat that holds it, so it isn't shown.
impl Debug for Condvar {
    /// Writes the number of seats.
    fn fmt<W: Write>(&self, f: &mut Formatter<W>) -> Result {
        f.debug_struct("Condvar")
            .field("seats", &self.seats)
            .finish_non_exhaustive()
    }
}

/// Shows its number, and how many waits and wakes it may still make.
impl Debug for CondSeat {
    /// Writes the number and the takes that are left.
    fn fmt<W: Write>(&self, f: &mut Formatter<W>) -> Result {
        f.debug_struct("CondSeat")
            .field("number", &self.seat().number().get())
            .field("left", &self.seat().left())
            .finish_non_exhaustive()
    }
}
