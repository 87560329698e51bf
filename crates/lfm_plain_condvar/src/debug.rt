//! `{:?}` of a plain condvar and of its seats, for debugging.

use crate::condvar::PlainCondvar;
use crate::plain_seat::PlainSeat;
use std::fmt::{Debug, Formatter, Result, Write};

/// Shows how many seats it has. Its list belongs to the seat that holds it, so it isn't shown.
impl Debug for PlainCondvar {
    /// Writes the number of seats.
    fn fmt<W: Write>(&self, f: &mut Formatter<W>) -> Result {
        f.debug_struct("PlainCondvar")
            .field("seats", &self.parkers.seats)
            .finish_non_exhaustive()
    }
}

/// Shows its number, and how many waits and wakes it may still make.
impl Debug for PlainSeat {
    /// Writes the number and the takes that are left.
    fn fmt<W: Write>(&self, f: &mut Formatter<W>) -> Result {
        f.debug_struct("PlainSeat")
            .field("number", &self.seat.number().get())
            .field("left", &self.seat.left())
            .finish_non_exhaustive()
    }
}
