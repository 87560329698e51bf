//! `{:?}` of a mutex and of a seat, for debugging. Nothing here accesses a word of the mutex.

use crate::mutex::Mutex;
use crate::seat::Seat;
use lfm_protocol::points::Point;
use lfm_table::Kept;
use std::fmt;
use std::fmt::{Debug, Formatter, Write};

/// How many seats the mutex has, and how many takes each may make: `Mutex { seats: 4, budget: 1000, .. }`.
impl<T: Kept> Debug for Mutex<T> {
    fn fmt<W: Write>(&self, f: &mut Formatter<W>) -> fmt::Result {
        f.debug_struct("Mutex")
            .field("seats", &self.limits.seats)
            .field("budget", &self.limits.budget)
            .finish_non_exhaustive()
    }
}

/// The seat's number, how often it holds, and whether it sleeps: `Seat { number: 3, depth: 0, asleep: true }`.
impl<T: Drop> Debug for Seat<T> {
    fn fmt<W: Write>(&self, f: &mut Formatter<W>) -> fmt::Result {
        let asleep = !matches!(self.state.point, Point::Rest);
        f.debug_struct("Seat")
            .field("number", &self.table_seat.number)
            .field("depth", &self.state.depth)
            .field("asleep", &asleep)
            .finish()
    }
}
