//! The threads that were parked when their parkers were notified, and that are still to be woken. What is owed to them is a
//! value without `Drop`, `Copy` or `Clone`, whose fields are private to this file: a path that loses it does not compile. Only
//! `wake_thread` and `wake_parked` use it up. That these two call the system was checked by reading.
ghost use Rattle.std.specs.Prelude.{◌≡◌, ◌≤◌};
ghost use Rattle.lfm_plain_condvar.specs.Parkers.{if_parked};
ghost use Rattle.lfm_plain_condvar.specs.Parked.{IsOwedTo, Widens, owed_after};

use super::{NOTIFIED, PARKED, Parkers};

/// The duty to wake the thread of a parker that was notified while that thread was parked, or about to park.
pub(crate) struct ParkedThread {
    number: u64,
}

/// What the swap that notified a parker found of its thread.
pub(crate) enum Notified {
    /// It was not parked, and goes on by itself.
    GoesOn,
    /// It was parked, or about to park, and has to be woken.
    Parked(ParkedThread),
}

impl Notified {
    /// What is owed to the thread of this parker, whose word the swap found to be `found`.
    pub(super) fn after(number: u64, found: u64) -> Notified
        ensures owed { owed_after result ≡ if_parked number found }
        ensures number { IsOwedTo number result }
    {
        if found == PARKED {
            Notified::Parked(ParkedThread { number })
        } else {
            Notified::GoesOn
        }
    }
}

/// The duty to wake those threads that were parked when their parkers were notified, as a range of numbers that has them all.
/// If there is none, `first` is above `last`.
pub(crate) struct ParkedRange {
    first: u64,
    last: u64,
}

impl ParkedRange {
    /// No thread is to be woken.
    pub(crate) fn none() -> ParkedRange {
        ParkedRange {
            first: u64::MAX,
            last: 0,
        }
    }

    /// Adds a thread.
    pub(super) fn add(&mut self, thread: ParkedThread)
        ensures wider { Widens self.old self.new }
        ensures inside { (self.new.first ≤ thread.number) × (thread.number ≤ self.new.last) }
    {
        let ParkedThread { number } = thread;
        self.first = self.first.min(number);
        self.last = self.last.max(number);
    }
}

impl Parkers {
    /// Wakes this thread by one system call.
    pub(super) fn wake_thread(&self, thread: ParkedThread)
        requires { thread.number ≤ self.now.seats }
    {
        let ParkedThread { number } = thread;
        self.table.shared.wake_one(number as usize);
    }

    /// Wakes the threads of these parkers that were notified and have not gone on since. It may wake a thread that another
    /// seat has notified, which only goes on earlier. It makes a load for each number of the range, and a system call for
    /// each thread.
    pub(crate) fn wake_parked(&self, parked: ParkedRange) {
        let ParkedRange { first, last } = parked;
        for number in first..=last.min(self.seats) {
            if self.table.shared.peek(number as usize) >= NOTIFIED {
                self.table.shared.wake_one(number as usize);
            }
        }
    }
}
