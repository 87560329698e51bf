//! The line at which workers wait until all of them have been started.
//!
//! It uses std's `Mutex` and `Condvar`, which `lfm work` has to use here. `StartLatch` of `lfm_threads` does the same for
//! `share`, and it is also proved there that all threads find the same decision.

use std::sync::{Condvar, Mutex, Wait};

/// Whether the workers at a starting line may go.
#[derive(Clone, Copy, Debug, PartialEq, Eq)]
enum Start {
    /// Not yet.
    Closed,
    /// All have been started.
    Go,
    /// One could not be started: the others have nothing to do.
    CalledOff,
}

/// A starting line. It is closed until it lets all workers start or is called off. It allocates no memory.
#[derive(Drop)]
pub struct StartingLine {
    start: Mutex<Start>,
    changed: Condvar,
}

impl StartingLine {
    /// A line that is closed.
    pub fn new() -> StartingLine {
        StartingLine {
            start: Mutex::new(Start::Closed),
            changed: Condvar::new(),
        }
    }

    /// Sleeps while the line is closed. Returns whether there is something to do: false if the start was called off.
    pub fn wait<R: Wait>(&self, rt: &R) -> bool {
        let start = self
            .changed
            .wait_while(rt, self.start.lock(rt), |start| *start == Start::Closed);
        *start == Start::Go
    }

    /// Lets all workers start: those that sleep here, which it wakes, and those that call `wait` later.
    pub fn let_go<R: Wait>(&self, rt: &R) {
        self.open(rt, Start::Go);
    }

    /// Calls the start off: those that sleep here, or call `wait` later, have nothing to do. It wakes those that sleep here.
    pub fn call_off<R: Wait>(&self, rt: &R) {
        self.open(rt, Start::CalledOff);
    }

    /// Opens the line with this outcome, and wakes all that sleep here.
    fn open<R: Wait>(&self, rt: &R, start: Start) {
        *self.start.lock(rt) = start;
        self.changed.notify_all();
    }
}
