//! A gate that starts threads together and stops them.

use std::sync::atomic::{AtomicBool, AtomicU64, Ordering};
use std::thread;
use std::thread::yield_now;
use std::time::{Clock, Duration};

/// How often a thread checks whether the others have arrived, before it goes on without them.
const POLLS: u64 = 100_000;

/// How often the thread that shuts the gate checks whether all have passed, before it goes on without them.
const GLANCES: u64 = 1_000;

/// How long it sleeps between two of these checks, in microseconds.
const GLANCE: u64 = 50;

/// A gate that a number of threads pass together, and that is shut once. No thread waits at it forever.
#[derive(Drop)]
pub struct Gate {
    expected: u64,
    ready: AtomicU64,
    shut: AtomicBool,
}

impl Gate {
    /// A gate for this number of threads.
    pub fn new(expected: u64) -> Gate {
        Gate {
            expected,
            ready: AtomicU64::new(0),
            shut: AtomicBool::new(false),
        }
    }

    /// Waits until all threads have arrived, but checks this at most `POLLS` times.
    pub fn pass(&self) {
        self.ready.fetch_add(1, Ordering::SeqCst);
        for _ in 0..POLLS {
            if self.is_passed() {
                return;
            }
            yield_now();
        }
    }

    /// Whether the gate was shut.
    #[inline(always)]
    pub fn is_shut(&self) -> bool {
        self.shut.load(Ordering::SeqCst)
    }

    /// Shuts the gate, this long after all threads have passed it.
    pub fn shut_after<R: Clock>(&self, rt: &R, window: Duration) {
        for _ in 0..GLANCES {
            if self.is_passed() {
                break;
            }
            thread::sleep(rt, Duration::from_micros(GLANCE));
        }
        thread::sleep(rt, window);
        self.shut.store(true, Ordering::SeqCst);
    }

    /// Whether all threads have passed the gate.
    fn is_passed(&self) -> bool {
        self.ready.load(Ordering::SeqCst) >= self.expected
    }
}
