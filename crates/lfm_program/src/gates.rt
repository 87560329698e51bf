//! Gates. Before each command of a worker, a gate decides whether the worker goes on.

ghost use Rattle.std.specs.Prelude.{◌≡◌, ◌≢◌, ◌⊎◌, ℕ, false, IsTrue};

use crossbeam_utils::CachePadded;
use std::sync::atomic::{AtomicU64, Ordering};

/// Decides before each command of each worker whether it is made. The threads of all workers call it.
pub trait Gate: Sync {
    /// The gate may stop the worker of this number before its command of this number.
    ghost stops: { Self → ℕ → ℕ → Type 0 };

    /// Whether the worker of this number makes its command of this number. Both are counted from 1.
    fn before(&self, worker: u64, command: u64) -> bool
        ensures stops { result ≡ false → stops self.now worker command };
}

/// A gate that lets every worker go on.
#[derive(Clone, Copy, Debug)]
pub struct OpenGate;

impl Gate for OpenGate {
    // It stops no worker.
    ghost stops = { λ _ _ _. ⊥ };

    /// True for each command of each worker.
    fn before(&self, _worker: u64, _command: u64) -> bool
        ensures { IsTrue result }
    {
        true
    }
}

/// The mark of worker 1.
const FIRST: u64 = 1;

/// The mark of worker 2.
const SECOND: u64 = 2;

/// The marks of both.
const BOTH: u64 = 3;

/// The worker that arrived first has given up. Later arrivals may still add their marks.
const GIVEN_UP: u64 = 4;

/// A gate that holds the first commands of workers 1 and 2 until both have arrived.
///
/// It needs no runtime and never sleeps. Each of the two workers reads the marks at most `limit` times to find the other's. A
/// first command of worker 1 or 2 is answered true if both have arrived. It is answered false if its worker saw only its own
/// mark in all these reads and gave up, or if the other had given up before. After one answer of false, no later arrival is
/// answered true, not even if a worker arrives again. All other commands and workers are answered true at once.
#[derive(Drop)]
pub struct Meet {
    arrived: CachePadded<AtomicU64>,
    limit: u64,
}

impl Meet {
    /// A gate at which no worker has arrived yet. With a `limit` of 0 the first worker to arrive gives up at once.
    pub fn new(limit: u64) -> Meet {
        Meet {
            arrived: CachePadded::new(AtomicU64::new(0)),
            limit,
        }
    }

    /// Marks the arrival of one worker and reads the marks, at most `limit` times, to find the other's. Returns whether both
    /// have arrived.
    fn meet(&self, mark: u64) -> bool {
        let arrived: &AtomicU64 = &self.arrived;
        let before = arrived.fetch_or(mark, Ordering::SeqCst);
        if before >= GIVEN_UP {
            return false;
        }
        if (before | mark) == BOTH {
            return true;
        }
        for _ in 0..self.limit {
            if arrived.load(Ordering::SeqCst) == BOTH {
                return true;
            }
        }
        // Another thread of the same mark may have given up meanwhile, so a failed exchange alone doesn't mean that the other
        // worker has arrived.
        match arrived.compare_exchange(mark, GIVEN_UP, Ordering::SeqCst, Ordering::SeqCst) {
            Ok(_) => false,
            Err(seen) => seen == BOTH,
        }
    }
}

impl Gate for Meet {
    // It stops only workers 1 and 2, and only before their first command.
    ghost stops = { λ _ worker command. (command ≡ 1) × (worker ≡ 1 ⊎ (worker ≡ 2)) };

    /// Holds the first commands of workers 1 and 2 until both have arrived, or one has given up.
    fn before(&self, worker: u64, command: u64) -> bool
        // Neither later commands nor other workers are held.
        ensures later { (command ≢ 1) → IsTrue result }
        ensures others { (worker ≢ 1) → (worker ≢ 2) → IsTrue result }
    {
        match (worker, command) {
            (1, 1) => self.meet(FIRST),
            (2, 1) => self.meet(SECOND),
            _ => true,
        }
    }
}
