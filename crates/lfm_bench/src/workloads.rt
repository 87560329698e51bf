//! The workloads. Each file has one, and measures the peers that have its calls.
pub mod alone;
pub mod broadcast;
pub mod contended;
pub mod handoffs;
pub mod hits;
pub mod many;
pub mod misses;
pub mod pairs;
pub mod ping_pong;
pub mod polls;
pub mod pool_calls;
pub mod pool_turns;
pub mod queue;
pub mod recursive;
pub mod route;

use crate::measure::Watching;
use crate::peers::participants::Waking;
use crate::workloads::route::Order;

/// What is measured.
#[derive(Clone, Copy)]
pub enum Workload {
    /// The calls of one thread.
    Alone(Calls),
    /// This number of threads take turns.
    Contended {
        threads: u64,
        work: Work,
        watching: Watching,
    },
    /// Two threads wake each other.
    PingPong(Waking),
    /// A thread wakes this number of others, all at once.
    Broadcast(u64),
    /// This number of threads put numbers into a bounded queue, and as many take them out.
    Queue {
        threads: u64,
        waking: Waking,
    },
    /// The calls of threads at mutexes of a pool.
    Pool(PoolWork),
}

/// What threads do at mutexes of a pool.
#[derive(Clone, Copy)]
pub enum PoolWork {
    /// One thread locks and unlocks this number of mutexes, one after another in this order.
    Pairs { mutexes: usize, order: Order },
    /// One thread locks and unlocks a mutex while it already holds it.
    Recursive,
    /// One thread tries to acquire a mutex that is held, and fails.
    Misses,
    /// This number of threads take turns at one mutex.
    Contended { threads: u64, work: Work },
}

/// The work of threads that take turns.
#[derive(Clone, Copy)]
pub struct Work {
    pub name: &'static str,
    /// How long a thread works while it holds the mutex, in nanoseconds.
    pub inside: u64,
    /// How long it works between two holds, in nanoseconds.
    pub outside: u64,
}

/// The calls of one thread.
#[derive(Clone, Copy)]
pub enum Calls {
    /// It locks and unlocks.
    Pairs,
    /// It locks by `lock_barging`, and unlocks.
    BargingPairs,
    /// It adds 1 by `with`.
    Additions,
    /// It locks and unlocks while it already holds.
    Recursive,
    /// It acquires the mutex by try_lock, and unlocks.
    Hits,
    /// It tries to acquire a mutex that is held, and fails.
    Misses,
    /// It passes the mutex from one seat to another.
    Handoffs,
    /// A sleeping seat loads its wake word to see whether it was granted the mutex.
    Polls,
}
