//! What a run does: its load, how its threads lock, how many threads there are, and how many turns each makes. The turns of
//! `buffer` are the items that go through it.
ghost use Rattle.std.specs.Prelude.{◌≡◌, ◌≤◌, IfOk, IfErr, None, Some};
ghost use Rattle.lfm_stress.specs.Ranges.{most_threads, least_threads, most_turns, refusal_of, seats_of};

use lfm_test_tools::locking::Locking;

/// The fewest threads of a load that takes any number of them.
pub const LEAST_THREADS: u64 = 1;

/// The most threads of such a load. One seat of the mutex is left for the thread that wakes.
pub const MOST_THREADS: u64 = 4_094;

/// The threads of `ping_pong`.
const PLAYERS: u64 = 2;

/// The threads of `buffer`: two that put items in, and two that take them out.
const MOVERS: u64 = 4;

/// The most turns of a thread.
pub const MOST_TURNS: u64 = 1_000_000_000;

/// How many threads of `limits` wake the others. THREADS does not count them.
pub const WAKERS: u64 = 2;

/// The most threads of `limits` that wait. The other seats of a mutex are for those that wake.
const MOST_WAITERS: u64 = 4_093;

/// The most items that go through the buffer. The journal of a monitor has room for a tenth of them.
pub const MOST_ITEMS: u64 = 800_000;

/// What the threads do.
#[derive(Clone, Copy, Debug, PartialEq, Eq)]
pub enum Load {
    /// Each thread locks, adds 1 and unlocks.
    Lock,
    /// Each thread tries and locks by turns. A try that finds the mutex held adds nothing.
    Mixed,
    /// Two threads take turns. Each waits for the other's turn on a condvar.
    PingPong,
    /// Threads wait on a condvar, and one further thread wakes all of them at once.
    Broadcast,
    /// Two threads put items into a bounded buffer, which a monitor guards, and two take them out.
    Buffer,
    /// Threads wait on a plain condvar with time limits, and two further threads wake one of them at a time.
    Limits,
}

impl Load {
    /// The load of this name. None if no load has it.
    pub fn named(name: &str) -> Option<Load> {
        match name {
            "lock" => Some(Load::Lock),
            "mixed" => Some(Load::Mixed),
            "ping_pong" => Some(Load::PingPong),
            "broadcast" => Some(Load::Broadcast),
            "buffer" => Some(Load::Buffer),
            "limits" => Some(Load::Limits),
            _ => None,
        }
    }

    /// The name.
    pub fn name(self) -> &'static str {
        match self {
            Load::Lock => "lock",
            Load::Mixed => "mixed",
            Load::PingPong => "ping_pong",
            Load::Broadcast => "broadcast",
            Load::Buffer => "buffer",
            Load::Limits => "limits",
        }
    }

    /// The fewest threads that may take part.
    pub fn least_threads(self) -> u64
        ensures { result ≡ least_threads self }
    {
        match self {
            Load::PingPong => PLAYERS,
            Load::Buffer => MOVERS,
            Load::Lock | Load::Mixed | Load::Broadcast | Load::Limits => LEAST_THREADS,
        }
    }

    /// The most threads that may take part.
    pub fn most_threads(self) -> u64
        ensures { result ≡ most_threads self }
    {
        match self {
            Load::PingPong => PLAYERS,
            Load::Buffer => MOVERS,
            Load::Lock | Load::Mixed | Load::Broadcast => MOST_THREADS,
            Load::Limits => MOST_WAITERS,
        }
    }

    /// The most turns that a thread may take.
    pub fn most_turns(self) -> u64
        ensures { result ≡ most_turns self }
    {
        match self {
            Load::Lock | Load::Mixed | Load::PingPong | Load::Broadcast | Load::Limits => {
                MOST_TURNS
            }
            Load::Buffer => MOST_ITEMS,
        }
    }
}

/// Why a plan is refused.
#[derive(Clone, Copy, Debug, PartialEq, Eq)]
pub enum OutOfRange {
    /// There are too few or too many threads for the load.
    Threads,
    /// There is no turn, or there are too many for the load.
    Turns,
}

/// Why this load can't be run with this number of threads and this number of turns for each. The threads are checked first.
/// None if it can be run.
pub fn refusal_of(load: Load, threads: u64, turns: u64) -> Option<OutOfRange>
    ensures { result ≡ refusal_of load threads turns }
{
    if threads < load.least_threads() || threads > load.most_threads() {
        return Some(OutOfRange::Threads);
    }
    if turns < 1 || turns > load.most_turns() {
        return Some(OutOfRange::Turns);
    }
    None
}

/// What a run does. Its numbers are in the ranges of its load.
#[derive(Clone, Copy)]
pub struct Plan {
    load: Load,
    locking: Locking,
    threads: u64,
    turns: u64,
    ghost threads_fit: { threads ≤ 4094 },
    ghost turns_fit: { turns ≤ 1000000000 },
}

impl Plan {
    /// The plan of this load and this locking, with this number of threads and of turns for each. It is refused if one of the
    /// numbers is out of range. The threads are checked first.
    pub fn new(load: Load, locking: Locking, threads: u64, turns: u64) -> Result<Plan, OutOfRange>
        ensures allowed { IfOk result (λ p. (p.load ≡ load) × (p.locking ≡ locking) × (p.threads ≡ threads) × (p.turns ≡ turns)
            × (refusal_of load threads turns ≡ None)) }
        ensures refused { IfErr result (λ e. refusal_of load threads turns ≡ Some e) }
    {
        match refusal_of(load, threads, turns) {
            Some(refusal) => Err(refusal),
            None => Ok(Plan {
                load,
                locking,
                threads,
                turns,
            }),
        }
    }

    /// What the threads do.
    pub fn load(self) -> Load
        ensures { result ≡ self.load }
    {
        self.load
    }

    /// How the threads acquire the mutex or the monitor.
    pub fn locking(self) -> Locking
        ensures { result ≡ self.locking }
    {
        self.locking
    }

    /// How many threads take part.
    pub fn threads(self) -> u64
        ensures value { result ≡ self.threads }
        ensures few { result ≤ 4094 }
    {
        self.threads
    }

    /// How many seats the mutex and its condvars must have: one for each thread, and more for the threads that wake the others,
    /// of which `broadcast` has one and `limits` two.
    pub fn seats(self) -> u64
        ensures { result ≡ seats_of self.load self.threads }
    {
        match self.load {
            Load::Broadcast => self.threads() + 1,
            Load::Limits => self.threads() + WAKERS,
            Load::Lock | Load::Mixed | Load::PingPong | Load::Buffer => self.threads(),
        }
    }

    /// How many turns each of them takes, or how many items go through the buffer.
    pub fn turns(self) -> u64
        ensures value { result ≡ self.turns }
        ensures few { result ≤ 1000000000 }
    {
        self.turns
    }
}
