//! A seat of a pool: a thread's handle of all its mutexes. What it has in memory of its own is its number, how many posts and
//! takes it has made in all mutexes, and in which mutex it sleeps. What it holds is in the words of the mutexes.
ghost use Rattle.std.specs.Prelude.{◌≡◌, Option, None};

use crate::pool::TableSeat;
use crate::wake_up::off_trail::OffTrail;

/// A seat of a pool. It may hold any number of mutexes at once, each up to 65,535 times, and sleeps in at most one. The calls
/// are in `calls`, `lock` and `reading`.
#[derive(Drop)]
pub struct PoolSeat {
    pub(crate) table_seat: TableSeat,

    /// How many takes it has made in all mutexes: one by each call that acquired a mutex which it did not hold, or that queued.
    pub(crate) takes: u64,

    /// The mutex in which it sleeps.
    pub(crate) asleep_in: Option<usize>,

    /// The seats that its calls have woken. No code reads it.
    pub(crate) off_trail: OffTrail,
}

impl PoolSeat {
    /// A seat that has made no call.
    pub(crate) fn new(table_seat: TableSeat) -> PoolSeat
        ensures { (result.table_seat ≡ table_seat) × (result.takes ≡ 0) × (result.asleep_in ≡ None) }
    {
        PoolSeat {
            table_seat,
            takes: 0,
            asleep_in: None,
            off_trail: OffTrail::new(),
        }
    }

    /// Its number: the first seat of a pool has 1.
    pub fn number(&self) -> u64
        ensures { result ≡ self.now.table_seat.number }
    {
        self.table_seat.number
    }

    /// How many takes it has made in all mutexes.
    pub fn takes(&self) -> u64
        ensures { result ≡ self.now.takes }
    {
        self.takes
    }

    /// The mutex in which it sleeps: of the calls in `calls` and `lock`, only a receive of that mutex is not refused then.
    pub fn asleep_in(&self) -> Option<usize>
        ensures { result ≡ self.now.asleep_in }
    {
        self.asleep_in
    }
}
