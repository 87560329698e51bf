//! The bare atomic steps of the mutex's calls, on a table whose rule allows everything: what the steps alone cost, without a
//! mutex and without guarantees.
ghost use Rattle.std.specs.Prelude.{◌≡◌, ◌≤◌, ◌<◌, IfOk};

use atomic_table::{Play, Seat, Shared, Table, TableRule};
use std::alloc::{AllocError, Global};
use std::hint::spin_loop;

/// The rule that allows everything.
pub struct Anything;

impl<S> TableRule<S, (), ()> for Anything {
    ghost holds = { λ _ _. Unit {0} };

    ghost first = { λ _. tt };
}

impl<S> Play<S, ()> for Anything {
    ghost then = { λ _ _ _ _. Unit {0} };
}

/// Who holds a mutex when the calls of a workload start.
#[derive(Clone, Copy)]
pub enum Start {
    /// No seat.
    Free,
    /// The seat that makes the calls.
    Held,
    /// Another seat.
    HeldByOther,
}

/// A table of words that is not a mutex.
pub type BareTable = Table<u8, (), (), Anything, Global>;

/// A seat of such a table.
pub type BareSeat = Seat<u8, ()>;

const COUNT: usize = 0;

const OWNER: usize = 1;

const HANDOFF: usize = 2;

const PUSH: usize = 3;

/// The link of the seat that queues.
const LINK: usize = 5;

/// Its wake word.
const WAKE: usize = 7;

/// The wake word of a seat that was granted the mutex when no seat was queued: the least grant.
const GRANT: u64 = 3;

/// The bits of a word that hold a seat.
const SEATS: u64 = 65_535;

/// The number of the seat that makes the steps.
const SELF: u64 = 1;

/// The number of another seat.
const OTHER: u64 = 2;

/// How many pauses a waiting seat makes before each load of its wake word.
const PAUSES_OF_POLL: u32 = 4;

/// As many words as a mutex of two seats has.
const WORDS: [u64; 8] = [0; 8];

/// A table of as many words as a mutex of two seats has, all 0, and its seat.
pub fn bare_table(alloc: Global) -> Result<(BareTable, BareSeat), AllocError>
    ensures { IfOk result (λ t. (t.1.table_id ≡ t.0.shared.table_id) × (8 ≤ t.0.shared.table_id.words)) }
{
    Table::of_words(alloc, &WORDS, &())
}

/// The steps of one seat.
#[derive(Drop)]
pub struct Steps<'a> {
    table: &'a Shared<u8, (), (), Anything>,
    seat: BareSeat,
    ghost fits: { (seat.table_id ≡ table.now.table_id) × (8 ≤ table.now.table_id.words) },
}

impl<'a> Steps<'a> {
    /// The steps of this seat over its table.
    pub fn new(table: &'a Shared<u8, (), (), Anything>, seat: BareSeat) -> Steps<'a>
        requires { (seat.table_id ≡ table.now.table_id) × (8 ≤ table.now.table_id.words) }
    {
        Steps { table, seat }
    }

    /// A lock and an unlock without contention: add, store, store, subtract. Returns whether the count was as expected.
    #[inline(always)]
    pub fn pair(&mut self) -> bool {
        if self.add(COUNT) != 0 {
            return false;
        }
        self.store(OWNER, SELF);
        self.store(OWNER, 0);
        self.subtract(COUNT) == 1
    }

    /// A try_lock that acquires the mutex, and its unlock: compare-exchange, store, store, subtract. Returns whether the count
    /// was as expected.
    #[inline(always)]
    pub fn hit(&mut self) -> bool {
        if self.exchange(COUNT, 0, 1) != 0 {
            return false;
        }
        self.store(OWNER, SELF);
        self.store(OWNER, 0);
        self.subtract(COUNT) == 1
    }

    /// A lock of a holder, whose unlock makes no step: add, load, subtract. Returns whether the seat was the owner.
    #[inline(always)]
    pub fn again(&mut self) -> bool {
        if self.add(COUNT) == 0 {
            return false;
        }
        let owner = self.load(OWNER);
        self.subtract(COUNT);
        owner == SELF
    }

    /// A try_lock while another seat holds: a compare-exchange that fails, and two loads. Returns whether another seat was the
    /// owner and no hand-off was posted.
    #[inline(always)]
    pub fn miss(&mut self) -> bool {
        if self.exchange(COUNT, 0, 1) == 0 {
            return false;
        }
        let owner = self.load(OWNER);
        let handoff = self.load(HANDOFF);
        owner == OTHER && handoff == 0
    }

    /// The lock of a seat that queues while another holds, the unlock that grants it the mutex and wakes it, and its receive:
    /// add, load, load, store, compare-exchange, load; store, subtract, and, load, store, wake-up call; load, store, store.
    /// Returns whether the words were as expected.
    #[inline(always)]
    pub fn handoff(&mut self) -> bool {
        self.queue() && self.serve() && self.receive()
    }

    /// A poll of a seat that waits for a grant: some pauses and a load of the wake word. The load does not count as a step of
    /// the seat. Returns whether the word was no grant.
    #[inline(always)]
    pub fn poll(&self) -> bool {
        for _ in 0..PAUSES_OF_POLL {
            spin_loop();
        }
        self.table.peek(WAKE) < GRANT
    }

    /// The lock's part of a hand-off: the other seat queues behind the holder.
    #[inline(always)]
    fn queue(&mut self) -> bool {
        self.add(COUNT);
        let owner = self.load(OWNER);
        let push = self.load(PUSH);
        self.store(LINK, push);
        let pushed = push.wrapping_add(SEATS).wrapping_add(1 + OTHER);
        let found = self.exchange(PUSH, push, pushed);
        let handoff = self.load(HANDOFF);
        owner != 0 && found == push && handoff == 0
    }

    /// The unlock's part of a hand-off, with its wake-up call.
    #[inline(always)]
    fn serve(&mut self) -> bool {
        self.store(OWNER, 0);
        let count = self.subtract(COUNT);
        let head = self
            .table
            .fetch_and::<Anything>(&mut self.seat, PUSH, !SEATS);
        let link = self.load(LINK);
        self.store(WAKE, GRANT);
        self.table.wake_one(WAKE);
        count == 2 && head & SEATS == OTHER && link & SEATS == 0
    }

    /// The receive's part of a hand-off.
    #[inline(always)]
    fn receive(&mut self) -> bool {
        let wake = self.load(WAKE);
        self.store(WAKE, 0);
        self.store(OWNER, SELF);
        wake == GRANT
    }

    /// Sets the words to the values that they have at the start of the calls.
    pub fn begin(&mut self, start: Start) {
        let (count, owner) = match start {
            Start::Free => (0, 0),
            Start::Held => (1, SELF),
            Start::HeldByOther => (1, OTHER),
        };
        self.store(COUNT, count);
        self.store(OWNER, owner);
    }

    /// Loads a word.
    #[inline(always)]
    fn load(&mut self, word: usize) -> u64
        requires { word < 8 }
    {
        self.table.load::<Anything>(&mut self.seat, word)
    }

    /// Stores into a word.
    #[inline(always)]
    fn store(&mut self, word: usize, value: u64)
        requires { word < 8 }
    {
        self.table.store::<Anything>(&mut self.seat, word, value);
    }

    /// Adds 1. Returns the value that was there before.
    #[inline(always)]
    fn add(&mut self, word: usize) -> u64
        requires { word < 8 }
    {
        self.table.fetch_add::<Anything>(&mut self.seat, word, 1)
    }

    /// Subtracts 1. Returns the value that was there before.
    #[inline(always)]
    fn subtract(&mut self, word: usize) -> u64
        requires { word < 8 }
    {
        self.table.fetch_sub::<Anything>(&mut self.seat, word, 1)
    }

    /// Compare-and-exchange of `old`, the expected value, with `new`. Returns the value that was there before.
    #[inline(always)]
    fn exchange(&mut self, word: usize, old: u64, new: u64) -> u64
        requires { word < 8 }
    {
        self.table
            .compare_exchange::<Anything>(&mut self.seat, word, old, new)
    }
}
