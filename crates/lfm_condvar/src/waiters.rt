//! The list of those that wait, with its tickets. Only `enlist` and `send_oldest`, and their forms without waking, change it.
//! The fields, and the functions that append and remove, are private to this module, and these calls are in its child modules.
ghost use Rattle.std.specs.Prelude.{All, ◌≡◌, ℕ, ◌+◌, ◌<◌, ◌≤◌, ◌++◌, [], ◌∷◌, Some, IfOk, MatchBool, MatchOption, length, slice_index, sum, vec_len};
ghost use Rattle.std.specs.VecDeque.{deque_capacity, deque_len};
ghost use Rattle.lfm_protocol.specs.Limits.{max_budget, max_seats};
ghost use Rattle.lfm_condvar.specs.Lists.{Among, Among-prop, GoOnFrom, GoOn-prop, times, waiter};

mod debug;
pub mod enlist;
mod send;

pub(crate) use enlist::{bars_wait, enlist_without_waking};
use lfm_model::SeatNo;
pub use send::send_oldest;
pub(crate) use send::send_oldest_without_waking;
use std::alloc::{AllocError, Global};
use std::collections::VecDeque;

/// A seat of the user mutex that waits, and its ticket.
#[derive(Clone, Copy, Debug, PartialEq, Eq)]
pub(crate) struct Waiter {
    pub(crate) seat: SeatNo,
    pub(crate) ticket: u64,
}

/// Those that wait, the oldest first, and how many tickets each cond seat added. A cond seat's number is its index in the
/// counts; index 0 is unused. The fields are private to this module.
#[derive(Drop)]
pub struct Waiters {
    list: VecDeque<Waiter>,
    counts: Vec<u64>,
    sent: u64,
    added: u64,
    seats: u64,
    budget: u64,
    pub ghost tickets: { GoOnFrom sent list.items } by { GoOn-prop sent list.items },
    pub ghost length: { sent + deque_len list ≡ added },
    pub ghost once: { (s : ℕ) → times s list.items ≤ 1 },
    pub ghost among: { Among seats list.items } by { Among-prop seats list.items },
    pub ghost room: { seats ≤ deque_capacity list },
    pub ghost counted: { (vec_len counts ≡ seats + 1) × (sum counts.items ≡ added) },
    pub ghost nobody: { slice_index counts.items 0 ≡ 0 },
    pub ghost within: { All (λ x. x ≤ budget) counts.items },
    pub ghost limits: { (seats ≤ max_seats) × (budget ≤ max_budget) },
}

impl Waiters {
    ghost use Rattle.lfm_condvar.specs.Keeping.{Appended, WaitersFollow, IsNew, Taken};

    /// An empty list, with room for each of the seats. It allocates twice.
    pub(crate) fn empty(alloc: Global, seats: u64, budget: u64) -> Result<Waiters, AllocError>
        requires { (seats ≤ max_seats) × (budget ≤ max_budget) }
        ensures { IfOk result (λ v. IsNew v × (v.seats ≡ seats) × (v.budget ≡ budget)) }
    {
        let list = VecDeque::with_capacity(alloc, seats as usize)?;
        let counts = Vec::from_elem(alloc, 0u64, seats as usize + 1)?;
        Ok(Waiters {
            list,
            counts,
            sent: 0,
            added: 0,
            seats,
            budget,
        })
    }

    /// The greatest number that a user seat in the list may have.
    pub(crate) fn seats(&self) -> u64
        ensures { result ≡ self.now.seats }
    {
        self.seats
    }

    /// The tickets sent and the tickets added.
    pub(crate) fn numbers(&self) -> (u64, u64)
        ensures { (result.0 ≡ self.now.sent) × (result.1 ≡ self.now.added) }
    {
        (self.sent, self.added)
    }

    /// How many user seats wait.
    pub(crate) fn waiting(&self) -> usize
        ensures { result ≡ length self.now.list.items }
    {
        self.list.len()
    }

    /// Whether the user seat is in the list.
    pub(crate) fn has(&self, seat: SeatNo) -> bool
        ensures { MatchBool result (0 < times seat self.now.list.items) (times seat self.now.list.items ≡ 0) }
    {
        for i in 0..self.list.len() {
            if self.list[i].seat == seat {
                return true;
            }
        }
        false
    }

    /// The one that has waited longest.
    fn oldest(&self) -> Option<Waiter>
        ensures { MatchOption result (self.now.list.items ≡ []) (λ w. (rest : _) × (self.now.list.items ≡ w ∷ rest)) }
    {
        self.list.front().copied()
    }

    /// Appends a user seat that is not in the list, with the next ticket, and counts the ticket for the cond seat `by`. It
    /// allocates no memory and can't fail: the list has room for every seat (`room`), and each is in it at most once. Tickets
    /// can't wrap: `added` is the sum of the counts, and each count is at most the budget.
    fn append(&mut self, by: SeatNo, seat: SeatNo) -> u64
        requires by { (by ≤ self.old.seats) × (slice_index self.old.counts.items by < self.old.budget) }
        requires seat { (0 < seat) × (seat ≤ self.old.seats) × (times seat self.old.list.items ≡ 0) }
        ensures appended { Appended by seat self.old self.new }
        ensures ticket { result ≡ self.new.added }
        ensures follows { WaitersFollow by self.old self.new }
    {
        let ticket = self.added + 1;
        let place = by.get() as usize;
        self.list.push_back_reserved(Waiter { seat, ticket });
        self.counts[place] += 1;
        self.added = ticket;
        ticket
    }

    /// Removes the oldest.
    fn take_oldest(&mut self) -> Option<Waiter>
        ensures taken { MatchOption result (self.old.list.items ≡ []) (λ w. Taken (w ∷ []) self.old self.new × (w.ticket ≡ self.old.sent + 1)) }
        ensures follows { (s : ℕ) → WaitersFollow s self.old self.new }
    {
        let oldest = self.list.pop_front()?;
        self.sent += 1;
        Some(oldest)
    }
}
