//! The list of those that wait, the oldest first, each with its waker and its ticket. A waiter in the list has not been
//! notified. Whoever takes a waiter out of the list gets its waker with it. So no other thread can notify that waiter, and
//! none that doesn't take it out.
ghost use Rattle.std.specs.Prelude.{◌≡◌, ◌+◌, ◌<◌, ◌≤◌, ℕ, IfOk, MatchBool, MatchOption, length};
ghost use Rattle.std.specs.VecDeque.{deque_capacity, deque_len};
ghost use Rattle.lfm_model.specs.SeatNumbers.{max_seat_no};
ghost use mathlib.Core.Option.{some};
ghost use lib.ListN.{get_elem?};
ghost use Rattle.lfm_plain_condvar.specs.Lists.{InOrder, InOrder-prop};

use crate::parkers::{ParkersName, Waker};
use std::alloc::{AllocError, Global};
use std::collections::VecDeque;

/// One that waits: its waker and its ticket.
#[derive(Drop)]
pub struct Waiter {
    pub(crate) waker: Waker,
    pub(crate) ticket: u64,
}

impl Waiter {
    ghost use Rattle.lfm_plain_condvar.specs.Keeping.{Is};

    /// Whether it is the seat with this number, which waits with this ticket.
    fn is(&self, number: u64, ticket: u64) -> bool
        ensures { MatchBool result (Is number ticket self.now) (Is number ticket self.now → ⊥) }
    {
        self.waker.number == number && self.ticket == ticket
    }
}

/// A wait that was added to the list: its ticket, and how many waited ahead of it.
#[derive(Clone, Copy)]
pub(crate) struct Enlisted {
    pub(crate) ticket: u64,
    pub(crate) ahead: usize,
}

/// How many waits a condvar has had, and how they left its list.
#[derive(Clone, Copy, Debug, PartialEq, Eq)]
pub struct WaitCounts {
    /// The waits that were added to the list.
    pub added: u64,
    /// Those that a wake took out of it.
    pub woken: u64,
    /// Those that took themselves out when their time was over.
    pub timed_out: u64,
}

/// Those that wait. Tickets are 1, 2, 3 and so on, in the order in which the waits were added.
#[derive(Drop)]
pub struct Waiters {
    list: VecDeque<Waiter>,
    added: u64,
    woken: u64,
    timed_out: u64,
    seats: u64,
    name: ParkersName,
    pub ghost tickets: { InOrder added 0 list.items } by { InOrder-prop added 0 list.items },
    pub ghost counted: { woken + timed_out + deque_len list ≡ added },
    pub ghost room: { seats ≤ deque_capacity list },
    pub ghost few: { seats ≤ max_seat_no },
    pub ghost known: { (j : ℕ) (w : _) → get_elem? list.items j ≡ some w → (w.waker.number ≤ seats) × (w.waker.seat.table_id ≡ name.root.table_id) × (0 < w.waker.number) },
}

impl Waiters {
    ghost use Rattle.lfm_plain_condvar.specs.Keeping.{Adds, HasCounts, IsNew, Leaves, NotListed, TakesMaybe};

    /// An empty list, with room for each seat. It allocates once.
    pub(crate) fn empty(alloc: Global, seats: u64, name: ParkersName) -> Result<Waiters, AllocError>
        requires { seats ≤ max_seat_no }
        ensures { IfOk result (λ v. IsNew v × (v.seats ≡ seats) × (v.name ≡ name)) }
    {
        let list = VecDeque::with_capacity(alloc, seats as usize)?;
        Ok(Waiters {
            list,
            added: 0,
            woken: 0,
            timed_out: 0,
            seats,
            name,
        })
    }

    /// How many wait.
    pub(crate) fn waiting(&self) -> usize
        ensures { result ≡ length self.now.list.items }
    {
        self.list.len()
    }

    /// How many waits were added, woken and timed out.
    pub(crate) fn counts(&self) -> WaitCounts
        ensures { HasCounts result self.now }
    {
        WaitCounts {
            added: self.added,
            woken: self.woken,
            timed_out: self.timed_out,
        }
    }

    /// Adds a waiter with the next ticket at the end. If as many wait as there are seats, or no ticket is left, it hands the
    /// waker back and changes nothing. Neither happens: each seat has one waker, and the budgets of the seats end first.
    pub(crate) fn append(&mut self, waker: Waker) -> Result<Enlisted, Waker>
        requires { (waker.number ≤ self.old.seats) × (waker.seat.table_id ≡ self.old.name.root.table_id) × (0 < waker.number) }
        ensures { Adds waker self.old self.new result }
    {
        let ahead = self.list.len();
        if ahead as u64 >= self.seats {
            return Err(waker);
        }
        if self.added == u64::MAX {
            return Err(waker);
        }
        let ticket = self.added + 1;
        self.list.push_back_reserved(Waiter { waker, ticket });
        self.added = ticket;
        Ok(Enlisted { ticket, ahead })
    }

    /// Takes the oldest out, for a wake.
    pub(crate) fn take_oldest(&mut self) -> Option<Waiter>
        ensures { TakesMaybe self.old self.new result }
    {
        if self.list.len() == 0 {
            return None;
        }
        let oldest = self.list.pop_front()?;
        self.woken += 1;
        Some(oldest)
    }

    /// The index in the list of the seat with this number, if it waits with this ticket.
    fn place_of(&self, number: u64, ticket: u64) -> Option<usize>
        ensures { MatchOption result (NotListed number ticket self.now) (λ i. (w : _) × (get_elem? self.now.list.items i ≡ some w) × (w.waker.number ≡ number) × (w.ticket ≡ ticket)) }
    {
        for i in 0..self.list.len() {
            if self.list[i].is(number, ticket) {
                return Some(i);
            }
        }
        None
    }

    /// Takes out the seat with this number, whose time is over. If it isn't in the list with this ticket, a wake has taken
    /// it out before: it then returns None and changes nothing.
    pub(crate) fn take_out(&mut self, number: u64, ticket: u64) -> Option<Waiter>
        ensures { Leaves number ticket self.old self.new result }
    {
        let place = self.place_of(number, ticket)?;
        match self.list.remove(place) {
            Some(waiter) => {
                self.timed_out += 1;
                Some(waiter)
            }
            None => unreachable!(),
        }
    }
}
