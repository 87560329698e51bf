//! The mutex as a state that makes one atomic step at a time. Every state that a caller can have is steady: no other can be
//! built, and each turn keeps it so. The turns and readers themselves are those of the machine.
ghost use Rattle.std.specs.Prelude.{◌≡◌, ◌≤◌, true, false, length, reverse, slice_get, vec_capacity, IfOk, IfErr};
ghost use Rattle.std.specs.Option.{option_map};
ghost use Rattle.lfm_laws.specs.laws.Lawful.{Lawful};
ghost use Rattle.lfm_protocol.specs.Limits.{are_in_limits, max_seats};
ghost use Rattle.lfm_protocol.specs.Turns.{longest_call};
ghost use Rattle.lfm_protocol.specs.Place.{place_of};
ghost use Rattle.lfm_protocol.specs.Queue.{queue_of};
ghost use Rattle.lfm_protocol.specs.Seats.{seat, is_seat};
ghost use Rattle.lfm_protocol.specs.Step.{begin, step, start};
ghost use Rattle.lfm_words.specs.Popped.{pair_of};

mod debug;
mod words;

use lfm_model::{NewFault, Place, SeatNo};
use lfm_protocol::{Call, Limits, Machine, Turn};
use lfm_words::{Handoff, Record};
use std::alloc::{AllocError, Global};
use std::marker::Model;

/// The state of a mutex: its words and seats after the calls and steps made since its start.
#[derive(Drop)]
pub struct State {
    machine: Machine,
}

impl Model for State {
    ghost use Rattle.lfm_protocol.specs.Core.{Core};
    ghost use Rattle.std.specs.Prelude.{◌≤◌};
    ghost use Rattle.lfm_protocol.specs.Limits.{max_budget};
    ghost use Rattle.lfm_laws.specs.steady.Steady.{Steady};

    ghost Value = { Core };

    ghost invariant = { λ m. Steady m.machine × (m.machine.budget ≤ max_budget) };

    ghost view = { λ m. m.machine };
}

/// The turns.
impl State {
    /// Makes a mutex at its start, with this many seats (1 to 4,095) and this budget of takes for each (1 to 2^36). Outside
    /// these limits it returns Limit and allocates nothing. It allocates four times, each time the size that is needed, and
    /// returns Memory if an allocation failed.
    pub fn new(alloc: Global, seats: u64, budget: u64) -> Result<State, NewFault>
        ensures ok { IfOk result (λ m. m ≡ start (record { seats = seats; budget = budget })) }
        ensures limit { are_in_limits seats budget ≡ false → result ≡ Err NewFault.Limit }
        ensures memory { are_in_limits seats budget ≡ true → IfErr result (λ e. e ≡ NewFault.Memory) }
    {
        let limits = Limits { seats, budget };
        if !limits.are_allowed() {
            return Err(NewFault::Limit);
        }
        match Machine::new(alloc, limits) {
            Ok(machine) => Ok(State { machine }),
            Err(_) => Err(NewFault::Memory),
        }
    }

    /// A copy of this state. It allocates four times, and returns AllocError if an allocation failed.
    pub fn copy(&self, alloc: Global) -> Result<State, AllocError>
        ensures { IfOk result (λ m. m ≡ self.now) }
    {
        Ok(State {
            machine: self.machine.copy(alloc)?,
        })
    }

    /// Seat s begins a call: the checks in the order of the refusals, the charge of a take, and the first point. It is refused
    /// as NoSuchSeat if no seat has this number, then as InCall if a call of the seat is open, then by the checks of the mutex.
    /// A refused turn changes nothing.
    pub fn begin(&mut self, s: u64, call: Call) -> Turn
        ensures core { self.new ≡ (begin self.old s call).core }
        ensures turn { result ≡ (begin self.old s call).turn }
    {
        self.machine.begin(s, call)
    }

    /// Seat s makes the one atomic step at its point. It is refused as NoSuchSeat if no seat has this number, then as Idle if
    /// no call of the seat is open; both change nothing. A step that is refused as Busy or NotWaiting ends the call, and Busy
    /// gives its charge back.
    pub fn step(&mut self, s: u64) -> Turn
        ensures core { self.new ≡ (step self.old s).core }
        ensures turn { result ≡ (step self.old s).turn }
    {
        self.machine.step(s)
    }
}

/// The invariant of every state, as facts for the proofs of this crate.
impl State {
    ghost use Rattle.lfm_laws.specs.steady.Steady.{Steady};
    ghost use Rattle.lfm_protocol.specs.Limits.{max_budget};

    /// Every state is steady, with a budget within the limits. `laws::every_state_is_steady` states the same for callers.
    pub(crate) fn steady(&self)
        ensures steady { Steady self.now }
        ensures budget { self.now.budget ≤ max_budget }
    {
        let _ = &self.machine;
    }

    /// Every state is lawful, since it is steady. `laws::every_state_is_lawful` states the same for callers.
    pub(crate) fn law(&self)
        ensures { Lawful self.now }
    {
        let _ = &self.machine;
    }
}

/// The readers of a state. None changes anything or allocates memory.
impl State {
    /// The number of seats, at most 4,095. Seats are numbered from 1.
    pub fn seats(&self) -> u64
        ensures number { result ≡ length self.now.seats }
        ensures few { result ≤ max_seats }
    {
        self.machine.seats()
    }

    /// Whether a seat has this number.
    pub fn is_seat(&self, s: u64) -> bool
        ensures { result ≡ is_seat self.now.seats s }
    {
        self.machine.is_seat(s)
    }

    /// How many seats hold the mutex or want it.
    pub fn count(&self) -> u64
        ensures { result ≡ self.now.count }
    {
        self.machine.count()
    }

    /// The number of the owning seat; 0 if the owner word is empty.
    pub fn owner(&self) -> u64
        ensures { result ≡ self.now.owner }
    {
        self.machine.owner()
    }

    /// The posted hand-off; its seat is 0 if none is posted.
    pub fn handoff(&self) -> Handoff
        ensures { result ≡ self.now.handoff }
    {
        self.machine.handoff()
    }

    /// A call makes at most this many steps while no other seat makes a step.
    pub fn longest_call(&self) -> u64
        ensures { result ≡ longest_call self.now }
    {
        self.machine.longest_call()
    }

    /// How many times seat s holds the mutex: 0 to 65,535. For a number that no seat has, it returns the value of a seat at
    /// rest that did nothing.
    pub fn depth(&self, s: u64) -> u64
        ensures { result ≡ (seat self.now.seats s).depth }
    {
        self.machine.depth(s)
    }

    /// How many takes seat s has charged and not got back.
    pub fn takes(&self, s: u64) -> u64
        ensures { result ≡ (seat self.now.seats s).takes }
    {
        self.machine.takes(s)
    }

    /// How many hand-offs seat s has posted.
    pub fn posts(&self, s: u64) -> u64
        ensures { result ≡ (seat self.now.seats s).posts }
    {
        self.machine.posts(s)
    }

    /// Where the responsibility is, read from the words and the points: with the owner, in the posted hand-off, with a seat
    /// whose grant isn't loaded, or with a call that carries it. It reads each seat at most twice.
    pub fn place(&self) -> Place
        ensures { result ≡ place_of self.now }
    {
        self.machine.place()
    }

    /// How many records are queued. It follows the links of those that are in no pop list.
    pub fn queue_len(&self) -> u64
        ensures { result ≡ length (queue_of self.now) }
    {
        self.machine.queue_len()
    }

    /// The seat and stamp of the record with index i in the queue, where 0 is the oldest. None past the newest. It follows the
    /// links of those that are in no pop list.
    pub fn queued(&self, i: u64) -> Option<(SeatNo, u64)>
        ensures { result ≡ option_map pair_of (slice_get (queue_of self.now) i) }
    {
        self.machine.queued(i)
    }

    /// Gathers the queue's records, newest first, into a vector with reserved room for a record of each seat.
    pub(crate) fn gather(&self, room: &mut Vec<Record>)
        requires { length self.now.seats ≤ vec_capacity room.old }
        ensures gathered { reverse room.new.items ≡ queue_of self.now }
        ensures room { vec_capacity room.new ≡ vec_capacity room.old }
    {
        self.machine.gather(room);
    }
}
