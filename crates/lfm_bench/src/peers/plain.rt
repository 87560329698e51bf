//! Our mutex with two plain condvars, used by several threads. Those that never waited lock the mutex by `lock_barging`; those
//! that were woken lock it as `wait` of the condvar does.
ghost use Rattle.std.specs.Prelude.{◌≡◌, ℕ, IfOk, IfSome};
ghost use Rattle.lfm_mutex.specs.Belongs.{OfMutex};
ghost use Rattle.lfm_plain_condvar.specs.Belongs.{OfPlain};
ghost use mathlib.Core.Option.{some};
ghost use lib.ListN.{get_elem?};
ghost use Rattle.lfm_bench.specs.PlainSeats.{AreOfPlain-prop, OfPlain-prop};

use crate::peers::guarded::{Guarded, Operation};
use crate::peers::ours::{BUDGET, last_seat, new_mutex, no_seat};
use crate::peers::participants::{Participant, Places, Side};
use lfm_model::Locked;
use lfm_mutex::{Mutex, Pace, Seat};
use lfm_plain_condvar::{PlainCondvar, PlainSeat};
use std::alloc::{AllocError, Global};
use std::io;
use std::sync::Wait;
use std::thread::Threads;
use std::time::Clock;

/// A condvar with this number of seats and this pace. It allocates memory.
fn new_condvar(
    alloc: Global,
    seats: u64,
    pace: Pace,
) -> Result<(PlainCondvar, Vec<PlainSeat>), AllocError>
    ensures { IfOk result (λ r. (j : ℕ) (s : _) → get_elem? r.1.items j ≡ some s → OfPlain s r.0) }
{
    let Ok((mut condvar, plain_seats)) = PlainCondvar::new(alloc, seats, BUDGET) else {
        return Err(AllocError);
    };
    condvar.set_pace(pace);
    Ok((condvar, plain_seats))
}

/// A mutex and two condvars.
#[derive(Drop)]
pub struct PlainShared {
    mutex: Mutex<Guarded>,
    first: PlainCondvar,
    second: PlainCondvar,
}

/// The seats of a mutex and its two condvars that no thread has yet.
#[derive(Drop)]
pub struct PlainSeats {
    seats: Vec<Seat<Guarded>>,
    first_seats: Vec<PlainSeat>,
    second_seats: Vec<PlainSeat>,
}

impl PlainShared {
    /// A mutex and two condvars for this number of threads, with the pace of this machine. It allocates memory.
    pub fn new<R: Threads + Clock + AllocGlobal>(
        rt: &R,
        threads: u64,
    ) -> io::Result<(PlainShared, PlainSeats)>
        ensures seats { IfOk result (λ r. (j : ℕ) (s : _) → get_elem? r.1.seats.items j ≡ some s → OfMutex s r.0.mutex) }
        ensures first { IfOk result (λ r. (j : ℕ) (s : _) → get_elem? r.1.first_seats.items j ≡ some s → OfPlain s r.0.first) }
        ensures second { IfOk result (λ r. (j : ℕ) (s : _) → get_elem? r.1.second_seats.items j ≡ some s → OfPlain s r.0.second) }
    {
        let pace = Pace::of_machine(rt)?;
        let (mutex, seats) = new_mutex(rt, threads, Guarded::new())?;
        let (first, first_seats) = new_condvar(rt.alloc(), threads, pace)?;
        let (second, second_seats) = new_condvar(rt.alloc(), threads, pace)?;
        let shared = PlainShared {
            mutex,
            first,
            second,
        };
        let free = PlainSeats {
            seats,
            first_seats,
            second_seats,
        };
        Ok((shared, free))
    }
}

/// A mutex and its two condvars, with the seats that no thread has yet.
#[derive(Drop)]
pub struct PlainPlaces<'a> {
    shared: &'a PlainShared,
    seats: Vec<Seat<Guarded>>,
    first_seats: Vec<PlainSeat>,
    second_seats: Vec<PlainSeat>,
    ghost of_mutex: { (j : ℕ) (s : _) → get_elem? seats.items j ≡ some s → OfMutex s shared.now.mutex },
    ghost of_first: { (j : ℕ) (s : _) → get_elem? first_seats.items j ≡ some s → OfPlain s shared.now.first } by { AreOfPlain-prop first_seats.items shared.now.first },
    ghost of_second: { (j : ℕ) (s : _) → get_elem? second_seats.items j ≡ some s → OfPlain s shared.now.second } by { AreOfPlain-prop second_seats.items shared.now.second },
}

impl<'a> PlainPlaces<'a> {
    /// All the seats, which are those of the mutex and the condvars.
    pub fn new(shared: &'a PlainShared, free: PlainSeats) -> PlainPlaces<'a>
        requires seats { (j : ℕ) (s : _) → get_elem? free.seats.items j ≡ some s → OfMutex s shared.now.mutex }
        requires first { (j : ℕ) (s : _) → get_elem? free.first_seats.items j ≡ some s → OfPlain s shared.now.first }
        requires second { (j : ℕ) (s : _) → get_elem? free.second_seats.items j ≡ some s → OfPlain s shared.now.second }
    {
        let PlainSeats {
            seats,
            first_seats,
            second_seats,
        } = free;
        PlainPlaces {
            shared,
            seats,
            first_seats,
            second_seats,
        }
    }
}

impl<'a> Places for PlainPlaces<'a> {
    type One = PlainParticipant<'a>;

    /// It has a seat of the mutex and of each condvar.
    fn next(&mut self, waits_on: Side) -> io::Result<PlainParticipant<'a>> {
        let seat = last_seat(&self.shared.mutex, &mut self.seats);
        let first_seat = last_plain_seat(&self.shared.first, &mut self.first_seats);
        let second_seat = last_plain_seat(&self.shared.second, &mut self.second_seats);
        let (Some(seat), Some(first_seat), Some(second_seat)) = (seat, first_seat, second_seat)
        else {
            return Err(no_seat());
        };
        Ok(PlainParticipant {
            shared: self.shared,
            waits_on,
            seat,
            first_seat,
            second_seat,
        })
    }
}

/// The last of these plain seats, which are the condvar's. None if there is none.
fn last_plain_seat(condvar: &PlainCondvar, seats: &mut Vec<PlainSeat>) -> Option<PlainSeat>
    requires { (j : ℕ) (s : _) → get_elem? seats.old.items j ≡ some s → OfPlain s condvar.now }
    ensures one { IfSome result (λ s. OfPlain s condvar.now) }
    ensures rest { (j : ℕ) (s : _) → get_elem? seats.new.items j ≡ some s → OfPlain s condvar.now }
{
    let _condvar = condvar;
    let seat = seats.pop()?;
    Some(seat)
}

/// The seats of a thread. It waits on one of the condvars, and wakes the threads that wait on the other.
#[derive(Drop)]
pub struct PlainParticipant<'a> {
    shared: &'a PlainShared,
    waits_on: Side,
    seat: Seat<Guarded>,
    first_seat: PlainSeat,
    second_seat: PlainSeat,
    ghost of_mutex: { OfMutex seat shared.now.mutex },
    ghost of_first: { OfPlain first_seat shared.now.first } by { OfPlain-prop first_seat shared.now.first },
    ghost of_second: { OfPlain second_seat shared.now.second } by { OfPlain-prop second_seat shared.now.second },
}

impl Participant for PlainParticipant<'_> {
    /// `lock_barging`. Returns whether the seat acquired the mutex and did not hold it before.
    fn lock<R: Wait>(&mut self, rt: &R) -> bool {
        let locked = self.shared.mutex.lock_barging(rt, &mut self.seat);
        matches!(locked, Ok(Locked::Held(_)))
    }

    /// `unlock`. Returns whether the seat held.
    fn unlock(&mut self) -> bool {
        self.shared.mutex.unlock(&mut self.seat).is_ok()
    }

    /// `wait`. Returns whether it was not refused.
    fn wait<R: Wait>(&mut self, rt: &R) -> bool {
        let mutex = &self.shared.mutex;
        let seat = &mut self.seat;
        let waited = match self.waits_on {
            Side::First => self
                .shared
                .first
                .wait(rt, &mut self.first_seat, mutex, seat),
            Side::Second => self
                .shared
                .second
                .wait(rt, &mut self.second_seat, mutex, seat),
        };
        waited.is_ok()
    }

    /// `wake_one` of the other condvar. Returns whether it was not refused.
    fn wake_one<R: Wait>(&mut self, rt: &R) -> bool {
        let woken = match self.waits_on {
            Side::First => self.shared.second.wake_one(rt, &mut self.second_seat),
            Side::Second => self.shared.first.wake_one(rt, &mut self.first_seat),
        };
        woken.is_ok()
    }

    /// `wake_all` of the other condvar. Returns how many were woken, or 0 if it was refused.
    fn wake_all<R: Wait>(&mut self, rt: &R) -> u64 {
        let woken = match self.waits_on {
            Side::First => self.shared.second.wake_all(rt, &mut self.second_seat),
            Side::Second => self.shared.first.wake_all(rt, &mut self.first_seat),
        };
        woken.unwrap_or(0)
    }

    /// Makes the operation on the value of the mutex. Returns its number, or None if it isn't possible yet or the seat doesn't
    /// hold.
    fn apply(&mut self, operation: Operation) -> Option<u64> {
        match self.seat.value_mut() {
            Some(guarded) => guarded.apply(operation),
            None => None,
        }
    }
}
