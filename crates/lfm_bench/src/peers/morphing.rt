//! Our mutex with two condvars that morph waits, used by several threads: a woken thread is put into the queue of the mutex.
ghost use Rattle.std.specs.Prelude.{◌≡◌, ◌≤◌, ℕ, IfOk, IfSome};
ghost use Rattle.lfm_mutex.specs.Belongs.{OfMutex, limits_of};
ghost use Rattle.lfm_condvar.specs.Belongs.{OfCondvar, cond_limits};
ghost use mathlib.Core.Option.{some};
ghost use lib.ListN.{get_elem?};

use crate::peers::guarded::{Guarded, Operation};
use crate::peers::ours::{BUDGET, Locking, last_seat, new_mutex, no_seat};
use crate::peers::participants::{Participant, Places, Side};
use lfm_condvar::{CondSeat, Condvar};
use lfm_model::Locked;
use lfm_mutex::{Mutex, Pace, Seat};
use std::alloc::{AllocError, Global};
use std::io;
use std::sync::Wait;
use std::thread::Threads;
use std::time::Clock;

/// A condvar with this number of seats and this pace. It allocates memory.
fn new_condvar(
    alloc: Global,
    seats: u64,
    pace: Pace,
) -> Result<(Condvar, Vec<CondSeat>), AllocError>
    ensures limits { IfOk result (λ r. (cond_limits r.0).seats ≡ seats) }
    ensures seats { IfOk result (λ r. (j : ℕ) (s : _) → get_elem? r.1.items j ≡ some s → OfCondvar s r.0) }
{
    let Ok((mut condvar, cond_seats)) = Condvar::new(alloc, seats, BUDGET) else {
        return Err(AllocError);
    };
    condvar.set_pace(pace);
    Ok((condvar, cond_seats))
}

/// A mutex and two condvars.
#[derive(Drop)]
pub struct MorphingShared {
    mutex: Mutex<Guarded>,
    first: Condvar,
    second: Condvar,
    ghost wide: { ((cond_limits first).seats ≤ (limits_of mutex).seats) × ((cond_limits second).seats ≤ (limits_of mutex).seats) },
}

/// The seats of a mutex and its two condvars that no thread has yet.
#[derive(Drop)]
pub struct MorphingSeats {
    seats: Vec<Seat<Guarded>>,
    first_seats: Vec<CondSeat>,
    second_seats: Vec<CondSeat>,
}

impl MorphingShared {
    /// A mutex and two condvars for this number of threads, with the pace of this machine. It allocates memory.
    pub fn new<R: Threads + Clock + AllocGlobal>(
        rt: &R,
        threads: u64,
    ) -> io::Result<(MorphingShared, MorphingSeats)>
        ensures seats { IfOk result (λ r. (j : ℕ) (s : _) → get_elem? r.1.seats.items j ≡ some s → OfMutex s r.0.mutex) }
        ensures first { IfOk result (λ r. (j : ℕ) (s : _) → get_elem? r.1.first_seats.items j ≡ some s → OfCondvar s r.0.first) }
        ensures second { IfOk result (λ r. (j : ℕ) (s : _) → get_elem? r.1.second_seats.items j ≡ some s → OfCondvar s r.0.second) }
    {
        let pace = Pace::of_machine(rt)?;
        let (mutex, seats) = new_mutex(rt, threads, Guarded::new())?;
        let (first, first_seats) = new_condvar(rt.alloc(), threads, pace)?;
        let (second, second_seats) = new_condvar(rt.alloc(), threads, pace)?;
        let shared = MorphingShared {
            mutex,
            first,
            second,
        };
        let free = MorphingSeats {
            seats,
            first_seats,
            second_seats,
        };
        Ok((shared, free))
    }
}

/// A mutex and its two condvars, with the seats that no thread has yet.
#[derive(Drop)]
pub struct MorphingPlaces<'a> {
    shared: &'a MorphingShared,
    locking: Locking,
    seats: Vec<Seat<Guarded>>,
    first_seats: Vec<CondSeat>,
    second_seats: Vec<CondSeat>,
    ghost of_mutex: { (j : ℕ) (s : _) → get_elem? seats.items j ≡ some s → OfMutex s shared.now.mutex },
    ghost of_first: { (j : ℕ) (s : _) → get_elem? first_seats.items j ≡ some s → OfCondvar s shared.now.first },
    ghost of_second: { (j : ℕ) (s : _) → get_elem? second_seats.items j ≡ some s → OfCondvar s shared.now.second },
}

impl<'a> MorphingPlaces<'a> {
    /// All the seats, which are those of the mutex and the condvars, for threads that lock in this way.
    pub fn new(
        shared: &'a MorphingShared,
        free: MorphingSeats,
        locking: Locking,
    ) -> MorphingPlaces<'a>
        requires seats { (j : ℕ) (s : _) → get_elem? free.seats.items j ≡ some s → OfMutex s shared.now.mutex }
        requires first { (j : ℕ) (s : _) → get_elem? free.first_seats.items j ≡ some s → OfCondvar s shared.now.first }
        requires second { (j : ℕ) (s : _) → get_elem? free.second_seats.items j ≡ some s → OfCondvar s shared.now.second }
    {
        let MorphingSeats {
            seats,
            first_seats,
            second_seats,
        } = free;
        MorphingPlaces {
            shared,
            locking,
            seats,
            first_seats,
            second_seats,
        }
    }
}

impl<'a> Places for MorphingPlaces<'a> {
    type One = MorphingParticipant<'a>;

    /// It has a seat of the mutex and of each condvar.
    fn next(&mut self, waits_on: Side) -> io::Result<MorphingParticipant<'a>> {
        let seat = last_seat(&self.shared.mutex, &mut self.seats);
        let first_seat = last_cond_seat(&self.shared.first, &mut self.first_seats);
        let second_seat = last_cond_seat(&self.shared.second, &mut self.second_seats);
        let (Some(seat), Some(first_seat), Some(second_seat)) = (seat, first_seat, second_seat)
        else {
            return Err(no_seat());
        };
        Ok(MorphingParticipant {
            shared: self.shared,
            locking: self.locking,
            waits_on,
            seat,
            first_seat,
            second_seat,
        })
    }
}

/// The last of these cond seats, which are the condvar's. None if there is none.
fn last_cond_seat(condvar: &Condvar, seats: &mut Vec<CondSeat>) -> Option<CondSeat>
    requires { (j : ℕ) (s : _) → get_elem? seats.old.items j ≡ some s → OfCondvar s condvar.now }
    ensures one { IfSome result (λ s. OfCondvar s condvar.now) }
    ensures rest { (j : ℕ) (s : _) → get_elem? seats.new.items j ≡ some s → OfCondvar s condvar.now }
{
    let _condvar = condvar;
    let seat = seats.pop()?;
    Some(seat)
}

/// The seats of a thread. It waits on one of the condvars, and wakes the threads that wait on the other.
#[derive(Drop)]
pub struct MorphingParticipant<'a> {
    shared: &'a MorphingShared,
    locking: Locking,
    waits_on: Side,
    seat: Seat<Guarded>,
    first_seat: CondSeat,
    second_seat: CondSeat,
    ghost of_mutex: { OfMutex seat shared.now.mutex },
    ghost of_first: { OfCondvar first_seat shared.now.first },
    ghost of_second: { OfCondvar second_seat shared.now.second },
}

impl Participant for MorphingParticipant<'_> {
    /// Locks in its way. Returns whether the seat acquired the mutex and did not hold it before.
    fn lock<R: Wait>(&mut self, rt: &R) -> bool {
        let mutex = &self.shared.mutex;
        let locked = match self.locking {
            Locking::InOrder => mutex.lock(rt, &mut self.seat),
            Locking::Barging => mutex.lock_barging(rt, &mut self.seat),
        };
        matches!(locked, Ok(Locked::Held(_)))
    }

    /// `unlock`. Returns whether the seat held.
    fn unlock(&mut self) -> bool {
        self.shared.mutex.unlock(&mut self.seat).is_ok()
    }

    /// `wait`. Returns whether it was not refused.
    fn wait<R: Wait>(&mut self, rt: &R) -> bool {
        let mutex = &self.shared.mutex;
        let seat = &mut self.seat;
        let waited = match self.waits_on {
            Side::First => self
                .shared
                .first
                .wait(rt, &mut self.first_seat, mutex, seat),
            Side::Second => self
                .shared
                .second
                .wait(rt, &mut self.second_seat, mutex, seat),
        };
        waited.is_ok()
    }

    /// `wake_one` of the other condvar. Returns whether it was not refused.
    fn wake_one<R: Wait>(&mut self, rt: &R) -> bool {
        let mutex = &self.shared.mutex;
        let seat = &mut self.seat;
        let woken = match self.waits_on {
            Side::First => self
                .shared
                .second
                .wake_one(rt, &mut self.second_seat, mutex, seat),
            Side::Second => self
                .shared
                .first
                .wake_one(rt, &mut self.first_seat, mutex, seat),
        };
        woken.is_ok()
    }

    /// `wake_all` of the other condvar. Returns how many were woken, or 0 if it was refused.
    fn wake_all<R: Wait>(&mut self, rt: &R) -> u64 {
        let mutex = &self.shared.mutex;
        let seat = &mut self.seat;
        let woken = match self.waits_on {
            Side::First => self
                .shared
                .second
                .wake_all(rt, &mut self.second_seat, mutex, seat),
            Side::Second => self
                .shared
                .first
                .wake_all(rt, &mut self.first_seat, mutex, seat),
        };
        woken.unwrap_or(0)
    }

    /// Makes the operation on the value of the mutex. Returns its number, or None if it isn't possible yet or the seat doesn't
    /// hold.
    fn apply(&mut self, operation: Operation) -> Option<u64> {
        match self.seat.value_mut() {
            Some(guarded) => guarded.apply(operation),
            None => None,
        }
    }
}
