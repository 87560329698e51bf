//! A mutex with two condvars is made, with a part for each of its threads, and is closed once all parts are back.
ghost use Rattle.std.specs.Prelude.{◌≡◌, ◌≤◌, ℕ, All, IfSome, []};
ghost use Rattle.lfm_mutex.specs.Belongs.{OfMutex, limits_of};
ghost use Rattle.lfm_condvar.specs.Belongs.{OfCondvar, cond_limits};
ghost use Rattle.lfm_test_tools.specs.Parts.{OfShared};
ghost use mathlib.Core.Option.{some};
ghost use lib.ListN.{get_elem?};

use crate::locking::Locking;
use crate::two_condvars::parts::{NOTHING, Part, Shared};
use lfm_condvar::{CondSeat, Condvar};
use lfm_mutex::{Mutex, Pace, Seat};
use lfm_protocol::MAX_BUDGET;
use std::alloc::Global;

/// The seats of all threads, sorted.
#[derive(Drop)]
struct Seats {
    seats: Vec<Seat<u64>>,
    first: Vec<CondSeat>,
    second: Vec<CondSeat>,
}

/// What is left of a mutex and its condvars: the number, and the tickets that each condvar sent and added.
#[derive(Clone, Copy)]
pub struct Left {
    pub number: u64,
    pub first: (u64, u64),
    pub second: (u64, u64),
}

/// A mutex around 0 with this number of seats and this pace. It requests memory. None if there is none, or if no mutex can have
/// this number of seats.
fn new_mutex(alloc: Global, pace: Pace, seats: u64) -> Option<(Mutex<u64>, Vec<Seat<u64>>)>
    ensures limits { IfSome result (λ r. (limits_of r.0).seats ≡ seats) }
    ensures seats { IfSome result (λ r. (j : ℕ) (s : _) → get_elem? r.1.items j ≡ some s → OfMutex s r.0) }
{
    let Ok((mut mutex, seats)) = Mutex::new(alloc, seats, MAX_BUDGET, 0u64) else {
        return None;
    };
    mutex.set_pace(pace);
    Some((mutex, seats))
}

/// A condvar with this number of seats and this pace. It requests memory. None if there is none, or if no condvar can have this
/// number of seats.
fn new_condvar(alloc: Global, pace: Pace, seats: u64) -> Option<(Condvar, Vec<CondSeat>)>
    ensures limits { IfSome result (λ r. (cond_limits r.0).seats ≡ seats) }
    ensures seats { IfSome result (λ r. (j : ℕ) (s : _) → get_elem? r.1.items j ≡ some s → OfCondvar s r.0) }
{
    let Ok((mut condvar, seats)) = Condvar::new(alloc, seats, MAX_BUDGET) else {
        return None;
    };
    condvar.set_pace(pace);
    Some((condvar, seats))
}

/// A mutex around 0 with this locking, and two condvars, all with this pace, and a part for each of the threads. It requests
/// memory. None if there is none, or if no mutex can have this number of seats.
pub fn shared_by(
    alloc: Global,
    pace: Pace,
    locking: Locking,
    threads: u64,
) -> Option<(Shared, Vec<Part>)>
    ensures { IfSome result (λ r. All (λ p. OfShared p r.0) r.1.items) }
{
    let (mutex, seats) = new_mutex(alloc, pace, threads)?;
    let (first, first_seats) = new_condvar(alloc, pace, threads)?;
    let (second, second_seats) = new_condvar(alloc, pace, threads)?;
    let shared = Shared {
        locking,
        mutex,
        first,
        second,
    };
    let seats = Seats {
        seats,
        first: first_seats,
        second: second_seats,
    };
    let parts = dealt(&shared, threads, seats, Vec::new(alloc))?;
    Some((shared, parts))
}

/// A mutex around 0 that is locked in order, and two condvars, all with the pace that a new mutex has, and a part for each of
/// the threads. It requests memory. None if there is none, or if no mutex can have this number of seats.
pub fn shared_in_order(alloc: Global, threads: u64) -> Option<(Shared, Vec<Part>)>
    ensures { IfSome result (λ r. All (λ p. OfShared p r.0) r.1.items) }
{
    let usual = Pace::for_processors(8);
    shared_by(alloc, usual, Locking::InOrder, threads)
}

impl Shared {
    /// Closes the mutex and then its condvars, and returns what is left of them. It requests memory. None if there is none, or
    /// if a part is missing, or if a seat holds or sleeps.
    pub fn close(self, alloc: Global, parts: Vec<Part>) -> Option<Left>
        requires { All (λ p. OfShared p self) parts.items }
    {
        let room = Seats {
            seats: Vec::new(alloc),
            first: Vec::new(alloc),
            second: Vec::new(alloc),
        };
        let seats = sorted(&self, parts, room)?;
        let Shared {
            locking: _,
            mutex,
            first,
            second,
        } = self;
        Some(Left {
            number: mutex.close(seats.seats).ok()?,
            first: first.close(seats.first).ok()?,
            second: second.close(seats.second).ok()?,
        })
    }
}

/// The last of these seats, which are the mutex's. None if there is none.
fn last_seat(mutex: &Mutex<u64>, seats: &mut Vec<Seat<u64>>) -> Option<Seat<u64>>
    requires { (j : ℕ) (s : _) → get_elem? seats.old.items j ≡ some s → OfMutex s mutex.now }
    ensures one { IfSome result (λ s. OfMutex s mutex.now) }
    ensures rest { (j : ℕ) (s : _) → get_elem? seats.new.items j ≡ some s → OfMutex s mutex.now }
{
    let _mutex = mutex;
    let seat = seats.pop()?;
    Some(seat)
}

/// The last of these cond seats, which are the condvar's. None if there is none.
pub fn last_cond_seat(condvar: &Condvar, seats: &mut Vec<CondSeat>) -> Option<CondSeat>
    requires { (j : ℕ) (s : _) → get_elem? seats.old.items j ≡ some s → OfCondvar s condvar.now }
    ensures one { IfSome result (λ s. OfCondvar s condvar.now) }
    ensures rest { (j : ℕ) (s : _) → get_elem? seats.new.items j ≡ some s → OfCondvar s condvar.now }
{
    let _condvar = condvar;
    let seat = seats.pop()?;
    Some(seat)
}

/// A part for each of the threads, of seats that all are those of the mutex and its condvars.
fn dealt(shared: &Shared, threads: u64, seats: Seats, mut parts: Vec<Part>) -> Option<Vec<Part>>
    requires seats { (j : ℕ) (s : _) → get_elem? seats.seats.items j ≡ some s → OfMutex s shared.now.mutex }
    requires first { (j : ℕ) (s : _) → get_elem? seats.first.items j ≡ some s → OfCondvar s shared.now.first }
    requires second { (j : ℕ) (s : _) → get_elem? seats.second.items j ≡ some s → OfCondvar s shared.now.second }
    requires wide { ((cond_limits shared.now.first).seats ≤ (limits_of shared.now.mutex).seats)
        × ((cond_limits shared.now.second).seats ≤ (limits_of shared.now.mutex).seats) }
    requires empty { parts.items ≡ [] }
    ensures { IfSome result (λ v. All (λ p. OfShared p shared.now) v.items) }
{
    let Seats {
        seats: mut user_seats,
        first: mut first_seats,
        second: mut second_seats,
    } = seats;
    'dealing: for _ in 0..threads {
        let seat = last_seat(&shared.mutex, &mut user_seats)?;
        let first = last_cond_seat(&shared.first, &mut first_seats)?;
        let second = last_cond_seat(&shared.second, &mut second_seats)?;
        let part = Part {
            seat,
            first,
            second,
            seen: NOTHING,
        };
        let Ok(()) = parts.push(part) else {
            return None;
        };
    }
    Some(parts)
}

/// The seats of all parts, in these empty lists.
fn sorted(shared: &Shared, parts: Vec<Part>, mut room: Seats) -> Option<Seats>
    requires parts { All (λ p. OfShared p shared.now) parts.items }
    requires empty { (room.seats.items ≡ []) × (room.first.items ≡ []) × (room.second.items ≡ []) }
    ensures seats { IfSome result (λ r. (j : ℕ) (s : _) → get_elem? r.seats.items j ≡ some s → OfMutex s shared.now.mutex) }
    ensures first { IfSome result (λ r. (j : ℕ) (s : _) → get_elem? r.first.items j ≡ some s → OfCondvar s shared.now.first) }
    ensures second { IfSome result (λ r. (j : ℕ) (s : _) → get_elem? r.second.items j ≡ some s → OfCondvar s shared.now.second) }
{
    let _shared = shared;
    'sorting: for part in parts {
        let Part {
            seat,
            first,
            second,
            seen: _,
        } = part;
        let Ok(()) = room.seats.push(seat) else {
            return None;
        };
        let Ok(()) = room.first.push(first) else {
            return None;
        };
        let Ok(()) = room.second.push(second) else {
            return None;
        };
    }
    Some(room)
}
