//! How a plain condvar is made: its parkers, an inner mutex around an empty list, and a plain seat with its waker for each
//! seat of that mutex.
ghost use Rattle.std.specs.Prelude.{◌≡◌, ◌+◌, ◌≤◌, ℕ, [], IfErr, IfOk, IfSome, true, false, vec_capacity, vec_len};
ghost use mathlib.Core.Option.{some};
ghost use lib.ListN.{get_elem?};
ghost use Rattle.lfm_model.specs.declared.refusals.NewFault.{NewFault};
ghost use Rattle.lfm_protocol.specs.Limits.{are_in_limits};
ghost use Rattle.lfm_mutex.specs.Belongs.{limits_of};
ghost use Rattle.lfm_mutex.specs.Paces.{usual_pace};
ghost use Rattle.lfm_mutex.specs.calls.Sight.{sight, new_sight};
ghost use Rattle.lfm_plain_condvar.specs.Belongs.{IsNewSeat, OfPlain, notified_by};
ghost use Rattle.lfm_plain_condvar.specs.Keeping.{IsNew};

use crate::condvar::PlainCondvar;
use crate::parkers::{FirstWakers, Parkers};
use crate::plain_seat::PlainSeat;
use crate::polls::PollCredit;
use crate::waiters::Waiters;
use lfm_model::NewFault;
use lfm_mutex::{Mutex, Seat};
use lfm_protocol::Limits;
use std::alloc::Global;

/// A plain seat around a seat of the inner mutex, with the waker of its parker. It returns None if the waker is not in the
/// table. It is there: a new parker is notified, and no other seat takes its waker.
fn with_waker(parkers: &Parkers, first: &FirstWakers, seat: Seat<Waiters>) -> Option<PlainSeat>
    requires number { (sight seat).number ≤ parkers.now.seats }
    requires first { first.now.of.seat.table_id ≡ parkers.now.table.shared.table_id }
    ensures { IfSome result (λ p. IsNewSeat p seat parkers.now) }
{
    let number = seat.number().get();
    match parkers.first_waker(number, first) {
        Some(waker) => Some(PlainSeat {
            seat,
            waker: Some(waker),
            log: parkers.new_log(),
            credit: PollCredit::NEW,
        }),
        None => None,
    }
}

/// Makes each seat of an inner mutex a plain seat.
fn with_wakers(
    parkers: &Parkers,
    first: &FirstWakers,
    seats: Vec<Seat<Waiters>>,
    mut plain_seats: Vec<PlainSeat>,
) -> Option<Vec<PlainSeat>>
    requires room { vec_len seats ≤ vec_capacity plain_seats }
    requires none { plain_seats.items ≡ [] }
    requires first { first.now.of.seat.table_id ≡ parkers.now.table.shared.table_id }
    requires numbers { (j : ℕ) (s : _) → get_elem? seats.items j ≡ some s → (sight s).number ≤ parkers.now.seats }
    ensures len { IfSome result (λ v. vec_len v ≡ vec_len seats) }
    ensures wraps { IfSome result (λ v. (j : ℕ) (p : _) → get_elem? v.items j ≡ some p → (get_elem? seats.items j ≡ some p.seat) × IsNewSeat p p.seat parkers.now) }
{
    'wrapped: for seat in seats {
        let Some(plain_seat) = with_waker(parkers, first, seat) else {
            return None;
        };
        plain_seats.push_reserved(plain_seat);
    }
    Some(plain_seats)
}

impl PlainCondvar {
    /// Makes a condvar on which no seat waits, and returns it with its plain seats in order, numbered from 1. `seats` is 1
    /// to 4,095. `budget`, how many waits and wakes each plain seat may make, is 1 to 2^36; a wait with a time limit may
    /// cost two. Any seat of any mutex may wait on it.
    ///
    /// Outside these limits it returns Limit, and allocates nothing. It returns Memory if an allocation failed. No other
    /// call of a plain condvar allocates memory.
    pub fn new(
        alloc: Global,
        seats: u64,
        budget: u64,
    ) -> Result<(PlainCondvar, Vec<PlainSeat>), NewFault>
        ensures limits { IfOk result (λ r. (limits_of r.0.inner ≡ record { seats = seats; budget = budget }) × (are_in_limits seats budget ≡ true)) }
        ensures belongs { IfOk result (λ r. (j : ℕ) (s : _) → get_elem? r.1.items j ≡ some s → OfPlain s r.0) }
        ensures seats { IfOk result (λ r. (vec_len r.1 ≡ seats) × ((v : _) × IsNew v × ((j : ℕ) (s : _) → get_elem? r.1.items j ≡ some s → sight s.seat ≡ new_sight v seats (j + 1)))) }
        ensures notified { IfOk result (λ r. (j : ℕ) (s : _) → get_elem? r.1.items j ≡ some s → notified_by s ≡ []) }
        ensures pace { IfOk result (λ r. r.0.inner.pace ≡ usual_pace) }
        ensures limit { are_in_limits seats budget ≡ false → IfErr result (λ e. e ≡ NewFault.Limit) × IfOk result (λ _. ⊥) }
        ensures memory { are_in_limits seats budget ≡ true → IfErr result (λ e. e ≡ NewFault.Memory) }
    {
        let limits = Limits { seats, budget };
        if !limits.are_allowed() {
            return Err(NewFault::Limit);
        }
        let Ok(plain_seats) = Vec::with_capacity(alloc, seats as usize) else {
            return Err(NewFault::Memory);
        };
        let Ok((parkers, name, first)) = Parkers::new(alloc, seats) else {
            return Err(NewFault::Memory);
        };
        let Ok(waiters) = Waiters::empty(alloc, seats, name) else {
            return Err(NewFault::Memory);
        };
        let (inner, inner_seats) = Mutex::new(alloc, seats, budget, waiters)?;
        let Some(plain_seats) = with_wakers(&parkers, &first, inner_seats, plain_seats) else {
            return Err(NewFault::Memory);
        };
        Ok((PlainCondvar { inner, parkers }, plain_seats))
    }
}
