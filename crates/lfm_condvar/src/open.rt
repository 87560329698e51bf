//! How a condvar is made: an inner mutex around an empty list, and a cond seat for each of its seats.
ghost use Rattle.std.specs.Prelude.{◌≡◌, ◌+◌, ℕ, [], IfErr, IfOk, true, false, vec_len};
ghost use mathlib.Core.Option.{some};
ghost use lib.ListN.{get_elem?};
ghost use Rattle.lfm_model.specs.declared.refusals.NewFault.{NewFault};
ghost use Rattle.lfm_protocol.specs.Limits.{are_in_limits};
ghost use Rattle.lfm_mutex.specs.Paces.{usual_pace};
ghost use Rattle.lfm_mutex.specs.calls.Sight.{new_sight};
ghost use Rattle.lfm_condvar.specs.Belongs.{OfCondvar, cond_limits, cond_past, cond_sight};
ghost use Rattle.lfm_condvar.specs.Keeping.{IsNew};

use crate::cond_seat::{CondSeat, as_cond_seats};
use crate::condvar::Condvar;
use crate::waiters::Waiters;
use lfm_model::NewFault;
use lfm_mutex::Mutex;
use lfm_protocol::Limits;
use std::alloc::Global;

impl Condvar {
    /// Makes a condvar on which no seat waits, and returns it with its cond seats in order, numbered from 1. `seats` is 1 to
    /// 4,095. `budget`, how many waits and wakes each cond seat may make, is 1 to 2^36. A user seat may wait on the condvar if
    /// its number is at most `seats`. Each wake requires that the user mutex has at least `seats` seats.
    ///
    /// Outside these limits it returns Limit, and allocates nothing. It returns Memory if an allocation failed. No other call
    /// of a condvar allocates memory.
    pub fn new(alloc: Global, seats: u64, budget: u64) -> Result<(Condvar, Vec<CondSeat>), NewFault>
        ensures limits { IfOk result (λ r. (cond_limits r.0 ≡ record { seats = seats; budget = budget }) × (are_in_limits seats budget ≡ true)) }
        ensures belongs { IfOk result (λ r. (j : ℕ) (s : _) → get_elem? r.1.items j ≡ some s → OfCondvar s r.0) }
        ensures seats { IfOk result (λ r. (vec_len r.1 ≡ seats) × ((v : _) × IsNew v × ((j : ℕ) (s : _) → get_elem? r.1.items j ≡ some s → OfCondvar s r.0 × (cond_sight s ≡ new_sight v seats (j + 1))))) }
        ensures past { IfOk result (λ r. (j : ℕ) (s : _) → get_elem? r.1.items j ≡ some s → cond_past s ≡ []) }
        ensures pace { IfOk result (λ r. r.0.inner.pace ≡ usual_pace) }
        ensures limit { are_in_limits seats budget ≡ false → IfErr result (λ e. e ≡ NewFault.Limit) × IfOk result (λ _. ⊥) }
        ensures memory { are_in_limits seats budget ≡ true → IfErr result (λ e. e ≡ NewFault.Memory) }
    {
        let limits = Limits { seats, budget };
        if !limits.are_allowed() {
            return Err(NewFault::Limit);
        }
        let Ok(cond_seats) = Vec::with_capacity(alloc, seats as usize) else {
            return Err(NewFault::Memory);
        };
        let Ok(waiters) = Waiters::empty(alloc, seats, budget) else {
            return Err(NewFault::Memory);
        };
        let (inner, inner_seats) = Mutex::new(alloc, seats, budget, waiters)?;
        let cond_seats = as_cond_seats(inner_seats, cond_seats);
        Ok((Condvar { inner, seats }, cond_seats))
    }
}
