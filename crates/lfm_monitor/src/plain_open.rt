//! How a monitor is made whose conditions are plain.
ghost use Rattle.lfm_model.specs.declared.refusals.NewFault.{NewFault};
ghost use Rattle.lfm_monitor.specs.Begun.{InLimits, NewPass};
ghost use Rattle.lfm_monitor.specs.Belongs.{OfMonitor, conditions_of, opening_of, pass_past, passes_of, plain_conditions_in, plain_conditions_of, share_of};
ghost use Rattle.lfm_monitor.specs.PlainSeats.{AreNewPlainSeatsOf, ArePlainConditions, ArePlainPaced};
ghost use Rattle.lfm_mutex.specs.Paces.{usual_pace};
ghost use Rattle.lfm_protocol.specs.Limits.{are_in_limits, max_budget};
ghost use Rattle.std.specs.Prelude.{◌≡◌, ◌+◌, ℕ, IfErr, IfOk, [], true, vec_len};
ghost use lib.ListN.{get_elem?};
ghost use mathlib.Core.Option.{some};

use crate::monitor::Monitor;
use crate::open::{Sizes, are_allowed, deal, rooms};
use crate::pass::Pass;
use lfm_model::{NewFault, Object};
use lfm_plain_condvar::{PlainCondvar, PlainSeat};
use lfm_protocol::MAX_BUDGET;
use std::alloc::Global;

/// Makes this number of plain conditions, each with a plain seat for every pass. Returns them, and the plain seats of each
/// pass, one of each condition, in their order.
pub(crate) fn new_plain_conditions(
    alloc: Global,
    passes: u64,
    count: u64,
) -> Result<(Vec<PlainCondvar>, Vec<Vec<PlainSeat>>), NewFault>
    requires { are_in_limits passes max_budget ≡ true }
    ensures conditions { IfOk result (λ r. (vec_len r.0 ≡ count) × ArePlainConditions passes r.0.items) }
    ensures seats { IfOk result (λ r. (vec_len r.1 ≡ passes) × ((j : ℕ) (l : _) → get_elem? r.1.items j ≡ some l → AreNewPlainSeatsOf passes (j + 1) l.items r.0.items)) }
    ensures paced { IfOk result (λ r. ArePlainPaced usual_pace r.0.items) }
    ensures memory { IfErr result (λ e. e ≡ NewFault.Memory) }
{
    let Ok(mut conditions) = Vec::with_capacity(alloc, count as usize) else {
        return Err(NewFault::Memory);
    };
    let mut plain_seats = rooms(alloc, passes, count)?;
    'makes: for _ in 0..count {
        let (condition, seats) = PlainCondvar::new(alloc, passes, MAX_BUDGET)?;
        conditions.push_reserved(condition);
        deal(&mut plain_seats, seats);
    }
    Ok((conditions, plain_seats))
}

impl<O: Object> Monitor<O> {
    /// `new`, but its conditions are plain: each is a `PlainCondvar` of `lfm_plain_condvar`. A wait on them may have a time
    /// limit, a pass that is woken acquires the monitor by itself, as `wait` says, and a wake sends nobody. A wait with a
    /// time limit may cost two of the 2^36 waits and wakes.
    ///
    /// The limits and the faults are those of `new`.
    pub fn with_plain_conditions(
        alloc: Global,
        seats: u64,
        entries_per_seat: u64,
        conditions: u64,
        object: O,
    ) -> Result<(Monitor<O>, Vec<Pass<O>>), NewFault>
        ensures monitor { IfOk result (λ r. (opening_of r.0 ≡ object) × (passes_of r.0 ≡ seats) × (share_of r.0 ≡ entries_per_seat) × (plain_conditions_of r.0 ≡ conditions)) }
        ensures kind { IfOk result (λ r. conditions_of r.0 ≡ 0) }
        ensures belongs { IfOk result (λ r. (j : ℕ) (p : _) → get_elem? r.1.items j ≡ some p → OfMonitor p r.0) }
        ensures passes { IfOk result (λ r. (vec_len r.1 ≡ seats) × ((j : ℕ) (p : _) → get_elem? r.1.items j ≡ some p → NewPass r.0 (j + 1) p)) }
        ensures past { IfOk result (λ r. (j : ℕ) (p : _) → get_elem? r.1.items j ≡ some p → pass_past p ≡ []) }
        ensures pace { IfOk result (λ r. (r.0.mutex.pace ≡ usual_pace) × ArePlainPaced usual_pace (plain_conditions_in r.0)) }
        ensures limit { (InLimits seats entries_per_seat conditions → ⊥) → IfErr result (λ e. e ≡ NewFault.Limit) × IfOk result (λ _. ⊥) }
        ensures memory { InLimits seats entries_per_seat conditions → IfErr result (λ e. e ≡ NewFault.Memory) }
    {
        if !are_allowed(seats, entries_per_seat, conditions) {
            return Err(NewFault::Limit);
        }
        let sizes = Sizes {
            seats,
            share: entries_per_seat,
            morphing: 0,
            plain: conditions,
        };
        Monitor::with_sizes(alloc, sizes, object)
    }
}
