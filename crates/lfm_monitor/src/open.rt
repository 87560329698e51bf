//! How a monitor is made: a mutex around the object with an empty journal, its conditions, and a pass for each of its seats.
//! Each pass has one cond seat of each condition, or one plain seat if the conditions are plain. These seats are distributed,
//! condition by condition, into one list for each pass.
ghost use Rattle.lfm_model.specs.declared.refusals.NewFault.{NewFault};
ghost use Rattle.lfm_monitor.specs.Begun.{InLimits, IsEmpty, NewPass, max_entries};
ghost use Rattle.lfm_monitor.specs.Belongs.{OfMonitor, conditions_in, conditions_of, mine_of, opening_of, pass_past, passes_of, plain_conditions_in, plain_conditions_of, seen_of, share_of};
ghost use Rattle.lfm_monitor.specs.CondSeats.{AreConditions, AreNewOf, ArePaced};
ghost use Rattle.lfm_monitor.specs.Dealing.{Dealt};
ghost use Rattle.lfm_monitor.specs.Passes.{PassKept};
ghost use Rattle.lfm_monitor.specs.PlainSeats.{ArePlainPaced};
ghost use Rattle.lfm_mutex.specs.Paces.{usual_pace};
ghost use Rattle.lfm_mutex.specs.calls.Sight.{sight};
ghost use Rattle.lfm_protocol.specs.Limits.{are_in_limits, max_budget};
ghost use Rattle.std.specs.Prelude.{◌≡◌, ◌+◌, ◌*◌, ◌<◌, ◌≤◌, ◌↔◌, ℕ, IfErr, IfOk, IsTrue, [], true, vec_capacity, vec_len};
ghost use lib.ListN.{get_elem?};
ghost use mathlib.Core.Option.{some};

use crate::journaled::Journaled;
use crate::monitor::Monitor;
use crate::pass::Pass;
use crate::plain_open::new_plain_conditions;
use lfm_condvar::{CondSeat, Condvar};
use lfm_model::{NewFault, Object};
use lfm_mutex::{Mutex, Seat};
use lfm_plain_condvar::PlainSeat;
use lfm_protocol::{MAX_BUDGET, MAX_SEATS};
use std::alloc::Global;
use std::snapshot::Snapshot;

/// The greatest number of entries that the journal of a monitor may have room for.
pub const MAX_ENTRIES: u64 = 1_048_576;

/// The greatest number of conditions of a monitor.
pub const MAX_CONDITIONS: u64 = 16;

/// Whether a monitor may have these numbers of passes, of entries for each pass, and of conditions.
pub(crate) fn are_allowed(seats: u64, share: u64, conditions: u64) -> bool
    ensures { IsTrue result ↔ InLimits seats share conditions }
{
    0 < seats
        && seats <= MAX_SEATS
        && 0 < share
        && seats.saturating_mul(share) <= MAX_ENTRIES
        && conditions <= MAX_CONDITIONS
}

/// Makes `count` empty lists, each with room for `each` items.
pub(crate) fn rooms<T: Drop>(alloc: Global, count: u64, each: u64) -> Result<Vec<Vec<T>>, NewFault>
    ensures rooms { IfOk result (λ r. (vec_len r ≡ count) × ((j : ℕ) (l : _) → get_elem? r.items j ≡ some l → (l.items ≡ []) × (vec_capacity l ≡ each))) }
    ensures memory { IfErr result (λ e. e ≡ NewFault.Memory) }
{
    let Ok(mut lists) = Vec::with_capacity(alloc, count as usize) else {
        return Err(NewFault::Memory);
    };
    'rooms: for _ in 0..count {
        let Ok(list) = Vec::with_capacity(alloc, each as usize) else {
            return Err(NewFault::Memory);
        };
        lists.push_reserved(list);
    }
    Ok(lists)
}

/// Appends item i to list i.
pub(crate) fn deal<T: Drop>(lists: &mut Vec<Vec<T>>, mut items: Vec<T>)
    requires count { vec_len items ≡ vec_len lists.old }
    requires room { (j : ℕ) (l : _) → get_elem? lists.old.items j ≡ some l → vec_len l < vec_capacity l }
    ensures count { vec_len lists.new ≡ vec_len lists.old }
    ensures dealt { (j : ℕ) (l : _) → get_elem? lists.new.items j ≡ some l → Dealt lists.old.items items.items j l }
{
    'deals: while let Some(item) = items.pop() {
        lists[items.len()].push_reserved(item);
    }
}

/// Makes this number of conditions, each with a cond seat for every pass. Returns them, and the cond seats of each pass, one of
/// each condition, in their order.
fn new_conditions(
    alloc: Global,
    passes: u64,
    count: u64,
) -> Result<(Vec<Condvar>, Vec<Vec<CondSeat>>), NewFault>
    requires { are_in_limits passes max_budget ≡ true }
    ensures conditions { IfOk result (λ r. (vec_len r.0 ≡ count) × AreConditions passes r.0.items) }
    ensures seats { IfOk result (λ r. (vec_len r.1 ≡ passes) × ((j : ℕ) (l : _) → get_elem? r.1.items j ≡ some l → AreNewOf passes (j + 1) l.items r.0.items)) }
    ensures paced { IfOk result (λ r. ArePaced usual_pace r.0.items) }
    ensures memory { IfErr result (λ e. e ≡ NewFault.Memory) }
{
    let Ok(mut conditions) = Vec::with_capacity(alloc, count as usize) else {
        return Err(NewFault::Memory);
    };
    let mut cond_seats = rooms(alloc, passes, count)?;
    'makes: for _ in 0..count {
        let (condition, seats) = Condvar::new(alloc, passes, MAX_BUDGET)?;
        conditions.push_reserved(condition);
        deal(&mut cond_seats, seats);
    }
    Ok((conditions, cond_seats))
}

/// The object with an empty journal, whose memory is reserved in full.
fn journaled<O: Object>(
    alloc: Global,
    seats: u64,
    share: u64,
    object: O,
) -> Result<Journaled<O>, NewFault>
    requires { seats * share ≤ max_entries }
    ensures empty { IfOk result (λ v. IsEmpty object seats share v) }
    ensures memory { IfErr result (λ e. e ≡ NewFault.Memory) }
{
    let Ok(journal) = Vec::with_capacity(alloc, (seats * share) as usize) else {
        return Err(NewFault::Memory);
    };
    Ok(Journaled {
        opening: Snapshot::of(&object),
        object,
        journal,
        seats,
        share,
    })
}

/// A pass for each seat, with the cond seats and the plain seats of the same index, in order.
fn with_seats<O: Object>(
    mut passes: Vec<Pass<O>>,
    seats: Vec<Seat<Journaled<O>>>,
    cond_seats: Vec<Vec<CondSeat>>,
    plain_seats: Vec<Vec<PlainSeat>>,
) -> Vec<Pass<O>>
    requires room { (passes.items ≡ []) × (vec_capacity passes ≡ vec_len seats) × (vec_len cond_seats ≡ vec_len seats) × (vec_len plain_seats ≡ vec_len seats) }
    requires kept { (j : ℕ) (s : _) → get_elem? seats.items j ≡ some s → PassKept (sight s) 0 0 }
    ensures count { vec_len result ≡ vec_len seats }
    ensures passes { (j : ℕ) (p : _) → get_elem? result.items j ≡ some p → (get_elem? seats.items j ≡ some p.seat) × (get_elem? cond_seats.items j ≡ some p.cond_seats) × (get_elem? plain_seats.items j ≡ some p.plain_seats) × (seen_of p ≡ 0) × (mine_of p ≡ 0) }
{
    'triples: for ((seat, cond_seats), plain_seats) in seats
        .into_iter()
        .zip(cond_seats)
        .zip(plain_seats)
    {
        passes.push_reserved(Pass {
            seat,
            seen: 0,
            mine: 0,
            cond_seats,
            plain_seats,
        });
    }
    passes
}

/// How large a monitor is to be: how many passes it has, how many entries each of them may write, and how many conditions of
/// each kind there are.
#[derive(Clone, Copy)]
pub(crate) struct Sizes {
    pub(crate) seats: u64,
    pub(crate) share: u64,
    pub(crate) morphing: u64,
    pub(crate) plain: u64,
}

impl<O: Object> Monitor<O> {
    /// Makes a monitor around this object, and returns it with its passes in order, numbered from 1. `seats` is 1 to 4,095.
    /// Each pass may write `entries_per_seat` entries, 1 or more: one for each acquisition of the monitor and one for each op.
    /// `seats` times `entries_per_seat` is at most 1,048,576. There are `conditions` conditions, 0 to 16, on which passes may
    /// wait, each as a `Condvar` of `lfm_condvar`: a pass that is woken holds in the order of the wakes, and no wait has a time
    /// limit. On each of them a pass may make 2^36 waits and wakes. The journal's memory is reserved here in full.
    ///
    /// Outside these limits it returns Limit, and allocates nothing. It returns Memory if an allocation failed. On a fault the
    /// object is dropped. No other call of a monitor allocates memory.
    pub fn new(
        alloc: Global,
        seats: u64,
        entries_per_seat: u64,
        conditions: u64,
        object: O,
    ) -> Result<(Monitor<O>, Vec<Pass<O>>), NewFault>
        ensures monitor { IfOk result (λ r. (opening_of r.0 ≡ object) × (passes_of r.0 ≡ seats) × (share_of r.0 ≡ entries_per_seat) × (conditions_of r.0 ≡ conditions)) }
        ensures kind { IfOk result (λ r. plain_conditions_of r.0 ≡ 0) }
        ensures belongs { IfOk result (λ r. (j : ℕ) (p : _) → get_elem? r.1.items j ≡ some p → OfMonitor p r.0) }
        ensures passes { IfOk result (λ r. (vec_len r.1 ≡ seats) × ((j : ℕ) (p : _) → get_elem? r.1.items j ≡ some p → NewPass r.0 (j + 1) p)) }
        ensures past { IfOk result (λ r. (j : ℕ) (p : _) → get_elem? r.1.items j ≡ some p → pass_past p ≡ []) }
        ensures pace { IfOk result (λ r. (r.0.mutex.pace ≡ usual_pace) × ArePaced usual_pace (conditions_in r.0)) }
        ensures limit { (InLimits seats entries_per_seat conditions → ⊥) → IfErr result (λ e. e ≡ NewFault.Limit) × IfOk result (λ _. ⊥) }
        ensures memory { InLimits seats entries_per_seat conditions → IfErr result (λ e. e ≡ NewFault.Memory) }
    {
        if !are_allowed(seats, entries_per_seat, conditions) {
            return Err(NewFault::Limit);
        }
        let sizes = Sizes {
            seats,
            share: entries_per_seat,
            morphing: conditions,
            plain: 0,
        };
        Monitor::with_sizes(alloc, sizes, object)
    }

    /// Makes a monitor of these sizes, whose conditions are of one kind.
    pub(crate) fn with_sizes(
        alloc: Global,
        sizes: Sizes,
        object: O,
    ) -> Result<(Monitor<O>, Vec<Pass<O>>), NewFault>
        requires morphing { InLimits sizes.seats sizes.share sizes.morphing }
        requires plain { InLimits sizes.seats sizes.share sizes.plain }
        requires kind { 0 < sizes.plain → sizes.morphing ≡ 0 }
        ensures monitor { IfOk result (λ r. (opening_of r.0 ≡ object) × (passes_of r.0 ≡ sizes.seats) × (share_of r.0 ≡ sizes.share) × (conditions_of r.0 ≡ sizes.morphing) × (plain_conditions_of r.0 ≡ sizes.plain)) }
        ensures belongs { IfOk result (λ r. (j : ℕ) (p : _) → get_elem? r.1.items j ≡ some p → OfMonitor p r.0) }
        ensures passes { IfOk result (λ r. (vec_len r.1 ≡ sizes.seats) × ((j : ℕ) (p : _) → get_elem? r.1.items j ≡ some p → NewPass r.0 (j + 1) p)) }
        ensures past { IfOk result (λ r. (j : ℕ) (p : _) → get_elem? r.1.items j ≡ some p → pass_past p ≡ []) }
        ensures pace { IfOk result (λ r. (r.0.mutex.pace ≡ usual_pace) × ArePaced usual_pace (conditions_in r.0) × ArePlainPaced usual_pace (plain_conditions_in r.0)) }
        ensures memory { IfErr result (λ e. e ≡ NewFault.Memory) }
    {
        let Ok(passes) = Vec::with_capacity(alloc, sizes.seats as usize) else {
            return Err(NewFault::Memory);
        };
        let (conditions, cond_seats) = new_conditions(alloc, sizes.seats, sizes.morphing)?;
        let (plain_conditions, plain_seats) = new_plain_conditions(
            alloc,
            sizes.seats,
            sizes.plain,
        )?;
        let opening = Snapshot::of(&object);
        let empty = journaled(alloc, sizes.seats, sizes.share, object)?;
        let Ok((mutex, all)) = Mutex::new(alloc, sizes.seats, sizes.share, empty) else {
            return Err(NewFault::Memory);
        };
        let monitor = Monitor {
            mutex,
            opening,
            share: sizes.share,
            conditions,
            plain_conditions,
        };
        Ok((monitor, with_seats(passes, all, cond_seats, plain_seats)))
    }
}
