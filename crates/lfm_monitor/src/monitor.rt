//! The monitor, its pace, and the numbers of its conditions. It is made in `open`, or in `plain_open` with plain conditions. Its
//! calls are in `enter`, `apply`, `apply_until`, `apply_until_for`, `leave`, `hold`, `run`, `wait`, `timed_wait`, `wake` and
//! `close`.
ghost use Rattle.std.specs.Prelude.{◌≡◌, ◌+◌, ◌<◌, MatchOption, vec_len};
ghost use Rattle.lfm_mutex.specs.Belongs.{limits_of};
ghost use Rattle.lfm_monitor.specs.CondSeats.{AreConditions, ArePaced, SameButPaces};
ghost use Rattle.lfm_monitor.specs.Conditions.{IsMissing};
ghost use Rattle.lfm_monitor.specs.PlainSeats.{ArePlainConditions, ArePlainPaced, SamePlainButPaces};

use crate::journaled::Journaled;
use crate::plain_paces::set_plain_paces;
use lfm_condvar::Condvar;
use lfm_model::Object;
use lfm_mutex::{Mutex, Pace};
use lfm_plain_condvar::PlainCondvar;
use std::snapshot::Snapshot;

/// A guarded object with a journal: at most one pass at a time holds it, and applies ops to it. Its calls are made through a
/// shared reference and one of its passes. A call with the pass of another monitor violates the precondition that every call
/// has. It has up to 16 conditions, numbered from 1, on which passes wait and are woken.
///
/// These lines are compiled in the crate `example_bounded_buffer`:
///
/// ```
/// // a monitor with two passes, each of which may write `ENTRIES` entries, and two conditions; it guards an empty buffer
/// let (monitor, passes) = Monitor::new(rt.alloc(), 2, ENTRIES, 2, Buffer::new())?;
/// let Ok(passes) = monitor.run(&rt, passes, NUMBERS, &Roles) else {
///     bail!("a thread could not be started");
/// };
/// let Ok((_, journal)) = monitor.close(passes) else {
///     bail!("a pass still holds the monitor");
/// };
/// ```
///
/// Without `run`, in the caller's own thread:
///
/// ```
/// // one pass, which may write 10 entries, and no condition, around a sum that begins at 0
/// let (monitor, mut passes) = Monitor::new(rt.alloc(), 1, 10, 0, Total(0))?;
/// monitor.enter(&rt, &mut passes[0])?;
/// let total = monitor.apply(&mut passes[0], TotalOp::Add(5))?;
/// monitor.leave(&mut passes[0])?;
/// ```
#[derive(Drop)]
pub struct Monitor<O: Object> {
    pub(crate) mutex: Mutex<Journaled<O>>,
    pub(crate) opening: Snapshot<O>,
    pub(crate) share: u64,
    pub(crate) conditions: Vec<Condvar>,
    pub(crate) plain_conditions: Vec<PlainCondvar>,
    pub ghost shared: { (limits_of mutex).budget ≡ share },
    pub ghost wide: { AreConditions (limits_of mutex).seats conditions.items },
    pub ghost paced: { ArePaced mutex.pace conditions.items },
    pub ghost plain_wide: { ArePlainConditions (limits_of mutex).seats plain_conditions.items },
    pub ghost plain_paced: { ArePlainPaced mutex.pace plain_conditions.items },
    pub ghost one_kind: { 0 < vec_len plain_conditions → vec_len conditions ≡ 0 },
}

/// Sets the pace of each of these conditions.
fn set_paces(conditions: &mut Vec<Condvar>, pace: Pace)
    ensures paced { ArePaced pace conditions.new.items }
    ensures same { SameButPaces conditions.old.items conditions.new.items }
{
    'setting: for condition in conditions.iter_mut() {
        condition.set_pace(pace);
    }
}

/// The index of the condition with this number among this many, which is one less, or None if there is no such condition.
fn index_among(count: u64, condition: u64) -> Option<usize>
    ensures { MatchOption result (IsMissing count condition) (λ n. (condition ≡ n + 1) × (n < count)) }
{
    if condition == 0 || condition > count {
        return None;
    }
    Some((condition - 1) as usize)
}

impl<O: Object> Monitor<O> {
    ghost use Rattle.std.specs.Prelude.{MatchBool};
    ghost use Rattle.lfm_monitor.specs.Belongs.{OfMonitor, conditions_in, conditions_of, plain_conditions_in, plain_conditions_of};

    /// Sets the pace of the monitor's mutex and of the list of each condition: how often a pass tries before it queues, and
    /// how often a queued pass polls for its grant before it sleeps. For the monitor, a pass tries only in `hold`, in `run`,
    /// and when a wait on a plain condition that was woken alone, or timed out, acquires it again. For a list, it tries in
    /// each wait and wake. A pass that waits to be sent or notified polls before it sleeps only if it waits alone, as `wait`
    /// says.
    ///
    /// The passes of the monitor still belong to it. The pace is set before threads share the monitor.
    pub fn set_pace(&mut self, pace: Pace)
        ensures pace { (self.new.mutex.pace ≡ pace) × ArePaced pace (conditions_in self.new) }
        ensures plain_pace { ArePlainPaced pace (plain_conditions_in self.new) }
        ensures same { (self.new.mutex.table ≡ self.old.mutex.table) × (self.new.mutex.limits ≡ self.old.mutex.limits) × (self.new.opening ≡ self.old.opening) × (self.new.share ≡ self.old.share) × SameButPaces (conditions_in self.old) (conditions_in self.new) }
        ensures plain_same { SamePlainButPaces (plain_conditions_in self.old) (plain_conditions_in self.new) }
        ensures belongs { (p : _) → OfMonitor p self.old → OfMonitor p self.new }
    {
        self.mutex.set_pace(pace);
        set_paces(&mut self.conditions, pace);
        set_plain_paces(&mut self.plain_conditions, pace);
    }

    /// Whether the conditions of the monitor are plain. A monitor without conditions is not.
    pub(crate) fn is_plain(&self) -> bool
        ensures { MatchBool result (0 < plain_conditions_of self.now) (plain_conditions_of self.now ≡ 0) }
    {
        self.plain_conditions.len() > 0
    }

    /// The index of the plain condition with this number, or None if there is no such condition.
    pub(crate) fn plain_index_of(&self, condition: u64) -> Option<usize>
        ensures { MatchOption result (IsMissing (plain_conditions_of self.now) condition) (λ n. (condition ≡ n + 1) × (n < plain_conditions_of self.now)) }
    {
        index_among(self.plain_conditions.len() as u64, condition)
    }

    /// The index of the condition with this number among those that are not plain, or None if there is no such condition.
    pub(crate) fn index_of(&self, condition: u64) -> Option<usize>
        ensures { MatchOption result (IsMissing (conditions_of self.now) condition) (λ n. (condition ≡ n + 1) × (n < conditions_of self.now)) }
    {
        index_among(self.conditions.len() as u64, condition)
    }
}
