//! `hold`: a critical section is executed in its own hold, which ends whatever the section returns.
ghost use Rattle.lfm_model.specs.declared.refusals.Refusal.{Refusal};
ghost use Rattle.lfm_monitor.specs.declared.pass.Pass.{Pass};
ghost use Rattle.lfm_monitor.specs.Belongs.{OfMonitor, mutex_limits, pass_sight};
ghost use Rattle.lfm_monitor.specs.Sections.{GivesUpTo, HoldEnds};
ghost use Rattle.lfm_monitor.specs.Steps.{ByUnlocks};
ghost use Rattle.std.specs.Prelude.{◌≤◌, ℕ, Result};

use crate::enter::Locking;
use crate::monitor::Monitor;
use crate::pass::Pass;
use lfm_model::{Object, Refusal};
use std::sync::Wait;

/// A critical section: what a thread does with its pass while the pass holds the monitor.
///
/// ```
/// // adds the number of the round to a total, and returns the total
/// struct AddRound;
///
/// impl<R: Wait> CriticalSection<Total, R> for AddRound {
///     type Answer = u64;
///
///     fn execute(&self, _: &R, monitor: &Monitor<Total>, pass: &mut Pass<Total>, round: u64) -> Result<u64, Refusal> {
///         monitor.apply(pass, TotalOp::Add(round))
///     }
/// }
/// ```
pub trait CriticalSection<O: Object, R: Wait>: Sync {
    /// What the section returns.
    type Answer;

    /// How the section may change its pass in the round with this number, and what it then returns. `hold` and `run` guarantee
    /// this to their callers.
    ghost makes: { Self → ℕ → {K : _} → Pass O O.Op O.Reply K → Pass O O.Op O.Reply K → Result Self.Answer Refusal → Type 0 } = { λ _ _ _ _ _. Unit {0} };

    /// Executes the section once, with the number of the round. The pass must still belong to the monitor afterwards.
    fn execute(
        &self,
        rt: &R,
        monitor: &Monitor<O>,
        pass: &mut Pass<O>,
        round: u64,
    ) -> Result<Self::Answer, Refusal>
        requires { OfMonitor pass.old monitor.now }
        ensures belongs { OfMonitor pass.new monitor.now }
        ensures makes { makes self.now round pass.old pass.new result };
}

impl<O: Object> Monitor<O> {
    /// Gives up each hold of the pass above this depth.
    fn leave_down_to(&self, pass: &mut Pass<O>, depth: u32)
        requires belongs { OfMonitor pass.old self.now }
        ensures belongs { OfMonitor pass.new self.now }
        ensures leaves { GivesUpTo depth pass.old pass.new }
        ensures steps { (n : ℕ) × ByUnlocks (mutex_limits self.now) n (pass_sight pass.old) (pass_sight pass.new) }
    {
        'holds: while pass.depth() > depth {
            match self.leave(pass) {
                Ok(_) => {}
                Err(_) => unreachable!(),
            }
        }
    }

    /// Enters, executes the section, leaves, and returns what the section returned, even if that is a refusal. `round` is only
    /// passed on to the section. Holds that the section began and did not give up are given up, so that the pass holds no more
    /// than before.
    ///
    /// It enters with the results and refusals of `enter`. But a pass that doesn't hold tries before it queues, as
    /// `lock_barging` of the mutex does: at most once for each spin and each nap of the monitor's pace. So it may acquire the
    /// monitor before passes that came earlier and still try. If no try succeeds, it queues, and no pass that queues later is
    /// served before it. `enter` queues without a try.
    ///
    /// Refuses as `enter`: Asleep, DepthFull, Spent, in this order. The section is then not executed and nothing has changed.
    /// It may nap, and sleeps as `enter` does. It wakes the passes that `enter` and `leave` wake, and allocates no memory.
    pub fn hold<R: Wait, S: CriticalSection<O, R>>(
        &self,
        rt: &R,
        pass: &mut Pass<O>,
        round: u64,
        section: &S,
    ) -> Result<S::Answer, Refusal>
        requires belongs { OfMonitor pass.old self.now }
        ensures belongs { OfMonitor pass.new self.now }
        ensures no_more { (pass_sight pass.new).depth ≤ (pass_sight pass.old).depth }
        ensures holds { HoldEnds self.now (λ p q r. S.makes section.now round p q r) pass.old pass.new result }
    {
        let depth = pass.depth();
        let _locked = self.enter_by(rt, pass, Locking::Barging)?;
        let answer = section.execute(rt, self, pass, round);
        self.leave_down_to(pass, depth);
        answer
    }
}
