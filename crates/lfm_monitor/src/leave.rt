//! `leave`: a pass that holds gives up one hold.
ghost use Rattle.lfm_protocol.specs.declared.answers.Answer.TheVariants as Answered;
ghost use Rattle.lfm_protocol.specs.declared.answers.Call.{Call};
ghost use Rattle.lfm_mutex.specs.calls.Trails.{MakesAtMost};
ghost use Rattle.lfm_monitor.specs.Belongs.{OfMonitor, PassRunGoesOnFrom, PassWokenAsGranted, SameCondSeats, mine_of, mutex_limits, pass_sight, passes_of, seen_of};
ghost use Rattle.lfm_monitor.specs.Passes.{LeaveEnds};
ghost use Rattle.lfm_monitor.specs.Steps.{BySteps};
ghost use Rattle.std.specs.Prelude.{◌≡◌, ◌+◌};

use crate::monitor::Monitor;
use crate::pass::Pass;
use lfm_model::{Object, Refusal, Unlocked};

impl<O: Object> Monitor<O> {
    /// Gives up one hold, and at depth 1 the monitor, as `unlock` of the mutex. A pass that gives up the monitor has seen the
    /// whole journal as it leaves it.
    ///
    /// Refuses, in this order: Asleep, NotOwner. It never waits, allocates no memory, and wakes the pass that it grants the
    /// monitor, if any. The number of its atomic steps is at most 7 more than the number of the monitor's passes, whatever
    /// other passes do.
    pub fn leave(&self, pass: &mut Pass<O>) -> Result<Unlocked, Refusal>
        requires belongs { OfMonitor pass.old self.now }
        ensures belongs { OfMonitor pass.new self.now }
        ensures number { (pass_sight pass.new).number ≡ (pass_sight pass.old).number }
        ensures run { PassRunGoesOnFrom pass.old pass.new }
        ensures woken { PassWokenAsGranted pass.old pass.new }
        ensures leaves { LeaveEnds (pass_sight pass.old) (pass_sight pass.new) (seen_of pass.old) (seen_of pass.new) result }
        ensures mine { mine_of pass.new ≡ mine_of pass.old }
        ensures conditions { SameCondSeats pass.old pass.new }
        ensures steps { BySteps (mutex_limits self.now) (λ x. Answered.Unlocked x) Call.Unlock (pass_sight pass.old) (pass_sight pass.new) result }
        ensures bounded { MakesAtMost (passes_of self.now + 7) (pass_sight pass.old) (pass_sight pass.new) }
    {
        let length = pass.journal_len();
        let unlocked = self.mutex.unlock(&mut pass.seat)?;
        match unlocked {
            Unlocked::Still(depth) => return Ok(Unlocked::Still(depth)),
            Unlocked::Free | Unlocked::Granted(_) | Unlocked::Posted | Unlocked::TakenOver => {}
        }
        pass.seen = length;
        Ok(unlocked)
    }
}
