//! How a pass waits on a plain condition.
ghost use Rattle.lfm_monitor.specs.Belongs.{OfMonitor, PassPollsAndWakesAsGranted, PassRunGoesOnFrom, cond_seats_of, mine_of, pass_sight, plain_seats_of, seen_of};
ghost use Rattle.lfm_monitor.specs.Conditions.{WaitReturns};
ghost use Rattle.lfm_monitor.specs.PlainSeats.{PlainSeatsWokenAsGranted};
ghost use Rattle.lfm_monitor.specs.Tries.{WaitsOnPlain};
ghost use Rattle.std.specs.Prelude.{◌≡◌};

use crate::monitor::Monitor;
use crate::pass::Pass;
use crate::write::write_took;
use lfm_model::{How, Object, Refusal};
use std::sync::Wait;

impl<O: Object> Monitor<O> {
    /// `wait` on a plain condition.
    pub(crate) fn wait_until_notified<R: Wait>(
        &self,
        rt: &R,
        pass: &mut Pass<O>,
        condition: u64,
    ) -> Result<(How, u64), Refusal>
        requires belongs { OfMonitor pass.old self.now }
        ensures belongs { OfMonitor pass.new self.now }
        ensures number { (pass_sight pass.new).number ≡ (pass_sight pass.old).number }
        ensures run { PassRunGoesOnFrom pass.old pass.new }
        ensures woken { PassPollsAndWakesAsGranted pass.old pass.new }
        ensures plain_woken { PlainSeatsWokenAsGranted (plain_seats_of pass.old) (plain_seats_of pass.new) }
        ensures morphing { cond_seats_of pass.new ≡ cond_seats_of pass.old }
        ensures waits { WaitsOnPlain self.now condition pass.old pass.new result }
        ensures returns { WaitReturns (pass_sight pass.old) (pass_sight pass.new) (seen_of pass.old) (seen_of pass.new) (mine_of pass.old) (mine_of pass.new) result }
    {
        // The condvar's wait checks the seat too. It is checked here because these refusals come before that of a missing
        // condition.
        if let Some(refusal) = pass.bars_wait(self.share) {
            return Err(refusal);
        }
        let Some(index) = self.plain_index_of(condition) else {
            return Err(Refusal::NoSuchSeat);
        };
        let length = pass.journal_len();
        let plain = &mut pass.plain_seats[index];
        let (how, ticket) = self.plain_conditions[index].wait_with_how(
            rt,
            plain,
            &self.mutex,
            &mut pass.seat,
        )?;
        write_took(&mut pass.seat, how);
        pass.seen = length;
        pass.mine += 1;
        Ok((how, ticket))
    }
}
