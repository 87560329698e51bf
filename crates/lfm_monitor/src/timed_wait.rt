//! How a pass waits on a plain condition with a time limit.
ghost use Rattle.lfm_monitor.specs.Belongs.{OfMonitor, PassPollsAndWakesAsGranted, PassRunGoesOnFrom, cond_seats_of, mine_of, pass_sight, plain_seats_of, seen_of};
ghost use Rattle.lfm_monitor.specs.Conditions.{WaitReturns};
ghost use Rattle.lfm_monitor.specs.PlainConditions.{ticket_of};
ghost use Rattle.lfm_monitor.specs.PlainSeats.{PlainSeatsWokenAsGranted};
ghost use Rattle.lfm_monitor.specs.Tries.{WaitsWithin};
ghost use Rattle.std.specs.Prelude.{◌≡◌};

use crate::monitor::Monitor;
use crate::pass::Pass;
use crate::write::write_took;
use lfm_model::{How, Object, Refusal};
use lfm_mutex::deadlines::{Deadline, deadline_after};
use lfm_plain_condvar::Waited;
use std::sync::Wait;
use std::time::{Clock, Duration};

impl<O: Object> Monitor<O> {
    /// `wait_for` until the deadline.
    pub(crate) fn wait_within<R: Wait + Clock>(
        &self,
        rt: &R,
        pass: &mut Pass<O>,
        condition: u64,
        deadline: Deadline,
    ) -> Result<(How, Waited), Refusal>
        requires belongs { OfMonitor pass.old self.now }
        ensures belongs { OfMonitor pass.new self.now }
        ensures number { (pass_sight pass.new).number ≡ (pass_sight pass.old).number }
        ensures run { PassRunGoesOnFrom pass.old pass.new }
        ensures woken { PassPollsAndWakesAsGranted pass.old pass.new }
        ensures plain_woken { PlainSeatsWokenAsGranted (plain_seats_of pass.old) (plain_seats_of pass.new) }
        ensures morphing { cond_seats_of pass.new ≡ cond_seats_of pass.old }
        ensures waits { WaitsWithin self.now condition pass.old pass.new result }
        ensures returns { WaitReturns (pass_sight pass.old) (pass_sight pass.new) (seen_of pass.old) (seen_of pass.new) (mine_of pass.old) (mine_of pass.new) (ticket_of result) }
    {
        // These refusals come before that of a missing condition.
        if let Some(refusal) = pass.bars_wait(self.share) {
            return Err(refusal);
        }
        let Some(index) = self.plain_index_of(condition) else {
            return Err(Refusal::NoSuchSeat);
        };
        let length = pass.journal_len();
        let plain = &mut pass.plain_seats[index];
        let (how, waited) = self.plain_conditions[index].wait_within(
            rt,
            plain,
            &self.mutex,
            &mut pass.seat,
            deadline,
        )?;
        write_took(&mut pass.seat, how);
        pass.seen = length;
        pass.mine += 1;
        Ok((how, waited))
    }

    /// `wait` on a plain condition, for at most this time from now. Returns how the pass came to hold again, with Woken if a
    /// wake notified it, or with TimedOut if the time was over before any wake had taken it off the list of the condition.
    /// Either has the ticket of the wait. In both cases the pass holds the monitor again, at depth 1, and its take is written
    /// into the journal. That acquisition has no time limit. If the clock can't be read, the time is over at once.
    ///
    /// Refuses as `wait`, in the same order. But the second Spent applies also if the pass's seat of this condition has only
    /// one take left, and NoSuchSeat also if the conditions of the monitor are not plain.
    ///
    /// It costs the pass what `wait` costs, and its seat of this condition one take, or two if it looked for itself in the
    /// list. It allocates no memory, and sleeps and wakes as `wait`.
    pub fn wait_for<R: Wait + Clock>(
        &self,
        rt: &R,
        pass: &mut Pass<O>,
        condition: u64,
        time: Duration,
    ) -> Result<(How, Waited), Refusal>
        requires belongs { OfMonitor pass.old self.now }
        ensures belongs { OfMonitor pass.new self.now }
        ensures number { (pass_sight pass.new).number ≡ (pass_sight pass.old).number }
        ensures run { PassRunGoesOnFrom pass.old pass.new }
        ensures woken { PassPollsAndWakesAsGranted pass.old pass.new }
        ensures plain_woken { PlainSeatsWokenAsGranted (plain_seats_of pass.old) (plain_seats_of pass.new) }
        ensures morphing { cond_seats_of pass.new ≡ cond_seats_of pass.old }
        ensures waits { WaitsWithin self.now condition pass.old pass.new result }
        ensures returns { WaitReturns (pass_sight pass.old) (pass_sight pass.new) (seen_of pass.old) (seen_of pass.new) (mine_of pass.old) (mine_of pass.new) (ticket_of result) }
    {
        self.wait_within(rt, pass, condition, deadline_after(rt, time))
    }
}
