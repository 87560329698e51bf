//! How a pass waits on a condition: it leaves, sleeps until it is sent, and acquires the monitor again, which is written into
//! the journal.
ghost use Rattle.lfm_monitor.specs.Belongs.{OfMonitor, PassPollsAndWakesAsGranted, PassRunGoesOnFrom, cond_seats_of, mine_of, pass_sight, plain_conditions_of, plain_seats_of, seen_of};
ghost use Rattle.lfm_monitor.specs.CondSeats.{CondsWokenAsGranted};
ghost use Rattle.lfm_monitor.specs.Conditions.{MayWait, WaitRefused, WaitReturns};
ghost use Rattle.lfm_monitor.specs.PlainSeats.{PlainSeatsWokenAsGranted};
ghost use Rattle.lfm_monitor.specs.Tries.{WaitsOn, WaitsOnPlain};
ghost use Rattle.lfm_mutex.specs.Belongs.{budget_of};
ghost use Rattle.lfm_mutex.specs.calls.Sight.{sight};
ghost use Rattle.std.specs.Prelude.{◌≡◌, ◌<◌, MatchOption};

use crate::monitor::Monitor;
use crate::pass::Pass;
use crate::write::write_took;
use lfm_condvar::bars_wait;
use lfm_model::{How, Object, Refusal};
use std::sync::Wait;

impl<O: Object> Pass<O> {
    /// Why the pass can't wait on any condition, if it can't: the refusal of its seat, or Spent if it has no entry left.
    pub(crate) fn bars_wait(&self, share: u64) -> Option<Refusal>
        requires { budget_of self.now.seat ≡ share }
        ensures { MatchOption result (MayWait share (sight self.now.seat) self.now.mine) (λ r. WaitRefused share (sight self.now.seat) self.now.mine r) }
    {
        if let Some(refusal) = bars_wait(&self.seat) {
            return Some(refusal);
        }
        if self.mine >= share {
            return Some(Refusal::Spent);
        }
        None
    }
}

impl<O: Object> Monitor<O> {
    /// Leaves the monitor, which the pass holds at depth 1, and waits on this condition until another pass sends it by a wake.
    /// The pass has then seen the whole journal as it leaves it. It returns how the pass came to hold again, which is written
    /// into the journal as its take, and its ticket: 1 for the first that waited on this condition, and so on.
    ///
    /// Refuses, in this order, before anything is changed: Asleep, NotOwner, Nested (the pass holds above depth 1), Spent (it
    /// has no take or no entry left), NoSuchSeat (there is no such condition) and Spent (the pass's seat of this condition has
    /// no take left). Then Busy: the pass is still in the condition's list, which only a send that bypasses this condition can
    /// cause, and a monitor makes none. That costs the seat of this condition its take, and changes nothing else.
    ///
    /// A wait costs the pass one take and one entry, which is reserved for it while it sleeps, and its seat of this condition
    /// one take. It allocates no memory, and sleeps. If no other pass waits on the condition when this one is added to its
    /// list, and at most one other holds or wants the monitor, it polls before it sleeps, as often as the pace says. Otherwise
    /// it sleeps at once. A wait wakes the pass that it grants the monitor, if any, after it has released the list.
    ///
    /// On a plain condition a wake notifies the pass, which then acquires the monitor again. It queues at once if that wake
    /// notified others too. Otherwise it acquires as in `hold`, first yields, or queues after one try, as `wait` of
    /// `PlainCondvar` says. That call also says when it polls, however many others hold or want the monitor. The wait unlocks
    /// the monitor after it has released the list. The contract has Busy, but it is not reached.
    pub fn wait<R: Wait>(
        &self,
        rt: &R,
        pass: &mut Pass<O>,
        condition: u64,
    ) -> Result<(How, u64), Refusal>
        requires belongs { OfMonitor pass.old self.now }
        ensures belongs { OfMonitor pass.new self.now }
        ensures number { (pass_sight pass.new).number ≡ (pass_sight pass.old).number }
        ensures run { PassRunGoesOnFrom pass.old pass.new }
        ensures woken { PassPollsAndWakesAsGranted pass.old pass.new }
        ensures cond_woken { CondsWokenAsGranted (cond_seats_of pass.old) (cond_seats_of pass.new) }
        ensures plain_woken { PlainSeatsWokenAsGranted (plain_seats_of pass.old) (plain_seats_of pass.new) }
        ensures waits { plain_conditions_of self.now ≡ 0 → WaitsOn self.now condition pass.old pass.new result }
        ensures plain_waits { 0 < plain_conditions_of self.now → WaitsOnPlain self.now condition pass.old pass.new result }
        ensures returns { WaitReturns (pass_sight pass.old) (pass_sight pass.new) (seen_of pass.old) (seen_of pass.new) (mine_of pass.old) (mine_of pass.new) result }
    {
        if self.is_plain() {
            return self.wait_until_notified(rt, pass, condition);
        }
        self.wait_until_sent(rt, pass, condition)
    }

    /// `wait` on a condition that is not plain.
    fn wait_until_sent<R: Wait>(
        &self,
        rt: &R,
        pass: &mut Pass<O>,
        condition: u64,
    ) -> Result<(How, u64), Refusal>
        requires belongs { OfMonitor pass.old self.now }
        ensures belongs { OfMonitor pass.new self.now }
        ensures number { (pass_sight pass.new).number ≡ (pass_sight pass.old).number }
        ensures run { PassRunGoesOnFrom pass.old pass.new }
        ensures woken { PassPollsAndWakesAsGranted pass.old pass.new }
        ensures cond_woken { CondsWokenAsGranted (cond_seats_of pass.old) (cond_seats_of pass.new) }
        ensures plain { plain_seats_of pass.new ≡ plain_seats_of pass.old }
        ensures waits { WaitsOn self.now condition pass.old pass.new result }
        ensures returns { WaitReturns (pass_sight pass.old) (pass_sight pass.new) (seen_of pass.old) (seen_of pass.new) (mine_of pass.old) (mine_of pass.new) result }
    {
        // The condvar's wait checks the seat too. It is checked here because these refusals come before that of a missing
        // condition.
        if let Some(refusal) = pass.bars_wait(self.share) {
            return Err(refusal);
        }
        let Some(index) = self.index_of(condition) else {
            return Err(Refusal::NoSuchSeat);
        };
        let length = pass.journal_len();
        let cond = &mut pass.cond_seats[index];
        let (how, ticket) = self.conditions[index].wait(rt, cond, &self.mutex, &mut pass.seat)?;
        write_took(&mut pass.seat, how);
        pass.seen = length;
        pass.mine += 1;
        Ok((how, ticket))
    }
}
