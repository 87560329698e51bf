//! How a pass wakes those that wait on a plain condition.
ghost use Rattle.lfm_monitor.specs.Belongs.{OfMonitor, cond_seats_of, mine_of, pass_sight, passes_of, plain_conditions_of, plain_seats_of, seen_of, tries_in};
ghost use Rattle.lfm_monitor.specs.CondSeats.{condition_limits};
ghost use Rattle.lfm_monitor.specs.PlainConditions.{PlainWakeAllEnds, PlainWakeOneEnds};
ghost use Rattle.lfm_monitor.specs.PlainSeats.{PlainSeatsWokenAsGranted};
ghost use Rattle.std.specs.Prelude.{◌≡◌};

use crate::monitor::Monitor;
use crate::pass::Pass;
use lfm_model::{Object, Refusal, SeatNo};
use std::sync::Wait;

impl<O: Object> Monitor<O> {
    /// `wake_one` of a plain condition.
    pub(crate) fn notify_one<R: Wait>(
        &self,
        rt: &R,
        pass: &mut Pass<O>,
        condition: u64,
    ) -> Result<Option<(SeatNo, u64)>, Refusal>
        requires belongs { OfMonitor pass.old self.now }
        ensures belongs { OfMonitor pass.new self.now }
        ensures same { pass.new.seat ≡ pass.old.seat }
        ensures plain_woken { PlainSeatsWokenAsGranted (plain_seats_of pass.old) (plain_seats_of pass.new) }
        ensures morphing { cond_seats_of pass.new ≡ cond_seats_of pass.old }
        ensures wakes { PlainWakeOneEnds (condition_limits (passes_of self.now)) (tries_in self.now) (plain_conditions_of self.now) condition (plain_seats_of pass.old) (plain_seats_of pass.new) (pass_sight pass.old) (pass_sight pass.new) result }
        ensures others { (seen_of pass.new ≡ seen_of pass.old) × (mine_of pass.new ≡ mine_of pass.old) }
    {
        if pass.seat.asleep() {
            return Err(Refusal::Asleep);
        }
        let Some(index) = self.plain_index_of(condition) else {
            return Err(Refusal::NoSuchSeat);
        };
        let plain = &mut pass.plain_seats[index];
        self.plain_conditions[index].wake_one_with_number(rt, plain)
    }

    /// `wake_all` of a plain condition.
    pub(crate) fn notify_all<R: Wait>(
        &self,
        rt: &R,
        pass: &mut Pass<O>,
        condition: u64,
    ) -> Result<u64, Refusal>
        requires belongs { OfMonitor pass.old self.now }
        ensures belongs { OfMonitor pass.new self.now }
        ensures same { pass.new.seat ≡ pass.old.seat }
        ensures plain_woken { PlainSeatsWokenAsGranted (plain_seats_of pass.old) (plain_seats_of pass.new) }
        ensures morphing { cond_seats_of pass.new ≡ cond_seats_of pass.old }
        ensures wakes { PlainWakeAllEnds (condition_limits (passes_of self.now)) (tries_in self.now) (plain_conditions_of self.now) condition (plain_seats_of pass.old) (plain_seats_of pass.new) (pass_sight pass.old) (pass_sight pass.new) result }
        ensures others { (seen_of pass.new ≡ seen_of pass.old) × (mine_of pass.new ≡ mine_of pass.old) }
    {
        if pass.seat.asleep() {
            return Err(Refusal::Asleep);
        }
        let Some(index) = self.plain_index_of(condition) else {
            return Err(Refusal::NoSuchSeat);
        };
        let plain = &mut pass.plain_seats[index];
        self.plain_conditions[index].wake_all(rt, plain)
    }
}
