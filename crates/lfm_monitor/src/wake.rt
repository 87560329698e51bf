//! How a pass wakes those that wait on a condition.
ghost use Rattle.lfm_condvar.specs.Wakes.{SendsBy};
ghost use Rattle.lfm_monitor.specs.Belongs.{OfMonitor, PassRunGoesOnFrom, PassWokenAsGranted, cond_seats_of, conditions_of, mine_of, mutex_limits, pass_sight, passes_of, plain_conditions_of, plain_seats_of, seen_of, tries_in};
ghost use Rattle.lfm_monitor.specs.CondSeats.{CondsWokenAsGranted, condition_limits};
ghost use Rattle.lfm_monitor.specs.Conditions.{OnlySends, WakeAllEnds, WakeOneEnds};
ghost use Rattle.lfm_monitor.specs.PlainConditions.{PlainWakeAllEnds, PlainWakeOneEnds};
ghost use Rattle.lfm_monitor.specs.PlainSeats.{PlainSeatsWokenAsGranted};
ghost use Rattle.std.specs.Prelude.{◌≡◌, ◌<◌};

use crate::monitor::Monitor;
use crate::pass::Pass;
use lfm_model::{Object, Refusal, SeatNo};
use std::sync::Wait;

impl<O: Object> Monitor<O> {
    /// Sends the pass that has waited longest on this condition, and returns it with its ticket, or None if no pass waits. The
    /// caller need not hold the monitor.
    ///
    /// Refuses, in this order, before anything is changed: Asleep, NoSuchSeat (there is no such condition) and Spent (the
    /// pass's seat of this condition has no take left). Then NotWaiting: the oldest doesn't wait to be sent, which only a send
    /// that bypasses this condition can cause, and a monitor makes none. It stays in the list, and the pass's seat of this
    /// condition is charged its take.
    ///
    /// A wake costs the pass's seat of this condition one take, and allocates no memory. It may sleep until it has the
    /// condition's list, and wakes the pass that it grants the monitor, if any, after it has released the list.
    ///
    /// On a plain condition it notifies that pass and sends nobody, and is never refused as NotWaiting.
    pub fn wake_one<R: Wait>(
        &self,
        rt: &R,
        pass: &mut Pass<O>,
        condition: u64,
    ) -> Result<Option<(SeatNo, u64)>, Refusal>
        requires belongs { OfMonitor pass.old self.now }
        ensures belongs { OfMonitor pass.new self.now }
        ensures number { (pass_sight pass.new).number ≡ (pass_sight pass.old).number }
        ensures run { PassRunGoesOnFrom pass.old pass.new }
        ensures woken { PassWokenAsGranted pass.old pass.new }
        ensures cond_woken { CondsWokenAsGranted (cond_seats_of pass.old) (cond_seats_of pass.new) }
        ensures plain_woken { PlainSeatsWokenAsGranted (plain_seats_of pass.old) (plain_seats_of pass.new) }
        ensures wakes { plain_conditions_of self.now ≡ 0 → WakeOneEnds (passes_of self.now) (condition_limits (passes_of self.now)) (tries_in self.now) (conditions_of self.now) condition (cond_seats_of pass.old) (cond_seats_of pass.new) (pass_sight pass.old) (pass_sight pass.new) result }
        ensures plain_wakes { 0 < plain_conditions_of self.now → PlainWakeOneEnds (condition_limits (passes_of self.now)) (tries_in self.now) (plain_conditions_of self.now) condition (plain_seats_of pass.old) (plain_seats_of pass.new) (pass_sight pass.old) (pass_sight pass.new) result }
        ensures sends { OnlySends (pass_sight pass.old) (pass_sight pass.new) }
        ensures steps { SendsBy (mutex_limits self.now) (pass_sight pass.old) (pass_sight pass.new) result }
        ensures same { (seen_of pass.new ≡ seen_of pass.old) × (mine_of pass.new ≡ mine_of pass.old) }
    {
        if self.is_plain() {
            return self.notify_one(rt, pass, condition);
        }
        self.send_one(rt, pass, condition)
    }

    /// `wake_one` of a condition that is not plain.
    fn send_one<R: Wait>(
        &self,
        rt: &R,
        pass: &mut Pass<O>,
        condition: u64,
    ) -> Result<Option<(SeatNo, u64)>, Refusal>
        requires belongs { OfMonitor pass.old self.now }
        ensures belongs { OfMonitor pass.new self.now }
        ensures number { (pass_sight pass.new).number ≡ (pass_sight pass.old).number }
        ensures run { PassRunGoesOnFrom pass.old pass.new }
        ensures woken { PassWokenAsGranted pass.old pass.new }
        ensures cond_woken { CondsWokenAsGranted (cond_seats_of pass.old) (cond_seats_of pass.new) }
        ensures plain { plain_seats_of pass.new ≡ plain_seats_of pass.old }
        ensures wakes { WakeOneEnds (passes_of self.now) (condition_limits (passes_of self.now)) (tries_in self.now) (conditions_of self.now) condition (cond_seats_of pass.old) (cond_seats_of pass.new) (pass_sight pass.old) (pass_sight pass.new) result }
        ensures sends { OnlySends (pass_sight pass.old) (pass_sight pass.new) }
        ensures steps { SendsBy (mutex_limits self.now) (pass_sight pass.old) (pass_sight pass.new) result }
        ensures same { (seen_of pass.new ≡ seen_of pass.old) × (mine_of pass.new ≡ mine_of pass.old) }
    {
        // The condvar's wake makes this check too. It is made here because Asleep comes before the refusal of a missing
        // condition.
        if pass.seat.asleep() {
            return Err(Refusal::Asleep);
        }
        let Some(index) = self.index_of(condition) else {
            return Err(Refusal::NoSuchSeat);
        };
        let cond = &mut pass.cond_seats[index];
        self.conditions[index].wake_one(rt, cond, &self.mutex, &mut pass.seat)
    }

    /// Sends all that wait on this condition, the one that has waited longest first, and returns how many were sent. The caller
    /// need not hold the monitor.
    ///
    /// Refuses as `wake_one`: Asleep, NoSuchSeat and Spent before anything is changed. NotWaiting leaves that pass and those
    /// behind it in the list; the earlier ones were sent.
    ///
    /// It costs the pass's seat of this condition one take, however many are sent, and allocates no memory. It may sleep until
    /// it has the condition's list, and wakes the passes that it grants the monitor, if any. The last of these is woken after
    /// the list is released.
    ///
    /// On plain conditions it notifies them and sends nobody, while it has the list, and wakes their threads after it has
    /// released the list. It is never refused as NotWaiting.
    pub fn wake_all<R: Wait>(
        &self,
        rt: &R,
        pass: &mut Pass<O>,
        condition: u64,
    ) -> Result<u64, Refusal>
        requires belongs { OfMonitor pass.old self.now }
        ensures belongs { OfMonitor pass.new self.now }
        ensures number { (pass_sight pass.new).number ≡ (pass_sight pass.old).number }
        ensures run { PassRunGoesOnFrom pass.old pass.new }
        ensures woken { PassWokenAsGranted pass.old pass.new }
        ensures cond_woken { CondsWokenAsGranted (cond_seats_of pass.old) (cond_seats_of pass.new) }
        ensures plain_woken { PlainSeatsWokenAsGranted (plain_seats_of pass.old) (plain_seats_of pass.new) }
        ensures wakes { plain_conditions_of self.now ≡ 0 → WakeAllEnds (passes_of self.now) (condition_limits (passes_of self.now)) (tries_in self.now) (conditions_of self.now) condition (cond_seats_of pass.old) (cond_seats_of pass.new) (pass_sight pass.old) (pass_sight pass.new) result }
        ensures plain_wakes { 0 < plain_conditions_of self.now → PlainWakeAllEnds (condition_limits (passes_of self.now)) (tries_in self.now) (plain_conditions_of self.now) condition (plain_seats_of pass.old) (plain_seats_of pass.new) (pass_sight pass.old) (pass_sight pass.new) result }
        ensures sends { OnlySends (pass_sight pass.old) (pass_sight pass.new) }
        ensures steps { SendsBy (mutex_limits self.now) (pass_sight pass.old) (pass_sight pass.new) result }
        ensures same { (seen_of pass.new ≡ seen_of pass.old) × (mine_of pass.new ≡ mine_of pass.old) }
    {
        if self.is_plain() {
            return self.notify_all(rt, pass, condition);
        }
        self.send_all(rt, pass, condition)
    }

    /// `wake_all` of a condition that is not plain.
    fn send_all<R: Wait>(&self, rt: &R, pass: &mut Pass<O>, condition: u64) -> Result<u64, Refusal>
        requires belongs { OfMonitor pass.old self.now }
        ensures belongs { OfMonitor pass.new self.now }
        ensures number { (pass_sight pass.new).number ≡ (pass_sight pass.old).number }
        ensures run { PassRunGoesOnFrom pass.old pass.new }
        ensures woken { PassWokenAsGranted pass.old pass.new }
        ensures cond_woken { CondsWokenAsGranted (cond_seats_of pass.old) (cond_seats_of pass.new) }
        ensures plain { plain_seats_of pass.new ≡ plain_seats_of pass.old }
        ensures wakes { WakeAllEnds (passes_of self.now) (condition_limits (passes_of self.now)) (tries_in self.now) (conditions_of self.now) condition (cond_seats_of pass.old) (cond_seats_of pass.new) (pass_sight pass.old) (pass_sight pass.new) result }
        ensures sends { OnlySends (pass_sight pass.old) (pass_sight pass.new) }
        ensures steps { SendsBy (mutex_limits self.now) (pass_sight pass.old) (pass_sight pass.new) result }
        ensures same { (seen_of pass.new ≡ seen_of pass.old) × (mine_of pass.new ≡ mine_of pass.old) }
    {
        // The condvar's wake makes this check too. It is made here because Asleep comes before the refusal of a missing
        // condition.
        if pass.seat.asleep() {
            return Err(Refusal::Asleep);
        }
        let Some(index) = self.index_of(condition) else {
            return Err(Refusal::NoSuchSeat);
        };
        let cond = &mut pass.cond_seats[index];
        self.conditions[index].wake_all(rt, cond, &self.mutex, &mut pass.seat)
    }
}
