//! How all that wait are taken out of the list and notified, the oldest first, in one hold of the inner mutex. Each is
//! notified at once, so no memory is needed for them. The threads that are parked are woken after the hold, since each takes
//! a system call, and a thread that goes on may soon need the list to wait again.
ghost use Rattle.std.specs.Prelude.{◌≡◌, ◌<◌, ◌++◌, [], length, Some};
ghost use Rattle.lfm_mutex.specs.Belongs.{Beside, OfMutex, limits_of, tries_of};
ghost use Rattle.lfm_mutex.specs.calls.Sight.{sight};
ghost use Rattle.lfm_mutex.specs.calls.Woken.{PollsAndWakesAsGranted, WakesNobody};
ghost use Rattle.lfm_plain_condvar.specs.Belongs.{numbers_of, parkers_of, seats_of};
ghost use Rattle.lfm_plain_condvar.specs.Holds.{HeldOnce, IsOf, Rewrites, SeatKept, StepsOfOneHold};
ghost use Rattle.lfm_plain_condvar.specs.Keeping.{TakesFirst};
ghost use Rattle.lfm_plain_condvar.specs.Parked.{Gathers};

use super::leave_list;
use crate::condvar::PlainCondvar;
use crate::parkers::{NoticeLog, ParkedRange, Parkers, Woken};
use crate::waiters::{Waiter, Waiters};
use lfm_mutex::Seat;
use std::sync::Wait;

/// Takes all out of the list, the oldest first, notifies each, and counts them. Those whose threads are parked are added to
/// `parked`.
fn notify_all(
    waiters: &mut Waiters,
    parkers: &Parkers,
    log: &mut NoticeLog,
    parked: &mut ParkedRange,
) -> u64
    requires of { IsOf parkers.now.table.shared.table_id parkers.now.seats waiters.old }
    requires log { log.old.seat.table_id ≡ parkers.now.table.shared.table_id }
    ensures takes { TakesFirst waiters.old.list.items waiters.old waiters.new }
    ensures count { result ≡ length waiters.old.list.items }
    ensures log { log.new.seat.table_id ≡ log.old.seat.table_id }
    ensures notified { log.new.seat.me.0.parkers ≡ log.old.seat.me.0.parkers ++ numbers_of waiters.old.list.items }
    ensures parked { Gathers parked.old parked.new log.old.seat.me.0.parked log.new.seat.me.0.parked }
{
    let woken = Woken::of_each(waiters.waiting());
    let mut count = 0u64;
    'taken: loop {
        match waiters.take_oldest() {
            Some(waiter) => {
                let Waiter { waker, ticket: _ } = waiter;
                parkers.notify_before_wake(waker, woken, log, parked);
                count += 1;
            }
            None => return count,
        }
    }
}

/// `notify_all` with the list that the seat holds.
fn notify_all_in_hand(
    cond: &mut Seat<Waiters>,
    parkers: &Parkers,
    log: &mut NoticeLog,
    parked: &mut ParkedRange,
) -> u64
    requires held { 0 < (sight cond.old).depth }
    requires known { (v : _) → (sight cond.old).value ≡ Some v → IsOf parkers.now.table.shared.table_id parkers.now.seats v }
    requires log { log.old.seat.table_id ≡ parkers.now.table.shared.table_id }
    ensures belongs { Beside cond.old cond.new }
    ensures woken { WakesNobody cond.old cond.new }
    ensures does { (v : _) × (w : _) × Rewrites (sight cond.old) (sight cond.new) v w × TakesFirst v.list.items v w × (result ≡ length v.list.items) × (log.new.seat.me.0.parkers ≡ log.old.seat.me.0.parkers ++ numbers_of v.list.items) }
    ensures log { log.new.seat.table_id ≡ log.old.seat.table_id }
    ensures parked { Gathers parked.old parked.new log.old.seat.me.0.parked log.new.seat.me.0.parked }
{
    let Some(waiters) = cond.value_mut() else {
        unreachable!()
    };
    notify_all(waiters, parkers, log, parked)
}

impl PlainCondvar {
    /// Takes all out of the list and notifies them, in one hold, and then wakes their threads.
    pub(crate) fn notify_all_in_one_hold<R: Wait>(
        &self,
        rt: &R,
        cond: &mut Seat<Waiters>,
        log: &mut NoticeLog,
    ) -> u64
        requires belongs { OfMutex cond.old self.now.inner }
        requires kept { SeatKept (parkers_of self.now) (seats_of self.now) (sight cond.old) }
        requires spare { (sight cond.old).takes < (limits_of self.now.inner).budget }
        requires log { log.old.seat.table_id ≡ parkers_of self.now }
        ensures belongs { Beside cond.old cond.new }
        ensures kept { SeatKept (parkers_of self.now) (seats_of self.now) (sight cond.new) }
        ensures woken { PollsAndWakesAsGranted cond.old cond.new }
        ensures held { (v : _) × (w : _) × HeldOnce (limits_of self.now.inner).budget (sight cond.old) (sight cond.new) v w × TakesFirst v.list.items v w × (result ≡ length v.list.items) × (log.new.seat.me.0.parkers ≡ log.old.seat.me.0.parkers ++ numbers_of v.list.items) }
        ensures log { log.new.seat.table_id ≡ log.old.seat.table_id }
        ensures steps { StepsOfOneHold (limits_of self.now.inner) (tries_of self.now.inner) (sight cond.old) (sight cond.new) }
    {
        let mut parked = ParkedRange::none();
        self.lock_list(rt, cond);
        let count = notify_all_in_hand(cond, &self.parkers, log, &mut parked);
        leave_list(&self.inner, cond);
        self.parkers.wake_parked(parked);
        count
    }
}
