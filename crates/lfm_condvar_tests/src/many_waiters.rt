//! A wake of all: 32 threads wait on one condvar, and each is woken once, in the order of the tickets.
ghost use Rattle.lfm_test_tools.specs.Parts.{OfShared};

use crate::seeing::sees;
use lfm_test_tools::two_condvars::dealing::{Left, shared_in_order};
use lfm_test_tools::two_condvars::parts::{Part, Shared, Side};
use lfm_test_tools::two_condvars::tasks::{Task, perform_all};
use std::process::Abort;
use std::sync::Wait;
use std::test::Fail;

const WAITERS: u64 = 32;

/// Adds 1 to the number, and wakes the thread of seat 1 on the second condvar if all have done so.
fn come<R: Wait>(rt: &R, shared: &Shared, part: &mut Part)
    requires { OfShared part.old shared.now }
    ensures { OfShared part.new shared.now }
{
    if shared.add_one(part) < WAITERS {
        return;
    }
    shared.wake_one(rt, part, Side::Second);
}

/// Comes and waits on the first condvar, in one hold. Once woken, adds 1 to the number again.
fn wait_once<R: Wait>(rt: &R, shared: &Shared, mut part: Part) -> Part
    requires { OfShared part shared.now }
    ensures { OfShared result shared.now }
{
    shared.lock(rt, &mut part);
    come(rt, shared, &mut part);
    shared.wait(rt, &mut part, Side::First);
    part.seen.number = shared.add_one(&mut part);
    shared.unlock(&mut part);
    part
}

/// Waits on the second condvar until all have come. Only the last that comes wakes it, so one wait is enough.
fn wait_for_all<R: Wait>(rt: &R, shared: &Shared, part: &mut Part)
    requires { OfShared part.old shared.now }
    ensures { OfShared part.new shared.now }
{
    if part.number() >= WAITERS {
        return;
    }
    shared.wait(rt, part, Side::Second);
}

/// Once all have come, wakes all of them while it holds the mutex. Then it wakes again, when no thread waits.
fn wake_twice<R: Wait>(rt: &R, shared: &Shared, mut part: Part) -> Part
    requires { OfShared part shared.now }
    ensures { OfShared result shared.now }
{
    shared.lock(rt, &mut part);
    wait_for_all(rt, shared, &mut part);
    let woken = shared.wake_all(rt, &mut part);
    let again = shared.wake_all(rt, &mut part);
    part.seen.wakes = woken.ok().zip(again.ok());
    shared.unlock(&mut part);
    part
}

/// Seat 1 wakes, and the others wait.
struct WakesOrWaits;

impl<R: Wait> Task<R> for WakesOrWaits {
    /// What the thread with this part does, by its seat's number.
    fn perform(&self, rt: &R, shared: &Shared, part: Part) -> Part {
        if part.seat.number().get() == 1 {
            wake_twice(rt, shared, part)
        } else {
            wait_once(rt, shared, part)
        }
    }
}

/// How many parts had this ticket, and found the number as all with smaller tickets left it.
fn times(parts: &[Part], ticket: u64) -> u64 {
    let mut times = 0u64;
    for part in parts {
        let in_turn = part.seen.number == WAITERS.wrapping_add(ticket);
        if part.seen.ticket == ticket && in_turn {
            times = times.wrapping_add(1);
        }
    }
    times
}

/// How many threads each of the two wakes of seat 1 woke.
fn wakes(parts: &[Part]) -> Option<(u64, u64)> {
    for part in parts {
        if let Some(wakes) = part.seen.wakes {
            return Some(wakes);
        }
    }
    None
}

/// The first wake woke all, the second woke none, and each ticket was that of one part, in order.
fn each_was_woken_once<R: Abort>(rt: &R, parts: &[Part]) {
    sees(rt, "the wakes", &wakes(parts), &Some((WAITERS, 0)));
    for ticket in 1..=WAITERS {
        assert_eq!(*rt; times(parts, ticket), 1, "ticket {ticket}");
    }
}

/// Each waiter added to the number twice, and each condvar sent as many as it had added.
fn all_were_sent<R: Abort>(rt: &R, left: &Left) {
    sees(rt, "the number", &left.number, &(2 * WAITERS));
    sees(
        rt,
        "the first condvar's numbers",
        &left.first,
        &(WAITERS, WAITERS),
    );
    sees(
        rt,
        "the second condvar's numbers",
        &left.second.0,
        &left.second.1,
    );
}

#[test]
fn all_who_wait_are_woken_once(rt: HostRuntime) -> Result<(), Fail> {
    let (shared, parts) = shared_in_order(rt.alloc(), WAITERS + 1).ok_or("parts")?;
    let parts = perform_all(&rt, &shared, parts, &WakesOrWaits)?;
    each_was_woken_once(&rt, &parts);
    let left = shared.close(rt.alloc(), parts).ok_or("all are back")?;
    all_were_sent(&rt, &left);
    Ok(())
}
