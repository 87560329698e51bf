//! Waits for as long as a condition on the number holds: no wait if it is false at once, one further wait after each wake-up
//! that finds it true, and refusals.
ghost use Rattle.lfm_test_tools.specs.Parts.{OfShared};

use crate::driving::{on_one_condvar, on_two_condvars};
use crate::seeing::sees;
use crate::steps::{By, Step};
use lfm_model::{Asked, How, Refusal, SeatNo, Unlocked};
use lfm_mutex::Holder;
use lfm_test_tools::two_condvars::dealing::shared_in_order;
use lfm_test_tools::two_condvars::parts::{Part, Shared, Side};
use lfm_test_tools::two_condvars::tasks::{Task, perform_all};
use std::sync::Wait;
use std::test::Fail;

/// The seat holds, and the number is 7, so the condition that it is less than 7 is false: the seat holds as before, also in a
/// deeper hold.
fn need_not_wait() -> [(By, Step); 8] {
    [
        (By::First, Step::Ask(Ok(Asked::Held(How::Free)))),
        (By::First, Step::WaitWhileLess(7, Ok(()))),
        (By::First, Step::Depth(1)),
        (By::First, Step::Ask(Ok(Asked::Again(2)))),
        (By::First, Step::WaitWhileLess(7, Ok(()))),
        (By::First, Step::Depth(2)),
        (By::First, Step::Takes(1)),
        (By::First, Step::CondTakes(0)),
    ]
}

#[test]
fn no_wait_if_the_condition_is_false(rt: HostRuntime) -> Result<(), Fail> {
    on_two_condvars(&rt, rt.alloc(), 1, &need_not_wait()).ok_or("condvars")?;
    Ok(())
}

/// No call waits. The condvar is for seat 1 alone, and each seat has two takes. The first seat doesn't hold, and then holds
/// twice; the second sleeps. Then the second holds, and its number is above the condvar's seats. Then the first makes its last
/// take, so that it could not make the one that ends a wait.
fn refused_as_wait() -> [(By, Step); 17] {
    let to_second = Ok(Unlocked::Granted(SeatNo::known(2)));
    [
        (By::First, Step::WaitWhileLess(9, Err(Refusal::NotOwner))),
        (By::First, Step::Ask(Ok(Asked::Held(How::Free)))),
        (By::Second, Step::Ask(Ok(Asked::Asleep))),
        (By::Second, Step::WaitWhileLess(9, Err(Refusal::Asleep))),
        (By::First, Step::Ask(Ok(Asked::Again(2)))),
        (By::First, Step::WaitWhileLess(9, Err(Refusal::Nested))),
        (By::First, Step::Unlock(Ok(Unlocked::Still(1)))),
        (By::First, Step::Unlock(to_second)),
        (By::Second, Step::Receive(Ok(Some(How::Queued(1))))),
        (By::Second, Step::WaitWhileLess(9, Err(Refusal::NoSuchSeat))),
        (By::Second, Step::WaitWhileLess(7, Ok(()))),
        (By::Second, Step::Unlock(Ok(Unlocked::Free))),
        (By::First, Step::Ask(Ok(Asked::Held(How::Free)))),
        (By::First, Step::WaitWhileLess(9, Err(Refusal::Spent))),
        (By::First, Step::Depth(1)),
        (By::First, Step::Unlock(Ok(Unlocked::Free))),
        (By::First, Step::CondTakes(0)),
    ]
}

#[test]
fn wait_while_is_refused_as_wait(rt: HostRuntime) -> Result<(), Fail> {
    on_two_condvars(&rt, rt.alloc(), 2, &refused_as_wait()).ok_or("condvars")?;
    Ok(())
}

/// The first seat begins to wait, and the second sends it past the condvar, so that its place stays in the list.
fn is_sent_past() -> [(By, Step); 7] {
    [
        (By::First, Step::Ask(Ok(Asked::Held(How::Free)))),
        (By::First, Step::BeginWait(Ok(1))),
        (By::Second, Step::SendLock(SeatNo::known(1), Ok(()))),
        (By::First, Step::Receive(Ok(Some(How::Free)))),
        (By::First, Step::WaitWhileLess(9, Err(Refusal::Busy))),
        (By::First, Step::WaitWhileLess(7, Ok(()))),
        (By::First, Step::Depth(1)),
    ]
}

#[test]
fn wait_while_finds_its_place_in_the_list(rt: HostRuntime) -> Result<(), Fail> {
    let numbers = on_one_condvar(&rt, rt.alloc(), 7, &is_sent_past());
    // the wait that was sent past the condvar was added, and is not counted as sent
    sees(&rt, "the numbers", &numbers, &Some((0, 1)));
    Ok(())
}

/// How often the second thread adds 1, in a hold of its own each time.
const ADDS: u64 = 3;

/// Adds 1, wakes the other thread on the second condvar, and waits on the first until the number is one more than all that the
/// other thread adds. Notes the number that it then finds.
fn wait_for_all<R: Wait>(rt: &R, shared: &Shared, mut part: Part) -> Part
    requires { OfShared part shared.now }
    ensures { OfShared result shared.now }
{
    shared.lock(rt, &mut part);
    shared.add_one(&mut part);
    shared.wake_one(rt, &mut part, Side::Second);
    shared.wait_until(rt, &mut part, Side::First, ADDS + 1);
    part.seen.number = part.number();
    shared.unlock(&mut part);
    part
}

/// Adds 1 in each of its holds, once the other thread has begun, and wakes that thread. The wake queues the other thread, so
/// the unlock hands the mutex off to it, and it reads the number after each addition.
fn add_and_wake<R: Wait>(rt: &R, shared: &Shared, mut part: Part) -> Part
    requires { OfShared part shared.now }
    ensures { OfShared result shared.now }
{
    'adds: for _ in 0..ADDS {
        shared.lock(rt, &mut part);
        shared.wait_until(rt, &mut part, Side::Second, 1);
        shared.add_one(&mut part);
        shared.wake_one(rt, &mut part, Side::First);
        shared.unlock(&mut part);
    }
    part
}

/// Seat 1 waits, and the other adds.
struct WaitsOrAdds;

impl<R: Wait> Task<R> for WaitsOrAdds {
    /// What the thread with this part does, by its seat's number.
    fn perform(&self, rt: &R, shared: &Shared, part: Part) -> Part {
        if part.seat.number().get() == 1 {
            wait_for_all(rt, shared, part)
        } else {
            add_and_wake(rt, shared, part)
        }
    }
}

/// The sum of the numbers that the parts noted. One of the two noted none.
fn found(parts: &[Part]) -> u64 {
    let mut found = 0u64;
    for part in parts {
        found = found.wrapping_add(part.seen.number);
    }
    found
}

#[test]
fn waits_end_if_the_condition_is_false(rt: HostRuntime) -> Result<(), Fail> {
    let (shared, parts) = shared_in_order(rt.alloc(), 2).ok_or("parts")?;
    let parts = perform_all(&rt, &shared, parts, &WaitsOrAdds)?;
    sees(&rt, "the number that was found", &found(&parts), &4);
    let left = shared.close(rt.alloc(), parts).ok_or("all are back")?;
    sees(&rt, "the number", &left.number, &4);
    // it waited before each of the three additions
    sees(&rt, "the first condvar's numbers", &left.first, &(3, 3));
    sees(
        &rt,
        "the second condvar's numbers",
        &left.second.0,
        &left.second.1,
    );
    Ok(())
}
