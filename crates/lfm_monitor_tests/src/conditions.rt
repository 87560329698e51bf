//! Waits and wakes that a monitor refuses, each for the first of its causes, and what its calls answer if no pass waits.
use crate::driving::{one_makes, two_make};
use crate::steps::{By, Step};
use lfm_model::{Asked, How, Locked, Refusal, SeatNo, TotalOp, Unlocked};
use std::test::Fail;

/// No pass waits, and the first doesn't hold; then it holds once and twice. The second sleeps, and is refused everything except
/// a receive. Of these calls only the first take of the first pass has written an entry. Then the first pass leaves both holds,
/// which hands the monitor off to the second, and the second leaves.
fn refused_and_left() -> [(By, Step); 24] {
    let to_second = Ok(Unlocked::Granted(SeatNo::known(2)));
    [
        (By::First, Step::WakeAll(1, Ok(0))),
        (By::First, Step::WakeOne(1, Ok(None))),
        (By::First, Step::WakeOne(2, Err(Refusal::NoSuchSeat))),
        (By::First, Step::Wait(1, Err(Refusal::NotOwner))),
        (By::First, Step::Enter(Ok(Locked::Held(How::Free)))),
        (By::First, Step::Wait(2, Err(Refusal::NoSuchSeat))),
        (By::First, Step::Wait(0, Err(Refusal::NoSuchSeat))),
        (By::First, Step::Enter(Ok(Locked::Again(2)))),
        (By::First, Step::Wait(1, Err(Refusal::Nested))),
        (By::Second, Step::Ask(Ok(Asked::Asleep))),
        (By::Second, Step::Enter(Err(Refusal::Asleep))),
        (By::Second, Step::Wait(2, Err(Refusal::Asleep))),
        (By::Second, Step::WakeOne(2, Err(Refusal::Asleep))),
        (By::Second, Step::WakeAll(2, Err(Refusal::Asleep))),
        (By::First, Step::Mine(1)),
        (By::Second, Step::Mine(0)),
        (By::First, Step::Depth(2)),
        (By::Second, Step::Depth(0)),
        (By::First, Step::Leave(Ok(Unlocked::Still(1)))),
        (By::First, Step::Leave(to_second)),
        (By::Second, Step::TryReceive(Ok(Some(How::Queued(1))))),
        (By::Second, Step::Leave(Ok(Unlocked::Free))),
        (By::First, Step::Seen(1)),
        (By::Second, Step::Seen(2)),
    ]
}

#[test]
fn conditions(rt: HostRuntime) -> Result<(), Fail> {
    two_make(&rt, rt.alloc(), 8, 1, &refused_and_left())
}

/// The pass uses up its two entries while it holds. Then the take that ends a wait could not be written. A wait on condition 7
/// is refused for that too, although there is no such condition. The pass wakes no other, leaves, and may not hold again.
const SPENT: [Step; 9] = [
    Step::Enter(Ok(Locked::Held(How::Free))),
    Step::Apply(TotalOp::Add(1), Ok(1)),
    Step::Wait(1, Err(Refusal::Spent)),
    Step::Wait(7, Err(Refusal::Spent)),
    Step::WakeAll(1, Ok(0)),
    Step::Leave(Ok(Unlocked::Free)),
    Step::Enter(Err(Refusal::Spent)),
    Step::Wait(1, Err(Refusal::NotOwner)),
    Step::Mine(2),
];

#[test]
fn a_pass_without_an_entry_may_not_wait(rt: HostRuntime) -> Result<(), Fail> {
    one_makes(&rt, rt.alloc(), 2, 1, &SPENT)?;
    Ok(())
}
