//! Calls that a condvar refuses, each for the first of its causes. After a refusal the readers answer as before, and no
//! ticket was given. Each seat has two takes. The cond seat of the one condvar has one take, and that of the other none after
//! its first wake. Both condvars are for user seat 1 alone.

use crate::driving::on_two_condvars;
use crate::seeing::sees;
use crate::steps::{By, Step};
use lfm_model::{Asked, How, Refusal, SeatNo, Unlocked};
use std::test::Fail;

/// The other cond seat uses its one take in a wake that finds no waiter, and then has none left. The first seat doesn't hold,
/// and then holds; the second falls asleep, and its calls are refused for that, with either cond seat. The first seat holds
/// once and then twice, and hands the mutex off to the second, whose number is above the condvars' seats. Then each seat makes
/// its last take, and could not make the one that ends a wait.
fn refused_in_order() -> [(By, Step); 27] {
    [
        (By::FirstOnOther, Step::WakeOne(Ok(None))),
        (By::FirstOnOther, Step::Wake(Refusal::Spent)),
        (By::First, Step::Wait(Refusal::NotOwner)),
        // not Spent: that the seat doesn't hold is checked first
        (By::FirstOnOther, Step::Wait(Refusal::NotOwner)),
        (By::First, Step::Ask(Ok(Asked::Held(How::Free)))),
        (By::Second, Step::Ask(Ok(Asked::Asleep))),
        (By::Second, Step::Wait(Refusal::Asleep)),
        (By::SecondOnOther, Step::Wait(Refusal::Asleep)),
        (By::Second, Step::Wake(Refusal::Asleep)),
        (By::SecondOnOther, Step::Wake(Refusal::Asleep)),
        (By::FirstOnOther, Step::Wait(Refusal::Spent)),
        (By::First, Step::Ask(Ok(Asked::Again(2)))),
        (By::First, Step::Wait(Refusal::Nested)),
        (By::FirstOnOther, Step::Wait(Refusal::Nested)),
        (By::First, Step::Unlock(Ok(Unlocked::Still(1)))),
        (
            By::First,
            Step::Unlock(Ok(Unlocked::Granted(SeatNo::known(2)))),
        ),
        (By::Second, Step::Receive(Ok(Some(How::Queued(1))))),
        (By::Second, Step::Wait(Refusal::NoSuchSeat)),
        (By::SecondOnOther, Step::Wait(Refusal::Spent)),
        (By::Second, Step::Unlock(Ok(Unlocked::Free))),
        (By::First, Step::Ask(Ok(Asked::Held(How::Free)))),
        (By::First, Step::Wait(Refusal::Spent)),
        (By::First, Step::Unlock(Ok(Unlocked::Free))),
        (By::First, Step::Wait(Refusal::NotOwner)),
        (By::Second, Step::Ask(Ok(Asked::Held(How::Free)))),
        (By::Second, Step::Wait(Refusal::Spent)),
        (By::Second, Step::Unlock(Ok(Unlocked::Free))),
    ]
}

#[test]
fn refusals_in_order(rt: HostRuntime) -> Result<(), Fail> {
    let numbers = on_two_condvars(&rt, rt.alloc(), 2, &refused_in_order());
    sees(&rt, "the numbers", &numbers, &Some(((0, 0), (0, 0))));
    Ok(())
}
