//! A wait in its two halves, by one thread. Once the first half has returned, the list is free and the seat sleeps, so that a
//! wake of another seat sends it.

use crate::driving::on_one_condvar;
use crate::seeing::sees;
use crate::steps::{By, Step};
use lfm_model::{Asked, How, Refusal, SeatNo, Unlocked};
use std::test::Fail;

/// The first seat begins to wait, and its receive finds that it was not sent. The second seat sends it, and it acquires the
/// mutex by a receive.
fn two_halves() -> [(By, Step); 8] {
    let first_was_sent = Ok(Some((SeatNo::known(1), 1)));
    [
        (By::First, Step::BeginWait(Err(Refusal::NotOwner))),
        (By::First, Step::Ask(Ok(Asked::Held(How::Free)))),
        (By::First, Step::BeginWait(Ok(1))),
        (By::First, Step::BeginWait(Err(Refusal::Asleep))),
        (By::First, Step::Receive(Ok(None))),
        (By::SecondOnOther, Step::WakeOne(first_was_sent)),
        (By::First, Step::Receive(Ok(Some(How::Free)))),
        (By::First, Step::Unlock(Ok(Unlocked::Free))),
    ]
}

#[test]
fn a_wait_in_two_halves(rt: HostRuntime) -> Result<(), Fail> {
    let numbers = on_one_condvar(&rt, rt.alloc(), 0, &two_halves());
    sees(&rt, "the numbers", &numbers, &Some((1, 1)));
    Ok(())
}
