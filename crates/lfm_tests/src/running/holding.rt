//! How two seats of one thread hold the mutex and pass it on, call by call.
use crate::running::calls::{By, Step, make_all, make_alone};
use crate::running::seats::{alone, closed, closed_alone, lacks_the_second, pair, stays_open};
use crate::seeing::sees;
use lfm_core::{Answer, Call, Turn, Why};
use lfm_model::{Asked, How, Locked, Missing, Refusal, SeatNo, Unlocked};
use std::test::Fail;

#[test]
fn first_run(rt: HostRuntime) -> Result<(), Fail> {
    let (mutex, mut seat) = alone(rt.alloc(), 7)?;
    let steps = [
        Step::Ask(Ok(Asked::Held(How::Free))),
        Step::Value(Some(7)),
        Step::Unlock(Ok(Unlocked::Free)),
    ];
    make_alone(&rt, &mutex, &mut seat, &steps);
    let value = closed_alone(mutex, seat, Vec::new(rt.alloc()));
    sees(&rt, "the value", &value, &Some(7));
    Ok(())
}

#[test]
fn uncontended(rt: HostRuntime) -> Result<(), Fail> {
    let (mutex, mut first, mut second) = pair(rt.alloc())?;
    let before = [
        (By::First, Step::TryLock(Ok(Locked::Held(How::Free)))),
        (By::First, Step::Set(5)),
        (By::Second, Step::TryLock(Err(Refusal::Busy))),
        (By::Second, Step::Takes(0)),
        (By::Second, Step::Owner(Some(SeatNo::known(1)))),
    ];
    make_all(&rt, &mutex, &mut first, &mut second, &before);
    let room = Vec::new(rt.alloc());
    let holding = Missing::Holding(SeatNo::known(1));
    let (mutex, mut first, mut second) = stays_open(&rt, mutex, first, second, room, holding);
    let after = [
        (By::First, Step::TryLock(Ok(Locked::Again(2)))),
        (By::First, Step::Unlock(Ok(Unlocked::Still(1)))),
        (By::First, Step::Unlock(Ok(Unlocked::Free))),
        (By::First, Step::Unlock(Err(Refusal::NotOwner))),
        (By::Second, Step::TryLock(Ok(Locked::Held(How::Free)))),
        (By::Second, Step::Value(Some(5))),
        (By::Second, Step::Unlock(Ok(Unlocked::Free))),
    ];
    make_all(&rt, &mutex, &mut first, &mut second, &after);
    let (mutex, first) = lacks_the_second(&rt, mutex, first, Vec::new(rt.alloc()));
    let value = closed(mutex, first, second, Vec::new(rt.alloc()));
    sees(&rt, "the value", &value, &Some(5));
    Ok(())
}

#[test]
fn a_close_without_a_seat(rt: HostRuntime) -> Result<(), Fail> {
    let (mutex, first, _second) = pair(rt.alloc())?;
    let (_mutex, _first) = lacks_the_second(&rt, mutex, first, Vec::new(rt.alloc()));
    Ok(())
}

#[test]
fn two_seats_in_one_thread(rt: HostRuntime) -> Result<(), Fail> {
    let (mutex, mut first, mut second) = pair(rt.alloc())?;
    let asleep = [
        (By::First, Step::Ask(Ok(Asked::Held(How::Free)))),
        (By::First, Step::Set(5)),
        (By::Second, Step::Ask(Ok(Asked::Asleep))),
        (By::Second, Step::TryReceive(Ok(None))),
        (By::Second, Step::Owner(Some(SeatNo::known(1)))),
    ];
    make_all(&rt, &mutex, &mut first, &mut second, &asleep);
    let room = Vec::new(rt.alloc());
    let holding = Missing::Holding(SeatNo::known(1));
    let (mutex, mut first, mut second) = stays_open(&rt, mutex, first, second, room, holding);
    let granted = [(
        By::First,
        Step::Unlock(Ok(Unlocked::Granted(SeatNo::known(2)))),
    )];
    make_all(&rt, &mutex, &mut first, &mut second, &granted);
    let room = Vec::new(rt.alloc());
    let sleeping = Missing::Asleep(SeatNo::known(2));
    let (mutex, mut first, mut second) = stays_open(&rt, mutex, first, second, room, sleeping);
    let received = [
        (By::Second, Step::TryReceive(Ok(Some(How::Queued(1))))),
        (By::Second, Step::Value(Some(5))),
        (By::First, Step::Value(None)),
        (By::Second, Step::Ask(Ok(Asked::Again(2)))),
        (By::Second, Step::Unlock(Ok(Unlocked::Still(1)))),
        (By::Second, Step::Unlock(Ok(Unlocked::Free))),
        (By::First, Step::TryReceive(Err(Refusal::NotWaiting))),
    ];
    make_all(&rt, &mutex, &mut first, &mut second, &received);
    let (mutex, first) = lacks_the_second(&rt, mutex, first, Vec::new(rt.alloc()));
    let value = closed(mutex, second, first, Vec::new(rt.alloc()));
    sees(&rt, "the value", &value, &Some(5));
    Ok(())
}

#[test]
fn an_open_call(rt: HostRuntime) -> Result<(), Fail> {
    let (mutex, mut first, mut second) = pair(rt.alloc())?;
    let steps = [
        (By::First, Step::TryLock(Ok(Locked::Held(How::Free)))),
        (By::Second, Step::Start(Call::Lock, Turn::Open)),
        (
            By::Second,
            Step::Start(Call::Lock, Turn::Refused(Why::InCall)),
        ),
        (By::Second, Step::Next(Turn::Open)),
        (By::Second, Step::Next(Turn::Open)),
        (By::Second, Step::Next(Turn::Open)),
        (By::Second, Step::Next(Turn::Open)),
        (By::Second, Step::Next(Turn::Open)),
        (
            By::Second,
            Step::Next(Turn::Ended(Answer::Asked(Asked::Asleep))),
        ),
        (By::Second, Step::TryLock(Err(Refusal::Asleep))),
        (
            By::First,
            Step::Unlock(Ok(Unlocked::Granted(SeatNo::known(2)))),
        ),
        (By::First, Step::Next(Turn::Refused(Why::Idle))),
    ];
    make_all(&rt, &mutex, &mut first, &mut second, &steps);
    let room = Vec::new(rt.alloc());
    let sleeping = Missing::Asleep(SeatNo::known(2));
    let (_mutex, _first, _second) = stays_open(&rt, mutex, first, second, room, sleeping);
    Ok(())
}

#[test]
fn a_wait_and_its_send(rt: HostRuntime) -> Result<(), Fail> {
    let (mutex, mut first, mut second) = pair(rt.alloc())?;
    let steps = [
        (By::First, Step::Ask(Ok(Asked::Held(How::Free)))),
        (By::First, Step::StartWait(Ok(Unlocked::Free))),
        (By::First, Step::StartWait(Err(Refusal::Asleep))),
        (
            By::Second,
            Step::SendLock(SeatNo::known(3), Err(Refusal::NoSuchSeat)),
        ),
        (
            By::Second,
            Step::SendLock(SeatNo::known(2), Err(Refusal::NotWaiting)),
        ),
        (By::Second, Step::SendLock(SeatNo::known(1), Ok(()))),
        (
            By::Second,
            Step::SendLock(SeatNo::known(1), Err(Refusal::NotWaiting)),
        ),
        (By::First, Step::TryReceive(Ok(Some(How::Free)))),
        (By::First, Step::StartWait(Ok(Unlocked::Free))),
        (By::Second, Step::Ask(Ok(Asked::Held(How::Free)))),
        (By::Second, Step::SendLock(SeatNo::known(1), Ok(()))),
        (
            By::Second,
            Step::Unlock(Ok(Unlocked::Granted(SeatNo::known(1)))),
        ),
        (By::First, Step::TryReceive(Ok(Some(How::Queued(1))))),
        (By::First, Step::Unlock(Ok(Unlocked::Free))),
    ];
    make_all(&rt, &mutex, &mut first, &mut second, &steps);
    Ok(())
}
