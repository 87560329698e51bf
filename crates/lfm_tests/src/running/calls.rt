//! Makes calls of seats of a running mutex in order, each with its expected answer. This module has no test.
ghost use Rattle.lfm_mutex.specs.Belongs.{Beside, OfMutex};

use lfm_core::{Call, Turn};
use lfm_model::{Asked, How, Locked, Refusal, SeatNo, Unlocked};
use lfm_mutex::steps::{next, start};
use lfm_mutex::{Mutex, Seat};
use std::fmt::Debug;
use std::process::Abort;

/// A call of a seat with its expected answer.
#[derive(Clone, Copy)]
pub enum Step {
    Ask(Result<Asked, Refusal>),
    TryLock(Result<Locked, Refusal>),
    TryReceive(Result<Option<How>, Refusal>),
    SendLock(SeatNo, Result<(), Refusal>),
    Unlock(Result<Unlocked, Refusal>),
    StartWait(Result<Unlocked, Refusal>),
    Owner(Option<SeatNo>),
    /// How many takes the seat has made.
    Takes(u64),
    /// The value in hand.
    Value(Option<u64>),
    /// Sets the value in hand, which has no answer.
    Set(u64),
    /// Starts a call that is made step by step.
    Start(Call, Turn),
    /// The next step of such a call.
    Next(Turn),
}

/// Which of two seats makes a step.
#[derive(Clone, Copy)]
pub enum By {
    First,
    Second,
}

/// Checks that the step with this index has the expected answer.
fn answers<R: Abort, T: PartialEq + Debug>(rt: &R, at: usize, answer: &T, wanted: &T) {
    assert_eq!(rt; *answer, *wanted, "step {at}");
}

/// Makes a step, and checks that it has the expected answer. `at` is its index among the steps.
pub fn make<R: Abort>(rt: &R, mutex: &Mutex<u64>, seat: &mut Seat<u64>, at: usize, step: Step)
    requires { OfMutex seat.old mutex.now }
    ensures { OfMutex seat.new mutex.now }
{
    match step {
        Step::Ask(wanted) => answers(rt, at, &mutex.ask(seat), &wanted),
        Step::TryLock(wanted) => answers(rt, at, &mutex.try_lock(seat), &wanted),
        Step::TryReceive(wanted) => answers(rt, at, &mutex.try_receive(seat), &wanted),
        Step::SendLock(target, wanted) => {
            answers(rt, at, &mutex.send_lock(seat, target), &wanted)
        }
        Step::Unlock(wanted) => answers(rt, at, &mutex.unlock(seat), &wanted),
        Step::StartWait(wanted) => answers(rt, at, &mutex.start_wait(seat), &wanted),
        Step::Owner(wanted) => answers(rt, at, &mutex.owner(seat), &wanted),
        Step::Takes(wanted) => answers(rt, at, &seat.takes(), &wanted),
        Step::Value(wanted) => answers(rt, at, &seat.value().copied(), &wanted),
        Step::Set(value) => set(seat, value),
        Step::Start(call, wanted) => answers(rt, at, &start(mutex, seat, call), &wanted),
        Step::Next(wanted) => answers(rt, at, &next(mutex, seat), &wanted),
    }
}

/// Makes these steps in order, each by one of two seats.
pub fn make_all<R: Abort>(
    rt: &R,
    mutex: &Mutex<u64>,
    first: &mut Seat<u64>,
    second: &mut Seat<u64>,
    steps: &[(By, Step)],
)
    requires first { OfMutex first.old mutex.now }
    requires second { OfMutex second.old mutex.now }
    ensures first { OfMutex first.new mutex.now }
    ensures second { OfMutex second.new mutex.now }
{
    'making: for (at, &(by, step)) in steps.iter().enumerate() {
        match by {
            By::First => make(rt, mutex, first, at, step),
            By::Second => make(rt, mutex, second, at, step),
        }
    }
}

/// Makes these steps in order, all by one seat.
pub fn make_alone<R: Abort>(rt: &R, mutex: &Mutex<u64>, seat: &mut Seat<u64>, steps: &[Step])
    requires { OfMutex seat.old mutex.now }
    ensures { OfMutex seat.new mutex.now }
{
    'making: for (at, &step) in steps.iter().enumerate() {
        make(rt, mutex, seat, at, step);
    }
}

/// Sets the value that the seat has in hand.
fn set(seat: &mut Seat<u64>, value: u64)
    ensures { Beside seat.old seat.new }
{
    let Some(x) = seat.value_mut() else {
        return;
    };
    *x = value;
}
