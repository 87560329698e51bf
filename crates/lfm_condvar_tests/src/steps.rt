//! Calls of the two seats that one thread has in hand, each with what it must answer, made in order. After the calls of `Wait`
//! and `Wake`, which must be refused, the readers of the seats must answer as before. It has no test.
ghost use Rattle.std.specs.Prelude.{◌≤◌};
ghost use Rattle.lfm_mutex.specs.Belongs.{OfMutex, limits_of};
ghost use Rattle.lfm_condvar.specs.Belongs.{OfCondvar, cond_limits};
ghost use Rattle.lfm_condvar_tests.specs.Hands.{OfCalled};

use crate::calls::{ask, begin_wait, receive, send_lock, unlock, wake_one};
use crate::in_hand::{Called, InHand};
use crate::refused_calls::{wait, wake};
use crate::seeing::answers;
use lfm_condvar::{CondSeat, Condvar};
use lfm_model::{Asked, How, Refusal, SeatNo, Unlocked};
use lfm_mutex::{Holder, Mutex, Seat};
use lfm_test_tools::two_condvars::calls::wait_while_less;
use std::process::Abort;
use std::sync::Wait;

/// A call, and what it must answer.
#[derive(Clone, Copy)]
pub enum Step {
    Ask(Result<Asked, Refusal>),
    Receive(Result<Option<How>, Refusal>),
    Unlock(Result<Unlocked, Refusal>),
    /// A `send_lock` of this seat.
    SendLock(SeatNo, Result<(), Refusal>),
    BeginWait(Result<u64, Refusal>),
    /// A `wait_while`, while the number in hand is less than this.
    WaitWhileLess(u64, Result<(), Refusal>),
    WakeOne(Result<Option<(SeatNo, u64)>, Refusal>),
    /// A `wait` with this refusal.
    Wait(Refusal),
    /// A `wake_one` and a `wake_all`, each with this refusal.
    Wake(Refusal),
    /// At which depth the seat holds.
    Depth(u32),
    /// How many takes the seat has made.
    Takes(u64),
    /// How many takes the cond seat has made.
    CondTakes(u64),
}

/// Which of the two seats makes a step, and on which condvar. It is the one condvar if the other is not named.
#[derive(Clone, Copy)]
pub enum By {
    First,
    FirstOnOther,
    Second,
    SecondOnOther,
}

/// Makes the step at this index, and checks its answer.
fn make<R: Wait + Abort>(
    rt: &R,
    condvar: &Condvar,
    cond: &mut CondSeat,
    mutex: &Mutex<u64>,
    seat: &mut Seat<u64>,
    at: usize,
    step: Step,
)
    requires seat { OfMutex seat.old mutex.now }
    requires cond { OfCondvar cond.old condvar.now }
    requires wide { (cond_limits condvar.now).seats ≤ (limits_of mutex.now).seats }
    ensures seat { OfMutex seat.new mutex.now }
    ensures cond { OfCondvar cond.new condvar.now }
{
    let (v, m) = (condvar, mutex);
    match step {
        Step::Ask(wanted) => answers(rt, at, &ask(m, seat), &wanted),
        Step::Receive(wanted) => answers(rt, at, &receive(m, seat), &wanted),
        Step::Unlock(wanted) => answers(rt, at, &unlock(m, seat), &wanted),
        Step::SendLock(to, wanted) => answers(rt, at, &send_lock(m, seat, to), &wanted),
        Step::BeginWait(wanted) => answers(rt, at, &begin_wait(rt, v, cond, m, seat), &wanted),
        Step::WaitWhileLess(least, wanted) => {
            let waited = wait_while_less(rt, v, cond, m, seat, least);
            answers(rt, at, &waited, &wanted)
        }
        Step::WakeOne(wanted) => answers(rt, at, &wake_one(rt, v, cond, m, seat), &wanted),
        Step::Wait(refusal) => answers(rt, at, &wait(rt, v, cond, m, seat), &Some(refusal)),
        Step::Wake(refusal) => answers(rt, at, &wake(rt, v, cond, m, seat), &Some(refusal)),
        Step::Depth(wanted) => answers(rt, at, &seat.depth(), &wanted),
        Step::Takes(wanted) => answers(rt, at, &seat.takes(), &wanted),
        Step::CondTakes(wanted) => answers(rt, at, &cond.seat().takes(), &wanted),
    }
}

/// Makes a step of one of the two seats.
fn make_by<R: Wait + Abort>(
    rt: &R,
    called: &Called,
    hand: &mut InHand,
    at: usize,
    by: By,
    step: Step,
)
    requires { OfCalled hand.old called.now.mutex.now called.now.one.now called.now.other.now }
    ensures { OfCalled hand.new called.now.mutex.now called.now.one.now called.now.other.now }
{
    let (m, x, y) = (called.mutex, called.one, called.other);
    match by {
        By::First => make(rt, x, &mut hand.one, m, &mut hand.first, at, step),
        By::FirstOnOther => make(rt, y, &mut hand.other, m, &mut hand.first, at, step),
        By::Second => make(rt, x, &mut hand.one, m, &mut hand.second, at, step),
        By::SecondOnOther => make(rt, y, &mut hand.other, m, &mut hand.second, at, step),
    }
}

/// Makes these steps in order, each by one of the two seats.
pub fn make_all<R: Wait + Abort>(rt: &R, called: &Called, hand: &mut InHand, steps: &[(By, Step)])
    requires { OfCalled hand.old called.now.mutex.now called.now.one.now called.now.other.now }
    ensures { OfCalled hand.new called.now.mutex.now called.now.one.now called.now.other.now }
{
    'making: for (at, &(by, step)) in steps.iter().enumerate() {
        make_by(rt, called, hand, at, by, step);
    }
}
