//! Calls of the passes of a monitor, each with what it must answer, made in order by one thread. It has no test.
ghost use Rattle.lfm_monitor_tests.specs.Ours.{Ours};

use crate::calls::apply_until;
use crate::seeing::answers;
use lfm_model::{Asked, How, Locked, Refusal, SeatNo, Total, TotalOp, Unlocked};
use lfm_monitor::{Monitor, Pass};
use std::process::Abort;
use std::sync::Wait;

/// A call of a pass, and what it must answer.
#[derive(Clone, Copy)]
pub enum Step {
    Ask(Result<Asked, Refusal>),
    TryEnter(Result<Locked, Refusal>),
    Enter(Result<Locked, Refusal>),
    TryReceive(Result<Option<How>, Refusal>),
    Apply(TotalOp, Result<u64, Refusal>),
    /// `apply_until`, on the condition with this number, of an op until its reply is at least this.
    ApplyUntil(u64, TotalOp, u64, Result<u64, Refusal>),
    Leave(Result<Unlocked, Refusal>),
    /// The first number of these three is that of the condition.
    Wait(u64, Result<(How, u64), Refusal>),
    WakeOne(u64, Result<Option<(SeatNo, u64)>, Refusal>),
    WakeAll(u64, Result<u64, Refusal>),
    Number(SeatNo),
    Depth(u32),
    /// How many entries are the pass's own.
    Mine(u64),
    /// How many entries it has seen.
    Seen(u64),
}

/// Which of two passes makes a step.
#[derive(Clone, Copy)]
pub enum By {
    First,
    Second,
}

/// Makes the step at this index, and checks its answer.
fn make<R: Wait + Abort>(
    rt: &R,
    monitor: &Monitor<Total>,
    pass: &mut Pass<Total>,
    at: usize,
    step: Step,
)
    requires { Ours pass.old monitor.now }
    ensures { Ours pass.new monitor.now }
{
    match step {
        Step::Ask(wanted) => answers(rt, at, &monitor.ask(pass), &wanted),
        Step::TryEnter(wanted) => answers(rt, at, &monitor.try_enter(pass), &wanted),
        Step::Enter(wanted) => answers(rt, at, &monitor.enter(rt, pass), &wanted),
        Step::TryReceive(wanted) => answers(rt, at, &monitor.try_receive(pass), &wanted),
        Step::Apply(op, wanted) => answers(rt, at, &monitor.apply(pass, op), &wanted),
        Step::ApplyUntil(condition, op, least, wanted) => {
            let reply = apply_until(rt, monitor, pass, condition, op, least);
            answers(rt, at, &reply, &wanted)
        }
        Step::Leave(wanted) => answers(rt, at, &monitor.leave(pass), &wanted),
        Step::Wait(condition, wanted) => {
            answers(rt, at, &monitor.wait(rt, pass, condition), &wanted)
        }
        Step::WakeOne(condition, wanted) => {
            answers(rt, at, &monitor.wake_one(rt, pass, condition), &wanted)
        }
        Step::WakeAll(condition, wanted) => {
            answers(rt, at, &monitor.wake_all(rt, pass, condition), &wanted)
        }
        Step::Number(wanted) => answers(rt, at, &pass.number(), &wanted),
        Step::Depth(wanted) => answers(rt, at, &pass.depth(), &wanted),
        Step::Mine(wanted) => answers(rt, at, &pass.mine(), &wanted),
        Step::Seen(wanted) => answers(rt, at, &pass.seen_len(), &wanted),
    }
}

/// Makes these steps in order, each by one of two passes.
pub fn make_all<R: Wait + Abort>(
    rt: &R,
    monitor: &Monitor<Total>,
    first: &mut Pass<Total>,
    second: &mut Pass<Total>,
    steps: &[(By, Step)],
)
    requires first { Ours first.old monitor.now }
    requires second { Ours second.old monitor.now }
    ensures first { Ours first.new monitor.now }
    ensures second { Ours second.new monitor.now }
{
    'making: for (at, &(by, step)) in steps.iter().enumerate() {
        match by {
            By::First => make(rt, monitor, first, at, step),
            By::Second => make(rt, monitor, second, at, step),
        }
    }
}

/// Makes these steps in order, all by one pass.
pub fn make_alone<R: Wait + Abort>(
    rt: &R,
    monitor: &Monitor<Total>,
    pass: &mut Pass<Total>,
    steps: &[Step],
)
    requires { Ours pass.old monitor.now }
    ensures { Ours pass.new monitor.now }
{
    'making: for (at, &step) in steps.iter().enumerate() {
        make(rt, monitor, pass, at, step);
    }
}
