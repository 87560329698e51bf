//! Critical sections of one thread: what they answer and leave, early returns, refusals in the middle, and sections inside of
//! others. A pass never holds more after a section than before it.
use crate::calls::{deepen, hold};
use crate::passes::monitor_of_two;
use crate::seeing::sees;
use crate::steps::{By, Step, make_all, make_alone};
use lfm_model::{Asked, How, Locked, Refusal, SeatNo, Total, TotalOp, Unlocked};
use lfm_monitor::{CriticalSection, Monitor, Pass};
use std::alloc::Global;
use std::process::Abort;
use std::sync::Wait;
use std::test::Fail;

/// A section that makes these steps, and then answers this.
#[derive(Clone, Copy)]
struct Makes<'a> {
    steps: &'a [Step],
    answers: Result<u64, Refusal>,
}

impl<R: Wait + Abort> CriticalSection<Total, R> for Makes<'_> {
    type Answer = u64;

    /// Makes the steps, each of which checks its answer.
    fn execute(
        &self,
        rt: &R,
        monitor: &Monitor<Total>,
        pass: &mut Pass<Total>,
        round: u64,
    ) -> Result<u64, Refusal> {
        let _round = round;
        make_alone(rt, monitor, pass, self.steps);
        self.answers
    }
}

/// Adds 7 to a total that is not 0, and answers the sum. From a total of 0 it returns early, and answers 0.
struct AddsToSome;

impl<R: Wait> CriticalSection<Total, R> for AddsToSome {
    type Answer = u64;

    /// Reads the total, and returns early or adds.
    fn execute(
        &self,
        rt: &R,
        monitor: &Monitor<Total>,
        pass: &mut Pass<Total>,
        round: u64,
    ) -> Result<u64, Refusal> {
        let (_rt, _round) = (rt, round);
        if monitor.apply(pass, TotalOp::Read)? == 0 {
            return Ok(0);
        }
        monitor.apply(pass, TotalOp::Add(7))
    }
}

/// Enters this number of further times, and leaves none of these holds. In each it adds 1 if `adds` is true. Answers the depth
/// at which the pass then holds.
#[derive(Clone, Copy)]
struct Deepens {
    holds: u64,
    adds: bool,
}

impl<R: Wait> CriticalSection<Total, R> for Deepens {
    type Answer = u64;

    /// Enters, and leaves none of its holds: the monitor must end them.
    fn execute(
        &self,
        rt: &R,
        monitor: &Monitor<Total>,
        pass: &mut Pass<Total>,
        round: u64,
    ) -> Result<u64, Refusal> {
        let _round = round;
        deepen(rt, monitor, pass, self.holds, self.adds)?;
        Ok(pass.depth() as u64)
    }
}

/// Answers the number of its round, plus 1,000 for each hold.
struct TellsRound;

impl<R: Wait> CriticalSection<Total, R> for TellsRound {
    type Answer = u64;

    /// Reads only the pass's depth and the round.
    fn execute(
        &self,
        rt: &R,
        monitor: &Monitor<Total>,
        pass: &mut Pass<Total>,
        round: u64,
    ) -> Result<u64, Refusal> {
        let (_rt, _monitor) = (rt, monitor);
        Ok(round.wrapping_add((pass.depth() as u64).wrapping_mul(1_000)))
    }
}

/// Enters this number of further times, and executes a section inside of this one, in round 9.
#[derive(Clone, Copy)]
struct Nests {
    holds: u64,
}

impl<R: Wait> CriticalSection<Total, R> for Nests {
    type Answer = u64;

    /// Deepens its hold, and executes the inner section in one more.
    fn execute(
        &self,
        rt: &R,
        monitor: &Monitor<Total>,
        pass: &mut Pass<Total>,
        round: u64,
    ) -> Result<u64, Refusal> {
        let _round = round;
        deepen(rt, monitor, pass, self.holds, false)?;
        hold(rt, monitor, pass, 9, &TellsRound)
    }
}

/// A pass of a new monitor that may write this number of entries makes the first steps, executes the section in round 8, which
/// must answer this, and makes the last steps. Then no pass holds.
fn executes<R: Wait + Abort, S: CriticalSection<Total, R, Answer = u64>>(
    rt: &R,
    alloc: Global,
    entries: u64,
    first_steps: &[Step],
    section: &S,
    wanted: Result<u64, Refusal>,
    last_steps: &[Step],
) -> Result<(), Fail> {
    let (monitor, mut pass, mut other) = monitor_of_two(alloc, entries, 0).ok_or("a monitor")?;
    make_alone(rt, &monitor, &mut pass, first_steps);
    let answer = hold(rt, &monitor, &mut pass, 8, section);
    sees(rt, "the answer", &answer, &wanted);
    make_alone(rt, &monitor, &mut pass, last_steps);
    make_alone(rt, &monitor, &mut other, &[HOLDS]);
    Ok(())
}

const HOLDS: Step = Step::TryEnter(Ok(Locked::Held(How::Free)));

#[test]
fn section_answers_and_leaves(rt: HostRuntime) -> Result<(), Fail> {
    let section = Makes {
        steps: &[
            Step::Depth(1),
            Step::Apply(TotalOp::Add(5), Ok(5)),
            Step::Mine(2),
            Step::Seen(0),
        ],
        answers: Ok(7),
    };
    let after = [Step::Depth(0), Step::Mine(2), Step::Seen(2)];
    executes(&rt, rt.alloc(), 8, &[], &section, Ok(7), &after)
}

#[test]
fn early_return_leaves(rt: HostRuntime) -> Result<(), Fail> {
    let after = [Step::Depth(0), Step::Mine(2)];
    executes(&rt, rt.alloc(), 8, &[], &AddsToSome, Ok(0), &after)
}

#[test]
fn late_return_leaves(rt: HostRuntime) -> Result<(), Fail> {
    let before = [
        HOLDS,
        Step::Apply(TotalOp::Add(5), Ok(5)),
        Step::Leave(Ok(Unlocked::Free)),
    ];
    let after = [Step::Depth(0), Step::Mine(5)];
    executes(&rt, rt.alloc(), 8, &before, &AddsToSome, Ok(12), &after)
}

#[test]
fn holds_that_a_section_keeps_are_given_up(rt: HostRuntime) -> Result<(), Fail> {
    let section = Deepens {
        holds: 3,
        adds: true,
    };
    let after = [Step::Depth(0), Step::Mine(4), Step::Seen(4)];
    executes(&rt, rt.alloc(), 4, &[], &section, Ok(4), &after)
}

/// The take and two ops use the entries up, so the third op is refused, three holds deeper than the section began.
#[test]
fn refusal_without_an_entry_gives_all_holds_up(rt: HostRuntime) -> Result<(), Fail> {
    let section = Deepens {
        holds: 5,
        adds: true,
    };
    let after = [Step::Depth(0), Step::Mine(3), Step::Seen(3)];
    let spent = Err(Refusal::Spent);
    executes(&rt, rt.alloc(), 3, &[], &section, spent, &after)
}

#[test]
fn refusal_at_the_greatest_depth_gives_all_holds_up(rt: HostRuntime) -> Result<(), Fail> {
    let section = Deepens {
        holds: 65_535,
        adds: false,
    };
    let after = [Step::Depth(0), Step::Mine(1)];
    let full = Err(Refusal::DepthFull);
    executes(&rt, rt.alloc(), 1, &[], &section, full, &after)
}

#[test]
fn section_of_a_holder_leaves_its_hold(rt: HostRuntime) -> Result<(), Fail> {
    let section = Makes {
        steps: &[Step::Depth(2), Step::Enter(Ok(Locked::Again(3)))],
        answers: Ok(7),
    };
    let after = [Step::Depth(1), Step::Leave(Ok(Unlocked::Free))];
    executes(&rt, rt.alloc(), 1, &[HOLDS], &section, Ok(7), &after)
}

#[test]
fn refused_section_of_a_holder_leaves_its_hold(rt: HostRuntime) -> Result<(), Fail> {
    let section = Deepens {
        holds: 3,
        adds: true,
    };
    let after = [Step::Depth(1), Step::Leave(Ok(Unlocked::Free))];
    let spent = Err(Refusal::Spent);
    executes(&rt, rt.alloc(), 1, &[HOLDS], &section, spent, &after)
}

#[test]
fn section_may_leave_by_itself(rt: HostRuntime) -> Result<(), Fail> {
    let section = Makes {
        steps: &[Step::Leave(Ok(Unlocked::Free))],
        answers: Ok(7),
    };
    executes(&rt, rt.alloc(), 1, &[], &section, Ok(7), &[Step::Depth(0)])
}

/// What the section gives up beyond its own hold isn't taken back.
#[test]
fn section_may_leave_the_hold_of_its_holder(rt: HostRuntime) -> Result<(), Fail> {
    let not_owner = Err(Refusal::NotOwner);
    let section = Makes {
        steps: &[
            Step::Leave(Ok(Unlocked::Still(1))),
            Step::Leave(Ok(Unlocked::Free)),
            Step::Apply(TotalOp::Read, not_owner),
        ],
        answers: not_owner,
    };
    let after = [Step::Depth(0), Step::Mine(1)];
    executes(&rt, rt.alloc(), 4, &[HOLDS], &section, not_owner, &after)
}

#[test]
fn rounds_and_sections_inside_of_sections(rt: HostRuntime) -> Result<(), Fail> {
    let after = [Step::Depth(0), Step::Mine(1)];
    executes(&rt, rt.alloc(), 1, &[], &TellsRound, Ok(1_008), &after)?;
    let section = Nests { holds: 0 };
    executes(&rt, rt.alloc(), 1, &[], &section, Ok(2_009), &after)
}

/// At the greatest depth the inner section can't be executed.
#[test]
fn refused_section_inside_of_a_section(rt: HostRuntime) -> Result<(), Fail> {
    let section = Nests { holds: 65_534 };
    let after = [Step::Depth(0), Step::Mine(1)];
    let full = Err(Refusal::DepthFull);
    executes(&rt, rt.alloc(), 1, &[], &section, full, &after)
}

/// A step that would fail in a section that is executed, since the pass holds there. The section must not be executed.
const NEVER: [Step; 1] = [Step::Depth(0)];

#[test]
fn hold_without_an_entry_executes_nothing(rt: HostRuntime) -> Result<(), Fail> {
    let before = [HOLDS, Step::Leave(Ok(Unlocked::Free))];
    let never = Makes {
        steps: &NEVER,
        answers: Ok(7),
    };
    let after = [Step::Depth(0), Step::Mine(1), Step::Seen(1)];
    let spent = Err(Refusal::Spent);
    executes(&rt, rt.alloc(), 1, &before, &never, spent, &after)
}

#[test]
fn hold_of_a_sleeping_pass_executes_nothing(rt: HostRuntime) -> Result<(), Fail> {
    let (monitor, mut first, mut second) = monitor_of_two(rt.alloc(), 4, 0).ok_or("a monitor")?;
    let before = [
        (By::First, HOLDS),
        (By::Second, Step::Ask(Ok(Asked::Asleep))),
    ];
    make_all(&rt, &monitor, &mut first, &mut second, &before);
    let never = Makes {
        steps: &NEVER,
        answers: Ok(7),
    };
    let refused = hold(&rt, &monitor, &mut second, 0, &never);
    sees(&rt, "the answer", &refused, &Err(Refusal::Asleep));
    let granted = Ok(Unlocked::Granted(SeatNo::known(2)));
    let after = [
        (By::First, Step::Leave(granted)),
        (By::Second, Step::TryReceive(Ok(Some(How::Queued(1))))),
    ];
    make_all(&rt, &monitor, &mut first, &mut second, &after);
    Ok(())
}
