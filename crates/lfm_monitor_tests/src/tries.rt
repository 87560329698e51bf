//! Ops that a pass makes until it gets the reply that it needs: at once, after waits, and refused.

use crate::calls::apply_until;
use crate::driving::{one_makes, two_make};
use crate::seeing::sees;
use crate::steps::{By, Step};
use lfm_model::{
    Asked, Entry, How, Locked, Refusal, SeatNo, Total, TotalOp, Unlocked, What, replay,
};
use lfm_monitor::{CriticalSection, Monitor, Pass};
use std::alloc::{AllocError, Global};
use std::ops::ControlFlow;
use std::sync::Wait;
use std::test::Fail;

const ENTERS: Step = Step::Enter(Ok(Locked::Held(How::Free)));

#[test]
fn try_that_goes_well_at_once(rt: HostRuntime) -> Result<(), Fail> {
    let steps = [
        ENTERS,
        Step::ApplyUntil(1, TotalOp::Add(5), 5, Ok(5)),
        Step::Depth(1),
        Step::Mine(2),
        Step::Leave(Ok(Unlocked::Free)),
    ];
    // the take and one op, and no entry for a wait
    one_makes(&rt, rt.alloc(), 2, 0, &steps)?;
    Ok(())
}

#[test]
fn try_of_a_deeper_hold_that_goes_well_at_once(rt: HostRuntime) -> Result<(), Fail> {
    let steps = [
        ENTERS,
        Step::Enter(Ok(Locked::Again(2))),
        Step::ApplyUntil(1, TotalOp::Read, 0, Ok(0)),
        Step::Depth(2),
        Step::Mine(2),
    ];
    one_makes(&rt, rt.alloc(), 8, 1, &steps)?;
    Ok(())
}

/// A try of an op whose reply is not the one needed, on the condition with this number, and the refusal of its wait.
fn refused_try(condition: u64, refusal: Refusal) -> Step {
    Step::ApplyUntil(condition, TotalOp::Add(1), 1_000, Err(refusal))
}

/// There is no such condition; then the hold is too deep; then no entry is left for the wait, and then none for the op.
fn refused_waits() -> [Step; 16] {
    [
        ENTERS,
        refused_try(2, Refusal::NoSuchSeat),
        Step::Depth(1),
        Step::Mine(2),
        Step::Enter(Ok(Locked::Again(2))),
        refused_try(1, Refusal::Nested),
        Step::Depth(2),
        Step::Mine(3),
        Step::Leave(Ok(Unlocked::Still(1))),
        refused_try(1, Refusal::Spent),
        Step::Depth(1),
        Step::Mine(4),
        refused_try(1, Refusal::Spent),
        Step::Depth(1),
        Step::Mine(4),
        Step::Leave(Ok(Unlocked::Free)),
    ]
}

#[test]
fn try_whose_wait_is_refused_was_made(rt: HostRuntime) -> Result<(), Fail> {
    let total = one_makes(&rt, rt.alloc(), 4, 1, &refused_waits())?;
    // each of the three ops that were made has added 1
    sees(&rt, "the total", &total, &Some(Total(3)));
    Ok(())
}

/// The first pass doesn't hold, and then holds; the second sleeps.
fn not_made() -> [(By, Step); 9] {
    [
        (By::First, refused_try(1, Refusal::NotOwner)),
        (By::First, Step::Depth(0)),
        (By::First, Step::Mine(0)),
        (By::First, ENTERS),
        (By::Second, Step::Ask(Ok(Asked::Asleep))),
        (By::Second, refused_try(1, Refusal::Asleep)),
        (By::Second, Step::Depth(0)),
        (By::Second, Step::Mine(0)),
        (By::First, Step::Apply(TotalOp::Read, Ok(0))),
    ]
}

#[test]
fn try_that_is_refused_was_not_made(rt: HostRuntime) -> Result<(), Fail> {
    two_make(&rt, rt.alloc(), 4, 1, &not_made())
}

/// The conditions of the monitor: on the first one the second pass waits until the first has begun, and on the second one the
/// first waits for the total.
const BEGUN: u64 = 1;

const ADDED: u64 = 2;

/// How much the second pass adds, 1 in each hold.
const ADDS: u64 = 3;

/// The first pass adds 1, and reads until the total is one more than all that the second adds. The second adds 1 in each of its
/// rounds, once the first has begun, and wakes the first. The wake queues the first, so the end of the round hands the monitor
/// off to it, and it reads the total after each addition.
struct Roles;

impl<R: Wait> CriticalSection<Total, R> for Roles {
    type Answer = ControlFlow<()>;

    /// One round of the first pass, which is its only one, or of the second.
    fn execute(
        &self,
        rt: &R,
        monitor: &Monitor<Total>,
        pass: &mut Pass<Total>,
        round: u64,
    ) -> Result<ControlFlow<()>, Refusal> {
        let _round = round;
        if pass.number().get() == 1 {
            monitor.apply(pass, TotalOp::Add(1))?;
            monitor.wake_one(rt, pass, BEGUN)?;
            apply_until(rt, monitor, pass, ADDED, TotalOp::Read, ADDS + 1)?;
            return Ok(ControlFlow::Break(()));
        }
        apply_until(rt, monitor, pass, BEGUN, TotalOp::Read, 1)?;
        monitor.apply(pass, TotalOp::Add(1))?;
        monitor.wake_one(rt, pass, ADDED)?;
        Ok(ControlFlow::Continue(()))
    }
}

/// What was replied to the first pass, in order.
fn to_the_first(
    alloc: Global,
    journal: &[Entry<TotalOp>],
    replies: &[u64],
) -> Result<Vec<u64>, AllocError> {
    let mut own = Vec::new(alloc);
    let mut replies = replies.iter();
    for entry in journal {
        if let What::Did(_) = entry.what {
            if let Some(reply) = replies.next() {
                if entry.seat == SeatNo::known(1) {
                    own.push(*reply)?;
                }
            }
        }
    }
    Ok(own)
}

#[test]
fn tries_end_at_the_first_reply_that_is_looked_for(rt: HostRuntime) -> Result<(), Fail> {
    let (monitor, passes) = Monitor::new(rt.alloc(), 2, 100, 2, Total(0))?;
    let passes = monitor.run(&rt, passes, ADDS, &Roles)?;
    let Ok((total, journal)) = monitor.close(passes) else {
        return Err(Fail::new("all passes were back"));
    };
    sees(&rt, "the total", &total, &Total(4));
    let (_, replies) = replay(rt.alloc(), Total(0), &journal)?;
    let own = to_the_first(rt.alloc(), &journal, &replies)?;
    // its own op, a first read, and a read after each of the three additions
    assert_eq!(rt; own.as_slice(), [1, 1, 2, 3, 4].as_slice());
    Ok(())
}
