//! Threads that wait on plain conditions and wake each other. What a thread sees of its calls it adds to the total.
ghost use Rattle.lfm_monitor_tests.specs.Ours.{Ours};

use crate::calls::apply_until;
use crate::seeing::sees;
use lfm_model::{Refusal, Total, TotalOp};
use lfm_monitor::{CriticalSection, LastReply, Monitor, Pass, Waited};
use std::alloc::Global;
use std::ops::ControlFlow;
use std::sync::Wait;
use std::test::Fail;
use std::thread::Threads;
use std::time::{Clock, Duration};

/// The conditions of the monitor. On the first one the last pass waits until all others have come, and on the second one these
/// wait for it.
const COME: u64 = 1;

const WOKEN: u64 = 2;

/// A time limit that no call reaches, in seconds.
const LONG: u64 = 3_600;

/// Adds 1, and wakes the last pass, so that it looks how many have come.
fn come<R: Wait>(rt: &R, monitor: &Monitor<Total>, pass: &mut Pass<Total>) -> Result<(), Refusal>
    requires { Ours pass.old monitor.now }
    ensures { Ours pass.new monitor.now }
{
    monitor.apply(pass, TotalOp::Add(1))?;
    monitor.wake_one(rt, pass, COME)?;
    Ok(())
}

/// Two passes come, and wait without a limit. The third wakes both by one call.
struct Broadcast;

impl<R: Wait> CriticalSection<Total, R> for Broadcast {
    type Answer = ControlFlow<()>;

    /// The one round of a pass. It adds 100 for each pass that it has woken, or 10 if it was woken.
    fn execute(
        &self,
        rt: &R,
        monitor: &Monitor<Total>,
        pass: &mut Pass<Total>,
        round: u64,
    ) -> Result<ControlFlow<()>, Refusal> {
        let _round = round;
        if pass.number().get() == 3 {
            apply_until(rt, monitor, pass, COME, TotalOp::Read, 2)?;
            let woken = monitor.wake_all(rt, pass, WOKEN)?;
            monitor.apply(pass, TotalOp::Add(woken.wrapping_mul(100)))?;
            return Ok(ControlFlow::Break(()));
        }
        come(rt, monitor, pass)?;
        monitor.wait(rt, pass, WOKEN)?;
        monitor.apply(pass, TotalOp::Add(10))?;
        Ok(ControlFlow::Break(()))
    }
}

/// The first pass comes, waits with a limit, and then tries with a limit. The second wakes it after it has come, and adds what
/// the tries look for.
struct WakesInTime;

impl<R: Wait + Clock> CriticalSection<Total, R> for WakesInTime {
    type Answer = ControlFlow<()>;

    /// The one round of a pass. The first adds 10 if its wait was woken, and 100 if a reply was accepted.
    fn execute(
        &self,
        rt: &R,
        monitor: &Monitor<Total>,
        pass: &mut Pass<Total>,
        round: u64,
    ) -> Result<ControlFlow<()>, Refusal> {
        let _round = round;
        if pass.number().get() == 1 {
            come(rt, monitor, pass)?;
            wait_and_try(rt, monitor, pass)?;
            return Ok(ControlFlow::Break(()));
        }
        apply_until(rt, monitor, pass, COME, TotalOp::Read, 1)?;
        monitor.wake_one(rt, pass, WOKEN)?;
        apply_until(rt, monitor, pass, COME, TotalOp::Read, 12)?;
        monitor.apply(pass, TotalOp::Add(1_000))?;
        monitor.wake_one(rt, pass, WOKEN)?;
        Ok(ControlFlow::Break(()))
    }
}

/// Adds this if the test has the result that it wants, and otherwise nothing.
fn add_if(is_wanted: bool, number: u64) -> TotalOp {
    TotalOp::Add(if is_wanted { number } else { 0 })
}

/// Waits with a limit and adds 10 if a wake ended that, then comes again, tries with a limit until the total is at least 1,000,
/// and adds 100 if the reply was accepted.
fn wait_and_try<R: Wait + Clock>(
    rt: &R,
    monitor: &Monitor<Total>,
    pass: &mut Pass<Total>,
) -> Result<(), Refusal>
    requires { Ours pass.old monitor.now }
    ensures { Ours pass.new monitor.now }
{
    let limit = Duration::from_secs(LONG);
    let (_how, waited) = monitor.wait_for(rt, pass, WOKEN, limit)?;
    monitor.apply(pass, add_if(waited == Waited::Woken(1), 10))?;
    come(rt, monitor, pass)?;
    let last = monitor.apply_until_for(
        rt,
        pass,
        WOKEN,
        limit,
        TotalOp::Read,
        |total| *total >= 1_000,
    )?;
    monitor.apply(pass, add_if(last == LastReply::Accepted(1_012), 100))?;
    Ok(())
}

/// The total after each of these passes has executed the section in a thread of its own.
fn total_of<R: Threads + Wait + Sync, S: CriticalSection<Total, R, Answer = ControlFlow<()>>>(
    rt: &R,
    alloc: Global,
    passes: u64,
    section: &S,
) -> Result<Total, Fail> {
    let (monitor, passes) = Monitor::with_plain_conditions(alloc, passes, 100, 2, Total(0))?;
    let passes = monitor.run(rt, passes, 1, section)?;
    let Ok((total, _)) = monitor.close(passes) else {
        return Err(Fail::new("all passes were back"));
    };
    Ok(total)
}

#[test]
fn a_wake_of_all_ends_plain_waits(rt: HostRuntime) -> Result<(), Fail> {
    let total = total_of(&rt, rt.alloc(), 3, &Broadcast)?;
    sees(&rt, "the total", &total, &Total(222));
    Ok(())
}

#[test]
fn a_wake_ends_a_wait_before_its_limit(rt: HostRuntime) -> Result<(), Fail> {
    let total = total_of(&rt, rt.alloc(), 2, &WakesInTime)?;
    sees(&rt, "the total", &total, &Total(1_112));
    Ok(())
}
