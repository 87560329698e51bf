//! Rounds that each pass makes in a thread of its own.
use crate::seeing::sees;
use lfm_model::{Refusal, Total, TotalOp};
use lfm_monitor::{CriticalSection, Monitor, Pass};
use std::alloc::{AllocError, Global};
use std::ops::ControlFlow;
use std::process::Abort;
use std::sync::Wait;
use std::test::Fail;
use std::thread::Threads;

/// What is known of a pass that has made its rounds: its number, its depth and how many entries are its own.
type Ended = (u64, u32, u64);

/// Adds the number of the round to the total, and ends the rounds after the round with this number.
#[derive(Clone, Copy)]
struct AddsRounds {
    last: u64,
}

impl<R: Wait> CriticalSection<Total, R> for AddsRounds {
    type Answer = ControlFlow<()>;

    /// Adds the round's number, and ends the rounds at the last one.
    fn execute(
        &self,
        rt: &R,
        monitor: &Monitor<Total>,
        pass: &mut Pass<Total>,
        round: u64,
    ) -> Result<ControlFlow<()>, Refusal> {
        let _rt = rt;
        monitor.apply(pass, TotalOp::Add(round))?;
        Ok(if round == self.last {
            ControlFlow::Break(())
        } else {
            ControlFlow::Continue(())
        })
    }
}

/// What is known of each pass.
fn ended(alloc: Global, passes: &[Pass<Total>]) -> Result<Vec<Ended>, AllocError> {
    let mut ended = Vec::new(alloc);
    for pass in passes {
        ended.push((pass.number().get(), pass.depth(), pass.mine()))?;
    }
    Ok(ended)
}

/// Three passes that may write this number of entries make at most this number of rounds, and end after the last. Returns what
/// is known of each pass, and the total that the monitor is closed with.
fn rounded<R: Threads + Wait + Sync>(
    rt: &R,
    alloc: Global,
    entries: u64,
    rounds: u64,
    last: u64,
) -> Result<(Vec<Ended>, Total), Fail> {
    let (monitor, passes) = Monitor::new(alloc, 3, entries, 0, Total(0))?;
    let passes = monitor.run(rt, passes, rounds, &AddsRounds { last })?;
    let ended = ended(alloc, &passes)?;
    let Ok((total, _)) = monitor.close(passes) else {
        return Err(Fail::new("all passes were back"));
    };
    Ok((ended, total))
}

/// Checks that all three passes are back in their order, that none holds, how many entries each wrote, and the total.
fn sees_ended<R: Abort>(rt: &R, ended: &[Ended], mine: u64, total: Total, wanted: u64) {
    let passes = [(1, 0, mine), (2, 0, mine), (3, 0, mine)];
    assert_eq!(*rt; *ended, *passes.as_slice());
    sees(rt, "the total", &total, &Total(wanted));
}

#[test]
fn rounds_of_passes_are_numbered_from_0(rt: HostRuntime) -> Result<(), Fail> {
    let (ended, total) = rounded(&rt, rt.alloc(), 200, 100, 100)?;
    sees_ended(&rt, &ended, 200, total, 3 * 4_950);
    Ok(())
}

#[test]
fn section_that_breaks_off_ends_its_rounds(rt: HostRuntime) -> Result<(), Fail> {
    let (ended, total) = rounded(&rt, rt.alloc(), 200, 100, 4)?;
    sees_ended(&rt, &ended, 10, total, 3 * 10);
    Ok(())
}

/// The entries end at the op of round 2, after its take.
#[test]
fn refused_section_ends_its_rounds(rt: HostRuntime) -> Result<(), Fail> {
    let (ended, total) = rounded(&rt, rt.alloc(), 5, 100, 100)?;
    sees_ended(&rt, &ended, 5, total, 3);
    Ok(())
}

/// The entries end before the take of round 2.
#[test]
fn refused_hold_ends_the_rounds(rt: HostRuntime) -> Result<(), Fail> {
    let (ended, total) = rounded(&rt, rt.alloc(), 4, 100, 100)?;
    sees_ended(&rt, &ended, 4, total, 3);
    Ok(())
}

#[test]
fn no_round_leaves_all_passes(rt: HostRuntime) -> Result<(), Fail> {
    let (ended, total) = rounded(&rt, rt.alloc(), 4, 0, 100)?;
    sees_ended(&rt, &ended, 0, total, 0);
    Ok(())
}
