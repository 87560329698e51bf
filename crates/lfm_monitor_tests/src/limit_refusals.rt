//! Waits with time limits that a monitor refuses, each for the first of its causes.
ghost use Rattle.lfm_monitor_tests.specs.Ours.{Ours};

use crate::passes::monitor_of_one;
use crate::plain_passes::{limit, plain_monitor_of_one};
use crate::seeing::sees;
use lfm_model::{Refusal, Total};
use lfm_monitor::{Monitor, Pass};
use std::process::Abort;
use std::sync::Wait;
use std::test::Fail;
use std::time::Clock;

/// A wait on this condition is refused so, and has written no entry.
fn is_refused<R: Wait + Clock + Abort>(
    rt: &R,
    monitor: &Monitor<Total>,
    pass: &mut Pass<Total>,
    condition: u64,
    refusal: Refusal,
)
    requires { Ours pass.old monitor.now }
    ensures { Ours pass.new monitor.now }
{
    let mine = pass.mine();
    let answer = monitor.wait_for(rt, pass, condition, limit());
    sees(rt, "the refusal", &answer.err(), &Some(refusal));
    sees(rt, "the entries", &pass.mine(), &mine);
}

/// A pass that doesn't hold, then holds, then twice, and whose entries are then spent.
#[test]
fn waits_with_limits_are_refused(rt: HostRuntime) -> Result<(), Fail> {
    let (monitor, mut pass) = plain_monitor_of_one(rt.alloc(), 1, 1).ok_or("a monitor")?;
    is_refused(&rt, &monitor, &mut pass, 2, Refusal::NotOwner);
    let _entered = monitor.enter(&rt, &mut pass);
    let _again = monitor.enter(&rt, &mut pass);
    is_refused(&rt, &monitor, &mut pass, 2, Refusal::Nested);
    let _still = monitor.leave(&mut pass);
    is_refused(&rt, &monitor, &mut pass, 2, Refusal::Spent);
    Ok(())
}

/// There is no such condition, or it is not plain.
#[test]
fn waits_with_limits_need_a_plain_condition(rt: HostRuntime) -> Result<(), Fail> {
    let (monitor, mut pass) = plain_monitor_of_one(rt.alloc(), 8, 1).ok_or("a monitor")?;
    let _entered = monitor.enter(&rt, &mut pass);
    is_refused(&rt, &monitor, &mut pass, 0, Refusal::NoSuchSeat);
    is_refused(&rt, &monitor, &mut pass, 2, Refusal::NoSuchSeat);
    let (other, mut pass) = monitor_of_one(rt.alloc(), 8, 1).ok_or("a monitor")?;
    let _entered = other.enter(&rt, &mut pass);
    is_refused(&rt, &other, &mut pass, 1, Refusal::NoSuchSeat);
    Ok(())
}
