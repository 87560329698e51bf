//! Calls of a monitor around a total, with no more of their contracts than the tests need: the pass stays the monitor's. It has
//! no test.
ghost use Rattle.lfm_monitor_tests.specs.Ours.{Ours};

use lfm_model::{Refusal, Total, TotalOp};
use lfm_monitor::{CriticalSection, Monitor, Pass};
use std::sync::Wait;

/// `hold`, in the round with this number.
pub fn hold<R: Wait, S: CriticalSection<Total, R>>(
    rt: &R,
    monitor: &Monitor<Total>,
    pass: &mut Pass<Total>,
    round: u64,
    section: &S,
) -> Result<S::Answer, Refusal>
    requires { Ours pass.old monitor.now }
    ensures { Ours pass.new monitor.now }
{
    monitor.hold(rt, pass, round, section)
}

/// `apply_until`, until a reply is at least this.
pub fn apply_until<R: Wait>(
    rt: &R,
    monitor: &Monitor<Total>,
    pass: &mut Pass<Total>,
    condition: u64,
    op: TotalOp,
    least: u64,
) -> Result<u64, Refusal>
    requires { Ours pass.old monitor.now }
    ensures { Ours pass.new monitor.now }
{
    monitor.apply_until(rt, pass, condition, op, |total| *total >= least)
}

/// Enters this number of times, and adds 1 in each hold if `adds` is true.
pub fn deepen<R: Wait>(
    rt: &R,
    monitor: &Monitor<Total>,
    pass: &mut Pass<Total>,
    holds: u64,
    adds: bool,
) -> Result<(), Refusal>
    requires { Ours pass.old monitor.now }
    ensures { Ours pass.new monitor.now }
{
    'entering: for _ in 0..holds {
        monitor.enter(rt, pass)?;
        if adds {
            monitor.apply(pass, TotalOp::Add(1))?;
        }
    }
    Ok(())
}
