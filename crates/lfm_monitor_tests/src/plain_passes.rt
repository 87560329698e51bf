//! A monitor with plain conditions is made with one pass, and calls of it with time limits. It has no test.
ghost use Rattle.lfm_monitor.specs.Belongs.{OfMonitor};
ghost use Rattle.lfm_monitor_tests.specs.Ours.{Ours};
ghost use Rattle.std.specs.Prelude.{◌≡◌, [], IfSome};

use lfm_model::{Entry, How, Refusal, Total, TotalOp};
use lfm_monitor::{LastReply, Monitor, Pass, Waited};
use std::alloc::Global;
use std::sync::Wait;
use std::time::{Clock, Duration, Instant};

/// The time limit of a call that nobody wakes, in milliseconds.
const LIMIT: u64 = 10;

/// This limit.
pub fn limit() -> Duration {
    Duration::from_millis(LIMIT)
}

/// A monitor around 0 with plain conditions, and its one pass, which may write this number of entries.
pub fn plain_monitor_of_one(
    alloc: Global,
    entries: u64,
    conditions: u64,
) -> Option<(Monitor<Total>, Pass<Total>)>
    ensures { IfSome result (λ r. OfMonitor r.1 r.0) }
{
    let Ok((monitor, mut passes)) = Monitor::with_plain_conditions(
        alloc,
        1,
        entries,
        conditions,
        Total(0),
    ) else {
        return None;
    };
    let pass = passes.pop()?;
    Some((monitor, pass))
}

/// Leaves the monitor, and closes it with its one pass in this empty list. Returns its journal. None if it can't be closed.
pub fn journal_of_one(
    monitor: Monitor<Total>,
    mut pass: Pass<Total>,
    mut room: Vec<Pass<Total>>,
) -> Option<Vec<Entry<TotalOp>>>
    requires belongs { OfMonitor pass monitor }
    requires empty { room.items ≡ [] }
{
    monitor.leave(&mut pass).ok()?;
    room.push(pass).ok()?;
    let (_, journal) = monitor.close(room).ok()?;
    Some(journal)
}

/// Whether the limit has passed since then, by the monotonic clock.
fn has_passed<R: Clock>(rt: &R, begin: Option<Instant>) -> bool {
    match begin {
        Some(begin) => match begin.elapsed(rt) {
            Ok(elapsed) => elapsed >= limit(),
            Err(_) => false,
        },
        None => false,
    }
}

/// `wait_for` the limit. Also returns whether it did not end before the limit.
pub fn wait_for<R: Wait + Clock>(
    rt: &R,
    monitor: &Monitor<Total>,
    pass: &mut Pass<Total>,
    condition: u64,
) -> (Result<(How, Waited), Refusal>, bool)
    requires { Ours pass.old monitor.now }
    ensures { Ours pass.new monitor.now }
{
    let begin = Instant::now(rt).ok();
    let answer = monitor.wait_for(rt, pass, condition, limit());
    (answer, has_passed(rt, begin))
}

/// `apply_until_for` the limit, until a reply is at least this. Also returns whether it did not end before the limit.
pub fn apply_until_for<R: Wait + Clock>(
    rt: &R,
    monitor: &Monitor<Total>,
    pass: &mut Pass<Total>,
    op: TotalOp,
    least: u64,
) -> (Result<LastReply<u64>, Refusal>, bool)
    requires { Ours pass.old monitor.now }
    ensures { Ours pass.new monitor.now }
{
    let begin = Instant::now(rt).ok();
    let answer = monitor.apply_until_for(rt, pass, 1, limit(), op, |total| *total >= least);
    (answer, has_passed(rt, begin))
}
