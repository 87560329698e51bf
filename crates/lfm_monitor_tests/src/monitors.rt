//! The monitor, called by one thread that holds all its passes.
ghost use Rattle.lfm_monitor.specs.Belongs.{OfMonitor};
ghost use Rattle.std.specs.Prelude.{◌≡◌, [], IfSome};

use crate::driving::one_makes;
use crate::passes::{closed_by_two, monitor_of_two};
use crate::seeing::sees;
use crate::steps::{By, Step, make_all};
use lfm_model::{
    Asked, Entry, How, Locked, Missing, Refusal, SeatNo, Total, TotalOp, Unlocked, What, lawful,
    replay,
};
use lfm_monitor::{Monitor, Pass};
use std::alloc::Global;
use std::process::Abort;
use std::sync::Wait;
use std::test::Fail;

/// The object and the journal of a monitor that is closed.
type Closed = (Total, Vec<Entry<TotalOp>>);

/// Hands back only the first of two passes, so the monitor must not be closed. Returns all three again, and what is missing.
fn kept_alone(
    monitor: Monitor<Total>,
    first: Pass<Total>,
    second: Pass<Total>,
    mut room: Vec<Pass<Total>>,
) -> Option<(Monitor<Total>, Pass<Total>, Pass<Total>, Missing)>
    requires first { OfMonitor first monitor }
    requires second { OfMonitor second monitor }
    requires empty { room.items ≡ [] }
    ensures { IfSome result (λ r. OfMonitor r.1 r.0 × OfMonitor r.2 r.0) }
{
    room.push(first).ok()?;
    let Err((monitor, mut passes, missing)) = monitor.close(room) else {
        return None;
    };
    let first = passes.pop()?;
    Some((monitor, first, second, missing))
}

/// An entry of this pass.
fn entry(seat: SeatNo, what: What<TotalOp>) -> Entry<TotalOp> {
    Entry { seat, what }
}

/// What the two passes write into the journal in `a_monitor_in_one_thread`.
fn written() -> [Entry<TotalOp>; 6] {
    let first = SeatNo::known(1);
    let second = SeatNo::known(2);
    [
        entry(first, What::Took(How::Free)),
        entry(first, What::Did(TotalOp::Add(5))),
        entry(second, What::Took(How::Queued(1))),
        entry(second, What::Did(TotalOp::Add(7))),
        entry(first, What::Took(How::Queued(2))),
        entry(first, What::Did(TotalOp::Read)),
    ]
}

/// The first pass holds, adds 5, and hands the monitor off to the second, which asked. The second adds 7, and hands off to the
/// first, which asked again and reads the total of both.
fn turns() -> [(By, Step); 17] {
    let to_first = Ok(Unlocked::Granted(SeatNo::known(1)));
    let to_second = Ok(Unlocked::Granted(SeatNo::known(2)));
    [
        (By::First, Step::Number(SeatNo::known(1))),
        (By::First, Step::Ask(Ok(Asked::Held(How::Free)))),
        (By::Second, Step::Ask(Ok(Asked::Asleep))),
        (By::First, Step::Apply(TotalOp::Add(5), Ok(5))),
        (By::First, Step::Leave(to_second)),
        (By::First, Step::Ask(Ok(Asked::Asleep))),
        (By::Second, Step::TryReceive(Ok(Some(How::Queued(1))))),
        (By::Second, Step::Apply(TotalOp::Add(7), Ok(12))),
        (By::Second, Step::Leave(to_first)),
        (By::First, Step::TryReceive(Ok(Some(How::Queued(2))))),
        (By::First, Step::Depth(1)),
        (By::First, Step::Apply(TotalOp::Read, Ok(12))),
        (By::First, Step::Leave(Ok(Unlocked::Free))),
        (By::First, Step::Seen(6)),
        (By::Second, Step::Seen(4)),
        (By::First, Step::Mine(4)),
        (By::Second, Step::Mine(2)),
    ]
}

/// The two passes of a new monitor take their turns, and are handed back. Returns what was missing before the second was back,
/// and what the monitor is closed with.
fn taken_in_turns<R: Wait + Abort>(rt: &R, alloc: Global) -> Option<(Missing, Closed)> {
    let (monitor, mut first, mut second) = monitor_of_two(alloc, 8, 0)?;
    make_all(rt, &monitor, &mut first, &mut second, &turns());
    let (monitor, first, second, missing) = kept_alone(monitor, first, second, Vec::new(alloc))?;
    let closed = closed_by_two(monitor, first, second, Vec::new(alloc))?;
    Some((missing, closed))
}

#[test]
fn a_monitor_in_one_thread(rt: HostRuntime) -> Result<(), Fail> {
    let (missing, (total, journal)) = taken_in_turns(&rt, rt.alloc()).ok_or("it was closed")?;
    let wanted = Missing::NotBack(SeatNo::known(2));
    sees(&rt, "what is missing", &missing, &wanted);
    sees(&rt, "the total", &total, &Total(12));
    assert_eq!(rt; journal.as_slice(), written().as_slice());
    Ok(())
}

#[test]
fn a_journal_is_replayed(rt: HostRuntime) -> Result<(), Fail> {
    let journal = written();
    assert!(rt; lawful(&journal));
    let (total, replies) = replay(rt.alloc(), Total(0), &journal)?;
    assert_eq!(rt; total, Total(12));
    assert_eq!(rt; replies.as_slice(), [5, 12, 12].as_slice());
    Ok(())
}

/// The one entry goes to the take, so the pass may write no op, and not enter again.
#[test]
fn one_entry(rt: HostRuntime) -> Result<(), Fail> {
    let steps = [
        Step::TryEnter(Ok(Locked::Held(How::Free))),
        Step::Apply(TotalOp::Read, Err(Refusal::Spent)),
        Step::Leave(Ok(Unlocked::Free)),
        Step::Enter(Err(Refusal::Spent)),
    ];
    one_makes(&rt, rt.alloc(), 1, 0, &steps)?;
    Ok(())
}
