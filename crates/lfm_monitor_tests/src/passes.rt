//! A monitor is made, with one or two passes that may make commands, and is closed once they are handed back. It has no test.
ghost use Rattle.lfm_monitor.specs.Belongs.{OfMonitor};
ghost use Rattle.lfm_program.specs.Workers.{ReadyFor};
ghost use Rattle.std.specs.Prelude.{◌≡◌, ℕ, [], IfSome};
ghost use lib.ListN.{get_elem?};
ghost use mathlib.Core.Option.{some};

use lfm_model::{Entry, Total, TotalOp};
use lfm_monitor::{Monitor, Pass};
use std::alloc::Global;

/// A monitor around 0, and its passes.
fn opened(
    alloc: Global,
    passes: u64,
    entries: u64,
    conditions: u64,
) -> Option<(Monitor<Total>, Vec<Pass<Total>>)>
    ensures { IfSome result (λ r. (j : ℕ) (p : _) → get_elem? r.1.items j ≡ some p → ReadyFor r.0 p) }
{
    let Ok((monitor, passes)) = Monitor::new(alloc, passes, entries, conditions, Total(0)) else {
        return None;
    };
    Some((monitor, passes))
}

/// A monitor around 0 and its one pass, which may write this number of entries.
pub fn monitor_of_one(
    alloc: Global,
    entries: u64,
    conditions: u64,
) -> Option<(Monitor<Total>, Pass<Total>)>
    ensures { IfSome result (λ r. ReadyFor r.0 r.1) }
{
    let (monitor, mut passes) = opened(alloc, 1, entries, conditions)?;
    let pass = passes.pop()?;
    Some((monitor, pass))
}

/// A monitor around 0 and its two passes, each of which may write this number of entries.
pub fn monitor_of_two(
    alloc: Global,
    entries: u64,
    conditions: u64,
) -> Option<(Monitor<Total>, Pass<Total>, Pass<Total>)>
    ensures { IfSome result (λ r. ReadyFor r.0 r.1 × ReadyFor r.0 r.2) }
{
    let (monitor, mut passes) = opened(alloc, 2, entries, conditions)?;
    let second = passes.pop()?;
    let first = passes.pop()?;
    Some((monitor, first, second))
}

/// Closes the monitor with its one pass in this empty list. Returns its object. None if it can't be closed.
pub fn closed_by_one(
    monitor: Monitor<Total>,
    pass: Pass<Total>,
    mut room: Vec<Pass<Total>>,
) -> Option<Total>
    requires belongs { OfMonitor pass monitor }
    requires empty { room.items ≡ [] }
{
    room.push(pass).ok()?;
    let (total, _) = monitor.close(room).ok()?;
    Some(total)
}

/// Closes the monitor with both passes in this empty list. Returns its object and its journal. None if it can't be closed.
pub fn closed_by_two(
    monitor: Monitor<Total>,
    first: Pass<Total>,
    second: Pass<Total>,
    mut room: Vec<Pass<Total>>,
) -> Option<(Total, Vec<Entry<TotalOp>>)>
    requires first { OfMonitor first monitor }
    requires second { OfMonitor second monitor }
    requires empty { room.items ≡ [] }
{
    room.push(first).ok()?;
    room.push(second).ok()?;
    monitor.close(room).ok()
}
