//! Laws of the monitor. Each is the contract of a function that does nothing.
ghost use Rattle.lfm_monitor.specs.Belongs.{OfMonitor, opening_of, pass_sight};
ghost use Rattle.lfm_monitor.specs.Passes.{IsLegal};

use crate::monitor::Monitor;
use crate::pass::Pass;
use lfm_model::Object;

/// The value that a pass holds is always legal: the journal is lawful, its replay from the opening object gives the object, and
/// its stamps are 1, 2, 3 and so on, one for each queued take of the mutex so far.
pub fn holds_are_legal<O: Object>(monitor: &Monitor<O>, pass: &Pass<O>)
    requires belongs { OfMonitor pass.now monitor.now }
    ensures { IsLegal O.after (opening_of monitor.now) (pass_sight pass.now) }
{
    let _monitor = monitor;
    let _pass = pass;
}
