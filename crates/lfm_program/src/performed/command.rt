//! Makes one command, by calls of the monitor.
ghost use Rattle.lfm_monitor.specs.Belongs.{OfMonitor, pass_sight};
ghost use Rattle.lfm_mutex.specs.Close.{Idle};
ghost use Rattle.lfm_program.specs.Causes.{HasCause, HasCauseIfSent};
ghost use Rattle.lfm_program.specs.Performs.{CommandEnds, HoldsOnce, own_adds};
ghost use Rattle.std.specs.Prelude.{◌≡◌, IfErr};

use lfm_model::{Refusal, Total, TotalOp};
use lfm_monitor::{Monitor, Pass};
use lfm_script::Command;
use std::sync::Wait;

/// Enters, adds the number and leaves.
fn add<R: Wait>(
    rt: &R,
    monitor: &Monitor<Total>,
    pass: &mut Pass<Total>,
    number: u64,
) -> Result<(), Refusal>
    requires belongs { OfMonitor pass.old monitor.now }
    requires idle { Idle (pass_sight pass.old) }
    ensures belongs { OfMonitor pass.new monitor.now }
    ensures idle { Idle (pass_sight pass.new) }
    ensures number { (pass_sight pass.new).number ≡ (pass_sight pass.old).number }
    ensures adds { CommandEnds (Command.Add number) (pass_sight pass.old) (pass_sight pass.new) result }
    ensures refused { IfErr result (λ r. HasCause (Command.Add number) monitor.now pass.new r) }
{
    monitor.enter(rt, pass)?;
    let added = monitor.apply(pass, TotalOp::Add(number));
    let _ = monitor.leave(pass);
    added?;
    Ok(())
}

/// Reads the total, and waits on the condition until it is at least the bound. The pass holds the monitor whenever it reads.
fn wait_for<R: Wait>(
    rt: &R,
    monitor: &Monitor<Total>,
    pass: &mut Pass<Total>,
    condition: u64,
    bound: u64,
) -> Result<(), Refusal>
    requires belongs { OfMonitor pass.old monitor.now }
    requires holds { HoldsOnce (pass_sight pass.old) }
    ensures belongs { OfMonitor pass.new monitor.now }
    ensures holds { HoldsOnce (pass_sight pass.new) }
    ensures number { (pass_sight pass.new).number ≡ (pass_sight pass.old).number }
    ensures adds { own_adds (pass_sight pass.new) ≡ own_adds (pass_sight pass.old) }
    ensures refused { IfErr result (λ r. HasCauseIfSent (Command.Until condition bound) monitor.now pass.new r) }
{
    'waiting: for _ in rt.forever() {
        let total = monitor.apply(pass, TotalOp::Read)?;
        if total >= bound {
            return Ok(());
        }
        monitor.wait(rt, pass, condition)?;
    }
    unreachable!()
}

/// Enters, waits on the condition until the total is at least the bound, and leaves.
fn until<R: Wait>(
    rt: &R,
    monitor: &Monitor<Total>,
    pass: &mut Pass<Total>,
    condition: u64,
    bound: u64,
) -> Result<(), Refusal>
    requires belongs { OfMonitor pass.old monitor.now }
    requires idle { Idle (pass_sight pass.old) }
    ensures belongs { OfMonitor pass.new monitor.now }
    ensures idle { Idle (pass_sight pass.new) }
    ensures number { (pass_sight pass.new).number ≡ (pass_sight pass.old).number }
    ensures adds { CommandEnds (Command.Until condition bound) (pass_sight pass.old) (pass_sight pass.new) result }
    ensures refused { IfErr result (λ r. HasCauseIfSent (Command.Until condition bound) monitor.now pass.new r) }
{
    monitor.enter(rt, pass)?;
    let waited = wait_for(rt, monitor, pass, condition, bound);
    let _ = monitor.leave(pass);
    waited
}

/// Wakes the pass that has waited longest on the condition, if any.
fn wake_one<R: Wait>(
    rt: &R,
    monitor: &Monitor<Total>,
    pass: &mut Pass<Total>,
    condition: u64,
) -> Result<(), Refusal>
    requires belongs { OfMonitor pass.old monitor.now }
    requires idle { Idle (pass_sight pass.old) }
    ensures belongs { OfMonitor pass.new monitor.now }
    ensures idle { Idle (pass_sight pass.new) }
    ensures number { (pass_sight pass.new).number ≡ (pass_sight pass.old).number }
    ensures adds { CommandEnds (Command.One condition) (pass_sight pass.old) (pass_sight pass.new) result }
    ensures refused { IfErr result (λ r. HasCauseIfSent (Command.One condition) monitor.now pass.new r) }
{
    monitor.wake_one(rt, pass, condition)?;
    Ok(())
}

/// Wakes all that wait on the condition.
fn wake_all<R: Wait>(
    rt: &R,
    monitor: &Monitor<Total>,
    pass: &mut Pass<Total>,
    condition: u64,
) -> Result<(), Refusal>
    requires belongs { OfMonitor pass.old monitor.now }
    requires idle { Idle (pass_sight pass.old) }
    ensures belongs { OfMonitor pass.new monitor.now }
    ensures idle { Idle (pass_sight pass.new) }
    ensures number { (pass_sight pass.new).number ≡ (pass_sight pass.old).number }
    ensures adds { CommandEnds (Command.All condition) (pass_sight pass.old) (pass_sight pass.new) result }
    ensures refused { IfErr result (λ r. HasCauseIfSent (Command.All condition) monitor.now pass.new r) }
{
    monitor.wake_all(rt, pass, condition)?;
    Ok(())
}

/// Makes one command. A refusal is the one that the call of the monitor answered. If the pass held the monitor at that call, it
/// has left it since.
pub(crate) fn make<R: Wait>(
    rt: &R,
    monitor: &Monitor<Total>,
    pass: &mut Pass<Total>,
    command: Command,
) -> Result<(), Refusal>
    requires belongs { OfMonitor pass.old monitor.now }
    requires idle { Idle (pass_sight pass.old) }
    ensures belongs { OfMonitor pass.new monitor.now }
    ensures idle { Idle (pass_sight pass.new) }
    ensures number { (pass_sight pass.new).number ≡ (pass_sight pass.old).number }
    ensures adds { CommandEnds command (pass_sight pass.old) (pass_sight pass.new) result }
    ensures refused { IfErr result (λ r. HasCauseIfSent command monitor.now pass.new r) }
{
    match command {
        Command::Add(number) => add(rt, monitor, pass, number),
        Command::Until(condition, bound) => until(rt, monitor, pass, condition, bound),
        Command::One(condition) => wake_one(rt, monitor, pass, condition),
        Command::All(condition) => wake_all(rt, monitor, pass, condition),
    }
}
