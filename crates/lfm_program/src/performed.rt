//! What one worker does with its pass: it makes its commands in order.
ghost use Rattle.lfm_monitor.specs.Belongs.{OfMonitor, pass_sight};
ghost use Rattle.lfm_mutex.specs.Close.{Idle};
ghost use Rattle.lfm_program.specs.Causes.{RefusedForCause};
ghost use Rattle.lfm_program.specs.Performs.{own_adds};
ghost use Rattle.lfm_program.specs.Workers.{StoppedAt};
ghost use Rattle.lfm_script.specs.Adds.{all_adds};
ghost use Rattle.std.specs.Prelude.{◌≡◌, ◌++◌};

mod command;

use crate::gates::Gate;
use command::make;
use lfm_model::{Refusal, Total};
use lfm_monitor::{Monitor, Pass};
use lfm_script::Command;
use std::sync::Wait;

/// How a worker's commands ended.
#[derive(Clone, Copy, Debug, PartialEq, Eq)]
pub enum Performed {
    /// All were made.
    Done,
    /// A call of the monitor was refused. What was done before it is kept, and no further command was made.
    Refused(Refusal),
    /// The gate stopped the worker before a command.
    Stuck,
}

/// Makes the commands of one worker in order, each after the gate allows it. The gate is called with the pass's number and the
/// command's number, which starts at 1 in each call. Before and after, the pass neither holds nor sleeps.
///
/// A refusal is the one that the call of the monitor answered. An `add` is refused only as Spent: its pass has no entry or no
/// take left. An `until` is refused as Spent for the same reason or if its seat of the condition has no take left, as
/// NoSuchSeat if there is no such condition, and as Busy in the same case as the monitor's `wait`. A wake is refused as
/// NoSuchSeat if there is no such condition, as Spent if its seat of the condition has no take left, and as NotWaiting in the
/// same case as the monitor's `wake_one`.
///
/// Stuck is answered if the gate stops this worker before a command. The commands before that one were made, and no others.
///
/// It may sleep when it enters, waits or wakes. It never returns if one of its waits is never ended. It allocates no memory.
pub fn perform<G: Gate, R: Wait>(
    rt: &R,
    monitor: &Monitor<Total>,
    pass: &mut Pass<Total>,
    commands: &[Command],
    gate: &G,
) -> Performed
    requires belongs { OfMonitor pass.old monitor.now }
    requires idle { Idle (pass_sight pass.old) }
    ensures belongs { OfMonitor pass.new monitor.now }
    ensures idle { Idle (pass_sight pass.new) }
    ensures number { (pass_sight pass.new).number ≡ (pass_sight pass.old).number }
    ensures done { result ≡ Performed.Done → own_adds (pass_sight pass.new) ≡ own_adds (pass_sight pass.old) ++ all_adds commands.now }
    ensures refused { RefusedForCause monitor.now commands.now (own_adds (pass_sight pass.old)) pass.new result }
    ensures stopped { result ≡ Performed.Stuck → StoppedAt (G.stops gate.now) (pass_sight pass.old).number commands.now (own_adds (pass_sight pass.old)) (own_adds (pass_sight pass.new)) }
{
    let worker = pass.number().get();
    'performing: for (index, command) in commands.iter().enumerate() {
        if !gate.before(worker, index as u64 + 1) {
            return Performed::Stuck;
        }
        match make(rt, monitor, pass, *command) {
            Ok(()) => {}
            Err(refusal) => return Performed::Refused(refusal),
        }
    }
    Performed::Done
}
