//! The run of a script: its workers use a monitor over a total. When all have ended, the rows and the verdict are computed from
//! the journal.
ghost use Rattle.lfm_script.specs.Report.{report_text};
ghost use Rattle.lfm_program.specs.ScriptRuns.{Divides, EndsSo, HasStopped, MadeReady, are_none};
ghost use Rattle.lfm_program.specs.Workers.{StopsIn};
ghost use Rattle.lfm_script.specs.Runs.{IsReport};
ghost use Rattle.lfm_script.specs.declared.faults.WorkFault.TheVariants as Fault;
ghost use Rattle.lfm_script.specs.script.Grammar.{script_of};
ghost use Rattle.lfm_script.specs.script.Limits.{header_allowed, lines_allowed};
ghost use Rattle.lfm_text.specs.Text.{max_lines};
ghost use Rattle.lfm_model.specs.Journals.{LawfulJournal, after_all};
ghost use Rattle.lfm_model.specs.Totals.{total_after};
ghost use Rattle.std.specs.Prelude.{◌≡◌, ◌⊎◌, ◌<◌, ℕ, IfErr, IfOk, length, true};

use crate::gates::Gate;
use crate::performed::Performed;
use crate::workers::{Worked, WorkerEnd, run_workers};
use lfm_model::{Entry, NewFault, Refusal, Total, TotalOp, lawful, replay};
use lfm_monitor::{MAX_ENTRIES, Monitor, Pass};
use lfm_mutex::Pace;
use lfm_script::{Row, Script, WorkFault, commands_by_worker, rows_of};
use std::alloc::{AllocError, Global};
use std::sync::Wait;
use std::thread::{Threads, available_parallelism};

/// The result of a script's run, after all its workers have ended.
#[derive(Drop)]
pub(crate) struct ScriptRun {
    /// A row for each worker, in order.
    pub rows: Vec<Row>,
    /// The total at the end.
    pub total: u64,
    /// Whether the journal is lawful and its replay from 0 gives the total.
    pub lawful: bool,
    /// Whether `lawful` is true and no worker was refused.
    pub succeeded: bool,
}

/// Sets the monitor's pace for the processors that this program may use. If their number can't be found out, the pace is not
/// changed.
fn set_pace<R: Threads>(rt: &R, monitor: &mut Monitor<Total>)
    ensures { (workers conditions : ℕ) (passes : _) → MadeReady workers conditions monitor.old passes → MadeReady workers conditions monitor.new passes }
{
    let Ok(processors) = available_parallelism(rt) else {
        return;
    };
    monitor.set_pace(Pace::for_processors(processors.get() as u64));
}

/// A monitor over a total of 0 with the script's conditions, and a pass for each worker. Each pass has the same share of the
/// entries that a journal may have room for. The monitor has the pace for the processors that this program may use. Memory if a
/// request for it was refused. A script is within a monitor's limits, so there is no other fault.
fn monitor_of<R: Threads>(
    rt: &R,
    alloc: Global,
    script: &Script,
) -> Result<(Monitor<Total>, Vec<Pass<Total>>), WorkFault>
    requires header { header_allowed script.now.workers script.now.conditions ≡ true }
    ensures ready { IfOk result (λ r. MadeReady script.now.workers script.now.conditions r.0 r.1.items) }
    ensures memory { IfErr result (λ e. e ≡ Fault.Memory) }
{
    let share = MAX_ENTRIES / script.workers;
    match Monitor::new(alloc, script.workers, share, script.conditions, Total(0)) {
        Ok((mut monitor, passes)) => {
            set_pace(rt, &mut monitor);
            Ok((monitor, passes))
        }
        Err(NewFault::Memory) => Err(WorkFault::Memory),
        Err(NewFault::Limit) => unreachable!(),
    }
}

/// Why a worker was refused, if it was. Stuck if the gate stopped it, and Memory if its start was called off.
fn refusal_in(end: WorkerEnd) -> Result<Option<Refusal>, WorkFault>
    ensures refused { IfOk result (λ r. EndsSo end r) }
    ensures stopped { IfErr result (λ e. (e ≡ Fault.Memory) ⊎ ((e ≡ Fault.Stuck) × (end ≡ WorkerEnd.Performed Performed.Stuck))) }
{
    match end {
        WorkerEnd::Performed(Performed::Done) => Ok(None),
        WorkerEnd::Performed(Performed::Refused(refusal)) => Ok(Some(refusal)),
        WorkerEnd::Performed(Performed::Stuck) => Err(WorkFault::Stuck),
        WorkerEnd::CalledOff => Err(WorkFault::Memory),
    }
}

/// The passes of the workers, and why each was refused, if it was, both in order. Stuck if the gate stopped one; Memory if a
/// request for it was refused.
fn divide(
    alloc: Global,
    worked: Vec<Worked>,
) -> Result<(Vec<Pass<Total>>, Vec<Option<Refusal>>), WorkFault>
    ensures divides { IfOk result (λ r. Divides worked.items r.0.items r.1.items) }
    ensures fault { IfErr result (λ e. (e ≡ Fault.Memory) ⊎ ((e ≡ Fault.Stuck) × HasStopped worked.items)) }
{
    let mut passes = Vec::with_capacity(alloc, worked.len())?;
    let mut refusals = Vec::with_capacity(alloc, worked.len())?;
    'dividing: for one in worked {
        let Worked { pass, end } = one;
        let refused = refusal_in(end)?;
        passes.push_reserved(pass);
        refusals.push_reserved(refused);
    }
    Ok((passes, refusals))
}

/// Whether none of the workers was refused.
fn none_refused(refusals: &[Option<Refusal>]) -> bool
    ensures { result ≡ are_none refusals.now }
{
    'looking: for refused in refusals {
        if refused.is_some() {
            return false;
        }
    }
    true
}

/// Whether the journal is lawful, and its replay from 0 gives the total. Makes one request for memory, for the replies.
fn is_lawful(alloc: Global, total: Total, journal: &[Entry<TotalOp>]) -> Result<bool, AllocError>
    ensures complete { LawfulJournal journal.now → total ≡ after_all total_after (record { 0 = 0 }) journal.now → IfOk result (λ b. b ≡ true) }
    ensures sound { IfOk result (λ b. b ≡ true → LawfulJournal journal.now × (total ≡ after_all total_after (record { 0 = 0 }) journal.now)) }
{
    if !lawful(journal) {
        return Ok(false);
    }
    let (replayed, _) = replay(alloc, Total(0), journal)?;
    Ok(replayed == total)
}

/// Runs a script: each worker in a thread of its own, by `perform`. Returns when all have ended, so it never returns if some
/// wait of the script is never ended.
///
/// Stuck if the gate stopped a worker before one of its commands. Memory if a request for memory was refused or a worker could
/// not be started.
pub(crate) fn run_script<R: Threads + Wait + Sync, G: Gate>(
    rt: &R,
    alloc: Global,
    script: &Script,
    gate: &G,
) -> Result<ScriptRun, WorkFault>
    requires header { header_allowed script.now.workers script.now.conditions ≡ true }
    requires lines { lines_allowed script.now.workers script.now.conditions script.now.lines.items ≡ true }
    requires few { length script.now.lines.items < max_lines }
    ensures report { IfOk result (λ r. IsReport (script_of script.now) (report_text r.rows.items r.total r.lawful) r.succeeded) }
    ensures fault { IfErr result (λ e. (e ≡ Fault.Memory) ⊎ ((e ≡ Fault.Stuck) × StopsIn (G.stops gate.now) (script_of script.now))) }
{
    let commands = commands_by_worker(alloc, script.workers, &script.lines)?;
    let (monitor, passes) = monitor_of(rt, alloc, script)?;
    let worked = run_workers(rt, alloc, &monitor, passes, &commands, gate)?;
    let (passes, refusals) = divide(alloc, worked)?;
    let Ok((total, journal)) = monitor.close(passes) else {
        unreachable!()
    };
    let rows = rows_of(alloc, &refusals, &journal)?;
    let lawful = is_lawful(alloc, total, &journal)?;
    let succeeded = none_refused(&refusals) & lawful;
    Ok(ScriptRun {
        rows,
        total: total.0,
        lawful,
        succeeded,
    })
}
