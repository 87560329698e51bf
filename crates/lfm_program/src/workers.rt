//! Workers. Each is a thread with its own pass, and all start from one starting line.
ghost use Rattle.lfm_program.specs.Workers.{ReadyFor, WorksAs};
ghost use Rattle.std.specs.Prelude.{◌≡◌, ℕ, IfErr, IfOk, Vec, length, vec_len};
ghost use lib.ListN.{get_elem?};
ghost use mathlib.Core.Option.{some};

use crate::gates::Gate;
use crate::performed::{Performed, perform};
use crate::starting_line::StartingLine;
use lfm_model::Total;
use lfm_monitor::{Monitor, Pass};
use lfm_script::{Command, WorkFault};
use std::alloc::Global;
use std::snapshot::Snapshot;
use std::sync::Wait;
use std::thread;
use std::thread::{Promise, PromisedHandle, Threads};

/// How a worker's thread ended.
#[derive(Clone, Copy, Debug, PartialEq, Eq)]
pub(crate) enum WorkerEnd {
    /// The start was called off, since another worker could not be started. No command was made.
    CalledOff,
    /// The start was not called off, and the worker's commands ended in this way.
    Performed(Performed),
}

/// What a worker's thread returns.
#[derive(Drop)]
pub(crate) struct Worked {
    /// The worker's pass. It neither holds nor sleeps.
    pub pass: Pass<Total>,
    /// How its thread ended.
    pub end: WorkerEnd,
}

/// What a worker's thread is to do, and with which pass.
#[derive(Drop)]
pub struct Assignment<G: Gate> {
    monitor: Snapshot<Monitor<Total>>,
    pass: Snapshot<Pass<Total>>,
    commands: Snapshot<Vec<Command>>,
    gate: Snapshot<G>,
}

impl<G: Gate> Promise<Worked> for Assignment<G> {
    ghost kept_by = { λ a r. WorksAs a.monitor.value (G.stops a.gate.value) a.commands.value.items a.pass.value r.pass r.end };
}

/// A worker's thread: it makes its commands after the line is opened, and none if the start is called off.
fn run_worker<G: Gate, R: Wait>(
    rt: &R,
    line: &StartingLine,
    monitor: &Monitor<Total>,
    mut pass: Pass<Total>,
    commands: &[Command],
    gate: &G,
) -> Worked
    requires ready { ReadyFor monitor.now pass }
    ensures { WorksAs monitor.now (G.stops gate.now) commands.now pass result.pass result.end }
{
    if !line.wait(rt) {
        return Worked {
            pass,
            end: WorkerEnd::CalledOff,
        };
    }
    let performed = perform(rt, monitor, &mut pass, commands, gate);
    Worked {
        pass,
        end: WorkerEnd::Performed(performed),
    }
}

/// Joins the threads that were started. Returns their results if all workers were started. Memory if not, or if a request for
/// memory was refused.
fn join_all<R: Threads, G: Gate>(
    rt: &R,
    handles: Vec<PromisedHandle<Worked, Assignment<G>>>,
    all: usize,
) -> Result<Vec<Worked>, WorkFault>
    ensures count { IfOk result (λ v. (vec_len v ≡ vec_len handles) × (vec_len handles ≡ all)) }
    ensures memory { IfErr result (λ e. e ≡ WorkFault.Memory) }
    ensures each { IfOk result (λ v. (j : ℕ) (w : Worked) → get_elem? v.items j ≡ some w → (h : _) × (get_elem? handles.items j ≡ some h)
        × WorksAs h.promise.monitor.value (G.stops h.promise.gate.value) h.promise.commands.value.items h.promise.pass.value w.pass w.end) }
{
    match thread::join_promised(rt, handles) {
        Ok(results) if results.len() == all => Ok(results),
        Ok(_) => Err(WorkFault::Memory),
        Err(failed) => {
            for handle in failed.value {
                handle.join(rt);
            }
            Err(WorkFault::Memory)
        }
    }
}

/// Runs the workers from one starting line, each with the pass and the commands at its place, and returns their results in
/// order. It sleeps until all have ended.
///
/// Memory if a request for memory was refused or a worker could not be started. In that case the started workers made no
/// command, or the results of their commands are lost with their passes.
pub(crate) fn run_workers<R: Threads + Wait + Sync, G: Gate>(
    rt: &R,
    alloc: Global,
    monitor: &Monitor<Total>,
    passes: Vec<Pass<Total>>,
    scripts: &[Vec<Command>],
    gate: &G,
) -> Result<Vec<Worked>, WorkFault>
    requires count { vec_len passes ≡ length scripts.now }
    requires ready { (j : ℕ) (p : _) → get_elem? passes.items j ≡ some p → ReadyFor monitor.now p }
    ensures count { IfOk result (λ v. vec_len v ≡ length scripts.now) }
    ensures memory { IfErr result (λ e. e ≡ WorkFault.Memory) }
    ensures each { IfOk result (λ v. (j : ℕ) (w : Worked) → get_elem? v.items j ≡ some w → (p : _) × (ms : Vec Command Global) × (get_elem? passes.items j ≡ some p)
        × (get_elem? scripts.now j ≡ some ms) × WorksAs monitor.now (G.stops gate.now) ms.items p w.pass w.end) }
{
    let line = StartingLine::new();
    let at_line = &line;
    // The closure repeats the contract, since a scope ensures only what its closure ensures. This makes the function long.
    thread::scope(
        thread::scope_env(),
        rt,
        move |scope| -> Result<Vec<Worked>, WorkFault>
            requires count { vec_len passes ≡ length scripts.now }
            requires ready { (j : ℕ) (p : _) → get_elem? passes.items j ≡ some p → ReadyFor monitor.now p }
            ensures count { IfOk result (λ v. vec_len v ≡ length scripts.entry.now) }
            ensures memory { IfErr result (λ e. e ≡ WorkFault.Memory) }
            ensures each { IfOk result (λ v. (j : ℕ) (w : Worked) → get_elem? v.items j ≡ some w → (p : _) × (ms : Vec Command Global) × (get_elem? passes.items j ≡ some p)
                × (get_elem? scripts.entry.now j ≡ some ms) × WorksAs monitor.entry.now (G.stops gate.entry.now) ms.items p w.pass w.end) }
        {
            let Ok(mut handles) = Vec::with_capacity(alloc, scripts.len()) else {
                return Err(WorkFault::Memory);
            };
            let mut all_started = true;
            'starting: for pass in passes {
                let commands = &scripts[handles.len()];
                let assignment = Assignment {
                    monitor: Snapshot::of(monitor),
                    pass: Snapshot::of(&pass),
                    commands: Snapshot::of(commands),
                    gate: Snapshot::of(gate),
                };
                let commands = commands.as_slice();
                let started = scope.spawn_with(
                    assignment,
                    move || -> Worked
                        requires { ReadyFor monitor.now pass }
                        ensures { WorksAs monitor.entry.now (G.stops gate.entry.now) commands.entry.now pass result.pass result.end }
                    { run_worker(rt, at_line, monitor, pass, commands, gate) },
                );
                let Ok(handle) = started else {
                    all_started = false;
                    break;
                };
                handles.push_reserved(handle);
            }
            if all_started {
                at_line.let_go(rt);
            } else {
                at_line.call_off(rt);
            }
            join_all(rt, handles, scripts.len())
        },
    )
}
