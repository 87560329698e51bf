//! Reads a script of workers from a reader, runs it, and writes its report into a writer.

ghost use Rattle.std.specs.Prelude.{◌≡◌, ◌≢◌, ◌<◌, true, length, Err, Ok, IfSome};
ghost use Rattle.lfm_text.specs.Text.{max_lines};
ghost use Rattle.lfm_text.specs.Writing.{Writes};
ghost use Rattle.lfm_script.specs.Report.{fault_text, report_text, script_text};
ghost use Rattle.lfm_program.specs.Workers.{StopsIn};
ghost use Rattle.lfm_program.specs.Works.{SomeWork, TellsWork, Works};
ghost use Rattle.lfm_script.specs.script.Grammar.{Plan, script_in, script_of};
ghost use Rattle.lfm_script.specs.script.Limits.{header_allowed, lines_allowed};
ghost use Rattle.std.specs.Io.KnownBytes.{Appends};

use crate::gates::Gate;
use crate::script_run::{ScriptRun, run_script};
use lfm_script::{Script, WorkFault, read_script, write_fault, write_report};
use lfm_text::{WriteFault, flush, read_input};
use std::alloc::Global;
use std::io::{Read, Write};
use std::sync::Wait;
use std::thread::Threads;

/// Writes the report of a run, and flushes the writer.
fn write_run<W: Write>(writer: &mut W, run: &ScriptRun) -> Result<(), WriteFault>
    ensures { Writes (W.contents writer.old) (W.contents writer.new)
        (report_text run.now.rows.items run.now.total run.now.lawful) result }
{
    write_report(writer, &run.rows, run.total, run.lawful)?;
    flush(writer)?;
    Ok(())
}

/// Writes the line that reports a fault of the input, and flushes the writer.
fn write_input_fault<W: Write>(writer: &mut W, fault: WorkFault) -> Result<(), WriteFault>
    ensures { Writes (W.contents writer.old) (W.contents writer.new) (fault_text fault) result }
{
    write_fault(writer, fault)?;
    flush(writer)?;
    Ok(())
}

/// Runs a script that was read. Every request for memory precedes the first write.
fn work_script<R: Threads + Wait + Sync, G: Gate, W: Write>(
    rt: &R,
    alloc: Global,
    script: &Script,
    writer: &mut W,
    gate: &G,
) -> Result<bool, WorkFault>
    requires header { header_allowed script.now.workers script.now.conditions ≡ true }
    requires lines { lines_allowed script.now.workers script.now.conditions script.now.lines.items ≡ true }
    requires few { length script.now.lines.items < max_lines }
    ensures told { TellsWork (G.stops gate.now) result (Ok (script_of script.now))
        (W.contents writer.old) (W.contents writer.new) }
    ensures no_read { result ≢ Err WorkFault.Read }
{
    let run = run_script(rt, alloc, script, gate)?;
    write_run(writer, &run)?;
    Ok(run.succeeded)
}

/// Runs the script in bytes already read.
fn work_input<R: Threads + Wait + Sync, G: Gate, W: Write>(
    rt: &R,
    alloc: Global,
    input: &[u8],
    writer: &mut W,
    gate: &G,
) -> Result<bool, WorkFault>
    ensures told { Works (G.stops gate.now) result input.now
        (W.contents writer.old) (W.contents writer.new) }
    ensures no_read { result ≢ Err WorkFault.Read }
{
    match read_script(alloc, input) {
        Ok(script) => work_script(rt, alloc, &script, writer, gate),
        Err(WorkFault::Memory) => Err(WorkFault::Memory),
        Err(fault) => {
            write_input_fault(writer, fault)?;
            Err(fault)
        }
    }
}

/// Reads a script, runs its workers on one monitor, each in its own thread, and writes the report of the run. Returns whether
/// the journal is lawful, which it always is, and no worker was refused. Each of N workers may write 1,048,576 / N entries,
/// rounded down. It sleeps until all workers have ended.
///
/// The faults, and what is written before each of them:
/// - Read and Memory: nothing. Read is a failure of the reader, before the input was past a limit. Memory is a request that was
///   refused, or a worker that could not be started.
/// - Syntax and Limit: the line of the fault, and nothing else. The order of these faults is that of `read_script`.
/// - Stuck: nothing. The gate stopped a worker before one of its commands. It is never answered with an `OpenGate`.
/// - Write: a prefix of the text. The writer failed, took no byte, or failed to flush.
///
/// Every request for memory precedes the first write. After the last line the writer is flushed.
pub fn work<R: Threads + Wait + Sync, G: Gate, I: Read, W: Write>(
    rt: &R,
    alloc: Global,
    reader: &mut I,
    writer: &mut W,
    gate: &G,
) -> Result<bool, WorkFault>
    // Some input was read, and this is its run. Nothing is ensured of bytes of the reader or the writer that are not known.
    ensures some { SomeWork (G.stops gate.now) result (I.remaining reader.old) (I.remaining reader.new)
        (W.contents writer.old) (W.contents writer.new) }
    // If the reader's bytes are known, this is the run of exactly these bytes.
    ensures exact { IfSome (I.remaining reader.old) (λ input.
        Works (G.stops gate.now) result input (W.contents writer.old) (W.contents writer.new)) }
    // If no worker was refused, the text that is written is a function of the script.
    ensures script { IfSome (I.remaining reader.old) (λ input. (p : Plan) → script_in input ≡ Ok p → result ≡ Ok true →
        Appends (W.contents writer.old) (W.contents writer.new) (script_text p)) }
    // Stuck is answered only with a gate that may stop some worker before one of its commands.
    ensures stuck { result ≡ Err WorkFault.Stuck → (p : Plan) × StopsIn (G.stops gate.now) p }
{
    let input = read_input(alloc, reader)?;
    work_input(rt, alloc, &input, writer, gate)
}
