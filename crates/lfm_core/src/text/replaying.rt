//! The replay of a schedule from a reader into a writer.

ghost use Rattle.std.specs.Prelude.{All, ◌≡◌, ◌≢◌, ◌++◌, ◌+◌, ◌<◌, ◌≤◌, length, vec_capacity, true, Err, Ok, IfErr, IfOk, IfSome, IsErrOf};
ghost use Rattle.std.specs.Io.KnownBytes.{Keeps};
ghost use Rattle.lfm_core.specs.text.Grammar.{HasFewSteps, plan_of};
ghost use Rattle.lfm_protocol.specs.Limits.{are_in_limits};
ghost use Rattle.lfm_text.specs.Text.{max_lines};
ghost use Rattle.lfm_core.specs.text.Trace.{none_refused, opening_text, lines_text, plan_text, opening};
ghost use Rattle.lfm_protocol.specs.Turns.{is_refused};
ghost use Rattle.lfm_text.specs.Writing.{Writes};
ghost use Rattle.lfm_core.specs.text.Replay.{Tells, Replays, SomeReplay};

use crate::stepped::State;
use crate::text::faults::ReplayFault;
use crate::text::reading::schedule_from;
use crate::text::schedule::{Line, Schedule, line_number};
use crate::text::trace::{Outcome, write_line, write_opening};
use lfm_text::{WriteFault, flush};
use lfm_words::Record;
use std::alloc::Global;
use std::io::{Read, Write};

/// Runs each line in turn, and writes its line of the trace. Returns whether no line was refused.
fn write_lines<W: Write>(
    writer: &mut W,
    state: &mut State,
    lines: &[Line],
    records: &mut Vec<Record>,
) -> Result<bool, WriteFault>
    requires capacity { length state.old.seats ≤ vec_capacity records.old }
    requires few { length lines.now < max_lines }
    requires steps { All (λ l. HasFewSteps l.act) lines.now }
    ensures text { Writes (W.contents writer.old) (W.contents writer.new)
        (lines_text 2 state.old lines.now) result }
    ensures verdict { IfOk result (λ b. b ≡ none_refused state.old lines.now) }
{
    let mut none_refused = true;
    'running: for (index, line) in lines.iter().enumerate() {
        let turn = state.follow(line);
        none_refused &= !turn.is_refused();
        let outcome = Outcome {
            number: line_number(index),
            line: *line,
            turn,
        };
        write_line(writer, outcome, state, records)?;
    }
    Ok(none_refused)
}

/// Writes the opening state, then runs the lines and writes the trace, and flushes the writer at the end. Returns whether no
/// line was refused.
fn write_run<W: Write>(
    writer: &mut W,
    schedule: &Schedule,
    state: &mut State,
    records: &mut Vec<Record>,
) -> Result<bool, WriteFault>
    requires capacity { length state.old.seats ≤ vec_capacity records.old }
    requires few { length schedule.now.lines.items < max_lines }
    requires steps { All (λ l. HasFewSteps l.act) schedule.now.lines.items }
    ensures text { let plan = plan_of schedule.now in Writes (W.contents writer.old) (W.contents writer.new)
        (opening_text plan.seats state.old ++ lines_text 2 state.old plan.lines) result }
    ensures verdict { IfOk result (λ b. b ≡ none_refused state.old schedule.now.lines.items) }
{
    write_opening(writer, schedule.seats, state, records)?;
    let none_refused = write_lines(writer, state, &schedule.lines, records)?;
    flush(writer)?;
    Ok(none_refused)
}

/// The state that a schedule starts from, and room for its queue: a record of each seat. It allocates 5 times, 4 times for the
/// state and once for the queue. Its only fault is Memory, if an allocation failed.
pub fn start_run(alloc: Global, schedule: &Schedule) -> Result<(State, Vec<Record>), ReplayFault>
    requires limits { are_in_limits schedule.now.seats schedule.now.budget ≡ true }
    ensures starts { IfOk result (λ r. r.0 ≡ opening (plan_of schedule.now)) }
    ensures capacity { IfOk result (λ r. length r.0.seats ≤ vec_capacity r.1) }
    ensures memory { IfErr result (λ e. e ≡ ReplayFault.Memory) }
{
    let state = State::new(alloc, schedule.seats, schedule.budget).map_err(
        |_| ReplayFault::Memory,
    )?;
    let records = Vec::with_capacity(alloc, schedule.seats as usize).map_err(
        |_| ReplayFault::Memory,
    )?;
    Ok((state, records))
}

/// Runs a schedule from a new state. Every allocation is made before the first write.
fn replay_schedule<W: Write>(
    alloc: Global,
    schedule: &Schedule,
    writer: &mut W,
) -> Result<bool, ReplayFault>
    requires limits { are_in_limits schedule.now.seats schedule.now.budget ≡ true }
    requires few { length schedule.now.lines.items < max_lines }
    requires steps { All (λ l. HasFewSteps l.act) schedule.now.lines.items }
    ensures told { let plan = plan_of schedule.now in
        Tells result (plan_text plan) (Ok (none_refused (opening plan) plan.lines))
        (W.contents writer.old) (W.contents writer.new) }
    ensures no_read { result ≢ Err ReplayFault.Read }
{
    let (mut state, mut records) = start_run(alloc, schedule)?;
    Ok(write_run(writer, schedule, &mut state, &mut records)?)
}

/// Replays the schedule that a reader gives: runs its lines from a new state, and writes a trace with one line for each.
/// Returns whether no line was refused.
///
/// The faults, and what is written before each of them:
/// - Memory and Read: nothing. Read is a failure of the reader, before the input was past a limit.
/// - Limit and Syntax: the line of the fault, and nothing else. `read_schedule` says which comes when. No byte is read
///   after the first that is past a limit of length.
/// - Write: a prefix of the text. The writer failed, accepted no byte, or failed to flush.
///
/// Any error of the reader or the writer is a failure, even an interruption. After the last line the writer is flushed. It
/// allocates at most 7 times, each time before the first write: once for the input, once for the lines, if there are any after
/// the first, 4 times for the state, and once for its queue.
pub fn replay<R: Read, W: Write>(
    alloc: Global,
    reader: &mut R,
    writer: &mut W,
) -> Result<bool, ReplayFault>
    // Some input was read, and the result is its replay. This states nothing about a reader or a writer whose bytes are not
    // known.
    ensures some { SomeReplay result (R.remaining reader.old) (R.remaining reader.new)
        (W.contents writer.old) (W.contents writer.new) }
    // If the contents of the reader are known, the result is the replay of exactly these.
    ensures exact { IfSome (R.remaining reader.old) (λ input.
        Replays result input (W.contents writer.old) (W.contents writer.new)) }
    // After these two faults nothing was written, whatever was read.
    ensures read { IsErrOf result ReplayFault.Read → Keeps (W.contents writer.old) (W.contents writer.new) }
    ensures memory { IsErrOf result ReplayFault.Memory → Keeps (W.contents writer.old) (W.contents writer.new) }
{
    let schedule = schedule_from(alloc, reader, writer)?;
    replay_schedule(alloc, &schedule, writer)
}
