//! The explanation of a schedule: the lines of `lfm replay`, and before each of them the starts of calls and the steps that led
//! to it.
ghost use Rattle.std.specs.Prelude.{◌≡◌, ◌≤◌, length, vec_capacity, true, Ok, IfOk, IfSome, IsErrOf};
ghost use Rattle.std.specs.Io.KnownBytes.{Keeps};
ghost use Rattle.lfm_core.specs.text.Grammar.{plan_of};
ghost use Rattle.lfm_core.specs.text.Lines.{steps, line_moved};
ghost use Rattle.lfm_core.specs.text.Trace.{none_refused, opening};
ghost use Rattle.lfm_protocol.specs.Limits.{are_in_limits};
ghost use Rattle.lfm_explain.specs.Verdicts.{AnswersVerdict, Judges};

use crate::shown::{LineStart, begin_shown, step_shown};
use lfm_core::text::trace::{Outcome, write_line, write_opening};
use lfm_core::text::{schedule_from, start_run};
use lfm_core::{Act, Line, ReplayFault, Schedule, State, Turn, line_number};
use lfm_text::{WriteFault, flush};
use lfm_words::Record;
use std::alloc::Global;
use std::io::{Read, Write};

/// The seat of this line makes at most this number of steps, and a line is written for each. It stops when its call ends or a
/// step is refused. Returns the last turn.
fn steps_shown<W: Write>(
    writer: &mut W,
    start: LineStart,
    most: u64,
    state: &mut State,
) -> Result<Turn, WriteFault>
    ensures core { IfOk result (λ _. state.new ≡ (steps most state.old start.seat).core) }
    ensures turn { IfOk result (λ turn. turn ≡ (steps most state.old start.seat).turn) }
{
    for _ in 0..most {
        let turn = step_shown(writer, start, state)?;
        if !turn.is_open() {
            return Ok(turn);
        }
    }
    Ok(Turn::Open)
}

/// Does what a line says, and writes a line for each start of a call and each step. Returns the last turn.
fn line_shown<W: Write>(
    writer: &mut W,
    number: u64,
    line: &Line,
    state: &mut State,
) -> Result<Turn, WriteFault>
    ensures core { IfOk result (λ _. state.new ≡ (line_moved state.old line.now).core) }
    ensures turn { IfOk result (λ turn. turn ≡ (line_moved state.old line.now).turn) }
{
    let start = LineStart {
        number,
        seat: line.seat,
    };
    match line.act {
        Act::Begin(call) => begin_shown(writer, start, call, state),
        Act::Steps(most) => steps_shown(writer, start, most, state),
        Act::ToEnd => {
            let most = state.longest_call();
            steps_shown(writer, start, most, state)
        }
    }
}

/// Explains the lines in their order. Returns whether none was refused.
fn explain_lines<W: Write>(
    writer: &mut W,
    state: &mut State,
    lines: &[Line],
    records: &mut Vec<Record>,
) -> Result<bool, WriteFault>
    requires capacity { length state.old.seats ≤ vec_capacity records.old }
    ensures verdict { IfOk result (λ b. b ≡ none_refused state.old lines.now) }
{
    let mut none_refused = true;
    'running: for (index, line) in lines.iter().enumerate() {
        let number = line_number(index);
        let turn = line_shown(writer, number, line, state)?;
        none_refused &= !turn.is_refused();
        let outcome = Outcome {
            number,
            line: *line,
            turn,
        };
        write_line(writer, outcome, state, records)?;
    }
    Ok(none_refused)
}

/// Writes the state at the start, explains the schedule's lines, and flushes the writer. Returns whether no line was refused.
fn explain_run<W: Write>(
    writer: &mut W,
    schedule: &Schedule,
    state: &mut State,
    records: &mut Vec<Record>,
) -> Result<bool, WriteFault>
    requires capacity { length state.old.seats ≤ vec_capacity records.old }
    ensures verdict { IfOk result (λ b. b ≡ none_refused state.old schedule.now.lines.items) }
{
    write_opening(writer, schedule.seats, state, records)?;
    let none_refused = explain_lines(writer, state, &schedule.lines, records)?;
    flush(writer)?;
    Ok(none_refused)
}

/// Explains a schedule. All memory is requested before the first byte is written.
fn explain_schedule<W: Write>(
    alloc: Global,
    schedule: &Schedule,
    writer: &mut W,
) -> Result<bool, ReplayFault>
    requires limits { are_in_limits schedule.now.seats schedule.now.budget ≡ true }
    ensures { let plan = plan_of schedule.now in
        AnswersVerdict result (Ok (none_refused (opening plan) plan.lines)) (W.contents writer.old) (W.contents writer.new) }
{
    let (mut state, mut records) = start_run(alloc, schedule)?;
    Ok(explain_run(writer, schedule, &mut state, &mut records)?)
}

/// Reads a schedule, runs it on a mutex at its start, and writes what `replay` writes. Before each line of that, it writes a
/// line for each start of a call and each step that the schedule's line makes. Returns whether no line was refused.
///
/// Grammar, limits and faults are those of `replay`, in the same order. All memory is requested before the first byte is
/// written, by the same requests as in `replay`. At the end the writer is flushed.
pub fn explain<R: Read, W: Write>(
    alloc: Global,
    reader: &mut R,
    writer: &mut W,
) -> Result<bool, ReplayFault>
    // The answer is that of `replay` to the same bytes, unless reading, writing or memory fails.
    ensures verdict { IfSome (R.remaining reader.old) (λ input.
        Judges result input (W.contents writer.old) (W.contents writer.new)) }
    // After these two faults nothing was written, whatever was read.
    ensures read { IsErrOf result ReplayFault.Read → Keeps (W.contents writer.old) (W.contents writer.new) }
    ensures memory { IsErrOf result ReplayFault.Memory → Keeps (W.contents writer.old) (W.contents writer.new) }
{
    let schedule = schedule_from(alloc, reader, writer)?;
    explain_schedule(alloc, &schedule, writer)
}
