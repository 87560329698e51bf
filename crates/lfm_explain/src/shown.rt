//! The lines of starts of calls and of steps, each with the number of the schedule's line and the seat.
ghost use Rattle.std.specs.Prelude.{◌≡◌, IfOk};
ghost use Rattle.lfm_protocol.specs.Step.{begin, step};

use lfm_core::{Call, State, Turn};
use lfm_shown::{ShownStart, ShownStep};
use lfm_text::{WriteFault, write_line_feed, write_number, write_text};
use std::io::Write;

/// What each line of an explanation starts with.
#[derive(Clone, Copy, Debug, PartialEq, Eq)]
pub struct LineStart {
    /// The number of the schedule's line.
    pub number: u64,
    /// The seat that this line names.
    pub seat: u64,
}

/// The seat of this line starts a call. Writes the line of the start: what the checks answered, and what was charged.
pub fn begin_shown<W: Write>(
    writer: &mut W,
    start: LineStart,
    call: Call,
    state: &mut State,
) -> Result<Turn, WriteFault>
    ensures core { state.new ≡ (begin state.old start.seat call).core }
    ensures turn { IfOk result (λ turn. turn ≡ (begin state.old start.seat call).turn) }
{
    let shown = ShownStart::make(state, start.seat, call);
    write_line_start(writer, start)?;
    shown.write(writer)?;
    write_line_feed(writer)?;
    Ok(shown.turn)
}

/// The seat of this line makes the step at its point. Writes the line of the step, or nothing if no call of the seat is open.
pub fn step_shown<W: Write>(
    writer: &mut W,
    start: LineStart,
    state: &mut State,
) -> Result<Turn, WriteFault>
    ensures core { state.new ≡ (step state.old start.seat).core }
    ensures turn { IfOk result (λ turn. turn ≡ (step state.old start.seat).turn) }
{
    let (turn, shown) = ShownStep::make(state, start.seat);
    if let Some(shown) = shown {
        write_step(writer, start, &shown)?;
    }
    Ok(turn)
}

/// Writes the line of a step.
fn write_step<W: Write>(
    writer: &mut W,
    start: LineStart,
    shown: &ShownStep,
) -> Result<(), WriteFault> {
    write_line_start(writer, start)?;
    shown.write(writer)?;
    write_line_feed(writer)
}

/// Writes the number of the schedule's line and the seat.
fn write_line_start<W: Write>(writer: &mut W, start: LineStart) -> Result<(), WriteFault> {
    write_number(writer, start.number)?;
    write_text(writer, b" ")?;
    write_number(writer, start.seat)?;
    write_text(writer, b" ")
}
