//! Reads a schedule from a reader. If the input has a fault, the fault's line is written.

ghost use Rattle.std.specs.Prelude.{All, ◌≡◌, ◌≢◌, ◌<◌, length, true, Err, IfOk, IfSome, IsErrOf};
ghost use Rattle.std.specs.Io.KnownBytes.{Keeps};
ghost use Rattle.lfm_core.specs.text.Grammar.{HasFewSteps};
ghost use Rattle.lfm_core.specs.text.Replay.{Reads, SomeReading};
ghost use Rattle.lfm_core.specs.text.Trace.{fault_text};
ghost use Rattle.lfm_protocol.specs.Limits.{are_in_limits};
ghost use Rattle.lfm_text.specs.Text.{max_lines};
ghost use Rattle.lfm_text.specs.Writing.{Writes};

use crate::text::faults::ReplayFault;
use crate::text::schedule::{Schedule, read_schedule};
use crate::text::trace::write_fault_line;
use lfm_text::{WriteFault, flush, read_input};
use std::alloc::Global;
use std::io::{Read, Write};

/// Writes the line for a fault of the input, and flushes the writer.
fn write_fault<W: Write>(writer: &mut W, fault: ReplayFault) -> Result<(), WriteFault>
    ensures { Writes (W.contents writer.old) (W.contents writer.new) (fault_text fault) result }
{
    write_fault_line(writer, fault)?;
    flush(writer)?;
    Ok(())
}

/// Decodes a schedule from bytes already read. If they have a fault, it writes the fault's line.
fn schedule_in<W: Write>(
    alloc: Global,
    input: &[u8],
    writer: &mut W,
) -> Result<Schedule, ReplayFault>
    ensures reads { Reads result input.now (W.contents writer.old) (W.contents writer.new) }
    ensures no_read { result ≢ Err ReplayFault.Read }
    ensures unwritten { IfOk result (λ _. W.contents writer.new ≡ W.contents writer.old) }
    ensures limits { IfOk result (λ s. are_in_limits s.seats s.budget ≡ true) }
    ensures few { IfOk result (λ s. length s.lines.items < max_lines) }
    ensures steps { IfOk result (λ s. All (λ l. HasFewSteps l.act) s.lines.items) }
{
    match read_schedule(alloc, input) {
        Ok(schedule) => Ok(schedule),
        Err(ReplayFault::Memory) => Err(ReplayFault::Memory),
        Err(fault) => {
            write_fault(writer, fault)?;
            Err(fault)
        }
    }
}

/// Reads a schedule. On a fault of the input, Syntax or Limit, it writes the fault's line, flushes the writer and returns the
/// fault. After Read and Memory, and if there is no fault, nothing was written. It allocates at most twice: for the input, and
/// for the lines.
pub fn schedule_from<R: Read, W: Write>(
    alloc: Global,
    reader: &mut R,
    writer: &mut W,
) -> Result<Schedule, ReplayFault>
    // Some input was read, and the result is its schedule or its fault.
    ensures some { SomeReading result (R.remaining reader.old) (R.remaining reader.new)
        (W.contents writer.old) (W.contents writer.new) }
    // If the contents of the reader are known, the result is the schedule or the fault of exactly these.
    ensures exact { IfSome (R.remaining reader.old) (λ input.
        Reads result input (W.contents writer.old) (W.contents writer.new)) }
    ensures unwritten { IfOk result (λ _. W.contents writer.new ≡ W.contents writer.old) }
    ensures read { IsErrOf result ReplayFault.Read → Keeps (W.contents writer.old) (W.contents writer.new) }
    ensures memory { IsErrOf result ReplayFault.Memory → Keeps (W.contents writer.old) (W.contents writer.new) }

    ensures limits { IfOk result (λ s. are_in_limits s.seats s.budget ≡ true) }
    ensures few { IfOk result (λ s. length s.lines.items < max_lines) }
    ensures steps { IfOk result (λ s. All (λ l. HasFewSteps l.act) s.lines.items) }
{
    let input = read_input(alloc, reader)?;
    schedule_in(alloc, &input, writer)
}
