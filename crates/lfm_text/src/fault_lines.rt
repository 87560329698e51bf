//! Writes the line for a fault of a text. Nothing here allocates memory.

ghost use Rattle.lfm_text.specs.FaultLines.{limit_text, syntax_text};
ghost use Rattle.lfm_text.specs.Writing.{Writes};

use crate::faults::WriteFault;
use crate::output::{write_line_feed, write_number, write_text};
use std::io::Write;

/// Writes the fault line for a text in which the line with this number has a fault of syntax. Returns a fault if the writer
/// fails, after a prefix of the line.
pub fn write_syntax_line<W: Write>(writer: &mut W, number: u64) -> Result<(), WriteFault>
    ensures { Writes (W.contents writer.old) (W.contents writer.new) (syntax_text number) result }
{
    write_text(writer, b"fault Syntax ")?;
    write_number(writer, number)?;
    write_line_feed(writer)?;
    Ok(())
}

/// Writes the fault line for a text that is past a limit. Returns a fault if the writer fails, after a prefix of the line.
pub fn write_limit_line<W: Write>(writer: &mut W) -> Result<(), WriteFault>
    ensures { Writes (W.contents writer.old) (W.contents writer.new) limit_text result }
{
    write_text(writer, b"fault Limit\n")
}
