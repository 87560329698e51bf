//! Writes texts and numbers directly to a writer. Nothing here allocates memory.

ghost use Rattle.std.specs.Prelude.{[], codes, decimal};
ghost use Rattle.lfm_text.specs.Writing.{Writes};

use crate::faults::WriteFault;
use itoa::Buffer;
use std::io::Write;

/// Writes all of a text. Returns a fault if the writer fails or accepts no byte, after a prefix of the text. Any error of the
/// writer counts, even an interruption.
pub fn write_text<W: Write>(writer: &mut W, text: &[u8]) -> Result<(), WriteFault>
    ensures { Writes (W.contents writer.old) (W.contents writer.new) text.now result }
{
    let mut at = 0;
    'writing: while at < text.len() {
        match writer.write(&text[at..]) {
            Ok(0) => return Err(WriteFault),
            Ok(count) => at += count,
            Err(_) => return Err(WriteFault),
        }
    }
    Ok(())
}

/// Writes a number in decimal digits. Returns a fault if the writer fails, after a prefix of them.
pub fn write_number<W: Write>(writer: &mut W, number: u64) -> Result<(), WriteFault>
    ensures { Writes (W.contents writer.old) (W.contents writer.new) (decimal number) result }
{
    let mut buffer = Buffer::new();
    write_text(writer, buffer.format(number).as_bytes())
}

/// Writes a line feed. Returns a fault if the writer fails or accepts no byte.
pub fn write_line_feed<W: Write>(writer: &mut W) -> Result<(), WriteFault>
    ensures { Writes (W.contents writer.old) (W.contents writer.new) (codes "\n") result }
{
    write_text(writer, b"\n")
}

/// Flushes the writer. Returns a fault if that fails.
pub fn flush<W: Write>(writer: &mut W) -> Result<(), WriteFault>
    ensures { Writes (W.contents writer.old) (W.contents writer.new) [] result }
{
    writer.flush().map_err(|_| WriteFault)
}
