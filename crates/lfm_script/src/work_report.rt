//! The report of a run of workers, as it is written. Nothing here asks for memory.
#![tactic(auto, using(lfm_text::proofs::Writes::writings))]

ghost use Rattle.std.specs.Prelude.{Some, codes};
ghost use Rattle.lfm_text.specs.Writing.{Writes};
ghost use Rattle.lfm_script.specs.Report.{count_text, refused_text, row_text, rows_text, lawful_text, total_text, report_text, fault_text};

use crate::faults::WorkFault;
use crate::rows::Row;
use lfm_model::Refusal;
use lfm_text::{
    WriteFault, write_limit_line, write_line_feed, write_number, write_syntax_line, write_text,
};
use std::io::Write;

/// Writes a worker's number, and how many numbers it added.
fn write_count<W: Write>(writer: &mut W, row: &Row) -> Result<(), WriteFault>
    ensures { Writes (W.contents writer.old) (W.contents writer.new) (count_text row.now) result }
{
    write_text(writer, b"worker ")?;
    write_number(writer, row.worker)?;
    write_text(writer, b" adds ")?;
    write_number(writer, row.count)?;
    Ok(())
}

/// Writes why a worker was refused.
fn write_refusal<W: Write>(writer: &mut W, refusal: Refusal) -> Result<(), WriteFault>
    ensures { Writes (W.contents writer.old) (W.contents writer.new) (refused_text (Some refusal)) result }
{
    write_text(writer, b" refused ")?;
    write_text(writer, refusal.name().as_bytes())?;
    Ok(())
}

/// Writes why a worker was refused, and nothing for a worker that was not.
fn write_refused<W: Write>(writer: &mut W, refused: Option<Refusal>) -> Result<(), WriteFault>
    ensures { Writes (W.contents writer.old) (W.contents writer.new) (refused_text refused) result }
{
    match refused {
        None => write_text(writer, b""),
        Some(refusal) => write_refusal(writer, refusal),
    }
}

/// Writes the line of one worker.
fn write_row<W: Write>(writer: &mut W, row: &Row) -> Result<(), WriteFault>
    ensures { Writes (W.contents writer.old) (W.contents writer.new) (row_text row.now) result }
{
    write_count(writer, row)?;
    write_text(writer, b" sum ")?;
    write_number(writer, row.sum)?;
    write_refused(writer, row.refused)?;
    write_line_feed(writer)?;
    Ok(())
}

/// Writes the lines of the workers.
fn write_rows<W: Write>(writer: &mut W, rows: &[Row]) -> Result<(), WriteFault>
    ensures { Writes (W.contents writer.old) (W.contents writer.new) (rows_text rows.now) result }
{
    'writing: for row in rows {
        write_row(writer, row)?;
    }
    Ok(())
}

/// Writes the last line: whether the journal is lawful.
fn write_lawful<W: Write>(writer: &mut W, lawful: bool) -> Result<(), WriteFault>
    ensures { Writes (W.contents writer.old) (W.contents writer.new) (lawful_text lawful) result }
{
    if lawful {
        write_text(writer, b"lawful\n")
    } else {
        write_text(writer, b"unlawful\n")
    }
}

/// Writes the line of the total, and the last line.
fn write_total<W: Write>(writer: &mut W, total: u64, lawful: bool) -> Result<(), WriteFault>
    ensures { Writes (W.contents writer.old) (W.contents writer.new) (total_text total lawful) result }
{
    write_text(writer, b"total ")?;
    write_number(writer, total)?;
    write_line_feed(writer)?;
    write_lawful(writer, lawful)?;
    Ok(())
}

/// Writes the report: a line for each row in order, a line with the total, and a line `lawful` or `unlawful`. It does not
/// flush. A fault if the writer fails or takes no byte, after a prefix of the report.
pub fn write_report<W: Write>(
    writer: &mut W,
    rows: &[Row],
    total: u64,
    lawful: bool,
) -> Result<(), WriteFault>
    ensures { Writes (W.contents writer.old) (W.contents writer.new)
        (report_text rows.now total lawful) result }
{
    write_rows(writer, rows)?;
    write_total(writer, total, lawful)
}

/// Writes the line of a fault of the input: of Syntax with its line's number, or of Limit. Any other fault is not a fault of
/// the input, and nothing is written. It does not flush. A fault if the writer fails or takes no byte, after a prefix of the
/// line.
pub fn write_fault<W: Write>(writer: &mut W, fault: WorkFault) -> Result<(), WriteFault>
    ensures { Writes (W.contents writer.old) (W.contents writer.new) (fault_text fault) result }
{
    match fault {
        WorkFault::Syntax(number) => write_syntax_line(writer, number),
        WorkFault::Limit => write_limit_line(writer),
        WorkFault::Read | WorkFault::Write | WorkFault::Memory | WorkFault::Stuck => {
            write_text(writer, b"")
        }
    }
}
