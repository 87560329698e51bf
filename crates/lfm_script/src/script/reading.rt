//! Reads a script from its bytes.

ghost use Rattle.std.specs.Prelude.{◌≡◌, ◌<◌, true, length, IfOk, IsErrOf};
ghost use Rattle.lfm_text.specs.Grammar.{lines_from};
ghost use Rattle.lfm_text.specs.Text.{lines_of, words_of, line_count, max_lines};
ghost use Rattle.lfm_script.specs.script.Limits.{lines_allowed, header_allowed};
ghost use Rattle.lfm_script.specs.script.Grammar.{short_command_of, until_of, line_of, header_of, scripts, script_of, script_in, Gives};

use crate::faults::WorkFault;
use crate::script::limits::{are_lines_allowed, is_header_allowed};
use crate::script::{Command, Script, ScriptLine};
use lfm_text::{LineWords, count_lines, first_line, read_number, split_words};
use std::alloc::Global;

/// The command that a word and its number spell. `None` if they spell none.
fn read_short_command(word: &[u8], number: u64) -> Option<Command>
    ensures { result ≡ short_command_of word.now number }
{
    if word == b"add".as_slice() {
        Some(Command::Add(number))
    } else if word == b"one".as_slice() {
        Some(Command::One(number))
    } else if word == b"all".as_slice() {
        Some(Command::All(number))
    } else {
        None
    }
}

/// The line that four words spell: a worker's `until`, with its condition and its bound. `None` if they spell none.
fn read_until(worker: &[u8], word: &[u8], condition: &[u8], bound: &[u8]) -> Option<ScriptLine>
    ensures { result ≡ until_of worker.now word.now condition.now bound.now }
{
    if word != b"until".as_slice() {
        return None;
    }
    let worker = read_number(worker)?;
    let condition = read_number(condition)?;
    let bound = read_number(bound)?;
    Some(ScriptLine {
        worker,
        command: Command::Until(condition, bound),
    })
}

/// Reads a line after the first. `None` if it is no line of a script.
fn read_line(text: &[u8]) -> Option<ScriptLine>
    ensures { result ≡ line_of (words_of text.now) }
{
    match split_words(text) {
        LineWords::Three(worker, word, number) => {
            let worker = read_number(worker)?;
            let number = read_number(number)?;
            let command = read_short_command(word, number)?;
            Some(ScriptLine { worker, command })
        }
        LineWords::Four(worker, word, condition, bound) => {
            read_until(worker, word, condition, bound)
        }
        LineWords::Two(_, _) | LineWords::Other => None,
    }
}

/// Reads the first line, which names the numbers of workers and conditions. `None` if it is no such line.
fn read_header(text: &[u8]) -> Option<(u64, u64)>
    ensures { result ≡ header_of (words_of text.now) }
{
    let LineWords::Three(word, workers, conditions) = split_words(text) else {
        return None;
    };
    if word != b"workers".as_slice() {
        return None;
    }
    let workers = read_number(workers)?;
    let conditions = read_number(conditions)?;
    Some((workers, conditions))
}

/// Reads the `count` lines of a text, of which the first has number 2. Returns Syntax with the number of the first that is no
/// line of a script. Makes one request for memory, for all lines, before it reads them.
fn read_lines(alloc: Global, text: &[u8], count: usize) -> Result<Vec<ScriptLine>, WorkFault>
    requires counted { length (lines_of text.now) ≡ count }
    requires few { count < max_lines }
    ensures said { Gives (λ v. v.items) result (lines_from scripts 2 (lines_of text.now)) }
    ensures all { IfOk result (λ v. length v.items ≡ count) }
    ensures memory { IsErrOf result WorkFault.Memory → 0 < count }
{
    let mut lines = Vec::with_capacity(alloc, count)?;
    let mut rest = text;
    let mut number = 2;
    'reading: while let Some((line, after)) = first_line(rest) {
        match read_line(line) {
            Some(line) => lines.push_reserved(line),
            None => return Err(WorkFault::Syntax(number)),
        }
        rest = after;
        number += 1;
    }
    Ok(lines)
}

/// Reads a script from its bytes.
///
/// If a text has several faults, the first of this list is returned:
/// 1. Limit, if it is longer than 1,048,576 bytes or has more than 65,536 lines;
/// 2. Syntax, if some line is no line of a script, with the number of the first such line. The numbers begin at 1, and a text
///    without lines has this fault in line 1;
/// 3. Limit, if the number of workers is outside 1 to 4,095 or that of conditions is above 16, or if a line names a worker or a
///    condition that does not exist, or a number above 1,000,000,000 to add or to wait for.
///
/// Makes one request for memory, for the lines after the first, and none if there are no such lines: Memory if it is refused,
/// before those lines are read. Never Read, Write or Stuck.
pub fn read_script(alloc: Global, text: &[u8]) -> Result<Script, WorkFault>
    ensures exact { Gives script_of result (script_in text.now) }
    // Memory is answered only if there are lines to be kept.
    ensures memory { IsErrOf result WorkFault.Memory → 1 < line_count text.now }

    ensures few { IfOk result (λ s. length s.lines.items < max_lines) }
    ensures header { IfOk result (λ s. header_allowed s.workers s.conditions ≡ true) }
    ensures lines { IfOk result (λ s. lines_allowed s.workers s.conditions s.lines.items ≡ true) }
{
    // `read_input` counts line feeds too, so that it stops at a limit. But the text may come from elsewhere.
    let Some(count) = count_lines(text) else {
        return Err(WorkFault::Limit);
    };
    let Some((first, rest)) = first_line(text) else {
        return Err(WorkFault::Syntax(1));
    };
    let Some((workers, conditions)) = read_header(first) else {
        return Err(WorkFault::Syntax(1));
    };
    let lines = read_lines(alloc, rest, count - 1)?;
    if !is_header_allowed(workers, conditions) {
        return Err(WorkFault::Limit);
    }
    if !are_lines_allowed(workers, conditions, &lines) {
        return Err(WorkFault::Limit);
    }
    Ok(Script {
        workers,
        conditions,
        lines,
    })
}
