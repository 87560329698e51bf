//! What a schedule is, and how it is read from its bytes. Its lines are run in `schedule_runs`.

ghost use Rattle.std.specs.Prelude.{◌≡◌, ◌+◌, ◌^◌, ◌≤◌, ◌<◌, length, All, IfOk, IsErrOf};
ghost use Rattle.lfm_text.specs.Grammar.{lines_from};
ghost use Rattle.lfm_text.specs.Text.{lines_of, words_of, line_count, max_lines};
ghost use Rattle.lfm_protocol.specs.Limits.{max_seats, max_budget};
ghost use Rattle.lfm_core.specs.text.Grammar.{plain_act_of, act_of, send_of, line_of, header_of, schedules, plan_of, plan_in, Gives, HasFewSteps};

use crate::text::faults::ReplayFault;
use lfm_protocol::{Call, Limits, MAX_BUDGET};
use lfm_text::{LineWords, count_lines, first_line, read_number, split_words};
use std::alloc::Global;

/// What the seat of a line does.
#[derive(Clone, Copy, Debug, PartialEq, Eq)]
pub enum Act {
    /// The seat begins this call.
    Begin(Call),
    /// The seat makes up to this number of steps, 1 to `MAX_STEPS`, and stops when its call ends.
    Steps(u64),
    /// The seat makes steps until its call ends.
    ToEnd,
}

/// A line of a schedule after the first.
#[derive(Clone, Copy, Debug, PartialEq, Eq)]
pub struct Line {
    /// The number of the seat as it was written, below 10^18. There may be no such seat.
    pub seat: u64,
    /// What the seat does.
    pub act: Act,
}

/// A schedule: how many seats there are, and what they do, in order.
#[derive(Debug, Drop)]
pub struct Schedule {
    /// The number of seats: 1 to 4,095 in a schedule that was read.
    pub seats: u64,
    /// The budget of each seat: 1 to 2^36 in a schedule that was read.
    pub budget: u64,
    /// The lines after the first, in order: fewer than 65,536 in a schedule that was read.
    pub lines: Vec<Line>,
}

/// The greatest number of steps that one line may ask for.
pub const MAX_STEPS: u64 = 999;

/// The number of the line with this index among the lines after the first, in a schedule and in its trace. The first line has
/// number 1, so the line with index 0 has number 2. The number can't wrap, since a text has at most 65,536 lines.
pub fn line_number(index: usize) -> u64
    ensures { index + 2 < 2 ^ 64 → result ≡ index + 2 }
{
    (index as u64).wrapping_add(2)
}

/// The act that a word after the seat spells, if it is not a number of steps.
fn read_plain_act(word: &[u8]) -> Option<Act>
    ensures { result ≡ plain_act_of word.now }
{
    if word == b".".as_slice() {
        Some(Act::Steps(1))
    } else if word == b"*".as_slice() {
        Some(Act::ToEnd)
    } else if word == b"lock".as_slice() {
        Some(Act::Begin(Call::Lock))
    } else if word == b"try_lock".as_slice() {
        Some(Act::Begin(Call::TryLock))
    } else if word == b"unlock".as_slice() {
        Some(Act::Begin(Call::Unlock))
    } else if word == b"start_wait".as_slice() {
        Some(Act::Begin(Call::StartWait))
    } else if word == b"receive".as_slice() {
        Some(Act::Begin(Call::Receive))
    } else {
        None
    }
}

/// The act that a word after the seat spells.
fn read_act(word: &[u8]) -> Option<Act>
    ensures { result ≡ act_of word.now }
{
    match word {
        [b'+', digits @ ..] => match read_number(digits) {
            Some(count) if 1 <= count && count <= MAX_STEPS => Some(Act::Steps(count)),
            _ => None,
        },
        _ => read_plain_act(word),
    }
}

/// The line that three words spell: a seat's `send_lock` and its target.
fn read_send(seat: &[u8], call: &[u8], target: &[u8]) -> Option<Line>
    ensures { result ≡ send_of seat.now call.now target.now }
{
    if call != b"send_lock".as_slice() {
        return None;
    }
    let seat = read_number(seat)?;
    let target = read_number(target)?;
    Some(Line {
        seat,
        act: Act::Begin(Call::SendLock(target)),
    })
}

/// The line that a text after the first line spells. `None` if it is not a line of a schedule.
fn read_line(text: &[u8]) -> Option<Line>
    ensures { result ≡ line_of (words_of text.now) }
{
    match split_words(text) {
        LineWords::Two(seat, act) => {
            let seat = read_number(seat)?;
            let act = read_act(act)?;
            Some(Line { seat, act })
        }
        LineWords::Three(seat, call, target) => read_send(seat, call, target),
        LineWords::Four(..) | LineWords::Other => None,
    }
}

/// The number of seats and the budget that the first line names. `None` if it is not such a line.
fn read_header(text: &[u8]) -> Option<Limits>
    ensures { result ≡ header_of (words_of text.now) }
{
    let (word, seats, budget) = match split_words(text) {
        LineWords::Two(word, seats) => (word, seats, None),
        LineWords::Three(word, seats, budget) => (word, seats, Some(budget)),
        LineWords::Four(..) | LineWords::Other => return None,
    };
    if word != b"seats".as_slice() {
        return None;
    }
    let seats = read_number(seats)?;
    let budget = match budget {
        Some(budget) => read_number(budget)?,
        None => MAX_BUDGET,
    };
    Some(Limits { seats, budget })
}

/// The `count` lines that a text spells, of which the first has number 2, or the fault of the first that is not a line of a
/// schedule. It allocates once, for all of them, before it reads them, or not at all if there are none.
fn read_lines(alloc: Global, text: &[u8], count: usize) -> Result<Vec<Line>, ReplayFault>
    requires counted { length (lines_of text.now) ≡ count }
    requires few { count < max_lines }
    ensures said { Gives (λ v. v.items) result (lines_from schedules 2 (lines_of text.now)) }
    ensures all { IfOk result (λ v. length v.items ≡ count) }
    ensures memory { IsErrOf result ReplayFault.Memory → 0 < count }
{
    let mut lines = Vec::with_capacity(alloc, count).map_err(|_| ReplayFault::Memory)?;
    let mut rest = text;
    let mut number = 2;
    'reading: while let Some((line, after)) = first_line(rest) {
        match read_line(line) {
            Some(line) => lines.push_reserved(line),
            None => return Err(ReplayFault::Syntax(number)),
        }
        rest = after;
        number += 1;
    }
    Ok(lines)
}

/// Reads a schedule from its bytes.
///
/// A text may have several faults. The first of these is returned:
/// 1. Limit, if it is longer than 1,048,576 bytes or has more than 65,536 lines;
/// 2. Syntax, if some line is not a line of a schedule, with the number of the first such line. The numbers begin at 1, and a
///    text without lines has this fault in line 1;
/// 3. Limit, if no mutex may have this number of seats or this budget.
///
/// It allocates once, for the lines after the first, or not at all if there are no such lines. If the allocation fails it
/// returns Memory, before those lines are read. It never returns Read or Write.
pub fn read_schedule(alloc: Global, text: &[u8]) -> Result<Schedule, ReplayFault>
    ensures exact { Gives plan_of result (plan_in text.now) }
    // Memory is returned only if there are lines to store.
    ensures memory { IsErrOf result ReplayFault.Memory → 1 < line_count text.now }

    ensures few { IfOk result (λ s. length s.lines.items < max_lines) }
    ensures seats { IfOk result (λ s. (1 ≤ s.seats) × (s.seats ≤ max_seats)) }
    ensures budget { IfOk result (λ s. (1 ≤ s.budget) × (s.budget ≤ max_budget)) }
    ensures steps { IfOk result (λ s. All (λ l. HasFewSteps l.act) s.lines.items) }
{
    // `read_input` has counted line feeds too, to stop at a limit. But a text may also come from elsewhere.
    let Some(count) = count_lines(text) else {
        return Err(ReplayFault::Limit);
    };
    let Some((first, rest)) = first_line(text) else {
        return Err(ReplayFault::Syntax(1));
    };
    let Some(limits) = read_header(first) else {
        return Err(ReplayFault::Syntax(1));
    };
    let lines = read_lines(alloc, rest, count - 1)?;
    // `State::new` checks the limits too, for its other callers. Here they are a fault of the text, which is found before a
    // state is made.
    if !limits.are_allowed() {
        return Err(ReplayFault::Limit);
    }
    let Limits { seats, budget } = limits;
    Ok(Schedule {
        seats,
        budget,
        lines,
    })
}
