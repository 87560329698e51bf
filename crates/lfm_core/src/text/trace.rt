//! The text of a run, written line by line.
#![tactic(auto, using(lfm_text::proofs::Writes::writings))]

ghost use Rattle.std.specs.Prelude.{◌≡◌, ◌+◌, ◌<◌, ◌≤◌, [], ◌∷◌, ◌++◌, codes, decimal, drop, length, reverse, vec_capacity};
ghost use Rattle.lfm_core.specs.text.Trace.{how_text, held_text, again_text, asked_text, locked_text, unlocked_text, answer_text, why_text, open_text, turn_text, handoff_text, place_text, record_text, queue_text, words_text, state_text, opening_text, outcome_text, line_text, fault_text};
ghost use Rattle.lfm_text.specs.Writing.{Writes, joined};

use crate::stepped::State;
use crate::text::faults::ReplayFault;
use crate::text::schedule::{Act, Line};
use itoa::write_digits;
use lfm_model::{Asked, How, Locked, Place, Unlocked};
use lfm_protocol::{Answer, Turn, Why};
use lfm_text::{
    WriteFault, write_limit_line, write_line_feed, write_number, write_syntax_line, write_text,
};
use lfm_words::{Handoff, Record};
use std::io::Write;

/// Writes a word, followed by a number.
fn write_labelled<W: Write>(writer: &mut W, label: &[u8], number: u64) -> Result<(), WriteFault>
    ensures { Writes (W.contents writer.old) (W.contents writer.new)
        (joined (label.now ∷ decimal number ∷ [])) result }
{
    write_text(writer, label)?;
    write_number(writer, number)?;
    Ok(())
}

/// Writes how a seat came to hold: `Free`, or `Queued` and the stamp of its record.
fn write_how<W: Write>(writer: &mut W, how: How) -> Result<(), WriteFault>
    ensures { Writes (W.contents writer.old) (W.contents writer.new) (how_text how) result }
{
    match how {
        How::Free => write_text(writer, b"Free"),
        How::Queued(stamp) => write_labelled(writer, b"Queued ", stamp),
    }
}

/// Writes that a seat holds now, and how it came to hold.
fn write_held<W: Write>(writer: &mut W, how: How) -> Result<(), WriteFault>
    ensures { Writes (W.contents writer.old) (W.contents writer.new) (held_text how) result }
{
    write_text(writer, b"Held ")?;
    write_how(writer, how)?;
    Ok(())
}

/// Writes that a seat holds once more, and its depth.
fn write_again<W: Write>(writer: &mut W, depth: u32) -> Result<(), WriteFault>
    ensures { Writes (W.contents writer.old) (W.contents writer.new) (again_text depth) result }
{
    write_labelled(writer, b"Again ", u64::from(depth))
}

/// Writes the answer of a `lock`.
fn write_asked<W: Write>(writer: &mut W, answer: Asked) -> Result<(), WriteFault>
    ensures { Writes (W.contents writer.old) (W.contents writer.new) (asked_text answer) result }
{
    match answer {
        Asked::Held(how) => write_held(writer, how),
        Asked::Again(depth) => write_again(writer, depth),
        Asked::Asleep => write_text(writer, b"Asleep"),
    }
}

/// Writes the answer of a `try_lock`.
fn write_locked<W: Write>(writer: &mut W, answer: Locked) -> Result<(), WriteFault>
    ensures { Writes (W.contents writer.old) (W.contents writer.new) (locked_text answer) result }
{
    match answer {
        Locked::Held(how) => write_held(writer, how),
        Locked::Again(depth) => write_again(writer, depth),
    }
}

/// Writes the answer of an `unlock`, or what a `start_wait` did with the mutex.
fn write_unlocked<W: Write>(writer: &mut W, answer: Unlocked) -> Result<(), WriteFault>
    ensures { Writes (W.contents writer.old) (W.contents writer.new) (unlocked_text answer) result }
{
    match answer {
        Unlocked::Still(depth) => write_labelled(writer, b"Still ", u64::from(depth)),
        Unlocked::Free => write_text(writer, b"Free"),
        Unlocked::Granted(seat) => write_labelled(writer, b"Granted ", seat.get()),
        Unlocked::Posted => write_text(writer, b"Posted"),
        Unlocked::TakenOver => write_text(writer, b"TakenOver"),
    }
}

/// Writes the answer of a `start_wait`.
fn write_waiting<W: Write>(writer: &mut W, answer: Unlocked) -> Result<(), WriteFault>
    ensures { Writes (W.contents writer.old) (W.contents writer.new)
        (answer_text (Answer.Waiting answer)) result }
{
    write_text(writer, b"Waiting ")?;
    write_unlocked(writer, answer)?;
    Ok(())
}

/// Writes an answer, such as `Held Queued 1` or `Asleep`.
pub fn write_answer<W: Write>(writer: &mut W, answer: Answer) -> Result<(), WriteFault>
    ensures { Writes (W.contents writer.old) (W.contents writer.new) (answer_text answer) result }
{
    match answer {
        Answer::Asked(answer) => write_asked(writer, answer),
        Answer::Locked(answer) => write_locked(writer, answer),
        Answer::Unlocked(answer) => write_unlocked(writer, answer),
        Answer::Waiting(answer) => write_waiting(writer, answer),
        Answer::Got(None) => write_text(writer, b"None"),
        Answer::Got(Some(how)) => write_held(writer, how),
        Answer::Sent => write_text(writer, b"Sent"),
    }
}

/// Writes the name of a refusal.
pub fn write_why<W: Write>(writer: &mut W, why: Why) -> Result<(), WriteFault>
    ensures { Writes (W.contents writer.old) (W.contents writer.new) (why_text why) result }
{
    match why {
        Why::NoSuchSeat => write_text(writer, b"NoSuchSeat"),
        Why::InCall => write_text(writer, b"InCall"),
        Why::Idle => write_text(writer, b"Idle"),
        Why::By(refusal) => write_text(writer, refusal.name().as_bytes()),
    }
}

/// Writes `begins` if this line has begun the open call, or `goes on` if an earlier line has.
fn write_open<W: Write>(writer: &mut W, act: Act) -> Result<(), WriteFault>
    ensures { Writes (W.contents writer.old) (W.contents writer.new) (open_text act) result }
{
    match act {
        Act::Begin(_) => write_text(writer, b"begins"),
        Act::Steps(_) | Act::ToEnd => write_text(writer, b"goes on"),
    }
}

/// Writes the answer with which a call has ended.
fn write_ended<W: Write>(writer: &mut W, answer: Answer) -> Result<(), WriteFault>
    ensures { Writes (W.contents writer.old) (W.contents writer.new)
        (joined (codes "ends " ∷ answer_text answer ∷ [])) result }
{
    write_text(writer, b"ends ")?;
    write_answer(writer, answer)?;
    Ok(())
}

/// Writes why a turn was refused.
fn write_refused<W: Write>(writer: &mut W, why: Why) -> Result<(), WriteFault>
    ensures { Writes (W.contents writer.old) (W.contents writer.new)
        (joined (codes "refused " ∷ why_text why ∷ [])) result }
{
    write_text(writer, b"refused ")?;
    write_why(writer, why)?;
    Ok(())
}

/// Writes the result of a turn, which this act made: `begins` or `goes on` if the call is open, the answer or the refusal.
pub fn write_turn<W: Write>(writer: &mut W, act: Act, turn: Turn) -> Result<(), WriteFault>
    ensures { Writes (W.contents writer.old) (W.contents writer.new) (turn_text act turn) result }
{
    match turn {
        Turn::Open => write_open(writer, act),
        Turn::Ended(answer) => write_ended(writer, answer),
        Turn::Refused(why) => write_refused(writer, why),
    }
}

/// Writes a hand-off: 0, or the seat and its post number, as in `1.1`.
pub fn write_handoff<W: Write>(writer: &mut W, handoff: Handoff) -> Result<(), WriteFault>
    ensures { Writes (W.contents writer.old) (W.contents writer.new) (handoff_text handoff) result }
{
    if handoff.seat == 0 {
        return write_text(writer, b"0");
    }
    write_number(writer, handoff.seat)?;
    write_text(writer, b".")?;
    write_number(writer, handoff.post)?;
    Ok(())
}

/// Writes where the responsibility is, such as `owner.1` or `posted`.
pub fn write_place<W: Write>(writer: &mut W, place: Place) -> Result<(), WriteFault>
    ensures { Writes (W.contents writer.old) (W.contents writer.new) (place_text place) result }
{
    match place {
        Place::Free => write_text(writer, b"free"),
        Place::Owner(seat) => write_labelled(writer, b"owner.", seat.get()),
        Place::Passed(seat) => write_labelled(writer, b"passed.", seat.get()),
        Place::Posted => write_text(writer, b"posted"),
        Place::Carried(seat) => write_labelled(writer, b"carried.", seat.get()),
    }
}

/// The greatest number of bytes of a record's text with a comma before it: two numbers of 20 digits, and two separators.
const RECORD_SIZE: usize = 42;

/// Writes a number's digits into a buffer, so that they end at `end`, and returns where they start.
fn put_number(buffer: &mut [u8; RECORD_SIZE], number: u64, end: usize) -> usize
    requires { (20 ≤ end) × (end ≤ RECORD_SIZE) }
    ensures start { (end ≤ result + 20) × (result ≤ end) }
    ensures text { drop result buffer.new ≡ decimal number ++ drop end buffer.old }
{
    write_digits(number, buffer, end)
}

/// Writes a byte into a buffer, before a text that starts at `end`, and returns where the byte is.
fn put_byte(buffer: &mut [u8; RECORD_SIZE], byte: u8, end: usize) -> usize
    requires { (1 ≤ end) × (end ≤ RECORD_SIZE) }
    ensures place { result + 1 ≡ end }
    ensures text { drop result buffer.new ≡ byte ∷ drop end buffer.old }
{
    let start = end - 1;
    buffer[start] = byte;
    start
}

/// Writes a record's text at the end of a buffer, so that a comma fits before it, and returns where the text starts.
fn put_record(buffer: &mut [u8; RECORD_SIZE], queued: Record) -> usize
    ensures start { (1 ≤ result) × (result ≤ RECORD_SIZE) }
    ensures text { drop result buffer.new ≡ record_text queued }
{
    let stamp = put_number(buffer, queued.stamp, RECORD_SIZE);
    let separator = put_byte(buffer, b'#', stamp);
    put_number(buffer, queued.seat.get(), separator)
}

/// Writes a record as one text instead of part by part, since a queue may have many records.
fn write_record<W: Write>(writer: &mut W, queued: Record) -> Result<(), WriteFault>
    ensures { Writes (W.contents writer.old) (W.contents writer.new) (record_text queued) result }
{
    let mut buffer = [0; RECORD_SIZE];
    let start = put_record(&mut buffer, queued);
    write_text(writer, &buffer[start..])
}

/// Writes a comma and a record.
fn write_further<W: Write>(writer: &mut W, queued: Record) -> Result<(), WriteFault>
    ensures { Writes (W.contents writer.old) (W.contents writer.new)
        (joined (codes "," ∷ record_text queued ∷ [])) result }
{
    let mut buffer = [0; RECORD_SIZE];
    let record = put_record(&mut buffer, queued);
    let start = put_byte(&mut buffer, b',', record);
    write_text(writer, &buffer[start..])
}

/// Writes records, the last first, and removes them.
fn write_queue<W: Write>(writer: &mut W, records: &mut Vec<Record>) -> Result<(), WriteFault>
    ensures text { Writes (W.contents writer.old) (W.contents writer.new)
        (queue_text (reverse records.old.items)) result }
    ensures capacity { vec_capacity records.new ≡ vec_capacity records.old }
{
    let Some(oldest) = records.pop() else {
        return write_text(writer, b"-");
    };
    write_record(writer, oldest)?;
    'writing: while let Some(queued) = records.pop() {
        write_further(writer, queued)?;
    }
    Ok(())
}

/// Writes the count, the owner and the hand-off of a state.
fn write_words<W: Write>(writer: &mut W, state: &State) -> Result<(), WriteFault>
    ensures { Writes (W.contents writer.old) (W.contents writer.new) (words_text state.now) result }
{
    write_number(writer, state.count())?;
    write_text(writer, b" ")?;
    write_number(writer, state.owner())?;
    write_text(writer, b" ")?;
    write_handoff(writer, state.handoff())?;
    Ok(())
}

/// Writes a state as a trace shows it. Its queue is gathered in `records`, which has capacity for a record of each seat.
pub fn write_state<W: Write>(
    writer: &mut W,
    state: &State,
    records: &mut Vec<Record>,
) -> Result<(), WriteFault>
    requires { length state.now.seats ≤ vec_capacity records.old }
    ensures text { Writes (W.contents writer.old) (W.contents writer.new)
        (state_text state.now) result }
    ensures capacity { vec_capacity records.new ≡ vec_capacity records.old }
{
    state.gather(records);
    write_words(writer, state)?;
    write_text(writer, b" ")?;
    write_place(writer, state.place())?;
    write_text(writer, b" ")?;
    write_queue(writer, records)?;
    Ok(())
}

/// Writes the first line: the number of seats and the state.
pub fn write_opening<W: Write>(
    writer: &mut W,
    seats: u64,
    state: &State,
    records: &mut Vec<Record>,
) -> Result<(), WriteFault>
    requires { length state.now.seats ≤ vec_capacity records.old }
    ensures text { Writes (W.contents writer.old) (W.contents writer.new)
        (opening_text seats state.now) result }
    ensures capacity { vec_capacity records.new ≡ vec_capacity records.old }
{
    write_text(writer, b"1 seats ")?;
    write_number(writer, seats)?;
    write_text(writer, b" | ")?;
    write_state(writer, state, records)?;
    write_line_feed(writer)?;
    Ok(())
}

/// A line of a schedule that was run.
#[derive(Clone, Copy, Debug, PartialEq, Eq)]
pub struct Outcome {
    /// The number of the line.
    pub number: u64,
    /// The line: its seat, and what the seat does.
    pub line: Line,
    /// The last turn that it made.
    pub turn: Turn,
}

/// Writes the result of a line, but not the state after it.
pub fn write_outcome<W: Write>(writer: &mut W, outcome: Outcome) -> Result<(), WriteFault>
    ensures { Writes (W.contents writer.old) (W.contents writer.new)
        (outcome_text outcome.number outcome.line outcome.turn) result }
{
    let Outcome { number, line, turn } = outcome;
    write_number(writer, number)?;
    write_text(writer, b" ")?;
    write_number(writer, line.seat)?;
    write_text(writer, b" ")?;
    write_turn(writer, line.act, turn)?;
    Ok(())
}

/// Writes the result of a line, and the state after it.
pub fn write_line<W: Write>(
    writer: &mut W,
    outcome: Outcome,
    state: &State,
    records: &mut Vec<Record>,
) -> Result<(), WriteFault>
    requires { length state.now.seats ≤ vec_capacity records.old }
    ensures text { Writes (W.contents writer.old) (W.contents writer.new)
        (line_text outcome.number outcome.line outcome.turn state.now) result }
    ensures capacity { vec_capacity records.new ≡ vec_capacity records.old }
{
    write_outcome(writer, outcome)?;
    write_text(writer, b" | ")?;
    write_state(writer, state, records)?;
    write_line_feed(writer)?;
    Ok(())
}

/// Writes the line for a fault of the input: the number of the first line that is not a line of a schedule, or Limit for every
/// other fault. The callers pass only Syntax and Limit.
pub fn write_fault_line<W: Write>(writer: &mut W, fault: ReplayFault) -> Result<(), WriteFault>
    ensures { Writes (W.contents writer.old) (W.contents writer.new) (fault_text fault) result }
{
    match fault {
        ReplayFault::Syntax(number) => write_syntax_line(writer, number),
        _ => write_limit_line(writer),
    }
}
