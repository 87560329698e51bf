//! The driver runs a schedule on a running mutex by `start` and `next`. One thread has all its seats.
//!
//! It writes the lines of a replay without the states, so that the words of a running mutex can be compared with those of the
//! core's state.
ghost use Rattle.lfm_mutex.specs.Belongs.{Beside, OfMutex};
ghost use Rattle.std.specs.Prelude.{◌≡◌, ◌<◌, ◌⊎◌, All, length};

use lfm_core::text::schedule_from;
use lfm_core::text::trace::{Outcome, write_outcome};
use lfm_core::{Act, Line, ReplayFault, Schedule, Turn, Why, line_number};
use lfm_model::NewFault;
use lfm_mutex::steps::{next, start};
use lfm_mutex::{Mutex, Seat};
use lfm_protocol::limits::longest_call;
use lfm_text::{flush, write_line_feed, write_number, write_text};
use std::alloc::Global;
use std::io::{Read, Write};

/// The seat makes at most this number of steps, and stops when its call ends or a step is refused.
fn make_steps(mutex: &Mutex<u64>, seat: &mut Seat<u64>, most: u64) -> Turn
    requires belongs { OfMutex seat.old mutex.now }
    ensures belongs { Beside seat.old seat.new }
{
    'stepping: for _ in 0..most {
        let turn = next(mutex, seat);
        if !turn.is_open() {
            return turn;
        }
    }
    Turn::Open
}

/// The seat does what a line says. Returns the last turn.
fn follow_seat(mutex: &Mutex<u64>, seat: &mut Seat<u64>, act: Act, longest: u64) -> Turn
    requires belongs { OfMutex seat.old mutex.now }
    ensures belongs { Beside seat.old seat.new }
{
    match act {
        Act::Begin(call) => start(mutex, seat, call),
        Act::Steps(most) => make_steps(mutex, seat, most),
        Act::ToEnd => make_steps(mutex, seat, longest),
    }
}

/// Does what a line says on a running mutex of which these are all the seats, in order. Returns the last turn: NoSuchSeat if no
/// seat has the line's number.
pub fn follow(mutex: &Mutex<u64>, seats: &mut [Seat<u64>], line: &Line) -> Turn
    requires belong { All (λ s. OfMutex s mutex.now) seats.old }
    ensures belong { All (λ s. OfMutex s mutex.now) seats.new }
    ensures all { length seats.new ≡ length seats.old }
    ensures missing { (line.now.seat ≡ 0) ⊎ (length seats.old < line.now.seat)
        → (result ≡ Turn.Refused Why.NoSuchSeat) × (seats.new ≡ seats.old) }
{
    let seat_count = seats.len() as u64;
    if line.seat == 0 || line.seat > seat_count {
        return Turn::Refused(Why::NoSuchSeat);
    }
    let longest = longest_call(seat_count);
    let at = (line.seat - 1) as usize;
    follow_seat(mutex, &mut seats[at], line.act, longest)
}

/// Writes the outcome of each line when it has been made. Returns whether none was refused.
fn drive_lines<W: Write>(
    writer: &mut W,
    mutex: &Mutex<u64>,
    seats: &mut [Seat<u64>],
    lines: &[Line],
) -> Result<bool, ReplayFault>
    requires belong { All (λ s. OfMutex s mutex.now) seats.old }
{
    let mut none_refused = true;
    'driving: for (index, line) in lines.iter().enumerate() {
        let turn = follow(mutex, seats, line);
        none_refused &= !turn.is_refused();
        let outcome = Outcome {
            number: line_number(index),
            line: *line,
            turn,
        };
        write_outcome(writer, outcome)?;
        write_line_feed(writer)?;
    }
    Ok(none_refused)
}

/// Drives a schedule. All memory is requested before the first byte is written.
fn drive_schedule<W: Write>(
    alloc: Global,
    schedule: &Schedule,
    writer: &mut W,
) -> Result<bool, ReplayFault> {
    let (mutex, mut seats) = match Mutex::new(alloc, schedule.seats, schedule.budget, 0u64) {
        Ok(made) => made,
        Err(NewFault::Limit) => return Err(ReplayFault::Limit),
        Err(NewFault::Memory) => return Err(ReplayFault::Memory),
    };
    write_text(writer, b"1 seats ")?;
    write_number(writer, schedule.seats)?;
    write_line_feed(writer)?;
    let none_refused = drive_lines(writer, &mutex, seats.as_mut_slice(), &schedule.lines)?;
    flush(writer)?;
    Ok(none_refused)
}

/// Reads a schedule, drives it through a running mutex at its start, and writes a line for each of its lines: its outcome as in
/// a replay, without the state. Returns whether no line was refused.
///
/// Faults, their order and the flush are those of a replay. Syntax and Limit are written as a line of their own and then
/// answered. Read and Memory are answered before anything is written, and Write after a prefix of the text. The memory for the
/// input, the lines of the schedule and the mutex is requested before the first byte is written.
pub fn drive<R: Read, W: Write>(
    alloc: Global,
    reader: &mut R,
    writer: &mut W,
) -> Result<bool, ReplayFault> {
    let schedule = schedule_from(alloc, reader, writer)?;
    drive_schedule(alloc, &schedule, writer)
}
