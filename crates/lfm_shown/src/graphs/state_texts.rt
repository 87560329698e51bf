//! The texts of a state, each in a vector of its own: what a trace shows of the state, its push word, and each seat.
#![tactic(auto, using(lfm_text::proofs::Writes::writings))]

ghost use Rattle.std.specs.Prelude.{◌≡◌, ◌≤◌, length, vec_capacity, IfOk};
ghost use Rattle.lfm_core.specs.text.Trace.{state_text};
ghost use Rattle.lfm_shown.specs.Graphs.{barred_text, seats_text, key_text};
ghost use Rattle.lfm_shown.specs.Texts.{link_text, seat_text};
ghost use Rattle.lfm_text.specs.Writing.{Writes};

use crate::seats::write_seat;
use crate::values::write_link;
use lfm_core::State;
use lfm_core::text::trace::write_state;
use lfm_text::{WriteFault, write_text};
use lfm_words::Record;
use std::alloc::{AllocError, Global};
use std::io::Write;

/// What a trace shows of a state. It allocates memory.
pub(crate) fn trace_text_of(alloc: Global, state: &State) -> Result<Vec<u8>, AllocError>
    ensures { IfOk result (λ text. text.items ≡ state_text state.now) }
{
    let mut text = Vec::new(alloc);
    let mut records = Vec::with_capacity(alloc, state.seats() as usize)?;
    match write_state(&mut text, state, &mut records) {
        Ok(()) => Ok(text),
        Err(WriteFault) => Err(AllocError),
    }
}

/// The push word of a state, as a text. It allocates memory.
pub(crate) fn push_text_of(alloc: Global, state: &State) -> Result<Vec<u8>, AllocError>
    ensures { IfOk result (λ text. text.items ≡ link_text state.now.push) }
{
    let mut text = Vec::new(alloc);
    match write_link(&mut text, state.push_word()) {
        Ok(()) => Ok(text),
        Err(WriteFault) => Err(AllocError),
    }
}

/// What seat s has in a state, as a text. It allocates memory.
pub(crate) fn seat_text_of(alloc: Global, state: &State, s: u64) -> Result<Vec<u8>, AllocError>
    ensures { IfOk result (λ text. text.items ≡ seat_text state.now s) }
{
    let mut text = Vec::new(alloc);
    match write_seat(&mut text, state, s) {
        Ok(()) => Ok(text),
        Err(WriteFault) => Err(AllocError),
    }
}

/// Writes all texts of a state, with bars between them. The queue is gathered in `records`, which has capacity for a record of
/// each seat.
pub fn write_key_text<W: Write>(
    writer: &mut W,
    state: &State,
    records: &mut Vec<Record>,
) -> Result<(), WriteFault>
    requires { length state.now.seats ≤ vec_capacity records.old }
    ensures { Writes (W.contents writer.old) (W.contents writer.new) (key_text state.now) result }
{
    write_state(writer, state, records)?;
    write_text(writer, b"|")?;
    write_link(writer, state.push_word())?;
    write_seats(writer, state)?;
    Ok(())
}

/// Writes what each seat has in a state, each after a bar.
fn write_seats<W: Write>(writer: &mut W, state: &State) -> Result<(), WriteFault>
    ensures { Writes (W.contents writer.old) (W.contents writer.new) (seats_text state.now 0 (length state.now.seats)) result }
{
    'seats: for s in 0..state.seats() {
        write_barred(writer, state, s + 1)?;
    }
    write_text(writer, b"")
}

/// Writes what seat s has in a state, after a bar.
fn write_barred<W: Write>(writer: &mut W, state: &State, s: u64) -> Result<(), WriteFault>
    ensures { Writes (W.contents writer.old) (W.contents writer.new) (barred_text state.now s) result }
{
    write_text(writer, b"|")?;
    write_seat(writer, state, s)?;
    Ok(())
}
