//! What a seat has in a state, as a text: its plain data, its words, and its next step. With the trace's text of the state
//! and the push word, the texts of all seats show every word of the state.
#![tactic(auto, using(lfm_text::proofs::Writes::writings))]

ghost use Rattle.lfm_shown.specs.Texts.{plain_text, seat_words_text, seat_text};
ghost use Rattle.lfm_text.specs.Writing.{Writes};

use crate::next_steps::write_next;
use crate::values::{write_link, write_wake};
use lfm_core::State;
use lfm_text::{WriteFault, write_number, write_text};
use std::io::Write;

/// Writes the depth, the takes and the posts of seat s, its wake word and its link word, and what it does next, as in
/// `0 1 0 QUIET (0, none) lock 1: count add`.
pub fn write_seat<W: Write>(writer: &mut W, state: &State, s: u64) -> Result<(), WriteFault>
    ensures { Writes (W.contents writer.old) (W.contents writer.new) (seat_text state.now s) result }
{
    write_plain(writer, state, s)?;
    write_text(writer, b" ")?;
    write_seat_words(writer, state, s)?;
    write_text(writer, b" ")?;
    write_next(writer, state, s)?;
    Ok(())
}

/// Writes the depth, the takes and the posts of seat s.
fn write_plain<W: Write>(writer: &mut W, state: &State, s: u64) -> Result<(), WriteFault>
    ensures { Writes (W.contents writer.old) (W.contents writer.new) (plain_text state.now s) result }
{
    write_number(writer, state.depth(s))?;
    write_text(writer, b" ")?;
    write_number(writer, state.takes(s))?;
    write_text(writer, b" ")?;
    write_number(writer, state.posts(s))?;
    Ok(())
}

/// Writes the wake word and the link word of seat s.
fn write_seat_words<W: Write>(writer: &mut W, state: &State, s: u64) -> Result<(), WriteFault>
    ensures { Writes (W.contents writer.old) (W.contents writer.new) (seat_words_text state.now s) result }
{
    write_wake(writer, state.wake_word(s))?;
    write_text(writer, b" ")?;
    write_link(writer, state.link_word(s))?;
    Ok(())
}
