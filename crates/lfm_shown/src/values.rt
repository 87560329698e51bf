//! The decoded content of a word, and its text.
#![tactic(auto, using(lfm_text::proofs::Writes::writings))]

ghost use Rattle.std.specs.Prelude.{◌≡◌};
ghost use Rattle.lfm_shown.specs.Texts.{numbered, word_text, next_seat_text, link_text, wake_text, value_text};
ghost use Rattle.lfm_shown.specs.Values.{word_value};
ghost use Rattle.lfm_text.specs.Writing.{Writes};

use lfm_core::State;
use lfm_core::kinds::Word;
use lfm_core::text::trace::write_handoff;
use lfm_text::{WriteFault, write_number, write_text};
use lfm_words::{Handoff, Link, Wake};
use std::io::Write;

/// What a word holds.
#[derive(Clone, Copy, Debug, PartialEq, Eq)]
pub enum Value {
    /// Of the count word and of the owner word. An owner word of 0 means that no seat owns the mutex.
    Number(u64),
    /// Of the handoff word.
    Handoff(Handoff),
    /// Of the push word and of a link word: a stamp and a seat.
    Link(Link),
    /// Of a wake word.
    Wake(Wake),
}

/// What this word of a state holds.
pub fn value_of(state: &State, word: Word) -> Value
    ensures { result ≡ word_value state.now word }
{
    match word {
        Word::Count => Value::Number(state.count()),
        Word::Owner => Value::Number(state.owner()),
        Word::Handoff => Value::Handoff(state.handoff()),
        Word::Push => Value::Link(state.push_word()),
        Word::Link(t) => Value::Link(state.link_word(t)),
        Word::Wake(t) => Value::Wake(state.wake_word(t)),
    }
}

/// Writes the name of a word, as in `count` or `wake.2`.
pub fn write_word<W: Write>(writer: &mut W, word: Word) -> Result<(), WriteFault>
    ensures { Writes (W.contents writer.old) (W.contents writer.new) (word_text word) result }
{
    match word {
        Word::Count => write_text(writer, b"count"),
        Word::Owner => write_text(writer, b"owner"),
        Word::Handoff => write_text(writer, b"handoff"),
        Word::Push => write_text(writer, b"push"),
        Word::Link(t) => write_numbered(writer, b"link.", t),
        Word::Wake(t) => write_numbered(writer, b"wake.", t),
    }
}

/// Writes a text, and a number after it.
pub(crate) fn write_numbered<W: Write>(
    writer: &mut W,
    name: &[u8],
    number: u64,
) -> Result<(), WriteFault>
    ensures { Writes (W.contents writer.old) (W.contents writer.new) (numbered name.now number) result }
{
    write_text(writer, name)?;
    write_number(writer, number)?;
    Ok(())
}

/// Writes the seat of a link, or `none` if it is 0.
fn write_next_seat<W: Write>(writer: &mut W, next: u64) -> Result<(), WriteFault>
    ensures { Writes (W.contents writer.old) (W.contents writer.new) (next_seat_text next) result }
{
    if next == 0 {
        write_text(writer, b"none")
    } else {
        write_number(writer, next)
    }
}

/// Writes a stamp and a seat, as in `(1, 2)`; the seat is `none` if it is 0.
pub(crate) fn write_link<W: Write>(writer: &mut W, link: Link) -> Result<(), WriteFault>
    ensures { Writes (W.contents writer.old) (W.contents writer.new) (link_text link) result }
{
    write_numbered(writer, b"(", link.stamp)?;
    write_text(writer, b", ")?;
    write_next_seat(writer, link.next)?;
    write_text(writer, b")")?;
    Ok(())
}

/// Writes a grant with its stamp, as in `GRANT(1)`.
fn write_grant<W: Write>(writer: &mut W, stamp: u64) -> Result<(), WriteFault>
    ensures { Writes (W.contents writer.old) (W.contents writer.new) (wake_text (Wake.Grant stamp)) result }
{
    write_numbered(writer, b"GRANT(", stamp)?;
    write_text(writer, b")")?;
    Ok(())
}

/// Writes a wake state, a grant with its stamp.
pub(crate) fn write_wake<W: Write>(writer: &mut W, wake: Wake) -> Result<(), WriteFault>
    ensures { Writes (W.contents writer.old) (W.contents writer.new) (wake_text wake) result }
{
    match wake {
        Wake::Quiet => write_text(writer, b"QUIET"),
        Wake::Waiting => write_text(writer, b"WAITING"),
        Wake::Claimed => write_text(writer, b"CLAIMED"),
        Wake::Grant(stamp) => write_grant(writer, stamp),
    }
}

/// Writes what a word holds.
pub fn write_value<W: Write>(writer: &mut W, value: Value) -> Result<(), WriteFault>
    ensures { Writes (W.contents writer.old) (W.contents writer.new) (value_text value) result }
{
    match value {
        Value::Number(number) => write_number(writer, number),
        Value::Handoff(handoff) => write_handoff(writer, handoff),
        Value::Link(link) => write_link(writer, link),
        Value::Wake(wake) => write_wake(writer, wake),
    }
}
