//! The texts of a graph that were printed so far, and the lines that name them by their numbers.
#![tactic(auto, using(lfm_text::proofs::Writes::writings))]

ghost use Rattle.std.specs.Prelude.{◌≡◌, ℕ, List, [], ◌∷◌, ◌++◌, Some, length, take, slice_get, IfOk, OnOk};
ghost use Rattle.lfm_shown.specs.Graphs.{Name, texts_of_state, text_line, text_lines, state_line, event_line};
ghost use Rattle.lfm_shown.specs.Printed.{Prints, PrintsState, PrintsEvent, new_text};
ghost use Rattle.lfm_text.specs.Writing.{Writes};

use crate::graphs::event_texts::event_text_of;
use crate::graphs::faults::GraphFault;
use crate::graphs::state_texts::{push_text_of, seat_text_of, trace_text_of};
use crate::successors::MadeEvent;
use crate::values::write_numbered;
use indexmap::IndexSet;
use lfm_core::State;
use lfm_text::{WriteFault, write_line_feed, write_number, write_text};
use std::alloc::{AllocError, Global};
use std::io::Write;
use std::marker::Model;

/// The texts of a graph that were printed so far, in their order. The first has the number 0.
#[derive(Drop)]
pub struct Texts {
    alloc: Global,
    printed: IndexSet<Vec<u8>>,
}

impl Model for Texts {
    ghost use Rattle.std.specs.Prelude.{ℕ, List, map};

    ghost Value = { List (List ℕ) };

    ghost view = { λ t. map (λ v. v.items) t.printed.keys };
}

impl Texts {
    /// No text. It allocates nothing.
    pub fn new(alloc: Global) -> Texts
        ensures { result ≡ [] }
    {
        Texts {
            alloc,
            printed: IndexSet::new(alloc),
        }
    }

    /// The number of this text. A text that was not printed yet is printed first. It allocates memory.
    fn number_of<W: Write>(&mut self, writer: &mut W, text: Vec<u8>) -> Result<usize, GraphFault>
        ensures named { IfOk result (λ n. slice_get self.new n ≡ Some text.items) }
        ensures kept { take (length self.old) self.new ≡ self.old }
        ensures printed { OnOk result (Prints (W.contents writer.old) (W.contents writer.new) self.old self.new (text.items ∷ []) []) }
    {
        self.write_if_new(writer, text.as_slice())?;
        let number = self.add(text)?;
        Ok(number)
    }

    /// Prints this text, if it was not printed yet.
    fn write_if_new<W: Write>(&self, writer: &mut W, text: &[u8]) -> Result<(), WriteFault>
        ensures { Writes (W.contents writer.old) (W.contents writer.new) (text_lines (new_text self.now text.now)) result }
    {
        if self.printed.contains(text) {
            write_text(writer, b"")
        } else {
            write_new_text(writer, text)
        }
    }

    /// The number of this text, which is added if it is new. It allocates memory.
    fn add(&mut self, text: Vec<u8>) -> Result<usize, AllocError>
        ensures named { IfOk result (λ n. slice_get self.new n ≡ Some text.items) }
        ensures kept { take (length self.old) self.new ≡ self.old }
        ensures all { OnOk result (self.new ≡ self.old ++ new_text self.old text.items) }
    {
        let (number, _) = self.printed.insert_full(text)?;
        Ok(number)
    }

    /// The numbers of the texts of a state. Those that were not printed yet are printed first. It allocates memory.
    fn numbers_of<W: Write>(
        &mut self,
        writer: &mut W,
        state: &State,
    ) -> Result<Vec<usize>, GraphFault>
        ensures named { IfOk result (λ numbers. Name self.new numbers.items (texts_of_state state.now)) }
        ensures printed { OnOk result (Prints (W.contents writer.old) (W.contents writer.new) self.old self.new (texts_of_state state.now) []) }
    {
        let alloc = self.alloc;
        let mut numbers = Vec::new(alloc);
        self.name(writer, &mut numbers, trace_text_of(alloc, state)?)?;
        self.name(writer, &mut numbers, push_text_of(alloc, state)?)?;
        'seats: for s in 0..state.seats() {
            self.name(writer, &mut numbers, seat_text_of(alloc, state, s + 1)?)?;
        }
        Ok(numbers)
    }

    /// Adds the number of this text to some numbers. A text that was not printed yet is printed first. It allocates memory.
    fn name<W: Write>(
        &mut self,
        writer: &mut W,
        numbers: &mut Vec<usize>,
        text: Vec<u8>,
    ) -> Result<(), GraphFault>
        ensures named { OnOk result ((known : List (List ℕ)) → Name self.old numbers.old.items known
            → Name self.new numbers.new.items (known ++ text.items ∷ [])) }
        ensures printed { OnOk result (Prints (W.contents writer.old) (W.contents writer.new) self.old self.new (text.items ∷ []) []) }
    {
        let number = self.number_of(writer, text)?;
        push_number(numbers, number)?;
        Ok(())
    }

    /// Prints a state: its texts that were not printed yet, and then its line. It allocates memory.
    pub fn print_state<W: Write>(&mut self, writer: &mut W, state: &State) -> Result<(), GraphFault>
        // Exactly the new texts of the state and its line are appended; the texts with its numbers are those of the state.
        ensures { OnOk result (PrintsState (W.contents writer.old) (W.contents writer.new) self.old self.new state.now) }
    {
        let numbers = self.numbers_of(writer, state)?;
        write_state_line(writer, &numbers)?;
        Ok(())
    }

    /// Prints an event that leads to the state with this number: its text, if that was not printed yet, and then its line. It
    /// allocates memory.
    pub fn print_event<W: Write>(
        &mut self,
        writer: &mut W,
        made: &MadeEvent,
        target: usize,
    ) -> Result<(), GraphFault>
        // Exactly the text of the event, if it is new, and its line are appended; the text with its number is that of the event.
        ensures { OnOk result (PrintsEvent (W.contents writer.old) (W.contents writer.new) self.old self.new made.now target) }
    {
        let text = event_text_of(self.alloc, made)?;
        let number = self.number_of(writer, text)?;
        write_event_line(writer, made.event.seat(), number, target)?;
        Ok(())
    }
}

/// Adds a number at the end.
fn push_number(numbers: &mut Vec<usize>, number: usize) -> Result<(), AllocError>
    ensures { OnOk result (numbers.new.items ≡ numbers.old.items ++ number ∷ []) }
{
    numbers.push(number)?;
    Ok(())
}

/// Prints a new text.
fn write_new_text<W: Write>(writer: &mut W, text: &[u8]) -> Result<(), WriteFault>
    ensures { Writes (W.contents writer.old) (W.contents writer.new) (text_line text.now) result }
{
    write_text(writer, b"+")?;
    write_text(writer, text)?;
    write_line_feed(writer)?;
    Ok(())
}

/// Writes the line of a state that has texts with these numbers.
fn write_state_line<W: Write>(writer: &mut W, numbers: &[usize]) -> Result<(), WriteFault>
    ensures { Writes (W.contents writer.old) (W.contents writer.new) (state_line numbers.now) result }
{
    write_text(writer, b"=")?;
    'numbers: for number in numbers {
        write_numbered(writer, b" ", *number as u64)?;
    }
    write_line_feed(writer)
}

/// Writes the line of an event of this seat.
fn write_event_line<W: Write>(
    writer: &mut W,
    seat: u64,
    number: usize,
    target: usize,
) -> Result<(), WriteFault>
    ensures { Writes (W.contents writer.old) (W.contents writer.new) (event_line seat number target) result }
{
    write_number(writer, seat)?;
    write_numbered(writer, b" ", number as u64)?;
    write_numbered(writer, b" ", target as u64)?;
    write_line_feed(writer)?;
    Ok(())
}
