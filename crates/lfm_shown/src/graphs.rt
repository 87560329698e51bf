//! The printed form of a graph of states. Each text stands in it once, and has a number, from 0 in their order. A state is a
//! line with the numbers of its texts: what a trace shows of it, its push word, and each seat. An event is a line with its seat,
//! the number of its text, and the number of the state that it leads to; states are numbered from 0 in their order.
#![tactic(auto, using(lfm_text::proofs::Writes::writings))]

ghost use Rattle.std.specs.Prelude.{◌≡◌, [], ◌∷◌, codes, decimal};
ghost use Rattle.lfm_shown.specs.Graphs.{header_text, target_text, event_line};
ghost use Rattle.lfm_text.specs.Writing.{Writes, joined};

mod event_texts;
mod faults;
mod state_texts;
mod texts;

pub use event_texts::{write_act, write_event};
pub use faults::GraphFault;
use lfm_text::{WriteFault, write_line_feed, write_number, write_text};
pub use state_texts::write_key_text;
use std::io::Write;
pub use texts::Texts;

/// Writes the first line of a graph: the number of seats, and the budget.
pub fn write_header<W: Write>(writer: &mut W, seats: u64, budget: u64) -> Result<(), WriteFault>
    ensures { Writes (W.contents writer.old) (W.contents writer.new) (header_text seats budget) result }
{
    write_text(writer, b"graph ")?;
    write_number(writer, seats)?;
    write_text(writer, b" ")?;
    write_number(writer, budget)?;
    write_line_feed(writer)?;
    Ok(())
}
