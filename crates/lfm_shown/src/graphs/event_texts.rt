//! The text of an event in a graph: what the seat does, as in a line of a schedule; what an explanation shows of it; and its
//! outcome, as in a trace. Bars stand between them.
#![tactic(auto, using(lfm_text::proofs::Writes::writings))]

ghost use Rattle.std.specs.Prelude.{◌≡◌, [], ◌∷◌, codes, IfOk};
ghost use Rattle.lfm_core.specs.text.Trace.{turn_text};
ghost use Rattle.lfm_shown.specs.Graphs.{target_text, begin_text, act_text};
ghost use Rattle.lfm_shown.specs.EventTexts.{shown_text, event_text};
ghost use Rattle.lfm_shown.specs.Names.{call_name};
ghost use Rattle.lfm_shown.specs.Successors.{act_of};
ghost use Rattle.lfm_text.specs.Writing.{Writes, joined};

use crate::step_names::call_name;
use crate::successors::{Event, MadeEvent, Shown};
use crate::values::write_numbered;
use lfm_core::Call;
use lfm_core::text::trace::write_turn;
use lfm_text::{WriteFault, write_text};
use std::alloc::{AllocError, Global};
use std::io::Write;

/// Writes what a seat does, as after the seat in a line of a schedule: `lock`, `send_lock 2`, or `.` for one step.
pub fn write_act<W: Write>(writer: &mut W, event: Event) -> Result<(), WriteFault>
    ensures { Writes (W.contents writer.old) (W.contents writer.new) (act_text event) result }
{
    match event {
        Event::Begin(_, call) => write_begin(writer, call),
        Event::Step(_) => write_text(writer, b"."),
    }
}

/// Writes a call, with its target if it has one.
fn write_begin<W: Write>(writer: &mut W, call: Call) -> Result<(), WriteFault>
    ensures { Writes (W.contents writer.old) (W.contents writer.new) (begin_text call) result }
{
    write_text(writer, call_name(call).as_bytes())?;
    write_target(writer, call)?;
    Ok(())
}

/// Writes the target of a call, if it has one.
fn write_target<W: Write>(writer: &mut W, call: Call) -> Result<(), WriteFault>
    ensures { Writes (W.contents writer.old) (W.contents writer.new) (target_text call) result }
{
    match call {
        Call::SendLock(target) => write_numbered(writer, b" ", target),
        _ => write_text(writer, b""),
    }
}

/// Writes what is shown of an event: nothing of a step if no call of the seat was open.
fn write_shown<W: Write>(writer: &mut W, shown: &Shown) -> Result<(), WriteFault>
    ensures { Writes (W.contents writer.old) (W.contents writer.new) (shown_text shown.now) result }
{
    match shown {
        Shown::Start(start) => start.write(writer),
        Shown::Step(Some(step)) => step.write(writer),
        Shown::Step(None) => write_text(writer, b""),
    }
}

/// Writes the text of an event, as in `.|lock 1: count add 0 -> 1, ask to carried.1|goes on`.
pub fn write_event<W: Write>(writer: &mut W, made: &MadeEvent) -> Result<(), WriteFault>
    ensures { Writes (W.contents writer.old) (W.contents writer.new) (event_text made.now) result }
{
    write_act(writer, made.event)?;
    write_text(writer, b"|")?;
    write_shown(writer, &made.shown)?;
    write_text(writer, b"|")?;
    write_turn(writer, made.event.act(), made.turn)?;
    Ok(())
}

/// The text of an event, in a vector of its own. It allocates memory.
pub(crate) fn event_text_of(alloc: Global, made: &MadeEvent) -> Result<Vec<u8>, AllocError>
    ensures { IfOk result (λ text. text.items ≡ event_text made.now) }
{
    let mut text = Vec::new(alloc);
    match write_event(&mut text, made) {
        Ok(()) => Ok(text),
        Err(WriteFault) => Err(AllocError),
    }
}
