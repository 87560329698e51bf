//! The next step of a seat, with what its call remembers of the steps before.
#![tactic(auto, using(lfm_text::proofs::Writes::writings))]

ghost use Rattle.std.specs.Prelude.{[], ◌∷◌, codes};
ghost use Rattle.lfm_core.specs.text.Trace.{answer_text, handoff_text, record_text};
ghost use Rattle.lfm_protocol.specs.Seats.{seat};
ghost use Rattle.lfm_shown.specs.Names.{kind_name, step_name};
ghost use Rattle.lfm_shown.specs.Texts.{link_text, entry_memory, target_memory, memory_text, operation_text, sleep_text, idle_text, next_of_kind, next_text};
ghost use Rattle.lfm_text.specs.Writing.{Writes, joined};

use crate::step_names::{kind_name, step_name};
use crate::values::{write_link, write_numbered, write_word};
use lfm_core::kinds::Kind;
use lfm_core::points::{Point, Pusher, Sleeper};
use lfm_core::text::trace::{write_answer, write_handoff};
use lfm_core::{Answer, State};
use lfm_model::{How, Unlocked};
use lfm_text::{WriteFault, write_number, write_text};
use lfm_words::{Handoff, Link, Record};
use std::io::Write;

/// Writes what seat s does next: its call and the number of the step, its word and operation, and what the call remembers of
/// its earlier steps, as in `lock 6: push exchange seen (1, 2)`. If no call of the seat is open, it writes whether the seat
/// rests or sleeps.
pub fn write_next<W: Write>(writer: &mut W, state: &State, s: u64) -> Result<(), WriteFault>
    ensures { Writes (W.contents writer.old) (W.contents writer.new) (next_text (seat state.now.seats s).point s) result }
{
    match state.point(s).kind() {
        Some(kind) => write_coming(writer, state, s, kind),
        None => write_idle(writer, state.point(s)),
    }
}

/// Writes what a seat does of which no call is open.
fn write_idle<W: Write>(writer: &mut W, point: Point) -> Result<(), WriteFault>
    ensures { Writes (W.contents writer.old) (W.contents writer.new) (idle_text point) result }
{
    match point {
        Point::Asleep(sleeper) => write_sleep(writer, sleeper),
        _ => write_text(writer, b"rests"),
    }
}

/// Writes which call put a seat to sleep.
fn write_sleep<W: Write>(writer: &mut W, sleeper: Sleeper) -> Result<(), WriteFault>
    ensures { Writes (W.contents writer.old) (W.contents writer.new) (sleep_text sleeper) result }
{
    match sleeper {
        Sleeper::Locker => write_text(writer, b"sleeps in its lock"),
        Sleeper::Waiter => write_text(writer, b"sleeps in its start_wait"),
    }
}

/// Writes the step that seat s makes next, which is of this kind.
fn write_coming<W: Write>(
    writer: &mut W,
    state: &State,
    s: u64,
    kind: Kind,
) -> Result<(), WriteFault>
    ensures { Writes (W.contents writer.old) (W.contents writer.new)
        (next_of_kind (seat state.now.seats s).point s (Some kind)) result }
{
    write_step_name(writer, state, s)?;
    write_text(writer, b": ")?;
    write_operation(writer, state, s, kind)?;
    write_memory(writer, state.point(s))?;
    Ok(())
}

/// Writes the name of the step that seat s makes next.
fn write_step_name<W: Write>(writer: &mut W, state: &State, s: u64) -> Result<(), WriteFault>
    ensures { Writes (W.contents writer.old) (W.contents writer.new) (step_name (seat state.now.seats s).point) result }
{
    write_text(writer, step_name(state.point(s)).as_bytes())
}

/// Writes the word and the operation of the step that seat s makes next, which is of this kind.
fn write_operation<W: Write>(
    writer: &mut W,
    state: &State,
    s: u64,
    kind: Kind,
) -> Result<(), WriteFault>
    ensures { Writes (W.contents writer.old) (W.contents writer.new)
        (operation_text (seat state.now.seats s).point s kind) result }
{
    let word = kind.word(state.point(s).target(s));
    write_word(writer, word)?;
    write_text(writer, b" ")?;
    write_kind_name(writer, kind)?;
    Ok(())
}

/// Writes the name of an operation.
fn write_kind_name<W: Write>(writer: &mut W, kind: Kind) -> Result<(), WriteFault>
    ensures { Writes (W.contents writer.old) (W.contents writer.new) (kind_name kind) result }
{
    write_text(writer, kind_name(kind).as_bytes())
}

/// Writes what a call remembers at this point.
fn write_memory<W: Write>(writer: &mut W, point: Point) -> Result<(), WriteFault>
    ensures { Writes (W.contents writer.old) (W.contents writer.new) (memory_text point) result }
{
    match point {
        Point::LinkStore(_, seen) | Point::PushExchange(_, seen) => write_seen_link(writer, seen),
        Point::TryHandoffExchange(seen)
        | Point::PushedHandoffExchange(_, seen)
        | Point::SendPushRecheck(_, seen) => write_seen_post(writer, seen),
        Point::GrantWakeStore(_, oldest) => write_oldest(writer, oldest),
        Point::EnterOwnerStore(_, how) => write_entry(writer, how),
        Point::ReceiveWakeStore(stamp) => write_numbered(writer, b" as #", stamp),
        Point::WaitWakeStore(released) => write_released(writer, released),
        Point::SendWakeExchange(t) | Point::SendCountAdd(t) | Point::SendWakeStore(t) => {
            write_numbered(writer, b" for ", t)
        }
        Point::PushLoad(pusher) | Point::PushedHandoffLoad(pusher) => write_target(writer, pusher),
        _ => write_text(writer, b""),
    }
}

/// Writes the push word that a call has loaded.
fn write_seen_link<W: Write>(writer: &mut W, seen: Link) -> Result<(), WriteFault>
    ensures { Writes (W.contents writer.old) (W.contents writer.new)
        (joined (codes " seen " ∷ link_text seen ∷ [])) result }
{
    write_text(writer, b" seen ")?;
    write_link(writer, seen)?;
    Ok(())
}

/// Writes the post that a call has loaded.
fn write_seen_post<W: Write>(writer: &mut W, seen: Handoff) -> Result<(), WriteFault>
    ensures { Writes (W.contents writer.old) (W.contents writer.new)
        (joined (codes " seen " ∷ handoff_text seen ∷ [])) result }
{
    write_text(writer, b" seen ")?;
    write_handoff(writer, seen)?;
    Ok(())
}

/// Writes the record that a call has collected and serves next.
fn write_oldest<W: Write>(writer: &mut W, oldest: Record) -> Result<(), WriteFault>
    ensures { Writes (W.contents writer.old) (W.contents writer.new)
        (joined (codes " for " ∷ record_text oldest ∷ [])) result }
{
    write_text(writer, b" for ")?;
    write_record(writer, oldest)?;
    Ok(())
}

/// Writes a record as in a queue: its seat and its stamp.
fn write_record<W: Write>(writer: &mut W, queued: Record) -> Result<(), WriteFault>
    ensures { Writes (W.contents writer.old) (W.contents writer.new) (record_text queued) result }
{
    write_number(writer, queued.seat.get())?;
    write_text(writer, b"#")?;
    write_number(writer, queued.stamp)?;
    Ok(())
}

/// Writes the stamp of the record by which a seat becomes the owner, if there was one.
fn write_entry<W: Write>(writer: &mut W, how: How) -> Result<(), WriteFault>
    ensures { Writes (W.contents writer.old) (W.contents writer.new) (entry_memory how) result }
{
    match how {
        How::Free => write_text(writer, b""),
        How::Queued(stamp) => write_numbered(writer, b" as #", stamp),
    }
}

/// Writes the answer of the release that a call has made.
fn write_released<W: Write>(writer: &mut W, released: Unlocked) -> Result<(), WriteFault>
    ensures { Writes (W.contents writer.old) (W.contents writer.new)
        (joined (codes " after " ∷ answer_text (Answer.Unlocked released) ∷ [])) result }
{
    write_text(writer, b" after ")?;
    write_answer(writer, Answer::Unlocked(released))?;
    Ok(())
}

/// Writes for which seat a call pushes a record, if it is not its own.
fn write_target<W: Write>(writer: &mut W, pusher: Pusher) -> Result<(), WriteFault>
    ensures { Writes (W.contents writer.old) (W.contents writer.new) (target_memory pusher) result }
{
    match pusher {
        Pusher::Locker => write_text(writer, b""),
        Pusher::Sender(t) => write_numbered(writer, b" for ", t),
    }
}
