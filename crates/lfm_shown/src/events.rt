//! The lines of starts of calls and of steps. Each is made on the state first and then written, so that a line shows what
//! was done.
#![tactic(auto, using(lfm_text::proofs::Writes::writings))]

ghost use Rattle.std.specs.Prelude.{◌≡◌, ◌&&◌, [], ◌∷◌, codes, Some, None, IfSome, IfNone};
ghost use Rattle.lfm_protocol.specs.Place.{place_of};
ghost use Rattle.lfm_protocol.specs.Points.{kind, target, word};
ghost use Rattle.lfm_protocol.specs.Seats.{seat};
ghost use Rattle.lfm_protocol.specs.Step.{begin, step};
ghost use Rattle.lfm_laws.specs.laws.Events.{case_of_step};
ghost use Rattle.lfm_core.specs.text.Trace.{answer_text, place_text, why_text};
ghost use Rattle.lfm_shown.specs.Cases.{abstract_case};
ghost use Rattle.lfm_shown.specs.EventTexts.{change_text, changes_text, started_text, start_text, same_value, writes_word, exchanges, written_text, operation_made, moves_place, moved_text, case_text, effect_text, step_text};
ghost use Rattle.lfm_shown.specs.Names.{kind_name};
ghost use Rattle.lfm_shown.specs.Plain.{plain_of};
ghost use Rattle.lfm_shown.specs.Texts.{value_text};
ghost use Rattle.lfm_shown.specs.Values.{word_value};
ghost use Rattle.lfm_text.specs.Writing.{Writes, joined};

use crate::cases::{Case, next_case};
use crate::step_names::{call_name, kind_name, step_name};
use crate::values::{Value, value_of, write_value, write_word};
use lfm_core::kinds::{Kind, Word};
use lfm_core::points::Point;
use lfm_core::text::trace::{write_answer, write_place, write_why};
use lfm_core::{Answer, Call, State, Turn, Why};
use lfm_model::Place;
use lfm_text::{WriteFault, write_number, write_text};
use std::io::Write;

/// The plain data of a seat, which is compared before and after an event.
#[derive(Clone, Copy)]
pub struct Plain {
    /// How many times the seat holds the mutex.
    pub depth: u64,
    /// How many takes the seat has charged and not got back.
    pub takes: u64,
    /// How many hand-offs the seat has posted.
    pub posts: u64,
}

impl Plain {
    /// The plain data of seat s now.
    fn of(state: &State, s: u64) -> Plain
        ensures { result ≡ plain_of state.now s }
    {
        Plain {
            depth: u64::from(state.depth(s)),
            takes: state.takes(s),
            posts: state.posts(s),
        }
    }
}

/// A call that was started, and what is shown of its start.
#[derive(Clone, Copy)]
pub struct ShownStart {
    /// The call.
    pub call: Call,
    /// The outcome of the start.
    pub turn: Turn,
    /// The plain data of the seat before the start.
    pub before: Plain,
    /// The plain data of the seat after it.
    pub after: Plain,
}

impl ShownStart {
    /// Seat s starts a call.
    pub fn make(state: &mut State, s: u64, call: Call) -> ShownStart
        ensures core { state.new ≡ (begin state.old s call).core }
        ensures turn { result.turn ≡ (begin state.old s call).turn }
        ensures call { result.call ≡ call }
        ensures before { result.before ≡ plain_of state.old s }
        ensures after { result.after ≡ plain_of state.new s }
    {
        let before = Plain::of(state, s);
        let turn = state.begin(s, call);
        let after = Plain::of(state, s);
        ShownStart {
            call,
            turn,
            before,
            after,
        }
    }

    /// Writes the call, what its checks answered, and what was charged.
    pub fn write<W: Write>(&self, writer: &mut W) -> Result<(), WriteFault>
        ensures { Writes (W.contents writer.old) (W.contents writer.new) (start_text self.now) result }
    {
        write_text(writer, call_name(self.call).as_bytes())?;
        write_started(writer, self.turn)?;
        write_changes(writer, self.before, self.after)?;
        Ok(())
    }
}

/// Writes what the checks of a call answered.
fn write_started<W: Write>(writer: &mut W, turn: Turn) -> Result<(), WriteFault>
    ensures { Writes (W.contents writer.old) (W.contents writer.new) (started_text turn) result }
{
    match turn {
        Turn::Open => write_text(writer, b": begins"),
        Turn::Ended(answer) => write_ended(writer, answer),
        Turn::Refused(why) => write_refused(writer, why),
    }
}

/// Writes the answer of a call that ended at its start.
fn write_ended<W: Write>(writer: &mut W, answer: Answer) -> Result<(), WriteFault>
    ensures { Writes (W.contents writer.old) (W.contents writer.new) (joined (codes ": ends " ∷ answer_text answer ∷ [])) result }
{
    write_text(writer, b": ends ")?;
    write_answer(writer, answer)?;
    Ok(())
}

/// Writes why a call was refused at its start.
fn write_refused<W: Write>(writer: &mut W, why: Why) -> Result<(), WriteFault>
    ensures { Writes (W.contents writer.old) (W.contents writer.new) (joined (codes ": refused " ∷ why_text why ∷ [])) result }
{
    write_text(writer, b": refused ")?;
    write_why(writer, why)?;
    Ok(())
}

/// What is known of a step before it is made.
#[derive(Clone, Copy)]
pub struct Coming {
    /// The point at which it is made.
    pub point: Point,
    /// Its kind.
    pub kind: Kind,
    /// Its word.
    pub word: Word,
    /// What the word holds before it.
    pub found: Value,
    /// What it does to the abstract mutex.
    pub case: Option<Case>,
}

impl Coming {
    /// The step that seat s makes next. None if no call of the seat is open.
    fn of(state: &State, s: u64) -> Option<Coming>
        ensures idle { IfNone result (kind (seat state.now.seats s).point ≡ None) }
        ensures point { IfSome result (λ coming. coming.point ≡ (seat state.now.seats s).point) }
        ensures kind { IfSome result (λ coming. kind (seat state.now.seats s).point ≡ Some coming.kind) }
        ensures word { IfSome result (λ coming. coming.word ≡ word coming.kind (target (seat state.now.seats s).point s)) }
        ensures found { IfSome result (λ coming. coming.found ≡ word_value state.now coming.word) }
        ensures case { IfSome result (λ coming. abstract_case coming.case ≡ case_of_step state.now s) }
    {
        let kind = state.point(s).kind()?;
        let target = state.point(s).target(s);
        let word = kind.word(target);
        let found = value_of(state, kind.word(target));
        let case = next_case(state, s);
        let point = state.point(s);
        Some(Coming {
            point,
            kind,
            word,
            found,
            case,
        })
    }

    /// Whether the step can change its word.
    fn writes(&self) -> bool
        ensures { result ≡ writes_word self.now.kind }
    {
        !matches!(
            self.kind,
            Kind::OwnerLoad | Kind::PushLoad | Kind::LinkLoad | Kind::HandoffLoad | Kind::WakeLoad
        )
    }

    /// Whether the step is an exchange. One that succeeds changes its word.
    fn exchanges(&self) -> bool
        ensures { result ≡ exchanges self.now.kind }
    {
        matches!(
            self.kind,
            Kind::CountExchange | Kind::PushExchange | Kind::HandoffExchange | Kind::WakeExchange
        )
    }

    /// Whether this case moves the responsibility. It stays where it is if a record is queued or a further seat asks.
    fn moves(&self, case: Case) -> bool
        ensures { result ≡ moves_place self.now.found case }
    {
        match case {
            Case::Queue => false,
            Case::Ask => same_value(self.found, Value::Number(0)),
            _ => true,
        }
    }

    /// Whether the step is an exchange that failed, if its word holds this afterwards.
    fn fails(&self, holds: Value) -> bool
        ensures { result ≡ (exchanges self.now.kind && same_value self.now.found holds) }
    {
        self.exchanges() && same_value(self.found, holds)
    }
}

/// A step that was made, and what is shown of it.
#[derive(Clone, Copy)]
pub struct ShownStep {
    /// What was known of the step before it was made.
    pub coming: Coming,
    /// What its word holds after it.
    pub holds: Value,
    /// Where the responsibility is after it.
    pub place: Place,
    /// The plain data of the seat before it.
    pub before: Plain,
    /// The plain data of the seat after it.
    pub after: Plain,
}

impl ShownStep {
    /// Seat s makes the step at its point. Returns the outcome, and what is shown of the step: None if no call of the seat
    /// was open.
    pub fn make(state: &mut State, s: u64) -> (Turn, Option<ShownStep>)
        ensures core { state.new ≡ (step state.old s).core }
        ensures turn { result.0 ≡ (step state.old s).turn }
        ensures idle { IfNone result.1 (kind (seat state.old.seats s).point ≡ None) }
        ensures point { IfSome result.1 (λ shown. shown.coming.point ≡ (seat state.old.seats s).point) }
        ensures kind { IfSome result.1 (λ shown. kind (seat state.old.seats s).point ≡ Some shown.coming.kind) }
        ensures word { IfSome result.1 (λ shown.
            shown.coming.word ≡ word shown.coming.kind (target (seat state.old.seats s).point s)) }
        ensures found { IfSome result.1 (λ shown. shown.coming.found ≡ word_value state.old shown.coming.word) }
        ensures case { IfSome result.1 (λ shown. abstract_case shown.coming.case ≡ case_of_step state.old s) }
        ensures holds { IfSome result.1 (λ shown. shown.holds ≡ word_value state.new shown.coming.word) }
        ensures place { IfSome result.1 (λ shown. shown.place ≡ place_of state.new) }
        ensures before { IfSome result.1 (λ shown. shown.before ≡ plain_of state.old s) }
        ensures after { IfSome result.1 (λ shown. shown.after ≡ plain_of state.new s) }
    {
        let before = Plain::of(state, s);
        let coming = Coming::of(state, s);
        let turn = state.step(s);
        let Some(coming) = coming else {
            return (turn, None);
        };
        let shown = ShownStep {
            coming,
            holds: value_of(state, coming.word),
            place: state.place(),
            before,
            after: Plain::of(state, s),
        };
        (turn, Some(shown))
    }

    /// Writes the step: its name, its word, what was found there and what was written, where the responsibility went, and
    /// what changed of the seat's plain data.
    pub fn write<W: Write>(&self, writer: &mut W) -> Result<(), WriteFault>
        ensures { Writes (W.contents writer.old) (W.contents writer.new) (step_text self.now) result }
    {
        write_text(writer, step_name(self.coming.point).as_bytes())?;
        write_text(writer, b": ")?;
        write_word(writer, self.coming.word)?;
        write_text(writer, b" ")?;
        self.write_effect(writer)?;
        Ok(())
    }

    /// Writes the operation with its values, where the responsibility went, and what changed of the seat's plain data.
    fn write_effect<W: Write>(&self, writer: &mut W) -> Result<(), WriteFault>
        ensures { Writes (W.contents writer.old) (W.contents writer.new) (effect_text self.now) result }
    {
        write_operation(writer, &self.coming, self.holds)?;
        write_case(writer, &self.coming, self.place)?;
        write_changes(writer, self.before, self.after)?;
        Ok(())
    }
}

/// Whether two values are the same.
fn same_value(a: Value, b: Value) -> bool
    ensures { result ≡ same_value a b }
{
    a == b
}

/// Writes the operation, what it found, and what the word holds afterwards.
fn write_operation<W: Write>(
    writer: &mut W,
    coming: &Coming,
    holds: Value,
) -> Result<(), WriteFault>
    ensures { Writes (W.contents writer.old) (W.contents writer.new)
        (operation_made coming.now.kind coming.now.found holds) result }
{
    if coming.fails(holds) {
        write_failed(writer, coming)
    } else {
        write_done(writer, coming, holds)
    }
}

/// Writes an exchange that failed, and what it found.
fn write_failed<W: Write>(writer: &mut W, coming: &Coming) -> Result<(), WriteFault>
    ensures { Writes (W.contents writer.old) (W.contents writer.new)
        (joined (kind_name coming.now.kind ∷ codes " fails " ∷ value_text coming.now.found ∷ [])) result }
{
    write_text(writer, kind_name(coming.kind).as_bytes())?;
    write_text(writer, b" fails ")?;
    write_value(writer, coming.found)?;
    Ok(())
}

/// Writes an operation that did not fail, what it found, and what the word holds afterwards.
fn write_done<W: Write>(writer: &mut W, coming: &Coming, holds: Value) -> Result<(), WriteFault>
    ensures { Writes (W.contents writer.old) (W.contents writer.new)
        (joined (kind_name coming.now.kind ∷ codes " " ∷ value_text coming.now.found ∷ written_text coming.now.kind holds ∷ [])) result }
{
    write_text(writer, kind_name(coming.kind).as_bytes())?;
    write_text(writer, b" ")?;
    write_value(writer, coming.found)?;
    write_written(writer, coming, holds)?;
    Ok(())
}

/// Writes what the word holds after a step that can change it. Nothing is written for a load.
fn write_written<W: Write>(writer: &mut W, coming: &Coming, holds: Value) -> Result<(), WriteFault>
    ensures { Writes (W.contents writer.old) (W.contents writer.new) (written_text coming.now.kind holds) result }
{
    if !coming.writes() {
        return write_text(writer, b"");
    }
    write_text(writer, b" -> ")?;
    write_value(writer, holds)?;
    Ok(())
}

/// Writes the abstract case, and the new place of the responsibility if it moved.
fn write_case<W: Write>(writer: &mut W, coming: &Coming, place: Place) -> Result<(), WriteFault>
    ensures { Writes (W.contents writer.old) (W.contents writer.new) (case_text coming.now.found coming.now.case place) result }
{
    let Some(case) = coming.case else {
        return write_text(writer, b"");
    };
    write_text(writer, b", ")?;
    write_text(writer, case.name().as_bytes())?;
    write_moved(writer, coming.moves(case), place)?;
    Ok(())
}

/// Writes the new place of the responsibility, if it moved.
fn write_moved<W: Write>(writer: &mut W, moves: bool, place: Place) -> Result<(), WriteFault>
    ensures { Writes (W.contents writer.old) (W.contents writer.new) (moved_text moves place) result }
{
    if !moves {
        return write_text(writer, b"");
    }
    write_text(writer, b" to ")?;
    write_place(writer, place)?;
    Ok(())
}

/// Writes the changes of the seat's plain data.
fn write_changes<W: Write>(writer: &mut W, before: Plain, after: Plain) -> Result<(), WriteFault>
    ensures { Writes (W.contents writer.old) (W.contents writer.new) (changes_text before after) result }
{
    write_change(writer, b", depth ", before.depth, after.depth)?;
    write_change(writer, b", takes ", before.takes, after.takes)?;
    write_change(writer, b", posts ", before.posts, after.posts)?;
    Ok(())
}

/// Writes one number of the seat under this name, before and after. Nothing is written if it has not changed.
fn write_change<W: Write>(
    writer: &mut W,
    name: &[u8],
    before: u64,
    after: u64,
) -> Result<(), WriteFault>
    ensures { Writes (W.contents writer.old) (W.contents writer.new) (change_text name.now before after) result }
{
    if before == after {
        return write_text(writer, b"");
    }
    write_text(writer, name)?;
    write_number(writer, before)?;
    write_text(writer, b" -> ")?;
    write_number(writer, after)?;
    Ok(())
}
