//! The states that a schedule passes, printed as a graph in which each state but the last has one event, which leads to the next.
ghost use Rattle.std.specs.Prelude.{◌≡◌, true, Ok, IfOk, IfSome, OnOk};
ghost use Rattle.lfm_core.specs.text.Grammar.{plan_of};
ghost use Rattle.lfm_core.specs.text.Lines.{steps, line_moved};
ghost use Rattle.lfm_core.specs.text.Trace.{none_refused, opening, verdict_of};
ghost use Rattle.lfm_protocol.specs.Limits.{are_in_limits};
ghost use Rattle.lfm_shown.specs.Printed.{PrintsState};
ghost use Rattle.lfm_shown.specs.Successors.{happens};
ghost use Rattle.lfm_explain.specs.Paths.{PrintsMove, number_after};
ghost use Rattle.lfm_explain.specs.Verdicts.{SaysVerdict};

use lfm_core::text::schedule_from;
use lfm_core::{Act, Line, ReplayFault, Schedule, State, Turn};
use lfm_shown::graphs::write_header;
use lfm_shown::{Event, GraphFault, Texts};
use lfm_text::flush;
use std::alloc::Global;
use std::io::{Read, Write};

/// What was printed of a graph.
#[derive(Drop)]
struct Path {
    /// The texts that were printed.
    texts: Texts,
    /// How many states were printed, which is the number of the next one.
    states: usize,
}

impl Path {
    /// Prints a state, which gets the next number.
    fn print_state<W: Write>(&mut self, writer: &mut W, state: &State) -> Result<(), GraphFault>
        ensures printed { OnOk result (PrintsState (W.contents writer.old) (W.contents writer.new) self.old.texts self.new.texts state.now) }
        ensures number { OnOk result (self.new.states ≡ number_after self.old.states) }
    {
        self.texts.print_state(writer, state)?;
        self.states = self.states.saturating_add(1);
        Ok(())
    }

    /// Makes an event. Prints it, and the state that it leads to. Returns its turn.
    fn make<W: Write>(
        &mut self,
        writer: &mut W,
        event: Event,
        state: &mut State,
    ) -> Result<Turn, GraphFault>
        ensures core { state.new ≡ (happens state.old event).core }
        ensures turn { IfOk result (λ turn. turn ≡ (happens state.old event).turn) }
        // Exactly the lines of this event and of the state that it leads to are appended, with the texts that are new.
        ensures printed { OnOk result (PrintsMove (W.contents writer.old) (W.contents writer.new) self.old.texts self.new.texts
            self.old.states state.old event) }
        ensures number { OnOk result (self.new.states ≡ number_after self.old.states) }
    {
        let made = event.make(state);
        self.texts.print_event(writer, &made, self.states)?;
        self.print_state(writer, state)?;
        Ok(made.turn)
    }

    /// Makes at most this number of steps of seat s, and prints each. It stops when the call ends or a step is refused. Returns
    /// the last turn.
    fn make_steps<W: Write>(
        &mut self,
        writer: &mut W,
        s: u64,
        most: u64,
        state: &mut State,
    ) -> Result<Turn, GraphFault>
        ensures core { IfOk result (λ _. state.new ≡ (steps most state.old s).core) }
        ensures turn { IfOk result (λ turn. turn ≡ (steps most state.old s).turn) }
    {
        for _ in 0..most {
            let turn = self.make(writer, Event::Step(s), state)?;
            if !turn.is_open() {
                return Ok(turn);
            }
        }
        Ok(Turn::Open)
    }

    /// Makes the events of a line, and prints each. Returns the last turn.
    fn follow<W: Write>(
        &mut self,
        writer: &mut W,
        line: &Line,
        state: &mut State,
    ) -> Result<Turn, GraphFault>
        ensures core { IfOk result (λ _. state.new ≡ (line_moved state.old line.now).core) }
        ensures turn { IfOk result (λ turn. turn ≡ (line_moved state.old line.now).turn) }
    {
        match line.act {
            Act::Begin(call) => self.make(writer, Event::Begin(line.seat, call), state),
            Act::Steps(most) => self.make_steps(writer, line.seat, most, state),
            Act::ToEnd => {
                let most = state.longest_call();
                self.make_steps(writer, line.seat, most, state)
            }
        }
    }

    /// Makes the events of all lines, and prints each. Returns whether no line was refused.
    fn follow_all<W: Write>(
        &mut self,
        writer: &mut W,
        lines: &[Line],
        state: &mut State,
    ) -> Result<bool, GraphFault>
        ensures verdict { IfOk result (λ b. b ≡ none_refused state.old lines.now) }
    {
        let mut none_refused = true;
        'running: for line in lines {
            let turn = self.follow(writer, line, state)?;
            none_refused &= !turn.is_refused();
        }
        Ok(none_refused)
    }
}

/// Prints the graph of a schedule's lines from this state, and flushes the writer. Returns whether no line was refused.
fn print_run<W: Write>(
    alloc: Global,
    schedule: &Schedule,
    writer: &mut W,
    state: &mut State,
) -> Result<bool, GraphFault>
    ensures verdict { IfOk result (λ b. b ≡ none_refused state.old schedule.now.lines.items) }
{
    let mut path = Path {
        texts: Texts::new(alloc),
        states: 0,
    };
    write_header(writer, schedule.seats, schedule.budget)?;
    path.print_state(writer, state)?;
    let none_refused = path.follow_all(writer, &schedule.lines, state)?;
    flush(writer)?;
    Ok(none_refused)
}

/// Prints the graph of a schedule. Returns whether no line was refused.
fn print_schedule<W: Write>(
    alloc: Global,
    schedule: &Schedule,
    writer: &mut W,
) -> Result<bool, ReplayFault>
    requires limits { are_in_limits schedule.now.seats schedule.now.budget ≡ true }
    ensures { let plan = plan_of schedule.now in
        SaysVerdict result (Ok (none_refused (opening plan) plan.lines)) }
{
    let Ok(mut state) = State::new(alloc, schedule.seats, schedule.budget) else {
        return Err(ReplayFault::Memory);
    };
    Ok(print_run(alloc, schedule, writer, &mut state)?)
}

/// Reads a schedule, runs it on a mutex at its start, and prints the states that it passes as a graph, with one event between
/// two of them. Returns whether no line was refused.
///
/// Grammar, limits and faults are those of `replay`, in the same order, but memory is also requested while the graph is printed:
/// after Memory a prefix of the graph may have been printed. At the end the writer is flushed.
pub fn print_states<R: Read, W: Write>(
    alloc: Global,
    reader: &mut R,
    writer: &mut W,
) -> Result<bool, ReplayFault>
    // The answer is that of `replay` to the same bytes, unless reading, writing or memory fails.
    ensures verdict { IfSome (R.remaining reader.old) (λ input. SaysVerdict result (verdict_of input)) }
{
    let schedule = schedule_from(alloc, reader, writer)?;
    print_schedule(alloc, &schedule, writer)
}
