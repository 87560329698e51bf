//! Prints the graph of a small mutex. Each event of each seat is tried in each state that was found, in the order in which the
//! states were found, until there is no new state.
ghost use Rattle.std.specs.Prelude.{◌≡◌, Some, map, slice_get, IfOk, OnOk};
ghost use Rattle.lfm_states.specs.Keys.{IsNumberOf, PrintsAttempt};

use crate::calls::Calls;
use crate::keys::key_of;
use crate::weights::is_open;
use indexmap::IndexSet;
use lfm_core::{Call, Limits, State, Turn};
use lfm_shown::graphs::write_header;
use lfm_shown::{Event, GraphFault, Texts};
use lfm_text::flush;
use std::alloc::{AllocError, Global};
use std::collections::VecDeque;
use std::io::Write;

/// Which graph is printed.
#[derive(Clone, Copy, Debug, PartialEq, Eq)]
pub struct GraphRequest {
    /// The number of seats, and the budget of each.
    pub limits: Limits,
    /// The greatest depth of a hold: a seat that holds so often begins no `lock` and no `try_lock`.
    pub depth: u64,
    /// The calls that seats may begin.
    pub calls: Calls,
}

/// How much of a graph was printed.
#[derive(Clone, Copy, Debug, PartialEq, Eq)]
pub struct Totals {
    /// How many states.
    pub states: usize,
    /// How many events, without calls that were refused at their start.
    pub events: u64,
}

/// The calls that have no target, in the order in which a seat's events are printed.
const PLAIN_CALLS: [Call; 5] = [
    Call::Lock,
    Call::TryLock,
    Call::Unlock,
    Call::Receive,
    Call::StartWait,
];

/// What was found of a graph and what was printed of it.
#[derive(Drop)]
struct Printer {
    alloc: Global,
    request: GraphRequest,
    /// The keys of the states that were found. The index of a key is the number of its state.
    keys: IndexSet<Vec<u8>>,
    /// The states that were found and not printed yet, the oldest first.
    pending: VecDeque<State>,
    /// The texts that were printed.
    texts: Texts,
    /// How many events were printed, without calls that were refused at their start.
    events: u64,
}

/// Prints the graph, and flushes the writer. Returns how many states and events it has. It allocates memory as it goes, so a
/// prefix of the graph may have been printed before either fault.
pub fn print_graph<W: Write>(
    alloc: Global,
    request: GraphRequest,
    writer: &mut W,
) -> Result<Totals, GraphFault> {
    let Limits { seats, budget } = request.limits;
    let Ok(start) = State::new(alloc, seats, budget) else {
        return Err(GraphFault::Memory);
    };
    let mut printer = Printer::new(alloc, request);
    write_header(writer, seats, budget)?;
    printer.number_of(start)?;
    printer.print(writer)?;
    flush(writer)?;
    Ok(printer.totals())
}

impl Printer {
    /// A printer that has found no state.
    fn new(alloc: Global, request: GraphRequest) -> Printer {
        Printer {
            alloc,
            request,
            keys: IndexSet::new(alloc),
            pending: VecDeque::new(alloc),
            texts: Texts::new(alloc),
            events: 0,
        }
    }

    /// How much was printed.
    fn totals(&self) -> Totals {
        Totals {
            states: self.keys.len(),
            events: self.events,
        }
    }

    /// The number of a state, which is kept to be printed if it is new.
    fn number_of(&mut self, state: State) -> Result<usize, GraphFault>
        ensures texts { self.new.texts ≡ self.old.texts }
        ensures number { IfOk result (λ n. IsNumberOf (map (λ v. v.items) self.new.keys.keys) n state) }
    {
        let key = key_of(self.alloc, &state)?;
        let (number, is_new) = self.add_key(key)?;
        self.keep_if(is_new, state)?;
        Ok(number)
    }

    /// The number of this key, and whether it is new. A new one is added. It allocates memory.
    fn add_key(&mut self, key: Vec<u8>) -> Result<(usize, bool), AllocError>
        ensures texts { self.new.texts ≡ self.old.texts }
        ensures number { IfOk result (λ r. slice_get (map (λ v. v.items) self.new.keys.keys) r.0 ≡ Some key.items) }
    {
        let added = self.keys.insert_full(key)?;
        Ok(added)
    }

    /// Keeps a state that is to be printed, if it is new.
    fn keep_if(&mut self, is_new: bool, state: State) -> Result<(), GraphFault>
        ensures texts { self.new.texts ≡ self.old.texts }
        ensures keys { self.new.keys ≡ self.old.keys }
    {
        if !is_new {
            return Ok(());
        }
        match self.pending.push_back(state) {
            Ok(()) => Ok(()),
            Err(_) => Err(GraphFault::Memory),
        }
    }

    /// Prints the states that are kept, and those that are found meanwhile.
    fn print<W: Write>(&mut self, writer: &mut W) -> Result<(), GraphFault> {
        'states: for _ in 0..u64::MAX {
            let Some(state) = self.pending.pop_front() else {
                break 'states;
            };
            self.visit(writer, &state)?;
        }
        Ok(())
    }

    /// Prints a state, and what each seat may do there.
    fn visit<W: Write>(&mut self, writer: &mut W, state: &State) -> Result<(), GraphFault> {
        self.texts.print_state(writer, state)?;
        for s in 0..state.seats() {
            self.visit_seat(writer, state, s + 1)?;
        }
        Ok(())
    }

    /// Prints what seat s may do in a state.
    fn visit_seat<W: Write>(
        &mut self,
        writer: &mut W,
        state: &State,
        s: u64,
    ) -> Result<(), GraphFault> {
        if is_open(state.point(s)) {
            return self.attempt(writer, state, Event::Step(s));
        }
        for call in &PLAIN_CALLS {
            if self.may_begin(state, s, *call) {
                self.attempt(writer, state, Event::Begin(s, *call))?;
            }
        }
        self.visit_sends(writer, state, s)
    }

    /// Prints the sends of seat s to each other seat.
    fn visit_sends<W: Write>(
        &mut self,
        writer: &mut W,
        state: &State,
        s: u64,
    ) -> Result<(), GraphFault> {
        for i in 0..state.seats() {
            let call = Call::SendLock(i + 1);
            if i + 1 != s && self.may_begin(state, s, call) {
                self.attempt(writer, state, Event::Begin(s, call))?;
            }
        }
        Ok(())
    }

    /// Whether the graph has this call of seat s.
    fn may_begin(&self, state: &State, s: u64, call: Call) -> bool {
        let deepens = matches!(call, Call::Lock | Call::TryLock);
        self.request.calls.have(call) && !(deepens && state.depth(s) >= self.request.depth)
    }

    /// Prints an event of a state, and keeps the state that follows if it is new.
    fn attempt<W: Write>(
        &mut self,
        writer: &mut W,
        state: &State,
        event: Event,
    ) -> Result<(), GraphFault>
        // Exactly the line of this event is appended, after its text if that is new.
        ensures { OnOk result (PrintsAttempt (W.contents writer.old) (W.contents writer.new) self.old.texts self.new.texts
            (map (λ v. v.items) self.new.keys.keys) state.now event) }
    {
        let (made, next) = event.after(self.alloc, state)?;
        let target = self.number_of(next)?;
        self.count(event, made.turn);
        self.texts.print_event(writer, &made, target)?;
        Ok(())
    }

    /// Counts an event, if it is not a call that was refused at its start.
    fn count(&mut self, event: Event, turn: Turn)
        ensures texts { self.new.texts ≡ self.old.texts }
        ensures keys { self.new.keys ≡ self.old.keys }
    {
        if let (Event::Begin(_, _), Turn::Refused(_)) = (event, turn) {
            return;
        }
        self.events = self.events.saturating_add(1);
    }
}
