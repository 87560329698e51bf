//! An event of a state, with what is shown of it and the state that follows.
ghost use Rattle.std.specs.Prelude.{◌≡◌, IfOk};
ghost use Rattle.lfm_shown.specs.Successors.{happens, Shows, seat_of, act_of};

use crate::events::{ShownStart, ShownStep};
use lfm_core::{Act, Call, State, Turn};
use std::alloc::{AllocError, Global};

/// The event between two states.
#[derive(Clone, Copy, Debug, PartialEq, Eq)]
pub enum Event {
    /// The seat with this number starts this call.
    Begin(u64, Call),
    /// The seat with this number makes the step at its point.
    Step(u64),
}

/// What is shown of an event.
#[derive(Clone, Copy)]
pub enum Shown {
    /// The start of a call.
    Start(ShownStart),
    /// A step; None if no call of the seat was open.
    Step(Option<ShownStep>),
}

/// An event that was made.
#[derive(Clone, Copy)]
pub struct MadeEvent {
    /// The event.
    pub event: Event,
    /// Its outcome.
    pub turn: Turn,
    /// What is shown of it.
    pub shown: Shown,
}

impl Event {
    /// The seat of the event.
    pub fn seat(self) -> u64
        ensures { result ≡ seat_of self }
    {
        match self {
            Event::Begin(seat, _) => seat,
            Event::Step(seat) => seat,
        }
    }

    /// What the seat does, as in a line of a schedule.
    pub fn act(self) -> Act
        ensures { result ≡ act_of self }
    {
        match self {
            Event::Begin(_, call) => Act::Begin(call),
            Event::Step(_) => Act::Steps(1),
        }
    }

    /// Makes the event on a state.
    pub fn happen(self, state: &mut State) -> Turn
        ensures core { state.new ≡ (happens state.old self).core }
        ensures turn { result ≡ (happens state.old self).turn }
    {
        match self {
            Event::Begin(seat, call) => state.begin(seat, call),
            Event::Step(seat) => state.step(seat),
        }
    }

    /// Makes the event on a state, and returns it with what is shown of it.
    pub fn make(self, state: &mut State) -> MadeEvent
        ensures core { state.new ≡ (happens state.old self).core }
        ensures event { result.event ≡ self }
        ensures turn { result.turn ≡ (happens state.old self).turn }
        ensures shown { Shows state.old self result.shown }
    {
        let (turn, shown) = match self {
            Event::Begin(seat, call) => make_start(state, seat, call),
            Event::Step(seat) => make_step(state, seat),
        };
        MadeEvent {
            event: self,
            turn,
            shown,
        }
    }

    /// The event of this state as it was made, and the state that follows. The state itself stays. It allocates four times, and
    /// returns AllocError if an allocation failed.
    pub fn after(self, alloc: Global, state: &State) -> Result<(MadeEvent, State), AllocError>
        ensures target { IfOk result (λ r. r.1 ≡ (happens state.now self).core) }
        ensures event { IfOk result (λ r. r.0.event ≡ self) }
        ensures turn { IfOk result (λ r. r.0.turn ≡ (happens state.now self).turn) }
        ensures shown { IfOk result (λ r. Shows state.now self r.0.shown) }
    {
        let mut next = state.copy(alloc)?;
        let made = self.make(&mut next);
        Ok((made, next))
    }
}

/// Seat s starts a call.
fn make_start(state: &mut State, s: u64, call: Call) -> (Turn, Shown)
    ensures core { state.new ≡ (happens state.old (Event.Begin s call)).core }
    ensures turn { result.0 ≡ (happens state.old (Event.Begin s call)).turn }
    ensures shown { Shows state.old (Event.Begin s call) result.1 }
{
    let shown = ShownStart::make(state, s, call);
    (shown.turn, Shown::Start(shown))
}

/// Seat s makes the step at its point.
fn make_step(state: &mut State, s: u64) -> (Turn, Shown)
    ensures core { state.new ≡ (happens state.old (Event.Step s)).core }
    ensures turn { result.0 ≡ (happens state.old (Event.Step s)).turn }
    ensures shown { Shows state.old (Event.Step s) result.1 }
{
    let (turn, shown) = ShownStep::make(state, s);
    (turn, Shown::Step(shown))
}
