//! The measures: how often something happens in one call, between two ends of calls, or while a record is queued. And what an
//! event does to such a count.
ghost use Rattle.std.specs.Prelude.{◌≡◌};
ghost use Rattle.lfm_laws.specs.laws.Progress.{changed_push};
ghost use Rattle.lfm_states.specs.Measures.{counts_call, weight_of};

use crate::events::Event;
use crate::readings::Reading;
use crate::service::is_serving;
use lfm_core::Call;
use lfm_words::Link;

/// What is counted, and over which part of a run.
#[derive(Clone, Copy, Debug, PartialEq, Eq)]
pub enum Measure {
    /// The steps of a call that is neither a `try_lock` nor a `receive`, during which the other seat changes the push word some
    /// number of times.
    StepsOfCall,
    /// The steps of a `try_lock`.
    StepsOfTry,
    /// The steps of a `receive`.
    StepsOfReceive,
    /// How often a call changes the push word.
    PushChanges,
    /// How many grants a call stores.
    Grants,
    /// The steps of all calls from one end of a call to the next.
    StepsWithoutEnd,
    /// How often seats become the owner while the record that was the oldest at the start of the run is queued.
    Entries,
    /// How often one seat becomes the owner during that time.
    EntriesOfSeat,
    /// How often seats stop being the owner during that time.
    Releases,
    /// How many calls start while the record that was the oldest at the start of the run is queued, if only serving calls
    /// start.
    BeginsBesideOldest,
    /// The same for the record that was the second. Both seats are queued at the start of such a run, so no record is pushed
    /// behind it.
    BeginsBesideSecond,
    /// How many steps are made while the record that was the oldest at the start of the run is queued, if only serving calls
    /// start.
    StepsBesideOldest,
}

/// What an event does to a count.
#[derive(Clone, Copy, Debug, PartialEq, Eq)]
pub enum Effect {
    /// It starts at 0.
    Starts,
    /// It does not change.
    Stays,
    /// It does not change, and the other seat has changed the push word once more.
    Changes,
    /// It grows by this number.
    Grows(u64),
    /// It grows by this number, and is complete.
    Ends(u64),
    /// It is complete without a change.
    Stops,
}

/// How often the push word has changed: 1, or 0 if it is the same.
fn changed_push(before: Link, after: Link) -> u64
    ensures { result ≡ changed_push before after }
{
    if after == before { 0 } else { 1 }
}

impl Measure {
    /// Whether the measure counts such a call.
    fn counts_call(self, call: Call) -> bool
        ensures { result ≡ counts_call self call }
    {
        match self {
            Measure::StepsOfCall => !matches!(call, Call::TryLock | Call::Receive),
            Measure::StepsOfTry => matches!(call, Call::TryLock),
            Measure::StepsOfReceive => matches!(call, Call::Receive),
            _ => true,
        }
    }

    /// What a step of the call adds if it changes the push word this often and stores this many grants.
    fn weight_of(self, changes: u64, grants: u64) -> u64
        ensures { result ≡ weight_of self changes grants }
    {
        match self {
            Measure::PushChanges => changes,
            Measure::Grants => grants,
            _ => 1,
        }
    }

    /// What an event does to the count of the steps of all calls.
    fn effect_on_all(self, event: Event, after: &Reading) -> Effect {
        match event {
            Event::Begin(_, _) => Effect::Stays,
            Event::Step(s) if after.seat(s).in_call => Effect::Grows(1),
            Event::Step(_) => Effect::Stops,
        }
    }

    /// What an event does to the count of a call of this seat.
    fn effect_on_call(self, seat: u64, event: Event, before: &Reading, after: &Reading) -> Effect {
        let changes = changed_push(before.push, after.push);
        match event {
            Event::Begin(s, _) if s != seat => Effect::Stays,
            Event::Begin(_, call) => {
                if self.counts_call(call) && after.seat(seat).in_call {
                    Effect::Starts
                } else {
                    Effect::Stops
                }
            }
            Event::Step(s) if s == seat => {
                let weight = self.weight_of(changes, before.seat(seat).grants);
                if after.seat(seat).in_call {
                    Effect::Grows(weight)
                } else {
                    Effect::Ends(weight)
                }
            }
            Event::Step(_) => {
                if self == Measure::StepsOfCall && changes == 1 {
                    Effect::Changes
                } else {
                    Effect::Stays
                }
            }
        }
    }

    /// What a step of seat s adds while the oldest record is queued. The measure of one seat counts only the steps of that
    /// seat.
    fn weight_beside_record(self, seat: u64, s: u64, before: &Reading) -> u64 {
        match self {
            Measure::EntriesOfSeat if s != seat => 0,
            Measure::Releases => before.seat(s).releases,
            _ => before.seat(s).enters,
        }
    }

    /// What an event does to a count over the time in which the oldest record is queued.
    fn effect_beside_record(
        self,
        seat: u64,
        event: Event,
        before: &Reading,
        after: &Reading,
    ) -> Effect {
        match event {
            Event::Begin(_, _) => Effect::Stays,
            Event::Step(s) if before.oldest == after.oldest => {
                Effect::Grows(self.weight_beside_record(seat, s, before))
            }
            Event::Step(_) => Effect::Stops,
        }
    }

    /// Whether the record of the measure is still queued.
    fn is_still_queued(self, before: &Reading, after: &Reading) -> bool {
        match self {
            Measure::BeginsBesideSecond => after.oldest.seat != 0,
            _ => before.oldest == after.oldest,
        }
    }

    /// What an event does to a count over the time in which a record is queued, if only serving calls start.
    fn effect_of_service(self, event: Event, before: &Reading, after: &Reading) -> Effect {
        let counts_steps = self == Measure::StepsBesideOldest;
        match event {
            Event::Begin(s, call) if is_serving(call, before.seat(s).wake) => {
                if after.seat(s).in_call && !counts_steps {
                    Effect::Grows(1)
                } else {
                    Effect::Stays
                }
            }
            Event::Step(_) if self.is_still_queued(before, after) => {
                Effect::Grows(u64::from(counts_steps))
            }
            _ => Effect::Stops,
        }
    }

    /// Whether a run may start at this node with a count of 0. A count of one call starts with the call instead.
    pub fn starts_at(self, node: &Reading) -> bool {
        match self {
            Measure::StepsWithoutEnd => true,
            Measure::Entries | Measure::EntriesOfSeat | Measure::Releases => node.oldest.seat != 0,
            Measure::BeginsBesideOldest | Measure::StepsBesideOldest => node.oldest.seat != 0,
            Measure::BeginsBesideSecond => node.second.seat != 0,
            _ => false,
        }
    }

    /// For which number of changes or open calls the count of a run that starts at this node is kept.
    pub fn starts_beside(self, node: &Reading) -> usize {
        match self {
            Measure::StepsBesideOldest => {
                usize::from(node.seat_1.in_call).wrapping_add(usize::from(node.seat_2.in_call))
            }
            _ => 0,
        }
    }

    /// What an event between these two nodes does to the count. A count of single calls counts the calls of this seat.
    pub fn effect(self, seat: u64, event: Event, before: &Reading, after: &Reading) -> Effect {
        match self {
            Measure::StepsWithoutEnd => self.effect_on_all(event, after),
            Measure::Entries | Measure::EntriesOfSeat | Measure::Releases => {
                self.effect_beside_record(seat, event, before, after)
            }
            Measure::BeginsBesideOldest
            | Measure::BeginsBesideSecond
            | Measure::StepsBesideOldest => { self.effect_of_service(event, before, after) }
            _ => self.effect_on_call(seat, event, before, after),
        }
    }
}
