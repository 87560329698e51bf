//! The rows to compare: for each measure the known greatest count, and the bound of its law for two seats.
ghost use Rattle.std.specs.Prelude.{◌≡◌};
ghost use Rattle.lfm_states.specs.Rows.{known_states, is_as_known};

use crate::measures::Measure;

/// A measure with its known greatest count, and the law that bounds it.
#[derive(Clone, Copy, Debug, PartialEq, Eq)]
pub struct Row {
    /// Its name.
    pub name: &'static str,
    /// What is measured.
    pub measure: Measure,
    /// With how many changes of the push word by the other seat, or calls open at the start of the run, it is counted.
    pub beside: usize,
    /// The known greatest count. A budget of 2 takes is enough to reach it.
    pub known: u64,
    /// The bound of the law.
    pub bound: u64,
    /// The law's name in `lfm_laws`.
    pub law: &'static str,
}

impl Row {
    /// Whether a greatest count is the known one and is within the bound.
    pub fn is_as_known(&self, greatest: u64) -> bool
        ensures { result ≡ is_as_known self.now greatest }
    {
        greatest == self.known && greatest <= self.bound
    }
}

/// How many states are known to be reachable at this budget, which is 2 or 3.
pub fn known_states(budget: u64) -> usize
    ensures { result ≡ known_states budget }
{
    if budget == 2 { 31_046 } else { 335_684 }
}

/// All rows, grouped by their measure.
pub const ROWS: [Row; 16] = [
    Row {
        name: "steps of a call beside no change of the push word",
        measure: Measure::StepsOfCall,
        beside: 0,
        known: 11,
        bound: 11,
        law: "calls_end_beside_others",
    },
    Row {
        name: "steps of a call beside 1 change of the push word",
        measure: Measure::StepsOfCall,
        beside: 1,
        known: 13,
        bound: 13,
        law: "calls_end_beside_others",
    },
    Row {
        name: "steps of a call beside 2 changes of the push word",
        measure: Measure::StepsOfCall,
        beside: 2,
        known: 15,
        bound: 15,
        law: "calls_end_beside_others",
    },
    Row {
        name: "steps of a try_lock",
        measure: Measure::StepsOfTry,
        beside: 0,
        known: 6,
        bound: 6,
        law: "tries_and_receives_are_bounded",
    },
    Row {
        name: "steps of a receive",
        measure: Measure::StepsOfReceive,
        beside: 0,
        known: 3,
        bound: 3,
        law: "tries_and_receives_are_bounded",
    },
    Row {
        name: "changes of the push word by a call",
        measure: Measure::PushChanges,
        beside: 0,
        known: 2,
        bound: 2,
        law: "calls_change_the_push_word_twice",
    },
    Row {
        name: "grants by a call",
        measure: Measure::Grants,
        beside: 0,
        known: 1,
        bound: 1,
        law: "calls_grant_once",
    },
    Row {
        name: "steps of calls without an end of one",
        measure: Measure::StepsWithoutEnd,
        beside: 0,
        known: 17,
        bound: 30,
        law: "some_call_ends",
    },
    Row {
        name: "entries while the oldest record is queued",
        measure: Measure::Entries,
        beside: 0,
        known: 1,
        bound: 1,
        law: "queued_seats_are_overtaken_once",
    },
    Row {
        name: "entries of one seat while the oldest record is queued",
        measure: Measure::EntriesOfSeat,
        beside: 0,
        known: 1,
        bound: 1,
        law: "no_seat_overtakes_twice",
    },
    Row {
        name: "releases while the oldest record is queued",
        measure: Measure::Releases,
        beside: 0,
        known: 1,
        bound: 1,
        law: "queued_seats_wait_for_few_releases",
    },
    Row {
        name: "begins of serving calls while the oldest record is queued",
        measure: Measure::BeginsBesideOldest,
        beside: 0,
        known: 2,
        bound: 2,
        law: "queued_seats_are_served_soon",
    },
    Row {
        name: "begins of serving calls while the second record is queued",
        measure: Measure::BeginsBesideSecond,
        beside: 0,
        known: 2,
        bound: 4,
        law: "queued_seats_are_served_soon",
    },
    Row {
        name: "steps where serving calls alone begin, with the oldest record queued and no call open at first",
        measure: Measure::StepsBesideOldest,
        beside: 0,
        known: 7,
        bound: 30,
        law: "queued_seats_are_served_soon",
    },
    Row {
        name: "the same with 1 call open at first",
        measure: Measure::StepsBesideOldest,
        beside: 1,
        known: 8,
        bound: 45,
        law: "queued_seats_are_served_soon",
    },
    Row {
        name: "the same with 2 calls open at first",
        measure: Measure::StepsBesideOldest,
        beside: 2,
        known: 12,
        bound: 60,
        law: "queued_seats_are_served_soon",
    },
];
