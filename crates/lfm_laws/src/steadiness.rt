//! The invariant: every reached state is steady, each turn keeps a steady state steady, and an atomic step touches only one
//! word, one seat and, at three kinds of step, the pop list. The proofs of a mutex on shared words use these laws.
ghost use Rattle.lfm_laws.specs.laws.Steadiness.{
  StatesAreSteady,
  StepsKeepSteady,
  StepsTouchOneWordAndOneSeat,
  BeginsTouchOneSeat,
  StepsSeeOneWordAndOneSeat,
  StepsAtATable,
  StepsAtATableInLimits,
  ReachedAreNarrow,
};

/// Every reached state is steady.
///
/// Definition: `StatesAreSteady` in `specs/laws/Steadiness.antt`, with the invariant in `specs/steady/Steady.antt`. Proof:
/// `proofs/lawful/runs/KeptSteady.antt`.
pub fn states_are_steady()
    ensures { StatesAreSteady }
{}

/// If some ghost fits a state, one fits the state after any event. The case of the event leads from one ghost's abstract mutex
/// to the other's, and the lists of pushes, of records that left and of answers grow by those of the event.
///
/// Definition: `StepsKeepSteady` in `specs/laws/Steadiness.antt`. Proof: `proofs/lawful/runs/KeptSteady.antt`, with the case of
/// each point in `proofs/steady/StepsKept.antt`.
pub fn steps_keep_steady()
    ensures { StepsKeepSteady }
{}

/// A step changes only the word that the table of kinds names for its point, and none if it is a load. It changes only the
/// seat that makes it, and the pop list only if it is a link load, an owner store or a wake store. Its answer, and what its
/// seat becomes, depend only on that word, that seat and the oldest record of the pop list.
///
/// Definitions: `StepsTouchOneWordAndOneSeat` and `StepsSeeOneWordAndOneSeat` in `specs/laws/Steadiness.antt`. Proof:
/// `proofs/lawful/touched/OneSeat.antt`, with the case of each word in `proofs/lawful/touched/OneWord.antt`.
pub fn steps_touch_one_word_and_one_seat()
    ensures touches { StepsTouchOneWordAndOneSeat }
    ensures sees { StepsSeeOneWordAndOneSeat }
{}

/// The start of a call changes only its seat.
///
/// Definition: `BeginsTouchOneSeat` in `specs/laws/Steadiness.antt`. Proof: `proofs/lawful/touched/OneSeat.antt`.
pub fn begins_touch_one_seat()
    ensures { BeginsTouchOneSeat }
{}

/// A step on a list of packed numbers changes the one number at its place, the seat and the pop list as the step of the core
/// does, and a ghost fits the state after it. Its premises about numbers hold for every reached state within the limits.
///
/// Definitions: `StepsAtATable`, `StepsAtATableInLimits` and `ReachedAreNarrow` in `specs/laws/Steadiness.antt`, with
/// `TableStep` in `specs/table/Carried.antt`. Proofs: `proofs/table/TableSteps.antt` and `proofs/lawful/runs/KeptSteady.antt`.
pub fn steps_at_a_table()
    ensures step { StepsAtATable }
    ensures in_limits { StepsAtATableInLimits }
    ensures narrow { ReachedAreNarrow }
{}
