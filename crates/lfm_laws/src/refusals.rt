//! Refusals: a call or step is refused exactly if there is a cause for it, and a call that is refused at its start changes
//! nothing.
ghost use Rattle.lfm_laws.specs.laws.BusyMoments.{BusyWasBusy};
ghost use Rattle.lfm_laws.specs.laws.InSchedules.{BusyWasBusyInSchedules};
ghost use Rattle.lfm_laws.specs.laws.OutsideSteps.{AnsweredOutside, RunsStayWithoutOutsideSteps, StepsOutsideOfCallsChangeNothing};
ghost use Rattle.lfm_laws.specs.laws.Refusals.{RefusedBeginsChangeNothing, BeginsAreRefusedForCause, StepsAreRefusedForCause, TurnsAreRefusedForCause, TriesSeeAHolder};

/// A call that is refused at its start leaves the whole state unchanged.
///
/// Definition: `RefusedBeginsChangeNothing` in `specs/laws/Refusals.antt`. Proof: `proofs/lawful/refusals/RefusedCalls.antt`.
pub fn refused_begins_change_nothing()
    ensures { RefusedBeginsChangeNothing }
{}

/// A step of a seat that has no call open, or of a number that no seat has, changes no word, record or seat, so a run leads to
/// the same state without it. Only such a step is refused as Idle or NoSuchSeat.
///
/// Definitions: `StepsOutsideOfCallsChangeNothing`, `AnsweredOutside` and `RunsStayWithoutOutsideSteps` in
/// `specs/laws/OutsideSteps.antt`. Proof: `proofs/lawful/refusals/OutsideSteps.antt`.
pub fn steps_outside_of_calls_change_nothing()
    ensures state { StepsOutsideOfCallsChangeNothing }
    ensures answered { AnsweredOutside }
    ensures runs { RunsStayWithoutOutsideSteps }
{}

/// The mutex refuses a call exactly if the seat and the state have the cause that is named for this call and refusal; at
/// most one holds.
///
/// Definition: `BeginsAreRefusedForCause` in `specs/laws/Refusals.antt`. Proof: `proofs/lawful/refusals/RefusedCalls.antt`.
pub fn begins_are_refused_for_cause()
    ensures { BeginsAreRefusedForCause }
{}

/// The mutex refuses a step of a call exactly if it has one of two causes. Busy: a `try_lock` loads no post, or the post
/// that it loaded is gone. NotWaiting: the target of a send does not wait. The call then ends, and only its seat changes;
/// Busy gives the take back.
///
/// Definition: `StepsAreRefusedForCause` in `specs/laws/Refusals.antt`. Proof: `proofs/lawful/refusals/RefusedSteps.antt`.
pub fn steps_are_refused_for_cause()
    ensures { StepsAreRefusedForCause }
{}

/// A call or step is refused exactly if there is a cause for it. NoSuchSeat: no seat has the number. InCall, of a call: the
/// seat has another open. Idle, of a step: it has none open. Any other refusal is one of the call itself.
///
/// Definition: `TurnsAreRefusedForCause` in `specs/laws/Refusals.antt`. Proof: `proofs/lawful/refusals/RefusedTurns.antt`.
pub fn turns_are_refused_for_cause()
    ensures { TurnsAreRefusedForCause }
{}

/// A `try_lock` reaches its handoff load only by its own steps: they found a count above 0, and then, while its seat held
/// nothing, an owner word that is not its seat. It reaches its exchange only after it has loaded the post that the exchange
/// expects.
///
/// Definition: `TriesSeeAHolder` in `specs/laws/Refusals.antt`. Proof: `proofs/lawful/refusals/BusyTries.antt`.
pub fn tries_see_a_holder()
    ensures { TriesSeeAHolder }
{}

/// At some moment between the start of a `try_lock` and its answer Busy there was nothing to take: the count was above 0, and
/// nothing was posted.
///
/// Definitions: `BusyWasBusy` in `specs/laws/BusyMoments.antt`, and `BusyWasBusyInSchedules` in
/// `specs/laws/InSchedules.antt`. Proofs: `proofs/lawful/refusals/BusyMoments.antt` and `proofs/lawful/runs/InSchedules.antt`.
pub fn busy_was_busy()
    ensures steady { BusyWasBusy }
    ensures schedules { BusyWasBusyInSchedules }
{}
