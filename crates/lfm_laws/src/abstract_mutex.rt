//! Refinement: each state stands for a state of the abstract mutex, and each run for one of its runs.
ghost use Rattle.lfm_laws.specs.laws.InSchedules.{
  StatesAreLawfulInSchedules,
  EventsAreTheirCasesInSchedules,
};
ghost use Rattle.lfm_laws.specs.laws.Laws.{StatesAreLawful, RunsAreAbstractRuns, EventsAreTheirCases};

/// Each steady state has a reading, with which its words agree.
///
/// Definitions: `StatesAreLawful` in `specs/laws/Laws.antt`, and `StatesAreLawfulInSchedules` in
/// `specs/laws/InSchedules.antt`. Proofs: `proofs/lawful/states/StateLaws.antt` and `proofs/lawful/runs/InSchedules.antt`.
pub fn states_are_lawful()
    ensures steady { StatesAreLawful }
    ensures schedules { StatesAreLawfulInSchedules }
{}

/// The readings of a run from the start form a run of the abstract mutex that begins free. So the laws of the abstract mutex
/// hold for every schedule.
///
/// Definition: `RunsAreAbstractRuns` in `specs/laws/Laws.antt`. Proof: `proofs/lawful/runs/AbstractBridge.antt`.
pub fn runs_are_abstract_runs()
    ensures { RunsAreAbstractRuns }
{}

/// Each step changes the reading by the case that is named for it, or not at all if none is named. The start of a call does
/// not change it.
///
/// Definitions: `EventsAreTheirCases` in `specs/laws/Laws.antt`, and `EventsAreTheirCasesInSchedules` in
/// `specs/laws/InSchedules.antt`. Proofs: `proofs/lawful/runs/AbstractBridge.antt` and
/// `proofs/lawful/runs/InSchedules.antt`.
pub fn events_are_their_cases()
    ensures steady { EventsAreTheirCases }
    ensures schedules { EventsAreTheirCasesInSchedules }
{}
