//! Refinement: each `State` stands for a state of the abstract mutex. The laws of all states and runs are re-exported.
ghost use Rattle.lfm_laws.specs.laws.Lawful.{Lawful};

use crate::stepped::State;
pub use lfm_laws::abstract_mutex::{
    events_are_their_cases, runs_are_abstract_runs, states_are_lawful,
};

/// Each value of type `State` has a reading with which its words agree, however it was made.
///
/// Definition: `Lawful` in `crates/lfm_laws/specs/laws/Lawful.antt`. Proof:
/// `crates/lfm_laws/proofs/lawful/states/StateLaws.antt`.
pub fn every_state_is_lawful(state: &State)
    ensures { Lawful state.now }
{
    state.law();
}
