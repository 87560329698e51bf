//! The invariant: each `State` is steady. The laws of all states and turns are re-exported.
ghost use Rattle.std.specs.Prelude.{◌≤◌};
ghost use Rattle.lfm_laws.specs.steady.Steady.{Steady};
ghost use Rattle.lfm_protocol.specs.Limits.{max_budget};

use crate::stepped::State;
pub use lfm_laws::steadiness::{
    begins_touch_one_seat, states_are_steady, steps_at_a_table, steps_keep_steady,
    steps_touch_one_word_and_one_seat,
};

/// Every `State` is steady and within the limits.
///
/// Definition: `Steady` in `crates/lfm_laws/specs/steady/Steady.antt`. Proof: the invariant that `State` carries.
pub fn every_state_is_steady(state: &State)
    ensures steady { Steady state.now }
    ensures budget { state.now.budget ≤ max_budget }
{
    state.steady();
}
