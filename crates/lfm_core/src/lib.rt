//! The mutex as a state that makes one atomic step at a time, in the order that a schedule gives.
#![tactic(auto)]

pub mod laws;
pub mod stepped;
pub mod text;

pub use lfm_protocol::{
    Answer, Call, Limits, MAX_BUDGET, MAX_SEATS, SeatState, Turn, Why, answers, kinds, limits,
    points, seats,
};
pub use stepped::State;
pub use text::{
    Act, Line, MAX_STEPS, ReplayFault, Schedule, faults, grammar_laws, line_number, read_schedule,
    replay, replay_status, report, run, schedule,
};
