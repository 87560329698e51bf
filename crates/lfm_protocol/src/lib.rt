//! The protocol: the calls, their points, how each step advances a seat, and a machine of words and seats that starts one call
//! or makes one atomic step at a time. The contracts in this crate repeat the definition of a step. The crates above prove
//! which states can be reached and what holds in them.
#![tactic(auto)]

mod after;
pub mod answers;
mod carrying;
mod chains;
pub mod kinds;
pub mod limits;
pub mod machine;
pub mod points;
pub mod seats;
mod stores;

pub use answers::{Answer, Call, Turn, Why};
pub use carrying::how_granted;
pub use limits::{Limits, MAX_BUDGET, MAX_DEPTH, MAX_SEATS};
pub use machine::Machine;
pub use seats::SeatState;
