//! What all other crates share: seat numbers, answers, places, refusals and faults, and the abstract mutex, which specifies
//! what a mutex does but not how. Also the object that a monitor guards, and the journal that it keeps. This crate defines data
//! and names. It has no word and no atomic step of the protocol.
#![tactic(auto)]

pub mod abstract_laws;
pub mod answers;
pub mod journal_laws;
pub mod journals;
pub mod objects;
pub mod refusals;
pub mod seat_numbers;

pub use answers::{Asked, How, Locked, Place, Unlocked};
pub use journals::{Entry, What, lawful, replay};
pub use objects::{Object, Total, TotalOp};
pub use refusals::{Missing, NewFault, Refusal};
pub use seat_numbers::SeatNo;
