//! The values that the words of a mutex hold, their packing into 64 bits, and the list of popped records. This crate has no
//! step and no rule of the protocol.
#![tactic(auto)]

pub mod handoffs;
pub mod links;
pub mod packing_laws;
pub mod pop_lists;
pub mod wakes;

pub use handoffs::{Handoff, pack_handoff, unpack_handoff};
pub use links::{Link, pack_link, unpack_link};
pub use pop_lists::{PopList, Record};
pub use wakes::{FIRST_GRANT, Wake};
