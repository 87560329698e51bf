//! What tests and loads share: readers and writers that fail, or give without end; a value whose drops are counted; a mutex with
//! two seats in hand; and a mutex with two condvars that threads call, each with a task of its own. Only tests and loads call
//! it, so nothing that a user needs is here.
#![tactic(auto)]

pub mod adding;
pub mod counted;
pub mod devices;
pub mod locking;
pub mod two_condvars;
pub mod two_seats;
