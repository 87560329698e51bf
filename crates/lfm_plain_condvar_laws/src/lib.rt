//! The laws of the plain condition variable, over a model of its waits. A law is a function without a body, whose contract
//! states it.
#![tactic(auto)]

pub mod waits;
