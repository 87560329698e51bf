//! Tests of the running mutex, called by one thread that holds all its seats: holds and grants, sections, limits and refusals,
//! wake-ups, paces, and seats that are dropped.
mod barging;
mod calls;
mod dropped_seats;
mod holding;
mod paces;
mod refusals;
mod seats;
mod sections;
mod without_waking;
