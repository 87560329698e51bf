//! Tests of the running mutex: threads that try, lock, barge, try until a time is over, and sleep, as many seats as there may be,
//! rounds of all seats, and a flag. Races whose steps are made by hand are among the examples, which `lfm_explain drive` makes on
//! a running mutex.

mod barging;
mod flags;
mod many_seats;
mod paced;
mod rounds;
mod sleeping;
mod timed;
mod workers;
