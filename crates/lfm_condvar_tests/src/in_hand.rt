//! A mutex and two condvars that one thread calls, and the seats that it has in hand. The calls are in `steps`.
use lfm_condvar::{CondSeat, Condvar};
use lfm_mutex::{Mutex, Seat};

/// What is called: a mutex and two condvars, which may be the same one.
#[derive(Clone, Copy)]
pub struct Called<'a> {
    pub mutex: &'a Mutex<u64>,
    pub one: &'a Condvar,
    pub other: &'a Condvar,
}

/// Two seats of the mutex, and a cond seat of each condvar.
#[derive(Drop)]
pub struct InHand {
    pub first: Seat<u64>,
    pub second: Seat<u64>,
    pub one: CondSeat,
    pub other: CondSeat,
}
