//! Steps that one thread makes on a new mutex and its condvars. Then the condvars are closed. It has no test.

use crate::in_hand::Called;
use crate::pairs::{closed, closed_by_one, in_hand_of_one_condvar, in_hand_of_two_condvars};
use crate::steps::{By, Step, make_all};
use std::alloc::Global;
use std::process::Abort;
use std::sync::Wait;

/// The numbers of a condvar that is closed.
pub type Numbers = (u64, u64);

/// Makes these steps on a mutex around 7, whose seats have this budget, and on two condvars for seat 1 alone, each with one
/// cond seat, which has one take. Returns the numbers of both condvars.
pub fn on_two_condvars<R: Wait + Abort>(
    rt: &R,
    alloc: Global,
    budget: u64,
    steps: &[(By, Step)],
) -> Option<(Numbers, Numbers)> {
    let (mutex, one, other, mut hand) = in_hand_of_two_condvars(alloc, budget)?;
    let called = Called {
        mutex: &mutex,
        one: &one,
        other: &other,
    };
    make_all(rt, &called, &mut hand, steps);
    let one = closed_by_one(one, hand.one, Vec::new(alloc));
    let other = closed_by_one(other, hand.other, Vec::new(alloc));
    one.zip(other)
}

/// Makes these steps on a mutex around this number, and on one condvar with a cond seat for each of its seats. Returns the
/// numbers of the condvar.
pub fn on_one_condvar<R: Wait + Abort>(
    rt: &R,
    alloc: Global,
    number: u64,
    steps: &[(By, Step)],
) -> Option<Numbers> {
    let (mutex, condvar, mut hand) = in_hand_of_one_condvar(alloc, 8, number)?;
    let called = Called {
        mutex: &mutex,
        one: &condvar,
        other: &condvar,
    };
    make_all(rt, &called, &mut hand, steps);
    closed(condvar, hand.one, hand.other, Vec::new(alloc))
}
