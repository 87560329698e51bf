//! Two threads put 4,000 numbers into a slot, and two take them out. A monitor with two conditions guards the slot: a thread
//! that finds it full, or empty, waits on one of them. Each thread ends when it has moved its share.
use crate::slot::{Slot, SlotOp, SlotReply};
use lfm_model::{Refusal, lawful, replay};
use lfm_monitor::{CriticalSection, Monitor, Pass};
use std::ops::ControlFlow;
use std::sync::Wait;
use std::test::Fail;

/// How many numbers go through the slot: 1, 2, 3 and so on. The first producer puts in the odd ones, the second the even ones.
const NUMBERS: u64 = 4_000;

/// How many pairs of numbers each of the four threads puts in, or takes out.
const PAIRS: u64 = 1_000;

/// How many journal entries a thread may write. A pair costs it two, a take and an op, and so does each wait. A wait ends by a
/// wake-up, and each condition has one wake-up for each pair, 2,000 in all. So a thread writes at most 6,000 entries, even if
/// it gets all wake-ups of its condition. The journal has room for 1,048,576.
const ENTRIES: u64 = 6_000;

/// The condition of those that found the slot empty, and of those that found it full.
const NOT_EMPTY: u64 = 1;

const NOT_FULL: u64 = 2;

/// What a pass does at its turn, which counts from 0: passes 1 and 2 put in their next two numbers, and the others take a pair
/// out.
fn op_of(pass: u64, turn: u64) -> SlotOp {
    if pass > 2 {
        return SlotOp::Take;
    }
    let first = pass.wrapping_add(turn.wrapping_mul(4));
    SlotOp::Put((first, first.wrapping_add(2)))
}

/// Moves one pair in each of its rounds: makes the pass's op until it succeeds, with a wait on a condition before each further
/// try, and then wakes one pass that waits on the other condition.
struct MovesPairs;

impl<R: Wait> CriticalSection<Slot, R> for MovesPairs {
    type Answer = ControlFlow<()>;

    /// Moves one pair.
    fn execute(
        &self,
        rt: &R,
        monitor: &Monitor<Slot>,
        pass: &mut Pass<Slot>,
        turn: u64,
    ) -> Result<ControlFlow<()>, Refusal> {
        let op = op_of(pass.number().get(), turn);
        let (waits_on, wakes) = match op {
            SlotOp::Put(_) => (NOT_FULL, NOT_EMPTY),
            SlotOp::Take => (NOT_EMPTY, NOT_FULL),
        };
        monitor.apply_until(rt, pass, waits_on, op, |reply| *reply != SlotReply::Nothing)?;
        monitor.wake_one(rt, pass, wakes)?;
        Ok(ControlFlow::Continue(()))
    }
}

/// The odd and the even number that come next after those that were taken out. None if a number was out of order: the odd ones
/// are 1, 3, 5 and so on, and the even ones 2, 4, 6 and so on, each of them once.
fn next_numbers(replies: &[SlotReply]) -> Option<(u64, u64)> {
    let mut odd = 1u64;
    let mut even = 2u64;
    for reply in replies {
        if let SlotReply::Taken(pair) = reply {
            if *pair == (odd, odd.wrapping_add(2)) {
                odd = odd.wrapping_add(4);
            } else if *pair == (even, even.wrapping_add(2)) {
                even = even.wrapping_add(4);
            } else {
                return None;
            }
        }
    }
    Some((odd, even))
}

#[test]
fn two_producers_and_two_consumers(rt: HostRuntime) -> Result<(), Fail> {
    let (monitor, passes) = Monitor::new(rt.alloc(), 4, ENTRIES, 2, Slot(None))?;
    let passes = monitor.run(&rt, passes, PAIRS, &MovesPairs)?;
    let Ok((slot, journal)) = monitor.close(passes) else {
        panic!(rt; "all passes were back")
    };
    assert_eq!(rt; slot, Slot(None));
    assert!(rt; lawful(&journal));
    let (again, replies) = replay(rt.alloc(), Slot(None), &journal)?;
    assert_eq!(rt; again, slot);
    assert_eq!(rt; next_numbers(&replies), Some((NUMBERS + 1, NUMBERS + 2)));
    Ok(())
}
