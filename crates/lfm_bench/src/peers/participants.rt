//! Threads that use our mutex and two condvars. Each thread waits on one of the condvars, and wakes the threads that wait on
//! the other.

use crate::peers::guarded::Operation;
use std::io;
use std::sync::Wait;

/// One of the two condvars.
#[derive(Clone, Copy)]
pub enum Side {
    First,
    Second,
}

/// When a thread that has changed the value wakes another.
#[derive(Clone, Copy)]
pub enum Waking {
    /// While it holds the mutex.
    InHold,
    /// After it has unlocked the mutex. Condvars that morph waits are not measured like this: their wake puts the woken thread
    /// into the queue of the mutex, and the unlock serves it.
    AfterUnlock,
}

/// A thread with its seats. It waits on one of the condvars, and wakes the threads that wait on the other.
pub trait Participant: Send + Drop {
    /// Locks in its way. Returns whether the seat acquired the mutex and did not hold it before.
    fn lock<R: Wait>(&mut self, rt: &R) -> bool;

    /// `unlock`. Returns whether the seat held.
    fn unlock(&mut self) -> bool;

    /// Makes the operation on the value of the mutex. Returns its number, or None if it isn't possible yet or the seat doesn't
    /// hold.
    fn apply(&mut self, operation: Operation) -> Option<u64>;

    /// `wait`. Returns whether it was not refused.
    fn wait<R: Wait>(&mut self, rt: &R) -> bool;

    /// `wake_one` of the other condvar. Returns whether it was not refused.
    fn wake_one<R: Wait>(&mut self, rt: &R) -> bool;

    /// `wake_all` of the other condvar. Returns how many were woken, or 0 if it was refused.
    fn wake_all<R: Wait>(&mut self, rt: &R) -> u64;
}

/// A mutex and its two condvars, with the seats that no thread has yet.
pub trait Places: Drop {
    /// A thread with its seats.
    type One: Participant;

    /// The seats of one more thread, which waits on this condvar. An error if there is no seat left.
    fn next(&mut self, waits_on: Side) -> io::Result<Self::One>;
}

/// Waits, while it holds the mutex, until the operation is possible, and makes it. Returns its number, or None if a call was
/// refused.
pub fn wait_and_apply<R: Wait, P: Participant>(
    rt: &R,
    participant: &mut P,
    operation: Operation,
) -> Option<u64> {
    for _ in rt.forever() {
        if let Some(number) = participant.apply(operation) {
            return Some(number);
        }
        if !participant.wait(rt) {
            return None;
        }
    }
    None
}

/// `unlock`, and `wake_one` of the other condvar, in the order that `waking` says. Returns whether neither was refused.
fn unlock_and_wake_one<R: Wait, P: Participant>(
    rt: &R,
    participant: &mut P,
    waking: Waking,
) -> bool {
    match waking {
        Waking::InHold => {
            let woken = participant.wake_one(rt);
            participant.unlock() && woken
        }
        Waking::AfterUnlock => {
            let unlocked = participant.unlock();
            participant.wake_one(rt) && unlocked
        }
    }
}

/// In one hold of the mutex, waits until the operation is possible, and makes it. Then it unlocks the mutex and wakes one
/// thread that waits on the other condvar, in the order that `waking` says. Returns the operation's number, or None if a call
/// was refused.
pub fn lock_and_apply<R: Wait, P: Participant>(
    rt: &R,
    participant: &mut P,
    operation: Operation,
    waking: Waking,
) -> Option<u64> {
    if !participant.lock(rt) {
        return None;
    }
    let number = wait_and_apply(rt, participant, operation)?;
    if !unlock_and_wake_one(rt, participant, waking) {
        return None;
    }
    Some(number)
}
