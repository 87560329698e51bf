//! What the threads of a mutex and a plain condvar do, each with a hand of its own.
ghost use Rattle.std.specs.Prelude.{All, IfOk};
ghost use Rattle.lfm_plain_test_tools.specs.Hands.{IsHandOf};

use crate::hands::Hand;
use lfm_mutex::Mutex;
use lfm_plain_condvar::PlainCondvar;
use std::alloc::AllocError;
use std::sync::Wait;
use std::thread::{Threads, map_vec};

/// What a thread does with its hand.
pub trait Task<R: Wait>: Sync {
    /// Does it, and hands the hand back.
    fn perform(&self, rt: &R, mutex: &Mutex<u64>, condvar: &PlainCondvar, hand: Hand) -> Hand
        requires { IsHandOf hand mutex.now condvar.now }
        ensures { IsHandOf result mutex.now condvar.now };
}

/// Performs the task with each hand in a thread of its own, and joins the threads. It takes memory.
pub fn perform_all<R: Threads + Wait + Sync, K: Task<R>>(
    rt: &R,
    mutex: &Mutex<u64>,
    condvar: &PlainCondvar,
    hands: Vec<Hand>,
    task: &K,
) -> Result<Vec<Hand>, AllocError>
    requires { All (λ h. IsHandOf h mutex.now condvar.now) hands.items }
    ensures { IfOk result (λ v. All (λ h. IsHandOf h mutex.now condvar.now) v.items) }
{
    let hands = map_vec(
        rt,
        hands,
        &|hand: Hand| -> Hand
            requires { IsHandOf hand mutex.now condvar.now }
            ensures { IsHandOf result mutex.entry.now condvar.entry.now }
        { task.perform(rt, mutex, condvar, hand) },
    )?;
    Ok(hands)
}
