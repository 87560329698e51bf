//! A producer and a consumer: one thread puts the numbers 1, 2, 3 and so on into a bounded buffer, and another takes them out.
//! A monitor guards the buffer, which is the object of `lfm_buffer`. A thread that finds it full, or empty, waits on a
//! condition until the other thread wakes it.
#![tactic(auto)]

use anyhow::bail;
use lfm_buffer::{Buffer, BufferOp, BufferReply};
use lfm_model::{Refusal, lawful, replay};
use lfm_monitor::{CriticalSection, Monitor, Pass};
use std::ops::ControlFlow;
use std::sync::Wait;

/// How many numbers go through the buffer.
const NUMBERS: u64 = 10_000;

/// How many entries of the journal a thread may write. A number costs at most four entries: the thread enters and tries, and if
/// that fails, it waits, enters again and tries once more.
const ENTRIES: u64 = 40_000;

/// The conditions of the monitor: a thread that found the buffer empty waits on the first, and one that found it full on the
/// second.
const NOT_EMPTY: u64 = 1;

const NOT_FULL: u64 = 2;

/// The role of a thread depends on the number of its pass: pass 1 produces, and pass 2 consumes.
struct Roles;

impl<R: Wait> CriticalSection<Buffer, R> for Roles {
    type Answer = ControlFlow<()>;

    /// Puts one number in or takes one out, and wakes the other thread if it waits for that.
    fn execute(
        &self,
        rt: &R,
        monitor: &Monitor<Buffer>,
        pass: &mut Pass<Buffer>,
        round: u64,
    ) -> Result<ControlFlow<()>, Refusal> {
        if pass.number().get() == 1 {
            let put = BufferOp::Put(round.wrapping_add(1));
            monitor.apply_until(rt, pass, NOT_FULL, put, |reply| *reply != BufferReply::Full)?;
            monitor.wake_one(rt, pass, NOT_EMPTY)?;
        } else {
            let take = BufferOp::Take;
            monitor.apply_until(
                rt,
                pass,
                NOT_EMPTY,
                take,
                |reply| *reply != BufferReply::Empty,
            )?;
            monitor.wake_one(rt, pass, NOT_FULL)?;
        }
        Ok(ControlFlow::Continue(()))
    }
}

/// How many numbers were taken, if they are 1, 2, 3 and so on. None otherwise.
fn taken_in_order(replies: &[BufferReply]) -> Option<u64> {
    let mut last = 0u64;
    for reply in replies {
        if let BufferReply::Taken(number) = reply {
            if *number != last.wrapping_add(1) {
                return None;
            }
            last = *number;
        }
    }
    Some(last)
}

/// Runs both threads, and then checks by the journal that no number was lost and none overtook another.
fn main(rt: HostRuntime) -> anyhow::Result<()> {
    // a monitor with two passes, each of which may write `ENTRIES` entries, and two conditions; it guards an empty buffer
    let (monitor, passes) = Monitor::new(rt.alloc(), 2, ENTRIES, 2, Buffer::new())?;
    let Ok(passes) = monitor.run(&rt, passes, NUMBERS, &Roles) else {
        bail!("a thread could not be started");
    };
    let Ok((_, journal)) = monitor.close(passes) else {
        bail!("a pass still holds the monitor");
    };
    // the journal has all ops on the buffer, in order: a replay of them gives the same replies
    let (_, replies) = replay(rt.alloc(), Buffer::new(), &journal)?;
    let Some(taken) = taken_in_order(&replies) else {
        bail!("a number was taken out of turn");
    };
    println!(rt; "{taken} numbers were taken, in order")?;
    println!(rt; "lawful: {}", lawful(&journal))?;
    Ok(())
}
