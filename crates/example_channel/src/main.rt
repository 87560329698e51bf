//! Four threads send numbers through a channel, and a fifth receives them until all senders have closed their ends. A monitor
//! guards the channel. A thread that finds it full, or empty, waits on a condition until another thread wakes it. Then, on a
//! second channel, one thread receives with a time limit: first when nothing was sent, and then after a number was.
#![tactic(auto)]

mod channel;
mod receiving;

ghost use Rattle.lfm_monitor.specs.Belongs.{OfMonitor};
ghost use Rattle.std.specs.Prelude.{IfSome};

use crate::channel::{Channel, ChannelOp, ChannelReply};
use crate::receiving::{Receipt, receive_for};
use anyhow::bail;
use lfm_model::{Refusal, lawful, replay};
use lfm_monitor::{CriticalSection, Monitor, Pass};
use std::alloc::Global;
use std::ops::ControlFlow;
use std::sync::Wait;
use std::time::{Clock, Duration};

/// How many threads send. The thread with the pass after theirs receives.
const SENDERS: u64 = 4;

/// How many numbers each of them sends: together they send 1, 2, 3 and so on, each number once.
const NUMBERS: u64 = 250;

/// The most rounds of a thread: the receiver makes one for each number, and one that finds the end.
const ROUNDS: u64 = 1_001;

/// How many entries of the journal a thread may write. A round costs two entries, a take and an op, and so does each wait. A
/// wait ends by a wake, and each condition has one wake for each number and each close. So 5,000 entries are enough, even for a
/// thread that gets all wakes of its condition.
const ENTRIES: u64 = 5_000;

/// The conditions of the monitor: a thread that found the channel empty waits on the first, and one that found it full on the
/// second.
const NOT_EMPTY: u64 = 1;

const NOT_FULL: u64 = 2;

/// How long the receives with a time limit wait for a number, in milliseconds.
const LIMIT: u64 = 10;

/// The role of a thread depends on the number of its pass: passes 1 to 4 send, and pass 5 receives.
struct Roles;

impl<R: Wait> CriticalSection<Channel, R> for Roles {
    type Answer = ControlFlow<()>;

    /// A sender sends one number, and closes its end after its last one. The receiver receives one, until all ends are closed.
    fn execute(
        &self,
        rt: &R,
        monitor: &Monitor<Channel>,
        pass: &mut Pass<Channel>,
        round: u64,
    ) -> Result<ControlFlow<()>, Refusal> {
        let sender = pass.number().get();
        if sender > SENDERS {
            let reply = monitor.apply_until(rt, pass, NOT_EMPTY, ChannelOp::Receive, |reply| {
                *reply != ChannelReply::Empty
            })?;
            if reply == ChannelReply::Ended {
                return Ok(ControlFlow::Break(()));
            }
            monitor.wake_one(rt, pass, NOT_FULL)?;
            return Ok(ControlFlow::Continue(()));
        }
        if round == NUMBERS {
            monitor.apply(pass, ChannelOp::Close)?;
            monitor.wake_one(rt, pass, NOT_EMPTY)?;
            return Ok(ControlFlow::Break(()));
        }
        let send = ChannelOp::Send(round.wrapping_mul(SENDERS).wrapping_add(sender));
        monitor.apply_until(
            rt,
            pass,
            NOT_FULL,
            send,
            |reply| *reply != ChannelReply::Full,
        )?;
        monitor.wake_one(rt, pass, NOT_EMPTY)?;
        Ok(ControlFlow::Continue(()))
    }
}

/// How many numbers were received, and their sum.
fn received(replies: &[ChannelReply]) -> (u64, u64) {
    let mut count = 0u64;
    let mut sum = 0u64;
    for reply in replies {
        if let ChannelReply::Received(number) = reply {
            count = count.wrapping_add(1);
            sum = sum.wrapping_add(*number);
        }
    }
    (count, sum)
}

/// A channel for one sender, guarded by a monitor with plain conditions, and the monitor's one pass.
fn own_channel(alloc: Global) -> Option<(Monitor<Channel>, Pass<Channel>)>
    ensures { IfSome result (λ r. OfMonitor r.1 r.0) }
{
    // the pass writes fewer than 20 entries
    let channel = Channel::new(1);
    let Ok((monitor, mut passes)) = Monitor::with_plain_conditions(alloc, 1, 20, 2, channel) else {
        return None;
    };
    let pass = passes.pop()?;
    Some((monitor, pass))
}

/// Receives with a time limit, sends this number, and receives again. Returns what the two receives answered.
fn receive_twice<R: Wait + Clock>(
    rt: &R,
    monitor: &Monitor<Channel>,
    pass: &mut Pass<Channel>,
    number: u64,
) -> Result<(Receipt, Receipt), Refusal>
    requires { OfMonitor pass.old monitor.now }
    ensures { OfMonitor pass.new monitor.now }
{
    let limit = Duration::from_millis(LIMIT);
    monitor.enter(rt, pass)?;
    let first = receive_for(rt, monitor, pass, limit)?;
    monitor.apply(pass, ChannelOp::Send(number))?;
    let second = receive_for(rt, monitor, pass, limit)?;
    monitor.leave(pass)?;
    Ok((first, second))
}

/// Runs all five threads, and then counts by the journal what was received. Then it receives with a time limit.
fn main(rt: HostRuntime) -> anyhow::Result<()> {
    // a monitor with a pass for each thread, each of which may write `ENTRIES` entries, and two conditions; it guards the
    // channel
    let channel = Channel::new(SENDERS);
    let (monitor, passes) = Monitor::new(rt.alloc(), SENDERS + 1, ENTRIES, 2, channel)?;
    let Ok(passes) = monitor.run(&rt, passes, ROUNDS, &Roles) else {
        bail!("a thread could not be started");
    };
    let Ok((_, journal)) = monitor.close(passes) else {
        bail!("a pass still holds the monitor");
    };
    // the journal has all ops on the channel, in order: a replay of them gives the same replies
    let (_, replies) = replay(rt.alloc(), Channel::new(SENDERS), &journal)?;
    let (count, sum) = received(&replies);
    println!(rt; "{count} numbers were received, and their sum is {sum}")?;
    println!(rt; "lawful: {}", lawful(&journal))?;

    let Some((monitor, mut pass)) = own_channel(rt.alloc()) else {
        bail!("out of memory");
    };
    let Ok((first, second)) = receive_twice(&rt, &monitor, &mut pass, 7) else {
        bail!("a call was refused");
    };
    println!(rt; "a receive for {LIMIT} ms from an empty channel: {first:?}")?;
    println!(rt; "a receive for {LIMIT} ms after 7 was sent: {second:?}")?;
    Ok(())
}
