//! A receive with a time limit. The monitor that guards the channel needs plain conditions for it.
ghost use Rattle.lfm_monitor.specs.Belongs.{OfMonitor};

use crate::channel::{Channel, ChannelOp, ChannelReply};
use crate::{NOT_EMPTY, NOT_FULL};
use lfm_model::Refusal;
use lfm_monitor::{LastReply, Monitor, Pass};
use std::sync::Wait;
use std::time::{Clock, Duration};

/// What a receive with a time limit answers.
#[derive(Clone, Copy, Debug, PartialEq, Eq)]
pub enum Receipt {
    /// The oldest number in the channel. It was taken out.
    Number(u64),
    /// All senders have closed their ends, and the channel is empty.
    Ended,
    /// The time was over, and the channel was empty then too.
    TimedOut,
}

/// Receives a number with a pass that holds the monitor. If the channel is empty, it waits for at most this time from now until
/// another pass has sent one.
///
/// It refuses and costs entries as `apply_until_for`, and also wakes a thread that waits for room.
pub fn receive_for<R: Wait + Clock>(
    rt: &R,
    monitor: &Monitor<Channel>,
    pass: &mut Pass<Channel>,
    limit: Duration,
) -> Result<Receipt, Refusal>
    requires { OfMonitor pass.old monitor.now }
    ensures { OfMonitor pass.new monitor.now }
{
    let last = monitor.apply_until_for(
        rt,
        pass,
        NOT_EMPTY,
        limit,
        ChannelOp::Receive,
        |reply| *reply != ChannelReply::Empty,
    )?;
    match last {
        LastReply::TimedOut(_) => Ok(Receipt::TimedOut),
        LastReply::Accepted(ChannelReply::Received(number)) => {
            monitor.wake_one(rt, pass, NOT_FULL)?;
            Ok(Receipt::Number(number))
        }
        LastReply::Accepted(_) => Ok(Receipt::Ended),
    }
}
