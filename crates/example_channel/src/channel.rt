//! A channel of numbers from many senders to one receiver, as an object that a monitor guards.
ghost use Rattle.example_channel.specs.Channels.{channel_after, channel_reply};

use lfm_model::Object;

/// How many numbers the channel has room for.
const ROOM: u64 = 4;

/// A channel: the numbers that were sent and not yet received, at most four, and how many senders may still send.
#[derive(Debug, Drop)]
pub struct Channel {
    slots: [u64; 4],
    /// How many numbers were sent so far. The next one goes to the slot with this number modulo four.
    sent: u64,
    /// How many were received.
    received: u64,
    /// How many senders have not closed their end.
    senders: u64,
}

/// What can be done to the channel.
#[derive(Clone, Copy, Debug, PartialEq, Eq)]
pub enum ChannelOp {
    Send(u64),
    Receive,
    /// A sender closes its end: it sends no more.
    Close,
}

/// What the channel replies.
#[derive(Clone, Copy, Debug, PartialEq, Eq)]
pub enum ChannelReply {
    /// The number was sent.
    Sent,
    /// There is no room, and nothing was done.
    Full,
    /// The oldest number in the channel. It was taken out.
    Received(u64),
    /// The channel is empty, and nothing was done.
    Empty,
    /// The channel is empty and stays so: all senders have closed their ends.
    Ended,
    /// The sender's end was closed.
    Closed,
}

impl Channel {
    /// A channel with nothing in it, for this number of senders.
    pub fn new(senders: u64) -> Channel {
        Channel {
            slots: [0; 4],
            sent: 0,
            received: 0,
            senders,
        }
    }
}

impl Object for Channel {
    type Op = ChannelOp;

    type Reply = ChannelReply;

    ghost after = { channel_after };

    ghost reply = { channel_reply };

    /// Sends, receives or closes. It never waits: if there is no room, or no number, the reply says so.
    fn apply(&mut self, op: &ChannelOp) -> ChannelReply {
        match op {
            ChannelOp::Send(number) => {
                if self.sent.saturating_sub(self.received) >= ROOM {
                    return ChannelReply::Full;
                }
                self.slots[(self.sent % ROOM) as usize] = *number;
                self.sent = self.sent.wrapping_add(1);
                ChannelReply::Sent
            }
            ChannelOp::Receive => {
                if self.sent == self.received {
                    return if self.senders == 0 {
                        ChannelReply::Ended
                    } else {
                        ChannelReply::Empty
                    };
                }
                let number = self.slots[(self.received % ROOM) as usize];
                self.received = self.received.wrapping_add(1);
                ChannelReply::Received(number)
            }
            ChannelOp::Close => {
                self.senders = self.senders.saturating_sub(1);
                ChannelReply::Closed
            }
        }
    }
}
