//! A bounded buffer of numbers, first in, first out, as an object that a monitor guards. `example_bounded_buffer` and the load
//! `buffer` of `lfm_stress` send numbers through it.
#![tactic(auto)]

ghost use Rattle.std.specs.Prelude.{◌≡◌};
ghost use Rattle.lfm_buffer.specs.Buffers.{buffer_after, buffer_reply};

use lfm_model::Object;

/// How many numbers the buffer has room for.
const ROOM: u64 = 4;

/// A bounded buffer: the numbers that were put in and not yet taken out, at most four.
#[derive(Debug, Drop)]
pub struct Buffer {
    slots: [u64; 4],
    /// How many numbers were put in so far. The next one goes to the slot with this number modulo four.
    put: u64,
    /// How many were taken out.
    taken: u64,
}

/// What can be done to the buffer.
#[derive(Clone, Copy, Debug, PartialEq, Eq)]
pub enum BufferOp {
    Put(u64),
    Take,
}

/// What the buffer replies.
#[derive(Clone, Copy, Debug, PartialEq, Eq)]
pub enum BufferReply {
    /// The number was put in.
    Stored,
    /// There is no room, and nothing was done.
    Full,
    /// The oldest number in the buffer. It was taken out.
    Taken(u64),
    /// The buffer is empty, and nothing was done.
    Empty,
}

impl Buffer {
    /// A buffer with nothing in it.
    pub fn new() -> Buffer
        ensures { result.taken ≡ result.put }
    {
        Buffer {
            slots: [0; 4],
            put: 0,
            taken: 0,
        }
    }
}

impl Object for Buffer {
    type Op = BufferOp;

    type Reply = BufferReply;

    ghost after = { buffer_after };

    ghost reply = { buffer_reply };

    /// Puts a number in, or takes the oldest one out. It never waits: if there is no room, or no number, the reply says so.
    fn apply(&mut self, op: &BufferOp) -> BufferReply {
        match op {
            BufferOp::Put(number) => {
                if self.put.saturating_sub(self.taken) >= ROOM {
                    return BufferReply::Full;
                }
                self.slots[(self.put % ROOM) as usize] = *number;
                self.put = self.put.wrapping_add(1);
                BufferReply::Stored
            }
            BufferOp::Take => {
                if self.put == self.taken {
                    return BufferReply::Empty;
                }
                let number = self.slots[(self.taken % ROOM) as usize];
                self.taken = self.taken.wrapping_add(1);
                BufferReply::Taken(number)
            }
        }
    }
}
