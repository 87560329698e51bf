//! The object that a monitor guards, and a sum as an example of one.
ghost use Rattle.lfm_model.specs.Totals.{total_after, total_reply};
ghost use Rattle.std.specs.Prelude.{◌≡◌};

/// An object that changes by one op at a time. An op is never refused and allocates nothing.
pub trait Object: Send + Drop {
    /// An operation on the object.
    type Op: Send + Drop;
    /// The reply of the object to an op.
    type Reply: Send + Drop;

    // The object after an op.
    ghost after: { Self → Self.Op → Self };

    // The reply to an op, given the object before it.
    ghost reply: { Self → Self.Op → Self.Reply };

    /// Performs the op and returns the object's reply to it.
    fn apply(&mut self, op: &Self::Op) -> Self::Reply
        ensures changes { self.new ≡ after self.old op.now }
        ensures replies { result ≡ reply self.old op.now };
}

/// An operation on a total.
#[derive(Clone, Copy, Debug, PartialEq, Eq)]
pub enum TotalOp {
    /// Adds this number. A sum above 2^64 - 1 becomes 2^64 - 1.
    Add(u64),
    /// Changes nothing.
    Read,
}

/// A sum as an object. It replies to each op with the total after the op.
#[derive(Clone, Copy, Debug, PartialEq, Eq)]
pub struct Total(pub u64);

impl Object for Total {
    type Op = TotalOp;

    type Reply = u64;

    ghost after = { total_after };

    ghost reply = { total_reply };

    /// Adds the number, if the op has one, and returns the total.
    fn apply(&mut self, op: &TotalOp) -> u64 {
        match op {
            TotalOp::Add(number) => self.0 = self.0.saturating_add(*number),
            TotalOp::Read => {}
        }
        self.0
    }
}
