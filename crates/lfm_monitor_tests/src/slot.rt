//! A buffer with room for one pair of numbers, as an object that a monitor guards.
ghost use Rattle.lfm_monitor_tests.specs.Slots.{slot_after, slot_reply};

use lfm_model::Object;

/// Room for one pair of numbers.
#[derive(Clone, Copy, Debug, PartialEq, Eq)]
pub struct Slot(pub Option<(u64, u64)>);

/// What can be done to a slot.
#[derive(Clone, Copy, Debug, PartialEq, Eq)]
pub enum SlotOp {
    Put((u64, u64)),
    Take,
}

/// What a slot replies: that nothing was done, that the pair was put in, or the pair that was taken out.
#[derive(Clone, Copy, Debug, PartialEq, Eq)]
pub enum SlotReply {
    Nothing,
    Stored,
    Taken((u64, u64)),
}

impl Object for Slot {
    type Op = SlotOp;

    type Reply = SlotReply;

    ghost after = { slot_after };

    ghost reply = { slot_reply };

    /// Puts a pair in if there is room, or takes one out if one is there.
    fn apply(&mut self, op: &SlotOp) -> SlotReply {
        match op {
            SlotOp::Put(pair) => match self.0 {
                None => {
                    self.0 = Some(*pair);
                    SlotReply::Stored
                }
                Some(_) => SlotReply::Nothing,
            },
            SlotOp::Take => match self.0 {
                None => SlotReply::Nothing,
                Some(pair) => {
                    self.0 = None;
                    SlotReply::Taken(pair)
                }
            },
        }
    }
}
