//! The journal of a monitor: its entries, and what can be computed from them.
ghost use Rattle.lfm_model.specs.Journals.{LawfulJournal, after_all, replies_of};
ghost use Rattle.std.specs.Prelude.{◌≡◌, ◌↔◌, IfOk, IsTrue};

use crate::answers::How;
use crate::objects::Object;
use crate::seat_numbers::SeatNo;
use std::alloc::{AllocError, Global};

/// What an entry of a journal records about its seat.
#[derive(Clone, Copy, Debug, PartialEq, Eq)]
pub enum What<Op> {
    /// The seat took the monitor in this way, and held it at depth 1.
    Took(How),
    /// The seat performed this op while it held the monitor.
    Did(Op),
}

/// One entry of a journal.
#[derive(Clone, Copy, Debug, PartialEq, Eq)]
pub struct Entry<Op> {
    /// The seat that made the entry.
    pub seat: SeatNo,
    /// What this seat did.
    pub what: What<Op>,
}

/// Returns the object after the ops of the journal's entries, performed in order on the opening object, and its reply to each.
/// It allocates memory for the replies; if that fails, the object is dropped.
pub fn replay<O: Object>(
    alloc: Global,
    opening: O,
    entries: &[Entry<O::Op>],
) -> Result<(O, Vec<O::Reply>), AllocError>
    ensures object { IfOk result (λ r. r.0 ≡ after_all O.after opening entries.now) }
    ensures replies { IfOk result (λ r. r.1.items ≡ replies_of O.after O.reply opening entries.now) }
{
    let mut object = opening;
    let mut replies = Vec::with_capacity(alloc, entries.len())?;
    for entry in entries {
        let op = match &entry.what {
            What::Took(_) => continue,
            What::Did(op) => op,
        };
        let reply = object.apply(op);
        replies.push_reserved(reply);
    }
    Ok((object, replies))
}

/// Whether each op of the journal is by the seat of the last take before it, and the stamps of its queued takes are 1, 2, 3 and
/// so on.
pub fn lawful<Op>(entries: &[Entry<Op>]) -> bool
    ensures { IsTrue result ↔ LawfulJournal entries.now }
{
    let mut taker = None;
    let mut stamp = 0u64;
    for entry in entries {
        match &entry.what {
            What::Took(How::Free) => {}
            What::Took(How::Queued(x)) => {
                stamp += 1;
                if *x != stamp {
                    return false;
                }
            }
            What::Did(_) => {
                if taker != Some(entry.seat) {
                    return false;
                }
                continue;
            }
        }
        taker = Some(entry.seat);
    }
    true
}
