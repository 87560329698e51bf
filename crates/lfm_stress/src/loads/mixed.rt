//! `mixed`: in every other turn a thread tries to acquire the mutex, and in the turns between it waits for it. If it acquired
//! the mutex, it adds 1 to the number under it, and unlocks.
ghost use Rattle.lfm_test_tools.specs.Parts.{OfShared};

use crate::progress::Tenth;
use lfm_test_tools::two_condvars::parts::{Part, Shared};
use std::sync::Wait;

/// Tries to acquire the mutex in turns 0, 2, 4 and so on, and waits for it in the others. Returns whether it was acquired.
fn gain<R: Wait>(rt: &R, shared: &Shared, part: &mut Part, turn: u64) -> bool
    requires { OfShared part.old shared.now }
    ensures { OfShared part.new shared.now }
{
    if turn % 2 == 0 {
        shared.try_lock(part)
    } else {
        shared.lock(rt, part)
    }
}

/// The turns of one thread in this tenth of a run.
pub fn take_turns<R: Wait>(rt: &R, shared: &Shared, tenth: Tenth, mut part: Part) -> Part
    requires { OfShared part shared.now }
    ensures { OfShared result shared.now }
{
    'turns: for turn in tenth.from..tenth.to {
        if gain(rt, shared, &mut part, turn) {
            shared.add_one(&mut part);
            shared.unlock(&mut part);
        }
    }
    part
}
