//! `lock`: in a turn a thread locks, adds 1 to the number under the mutex, and unlocks.
ghost use Rattle.lfm_test_tools.specs.Parts.{OfShared};

use crate::progress::Tenth;
use lfm_test_tools::two_condvars::parts::{Part, Shared};
use std::sync::Wait;

/// The turns of one thread in this tenth of a run.
pub fn take_turns<R: Wait>(rt: &R, shared: &Shared, tenth: Tenth, mut part: Part) -> Part
    requires { OfShared part shared.now }
    ensures { OfShared result shared.now }
{
    'turns: for _ in tenth.from..tenth.to {
        if shared.lock(rt, &mut part) {
            shared.add_one(&mut part);
            shared.unlock(&mut part);
        }
    }
    part
}
