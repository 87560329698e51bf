//! `ping_pong`: two threads take turns, each with a condvar of its own. In a turn a thread locks, waits until the other has had
//! its turn, adds 1 to the number under the mutex, wakes the other, and unlocks. So the number is 2 n before turn n of the
//! first thread, and 2 n + 1 before turn n of the second.
ghost use Rattle.lfm_test_tools.specs.Parts.{OfShared};

use crate::progress::Tenth;
use lfm_test_tools::two_condvars::parts::{Part, Shared, Side};
use std::sync::Wait;

/// The turns of one thread in this tenth of a run. The thread with seat 1 begins.
pub fn take_turns<R: Wait>(rt: &R, shared: &Shared, tenth: Tenth, part: Part) -> Part
    requires { OfShared part shared.now }
    ensures { OfShared result shared.now }
{
    if part.seat.number().get() == 1 {
        play(rt, shared, tenth, 0, part)
    } else {
        play(rt, shared, tenth, 1, part)
    }
}

/// The turns of the first player, whose number is 0, or the second, whose number is 1.
fn play<R: Wait>(rt: &R, shared: &Shared, tenth: Tenth, player: u64, mut part: Part) -> Part
    requires { OfShared part shared.now }
    ensures { OfShared result shared.now }
{
    let (own, other) = if player == 0 {
        (Side::First, Side::Second)
    } else {
        (Side::Second, Side::First)
    };
    'turns: for turn in tenth.from..tenth.to {
        let due = turn.wrapping_mul(2).wrapping_add(player);
        add_when_due(rt, shared, &mut part, own, due);
        shared.wake_one(rt, &mut part, other);
        shared.unlock(&mut part);
    }
    part
}

/// Locks, waits until the number is this, and adds 1.
fn add_when_due<R: Wait>(rt: &R, shared: &Shared, part: &mut Part, own: Side, due: u64)
    requires { OfShared part.old shared.now }
    ensures { OfShared part.new shared.now }
{
    if shared.lock(rt, part) && shared.wait_until(rt, part, own, due) {
        shared.add_one(part);
    }
}
