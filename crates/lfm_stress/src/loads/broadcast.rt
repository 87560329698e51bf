//! `broadcast`: threads wait on the first condvar, and one further thread wakes all of them at once. In a turn each waiter adds
//! 1 to the number under the mutex as it comes, and then waits, in one hold. The last that comes wakes the broadcaster, which
//! waits on the second condvar. The broadcaster adds 1 and wakes all, and each waiter adds 1 again. So with n waiters the
//! number is t (2 n + 1) before turn t, n more once all have come, and 1 more once the broadcast is made.
ghost use Rattle.std.specs.Prelude.{◌≡◌};
ghost use Rattle.lfm_test_tools.specs.Parts.{OfShared};
ghost use Rattle.lfm_stress.specs.Broadcasts.{come, woken};

use crate::progress::Tenth;
use lfm_test_tools::two_condvars::parts::{Part, Shared, Side};
use std::sync::Wait;

/// The number once all waiters, which are this number of threads, have come to this turn.
fn come(threads: u64, turn: u64) -> u64
    ensures { result ≡ come threads turn }
{
    turn.wrapping_mul(threads.wrapping_mul(2).wrapping_add(1))
        .wrapping_add(threads)
}

/// The number once the broadcast of this turn is made.
fn woken(threads: u64, turn: u64) -> u64
    ensures { result ≡ woken threads turn }
{
    come(threads, turn).wrapping_add(1)
}

/// The turns of one thread in this tenth of a run with this number of waiters. The thread with seat 1 broadcasts.
pub fn take_turns<R: Wait>(rt: &R, shared: &Shared, tenth: Tenth, threads: u64, part: Part) -> Part
    requires { OfShared part shared.now }
    ensures { OfShared result shared.now }
{
    if part.seat.number().get() == 1 {
        broadcast(rt, shared, tenth, threads, part)
    } else {
        wait(rt, shared, tenth, threads, part)
    }
}

/// The turns of the broadcaster.
fn broadcast<R: Wait>(rt: &R, shared: &Shared, tenth: Tenth, threads: u64, mut part: Part) -> Part
    requires { OfShared part shared.now }
    ensures { OfShared result shared.now }
{
    'turns: for turn in tenth.from..tenth.to {
        shared.lock(rt, &mut part);
        if shared.wait_until(rt, &mut part, Side::Second, come(threads, turn)) {
            shared.add_one(&mut part);
            let _ = shared.wake_all(rt, &mut part);
        }
        shared.unlock(&mut part);
    }
    part
}

/// The turns of a waiter.
fn wait<R: Wait>(rt: &R, shared: &Shared, tenth: Tenth, threads: u64, mut part: Part) -> Part
    requires { OfShared part shared.now }
    ensures { OfShared result shared.now }
{
    'turns: for turn in tenth.from..tenth.to {
        shared.lock(rt, &mut part);
        if shared.add_one(&mut part) == come(threads, turn) {
            shared.wake_one(rt, &mut part, Side::Second);
        }
        if shared.wait_until(rt, &mut part, Side::First, woken(threads, turn)) {
            shared.add_one(&mut part);
        }
        shared.unlock(&mut part);
    }
    part
}
