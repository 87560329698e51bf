//! Four threads take turns over two condvars of one mutex, two for even numbers and two for odd ones. A thread waits for its
//! turn on the condvar of its side, and each turn wakes one thread of the other side.
ghost use Rattle.lfm_test_tools.specs.Parts.{OfShared};

use crate::seeing::sees;
use lfm_test_tools::two_condvars::dealing::{Left, shared_in_order};
use lfm_test_tools::two_condvars::parts::{Counts, Part, Seen, Shared, Side};
use lfm_test_tools::two_condvars::tasks::{Task, perform_all};
use std::process::Abort;
use std::sync::Wait;
use std::test::Fail;

/// How many turns each thread takes.
const TURNS: u64 = 500;

/// How many turns all threads take.
const ALL_TURNS: u64 = 2_000;

/// Waits until the number is even for the first side, or odd for the second. Each wait is ended by another thread's turn.
fn wait_for_turn<R: Wait>(rt: &R, shared: &Shared, part: &mut Part, side: Side)
    requires { OfShared part.old shared.now }
    ensures { OfShared part.new shared.now }
{
    'waiting: for _ in 0..ALL_TURNS {
        if Side::of(part.number()) == side {
            break;
        }
        shared.wait(rt, part, side);
    }
}

/// Counts the turn, if it is that of the part's side.
fn count_turn(seen: &mut Seen, is_own: bool) {
    if is_own {
        seen.turns = seen.turns.wrapping_add(1);
    }
}

/// One turn: adds 1 to the number, and wakes one of the other side.
fn take_turn<R: Wait>(rt: &R, shared: &Shared, part: &mut Part, side: Side)
    requires { OfShared part.old shared.now }
    ensures { OfShared part.new shared.now }
{
    shared.lock(rt, part);
    wait_for_turn(rt, shared, part, side);
    let is_own = Side::of(part.number()) == side;
    count_turn(&mut part.seen, is_own);
    shared.add_one(part);
    shared.wake_one(rt, part, side.other());
    shared.unlock(part);
}

/// All turns of one thread. Seats of even numbers take the even turns.
fn take_turns<R: Wait>(rt: &R, shared: &Shared, mut part: Part) -> Part
    requires { OfShared part shared.now }
    ensures { OfShared result shared.now }
{
    let side = Side::of(part.seat.number().get());
    'turns: for _ in 0..TURNS {
        take_turn(rt, shared, &mut part, side);
    }
    part
}

/// Each thread takes turns, on the side of its seat's number.
struct TakesTurns;

impl<R: Wait> Task<R> for TakesTurns {
    /// All turns of this part.
    fn perform(&self, rt: &R, shared: &Shared, part: Part) -> Part {
        take_turns(rt, shared, part)
    }
}

/// All turns were taken, each condvar sent as many as it had added, and together they sent each wait.
fn each_wait_was_sent<R: Abort>(rt: &R, left: &Left, waits: u64) {
    sees(rt, "the number", &left.number, &ALL_TURNS);
    sees(
        rt,
        "the first condvar's numbers",
        &left.first.0,
        &left.first.1,
    );
    sees(
        rt,
        "the second condvar's numbers",
        &left.second.0,
        &left.second.1,
    );
    let sent = left.first.0.wrapping_add(left.second.0);
    sees(rt, "how many were sent", &sent, &waits);
}

#[test]
fn two_condvars_of_one_mutex(rt: HostRuntime) -> Result<(), Fail> {
    let (shared, parts) = shared_in_order(rt.alloc(), 4).ok_or("parts")?;
    let parts = perform_all(&rt, &shared, parts, &TakesTurns)?;
    let counts = Counts::of(&parts);
    sees(&rt, "the turns taken in turn", &counts.turns, &ALL_TURNS);
    let left = shared.close(rt.alloc(), parts).ok_or("all are back")?;
    each_wait_was_sent(&rt, &left, counts.waits);
    Ok(())
}
