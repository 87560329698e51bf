//! A wait with a time limit and nobody who wakes: it ends after its time and not before, and is no longer in the list.
ghost use Rattle.lfm_plain_test_tools.specs.Hands.{IsHandOf};

use crate::seeing::{holds, sees};
use lfm_mutex::Mutex;
use lfm_plain_condvar::{PlainCondvar, Waited};
use lfm_plain_test_tools::calls::{lock, unlock, wait_for, wake_one};
use lfm_plain_test_tools::hands::{Hand, three_hands};
use std::process::Abort;
use std::sync::Wait;
use std::test::Fail;
use std::time::{Clock, Duration, Instant};

/// The time limit of each wait, in milliseconds.
const LIMIT: u64 = 10;

/// Waits once, and returns how the wait ended, the depth after it, and whether the clock had passed the limit.
pub fn waited_alone<R: Wait + Clock>(
    rt: &R,
    mutex: &Mutex<u64>,
    condvar: &PlainCondvar,
    hand: &mut Hand,
) -> (Option<Waited>, u32, bool)
    requires { IsHandOf hand.old mutex.now condvar.now }
    ensures { IsHandOf hand.new mutex.now condvar.now }
{
    let limit = Duration::from_millis(LIMIT);
    lock(rt, mutex, condvar, hand);
    let begin = Instant::now(rt);
    let waited = wait_for(rt, mutex, condvar, hand, limit);
    let is_over = has_passed(rt, begin.ok(), limit);
    let depth = hand.seat.depth();
    unlock(mutex, condvar, hand);
    (waited, depth, is_over)
}

/// Whether this much time has passed since then.
fn has_passed<R: Clock>(rt: &R, begin: Option<Instant>, time: Duration) -> bool {
    match begin {
        Some(begin) => match begin.elapsed(rt) {
            Ok(elapsed) => elapsed >= time,
            Err(_) => false,
        },
        None => false,
    }
}

/// The wait with this ticket timed out after its limit, and the seat holds again.
fn times_out<R: Wait + Clock + Abort>(
    rt: &R,
    mutex: &Mutex<u64>,
    condvar: &PlainCondvar,
    hand: &mut Hand,
    ticket: u64,
)
    requires { IsHandOf hand.old mutex.now condvar.now }
    ensures { IsHandOf hand.new mutex.now condvar.now }
{
    let (waited, depth, is_over) = waited_alone(rt, mutex, condvar, hand);
    sees(rt, "the wait", &waited, &Some(Waited::TimedOut(ticket)));
    sees(rt, "the depth after the wait", &depth, &1);
    holds(rt, "the time was over", is_over);
}

#[test]
fn a_wait_ends_after_its_limit_and_not_before(rt: HostRuntime) -> Result<(), Fail> {
    let (mutex, condvar, mut first, _second, _third) = three_hands(rt.alloc()).ok_or("hands")?;
    times_out(&rt, &mutex, &condvar, &mut first, 1);
    times_out(&rt, &mutex, &condvar, &mut first, 2);
    let woken = wake_one(&rt, &mutex, &condvar, &mut first);
    sees(&rt, "a wake finds nobody", &woken, &None);
    Ok(())
}
