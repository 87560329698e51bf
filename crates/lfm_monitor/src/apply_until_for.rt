//! `apply_until_for`: as `apply_until`, on a plain condition and with a time limit.
ghost use Rattle.std.specs.Prelude.{◌≡◌, IfOk};
ghost use Rattle.std.specs.Fn.{FnReturnsAt};
ghost use Rattle.lfm_monitor.specs.Belongs.{OfMonitor, PassPollsAndWakesAsGranted, PassRunGoesOnFrom, cond_seats_of, pass_sight, plain_seats_of};
ghost use Rattle.lfm_monitor.specs.PlainSeats.{PlainSeatsWokenAsGranted};
ghost use Rattle.lfm_monitor.specs.TimedTries.{ApplyUntilForEnds, has_timed_out, is_accepted, reply_in};
ghost use Rattle.lfm_monitor.specs.Tries.{AppliedLast};

use crate::apply_until::accepts;
use crate::monitor::Monitor;
use crate::pass::Pass;
use lfm_model::{Object, Refusal};
use lfm_mutex::deadlines::deadline_after;
use lfm_plain_condvar::Waited;
use std::sync::Wait;
use std::time::{Clock, Duration};

/// The reply of the last try, and why it was the last.
#[derive(Clone, Copy, Debug, PartialEq, Eq)]
pub enum LastReply<A> {
    /// `done` accepted the reply.
    Accepted(A),
    /// The time was over, and `done` did not accept the reply.
    TimedOut(A),
}

/// Whether the wait has timed out.
fn timed_out(waited: Waited) -> bool
    ensures { result ≡ has_timed_out waited }
{
    matches!(waited, Waited::TimedOut(_))
}

impl<O: Object> Monitor<O> {
    /// `apply_until` on a plain condition, for at most this time from now. If the time is over, it makes one more try. If
    /// `done` doesn't accept the reply of that try either, it returns TimedOut with that reply, which the object gave in the
    /// hold that the pass still has. The pass holds as before in every case.
    ///
    /// A try is refused as `apply` is, and a wait as `wait_for` is. A wait acquires the monitor again without a time limit.
    ///
    /// A try costs the pass one entry, and a wait one take and one entry, and its seat of the condition one or two takes. It
    /// allocates no memory, and sleeps and wakes as `wait_for`.
    pub fn apply_until_for<R: Wait + Clock, F: Fn(&O::Reply) -> bool>(
        &self,
        rt: &R,
        pass: &mut Pass<O>,
        condition: u64,
        time: Duration,
        op: O::Op,
        done: F,
    ) -> Result<LastReply<O::Reply>, Refusal>
    where
        O::Op: Copy,
        requires belongs { OfMonitor pass.old self.now }
        requires callable { F.IsAlwaysCallable done }
        ensures belongs { OfMonitor pass.new self.now }
        ensures number { (pass_sight pass.new).number ≡ (pass_sight pass.old).number }
        ensures run { PassRunGoesOnFrom pass.old pass.new }
        ensures woken { PassPollsAndWakesAsGranted pass.old pass.new }
        ensures plain_woken { PlainSeatsWokenAsGranted (plain_seats_of pass.old) (plain_seats_of pass.new) }
        ensures morphing { cond_seats_of pass.new ≡ cond_seats_of pass.old }
        ensures done { IfOk result (λ r. FnReturnsAt F.Fn done (reply_in r) (is_accepted r)) }
        ensures applied { IfOk result (λ r. AppliedLast O.after O.reply self.now op pass.new (reply_in r)) }
        ensures depth { (pass_sight pass.new).depth ≡ (pass_sight pass.old).depth }
        ensures tries { ApplyUntilForEnds O.after O.reply self.now condition op (λ r b. FnReturnsAt F.Fn done r b) pass.old pass.new result }
    {
        let deadline = deadline_after(rt, time);
        let mut is_over = false;
        'tries: for _ in rt.forever() {
            let reply = self.apply(pass, op)?;
            if accepts(&done, &reply) {
                return Ok(LastReply::Accepted(reply));
            }
            if is_over {
                return Ok(LastReply::TimedOut(reply));
            }
            let (_how, waited) = self.wait_within(rt, pass, condition, deadline)?;
            is_over = timed_out(waited);
        }
        unreachable!()
    }
}
