//! `apply_until`: a pass that holds applies an op again and again, and waits on a condition in between.
ghost use Rattle.std.specs.Prelude.{◌≡◌, IfOk, true};
ghost use Rattle.std.specs.Fn.{FnReturnsAt};
ghost use Rattle.lfm_monitor.specs.Belongs.{OfMonitor, PassPollsAndWakesAsGranted, PassRunGoesOnFrom, cond_seats_of, pass_sight, plain_seats_of};
ghost use Rattle.lfm_monitor.specs.CondSeats.{CondsWokenAsGranted};
ghost use Rattle.lfm_monitor.specs.PlainSeats.{PlainSeatsWokenAsGranted};
ghost use Rattle.lfm_monitor.specs.Tries.{AppliedLast, ApplyUntilEnds};

use crate::monitor::Monitor;
use crate::pass::Pass;
use lfm_model::{Object, Refusal};
use std::sync::Wait;

/// Whether `done` accepts the reply.
pub(crate) fn accepts<T, F: Fn(&T) -> bool>(done: &F, reply: &T) -> bool
    requires { F.IsAlwaysCallable done.now }
    ensures { FnReturnsAt F.Fn done.now reply.now result }
{
    done(reply)
}

impl<O: Object> Monitor<O> {
    /// Applies the op again and again until `done` accepts its reply, and returns that reply. Before each further try the pass
    /// waits on this condition, so that others can change the object. So it has to hold the monitor, and at depth 1 if it has
    /// to wait. The pass's last op is then this one, with this reply, and the pass holds as before.
    ///
    /// A try is refused as `apply` is: Asleep, NotOwner, Spent, in this order. If the reply is not accepted, the wait may be
    /// refused, as `wait` is: Nested, Spent, NoSuchSeat, Spent, Busy, in this order. The op has then been applied, and the pass
    /// still holds.
    ///
    /// A try costs the pass one entry, and a wait one take and one entry. It allocates no memory, and sleeps and wakes as
    /// `wait`.
    pub fn apply_until<R: Wait, F: Fn(&O::Reply) -> bool>(
        &self,
        rt: &R,
        pass: &mut Pass<O>,
        condition: u64,
        op: O::Op,
        done: F,
    ) -> Result<O::Reply, Refusal>
    where
        O::Op: Copy,
        requires belongs { OfMonitor pass.old self.now }
        requires callable { F.IsAlwaysCallable done }
        ensures belongs { OfMonitor pass.new self.now }
        ensures number { (pass_sight pass.new).number ≡ (pass_sight pass.old).number }
        ensures run { PassRunGoesOnFrom pass.old pass.new }
        ensures woken { PassPollsAndWakesAsGranted pass.old pass.new }
        ensures cond_woken { CondsWokenAsGranted (cond_seats_of pass.old) (cond_seats_of pass.new) }
        ensures plain_woken { PlainSeatsWokenAsGranted (plain_seats_of pass.old) (plain_seats_of pass.new) }
        ensures done { IfOk result (λ r. FnReturnsAt F.Fn done r true) }
        ensures applied { IfOk result (λ r. AppliedLast O.after O.reply self.now op pass.new r) }
        ensures depth { (pass_sight pass.new).depth ≡ (pass_sight pass.old).depth }
        ensures tries { ApplyUntilEnds O.after O.reply self.now condition op (λ r b. FnReturnsAt F.Fn done r b) pass.old pass.new result }
    {
        'tries: for _ in rt.forever() {
            let reply = self.apply(pass, op)?;
            if accepts(&done, &reply) {
                return Ok(reply);
            }
            let _waited = self.wait(rt, pass, condition)?;
        }
        unreachable!()
    }
}
