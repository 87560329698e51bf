//! `apply`: a pass that holds applies an op to the object, and the op is written into the journal.
ghost use Rattle.lfm_monitor.specs.Belongs.{OfMonitor, PassRunGoesOnFrom, PassWokenAsGranted, SameCondSeats, mine_of, pass_sight, seen_of, share_of};
ghost use Rattle.lfm_monitor.specs.Passes.{ApplyEnds};
ghost use Rattle.std.specs.Prelude.{◌≡◌};

use crate::monitor::Monitor;
use crate::pass::Pass;
use crate::write::write_did;
use lfm_model::{Object, Refusal};

impl<O: Object> Monitor<O> {
    /// Applies an op to the object and writes it into the journal. Returns the object's reply.
    ///
    /// Refuses, in this order: Asleep, NotOwner (the pass doesn't hold), Spent (it has no entry left). A refusal drops the op.
    /// It never waits and allocates no memory.
    pub fn apply(&self, pass: &mut Pass<O>, op: O::Op) -> Result<O::Reply, Refusal>
        requires belongs { OfMonitor pass.old self.now }
        ensures belongs { OfMonitor pass.new self.now }
        ensures number { (pass_sight pass.new).number ≡ (pass_sight pass.old).number }
        ensures run { PassRunGoesOnFrom pass.old pass.new }
        ensures woken { PassWokenAsGranted pass.old pass.new }
        ensures applies { ApplyEnds O.after O.reply (share_of self.now) op (pass_sight pass.old) (pass_sight pass.new) (mine_of pass.old) (mine_of pass.new) result }
        ensures seen { seen_of pass.new ≡ seen_of pass.old }
        ensures conditions { SameCondSeats pass.old pass.new }
    {
        if pass.seat.asleep() {
            return Err(Refusal::Asleep);
        }
        if pass.seat.depth() == 0 {
            return Err(Refusal::NotOwner);
        }
        if pass.mine >= self.share {
            return Err(Refusal::Spent);
        }
        let reply = write_did(&mut pass.seat, op);
        pass.mine += 1;
        Ok(reply)
    }
}
