//! How a pass comes to hold. `enter` sleeps if it has to; `ask` and `try_receive` are its two halves. `try_enter` never queues.
//! Each acquisition is written into the journal. `hold` uses `enter_by`, which may try before it queues.
ghost use Rattle.lfm_protocol.specs.declared.answers.Answer.TheVariants as Answered;
ghost use Rattle.lfm_protocol.specs.declared.answers.Call.{Call};
ghost use Rattle.lfm_mutex.specs.Belongs.{Beside, OfMutex};
ghost use Rattle.lfm_mutex.specs.calls.RunGoesOn.{RunGoesOnFrom};
ghost use Rattle.lfm_mutex.specs.calls.Sight.{LocksWaiting, sight};
ghost use Rattle.lfm_mutex.specs.calls.Trails.{MakesAtMost};
ghost use Rattle.lfm_mutex.specs.calls.Woken.{PollsAndWakesAsGranted};
ghost use Rattle.lfm_monitor.specs.Belongs.{OfMonitor, PassPollsAndWakesAsGranted, PassRunGoesOnFrom, PassWokenAsGranted, SameCondSeats, mine_of, mutex_limits, pass_sight, seen_of, share_of, tries_in};
ghost use Rattle.lfm_monitor.specs.Journaled.{JournalFits, JournalFollows};
ghost use Rattle.lfm_monitor.specs.Passes.{AskEnds, EnterEnds, ReceiveEnds, TryEnds};
ghost use Rattle.lfm_monitor.specs.Steps.{ByLocking, ByLockingAs, BySteps};
ghost use Rattle.std.specs.Prelude.{◌≡◌};

use crate::journaled::Journaled;
use crate::monitor::Monitor;
use crate::pass::Pass;
use crate::write::write_took;
use lfm_model::{Asked, How, Locked, Object, Refusal};
use lfm_mutex::Seat;
use std::sync::Wait;

/// How a pass locks the mutex of the monitor.
#[derive(Clone, Copy)]
pub(crate) enum Locking {
    /// By `lock`: it queues at once if the mutex is not free.
    InOrder,
    /// By `lock_barging`: it first tries, for as long as the pace says, and queues if no try succeeds.
    Barging,
}

impl<O: Object> Monitor<O> {
    /// Acquires the monitor, or deepens the hold. If another pass holds or asked before, it sleeps until this pass holds. An
    /// acquisition is written into the journal as the pass's take.
    ///
    /// Refuses, in this order: Asleep, DepthFull, Spent, each as `try_enter`. It allocates no memory. It may wake a pass, as
    /// `ask` may.
    pub fn enter<R: Wait>(&self, rt: &R, pass: &mut Pass<O>) -> Result<Locked, Refusal>
        requires belongs { OfMonitor pass.old self.now }
        ensures belongs { OfMonitor pass.new self.now }
        ensures number { (pass_sight pass.new).number ≡ (pass_sight pass.old).number }
        ensures run { PassRunGoesOnFrom pass.old pass.new }
        ensures woken { PassPollsAndWakesAsGranted pass.old pass.new }
        ensures enters { EnterEnds (share_of self.now) (pass_sight pass.old) (pass_sight pass.new) (mine_of pass.old) (mine_of pass.new) result }
        ensures seen { seen_of pass.new ≡ seen_of pass.old }
        ensures conditions { SameCondSeats pass.old pass.new }
        ensures steps { ByLocking (mutex_limits self.now) (pass_sight pass.old) (pass_sight pass.new) result }
    {
        self.enter_by(rt, pass, Locking::InOrder)
    }

    /// The part of `enter` before it would sleep: it acquires the monitor, deepens the hold, or queues the pass. A queued pass
    /// sleeps until a receive finds that it holds. While it sleeps, one of its entries is reserved for its take.
    ///
    /// Refuses, in this order: Asleep, DepthFull, Spent, each as `try_enter`. It never waits and allocates no memory. It may
    /// wake a pass, as `ask` of the mutex may wake a seat.
    pub fn ask(&self, pass: &mut Pass<O>) -> Result<Asked, Refusal>
        requires belongs { OfMonitor pass.old self.now }
        ensures belongs { OfMonitor pass.new self.now }
        ensures number { (pass_sight pass.new).number ≡ (pass_sight pass.old).number }
        ensures run { PassRunGoesOnFrom pass.old pass.new }
        ensures woken { PassWokenAsGranted pass.old pass.new }
        ensures enters { AskEnds (share_of self.now) (pass_sight pass.old) (pass_sight pass.new) (mine_of pass.old) (mine_of pass.new) result }
        ensures seen { seen_of pass.new ≡ seen_of pass.old }
        ensures conditions { SameCondSeats pass.old pass.new }
        ensures steps { BySteps (mutex_limits self.now) (λ x. Answered.Asked x) Call.Lock (pass_sight pass.old) (pass_sight pass.new) result }
    {
        if pass.lacks_entry(self.share) {
            return Err(Refusal::Spent);
        }
        let asked = self.mutex.ask(&mut pass.seat)?;
        let how = match asked {
            Asked::Again(depth) => return Ok(Asked::Again(depth)),
            Asked::Asleep => return Ok(Asked::Asleep),
            Asked::Held(how) => how,
        };
        write_took(&mut pass.seat, how);
        pass.mine += 1;
        Ok(Asked::Held(how))
    }

    /// One receive of a pass that sleeps. It returns how the pass came to hold, which is written into the journal as its take,
    /// or None if the pass was not granted the monitor and still sleeps.
    ///
    /// Refuses with NotWaiting if the pass doesn't sleep. It never waits and allocates no memory.
    pub fn try_receive(&self, pass: &mut Pass<O>) -> Result<Option<How>, Refusal>
        requires belongs { OfMonitor pass.old self.now }
        ensures belongs { OfMonitor pass.new self.now }
        ensures number { (pass_sight pass.new).number ≡ (pass_sight pass.old).number }
        ensures run { PassRunGoesOnFrom pass.old pass.new }
        ensures woken { PassWokenAsGranted pass.old pass.new }
        ensures enters { ReceiveEnds (pass_sight pass.old) (pass_sight pass.new) (mine_of pass.old) (mine_of pass.new) result }
        ensures seen { seen_of pass.new ≡ seen_of pass.old }
        ensures conditions { SameCondSeats pass.old pass.new }
        ensures steps { BySteps (mutex_limits self.now) (λ x. Answered.Got x) Call.Receive (pass_sight pass.old) (pass_sight pass.new) result }
    {
        let received = self.mutex.try_receive(&mut pass.seat)?;
        let how = match received {
            None => return Ok(None),
            Some(how) => how,
        };
        write_took(&mut pass.seat, how);
        pass.mine += 1;
        Ok(Some(how))
    }

    /// Acquires the monitor or deepens the hold without queueing. An acquisition is written into the journal as the pass's
    /// take.
    ///
    /// Refuses, in this order: Asleep, DepthFull (the pass holds at depth 65,535), Spent (it doesn't hold, and has no take or
    /// no entry left) and Busy (as `try_lock` of the mutex). It never waits, allocates no memory and wakes no pass. It makes at
    /// most 6 atomic steps, whatever other passes do.
    pub fn try_enter(&self, pass: &mut Pass<O>) -> Result<Locked, Refusal>
        requires belongs { OfMonitor pass.old self.now }
        ensures belongs { OfMonitor pass.new self.now }
        ensures number { (pass_sight pass.new).number ≡ (pass_sight pass.old).number }
        ensures run { PassRunGoesOnFrom pass.old pass.new }
        ensures woken { PassWokenAsGranted pass.old pass.new }
        ensures enters { TryEnds (share_of self.now) (pass_sight pass.old) (pass_sight pass.new) (mine_of pass.old) (mine_of pass.new) result }
        ensures seen { seen_of pass.new ≡ seen_of pass.old }
        ensures conditions { SameCondSeats pass.old pass.new }
        ensures steps { BySteps (mutex_limits self.now) (λ x. Answered.Locked x) Call.TryLock (pass_sight pass.old) (pass_sight pass.new) result }
        ensures bounded { MakesAtMost 6 (pass_sight pass.old) (pass_sight pass.new) }
    {
        if pass.lacks_entry(self.share) {
            return Err(Refusal::Spent);
        }
        let locked = self.mutex.try_lock(&mut pass.seat)?;
        let how = match locked {
            Locked::Again(depth) => return Ok(Locked::Again(depth)),
            Locked::Held(how) => how,
        };
        write_took(&mut pass.seat, how);
        pass.mine += 1;
        Ok(Locked::Held(how))
    }

    /// `enter`, which locks the mutex in the given way.
    #[inline(always)]
    pub(crate) fn enter_by<R: Wait>(
        &self,
        rt: &R,
        pass: &mut Pass<O>,
        locking: Locking,
    ) -> Result<Locked, Refusal>
        requires belongs { OfMonitor pass.old self.now }
        ensures belongs { OfMonitor pass.new self.now }
        ensures number { (pass_sight pass.new).number ≡ (pass_sight pass.old).number }
        ensures run { PassRunGoesOnFrom pass.old pass.new }
        ensures woken { PassPollsAndWakesAsGranted pass.old pass.new }
        ensures enters { EnterEnds (share_of self.now) (pass_sight pass.old) (pass_sight pass.new) (mine_of pass.old) (mine_of pass.new) result }
        ensures seen { seen_of pass.new ≡ seen_of pass.old }
        ensures conditions { SameCondSeats pass.old pass.new }
        ensures steps { ByLockingAs (mutex_limits self.now) locking (tries_in self.now) (pass_sight pass.old) (pass_sight pass.new) result }
    {
        if pass.lacks_entry(self.share) {
            return Err(Refusal::Spent);
        }
        let locked = self.lock_by(rt, &mut pass.seat, locking)?;
        let how = match locked {
            Locked::Again(depth) => return Ok(Locked::Again(depth)),
            Locked::Held(how) => how,
        };
        write_took(&mut pass.seat, how);
        pass.mine += 1;
        Ok(Locked::Held(how))
    }

    /// Locks the mutex in the given way.
    #[inline(always)]
    fn lock_by<R: Wait>(
        &self,
        rt: &R,
        seat: &mut Seat<Journaled<O>>,
        locking: Locking,
    ) -> Result<Locked, Refusal>
        requires belongs { OfMutex seat.old self.now.mutex }
        ensures belongs { Beside seat.old seat.new }
        ensures run { RunGoesOnFrom seat.old seat.new }
        ensures woken { PollsAndWakesAsGranted seat.old seat.new }
        ensures locks { LocksWaiting JournalFollows JournalFits (mutex_limits self.now).budget (sight seat.old) (sight seat.new) result }
        ensures steps { ByLockingAs (mutex_limits self.now) locking (tries_in self.now) (sight seat.old) (sight seat.new) result }
    {
        match locking {
            Locking::InOrder => self.mutex.lock(rt, seat),
            Locking::Barging => self.mutex.lock_barging(rt, seat),
        }
    }
}
