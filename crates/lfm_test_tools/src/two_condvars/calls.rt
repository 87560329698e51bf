//! Calls on a mutex with two condvars. Their contracts say only that a part stays one of the mutex and its condvars, or that
//! seats do. Tests and loads need no more.
ghost use Rattle.lfm_mutex.specs.Belongs.{OfMutex};
ghost use Rattle.lfm_condvar.specs.Belongs.{OfCondvar};
ghost use Rattle.lfm_test_tools.specs.Parts.{OfShared};

use crate::adding::add_one;
use crate::locking::Locking;
use crate::two_condvars::parts::{Part, Shared, Side};
use lfm_condvar::{CondSeat, Condvar};
use lfm_model::{How, Locked, Refusal};
use lfm_mutex::{Mutex, Seat};
use std::sync::Wait;

/// `wait_while` of this condvar, while the number in hand is less than this.
pub fn wait_while_less<R: Wait>(
    rt: &R,
    condvar: &Condvar,
    cond: &mut CondSeat,
    mutex: &Mutex<u64>,
    seat: &mut Seat<u64>,
    least: u64,
) -> Result<(), Refusal>
    requires seat { OfMutex seat.old mutex.now }
    requires cond { OfCondvar cond.old condvar.now }
    ensures seat { OfMutex seat.new mutex.now }
    ensures cond { OfCondvar cond.new condvar.now }
{
    condvar.wait_while(rt, cond, mutex, seat, |number| *number < least)
}

impl Shared {
    /// `lock` or `lock_barging`. Returns whether the mutex was gained, and not held before.
    pub fn lock<R: Wait>(&self, rt: &R, part: &mut Part) -> bool
        requires { OfShared part.old self.now }
        ensures { OfShared part.new self.now }
    {
        let locked = match self.locking {
            Locking::InOrder => self.mutex.lock(rt, &mut part.seat),
            Locking::Barging => self.mutex.lock_barging(rt, &mut part.seat),
        };
        matches!(locked, Ok(Locked::Held(_)))
    }

    /// `try_lock`. Returns whether the mutex was gained, and not held before.
    pub fn try_lock(&self, part: &mut Part) -> bool
        requires { OfShared part.old self.now }
        ensures { OfShared part.new self.now }
    {
        let locked = self.mutex.try_lock(&mut part.seat);
        matches!(locked, Ok(Locked::Held(_)))
    }

    /// `unlock`. Returns whether it was not refused.
    pub fn unlock(&self, part: &mut Part) -> bool
        requires { OfShared part.old self.now }
        ensures { OfShared part.new self.now }
    {
        self.mutex.unlock(&mut part.seat).is_ok()
    }

    /// Adds 1 to the number in hand, and counts that. Returns the number; 0, with nothing counted, if the seat doesn't hold.
    pub fn add_one(&self, part: &mut Part) -> u64
        requires { OfShared part.old self.now }
        ensures { OfShared part.new self.now }
    {
        let number = add_one(&mut part.seat);
        if number > 0 {
            part.seen.made = part.seen.made.wrapping_add(1);
        }
        number
    }

    /// `wait` on one of the condvars.
    fn wait_on<R: Wait>(&self, rt: &R, part: &mut Part, side: Side) -> Result<(How, u64), Refusal>
        requires { OfShared part.old self.now }
        ensures { OfShared part.new self.now }
    {
        match side {
            Side::First => self
                .first
                .wait(rt, &mut part.first, &self.mutex, &mut part.seat),
            Side::Second => self
                .second
                .wait(rt, &mut part.second, &self.mutex, &mut part.seat),
        }
    }

    /// `wait` on one of the condvars. Returns whether it was not refused; then the wait is counted, and its ticket noted.
    pub fn wait<R: Wait>(&self, rt: &R, part: &mut Part, side: Side) -> bool
        requires { OfShared part.old self.now }
        ensures { OfShared part.new self.now }
    {
        match self.wait_on(rt, part, side) {
            Ok((_, ticket)) => {
                part.seen.ticket = ticket;
                part.seen.waits = part.seen.waits.wrapping_add(1);
                true
            }
            Err(_) => false,
        }
    }

    /// `wait_while` on one of the condvars, while the number in hand is less than this. Returns whether it was not refused; then
    /// the seat holds, and the number is at least this. These waits are not counted.
    pub fn wait_until<R: Wait>(&self, rt: &R, part: &mut Part, side: Side, least: u64) -> bool
        requires { OfShared part.old self.now }
        ensures { OfShared part.new self.now }
    {
        let waited = match side {
            Side::First => wait_while_less(
                rt,
                &self.first,
                &mut part.first,
                &self.mutex,
                &mut part.seat,
                least,
            ),
            Side::Second => wait_while_less(
                rt,
                &self.second,
                &mut part.second,
                &self.mutex,
                &mut part.seat,
                least,
            ),
        };
        waited.is_ok()
    }

    /// `wake_one` of one of the condvars. Returns whether it was not refused.
    pub fn wake_one<R: Wait>(&self, rt: &R, part: &mut Part, side: Side) -> bool
        requires { OfShared part.old self.now }
        ensures { OfShared part.new self.now }
    {
        let woken = match side {
            Side::First => self
                .first
                .wake_one(rt, &mut part.first, &self.mutex, &mut part.seat),
            Side::Second => self
                .second
                .wake_one(rt, &mut part.second, &self.mutex, &mut part.seat),
        };
        woken.is_ok()
    }

    /// `wake_all` of the first condvar. Counts how many were woken.
    pub fn wake_all<R: Wait>(&self, rt: &R, part: &mut Part) -> Result<u64, Refusal>
        requires { OfShared part.old self.now }
        ensures { OfShared part.new self.now }
    {
        let woken = self
            .first
            .wake_all(rt, &mut part.first, &self.mutex, &mut part.seat);
        if let Ok(count) = woken {
            part.seen.woken = part.seen.woken.wrapping_add(count);
        }
        woken
    }
}
