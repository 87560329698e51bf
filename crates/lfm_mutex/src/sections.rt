//! Sections: a seat locks, a closure changes the value, and the seat gives up that hold.
ghost use Rattle.std.specs.Prelude.{◌+◌, ◌<◌};
ghost use Rattle.std.specs.Fn.{FnOnceReturnsAtMut};
ghost use Rattle.lfm_mutex.specs.Belongs.{Beside, OfMutex, limits_of};
ghost use Rattle.lfm_mutex.specs.calls.RunGoesOn.{RunGoesOnFrom};
ghost use Rattle.lfm_mutex.specs.calls.Sections.{SectionEnds, SectionKeeps, StandsAs, Changes, LocksFrom, BargesFrom, TriesFrom};
ghost use Rattle.lfm_mutex.specs.calls.Sight.{sight};
ghost use Rattle.lfm_mutex.specs.calls.Trails.{MakesAtMost};
ghost use Rattle.lfm_mutex.specs.calls.Woken.{PollsAndWakesAsGranted, WakesNobody, WokenAsGranted};
ghost use Rattle.lfm_mutex.specs.calls.Acts.{ActsWakingNobody};

use crate::mutex::Mutex;
use crate::seat::Seat;
use lfm_model::Refusal;
use lfm_table::Kept;
use std::sync::Wait;

impl<T: Kept> Mutex<T> {
    /// Locks as `lock_barging` does, lends the value to the closure, and gives up that hold as `unlock` does, so that the seat
    /// holds as often as before. Returns what the closure returned. The value that the closure leaves has to follow the one
    /// that was found, and to suit the mutex, as `Kept` of its type says. For u64 and bool every value does.
    ///
    /// Refuses as `lock`: Asleep, DepthFull, Spent, in this order. Then the closure is not called, and nothing has changed. It
    /// sleeps and wakes as these two calls do, and allocates nothing.
    ///
    /// ```
    /// let total = mutex.with(&rt, &mut seat, |total| {
    ///     *total = total.wrapping_add(1);
    ///     *total
    /// })?;
    /// ```
    #[inline(always)]
    pub fn with<U, R: Wait, F: FnOnce(&mut T) -> U>(
        &self,
        rt: &R,
        seat: &mut Seat<T>,
        f: F,
    ) -> Result<U, Refusal>
        requires belongs { OfMutex seat.old self.now }
        requires callable { F.IsAlwaysCallable f }
        requires keeps { SectionKeeps T.follows T.fits (limits_of self.now) (BargesFrom T.follows T.fits self.now seat.old) (FnOnceReturnsAtMut F.FnOnce f) }
        ensures belongs { Beside seat.old seat.new }
        ensures woken { PollsAndWakesAsGranted seat.old seat.new }
        ensures run { RunGoesOnFrom seat.old seat.new }
        ensures section { SectionEnds T.follows T.fits (limits_of self.now) (BargesFrom T.follows T.fits self.now seat.old) (FnOnceReturnsAtMut F.FnOnce f) (sight seat.new) result }
        ensures same { StandsAs (sight seat.old) (sight seat.new) }
    {
        let _locked = self.lock_barging(rt, seat)?;
        let answer = change(seat, f);
        match self.unlock(seat) {
            Ok(_) => Ok(answer),
            Err(_) => unreachable!(),
        }
    }

    /// `with` by `lock` in place of `lock_barging`: if the mutex is taken, the seat queues at once, without a try. Queued
    /// seats are served in the order in which they queued. Returns what the closure returned, and the seat holds as often as
    /// before. The value that the closure leaves has to follow the one that was found, and to suit the mutex, as in `with`.
    ///
    /// Refuses as `lock`: Asleep, DepthFull, Spent, in this order. Then the closure is not called, and nothing has changed.
    /// It sleeps and wakes as `lock` and `unlock` do, and allocates nothing.
    ///
    /// ```
    /// let ticket = mutex.with_in_order(&rt, &mut seat, |next| {
    ///     let ticket = *next;
    ///     *next = next.wrapping_add(1);
    ///     ticket
    /// })?;
    /// ```
    #[inline(always)]
    pub fn with_in_order<U, R: Wait, F: FnOnce(&mut T) -> U>(
        &self,
        rt: &R,
        seat: &mut Seat<T>,
        f: F,
    ) -> Result<U, Refusal>
        requires belongs { OfMutex seat.old self.now }
        requires callable { F.IsAlwaysCallable f }
        requires keeps { SectionKeeps T.follows T.fits (limits_of self.now) (LocksFrom T.follows T.fits self.now seat.old) (FnOnceReturnsAtMut F.FnOnce f) }
        ensures belongs { Beside seat.old seat.new }
        ensures woken { PollsAndWakesAsGranted seat.old seat.new }
        ensures run { RunGoesOnFrom seat.old seat.new }
        ensures section { SectionEnds T.follows T.fits (limits_of self.now) (LocksFrom T.follows T.fits self.now seat.old) (FnOnceReturnsAtMut F.FnOnce f) (sight seat.new) result }
        ensures same { StandsAs (sight seat.old) (sight seat.new) }
    {
        let _locked = self.lock(rt, seat)?;
        let answer = change(seat, f);
        match self.unlock(seat) {
            Ok(_) => Ok(answer),
            Err(_) => unreachable!(),
        }
    }

    /// `with` by `try_lock` in place of `lock_barging`: it never waits and allocates nothing. It wakes as `unlock` does.
    ///
    /// Refuses as `try_lock`: Asleep, DepthFull, Spent, Busy, in this order. Then the closure is not called, and the seat is as
    /// it was. Whatever other seats do, it makes at most N + 13 atomic steps, N being the number of seats.
    ///
    /// ```
    /// match mutex.try_with(&mut seat, |cache| cache.find(key)) {
    ///     Ok(found) => found,
    ///     Err(_) => look_up(key),
    /// }
    /// ```
    #[inline(always)]
    pub fn try_with<U: Drop, F: FnOnce(&mut T) -> U + Drop>(
        &self,
        seat: &mut Seat<T>,
        f: F,
    ) -> Result<U, Refusal>
        requires belongs { OfMutex seat.old self.now }
        requires callable { F.IsAlwaysCallable f }
        requires keeps { SectionKeeps T.follows T.fits (limits_of self.now) (TriesFrom T.follows T.fits self.now seat.old) (FnOnceReturnsAtMut F.FnOnce f) }
        ensures belongs { Beside seat.old seat.new }
        ensures woken { WokenAsGranted seat.old seat.new }
        ensures run { RunGoesOnFrom seat.old seat.new }
        ensures section { SectionEnds T.follows T.fits (limits_of self.now) (TriesFrom T.follows T.fits self.now seat.old) (FnOnceReturnsAtMut F.FnOnce f) (sight seat.new) result }
        ensures same { StandsAs (sight seat.old) (sight seat.new) }
        ensures bounded { MakesAtMost ((limits_of self.now).seats + 13) (sight seat.old) (sight seat.new) }
    {
        let _locked = self.try_lock(seat)?;
        let answer = change(seat, f);
        match self.unlock(seat) {
            Ok(_) => Ok(answer),
            Err(_) => unreachable!(),
        }
    }
}

/// Lets the closure change the value, for a seat that holds.
#[inline(always)]
fn change<T: Kept, U, F: FnOnce(&mut T) -> U>(seat: &mut Seat<T>, f: F) -> U
    requires holds { 0 < (sight seat.old).depth }
    requires callable { F.IsAlwaysCallable f }
    ensures acts { ActsWakingNobody seat.old seat.new }
    ensures changes { Changes (FnOnceReturnsAtMut F.FnOnce f) (sight seat.old) result (sight seat.new) }
{
    let Some(value) = seat.value_mut() else {
        unreachable!()
    };
    f(value)
}
