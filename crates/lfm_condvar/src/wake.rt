//! How waiters are woken: in one hold of the inner mutex, the oldest, or all from the oldest to the newest, are made lockers of
//! the user mutex. The thread of a waiter that is granted the user mutex is woken after that hold.
ghost use Rattle.std.specs.Prelude.{◌≤◌};
ghost use Rattle.lfm_mutex.specs.Belongs.{Beside, OfMutex, limits_of};
ghost use Rattle.lfm_mutex.specs.calls.RunGoesOn.{RunGoesOnFrom};
ghost use Rattle.lfm_mutex.specs.calls.Sight.{sight};
ghost use Rattle.lfm_mutex.specs.calls.Woken.{WokenAsGranted};
ghost use Rattle.lfm_condvar.specs.Belongs.{CondWokenAsGranted, OfCondvar, cond_limits, cond_sight, cond_tries};
ghost use Rattle.lfm_condvar.specs.Wakes.{SendsBy, WakeAllEnds, WakeOneEnds};

use crate::cond_seat::CondSeat;
use crate::condvar::Condvar;
use lfm_model::{Refusal, SeatNo};
use lfm_mutex::{Kept, Mutex, Seat};
use std::sync::Wait;

impl Condvar {
    /// Sends the seat that has waited longest, by `send_lock` of the user mutex, and returns it with its ticket, or None if no
    /// seat waits. The caller need not hold the user mutex.
    ///
    /// Refuses, in this order, before anything is changed: Asleep (the user seat sleeps, or a call of it is open) and Spent
    /// (the cond seat has no take left). Then NotWaiting: the oldest doesn't wait to be sent, which only a send that bypasses
    /// this condvar can cause. It stays in the list, and the cond seat is charged its take.
    ///
    /// A wake costs the cond seat one take, and the user seat none. It allocates no memory, may sleep until it has the inner
    /// mutex, and wakes the seat that it grants a mutex, if any. A seat that is granted the user mutex is woken after the inner
    /// mutex is released.
    pub fn wake_one<T: Kept, R: Wait>(
        &self,
        rt: &R,
        cond: &mut CondSeat,
        mutex: &Mutex<T>,
        seat: &mut Seat<T>,
    ) -> Result<Option<(SeatNo, u64)>, Refusal>
        requires belongs { OfCondvar cond.old self.now × OfMutex seat.old mutex.now }
        requires wide { (cond_limits self.now).seats ≤ (limits_of mutex.now).seats }
        ensures belongs { OfCondvar cond.new self.now × Beside seat.old seat.new }
        ensures run { RunGoesOnFrom seat.old seat.new }
        ensures cond_woken { CondWokenAsGranted cond.old cond.new }
        ensures woken { WokenAsGranted seat.old seat.new }
        ensures wakes { WakeOneEnds (limits_of mutex.now).seats (cond_limits self.now) (cond_tries self.now) (cond_sight cond.old) (cond_sight cond.new) (sight seat.old) (sight seat.new) result }
        ensures steps { SendsBy (limits_of mutex.now) (sight seat.old) (sight seat.new) result }
    {
        // `send_oldest` repeats this check. It is made here too, before the list is locked, since that lock costs the cond seat
        // a take.
        if seat.asleep() {
            return Err(Refusal::Asleep);
        }
        let (sent, wake_up) = self.send_oldest_in_one_hold(rt, cond, mutex, seat);
        mutex.wake_from(seat, wake_up);
        sent
    }

    /// Sends all that wait, oldest first, each by `send_lock` of the user mutex, and returns how many were sent. The caller
    /// need not hold the user mutex.
    ///
    /// Refuses as `wake_one`: Asleep and Spent before anything is changed. NotWaiting leaves that waiter and those behind it in
    /// the list; the earlier ones were sent.
    ///
    /// It costs the cond seat one take, however many are sent. It allocates no memory, may sleep until it has the inner mutex,
    /// and wakes the seats that it grants a mutex, if any. While a seat holds the user mutex, those that are sent are queued.
    /// If the mutex is free, usually one of them is granted it. If several are, the last is woken after the inner mutex is
    /// released, and each other one as soon as the next is granted the mutex.
    pub fn wake_all<T: Kept, R: Wait>(
        &self,
        rt: &R,
        cond: &mut CondSeat,
        mutex: &Mutex<T>,
        seat: &mut Seat<T>,
    ) -> Result<u64, Refusal>
        requires belongs { OfCondvar cond.old self.now × OfMutex seat.old mutex.now }
        requires wide { (cond_limits self.now).seats ≤ (limits_of mutex.now).seats }
        ensures belongs { OfCondvar cond.new self.now × Beside seat.old seat.new }
        ensures run { RunGoesOnFrom seat.old seat.new }
        ensures cond_woken { CondWokenAsGranted cond.old cond.new }
        ensures woken { WokenAsGranted seat.old seat.new }
        ensures wakes { WakeAllEnds (limits_of mutex.now).seats (cond_limits self.now) (cond_tries self.now) (cond_sight cond.old) (cond_sight cond.new) (sight seat.old) (sight seat.new) result }
        ensures steps { SendsBy (limits_of mutex.now) (sight seat.old) (sight seat.new) result }
    {
        // `send_oldest` repeats this check. It is made here too, before the list is locked, since that lock costs the cond seat
        // a take.
        if seat.asleep() {
            return Err(Refusal::Asleep);
        }
        let (sent, last) = self.send_all_in_one_hold(rt, cond, mutex, seat);
        mutex.wake_from(seat, last);
        sent
    }
}
