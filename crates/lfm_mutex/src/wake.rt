//! `wake`, which completes a call that was made without waking.
ghost use Rattle.std.specs.Prelude.{◌≡◌, ℕ, ◌≤◌, ◌++◌, Some};
ghost use Rattle.lfm_mutex.specs.Belongs.{Beside, OfMutex, limits_of};
ghost use Rattle.lfm_mutex.specs.calls.RunGoesOn.{RunGoesOnFrom};
ghost use Rattle.lfm_mutex.specs.calls.Sight.{sight};
ghost use Rattle.lfm_mutex.specs.calls.WakeUps.{as_list};
ghost use Rattle.lfm_mutex.specs.calls.Woken.{WakesThese};

use crate::mutex::Mutex;
use crate::seat::Seat;
use lfm_table::parking::wake;
use lfm_table::{Kept, OffTrail, WakeUp};

impl<T: Kept> Mutex<T> {
    /// Wakes the thread of the seat to which a call has granted this mutex, if there is such a seat and its thread is parked.
    /// With a wake-up it makes one system call. It makes no atomic step and never waits. The wake-up has to be one that a call
    /// of this mutex returned; the precondition checks only its seat number.
    #[inline(always)]
    pub fn wake(&self, wake_up: Option<WakeUp>)
        requires { (t : ℕ) → wake_up ≡ Some t → t ≤ (limits_of self.now).seats }
    {
        let mut off_trail = OffTrail::new();
        self.wake_seat(wake_up, &mut off_trail);
    }

    /// `wake`, for a call that was made with this seat. The seat that it wakes is added to those that this seat has woken.
    #[inline(always)]
    pub fn wake_from(&self, seat: &mut Seat<T>, wake_up: Option<WakeUp>)
        requires belongs { OfMutex seat.old self.now }
        requires inside { (t : ℕ) → wake_up ≡ Some t → t ≤ (limits_of self.now).seats }
        ensures belongs { Beside seat.old seat.new }
        ensures same { sight seat.new ≡ sight seat.old }
        ensures run { RunGoesOnFrom seat.old seat.new }
        ensures woken { WakesThese (as_list wake_up) seat.old seat.new }
    {
        self.wake_seat(wake_up, &mut seat.off_trail);
    }

    /// `wake`, which adds the seat that it wakes to those that were woken.
    #[inline(always)]
    pub(crate) fn wake_seat(&self, wake_up: Option<WakeUp>, off_trail: &mut OffTrail)
        requires { (t : ℕ) → wake_up ≡ Some t → t ≤ (limits_of self.now).seats }
        ensures { off_trail.new ≡ record off_trail.old { woken = off_trail.old.woken ++ as_list wake_up } }
    {
        match wake_up {
            Some(wake_up) => wake(&self.table, self.limits.seats, wake_up, off_trail),
            None => {}
        }
    }
}
