//! The call that returns which seat owns the mutex.
ghost use Rattle.std.specs.Prelude.{◌≡◌};
ghost use Rattle.lfm_mutex.specs.Belongs.{Beside, OfMutex};
ghost use Rattle.lfm_mutex.specs.calls.RunGoesOn.{RunGoesOnFrom};
ghost use Rattle.lfm_mutex.specs.calls.Sight.{sight, TellsOwner};
ghost use Rattle.lfm_mutex.specs.calls.Woken.{WokenAsGranted};

use crate::mutex::Mutex;
use crate::seat::Seat;
use lfm_model::SeatNo;
use lfm_table::Kept;

impl<T: Kept> Mutex<T> {
    /// The seat that the owner word names, by one load, or None if no seat owns the mutex. It is the caller's own number
    /// exactly if the caller holds the mutex. Another seat's number may be out of date when the caller reads it. The call
    /// refuses nothing, not even for a seat that sleeps or has an open call, and never waits.
    pub fn owner(&self, seat: &mut Seat<T>) -> Option<SeatNo>
        requires belongs { OfMutex seat.old self.now }
        ensures belongs { Beside seat.old seat.new }
        ensures woken { WokenAsGranted seat.old seat.new }
        ensures run { RunGoesOnFrom seat.old seat.new }
        ensures tells { TellsOwner (sight seat.old) (sight seat.new) result }
    {
        let found = self.table.read_owner(&mut seat.table_seat.place);
        SeatNo::new(found)
    }
}
