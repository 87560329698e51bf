//! A wait that is in the list, and whose user seat has given up its mutex. A seat takes its waker back from its parker only
//! by such a wait. So it sleeps after it was added to the list, and while its user seat doesn't hold.
ghost use Rattle.std.specs.Prelude.{◌≡◌};
ghost use Rattle.lfm_mutex.specs.calls.Sight.{sight};
ghost use Rattle.lfm_mutex.specs.declared.deadlines.Deadline.TheVariants.{Never};

use crate::hold::ListedWait;
use lfm_mutex::deadlines::Deadline;
use lfm_mutex::{Kept, Seat};

/// A wait that was added to the list, and when its time is over. As long as this value lives, its user seat doesn't hold.
#[derive(Drop)]
pub(crate) struct UnlockedWait<'a, T: Drop> {
    listed: ListedWait<T>,
    deadline: Deadline,
    _seat: &'a Seat<T>,
}

impl<'a, T: Kept> UnlockedWait<'a, T> {
    /// The listed wait of this user seat, which has given up its mutex. It has no time limit.
    pub(crate) fn new(listed: ListedWait<T>, _seat: &'a Seat<T>) -> UnlockedWait<'a, T>
        requires { (sight _seat.now).depth ≡ 0 }
        ensures listed { result.listed ≡ listed }
        ensures deadline { result.deadline ≡ Never }
    {
        UnlockedWait {
            listed,
            deadline: Deadline::Never,
            _seat,
        }
    }

    /// The same with a time limit.
    pub(crate) fn until(
        listed: ListedWait<T>,
        _seat: &'a Seat<T>,
        deadline: Deadline,
    ) -> UnlockedWait<'a, T>
        requires { (sight _seat.now).depth ≡ 0 }
        ensures listed { result.listed ≡ listed }
        ensures deadline { result.deadline ≡ deadline }
    {
        UnlockedWait {
            listed,
            deadline,
            _seat,
        }
    }

    /// The number of the plain seat that waits.
    pub(crate) fn number(&self) -> u64
        ensures { result ≡ self.now.listed.number }
    {
        self.listed.number()
    }

    /// The ticket of the wait.
    pub(crate) fn ticket(&self) -> u64
        ensures { result ≡ self.now.listed.enlisted.ticket }
    {
        self.listed.ticket()
    }

    /// When its time is over.
    pub(crate) fn deadline(&self) -> Deadline
        ensures { result ≡ self.now.deadline }
    {
        self.deadline
    }
}
