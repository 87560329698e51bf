//! The wake-up that is owed to a waiter after a wake took it out of the list.
ghost use Rattle.std.specs.Prelude.{◌≡◌, ◌<◌, ◌≤◌};
ghost use Rattle.lfm_model.specs.SeatNumbers.{max_seat_no};

use crate::waiters::Waiter;
use lfm_model::SeatNo;

/// The duty to notify a waiter that a wake took out of the list. The type has no `Drop`, so a path that loses it does not
/// compile. It must be passed to `notify`.
pub struct OwedWakeUp {
    pub(crate) waiter: Waiter,
    pub ghost numbered: { (0 < waiter.waker.number) × (waiter.waker.number ≤ max_seat_no) },
}

impl OwedWakeUp {
    /// The number of the plain seat that is to be notified.
    pub fn number(&self) -> SeatNo
        ensures { result ≡ self.now.waiter.waker.number }
    {
        SeatNo::known(self.waiter.waker.number)
    }
}
