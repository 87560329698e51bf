//! The plain seat: a thread's handle of a plain condvar.

use crate::parkers::{NoticeLog, Waker};
use crate::polls::PollCredit;
use crate::waiters::Waiters;
use lfm_mutex::{Holder, Seat};

/// A thread's handle of a plain condvar. It may move between threads. Each call borrows it until the call returns. Between
/// calls it holds nothing, and has the waker of its own parker.
#[derive(Drop)]
pub struct PlainSeat {
    pub(crate) seat: Seat<Waiters>,
    pub(crate) waker: Option<Waker>,
    pub(crate) log: NoticeLog,
    pub(crate) credit: PollCredit,
}

impl Holder<Waiters> for PlainSeat {
    ghost seat_of = { λ c. c.seat };

    /// The seat of the inner mutex.
    fn seat(&self) -> &Seat<Waiters> {
        &self.seat
    }

    /// The seat of the inner mutex, which `close` needs to close that mutex.
    fn into_seat(self) -> Seat<Waiters> {
        let PlainSeat {
            seat,
            waker: _,
            log: _,
            credit: _,
        } = self;
        seat
    }
}
