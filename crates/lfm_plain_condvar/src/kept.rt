//! The list is the value that the inner mutex guards. Each hold has to keep the invariant of its type. It may add its own
//! seat, take that seat out again, and wake the oldest. So each seat knows this of the holds of all other seats.
ghost use Rattle.lfm_plain_condvar.specs.Keeping.{WaitersFollow};

use crate::waiters::Waiters;
use lfm_mutex::Kept;

impl Kept for Waiters {
    ghost fits = { λ _ _. Unit {0} };

    ghost follows = { WaitersFollow };
}
