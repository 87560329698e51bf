//! The list is the value that the inner mutex guards. The invariant of its type is true at every hold. A hold may add waiters
//! behind the list and take off the oldest, and may not change their order. The mutex has each hold prove this, so each cond
//! seat knows it of the holds of all others.
ghost use Rattle.lfm_condvar.specs.Keeping.{WaitersFollow};

use crate::waiters::Waiters;
use lfm_mutex::Kept;

impl Kept for Waiters {
    ghost fits = { λ _ _. Unit {0} };

    ghost follows = { WaitersFollow };
}
