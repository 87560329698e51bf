//! A mutex with a given pace. It has no test.
ghost use Rattle.std.specs.Prelude.{All, IfSome};
ghost use Rattle.lfm_mutex.specs.Belongs.{OfMutex};

use lfm_mutex::{Mutex, Pace, Seat};
use std::alloc::Global;

/// A mutex around 0 with this pace and this number of seats, and its seats, each with this budget.
pub fn paced(
    alloc: Global,
    pace: Pace,
    seats: u64,
    budget: u64,
) -> Option<(Mutex<u64>, Vec<Seat<u64>>)>
    ensures { IfSome result (λ r. All (λ s. OfMutex s r.0) r.1.items) }
{
    let Ok((mut mutex, seats)) = Mutex::new(alloc, seats, budget, 0u64) else {
        return None;
    };
    mutex.set_pace(pace);
    Some((mutex, seats))
}
