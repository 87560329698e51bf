//! That the time of a wait is over. A wait ends at its deadline only with a `TimeIsOver` of that deadline, and only `check`
//! makes one, by a read of the clock. A wait that reads the clock again and again and never sleeps would meet all contracts.
ghost use Rattle.std.specs.Prelude.{◌≡◌, IfErr};

use lfm_mutex::deadlines::{Deadline, time_left};
use std::time::{Clock, Duration};

/// By the clock this deadline has passed, or the clock can't be read.
#[derive(Drop)]
pub(crate) struct TimeIsOver {
    deadline: Deadline,
}

impl TimeIsOver {
    /// Reads the clock if the deadline is a time of it. Returns for how long a thread may park before it asks again, or that
    /// the time is over.
    pub(crate) fn check<R: Clock>(rt: &R, deadline: Deadline) -> Result<Duration, TimeIsOver>
        ensures { IfErr result (λ over. over.deadline ≡ deadline) }
    {
        match time_left(rt, deadline) {
            Some(time) => Ok(time),
            None => Err(TimeIsOver { deadline }),
        }
    }
}
