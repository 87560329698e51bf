//! When a call with a time limit is over.
use std::time::{Clock, Duration, Instant};

/// The longest time that a thread parks before it looks at the clock again, in seconds.
const LONGEST_PARK: u64 = 3600;

/// When a call with a time limit is over.
#[derive(Clone, Copy, Debug)]
pub enum Deadline {
    /// At this time of the monotonic clock.
    At(Instant),
    /// Later than the clock can count.
    Never,
    /// At once.
    Passed,
}

/// The deadline after this time from now. If the clock can't be read, it has passed.
pub fn deadline_after<R: Clock>(rt: &R, time: Duration) -> Deadline {
    match Instant::now(rt) {
        Ok(now) => match now.checked_add(time) {
            Some(end) => Deadline::At(end),
            None => Deadline::Never,
        },
        Err(_) => Deadline::Passed,
    }
}

/// How long a thread may park before it looks at the clock again, or None if the deadline has passed or the clock can't be
/// read.
pub fn time_left<R: Clock>(rt: &R, deadline: Deadline) -> Option<Duration> {
    match deadline {
        Deadline::At(end) => left_until(rt, end),
        Deadline::Never => Some(Duration::from_secs(LONGEST_PARK)),
        Deadline::Passed => None,
    }
}

/// How long it is until this time. None if it has come, or the clock can't be read.
fn left_until<R: Clock>(rt: &R, end: Instant) -> Option<Duration> {
    let Ok(now) = Instant::now(rt) else {
        return None;
    };
    if end <= now {
        return None;
    }
    Some(end.duration_since(now))
}
