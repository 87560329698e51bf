//! The time of the wall clock, for threads that sleep, and the processor time that threads use.

use std::time::{Clock, CpuClock, Instant};

/// The time now. None if the clock can't be read.
pub fn now<R: Clock>(rt: &R) -> Option<Instant> {
    Instant::now(rt).ok()
}

/// The nanoseconds since then. 0 if the clock couldn't be read.
pub fn since<R: Clock>(rt: &R, start: Option<Instant>) -> u64 {
    let (Some(start), Some(end)) = (start, now(rt)) else {
        return 0;
    };
    u64::try_from(end.duration_since(start).as_nanos()).unwrap_or(u64::MAX)
}

/// The processor time that this thread has used, in nanoseconds. 0 if that can't be read.
pub fn processor_time<R: CpuClock>(rt: &R) -> u64 {
    match rt.thread_cpu_time() {
        Ok(time) => u64::try_from(time.as_nanos()).unwrap_or(u64::MAX),
        Err(_) => 0,
    }
}
