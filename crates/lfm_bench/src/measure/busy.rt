//! Work that only takes time.

use crate::measure::figures::{Series, Stopwatch, per};
use std::io;
use std::time::CpuClock;

/// How many steps are timed to compute how long one takes.
const TIMED_STEPS: u64 = 20_000;

/// How often they are timed.
const TIMINGS: u64 = 25;

/// A generator of numbers, by xorshift. Its steps are the work.
#[derive(Clone, Copy)]
pub struct Busy {
    state: u64,
}

impl Busy {
    /// A generator that has made no step.
    pub fn new() -> Busy {
        Busy { state: 1 }
    }

    /// Makes this number of steps.
    #[inline(never)]
    pub fn work(&mut self, steps: u64) {
        let mut state = self.state;
        for _ in 0..steps {
            state ^= state << 13;
            state ^= state >> 7;
            state ^= state << 17;
        }
        self.state = state;
    }

    /// Whether the number is not 0. Steps never make it 0. Since this is called at the end, the compiler cannot remove the
    /// steps.
    pub fn is_sound(&self) -> bool {
        self.state != 0
    }
}

/// How long a step takes on this machine.
#[derive(Clone, Copy)]
pub struct StepTime {
    picoseconds: u64,
}

impl StepTime {
    /// Times some steps several times, and takes the median, since the clock of a thread's processor time may sometimes be
    /// wrong.
    pub fn measure<R: CpuClock + AllocGlobal>(rt: &R) -> io::Result<StepTime> {
        let mut busy = Busy::new();
        let mut costs = Series::new(rt.alloc());
        for _ in 0..TIMINGS {
            let watch = Stopwatch::start(rt)?;
            busy.work(TIMED_STEPS);
            costs.add(watch.stop(rt, TIMED_STEPS, TIMED_STEPS)?.cost())?;
        }
        Ok(StepTime {
            picoseconds: costs.median(),
        })
    }

    /// The number of steps that take about this time.
    pub fn steps(&self, nanoseconds: u64) -> u64 {
        per(nanoseconds.saturating_mul(1_000), self.picoseconds)
    }
}
