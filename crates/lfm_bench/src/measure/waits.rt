//! The lengths of waits: how many waits fall into each class of lengths. Each power of two has eight classes.

use crate::measure::clocks::{now, since};
use crate::measure::figures::WaitTimes;
use std::alloc::{AllocError, Global};
use std::time::{Clock, Instant};

/// How many classes there are for each power of two, from 8 nanoseconds on.
const PARTS: u64 = 8;

/// How many classes there are: one for each time below 8 nanoseconds, and 8 for each of 61 powers of two.
const CLASSES: usize = 496;

/// The time of most waits leaves out the longest one of this many waits.
const MANY: u64 = 1_000;

/// Whether the waits of a workload are timed.
#[derive(Clone, Copy)]
pub enum Watching {
    Nothing,
    Waits,
}

/// The waits of some threads that have ended. There are none if the waits of the workload are not timed.
#[derive(Drop)]
pub struct Waits {
    /// How many waits there were of each class. Empty if they are not timed.
    counts: Vec<u64>,
    longest: u64,
}

impl Waits {
    /// No waits. It allocates memory if they are timed.
    pub fn new(alloc: Global, watching: Watching) -> Result<Waits, AllocError> {
        let counts = match watching {
            Watching::Nothing => Vec::new(alloc),
            Watching::Waits => vec![in alloc; 0; CLASSES]?,
        };
        Ok(Waits { counts, longest: 0 })
    }

    /// No waits, which are not timed. It allocates nothing.
    pub fn none(alloc: Global) -> Waits {
        Waits {
            counts: Vec::new(alloc),
            longest: 0,
        }
    }

    /// The time at which a wait starts. None if it is not timed.
    #[inline(always)]
    pub fn begin<R: Clock>(&self, rt: &R) -> Option<Instant> {
        if self.counts.is_empty() {
            None
        } else {
            now(rt)
        }
    }

    /// Counts a wait that started at this time and ends now.
    #[inline(always)]
    pub fn end<R: Clock>(&mut self, rt: &R, begin: Option<Instant>) {
        if begin.is_some() {
            self.count(since(rt, begin));
        }
    }

    /// Counts a wait of this number of nanoseconds.
    fn count(&mut self, nanoseconds: u64) {
        self.longest = self.longest.max(nanoseconds);
        if let Some(count) = self.counts.get_mut(class_of(nanoseconds)) {
            *count = count.wrapping_add(1);
        }
    }

    /// Adds the waits of another thread.
    pub fn add(&mut self, other: &Waits) {
        self.longest = self.longest.max(other.longest);
        for (count, more) in self.counts.iter_mut().zip(other.counts.iter()) {
            *count = count.wrapping_add(*more);
        }
    }

    /// How long 999 of 1,000 waits took at most, to an eighth, and how long the longest took.
    pub fn times(&self) -> WaitTimes {
        let mut all = 0u64;
        for count in &self.counts {
            all = all.saturating_add(*count);
        }
        let mut longer = 0u64;
        let mut most = self.longest;
        for (class, count) in self.counts.iter().enumerate().rev() {
            longer = longer.saturating_add(*count);
            if longer > all / MANY {
                most = most.min(end_of(class as u64));
                break;
            }
        }
        WaitTimes {
            most,
            longest: self.longest,
        }
    }
}

/// The class of a wait of this number of nanoseconds: the value of its first four bits, plus 8 for each bit after them.
fn class_of(nanoseconds: u64) -> usize {
    let following = 60u32.saturating_sub(nanoseconds.leading_zeros());
    let first = nanoseconds.wrapping_shr(following);
    u64::from(following)
        .saturating_mul(PARTS)
        .saturating_add(first) as usize
}

/// The longest wait of a class, in nanoseconds.
fn end_of(class: u64) -> u64 {
    let following = (class / PARTS).saturating_sub(1).min(60);
    let first = class.saturating_sub(following.saturating_mul(PARTS));
    first
        .saturating_add(1)
        .wrapping_shl(following as u32)
        .wrapping_sub(1)
}
