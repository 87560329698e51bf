//! The sample of a round in which several threads took turns at one mutex.
ghost use Rattle.std.specs.Prelude.{◌≡◌, Some, true};

use crate::measure::figures::{Contest, Sample, hundredths};
use crate::measure::waits::Waits;

/// What one thread did.
#[derive(Drop)]
pub struct Turns {
    /// How often it acquired the mutex.
    pub acquisitions: u64,
    /// How long it took turns, in nanoseconds.
    pub nanoseconds: u64,
    /// How much processor time it used for that, in nanoseconds.
    pub processor_nanoseconds: u64,
    /// Whether it did its work.
    pub worked: bool,
    /// How long it waited for the mutex.
    pub waits: Waits,
}

/// The sample of what these threads did in a round. `value` is the value after the round; it was 0 before. A call is an
/// acquisition by any of the threads. The sample is exact if the value is the number of acquisitions. `waits` has no waits yet;
/// those of all threads are added to it.
pub fn contest(turns: &[Turns], mut waits: Waits, value: Option<u64>) -> Sample
    ensures { result.exact ≡ true → value ≡ Some result.calls }
{
    let mut calls = 0u64;
    let mut nanoseconds = 0;
    let mut processor_nanoseconds = 0u64;
    let mut most = 0;
    let mut fewest = u64::MAX;
    let mut worked = true;
    for one in turns {
        calls = calls.saturating_add(one.acquisitions);
        nanoseconds = nanoseconds.max(one.nanoseconds);
        processor_nanoseconds = processor_nanoseconds.saturating_add(one.processor_nanoseconds);
        most = most.max(one.acquisitions);
        fewest = fewest.min(one.acquisitions);
        worked &= one.worked;
        waits.add(&one.waits);
    }
    Sample {
        nanoseconds,
        calls,
        exact: worked && value == Some(calls),
        contest: Contest {
            fairness: hundredths(most, fewest.max(1)),
            processor_nanoseconds,
            waits: waits.times(),
        },
    }
}
