//! Samples, and the medians of their figures with their spread.
ghost use Rattle.std.specs.Prelude.{◌≡◌, ◌*◌, ◌-◌, ◌/◌, ◌<◌, ◌^◌, ◌++◌, ◌∷◌, ◌&&◌, ◌==◌, [], length, vec_len, true};
ghost use Rattle.std.specs.Prelude.{IfSome, IfNone, IfOk, OnOk};
ghost use Rattle.lfm_bench.specs.Quartiles.{AreQuartiles, StandIn};

use std::alloc::{AllocError, Global};
use std::io;
use std::time::{CpuClock, Duration};

/// One round of a measurement.
#[derive(Clone, Copy)]
pub struct Sample {
    /// How much time all calls took together, in nanoseconds.
    pub nanoseconds: u64,
    /// How many calls there were.
    pub calls: u64,
    /// Whether each call did what it should.
    pub exact: bool,
    /// The figures of threads that contend. `NONE` if no threads contended.
    pub contest: Contest,
}

/// The figures of threads that contend.
#[derive(Clone, Copy)]
pub struct Contest {
    /// The most calls of a thread, in hundredths of the fewest, or of 1 if those are 0.
    pub fairness: u64,
    /// How much processor time the threads used together, in nanoseconds.
    pub processor_nanoseconds: u64,
    /// How long they waited for the mutex.
    pub waits: WaitTimes,
}

/// How long threads waited for a mutex, in nanoseconds.
#[derive(Clone, Copy)]
pub struct WaitTimes {
    /// 999 of 1,000 waits took no longer than this.
    pub most: u64,
    pub longest: u64,
}

impl Contest {
    /// No threads contended.
    pub const NONE: Contest = Contest {
        fairness: 100,
        processor_nanoseconds: 0,
        waits: WaitTimes {
            most: 0,
            longest: 0,
        },
    };
}

impl Sample {
    /// A sample without a contest, of this number of calls that took this time together.
    pub fn of_calls(nanoseconds: u64, calls: u64, exact: bool) -> Sample
        ensures calls { result.calls ≡ calls }
        ensures exact { result.exact ≡ exact }
    {
        Sample {
            nanoseconds,
            calls,
            exact,
            contest: Contest::NONE,
        }
    }

    /// The same sample. It is exact only if `holds` is true as well.
    pub fn provided(self, holds: bool) -> Sample
        ensures { result ≡ record self { exact = self.exact && holds } }
    {
        Sample {
            exact: self.exact && holds,
            ..self
        }
    }

    /// What one call took on average, in picoseconds.
    pub fn cost(&self) -> u64 {
        picoseconds_per(self.nanoseconds, self.calls)
    }
}

/// Measures how much processor time this thread uses. The time in which other programs run is not counted.
#[derive(Clone, Copy)]
pub struct Stopwatch {
    start: Duration,
}

impl Stopwatch {
    /// Starts now.
    pub fn start<R: CpuClock>(rt: &R) -> io::Result<Stopwatch> {
        let start = rt.thread_cpu_time()?;
        Ok(Stopwatch { start })
    }

    /// The sample that ends now: `calls` calls were to be made, and `done` of them did what they were to do.
    pub fn stop<R: CpuClock>(self, rt: &R, calls: u64, done: u64) -> io::Result<Sample>
        ensures calls { IfOk result (λ s. s.calls ≡ calls) }
        ensures exact { IfOk result (λ s. s.exact ≡ (done == calls)) }
    {
        let spent = rt.thread_cpu_time()?.saturating_sub(self.start);
        let nanoseconds = u64::try_from(spent.as_nanos()).unwrap_or(u64::MAX);
        Ok(Sample::of_calls(nanoseconds, calls, done == calls))
    }
}

/// The total divided by the number of parts, rounded down. 0 if there are no parts.
pub fn per(total: u64, parts: u64) -> u64
    ensures share { 0 < parts → result ≡ total / parts }
    ensures none { parts ≡ 0 → result ≡ 0 }
{
    if parts == 0 { 0 } else { total / parts }
}

/// These nanoseconds divided by the number of calls, in picoseconds.
fn picoseconds_per(nanoseconds: u64, calls: u64) -> u64 {
    per(nanoseconds.saturating_mul(1_000), calls)
}

/// How many hundredths of the base this amount is, rounded down. 0 if the base is 0.
pub fn hundredths(amount: u64, base: u64) -> u64
    ensures ratio { 0 < base → amount * 100 < 2 ^ 64 → result ≡ amount * 100 / base }
    ensures none { base ≡ 0 → result ≡ 0 }
{
    per(amount.saturating_mul(100), base)
}

/// The quartiles of a sorted series: half of all figures lie between the lower and the upper one.
#[derive(Clone, Copy)]
pub struct Quartiles {
    /// As many figures are before this one as are after the upper one: a quarter of all, rounded down.
    pub lower: u64,
    /// The figure in the middle, the upper of two if their number is even.
    pub median: u64,
    pub upper: u64,
}

impl Quartiles {
    /// The distance of the lower and the upper quartile, in hundredths of the median, rounded down. 0 if the median is 0.
    pub fn spread(self) -> u64
        ensures share { 0 < self.median → (self.upper - self.lower) * 100 < 2 ^ 64 → result ≡ (self.upper - self.lower) * 100 / self.median }
        ensures none { self.median ≡ 0 → result ≡ 0 }
    {
        hundredths(self.upper.saturating_sub(self.lower), self.median)
    }
}

/// One figure of each round.
#[derive(Drop)]
pub struct Series {
    values: Vec<u64>,
}

impl Series {
    /// A series without figures.
    pub fn new(alloc: Global) -> Series
        ensures { result.values.items ≡ [] }
    {
        Series {
            values: Vec::new(alloc),
        }
    }

    /// Adds the figure of a round.
    pub fn add(&mut self, value: u64) -> Result<(), AllocError>
        ensures { OnOk result (self.new.values.items ≡ self.old.values.items ++ value ∷ []) }
    {
        self.values.push(value)?;
        Ok(())
    }

    /// The quartiles of all figures. None if there are no figures.
    pub fn quartiles(&mut self) -> Option<Quartiles>
        ensures places { IfSome result (λ q. AreQuartiles q self.old.values.items) }
        ensures none { IfNone result (vec_len self.old.values ≡ 0) }
    {
        self.values.sort_unstable();
        let quartiles = quartiles_in_order(&self.values)?;
        Some(quartiles)
    }

    /// The median of all figures. 0 if there are no figures.
    pub fn median(&mut self) -> u64 {
        match self.quartiles() {
            Some(quartiles) => quartiles.median,
            None => 0,
        }
    }
}

/// The quartiles of figures in ascending order. None if there are no figures.
fn quartiles_in_order(figures: &[u64]) -> Option<Quartiles>
    ensures places { IfSome result (λ q. StandIn q figures.now) }
    ensures none { IfNone result (length figures.now ≡ 0) }
{
    let count = figures.len();
    if count == 0 {
        return None;
    }
    let quarter = count / 4;
    Some(Quartiles {
        lower: figures[quarter],
        median: figures[count / 2],
        upper: figures[count - 1 - quarter],
    })
}

/// What is measured in a round.
#[derive(Clone, Copy)]
pub enum Measure {
    /// The time that a call took on average, in picoseconds.
    Cost,
    /// The most calls of a thread, in hundredths of the fewest.
    Fairness,
    /// The processor time that a call used on average, in picoseconds.
    ProcessorTime,
    /// How long 999 of 1,000 waits took at most, in nanoseconds.
    LongWait,
    /// How long the longest wait took, in nanoseconds.
    LongestWait,
}

/// The figures of a peer for a workload.
#[derive(Drop)]
pub struct Figures {
    costs: Series,
    fairness: Series,
    processor_times: Series,
    long_waits: Series,
    longest_waits: Series,
    exact: bool,
}

impl Figures {
    /// Figures of no round.
    pub fn new(alloc: Global) -> Figures
        ensures { result.exact ≡ true }
    {
        Figures {
            costs: Series::new(alloc),
            fairness: Series::new(alloc),
            processor_times: Series::new(alloc),
            long_waits: Series::new(alloc),
            longest_waits: Series::new(alloc),
            exact: true,
        }
    }

    /// Adds the figures of a round.
    pub fn add(&mut self, sample: Sample) -> Result<(), AllocError>
        ensures { self.new.exact ≡ (self.old.exact && sample.exact) }
    {
        let contest = sample.contest;
        self.exact = self.exact && sample.exact;
        self.costs.add(sample.cost())?;
        self.fairness.add(contest.fairness)?;
        self.processor_times.add(picoseconds_per(contest.processor_nanoseconds, sample.calls))?;
        self.long_waits.add(contest.waits.most)?;
        self.longest_waits.add(contest.waits.longest)
    }

    /// Adds the figures of a round, if there are any.
    pub fn add_if_any(&mut self, sample: Option<Sample>) -> Result<(), AllocError> {
        match sample {
            Some(sample) => self.add(sample),
            None => Ok(()),
        }
    }

    /// Whether each call of each round did what it should.
    pub fn is_exact(&self) -> bool
        ensures { result ≡ self.now.exact }
    {
        self.exact
    }

    /// The quartiles of a measure. None if there was no round.
    pub fn quartiles(&mut self, measure: Measure) -> Option<Quartiles> {
        match measure {
            Measure::Cost => self.costs.quartiles(),
            Measure::Fairness => self.fairness.quartiles(),
            Measure::ProcessorTime => self.processor_times.quartiles(),
            Measure::LongWait => self.long_waits.quartiles(),
            Measure::LongestWait => self.longest_waits.quartiles(),
        }
    }
}
