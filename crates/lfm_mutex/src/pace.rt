//! How a seat waits: how often it tries before it queues, and how long it then polls for its grant before it parks. No atomic
//! step of the protocol is in this file.
ghost use Rattle.std.specs.Prelude.{◌≡◌, ◌≤◌, ◌<◌, IfOk};

use std::hint::spin_loop;
use std::io;
use std::thread::{Threads, available_parallelism};
use std::time::{Clock, Duration, Instant};

/// How many times a queued seat polls its wake word before it parks, unless the pace of its mutex is set otherwise. How long
/// this takes depends on the processor; on a fast one, about twice as long as the system takes to wake a thread.
pub const POLLS_BEFORE_SLEEP: u32 = 800;

/// Spins before a seat queues. With their pauses they took about 8 microseconds on the machine that was measured.
const SPINS: u32 = 12;

/// Spins on one processor: only the first try. Further spins would keep the holder from running.
const SPINS_OF_ONE_PROCESSOR: u32 = 1;

/// Naps after the spins.
const NAPS: u32 = 4;

/// Up to this number of seats there is no crowd, however few processors there are.
const FEW: u64 = 8;

/// Pauses before each poll of a queued seat. They leave the cache line of the word to the seat that is to store the grant.
const PAUSES_PER_POLL: u32 = 4;

/// How long a queued seat should poll, in nanoseconds: about two wake-ups by the system.
const POLL_NANOSECONDS: u64 = 20_000;

/// How many polls have their pauses timed in one run. The load of a poll takes a fraction of the time of its pauses.
const POLLS_TIMED: u32 = 200;

/// Timed runs. The shortest counts, since an interruption only makes a run longer.
const RUNS_TIMED: u32 = 5;

/// The fewest polls that a measurement gives.
const FEWEST_POLLS: u64 = 100;

/// The most polls that a measurement gives.
const MOST_POLLS: u64 = 4_000;

/// How a seat waits for the mutex. It has two parts.
///
/// *Before it queues*, a seat that doesn't hold and locks by `lock_barging` spins and then naps. If a read of the count finds
/// the mutex free, a try follows.
/// - The first spin is a try. Each further spin is some pauses and a read of the count. The spins end early if more than two
///   seats hold or wait.
/// - A nap is a read of the count, a sleep of 20 to 70 microseconds, and another read. The naps end early if more than 8 seats
///   hold or wait, and more than twice `near`. If one seat is counted and none owns, the mutex may have been handed over to a
///   thread that has not run since. The first nap is then a yield, which lets that thread run on the same processor.
///
/// `lock` queues without spins and naps.
///
/// *Once it has queued*, a seat polls its wake word before it parks. A grant mostly comes within about 20 microseconds, and
/// parking and being woken cost far more than polling. But if many seats are ahead, or all threads share one processor, each
/// poll is lost time. So a seat polls only if at most `near` seats hold or wait. If the polls last less than two wake-ups, one
/// thread that parks early makes all threads that queue behind it park too.
///
/// ```
/// mutex.set_pace(Pace::of_machine(&rt)?);
/// ```
#[derive(Clone, Copy, Debug, PartialEq, Eq)]
pub struct Pace {
    pub(crate) polls: u32,
    pub(crate) near: u64,
    pub(crate) spins: u32,
    pub(crate) naps: u32,
}

impl Pace {
    /// A pace with this number of polls, made only if the mutex counts at most `near` seats that hold or wait, including the
    /// seat itself. It has no spins and no naps: with it `lock_barging` is `lock`.
    pub fn new(polls: u32, near: u64) -> Pace
        ensures { (result.polls ≡ polls) × (result.near ≡ near) × (result.spins ≡ 0) × (result.naps ≡ 0) }
    {
        Pace {
            polls,
            near,
            spins: 0,
            naps: 0,
        }
    }

    /// The same pace, with this number of spins and then of naps before a seat that locks by `lock_barging` queues.
    pub fn with_barging(self, spins: u32, naps: u32) -> Pace
        ensures { result ≡ record self { spins = spins; naps = naps } }
    {
        Pace {
            polls: self.polls,
            near: self.near,
            spins,
            naps,
        }
    }

    /// The pace for a machine with this number of processors; 0 counts as 1. With one processor, a seat that locks by
    /// `lock_barging` spins once and naps 4 times before it queues, and a queued seat parks at once: further spins and polls
    /// would keep the holder from running. With more, `lock_barging` spins 12 times and naps 4 times, and a queued seat polls
    /// up to `POLLS_BEFORE_SLEEP` times if no more seats hold or wait than there are processors. The pace of a new mutex is
    /// that for eight processors.
    pub fn for_processors(processors: u64) -> Pace
        ensures one { processors ≤ 1 → (result.polls ≡ 0) × (result.near ≡ 0) × (result.spins ≡ 1) }
        ensures more { 1 < processors → (result.polls ≡ 800) × (result.near ≡ processors) × (result.spins ≡ 12) }
        ensures naps { result.naps ≡ 4 }
    {
        if processors <= 1 {
            return Pace::new(0, 0).with_barging(SPINS_OF_ONE_PROCESSOR, NAPS);
        }
        Pace::new(POLLS_BEFORE_SLEEP, processors).with_barging(SPINS, NAPS)
    }

    /// The pace for the processors that this program may use: that of `for_processors`, but, if there is more than one, with as
    /// many polls as take about 20 microseconds on this machine, from 100 to 4,000. It times the pauses of some polls. It
    /// returns an error if the system doesn't report the number of processors or the time.
    pub fn of_machine<R: Threads + Clock>(rt: &R) -> io::Result<Pace>
        ensures polls { IfOk result (λ p. (p.near ≤ 1 → p.polls ≡ 0) × (1 < p.near → (100 ≤ p.polls) × (p.polls ≤ 4_000))) }
        ensures spins { IfOk result (λ p. (p.near ≤ 1 → p.spins ≡ 1) × (1 < p.near → p.spins ≡ 12) × (p.naps ≡ 4)) }
    {
        let processors = available_parallelism(rt)?.get() as u64;
        if processors > 1 {
            let polls = polls_lasting(shortest(rt)?);
            return Ok(Pace::new(polls, processors).with_barging(SPINS, NAPS));
        }
        Ok(Pace::new(0, 0).with_barging(SPINS_OF_ONE_PROCESSOR, NAPS))
    }

    /// How many times a queued seat polls its wake word before it parks.
    pub fn looks(self) -> u32
        ensures { result ≡ self.polls }
    {
        self.polls
    }

    /// A queued seat polls only if at most this number of seats hold or wait.
    pub fn near(self) -> u64
        ensures { result ≡ self.near }
    {
        self.near
    }

    /// How many times a seat spins before it queues.
    pub fn spins(self) -> u32
        ensures { result ≡ self.spins }
    {
        self.spins
    }

    /// How many times a seat naps before it queues, after its spins.
    pub fn naps(self) -> u32
        ensures { result ≡ self.naps }
    {
        self.naps
    }

    /// Whether this count is a crowd: more than 8 seats, and more than twice `near`.
    pub(crate) fn is_crowd(self, count: u64) -> bool {
        count > FEW.max(self.near.saturating_mul(2))
    }

    /// How many times a seat that finds this count polls.
    pub(crate) fn polls_at(self, count: u64) -> u32
        ensures near { count ≤ self.near → result ≡ self.polls }
        ensures far { self.near < count → result ≡ 0 }
    {
        if count <= self.near { self.polls } else { 0 }
    }
}

/// Makes the pauses before a poll of a queued seat.
#[inline(always)]
pub(crate) fn pause() {
    pause_for(PAUSES_PER_POLL);
}

/// Makes this number of pauses.
#[inline(always)]
pub(crate) fn pause_for(pauses: u32) {
    for _ in 0..pauses {
        spin_loop();
    }
}

/// The time of the shortest run: how long the pauses of POLLS_TIMED polls took.
fn shortest<R: Clock>(rt: &R) -> io::Result<Duration> {
    let mut shortest = Duration::MAX;
    for _ in 0..RUNS_TIMED {
        let begun = Instant::now(rt)?;
        for _ in 0..POLLS_TIMED {
            pause();
        }
        shortest = shortest.min(Instant::now(rt)?.duration_since(begun));
    }
    Ok(shortest)
}

/// How many polls last as long as a queued seat should poll, if the pauses of POLLS_TIMED polls took this time.
fn polls_lasting(time: Duration) -> u32
    ensures { (100 ≤ result) × (result ≤ 4_000) }
{
    let nanoseconds = u64::try_from(time.as_nanos()).unwrap_or(u64::MAX);
    let polls = POLL_NANOSECONDS * POLLS_TIMED as u64 / nanoseconds.max(1);
    polls.clamp(FEWEST_POLLS, MOST_POLLS) as u32
}
