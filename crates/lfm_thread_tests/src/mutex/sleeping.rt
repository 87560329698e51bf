//! A thread that waits long sleeps: it uses hardly any processor time.
ghost use Rattle.std.specs.Prelude.{All, IfOk};
ghost use Rattle.lfm_mutex.specs.Belongs.{Beside, OfMutex};

use lfm_mutex::{Mutex, Seat};
use std::alloc::AllocError;
use std::process::Abort;
use std::sync::{Barrier, Wait};
use std::test::Fail;
use std::thread;
use std::thread::Threads;
use std::time::{Clock, CpuClock, Duration};

/// How long seat 1 holds, in milliseconds.
const HELD: u64 = 200;

/// More processor time, in milliseconds, than some thousand polls of a word and a sleep take, even in a debug build.
const MOST_BUSY: u64 = 50;

/// What a thread saw of its lock.
#[derive(Clone, Copy, Drop)]
struct Report {
    /// Whether it acquired the mutex.
    held: bool,
    /// The time until then.
    took: Duration,
    /// The processor time that the thread used until then. None if it can't be read.
    busy: Option<Duration>,
}

/// Holds the mutex for a while after both threads have reached the barrier.
fn hold<R: Wait + Clock>(rt: &R, mutex: &Mutex<u64>, seat: &mut Seat<u64>, both: &Barrier)
    requires { OfMutex seat.old mutex.now }
{
    let _ = mutex.lock(rt, seat);
    both.wait(rt);
    thread::sleep(rt, Duration::from_millis(HELD));
    let _ = mutex.unlock(seat);
}

/// The processor time that this thread has used so far. None if it can't be read.
fn busy_until_now<R: CpuClock>(rt: &R) -> Option<Duration> {
    rt.thread_cpu_time().ok()
}

/// The time now, by a clock that never goes back.
fn time_now<R: Clock>(rt: &R) -> Duration {
    rt.monotonic().unwrap_or(Duration::ZERO)
}

/// Locks the mutex, which the other thread holds.
fn wait<R: Wait + Clock + CpuClock>(
    rt: &R,
    mutex: &Mutex<u64>,
    seat: &mut Seat<u64>,
    both: &Barrier,
) -> Report
    requires { OfMutex seat.old mutex.now }
{
    both.wait(rt);
    let (began, busy) = (time_now(rt), busy_until_now(rt));
    let held = mutex.lock(rt, seat).is_ok();
    let (took, busy_now) = (time_now(rt).saturating_sub(began), busy_until_now(rt));
    let busy = match (busy, busy_now) {
        (Some(before), Some(after)) => Some(after.saturating_sub(before)),
        _ => None,
    };
    Report { held, took, busy }
}

/// Seat 1 holds, and the other waits.
fn take_part<R: Wait + Clock + CpuClock>(
    rt: &R,
    mutex: &Mutex<u64>,
    mut seat: Seat<u64>,
    both: &Barrier,
) -> Option<Report>
    requires { OfMutex seat mutex.now }
{
    if seat.number().get() == 1 {
        hold(rt, mutex, &mut seat, both);
        return None;
    }
    Some(wait(rt, mutex, &mut seat, both))
}

/// Each seat takes part in a thread of its own.
fn reports<R: Threads + Wait + Clock + CpuClock + Sync>(
    rt: &R,
    mutex: &Mutex<u64>,
    seats: Vec<Seat<u64>>,
) -> Result<Vec<Option<Report>>, AllocError>
    requires { All (λ s. OfMutex s mutex.now) seats.items }
{
    let both = Barrier::new(2);
    thread::map_vec(rt, seats, &|seat| take_part(rt, mutex, seat, &both))
}

/// Checks that a thread acquired the mutex, and used hardly any processor time until then.
fn sees_slept<R: Abort>(rt: &R, report: Report) {
    assert!(rt; report.held);
    let Some(busy) = report.busy else {
        panic!(rt; "the processor time can't be told")
    };
    assert!(rt;
        busy < Duration::from_millis(MOST_BUSY),
        "{:?} in {:?}",
        busy,
        report.took
    );
}

#[test]
fn a_thread_that_waits_sleeps(rt: HostRuntime) -> Result<(), Fail> {
    let (mutex, seats) = Mutex::new(rt.alloc(), 2, 1, 0u64)?;
    let reports = reports(&rt, &mutex, seats)?;
    let Some(Some(report)) = reports.last() else {
        return Err(Fail::new("seat 2 reports"));
    };
    sees_slept(&rt, *report);
    Ok(())
}
