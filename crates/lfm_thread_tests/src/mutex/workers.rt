//! Threads that try, lock and barge for one mutex, each with a seat of its own: no addition is lost.
ghost use Rattle.std.specs.Prelude.{All, IfOk};
ghost use Rattle.lfm_mutex.specs.Belongs.{OfMutex};

use crate::mutex::paced::paced;
use crate::seeing::{holds, sees};
use lfm_model::{Locked, Refusal};
use lfm_mutex::{Holder, Mutex, Pace, Seat};
use lfm_test_tools::adding::add_one;
use std::alloc::{AllocError, Global};
use std::process::Abort;
use std::sync::Wait;
use std::test::Fail;
use std::thread;
use std::thread::Threads;

/// Which seats lock by `lock_barging`. The others lock by `lock`.
#[derive(Clone, Copy)]
enum Barging {
    NoSeat,
    EvenSeats,
    AllSeats,
}

/// How many threads lock, how often each does, which is also its budget, and by which call.
#[derive(Clone, Copy)]
struct Run {
    threads: u64,
    times: u64,
    barging: Barging,
    pace: Pace,
}

/// A seat, and what its thread saw.
#[derive(Drop)]
struct Worker {
    seat: Seat<u64>,
    /// How often the seat acquired the mutex.
    holds: u64,
    /// Whether the seat has no take left.
    spent: bool,
}

impl Holder<u64> for Worker {
    ghost seat_of = { λ w. w.seat };

    /// The seat.
    fn seat(&self) -> &Seat<u64> {
        &self.seat
    }

    /// The seat, without what its thread saw.
    fn into_seat(self) -> Seat<u64> {
        self.seat
    }
}

/// Tries this often. Each hold adds 1 to the value.
fn try_times(mutex: &Mutex<u64>, mut seat: Seat<u64>, times: u64) -> Worker
    requires belongs { OfMutex seat mutex.now }
    ensures { OfMutex result.seat mutex.now }
{
    let mut holds = 0u64;
    'trying: for _ in 0..times {
        if let Ok(Locked::Held(_)) = mutex.try_lock(&mut seat) {
            holds = holds.wrapping_add(1);
            let _ = add_one(&mut seat);
            let _ = mutex.unlock(&mut seat);
        }
    }
    let spent = seat.left() == 0;
    Worker { seat, holds, spent }
}

/// Locks by the call that the seat has in this run.
fn lock<R: Wait>(
    rt: &R,
    mutex: &Mutex<u64>,
    seat: &mut Seat<u64>,
    run: Run,
) -> Result<Locked, Refusal>
    requires belongs { OfMutex seat.old mutex.now }
    ensures { OfMutex seat.new mutex.now }
{
    let barges = match run.barging {
        Barging::NoSeat => false,
        Barging::EvenSeats => seat.number().get() % 2 == 0,
        Barging::AllSeats => true,
    };
    if barges {
        mutex.lock_barging(rt, seat)
    } else {
        mutex.lock(rt, seat)
    }
}

/// Locks as often as the run says, and then once more, which must be refused. Each hold adds 1 to the value.
fn lock_times<R: Wait>(rt: &R, mutex: &Mutex<u64>, mut seat: Seat<u64>, run: Run) -> Worker
    requires belongs { OfMutex seat mutex.now }
    ensures { OfMutex result.seat mutex.now }
{
    let mut holds = 0u64;
    'locking: for _ in 0..run.times {
        if let Ok(Locked::Held(_)) = lock(rt, mutex, &mut seat, run) {
            holds = holds.wrapping_add(1);
            let _ = add_one(&mut seat);
            let _ = mutex.unlock(&mut seat);
        }
    }
    let refused = matches!(lock(rt, mutex, &mut seat, run), Err(Refusal::Spent));
    let spent = refused && seat.left() == 0;
    Worker { seat, holds, spent }
}

/// Each seat tries in a thread of its own.
fn try_in_threads<R: Threads + Sync>(
    rt: &R,
    mutex: &Mutex<u64>,
    seats: Vec<Seat<u64>>,
    times: u64,
) -> Result<Vec<Worker>, AllocError>
    requires { All (λ s. OfMutex s mutex.now) seats.items }
    ensures { IfOk result (λ v. All (λ w. OfMutex w.seat mutex.now) v.items) }
{
    thread::map_vec(rt, seats, &|seat| try_times(mutex, seat, times))
}

/// Each seat locks in a thread of its own.
fn lock_in_threads<R: Threads + Wait + Sync>(
    rt: &R,
    mutex: &Mutex<u64>,
    seats: Vec<Seat<u64>>,
    run: Run,
) -> Result<Vec<Worker>, AllocError>
    requires { All (λ s. OfMutex s mutex.now) seats.items }
    ensures { IfOk result (λ v. All (λ w. OfMutex w.seat mutex.now) v.items) }
{
    thread::map_vec(rt, seats, &|seat| lock_times(rt, mutex, seat, run))
}

/// How often all workers acquired the mutex.
fn all_holds(workers: &[Worker]) -> u64 {
    let mut holds = 0u64;
    for worker in workers {
        holds = holds.wrapping_add(worker.holds);
    }
    holds
}

/// This number of threads try this often, which is also their budget. Returns their holds, and the value with which the mutex
/// is closed.
fn tried<R: Threads + Sync>(
    rt: &R,
    alloc: Global,
    threads: u64,
    times: u64,
) -> Result<(u64, u64), Fail> {
    let (mutex, seats) = Mutex::new(alloc, threads, times, 0u64)?;
    let workers = try_in_threads(rt, &mutex, seats, times)?;
    let holds = all_holds(&workers);
    let Ok(total) = mutex.close(workers) else {
        return Err(Fail::new("all seats were back"));
    };
    Ok((holds, total))
}

/// Whether no worker has a take left.
fn all_spent(workers: &[Worker]) -> bool {
    for worker in workers {
        if !worker.spent {
            return false;
        }
    }
    true
}

/// The threads of a run lock once more than their budget. Returns whether each was then refused as Spent, and the value with
/// which the mutex is closed.
fn locked<R: Threads + Wait + Sync>(rt: &R, alloc: Global, run: Run) -> Result<(bool, u64), Fail> {
    let (mutex, seats) = paced(alloc, run.pace, run.threads, run.times).ok_or("a mutex")?;
    let workers = lock_in_threads(rt, &mutex, seats, run)?;
    let spent = all_spent(&workers);
    let Ok(total) = mutex.close(workers) else {
        return Err(Fail::new("all seats were back"));
    };
    Ok((spent, total))
}

#[test]
fn try_by_one_thread(rt: HostRuntime) -> Result<(), Fail> {
    let (holds, total) = tried(&rt, rt.alloc(), 1, 10_000)?;
    sees(&rt, "the holds", &holds, &10_000);
    sees(&rt, "the value", &total, &10_000);
    Ok(())
}

#[test]
fn try_by_two_threads(rt: HostRuntime) -> Result<(), Fail> {
    let (holds, total) = tried(&rt, rt.alloc(), 2, 100_000)?;
    sees(&rt, "the value", &total, &holds);
    assert!(rt; 0 < total && total <= 200_000, "{total} holds");
    Ok(())
}

/// Checks that each thread of a run made all its additions, and was then refused as Spent.
fn sees_locked<R: Threads + Wait + Sync + Abort>(
    rt: &R,
    alloc: Global,
    run: Run,
) -> Result<(), Fail> {
    let (spent, total) = locked(rt, alloc, run)?;
    holds(rt, "each was spent", spent);
    sees(
        rt,
        "the value",
        &total,
        &run.threads.wrapping_mul(run.times),
    );
    Ok(())
}

#[test]
fn lock_by_two_threads(rt: HostRuntime) -> Result<(), Fail> {
    let run = Run {
        threads: 2,
        times: 2_500,
        barging: Barging::NoSeat,
        pace: Pace::for_processors(8),
    };
    sees_locked(&rt, rt.alloc(), run)
}

#[test]
fn lock_by_four_threads(rt: HostRuntime) -> Result<(), Fail> {
    let run = Run {
        threads: 4,
        times: 1_250,
        barging: Barging::NoSeat,
        pace: Pace::for_processors(8),
    };
    sees_locked(&rt, rt.alloc(), run)
}

#[test]
fn barge_by_four_threads(rt: HostRuntime) -> Result<(), Fail> {
    let run = Run {
        threads: 4,
        times: 4_000,
        barging: Barging::AllSeats,
        pace: Pace::of_machine(&rt)?,
    };
    sees_locked(&rt, rt.alloc(), run)
}

#[test]
fn barge_beside_threads_that_lock(rt: HostRuntime) -> Result<(), Fail> {
    let run = Run {
        threads: 4,
        times: 4_000,
        barging: Barging::EvenSeats,
        pace: Pace::of_machine(&rt)?,
    };
    sees_locked(&rt, rt.alloc(), run)
}

/// Seat 2 is granted the mutex in some rounds, and naps on the same word in the next round.
#[test]
fn nap_after_a_grant(rt: HostRuntime) -> Result<(), Fail> {
    let run = Run {
        threads: 2,
        times: 2_000,
        barging: Barging::EvenSeats,
        pace: Pace::new(800, 8).with_barging(0, 2),
    };
    sees_locked(&rt, rt.alloc(), run)
}
