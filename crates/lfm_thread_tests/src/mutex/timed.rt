//! Tries with a time limit: they end after it and not before, and leave the seat as it was; and they acquire the mutex if it is
//! released in time.
ghost use Rattle.std.specs.Prelude.{All};
ghost use Rattle.lfm_mutex.specs.Belongs.{OfMutex};

use crate::seeing::{holds, sees};
use lfm_model::{How, Locked, Refusal};
use lfm_mutex::{Mutex, Seat};
use lfm_test_tools::two_seats::mutex_of_two;
use std::alloc::AllocError;
use std::sync::{Barrier, Wait};
use std::test::Fail;
use std::thread;
use std::thread::Threads;
use std::time::{Clock, Duration};

/// The time limit while another seat holds all the time, in milliseconds.
const SHORT: u64 = 5;

/// How long seat 1 holds, if it releases the mutex in time, in milliseconds.
const HELD: u64 = 20;

/// A limit that is not reached on any machine, in seconds.
const LONG: u64 = 60;

/// The time now, by a clock that never goes back.
fn time_now<R: Clock>(rt: &R) -> Duration {
    rt.monotonic().unwrap_or(Duration::ZERO)
}

/// Seat 1 acquires the mutex, holds it for a while after both threads have reached the barrier, and releases it. Seat 2 tries
/// from then on. Returns what the call of each answered.
fn take_part<R: Wait + Clock>(
    rt: &R,
    mutex: &Mutex<u64>,
    mut seat: Seat<u64>,
    both: &Barrier,
) -> Result<Locked, Refusal>
    requires { OfMutex seat mutex.now }
{
    if seat.number().get() != 1 {
        both.wait(rt);
        let locked = mutex.try_lock_for(rt, &mut seat, Duration::from_secs(LONG));
        let _ = mutex.unlock(&mut seat);
        return locked;
    }
    let locked = mutex.try_lock(&mut seat);
    both.wait(rt);
    thread::sleep(rt, Duration::from_millis(HELD));
    let _ = mutex.unlock(&mut seat);
    locked
}

/// Each seat takes part in a thread of its own.
fn answers<R: Threads + Wait + Clock + Sync>(
    rt: &R,
    mutex: &Mutex<u64>,
    seats: Vec<Seat<u64>>,
) -> Result<Vec<Result<Locked, Refusal>>, AllocError>
    requires { All (λ s. OfMutex s mutex.now) seats.items }
{
    let both = Barrier::new(2);
    thread::map_vec(rt, seats, &|seat| take_part(rt, mutex, seat, &both))
}

#[test]
fn the_time_passes_while_another_seat_holds(rt: HostRuntime) -> Result<(), Fail> {
    let (mutex, mut first, mut second) = mutex_of_two(rt.alloc(), 1, 0u64).ok_or("a mutex")?;
    let held = mutex.try_lock(&mut first);
    sees(&rt, "seat 1", &held, &Ok(Locked::Held(How::Free)));
    let began = time_now(&rt);
    let tried = mutex.try_lock_for(&rt, &mut second, Duration::from_millis(SHORT));
    let took = time_now(&rt).saturating_sub(began);
    sees(&rt, "seat 2", &tried, &Err(Refusal::Busy));
    holds(&rt, "the limit", Duration::from_millis(SHORT) <= took);
    sees(&rt, "takes of seat 2", &second.takes(), &0);
    Ok(())
}

#[test]
fn a_mutex_that_is_released_in_time_is_acquired(rt: HostRuntime) -> Result<(), Fail> {
    let (mutex, seats) = Mutex::new(rt.alloc(), 2, 1, 0u64)?;
    let answers = answers(&rt, &mutex, seats)?;
    let held = Ok(Locked::Held(How::Free));
    sees(
        &rt,
        "answers",
        &answers.as_slice(),
        &[held, held].as_slice(),
    );
    Ok(())
}
