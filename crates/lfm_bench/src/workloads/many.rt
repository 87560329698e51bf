//! One thread locks and unlocks many mutexes, one after another.

use crate::measure::{Round, Sample, Start, Stopwatch};
use crate::peers::only_user::OnlyUser;
use crate::workloads::pairs::Pair;
use crate::workloads::pool_calls::pool_round;
use crate::workloads::route::{Load, Route};
use std::io;
use std::sync::{Mutex, Wait};
use std::time::CpuClock;

/// The most mutexes that are measured of ours. One takes 10 kilobytes and more.
const MOST_OF_OURS: usize = 4_096;

/// A round of locks and unlocks: of the mutexes of a pool, of as many of std's, and of ours unless those would be too large.
pub fn round<R: Wait + CpuClock + AllocGlobal>(rt: &R, load: Load) -> io::Result<Round> {
    let ours = if load.mutexes <= MOST_OF_OURS {
        Some(ours(rt, load)?)
    } else {
        None
    };
    Ok(Round {
        ours,
        pool: Some(pool_round::<R, Pair>(rt, load, Start::Free)?),
        standard: Some(standard(rt, load)?),
        ..Round::NONE
    })
}

/// A round with mutexes of ours.
fn ours<R: Wait + CpuClock + AllocGlobal>(rt: &R, load: Load) -> io::Result<Sample> {
    let route = Route::new(rt.alloc(), load)?;
    let mut users = Vec::new(rt.alloc());
    for _ in 0..load.mutexes.max(1) {
        users.push(OnlyUser::new(rt.alloc())?)?;
    }
    our_calls(rt, &mut users, route)
}

/// A round with mutexes of std's.
fn standard<R: Wait + CpuClock + AllocGlobal>(rt: &R, load: Load) -> io::Result<Sample> {
    let route = Route::new(rt.alloc(), load)?;
    let mut mutexes = Vec::new(rt.alloc());
    for _ in 0..load.mutexes.max(1) {
        mutexes.push(Mutex::new(0u64))?;
    }
    standard_calls(rt, &mutexes, route)
}

/// Makes the calls of our mutexes, timed.
#[inline(never)]
fn our_calls<R: Wait + CpuClock>(
    rt: &R,
    users: &mut [OnlyUser],
    mut route: Route,
) -> io::Result<Sample> {
    let calls = route.calls;
    let watch = Stopwatch::start(rt)?;
    let mut done = 0u64;
    for _ in 0..calls {
        if let Some(user) = users.get_mut(route.next_mutex()) {
            if user.lock_and_unlock(rt) {
                done = done.wrapping_add(1);
            }
        }
    }
    watch.stop(rt, calls, done)
}

/// Makes the calls of std's mutexes, timed.
#[inline(never)]
fn standard_calls<R: Wait + CpuClock>(
    rt: &R,
    mutexes: &[Mutex<u64>],
    mut route: Route,
) -> io::Result<Sample> {
    let calls = route.calls;
    let watch = Stopwatch::start(rt)?;
    let mut done = 0u64;
    for _ in 0..calls {
        if let Some(mutex) = mutexes.get(route.next_mutex()) {
            drop(mutex.lock(rt));
            done = done.wrapping_add(1);
        }
    }
    watch.stop(rt, calls, done)
}
