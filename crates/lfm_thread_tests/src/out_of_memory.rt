//! Memory that runs out while a condvar or a monitor is made, in the rounds of a mutex and in the run of a script, also as a
//! thread is started. Each test whose name contains `memory` also passes if a request was refused: it then checks that nothing
//! was written, and prints that memory was refused. A script lets each request of these tests fail, one in each run.
ghost use Rattle.lfm_mutex.specs.AllSeats.{SeatsOf};
ghost use Rattle.lfm_mutex.specs.Belongs.{OfMutex};

use crate::refused_memory::{sees_memory, tells_refused};
use crate::seeing::sees;
use crate::work::scripts::{WAITED, WAITING, answered};
use lfm_condvar::Condvar;
use lfm_model::{NewFault, Refusal};
use lfm_monitor::Monitor;
use lfm_mutex::{Mutex, Seat};
use lfm_program::{OpenGate, WorkFault};
use lfm_test_tools::counted::Counted;
use std::alloc::Global;
use std::process::Abort;
use std::sync::Wait;
use std::sync::atomic::{AtomicU64, Ordering};
use std::thread::Threads;

#[test]
fn condvar_and_memory(rt: HostRuntime) {
    match Condvar::new(rt.alloc(), 2, 1) {
        Ok((_, cond_seats)) => sees(&rt, "the cond seats", &cond_seats.len(), &2),
        Err(fault) => sees_memory(&rt, &fault, &NewFault::Memory),
    }
}

/// Makes a monitor, or checks that memory was refused and the object dropped.
fn makes_monitor_or_drops_object<R: Abort + Print>(
    rt: &R,
    alloc: Global,
    passes: u64,
    conditions: u64,
) {
    let drops = AtomicU64::new(0);
    match Monitor::new(alloc, passes, 1, conditions, Counted { drops: &drops }) {
        Ok((_monitor, made)) => {
            sees(rt, "the passes", &(made.len() as u64), &passes);
            sees(rt, "no drop", &drops.load(Ordering::SeqCst), &0);
        }
        Err(fault) => {
            sees_memory(rt, &fault, &NewFault::Memory);
            sees(rt, "one drop", &drops.load(Ordering::SeqCst), &1);
        }
    }
}

#[test]
fn monitor_and_memory(rt: HostRuntime) {
    makes_monitor_or_drops_object(&rt, rt.alloc(), 2, 0);
}

#[test]
fn monitor_with_two_conditions_and_memory(rt: HostRuntime) {
    makes_monitor_or_drops_object(&rt, rt.alloc(), 3, 2);
}

#[test]
fn work_and_memory(rt: HostRuntime) {
    let mut written = [0; 64];
    let mut writer = written.as_mut_slice();
    let mut reader = WAITING.as_slice();
    let outcome = answered(&rt, &mut reader, &mut writer, &OpenGate);
    let room = writer.len();
    match outcome {
        Ok(none_refused) => {
            sees(&rt, "no worker was refused", &none_refused, &true);
            sees(&rt, "the room", &room, &(64 - WAITED.len()));
        }
        Err(fault) => {
            sees_memory(&rt, &fault, &WorkFault::Memory);
            sees(&rt, "the room", &room, &64);
        }
    }
}

/// Both seats of a mutex make one round, which adds 1. Or memory is refused: then no round is made, and both seats are back.
fn rounds_or_hands_back<R: Abort + Print + Threads + Wait + Sync>(
    rt: &R,
    mutex: Mutex<u64>,
    seats: Vec<Seat<u64>>,
)
    requires { SeatsOf seats.items mutex }
{
    let run = mutex.run(
        rt,
        seats,
        1,
        &|_: u64, seat: &mut Seat<u64>| -> Result<(), Refusal>
            requires { OfMutex seat.old mutex }
        { mutex.with(rt, seat, |total| *total = total.wrapping_add(1)) },
    );
    let (seats, wanted) = match run {
        Ok(seats) => (seats, 2),
        // memory was refused before a thread was started, or as one was started
        Err(not_started) => {
            tells_refused(rt);
            (not_started.jobs, 0)
        }
    };
    let total = mutex.close(seats).ok();
    sees(rt, "the value", &total, &Some(wanted));
}

#[test]
fn rounds_and_memory(rt: HostRuntime) {
    match Mutex::new(rt.alloc(), 2, 1, 0u64) {
        Ok((mutex, seats)) => rounds_or_hands_back(&rt, mutex, seats),
        Err(fault) => sees_memory(&rt, &fault, &NewFault::Memory),
    }
}
