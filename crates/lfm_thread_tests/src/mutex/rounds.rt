//! Rounds that each of four seats makes in a thread of its own, with sections of the mutex.
ghost use Rattle.lfm_mutex.specs.Belongs.{OfMutex};
ghost use Rattle.lfm_mutex.specs.calls.Sections.{StandsAs};
ghost use Rattle.lfm_mutex.specs.calls.Sight.{sight};

use crate::seeing::{holds, sees};
use lfm_model::Refusal;
use lfm_mutex::{Mutex, Seat};
use std::alloc::Global;
use std::sync::atomic::{AtomicU64, Ordering};
use std::sync::{Barrier, Wait};
use std::test::Fail;
use std::thread::Threads;

/// What a seat does in a round.
trait Round<R: Wait>: Sync {
    /// Makes the round with this number.
    fn make(
        &self,
        rt: &R,
        mutex: &Mutex<u64>,
        seat: &mut Seat<u64>,
        number: u64,
    ) -> Result<(), Refusal>
        requires { OfMutex seat.old mutex.now }
        ensures belongs { OfMutex seat.new mutex.now }
        ensures same { StandsAs (sight seat.old) (sight seat.new) };
}

/// Whether these are four seats, in their order, of which none holds.
fn are_back(seats: &[Seat<u64>]) -> bool {
    let mut are_back = seats.len() == 4;
    for (place, seat) in seats.iter().enumerate() {
        are_back &= seat.number().get() == place as u64 + 1 && seat.depth() == 0;
    }
    are_back
}

/// Four seats with this budget make this number of rounds, and are handed back in their order. Returns the value with which the
/// mutex, made around 0, is closed.
fn rounded<R: Threads + Wait + Sync, M: Round<R>>(
    rt: &R,
    alloc: Global,
    budget: u64,
    rounds: u64,
    round: &M,
) -> Result<u64, Fail> {
    let (mutex, seats) = Mutex::new(alloc, 4, budget, 0u64)?;
    let seats = mutex.run(
        rt,
        seats,
        rounds,
        &|number: u64, seat: &mut Seat<u64>| -> Result<(), Refusal>
            requires { OfMutex seat.old mutex }
        { round.make(rt, &mutex, seat, number) },
    )?;
    if !are_back(&seats) {
        return Err(Fail::new("the seats were not back in their order"));
    }
    let Ok(total) = mutex.close(seats) else {
        return Err(Fail::new("all seats were back"));
    };
    Ok(total)
}

/// Adds 1.
struct AddsOne;

impl<R: Wait> Round<R> for AddsOne {
    /// Adds 1 in a section.
    fn make(
        &self,
        rt: &R,
        mutex: &Mutex<u64>,
        seat: &mut Seat<u64>,
        number: u64,
    ) -> Result<(), Refusal> {
        let _number = number;
        mutex.with(rt, seat, |total| *total = total.wrapping_add(1))
    }
}

#[test]
fn rounds_of_four_seats(rt: HostRuntime) -> Result<(), Fail> {
    let total = rounded(&rt, rt.alloc(), 1_000, 1_000, &AddsOne)?;
    sees(&rt, "the value", &total, &4_000);
    Ok(())
}

#[test]
fn rounds_end_at_a_refusal(rt: HostRuntime) -> Result<(), Fail> {
    let total = rounded(&rt, rt.alloc(), 250, 1_000, &AddsOne)?;
    sees(&rt, "the value", &total, &1_000);
    Ok(())
}

/// Adds the number of the round. Seat 2 is refused from round 10 on.
struct AddsNumber;

impl<R: Wait> Round<R> for AddsNumber {
    /// Adds the round's number, or is refused.
    fn make(
        &self,
        rt: &R,
        mutex: &Mutex<u64>,
        seat: &mut Seat<u64>,
        number: u64,
    ) -> Result<(), Refusal> {
        if seat.number().get() == 2 && number >= 10 {
            return Err(Refusal::Busy);
        }
        mutex.with(rt, seat, |total| *total = total.wrapping_add(number))
    }
}

/// Rounds 0 to 99 of three seats, and 0 to 9 of seat 2.
#[test]
fn refusal_ends_the_rounds_of_one_seat(rt: HostRuntime) -> Result<(), Fail> {
    let total = rounded(&rt, rt.alloc(), 100, 100, &AddsNumber)?;
    sees(&rt, "the value", &total, &(3 * 4_950 + 45));
    Ok(())
}

/// Adds 1 to a total below 100. At any other total it returns early.
struct AddsUpTo100;

impl<R: Wait> Round<R> for AddsUpTo100 {
    /// Adds 1, or returns early from the section.
    fn make(
        &self,
        rt: &R,
        mutex: &Mutex<u64>,
        seat: &mut Seat<u64>,
        number: u64,
    ) -> Result<(), Refusal> {
        let _number = number;
        mutex.with(rt, seat, |total| {
            if *total >= 100 {
                return;
            }
            *total = total.wrapping_add(1);
        })
    }
}

#[test]
fn sections_that_return_early(rt: HostRuntime) -> Result<(), Fail> {
    let total = rounded(&rt, rt.alloc(), 100, 100, &AddsUpTo100)?;
    sees(&rt, "the value", &total, &100);
    Ok(())
}

/// Adds 1 if it acquires the mutex at once. Counts the sections that were executed, and those that found the mutex held.
#[derive(Clone, Copy)]
struct TriesToAdd<'a> {
    executed: &'a AtomicU64,
    busy: &'a AtomicU64,
}

impl<R: Wait> Round<R> for TriesToAdd<'_> {
    /// Tries, and counts how it ended.
    fn make(
        &self,
        rt: &R,
        mutex: &Mutex<u64>,
        seat: &mut Seat<u64>,
        number: u64,
    ) -> Result<(), Refusal> {
        let (_rt, _number) = (rt, number);
        let counted = match mutex.try_with(seat, |total| *total = total.wrapping_add(1)) {
            Ok(()) => self.executed,
            Err(Refusal::Busy) => self.busy,
            Err(refusal) => return Err(refusal),
        };
        counted.fetch_add(1, Ordering::SeqCst);
        Ok(())
    }
}

#[test]
fn sections_that_never_wait(rt: HostRuntime) -> Result<(), Fail> {
    let (executed, busy) = (AtomicU64::new(0), AtomicU64::new(0));
    let tries = TriesToAdd {
        executed: &executed,
        busy: &busy,
    };
    let total = rounded(&rt, rt.alloc(), 1_000, 1_000, &tries)?;
    let executed = executed.load(Ordering::SeqCst);
    holds(&rt, "a section was executed", executed > 0);
    sees(&rt, "the value", &total, &executed);
    let all = executed.wrapping_add(busy.load(Ordering::SeqCst));
    sees(&rt, "all sections", &all, &4_000);
    Ok(())
}

/// Waits until all four seats have reached this round.
#[derive(Clone, Copy)]
struct Meets<'a> {
    all: &'a Barrier,
}

impl<R: Wait> Round<R> for Meets<'_> {
    /// Waits at the barrier, without the mutex.
    fn make(
        &self,
        rt: &R,
        mutex: &Mutex<u64>,
        seat: &mut Seat<u64>,
        number: u64,
    ) -> Result<(), Refusal> {
        let (_mutex, _seat, _number) = (mutex, seat, number);
        self.all.wait(rt);
        Ok(())
    }
}

#[test]
fn rounds_that_wait_for_one_another(rt: HostRuntime) -> Result<(), Fail> {
    let all = Barrier::new(4);
    let total = rounded(&rt, rt.alloc(), 1, 3, &Meets { all: &all })?;
    sees(&rt, "the value", &total, &0);
    Ok(())
}
