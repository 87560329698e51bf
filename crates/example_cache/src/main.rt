//! Four threads look up the sums of divisors of numbers in one small cache. No thread waits for another: if the cache is held,
//! a thread adds the divisors up itself.
#![tactic(auto)]

ghost use Rattle.lfm_mutex.specs.Belongs.{OfMutex};
ghost use Rattle.lfm_mutex.specs.calls.Sections.{StandsAs};
ghost use Rattle.lfm_mutex.specs.calls.Sight.{sight};

mod cache;

use crate::cache::Cache;
use anyhow::bail;
use lfm_model::Refusal;
use lfm_mutex::{Mutex, Seat};
use std::sync::atomic::{AtomicU64, Ordering};

/// How many numbers each thread looks up.
const ROUNDS: u64 = 1_000;

/// How many times a seat may take the mutex: twice for a number, to look it up and to put it in.
const BUDGET: u64 = 2_000;

/// The numbers are 1 to 40, again and again.
const NUMBERS: u64 = 40;

/// The sum of all numbers that divide this one.
fn sum_of_divisors(number: u64) -> u64 {
    let mut sum = 0u64;
    for divisor in 1..=number {
        if number % divisor == 0 {
            sum = sum.wrapping_add(divisor);
        }
    }
    sum
}

/// The sum of the divisors. It is read from the cache if the cache has it and no other seat holds the mutex. Otherwise it is
/// computed, and put into the cache if no other seat holds the mutex at that time.
fn look_up(mutex: &Mutex<Cache>, seat: &mut Seat<Cache>, number: u64) -> Result<u64, Refusal>
    requires { OfMutex seat.old mutex.now }
    ensures belongs { OfMutex seat.new mutex.now }
    ensures same { StandsAs (sight seat.old) (sight seat.new) }
{
    match mutex.try_with(seat, |cache| cache.find(number)) {
        Ok(Some(sum)) => return Ok(sum),
        Ok(None) | Err(Refusal::Busy) => {}
        Err(refusal) => return Err(refusal),
    }
    let sum = sum_of_divisors(number);
    match mutex.try_with(seat, |cache| cache.put(number, sum)) {
        Ok(()) | Err(Refusal::Busy) => Ok(sum),
        Err(refusal) => Err(refusal),
    }
}

/// Runs four threads, and prints the sum of all that they looked up.
fn main(rt: HostRuntime) -> anyhow::Result<()> {
    let (mutex, seats) = Mutex::new(rt.alloc(), 4, BUDGET, Cache::new())?;
    let total = AtomicU64::new(0);
    // if a thread can't be started, none looks anything up, and the program ends with an error
    let seats = mutex.run(
        &rt,
        seats,
        ROUNDS,
        &|round: u64, seat: &mut Seat<Cache>| -> Result<(), Refusal>
            requires { OfMutex seat.old mutex }
        {
            let sum = look_up(&mutex, seat, round % NUMBERS + 1)?;
            total.fetch_add(sum, Ordering::SeqCst);
            Ok(())
        },
    )?;
    if mutex.close(seats).is_err() {
        bail!("a seat still holds the mutex");
    }
    println!(rt; "{}", total.load(Ordering::SeqCst))?;
    Ok(())
}
