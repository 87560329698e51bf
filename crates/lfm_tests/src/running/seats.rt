//! A running mutex with its one or two seats, and how they are handed back to close it. This module has no test.
ghost use Rattle.lfm_mutex.specs.Belongs.{OfMutex};
ghost use Rattle.std.specs.Prelude.{◌≡◌, ℕ, [], IfOk, IfSome};
ghost use mathlib.Core.Option.{some};
ghost use lib.ListN.{get_elem?};

use crate::seeing::sees;
use lfm_model::{Missing, SeatNo};
use lfm_mutex::{Mutex, Seat};
use std::alloc::Global;
use std::process::Abort;
use std::test::Fail;

/// The two seats of a mutex that has two.
fn take_two(mutex: &Mutex<u64>, mut seats: Vec<Seat<u64>>) -> Option<(Seat<u64>, Seat<u64>)>
    requires { (j : ℕ) (s : _) → get_elem? seats.items j ≡ some s → OfMutex s mutex.now }
    ensures { IfSome result (λ p. OfMutex p.0 mutex.now × OfMutex p.1 mutex.now) }
{
    let _mutex = mutex;
    let second = seats.pop()?;
    let first = seats.pop()?;
    Some((first, second))
}

/// The seat of a mutex that has one.
fn take_one(mutex: &Mutex<u64>, mut seats: Vec<Seat<u64>>) -> Option<Seat<u64>>
    requires { (j : ℕ) (s : _) → get_elem? seats.items j ≡ some s → OfMutex s mutex.now }
    ensures { IfSome result (λ s. OfMutex s mutex.now) }
{
    let _mutex = mutex;
    let seat = seats.pop()?;
    Some(seat)
}

/// A mutex of two seats, with a budget of 8 takes each, and its seats.
pub fn pair(alloc: Global) -> Result<(Mutex<u64>, Seat<u64>, Seat<u64>), Fail>
    ensures { IfOk result (λ r. OfMutex r.1 r.0 × OfMutex r.2 r.0) }
{
    pair_with(alloc, 8)
}

/// A mutex of two seats, with this budget of takes each, and its seats.
pub fn pair_with(alloc: Global, budget: u64) -> Result<(Mutex<u64>, Seat<u64>, Seat<u64>), Fail>
    ensures { IfOk result (λ r. OfMutex r.1 r.0 × OfMutex r.2 r.0) }
{
    let (mutex, seats) = Mutex::new(alloc, 2, budget, 0u64)?;
    let Some((first, second)) = take_two(&mutex, seats) else {
        return Err(Fail::new("two seats"));
    };
    Ok((mutex, first, second))
}

/// A mutex of one seat that guards this value, with a budget of one take, and its seat.
pub fn alone(alloc: Global, value: u64) -> Result<(Mutex<u64>, Seat<u64>), Fail>
    ensures { IfOk result (λ r. OfMutex r.1 r.0) }
{
    let (mutex, seats) = Mutex::new(alloc, 1, 1, value)?;
    let Some(seat) = take_one(&mutex, seats) else {
        return Err(Fail::new("one seat"));
    };
    Ok((mutex, seat))
}

/// Hands both seats back, which must not close the mutex yet. Returns what is missing, and all three again.
fn kept(
    mutex: Mutex<u64>,
    first: Seat<u64>,
    second: Seat<u64>,
    mut room: Vec<Seat<u64>>,
) -> Option<(Mutex<u64>, Seat<u64>, Seat<u64>, Missing)>
    requires first { OfMutex first mutex }
    requires second { OfMutex second mutex }
    requires empty { room.items ≡ [] }
    ensures { IfSome result (λ r. OfMutex r.1 r.0 × OfMutex r.2 r.0) }
{
    room.push(first).ok()?;
    room.push(second).ok()?;
    let Err((mutex, seats, missing)) = mutex.close(room) else {
        return None;
    };
    let (first, second) = take_two(&mutex, seats)?;
    Some((mutex, first, second, missing))
}

/// Hands both seats back, and checks that the mutex is not closed because this is missing. Returns all three again.
pub fn stays_open<R: Abort>(
    rt: &R,
    mutex: Mutex<u64>,
    first: Seat<u64>,
    second: Seat<u64>,
    room: Vec<Seat<u64>>,
    wanted: Missing,
) -> (Mutex<u64>, Seat<u64>, Seat<u64>)
    requires first { OfMutex first mutex }
    requires second { OfMutex second mutex }
    requires empty { room.items ≡ [] }
    ensures first { OfMutex result.1 result.0 }
    ensures second { OfMutex result.2 result.0 }
{
    let Some((mutex, first, second, missing)) = kept(mutex, first, second, room) else {
        panic!(rt; "it was closed, where this was missing: {wanted:?}")
    };
    sees(rt, "what is missing", &missing, &wanted);
    (mutex, first, second)
}

/// Hands one seat back, which must not close the mutex yet. Returns what is missing, and both again.
fn kept_alone(
    mutex: Mutex<u64>,
    seat: Seat<u64>,
    mut room: Vec<Seat<u64>>,
) -> Option<(Mutex<u64>, Seat<u64>, Missing)>
    requires seat { OfMutex seat mutex }
    requires empty { room.items ≡ [] }
    ensures same { IfSome result (λ r. r.0 ≡ mutex) }
    ensures seat { IfSome result (λ r. OfMutex r.1 r.0) }
{
    room.push(seat).ok()?;
    let Err((mutex, seats, missing)) = mutex.close(room) else {
        return None;
    };
    let seat = take_one(&mutex, seats)?;
    Some((mutex, seat, missing))
}

/// Hands only seat 1 back, and checks that the mutex is not closed because seat 2 is missing. Returns both again.
pub fn lacks_the_second<R: Abort>(
    rt: &R,
    mutex: Mutex<u64>,
    first: Seat<u64>,
    room: Vec<Seat<u64>>,
) -> (Mutex<u64>, Seat<u64>)
    requires first { OfMutex first mutex }
    requires empty { room.items ≡ [] }
    ensures same { result.0 ≡ mutex }
    ensures first { OfMutex result.1 result.0 }
{
    let Some((mutex, first, missing)) = kept_alone(mutex, first, room) else {
        panic!(rt; "it was closed without seat 2")
    };
    let wanted = Missing::NotBack(SeatNo::known(2));
    sees(rt, "what is missing", &missing, &wanted);
    (mutex, first)
}

/// Hands both seats back, which must close the mutex. Returns its value.
pub fn closed(
    mutex: Mutex<u64>,
    first: Seat<u64>,
    second: Seat<u64>,
    mut room: Vec<Seat<u64>>,
) -> Option<u64>
    requires first { OfMutex first mutex }
    requires second { OfMutex second mutex }
    requires empty { room.items ≡ [] }
{
    room.push(first).ok()?;
    room.push(second).ok()?;
    mutex.close(room).ok()
}

/// Hands the only seat back, which must close the mutex. Returns its value.
pub fn closed_alone(mutex: Mutex<u64>, seat: Seat<u64>, mut room: Vec<Seat<u64>>) -> Option<u64>
    requires seat { OfMutex seat mutex }
    requires empty { room.items ≡ [] }
{
    room.push(seat).ok()?;
    mutex.close(room).ok()
}
