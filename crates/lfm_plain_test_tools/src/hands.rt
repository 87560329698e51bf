//! A mutex around a number and a plain condvar, and each thread's seats of both. It has no test.
ghost use Rattle.std.specs.Prelude.{◌≡◌, ℕ, IfSome};
ghost use mathlib.Core.Option.{some};
ghost use lib.ListN.{get_elem?};
ghost use Rattle.lfm_mutex.specs.Belongs.{OfMutex};
ghost use Rattle.lfm_plain_condvar.specs.Belongs.{OfPlain};
ghost use Rattle.lfm_plain_test_tools.specs.Hands.{IsHandOf};

use lfm_mutex::{Mutex, Pace, Seat};
use lfm_plain_condvar::{PlainCondvar, PlainSeat};
use lfm_protocol::MAX_BUDGET;
use std::alloc::Global;

/// A thread's seats.
#[derive(Drop)]
pub struct Hand {
    pub seat: Seat<u64>,
    pub cond: PlainSeat,
}

/// The last three seats of a mutex, in order.
fn last_seats(
    mutex: &Mutex<u64>,
    mut seats: Vec<Seat<u64>>,
) -> Option<(Seat<u64>, Seat<u64>, Seat<u64>)>
    requires { (j : ℕ) (s : _) → get_elem? seats.items j ≡ some s → OfMutex s mutex.now }
    ensures { IfSome result (λ p. OfMutex p.0 mutex.now × OfMutex p.1 mutex.now × OfMutex p.2 mutex.now) }
{
    let _mutex = mutex;
    let third = seats.pop()?;
    let second = seats.pop()?;
    let first = seats.pop()?;
    Some((first, second, third))
}

/// The last three seats of a plain condvar, in order.
fn last_plain_seats(
    condvar: &PlainCondvar,
    mut seats: Vec<PlainSeat>,
) -> Option<(PlainSeat, PlainSeat, PlainSeat)>
    requires { (j : ℕ) (s : _) → get_elem? seats.items j ≡ some s → OfPlain s condvar.now }
    ensures { IfSome result (λ p. OfPlain p.0 condvar.now × OfPlain p.1 condvar.now × OfPlain p.2 condvar.now) }
{
    let _condvar = condvar;
    let third = seats.pop()?;
    let second = seats.pop()?;
    let first = seats.pop()?;
    Some((first, second, third))
}

/// A mutex around 0 and a plain condvar, and three hands.
pub fn three_hands(alloc: Global) -> Option<(Mutex<u64>, PlainCondvar, Hand, Hand, Hand)>
    ensures { IfSome result (λ r. IsHandOf r.2 r.0 r.1 × IsHandOf r.3 r.0 r.1 × IsHandOf r.4 r.0 r.1) }
{
    let Ok((mutex, seats)) = Mutex::new(alloc, 3, MAX_BUDGET, 0u64) else {
        return None;
    };
    with_condvar(alloc, mutex, seats)
}

/// The same, with a mutex of this pace.
pub fn three_paced_hands(
    alloc: Global,
    pace: Pace,
) -> Option<(Mutex<u64>, PlainCondvar, Hand, Hand, Hand)>
    ensures { IfSome result (λ r. IsHandOf r.2 r.0 r.1 × IsHandOf r.3 r.0 r.1 × IsHandOf r.4 r.0 r.1) }
{
    let Ok((mut mutex, seats)) = Mutex::new(alloc, 3, MAX_BUDGET, 0u64) else {
        return None;
    };
    mutex.set_pace(pace);
    with_condvar(alloc, mutex, seats)
}

/// This mutex, a plain condvar, and three hands of the last seats.
fn with_condvar(
    alloc: Global,
    mutex: Mutex<u64>,
    seats: Vec<Seat<u64>>,
) -> Option<(Mutex<u64>, PlainCondvar, Hand, Hand, Hand)>
    requires { (j : ℕ) (s : _) → get_elem? seats.items j ≡ some s → OfMutex s mutex }
    ensures { IfSome result (λ r. IsHandOf r.2 r.0 r.1 × IsHandOf r.3 r.0 r.1 × IsHandOf r.4 r.0 r.1) }
{
    let Ok((condvar, plain_seats)) = PlainCondvar::new(alloc, 3, MAX_BUDGET) else {
        return None;
    };
    let (seat_1, seat_2, seat_3) = last_seats(&mutex, seats)?;
    let (cond_1, cond_2, cond_3) = last_plain_seats(&condvar, plain_seats)?;
    let first = Hand {
        seat: seat_1,
        cond: cond_1,
    };
    let second = Hand {
        seat: seat_2,
        cond: cond_2,
    };
    let third = Hand {
        seat: seat_3,
        cond: cond_3,
    };
    Some((mutex, condvar, first, second, third))
}
