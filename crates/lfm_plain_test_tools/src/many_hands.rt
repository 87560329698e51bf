//! A mutex around a number and a plain condvar, with a hand for each of several threads, and the close of the condvar. It
//! has no test.
ghost use Rattle.std.specs.Prelude.{◌≡◌, ℕ, All, IfSome, []};
ghost use mathlib.Core.Option.{some};
ghost use lib.ListN.{get_elem?};
ghost use Rattle.lfm_mutex.specs.Belongs.{OfMutex};
ghost use Rattle.lfm_plain_condvar.specs.Belongs.{OfPlain};
ghost use Rattle.lfm_plain_test_tools.specs.Hands.{IsHandOf};

use crate::hands::Hand;
use lfm_mutex::{Mutex, Seat};
use lfm_plain_condvar::{PlainCondvar, PlainSeat, WaitCounts};
use lfm_protocol::MAX_BUDGET;
use std::alloc::Global;

/// The last seat of a mutex. None if there is none.
fn last_seat(mutex: &Mutex<u64>, seats: &mut Vec<Seat<u64>>) -> Option<Seat<u64>>
    requires { (j : ℕ) (s : _) → get_elem? seats.old.items j ≡ some s → OfMutex s mutex.now }
    ensures one { IfSome result (λ s. OfMutex s mutex.now) }
    ensures rest { (j : ℕ) (s : _) → get_elem? seats.new.items j ≡ some s → OfMutex s mutex.now }
{
    let _mutex = mutex;
    let seat = seats.pop()?;
    Some(seat)
}

/// The last seat of a plain condvar. None if there is none.
fn last_plain_seat(condvar: &PlainCondvar, seats: &mut Vec<PlainSeat>) -> Option<PlainSeat>
    requires { (j : ℕ) (s : _) → get_elem? seats.old.items j ≡ some s → OfPlain s condvar.now }
    ensures one { IfSome result (λ s. OfPlain s condvar.now) }
    ensures rest { (j : ℕ) (s : _) → get_elem? seats.new.items j ≡ some s → OfPlain s condvar.now }
{
    let _condvar = condvar;
    let seat = seats.pop()?;
    Some(seat)
}

/// A hand for each of the threads, of the last seats.
fn dealt(
    mutex: &Mutex<u64>,
    condvar: &PlainCondvar,
    threads: u64,
    seats: Vec<Seat<u64>>,
    plain_seats: Vec<PlainSeat>,
    mut hands: Vec<Hand>,
) -> Option<Vec<Hand>>
    requires seats { (j : ℕ) (s : _) → get_elem? seats.items j ≡ some s → OfMutex s mutex.now }
    requires plain { (j : ℕ) (s : _) → get_elem? plain_seats.items j ≡ some s → OfPlain s condvar.now }
    requires empty { hands.items ≡ [] }
    ensures { IfSome result (λ v. All (λ h. IsHandOf h mutex.now condvar.now) v.items) }
{
    let mut user_seats = seats;
    let mut cond_seats = plain_seats;
    'dealing: for _ in 0..threads {
        let seat = last_seat(mutex, &mut user_seats)?;
        let cond = last_plain_seat(condvar, &mut cond_seats)?;
        let Ok(()) = hands.push(Hand { seat, cond }) else {
            return None;
        };
    }
    Some(hands)
}

/// A mutex around 0 and a plain condvar, both with the pace that they have when they are new, and a hand for each of the
/// threads. None if there is no memory, or if no mutex can have this number of seats.
pub fn hands_of(alloc: Global, threads: u64) -> Option<(Mutex<u64>, PlainCondvar, Vec<Hand>)>
    ensures { IfSome result (λ r. All (λ h. IsHandOf h r.0 r.1) r.2.items) }
{
    let Ok((mutex, seats)) = Mutex::new(alloc, threads, MAX_BUDGET, 0u64) else {
        return None;
    };
    let Ok((condvar, plain_seats)) = PlainCondvar::new(alloc, threads, MAX_BUDGET) else {
        return None;
    };
    let hands = dealt(
        &mutex,
        &condvar,
        threads,
        seats,
        plain_seats,
        Vec::new(alloc),
    )?;
    Some((mutex, condvar, hands))
}

/// The plain seats of all hands.
fn plain_seats_of(
    mutex: &Mutex<u64>,
    condvar: &PlainCondvar,
    hands: Vec<Hand>,
    mut room: Vec<PlainSeat>,
) -> Option<Vec<PlainSeat>>
    requires hands { All (λ h. IsHandOf h mutex.now condvar.now) hands.items }
    requires empty { room.items ≡ [] }
    ensures { IfSome result (λ v. (j : ℕ) (s : _) → get_elem? v.items j ≡ some s → OfPlain s condvar.now) }
{
    let _mutex = mutex;
    let _condvar = condvar;
    'sorting: for hand in hands {
        let Hand { seat: _, cond } = hand;
        let Ok(()) = room.push(cond) else {
            return None;
        };
    }
    Some(room)
}

/// Closes the condvar, and returns its counts. None if a hand is missing, or no memory is left.
pub fn counts_at_close(
    alloc: Global,
    mutex: &Mutex<u64>,
    condvar: PlainCondvar,
    hands: Vec<Hand>,
) -> Option<WaitCounts>
    requires { All (λ h. IsHandOf h mutex.now condvar) hands.items }
{
    let seats = plain_seats_of(mutex, &condvar, hands, Vec::new(alloc))?;
    condvar.close(seats).ok()
}
