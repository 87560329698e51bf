//! A mutex with two seats, both in hand.
ghost use Rattle.std.specs.Prelude.{◌≡◌, ℕ, IfSome};
ghost use Rattle.lfm_mutex.specs.Belongs.{OfMutex, limits_of};
ghost use mathlib.Core.Option.{some};
ghost use lib.ListN.{get_elem?};

use lfm_mutex::{Kept, Mutex, Seat};
use std::alloc::Global;

/// The two seats of a mutex that has two.
fn two_seats<T: Kept>(mutex: &Mutex<T>, mut seats: Vec<Seat<T>>) -> Option<(Seat<T>, Seat<T>)>
    requires { (j : ℕ) (s : _) → get_elem? seats.items j ≡ some s → OfMutex s mutex.now }
    ensures { IfSome result (λ p. OfMutex p.0 mutex.now × OfMutex p.1 mutex.now) }
{
    let _mutex = mutex;
    let second = seats.pop()?;
    let first = seats.pop()?;
    Some((first, second))
}

/// A mutex around this value, and its two seats, each with this budget.
pub fn mutex_of_two<T: Kept>(
    alloc: Global,
    budget: u64,
    value: T,
) -> Option<(Mutex<T>, Seat<T>, Seat<T>)>
    requires fits { T.fits value 0 }
    ensures seats { IfSome result (λ r. OfMutex r.1 r.0 × OfMutex r.2 r.0) }
    ensures two { IfSome result (λ r. (limits_of r.0).seats ≡ 2) }
{
    let Ok((mutex, seats)) = Mutex::new(alloc, 2, budget, value) else {
        return None;
    };
    let (first, second) = two_seats(&mutex, seats)?;
    Some((mutex, first, second))
}
