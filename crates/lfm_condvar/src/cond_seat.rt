//! The cond seat: a thread's handle of a condvar. It has a seat of the inner mutex, which is private to this module. So a
//! borrowed cond seat can lock the inner mutex only through the calls of `hold`, and these unlock it before they return.
ghost use Rattle.std.specs.Prelude.{◌≡◌, ◌≤◌, ℕ, [], vec_capacity, vec_len};
ghost use mathlib.Core.Option.{some};
ghost use lib.ListN.{get_elem?};
ghost use Rattle.lfm_mutex.specs.calls.Sight.{sight};
ghost use Rattle.lfm_condvar.specs.Holds.{CondKept};

mod hold;

use crate::waiters::Waiters;
pub(crate) use hold::Enlisted;
use lfm_mutex::{Holder, Seat};

/// A thread's handle of a condvar. It may move between threads. Each call borrows it until the call returns. Between calls it
/// holds nothing.
#[derive(Drop)]
pub struct CondSeat {
    seat: Seat<Waiters>,
    pub ghost kept: { CondKept (sight seat) },
}

impl Holder<Waiters> for CondSeat {
    ghost seat_of = { λ c. c.seat };

    /// The seat of the inner mutex.
    fn seat(&self) -> &Seat<Waiters> {
        &self.seat
    }

    /// The seat of the inner mutex, which `close` needs to close that mutex.
    fn into_seat(self) -> Seat<Waiters> {
        self.seat
    }
}

/// Makes each seat of an inner mutex a cond seat.
pub(crate) fn as_cond_seats(
    seats: Vec<Seat<Waiters>>,
    mut cond_seats: Vec<CondSeat>,
) -> Vec<CondSeat>
    requires room { vec_len seats ≤ vec_capacity cond_seats }
    requires none { cond_seats.items ≡ [] }
    requires kept { (j : ℕ) (s : _) → get_elem? seats.items j ≡ some s → CondKept (sight s) }
    ensures len { vec_len result ≡ vec_len seats }
    ensures wraps { (j : ℕ) (s : _) → get_elem? result.items j ≡ some s → get_elem? seats.items j ≡ some s.seat }
{
    'wrapped: for seat in seats {
        cond_seats.push_reserved(CondSeat { seat });
    }
    cond_seats
}
