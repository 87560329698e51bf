//! How a condvar is closed. It is closed together with its inner mutex.
ghost use Rattle.std.specs.Prelude.{◌≡◌, ℕ, IfErr, IfOk, Some};
ghost use mathlib.Core.Option.{some};
ghost use lib.ListN.{get_elem?};
ghost use Rattle.lfm_mutex.specs.Close.{AllStand, FirstMissing, HaveRun, LeftLast, LeftByLastHold};
ghost use Rattle.lfm_condvar.specs.Belongs.{OfCondvar, SameCondvar, cond_limits, cond_past, cond_sight};
ghost use Rattle.lfm_condvar.specs.Keeping.{Since};

use crate::cond_seat::CondSeat;
use crate::condvar::Condvar;
use lfm_model::Missing;

impl Condvar {
    /// Closes the condvar if all its cond seats are handed in, and returns how many tickets were sent and how many were added.
    /// If these differ, user seats still wait after a `begin_wait`, and only `send_lock` of the user mutex can send them. These
    /// numbers are those of the list as the last hold left it. That is the list that the cond seat with the greatest `ended`
    /// left, or 0 and 0 if no cond seat has held the list. The trails are then the cond seats' parts of one run of the inner
    /// mutex, from its start to a free mutex. If a cond seat is missing, it hands back the condvar and the cond seats, and
    /// names the first that is missing. It compares each number of a cond seat with each cond seat handed in, allocates no
    /// memory and never waits.
    pub fn close(
        self,
        seats: Vec<CondSeat>,
    ) -> Result<(u64, u64), (Condvar, Vec<CondSeat>, Missing)>
        requires belongs { (j : ℕ) (s : _) → get_elem? seats.items j ≡ some s → OfCondvar s self }
        ensures missing { IfErr result (λ e. SameCondvar self e.0 × (e.1 ≡ seats) × FirstMissing (λ s. cond_sight s) seats.items (cond_limits self).seats e.2) }
        ensures all { IfOk result (λ _. AllStand (λ s. cond_sight s) seats.items (cond_limits self).seats) }
        ensures numbers { IfOk result (λ r. (w : _) × (r.0 ≡ w.sent) × (r.1 ≡ w.added) × ((j : ℕ) (s : _) (l : _) → get_elem? seats.items j ≡ some s → (cond_sight s).last ≡ Some l → Since (cond_sight s).number l w) × LeftLast (λ s. cond_sight s) seats.items w × LeftByLastHold (λ s. cond_sight s) seats.items w) }
        ensures run { IfOk result (λ _. HaveRun (λ s. cond_sight s) (λ s. cond_past s) (cond_limits self) seats.items) }
    {
        let Condvar {
            inner,
            seats: user_seats,
        } = self;
        match inner.close(seats) {
            Ok(waiters) => Ok(waiters.numbers()),
            Err((inner, seats, missing)) => Err((
                Condvar {
                    inner,
                    seats: user_seats,
                },
                seats,
                missing,
            )),
        }
    }
}
