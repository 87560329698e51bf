//! How a plain condvar is closed. It is closed together with its inner mutex. Before that, the wakers of all its plain seats
//! are gathered: a waiter that is still in the list would have a second waker of the same parker.
ghost use Rattle.std.specs.Prelude.{◌≡◌, ◌+◌, ◌<◌, ◌≤◌, ◌++◌, ◌∷◌, [], ℕ, IfErr, IfOk, Some};
ghost use mathlib.Core.Option.{some};
ghost use lib.ListN.{get_elem?};
ghost use Rattle.lfm_mutex.specs.Belongs.{limits_of};
ghost use Rattle.lfm_mutex.specs.Close.{AllStand, FirstMissing, HaveRun, LeftByLastHold, LeftLast};
ghost use Rattle.lfm_mutex.specs.calls.RunGoesOn.{past_of};
ghost use Rattle.lfm_mutex.specs.calls.Sight.{sight};
ghost use Rattle.lfm_plain_condvar.specs.Belongs.{HasWaker, OfPlain, SamePlain, inner_seats};
ghost use Rattle.lfm_plain_condvar.specs.Keeping.{HasCounts, Since};
ghost use Rattle.lfm_plain_condvar.specs.Parkers.{times};

use crate::condvar::PlainCondvar;
use crate::parkers::{GatheredWakers, Parkers};
use crate::plain_seat::PlainSeat;
use crate::waiters::{WaitCounts, Waiter, Waiters};
use lfm_model::Missing;
use std::mem::replace;

/// Takes the waker of a plain seat, and adds it to the others.
fn take_waker(parkers: &Parkers, seat: &mut PlainSeat, all: &mut GatheredWakers)
    requires has { HasWaker seat.old parkers.now × ((sight seat.old.seat).number ≤ parkers.now.seats) }
    requires all { all.old.seat.table_id ≡ parkers.now.table.shared.table_id }
    ensures same { seat.new.seat ≡ seat.old.seat }
    ensures all { all.new.seat.table_id ≡ all.old.seat.table_id }
    ensures has { all.new.seat.me.0.wakers ≡ all.old.seat.me.0.wakers ++ (sight seat.old.seat).number ∷ [] }
{
    let Some(waker) = replace(&mut seat.waker, None) else {
        unreachable!()
    };
    parkers.gather(waker, all);
}

/// Takes the wakers of all plain seats.
fn take_wakers(parkers: &Parkers, seats: &mut Vec<PlainSeat>) -> GatheredWakers
    requires have { (j : ℕ) (s : _) → get_elem? seats.old.items j ≡ some s → HasWaker s parkers.now × ((sight s.seat).number ≤ parkers.now.seats) }
    ensures same { inner_seats seats.new.items ≡ inner_seats seats.old.items }
    ensures all { result.seat.table_id ≡ parkers.now.table.shared.table_id }
    ensures has { (j : ℕ) (s : _) → get_elem? seats.old.items j ≡ some s → 0 < times (sight s.seat).number result.seat.me.0.wakers }
{
    let mut all = parkers.no_wakers();
    'gathered: for seat in seats.iter_mut() {
        take_waker(parkers, seat, &mut all);
    }
    all
}

/// Shows that no other waker of this waiter's parker is there.
fn has_no_other(parkers: &Parkers, all: &mut GatheredWakers, waiter: Waiter)
    requires waiter { (waiter.waker.number ≤ parkers.now.seats) × (waiter.waker.seat.table_id ≡ parkers.now.table.shared.table_id) }
    requires all { all.old.seat.table_id ≡ parkers.now.table.shared.table_id }
    ensures { times waiter.waker.number all.old.seat.me.0.wakers ≡ 0 }
{
    let Waiter { waker, ticket: _ } = waiter;
    parkers.gather(waker, all);
    parkers.show_each_once(all);
}

/// The counts of a list in which nobody waits, since the wakers of all parkers are elsewhere.
fn last_counts(parkers: &Parkers, mut all: GatheredWakers, mut waiters: Waiters) -> WaitCounts
    requires of { (waiters.seats ≡ parkers.now.seats) × (waiters.name.root.table_id ≡ parkers.now.table.shared.table_id) }
    requires all { all.seat.table_id ≡ parkers.now.table.shared.table_id }
    requires has { (k : ℕ) → 0 < k → k ≤ parkers.now.seats → 0 < times k all.seat.me.0.wakers }
    ensures counts { HasCounts result waiters }
    ensures none { result.woken + result.timed_out ≡ result.added }
{
    match waiters.take_oldest() {
        None => waiters.counts(),
        Some(waiter) => {
            has_no_other(parkers, &mut all, waiter);
            unreachable!()
        }
    }
}

impl PlainCondvar {
    /// Closes the condvar if all its plain seats are handed in, and returns how many waits were added to the list, woken and
    /// timed out. The last two add up to the first, since nobody waits then. These numbers are those of the list as the last
    /// hold left it: the list that the plain seat with the greatest `ended` left, or 0, 0 and 0 if no plain seat has held
    /// the list. The trails are then the plain seats' parts of one run of the inner mutex, from its start to a free mutex.
    /// If a plain seat is missing, it hands back the condvar and the plain seats, and names the first that is missing. It
    /// compares each number of a plain seat with each plain seat handed in, twice. It allocates no memory and never waits.
    pub fn close(
        self,
        seats: Vec<PlainSeat>,
    ) -> Result<WaitCounts, (PlainCondvar, Vec<PlainSeat>, Missing)>
        requires belongs { (j : ℕ) (s : _) → get_elem? seats.items j ≡ some s → OfPlain s self }
        ensures missing { IfErr result (λ e. SamePlain self e.0 × (e.1 ≡ seats) × FirstMissing (λ s. sight s.seat) seats.items (limits_of self.inner).seats e.2) }
        ensures all { IfOk result (λ _. AllStand (λ s. sight s.seat) seats.items (limits_of self.inner).seats) }
        ensures none { IfOk result (λ r. r.woken + r.timed_out ≡ r.added) }
        ensures counts { IfOk result (λ r. (w : _) × HasCounts r w × ((j : ℕ) (s : _) (l : _) → get_elem? seats.items j ≡ some s → (sight s.seat).last ≡ Some l → Since (sight s.seat).number l w) × LeftLast (λ s. sight s.seat) seats.items w × LeftByLastHold (λ s. sight s.seat) seats.items w) }
        ensures run { IfOk result (λ _. HaveRun (λ s. sight s.seat) (λ s. past_of s.seat) (limits_of self.inner) seats.items) }
    {
        if let Some(missing) = self.inner.missing(&seats) {
            return Err((self, seats, missing));
        }
        let PlainCondvar { inner, parkers } = self;
        let mut seats = seats;
        let all = take_wakers(&parkers, &mut seats);
        match inner.close(seats) {
            Ok(waiters) => Ok(last_counts(&parkers, all, waiters)),
            Err(_) => unreachable!(),
        }
    }
}
