//! How a mutex is closed: all seats are joined into seat 1, and the value is taken out of the table.
ghost use Rattle.std.specs.Prelude.{◌≡◌, ◌<◌, ◌≤◌, ℕ, [], Some, IfErr, IfOk, MatchOption, length, vec_len};
ghost use mathlib.Core.Option.{some};
ghost use lib.ListN.{get_elem?};
ghost use Rattle.lfm_model.specs.SeatNumbers.{IsSeatNo};
ghost use Rattle.lfm_protocol.specs.declared.points.Point.TheVariants.{Rest};
ghost use Rattle.lfm_table.specs.declared.seat_view.Role.TheVariants.{User};
ghost use Rattle.lfm_mutex.specs.Belongs.{OfMutex, limits_of};
ghost use Rattle.lfm_mutex.specs.Close.{AreFree, Idle, Hinders, named, Lacks, Stands, Hindered, FirstMissing, AllStand, LeftLast, LeftByLastHold, HaveRun};
ghost use Rattle.lfm_table.specs.Reach.{Reached};
ghost use Rattle.lfm_mutex.specs.calls.RunGoesOn.{past_of};
ghost use Rattle.lfm_mutex.specs.calls.Sight.{sight};
ghost use Rattle.lfm_table.specs.Rule.{with_joined};

use crate::holder::Holder;
use crate::mutex::Mutex;
use crate::seat::Seat;
use lfm_model::{Missing, SeatNo};
use lfm_table::moving_box::MovingBox;
use lfm_table::rule::JoinedView;
use lfm_table::shared_table::closing::ClosedTable;
use lfm_table::shared_table::{AtomicSeat, SharedTable};
use lfm_table::{Kept, TableSeat};
use std::marker::Brand;

impl<T: Kept> Mutex<T> {
    /// The first seat, from seat 1 on, that keeps the mutex from being closed with these seats, and why: no seat with its
    /// number is among them, or one with it holds, sleeps or is in a call. None if there is no such seat. Only the numbers are
    /// compared, so the seats may be those of another mutex, unlike in `close`. It compares each seat number of the mutex with
    /// each seat, allocates nothing and never waits.
    pub fn missing<P: Holder<T>>(&self, seats: &Vec<P>) -> Option<Missing>
        ensures { MatchOption result (AllStand (λ p. sight (P.seat_of p)) seats.now.items (limits_of self.now).seats) (FirstMissing (λ p. sight (P.seat_of p)) seats.now.items (limits_of self.now).seats) }
    {
        for i in 0..self.limits.seats {
            if let Some(missing) = missing_at::<T, P>(seats, i + 1) {
                return Some(missing);
            }
        }
        None
    }

    /// Returns the guarded value, and ends the mutex, if all seats are there and none holds, sleeps or is in a call. Otherwise
    /// it returns the mutex and the seats, and names the first seat that keeps it from closing, and why.
    ///
    /// The value is the one that the last of all holds left, or the opening value if no hold has ended. In the contract that is
    /// the seat with the greatest `ended` in its `sight`. The trails are the seats' parts of one run of the core, from its
    /// start to a free state. Each seat knew that run up to its own last step or load for `owner`. It compares each seat number
    /// of the mutex with each given seat, allocates nothing and never waits.
    pub fn close<P: Holder<T>>(self, seats: Vec<P>) -> Result<T, (Mutex<T>, Vec<P>, Missing)>
        requires belongs { (j : ℕ) (s : _) → get_elem? seats.items j ≡ some s → OfMutex (P.seat_of s) self }
        ensures missing { IfErr result (λ e. (e.0 ≡ self) × (e.1 ≡ seats) × FirstMissing (λ p. sight (P.seat_of p)) seats.items (limits_of self).seats e.2) }
        ensures all { IfOk result (λ _. AllStand (λ p. sight (P.seat_of p)) seats.items (limits_of self).seats) }
        ensures sized { IfOk result (λ _. vec_len seats ≡ (limits_of self).seats) }
        ensures last { IfOk result (λ v. LeftLast (λ p. sight (P.seat_of p)) seats.items v) }
        ensures latest { IfOk result (λ v. LeftByLastHold (λ p. sight (P.seat_of p)) seats.items v) }
        ensures reached { IfOk result (λ v. (j : ℕ) (s : _) (l : T) → get_elem? seats.items j ≡ some s → (sight (P.seat_of s)).last ≡ Some l → Reached T.follows (sight (P.seat_of s)).seats (sight (P.seat_of s)).number l v) }
        ensures run { IfOk result (λ _. HaveRun (λ p. sight (P.seat_of p)) (λ p. past_of (P.seat_of p)) (limits_of self) seats.items) }
    {
        if let Some(missing) = self.missing(&seats) {
            return Err((self, seats, missing));
        }
        let Some(at) = index_of_seat_1::<T, P>(&seats) else {
            unreachable!()
        };
        let Mutex {
            table,
            limits: _,
            pace: _,
        } = self;
        let mut seats = seats;
        let mut root = into_place::<T, P>(seats.remove(at));
        while let Some(seat) = seats.pop() {
            let place = into_place::<T, P>(seat);
            retire::<T, Brand>(&table, &mut root, place);
        }
        let Some(moving) = take_slot(table.close_with(root)) else {
            unreachable!()
        };
        Ok(moving.into_value())
    }
}

/// Why this seat can't be joined.
fn missing_for<T: Kept>(seat: &Seat<T>) -> Option<Missing>
    ensures { MatchOption result (Idle (sight seat.now)) (λ m. Hinders m (sight seat.now)) }
{
    if seat.depth() != 0 {
        return Some(Missing::Holding(seat.number()));
    }
    if seat.asleep() {
        return Some(Missing::Asleep(seat.number()));
    }
    None
}

/// The number of the holder's seat.
fn number_of<T: Kept, P: Holder<T>>(holder: &P) -> u64
    ensures { result ≡ (sight (P.seat_of holder.now)).number }
{
    holder.seat().table_seat.number
}

/// Why the holder's seat can't be joined.
fn missing_of<T: Kept, P: Holder<T>>(holder: &P) -> Option<Missing>
    ensures { MatchOption result (Idle (sight (P.seat_of holder.now))) (λ m. Hinders m (sight (P.seat_of holder.now))) }
{
    missing_for(holder.seat())
}

/// Why no seat with this number can be joined.
fn missing_at<T: Kept, P: Holder<T>>(seats: &Vec<P>, number: u64) -> Option<Missing>
    requires number { IsSeatNo number }
    ensures { MatchOption result (Stands (λ p. sight (P.seat_of p)) seats.now.items number) (λ m. (named m ≡ number) × Hindered (λ p. sight (P.seat_of p)) seats.now.items m) }
{
    let mut found = false;
    for seat in seats {
        if number_of::<T, P>(seat) != number {
            continue;
        }
        if let Some(missing) = missing_of::<T, P>(seat) {
            return Some(missing);
        }
        found = true;
    }
    if found {
        None
    } else {
        Some(Missing::NotBack(SeatNo::known(number)))
    }
}

/// The seat of the table. The other fields are dropped here, since dropping them in a caller would split its proof into cases.
fn into_place<T: Kept, P: Holder<T>>(holder: P) -> AtomicSeat<T>
    ensures { result ≡ (P.seat_of holder).table_seat.place }
{
    let Seat {
        table_seat,
        state: _,
        off_trail: _,
    } = holder.into_seat();
    let TableSeat {
        place,
        moving: _,
        number: _,
        limits: _,
    } = table_seat;
    place
}

/// The index of seat 1.
fn index_of_seat_1<T: Kept, P: Holder<T>>(seats: &Vec<P>) -> Option<usize>
    ensures { MatchOption result (Lacks (λ p. sight (P.seat_of p)) seats.now.items 1) (λ i. (s : _) × (get_elem? seats.now.items i ≡ some s) × ((P.seat_of s).table_seat.number ≡ 1)) }
{
    let mut index = 0usize;
    for seat in seats {
        if number_of::<T, P>(seat) == 1 {
            return Some(index);
        }
        index += 1;
    }
    None
}

/// Joins a seat that carries nothing.
fn retire<T: Kept, B: JoinedView<T>>(
    table: &SharedTable<T>,
    root: &mut AtomicSeat<T>,
    place: AtomicSeat<T>,
)
    requires view { B.view ≡ place.me.0 }
    requires table { (root.old.table_id ≡ table.now.table_id) × (place.table_id ≡ table.now.table_id) × (0 < table.now.table_id.words) }
    requires root { (root.old.id ≡ 0) × (root.old.me.0.role ≡ User) }
    requires free { (place.me.0.role ≡ User) × (place.me.1 ≡ []) × (place.me.0.state.point ≡ Rest) × (place.me.0.state.depth ≡ 0) }
    ensures table { (root.new.table_id ≡ root.old.table_id) × (root.new.id ≡ root.old.id) }
    ensures joined { root.new.me ≡ (with_joined root.old.me.0 place.me.0, root.old.me.1) }
{
    table.join_seat::<B>(root, place);
}

/// Takes the content of the slot of a closed table. Its count is 0, nothing is posted and no seat is queued.
fn take_slot<T: Kept>(closed: ClosedTable<T>) -> Option<MovingBox<T>>
    requires free { AreFree closed.words }
    requires slot { length closed.slots ≡ 1 }
    ensures { get_elem? closed.slots 0 ≡ some result }
{
    closed.into_slot()
}
