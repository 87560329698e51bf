//! A seat of the mutex: a thread's handle of it. Its fields are private to the crate. Callers read a seat by its methods, and
//! contracts by `sight`.
ghost use Rattle.std.specs.Prelude.{◌≡◌, ◌<◌, ◌-◌, Some, None, MatchOption};
ghost use Rattle.std.specs.Coded.{Coded-set};
ghost use Rattle.lfm_table.specs.Props.{IsReady-prop, Became-prop};
ghost use Rattle.lfm_laws.specs.table.Ready.{IsReady};
ghost use Rattle.lfm_table.specs.Rule.{value_in, put_value};
ghost use Rattle.lfm_table.specs.Seats.{Seated, Rooted};
ghost use Rattle.lfm_table.specs.Settled.{Became};

use lfm_model::SeatNo;
use lfm_protocol::SeatState;
use lfm_protocol::points::Point;
use lfm_table::{Kept, OffTrail, TableSeat};

/// A thread's handle of the mutex. A seat may move between threads, and each call borrows it until the call returns. A seat
/// *sleeps* from the call that queued it, or from its `start_wait`, until a receive finds its grant, whether or not a thread is
/// parked for it. If a seat is dropped, the mutex can't be closed. If it is dropped while it holds, no other seat can acquire
/// the mutex again. If it is dropped while it sleeps, this is so once the mutex is granted to it.
///
/// These lines are compiled in the crate `example_cache`:
///
/// ```
/// // the sum from the cache that the mutex guards, if it is there and no other seat holds the mutex
/// match mutex.try_with(seat, |cache| cache.find(number)) {
///     Ok(Some(sum)) => return Ok(sum),
///     Ok(None) | Err(Refusal::Busy) => {}
///     Err(refusal) => return Err(refusal),
/// }
/// ```
#[derive(Drop)]
pub struct Seat<T: Drop> {
    /// What a step needs of the seat apart from its state: the place at the table, the value while it is in hand, and the
    /// number.
    pub(crate) table_seat: TableSeat<T>,
    /// The state of the seat. A fast path writes only the fields that a call changes.
    pub(crate) state: SeatState,
    /// The seats that calls with this one have woken, and how often they polled.
    pub(crate) off_trail: OffTrail,
    pub ghost seated: { Seated table_seat.number table_seat.limits state table_seat.place.me table_seat.moving },
    pub ghost became: { Became table_seat.place.me.0.state table_seat.limits state } by { Became-prop (Coded-set state-code) table_seat.place.me.0.state table_seat.limits state },
    pub ghost ready: { IsReady table_seat.limits.seats table_seat.number state } by { IsReady-prop table_seat.limits.seats table_seat.number state },
    pub ghost rooted: { Rooted table_seat.place.table_id.words table_seat.place.id table_seat.number table_seat.limits table_seat.place.me.0 },
}

/// What a caller can read from a seat. None of these functions accesses a word of the mutex, allocates or waits.
impl<T: Kept> Seat<T> {
    ghost use Rattle.lfm_mutex.specs.calls.Sight.{sight};
    ghost use Rattle.lfm_mutex.specs.Belongs.{budget_of};

    /// The seat's number: 1 to 4,095.
    pub fn number(&self) -> SeatNo
        ensures { result ≡ (sight self.now).number }
    {
        SeatNo::known(self.table_seat.number)
    }

    /// How many times the seat holds the mutex: 0 to 65,535.
    pub fn depth(&self) -> u32
        ensures { result ≡ (sight self.now).depth }
    {
        self.state.depth
    }

    /// How many takes the seat has made.
    pub fn takes(&self) -> u64
        ensures { result ≡ (sight self.now).takes }
    {
        self.state.takes
    }

    /// How many takes are left: the budget less the takes.
    pub fn left(&self) -> u64
        ensures { result ≡ budget_of self.now - (sight self.now).takes }
    {
        self.table_seat.limits.budget.saturating_sub(self.takes())
    }

    /// Whether the seat sleeps, or a call of it is open.
    pub fn asleep(&self) -> bool
        ensures { result ≡ (sight self.now).asleep }
    {
        !matches!(self.state.point, Point::Rest)
    }

    /// The guarded value, Some exactly if the depth is 1 or more.
    pub fn value(&self) -> Option<&T>
        ensures { MatchOption result ((sight self.now).depth ≡ 0) (λ x. (0 < (sight self.now).depth) × ((sight self.now).value ≡ Some x.now)) }
    {
        if self.depth() == 0 {
            return None;
        }
        match &self.table_seat.moving {
            Some(moving) => Some(moving.value()),
            None => None,
        }
    }
}
