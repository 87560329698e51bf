//! The one function that makes the steps of calls. It performs a single operation on a word, and its contract adds that
//! operation to the seat's trail. No other function of `shared_table` or its children makes an operation that changes a word,
//! and no function of another module can make one.
ghost use Rattle.std.specs.Prelude.{◌≡◌, Some};
ghost use Rattle.lfm_protocol.specs.Points.{kind as kind_of};
ghost use Rattle.lfm_table.specs.FastPath.{KeepsNumberAndLimits};
ghost use Rattle.lfm_table.specs.Rule.{Advanced, value_in};
ghost use Rattle.lfm_table.specs.Steps.{CanMake};

use crate::kept::Kept;
use crate::operations::{Access, Operation};
use crate::rule::{Plain, Stepped};
use crate::shared_table::SharedTable;
use crate::table_seat::TableSeat;
use lfm_protocol::SeatState;

/// Performs this operation at the seat's point, and returns the number that it found or stored.
#[inline(always)]
pub(crate) fn operate<O: Operation, T: Kept, B: Plain<T>>(
    table: &SharedTable<T>,
    seat: &mut TableSeat<T>,
    state: &SeatState,
) -> u64
    requires plain { (B.state ≡ state.now) × (B.hand ≡ value_in seat.old.moving) }
    requires table { seat.old.place.table_id ≡ table.now.table_id }
    requires can { CanMake T.follows T.fits state.now (value_in seat.old.moving) seat.old.number seat.old.limits.seats table.now.table_id.words seat.old.place.me }
    requires is_next { kind_of state.now.point ≡ Some O.kind }
    ensures table { (seat.new.place.table_id ≡ seat.old.place.table_id) × (seat.new.place.id ≡ seat.old.place.id) }
    ensures same { KeepsNumberAndLimits seat.old seat.new }
    ensures moving { seat.new.moving ≡ seat.old.moving }
    ensures step { Advanced T.follows T.fits state.now (value_in seat.old.moving) seat.old.place.me result seat.new.place.me }
{
    match O::access(state, seat.number, seat.limits.seats) {
        Access::Load(word) => table.load::<Stepped<B>>(&mut seat.place, word),
        Access::Store(word, new) => {
            table.store::<Stepped<B>>(&mut seat.place, word, new);
            new
        }
        Access::FetchAdd(word, number) => table.fetch_add::<Stepped<B>>(
            &mut seat.place,
            word,
            number,
        ),
        Access::FetchSub(word, number) => table.fetch_sub::<Stepped<B>>(
            &mut seat.place,
            word,
            number,
        ),
        Access::FetchAnd(word, mask) => table.fetch_and::<Stepped<B>>(&mut seat.place, word, mask),
        Access::CompareExchange(word, old, new) => {
            table.compare_exchange::<Stepped<B>>(&mut seat.place, word, old, new)
        }
    }
}
