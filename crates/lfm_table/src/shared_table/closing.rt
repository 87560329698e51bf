//! Closing a table: its seats are joined into seat 1, and the content of its slot is taken out.
ghost use Rattle.std.specs.Prelude.{◌≡◌, ◌<◌, [], length};
ghost use mathlib.Core.Option.{some};
ghost use lib.ListN.{get_elem?};
ghost use Rattle.atomic_table.specs.Table.{Final, Joins, Seen};
ghost use Rattle.lfm_table.specs.Rule.{Held, joined, with_joined};

use crate::kept::Kept;
use crate::layout::SLOT;
use crate::moving_box::MovingBox;
use crate::rule::{JoinedView, SeatJoin};
use crate::shared_table::{AtomicSeat, SharedTable};
use atomic_table::Closed;
use std::alloc::Global;
use std::marker::Model;

/// The table after no thread shares it any more. It can't be dropped, because the content of its slot must be taken out.
pub struct ClosedTable<T: Drop> {
    closed: Closed<Option<MovingBox<T>>, Global>,
}

impl<T: Drop> Model for ClosedTable<T> {
    ghost use Rattle.std.specs.Slots.{IsFull, slots_items};
    ghost use Rattle.lfm_table.specs.SeenTable.{SeenClosed};

    ghost Value = { SeenClosed T };

    ghost view = { λ c. record { words = slots_items c.closed.words; slots = slots_items c.closed.slots } };

    ghost invariant = { λ c. IsFull c.closed.slots };
}

impl<T: Kept> SharedTable<T> {
    /// Joins a seat into seat 1. The join of `atomic_table` loads a word, and the result is not used.
    pub fn join_seat<B: JoinedView<T>>(&self, root: &mut AtomicSeat<T>, place: AtomicSeat<T>)
        requires table { (root.old.table_id ≡ self.now.table_id) × (place.table_id ≡ self.now.table_id) × (0 < self.now.table_id.words) }
        requires free { place.me.1 ≡ [] }
        requires allowed { Joins (Held T.follows T.fits) root.old.id root.old.me.0 place.id place.me.0 (with_joined root.old.me.0 place.me.0) (joined B.view) }
        ensures table { (root.new.table_id ≡ root.old.table_id) × (root.new.id ≡ root.old.id) }
        ensures joined { root.new.me ≡ (with_joined root.old.me.0 place.me.0, root.old.me.1) }
    {
        let AtomicSeat { seat } = place;
        self.table
            .shared
            .join_seat::<SeatJoin<B>>(&mut root.seat, seat);
    }

    /// Closes the table. Its last state keeps the rule and agrees with what seat 1 knows.
    pub fn close_with(self, root: AtomicSeat<T>) -> ClosedTable<T>
        requires table { root.table_id ≡ self.table_id }
        ensures counts { (length result.words ≡ self.table_id.words) × (length result.slots ≡ self.table_id.slots) }
        ensures values { Final (Seen (Held T.follows T.fits) root.id root.me.0) result.words result.slots }
    {
        let SharedTable { table } = self;
        let AtomicSeat { seat } = root;
        ClosedTable {
            closed: table.close_with(seat),
        }
    }
}

impl<T: Drop> ClosedTable<T> {
    /// The content of the one slot.
    pub fn into_slot(self) -> Option<MovingBox<T>>
        requires { length self.slots ≡ 1 }
        ensures { get_elem? self.slots 0 ≡ some result }
    {
        let ClosedTable { closed } = self;
        let mut closed = closed;
        let slot = closed.take(SLOT);
        closed.free();
        slot
    }
}
