//! Opening a table: its first seat, and the seats that are split off it.
ghost use Rattle.std.specs.Prelude.{◌≡◌, ◌<◌, [], length, IfOk};
ghost use Rattle.atomic_table.specs.Table.{opening, Splits};
ghost use Rattle.lfm_table.specs.Rule.{Held, first_view, split_view, with_split};

use crate::kept::Kept;
use crate::moving_box::MovingBox;
use crate::rule::{Key, SeatSplit};
use crate::shared_table::{AtomicSeat, SharedTable};
use atomic_table::Table;
use std::alloc::{AllocError, Global};

impl<T: Kept> SharedTable<T> {
    /// A table of these words and slots, which keep the rule, and its first seat. If there is no memory, the content of the
    /// slots is dropped.
    pub fn new(
        alloc: Global,
        words: &[u64],
        slots: Vec<Option<MovingBox<T>>>,
        about: &Key<T>,
    ) -> Result<(SharedTable<T>, AtomicSeat<T>), AllocError>
        requires kept { Held T.follows T.fits (opening words.now slots.items (first_view about.now.limits about.now.opening.value)) }
        ensures counts { IfOk result (λ r. (r.0.table_id.words ≡ length words.now) × (r.0.table_id.slots ≡ length slots.items)) }
        ensures seat { IfOk result (λ r. (r.1.table_id ≡ r.0.table_id) × (r.1.id ≡ 0) × (r.1.me ≡ (first_view about.now.limits about.now.opening.value, []))) }
    {
        match Table::new(alloc, words, slots, about) {
            Ok((table, seat)) => Ok((SharedTable { table }, AtomicSeat { seat })),
            Err(_) => Err(AllocError),
        }
    }

    /// Splits the next seat off seat 1. The split of `atomic_table` loads a word, and the result is not used.
    pub fn split_seat(&self, root: &mut AtomicSeat<T>) -> AtomicSeat<T>
        requires table { (root.old.table_id ≡ self.now.table_id) × (0 < self.now.table_id.words) }
        requires allowed { Splits (Held T.follows T.fits) root.old.id root.old.me.0 (with_split root.old.me.0) (split_view root.old.me.0) }
        ensures table { (root.new.table_id ≡ root.old.table_id) × (root.new.id ≡ root.old.id) × (result.table_id ≡ root.old.table_id) }
        ensures split { (root.new.me ≡ (with_split root.old.me.0, root.old.me.1)) × (result.me ≡ (split_view root.old.me.0, [])) }
    {
        AtomicSeat {
            seat: self.table.shared.split_seat::<SeatSplit>(&mut root.seat),
        }
    }
}
