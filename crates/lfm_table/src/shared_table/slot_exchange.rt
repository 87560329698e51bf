//! The access to the slot, which is no operation on a word. It needs no trail: its contract says what was in the slot, and what
//! is in it now. So other files of this crate may call it.
ghost use Rattle.std.specs.Prelude.{◌≡◌, ◌∷◌, Option};
ghost use Rattle.atomic_table.specs.Table.{rest};
ghost use Rattle.lfm_table.specs.declared.rule.Moving.{Moving};

use crate::kept::Kept;
use crate::moving_box::MovingBox;
use crate::shared_table::{AtomicSeat, SharedTable};

impl<T: Kept> SharedTable<T> {
    /// A plain read and write of the slot that the seat took most recently.
    #[inline(always)]
    pub(crate) fn exchange(
        &self,
        place: &mut AtomicSeat<T>,
        slot: usize,
        new: Option<MovingBox<T>>,
    ) -> Option<MovingBox<T>>
        requires table { place.old.table_id ≡ self.now.table_id }
        requires slot { (old : Option (Moving T)) × (place.old.me.1 ≡ (slot, old) ∷ rest place.old.me.1) }
        ensures table { (place.new.table_id ≡ place.old.table_id) × (place.new.id ≡ place.old.id) }
        ensures slot { (place.old.me.1 ≡ (slot, result) ∷ rest place.old.me.1) × (place.new.me ≡ (place.old.me.0, (slot, new) ∷ rest place.old.me.1)) }
    {
        self.table.shared.exchange(&mut place.seat, slot, new)
    }
}
