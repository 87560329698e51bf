//! Lends the value that a seat has in hand. The clause names the row of `TableSeat`, which the file that declares `TableSeat`
//! cannot import.
ghost use Rattle.std.specs.Prelude.{◌≡◌, None, Some, MatchOption};
ghost use Rattle.std.specs.Borrow.{sem};
ghost use Rattle.lfm_table.specs.Rule.{value_in};
ghost use Rattle.lfm_table.specs.ValueMut.{LendsHand};

use crate::table_seat::TableSeat;

impl<T: Drop> TableSeat<T> {
    /// The guarded value, mutable, if the seat has it in hand.
    pub fn value_mut(&mut self) -> Option<&mut T>
        ensures* lends { sem 𝓛 (LendsHand T.row self.entry result) }
        ensures value { MatchOption result (self.old.moving ≡ None) (λ x. value_in self.old.moving ≡ Some x.now) }
    {
        match &mut self.moving {
            Some(moving) => Some(moving.value_mut()),
            None => None,
        }
    }
}
