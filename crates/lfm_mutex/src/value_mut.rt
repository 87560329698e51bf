//! Lends the value for writing. The clause names the row of `Seat`, which the file that declares `Seat` cannot import.
ghost use Rattle.std.specs.Prelude.{◌≡◌, ◌<◌, Some, MatchOption};
ghost use Rattle.std.specs.Borrow.{sem};
ghost use Rattle.lfm_mutex.specs.ValueMut.{LendsValue};
ghost use Rattle.lfm_mutex.specs.calls.Sight.{sight};

use crate::seat::Seat;
use lfm_table::Kept;

impl<T: Kept> Seat<T> {
    /// The guarded value, Some exactly if the depth is 1 or more. When the borrow ends, the seat has what was written through
    /// it, and is otherwise as it was.
    pub fn value_mut(&mut self) -> Option<&mut T>
        ensures* lends { sem 𝓛 (LendsValue T.row self.entry result) }
        ensures value { MatchOption result ((sight self.old).depth ≡ 0) (λ x. (0 < (sight self.old).depth) × ((sight self.old).value ≡ Some x.now)) }
    {
        if self.state.depth == 0 {
            return None;
        }
        self.table_seat.value_mut()
    }
}
