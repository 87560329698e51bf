//! How entries are written into the journal that a seat holds.
ghost use Rattle.std.specs.Prelude.{◌≡◌, ◌<◌, Some, None};
ghost use Rattle.lfm_model.specs.Journals.{MayTake, queued_from, taker_from};
ghost use Rattle.lfm_model.specs.declared.journals.What.TheVariants.{Took, Did};
ghost use Rattle.lfm_mutex.specs.calls.Sight.{sight};
ghost use Rattle.lfm_monitor.specs.Writes.{MayWrite, Writes};

use crate::journaled::Journaled;
use lfm_model::{How, Object};
use lfm_mutex::Seat;

/// Writes the entry for an acquisition: which seat has come to hold, and how.
pub fn write_took<O: Object>(seat: &mut Seat<Journaled<O>>, how: How)
    requires holds { 0 < (sight seat.old).depth }
    requires may { (v : _) → (sight seat.old).value ≡ Some v → MayWrite (sight seat.old).number v × MayTake (queued_from 0 v.journal.items) how }
    ensures { Writes (Took how) seat.old seat.new }
{
    let number = seat.number();
    let Some(journaled) = seat.value_mut() else {
        unreachable!()
    };
    journaled.took(number, how);
}

/// Applies an op of the seat and writes its entry.
pub fn write_did<O: Object>(seat: &mut Seat<Journaled<O>>, op: O::Op) -> O::Reply
    requires holds { 0 < (sight seat.old).depth }
    requires may { (v : _) → (sight seat.old).value ≡ Some v → MayWrite (sight seat.old).number v × (taker_from None v.journal.items ≡ Some (sight seat.old).number) }
    ensures writes { Writes (Did op) seat.old seat.new }
    ensures object { (v w : _) → (sight seat.old).value ≡ Some v → (sight seat.new).value ≡ Some w → w.object ≡ O.after v.object op }
    ensures reply { (v : _) → (sight seat.old).value ≡ Some v → result ≡ O.reply v.object op }
{
    let number = seat.number();
    let Some(journaled) = seat.value_mut() else {
        unreachable!()
    };
    journaled.did(number, op)
}
