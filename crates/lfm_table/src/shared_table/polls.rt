//! Loads of a word outside the steps of a call. A *poll* is a load from which no proof learns anything, and it is in no trail.
//! Each adds itself to the polls that its `OffTrail` counts. The load of `read_owner` is in its seat's trail.
ghost use Rattle.std.specs.Prelude.{◌≡◌, ◌+◌, ◌<◌};
ghost use Rattle.atomic_table.specs.Table.{Allows};
ghost use Rattle.lfm_table.specs.Rule.{Held, ReadsOwner};

use crate::kept::Kept;
use crate::layout::{COUNT, OWNER};
use crate::rule::OwnerRead;
use crate::shared_table::off_trail::OffTrail;
use crate::shared_table::{AtomicSeat, SharedTable};

impl<T: Kept> SharedTable<T> {
    /// Polls this word.
    #[inline(always)]
    fn poll(&self, word: usize, off_trail: &mut OffTrail) -> u64
        requires { word < self.now.table_id.words }
        ensures { off_trail.new ≡ record off_trail.old { polls = off_trail.old.polls + 1 } }
    {
        *off_trail = OffTrail::with_poll(off_trail);
        self.peek(word)
    }

    /// Polls the count.
    #[inline(always)]
    pub fn poll_count(&self, off_trail: &mut OffTrail) -> u64
        requires { 0 < self.now.table_id.words }
        ensures { off_trail.new ≡ record off_trail.old { polls = off_trail.old.polls + 1 } }
    {
        self.poll(COUNT, off_trail)
    }

    /// Polls the owner word.
    #[inline(always)]
    pub fn poll_owner(&self, off_trail: &mut OffTrail) -> u64
        requires { 1 < self.now.table_id.words }
        ensures { off_trail.new ≡ record off_trail.old { polls = off_trail.old.polls + 1 } }
    {
        self.poll(OWNER, off_trail)
    }

    /// Polls this wake word.
    #[inline(always)]
    pub fn poll_wake(&self, word: usize, off_trail: &mut OffTrail) -> u64
        requires { word < self.now.table_id.words }
        ensures { off_trail.new ≡ record off_trail.old { polls = off_trail.old.polls + 1 } }
    {
        self.poll(word, off_trail)
    }

    /// Loads the owner word.
    #[inline(always)]
    pub fn read_owner(&self, place: &mut AtomicSeat<T>) -> u64
        requires table { (place.old.table_id ≡ self.now.table_id) × (1 < self.now.table_id.words) }
        requires allowed { Allows (Held T.follows T.fits) self.now.table_id.slots place.old.id place.old.me 1 (λ n. n) (ReadsOwner place.old.me) }
        ensures table { (place.new.table_id ≡ place.old.table_id) × (place.new.id ≡ place.old.id) }
        ensures read { ReadsOwner place.old.me result place.new.me }
    {
        self.load::<OwnerRead>(place, OWNER)
    }
}
