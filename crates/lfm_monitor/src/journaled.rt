//! What the mutex of a monitor guards: the object with its journal. A mutex may guard it because it is `Kept`.
ghost use Rattle.std.specs.Prelude.{◌≡◌, ℕ, ◌*◌, ◌<◌, ◌≤◌, ◌++◌, [], ◌∷◌, Some, None, length, vec_capacity};
ghost use Rattle.lfm_model.specs.Journals.{after_all, LawfulJournal, LawfulJournal-prop, Within, Within-prop, MayTake, entry, own, queued_from, taker_from};
ghost use Rattle.lfm_model.specs.declared.journals.What.TheVariants.{Took, Did};

use lfm_model::{Entry, How, Object, SeatNo, What};
use lfm_mutex::Kept;
use std::snapshot::Snapshot;

/// An object with its journal, whose memory is reserved in full. The journal is lawful, and its replay from the opening object
/// gives the object. Each entry is by one of `seats` seats, and no seat has more than `share` of them.
#[derive(Drop)]
pub struct Journaled<O: Object> {
    pub(crate) object: O,
    pub(crate) journal: Vec<Entry<O::Op>>,
    pub(crate) opening: Snapshot<O>,
    pub(crate) seats: u64,
    pub(crate) share: u64,
    pub ghost legal: { object ≡ after_all O.after opening.value journal.items },
    pub ghost lawful: { LawfulJournal journal.items } by { LawfulJournal-prop None 0 journal.items },
    pub ghost within: { Within seats journal.items } by { Within-prop seats journal.items },
    pub ghost shares: { (s : ℕ) → length (own s journal.items) ≤ share },
    pub ghost room: { seats * share ≤ vec_capacity journal },
}

impl<O: Object> Kept for Journaled<O> {
    ghost use Rattle.lfm_monitor.specs.Journaled.{JournalFits, JournalFollows};

    ghost fits = { JournalFits };

    ghost follows = { JournalFollows };
}

impl<O: Object> Journaled<O> {
    /// Writes the entry for an acquisition: which seat has come to hold, and how.
    pub(crate) fn took(&mut self, seat: SeatNo, how: How)
        requires seat { (0 < seat) × (seat ≤ self.old.seats) }
        requires share { length (own seat self.old.journal.items) < self.old.share }
        requires how { MayTake (queued_from 0 self.old.journal.items) how }
        ensures journal { self.new.journal.items ≡ self.old.journal.items ++ entry seat (Took how) ∷ [] }
        ensures same { (self.new.opening ≡ self.old.opening) × (self.new.seats ≡ self.old.seats) × (self.new.share ≡ self.old.share) }
    {
        self.journal.push_reserved(Entry {
            seat,
            what: What::Took(how),
        });
    }

    /// Applies an op of the seat that took last, writes its entry, and returns the object's reply.
    pub(crate) fn did(&mut self, seat: SeatNo, op: O::Op) -> O::Reply
        requires seat { (0 < seat) × (seat ≤ self.old.seats) }
        requires share { length (own seat self.old.journal.items) < self.old.share }
        requires taker { taker_from None self.old.journal.items ≡ Some seat }
        ensures reply { result ≡ O.reply self.old.object op }
        ensures object { self.new.object ≡ O.after self.old.object op }
        ensures journal { self.new.journal.items ≡ self.old.journal.items ++ entry seat (Did op) ∷ [] }
        ensures same { (self.new.opening ≡ self.old.opening) × (self.new.seats ≡ self.old.seats) × (self.new.share ≡ self.old.share) }
    {
        let reply = self.object.apply(&op);
        self.journal.push_reserved(Entry {
            seat,
            what: What::Did(op),
        });
        reply
    }
}
