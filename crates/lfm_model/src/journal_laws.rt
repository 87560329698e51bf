//! Laws of journals: when a journal is lawful, and which object a journal leads to. Each law is the contract of an empty
//! function.
ghost use Rattle.lfm_model.specs.JournalLaws.{OpsByTakers, ops};
ghost use Rattle.lfm_model.specs.Journals.{LawfulJournal, May, after_all, one_to, queued_from, replies_of, stamps, taker_from};
ghost use Rattle.lfm_model.specs.declared.journals.Entry.{Entry};
ghost use Rattle.std.specs.List.{fold, slice_get};
ghost use Rattle.std.specs.Prelude.{◌≡◌, ◌↔◌, ◌++◌, ◌∷◌, ℕ, List, [], None, Some, length, take};

use crate::objects::Object;

/// The stamps of a lawful journal are 1, 2, 3 and so on, one for each queued take.
pub fn lawful_stamps_are_consecutive<Op>()
    ensures counted { (es : List (Entry Op)) → queued_from 0 es ≡ length (stamps es) }
    ensures stamps { (es : List (Entry Op)) → LawfulJournal es → stamps es ≡ one_to (queued_from 0 es) }
{}

/// Each op of a lawful journal is by the seat of the last take before it. So there is no op before the first take.
pub fn lawful_ops_are_by_takers<Op>()
    ensures { (es : List (Entry Op)) → LawfulJournal es → OpsByTakers es }
{}

/// A journal is lawful if its stamps are 1, 2, 3 and so on, and each op is by the seat of the last take before it.
pub fn journals_by_takers_are_lawful<Op>()
    ensures { (es : List (Entry Op)) → stamps es ≡ one_to (length (stamps es)) → OpsByTakers es → LawfulJournal es }
{}

/// A journal with one more entry at its end is lawful exactly if it was lawful before and the entry may be next: a take without
/// a stamp, a take with the next stamp, or an op by the seat that took last.
pub fn lawful_journals_grow_by_what_may_come<Op>()
    ensures { (es : List (Entry Op)) (e : Entry Op) → LawfulJournal (es ++ e ∷ [])
        ↔ (LawfulJournal es × May (taker_from None es) (queued_from 0 es) e.seat e.what) }
{}

/// A replay performs the ops of the journal in order and nothing else. Each reply is that of the object after the ops before
/// it.
pub fn replays_make_the_ops_in_order<O: Object>()
    ensures object { (o : O) (es : List (Entry O.Op)) → after_all O.after o es ≡ fold O.after o (ops es) }
    ensures count { (o : O) (es : List (Entry O.Op)) → length (replies_of O.after O.reply o es) ≡ length (ops es) }
    ensures reply { (o : O) (es : List (Entry O.Op)) (i : ℕ) (op : O.Op) → slice_get (ops es) i ≡ Some op
        → slice_get (replies_of O.after O.reply o es) i ≡ Some (O.reply (fold O.after o (take i (ops es))) op) }
{}
