//! The laws of the running mutex. Each function here does nothing: its contract is the law. Most laws follow from the rule that
//! the table keeps at every moment, whatever threads step on it: `Held` in `specs/Rule.antt` of `lfm_table`. That each atomic
//! step keeps the rule is required, and proved, where `operate` of `lfm_table` accesses a word. The last law is about what a
//! seat knows of its mutex.
ghost use Rattle.lfm_mutex.specs.Laws.{KnowsItsMutex, PostsAreWatched, QuietTablesRest, TablesAreSteady, TakesFindARecord};
ghost use Rattle.lfm_mutex.specs.TableStates.{RestingTablesAreFree, TablesStand};
ghost use Rattle.lfm_mutex.specs.TableEvents.{TablesStepAsTheCore};
ghost use Rattle.lfm_mutex.specs.TableRuns.{OtherStepsKeepTheCore, TablesGoOnAsTheCore, TablesOpenAtTheStart};
ghost use Rattle.lfm_mutex.specs.EndedHolds.{HoldsAreNumbered, OneLastValue};
ghost use Rattle.lfm_mutex.specs.calls.Granted.{GrantsAreTold, WakeUpsAreTold};

use lfm_table::Kept;

/// At every moment the words and seats of a running mutex are a steady state of the core within the limits, and so a lawful
/// one. So every law of steady states holds.
///
/// Definition: `TablesAreSteady` in `specs/Laws.antt`. Proof: `proofs/LawsHeld.antt`.
pub fn tables_are_steady<T: Kept>()
    ensures { TablesAreSteady T.follows T.fits }
{}

/// While a post is in the handoff word, some open call has yet to load it, or has made or seen it and not yet tried to exchange
/// it.
///
/// Definition: `PostsAreWatched` in `specs/Laws.antt`. Proof: `proofs/LawsHeld.antt`.
pub fn posts_are_watched<T: Kept>()
    ensures { PostsAreWatched T.follows T.fits }
{}

/// While no call is open, nothing is posted; if the count is then above 0, a seat owns, or a sleeping seat has its grant.
///
/// Definition: `QuietTablesRest` in `specs/Laws.antt`. Proof: `proofs/LawsHeld.antt`.
pub fn quiet_tables_rest<T: Kept>()
    ensures { QuietTablesRest T.follows T.fits }
{}

/// A `lock`, `unlock`, `start_wait` or `send_lock` that has won the exchange of a post finds a record when it clears the push
/// list, and none in the pop list.
///
/// Definition: `TakesFindARecord` in `specs/Laws.antt`. Proof: `proofs/LawsHeld.antt`.
pub fn takes_find_a_record<T: Kept>()
    ensures { TakesFindARecord T.follows T.fits }
{}

/// At every moment the table is one steady state of the core, with the limits of its seats, and a seat that has not been split
/// off yet is at rest in it. The moving value is with the seat that owns or carries, and otherwise in its slot, with the pop
/// list of that state.
///
/// Definition: `TablesStand` in `specs/TableStates.antt`. Proof: `proofs/TableStates.antt`.
pub fn tables_stand<T: Kept>()
    ensures { TablesStand T.follows T.fits }
{}

/// If every seat rests and none holds, the count is 0, nothing is posted and no seat is queued.
///
/// Definition: `RestingTablesAreFree` in `specs/TableStates.antt`. Proof: `proofs/TableStates.antt`.
pub fn resting_tables_are_free<T: Kept>()
    ensures { RestingTablesAreFree T.follows T.fits }
{}

/// At every moment there is a number n of ended holds. The hold that a seat ended last has a number up to n, no two of these
/// numbers above 0 are the same, and one is n if n is above 0. A seat that owns or carries knows n. The value in the slot, or
/// with a seat that carries and does not own, is the last value of a seat with the number n.
///
/// Definition: `HoldsAreNumbered` in `specs/EndedHolds.antt`. Proof: `proofs/EndedHolds.antt`.
pub fn holds_are_numbered<T: Kept>()
    ensures { HoldsAreNumbered T.follows T.fits }
{}

/// A close can return only one value: among seats of which no two have the same number, the last hold of all left at most one
/// value, and if no hold has ended, there is at most one opening value.
///
/// Definition: `OneLastValue` in `specs/EndedHolds.antt`. Proof: `proofs/EndedHolds.antt`.
pub fn closes_have_one_value<T: Kept>()
    ensures { OneLastValue T }
{}

/// Take the state of the core that the table is, after the calls that a seat has begun since its last step. The core's step
/// from there leaves the word, the seat, the pop list and the turn that the running seat makes from the number that it finds.
///
/// Definition: `TablesStepAsTheCore` in `specs/TableEvents.antt`. Proof: `proofs/TableEvents.antt`.
pub fn tables_step_as_the_core<T: Kept>()
    ensures { TablesStepAsTheCore T.follows T.fits }
{}

/// Each atomic step of a running seat leads from the state of the core that the table is, with the calls begun before this
/// step, to the state that the core's step makes of it. These starts of calls and the step extend the run.
///
/// Definition: `TablesGoOnAsTheCore` in `specs/TableRuns.antt`. Proof: `proofs/TableRuns.antt`.
pub fn tables_go_on_as_the_core<T: Kept>()
    ensures { TablesGoOnAsTheCore T.follows T.fits }
{}

/// The table of a new mutex is the state of the core at its start, and its run is empty.
///
/// Definition: `TablesOpenAtTheStart` in `specs/TableRuns.antt`. Proof: `proofs/TableRuns.antt`.
pub fn tables_open_at_the_start<T: Kept>()
    ensures { TablesOpenAtTheStart T.follows T.fits }
{}

/// Splitting off a seat in `new`, joining it again in `close`, and loading the owner word for `owner` keep the state of the
/// core that the table is. Of these only the load is in the run.
///
/// Definition: `OtherStepsKeepTheCore` in `specs/TableRuns.antt`. Proof: `proofs/TableRuns.antt`.
pub fn other_steps_keep_the_core<T: Kept>()
    ensures { OtherStepsKeepTheCore T.follows T.fits }
{}

/// What is seen of a seat includes the number of seats of its mutex. So if the contract of an acquisition or a close speaks of
/// steps of seats 1 to N, N is the number of seats of that mutex.
///
/// Definition: `KnowsItsMutex` in `specs/Laws.antt`. Proof: `proofs/LawsHeld.antt`.
pub fn seats_know_their_mutex<T: Kept>()
    ensures { KnowsItsMutex T }
{}

/// An `unlock` that answers `Granted` stored one grant, for the seat that it names, and has that seat's wake-up. With any other
/// answer or a refusal it stored no grant and has no wake-up.
///
/// Definitions: `GrantsAreTold` and `WakeUpsAreTold` in `specs/calls/Granted.antt`. Proof: `proofs/runs/Granted.antt`.
pub fn granted_told<T: Kept>()
    ensures grants { GrantsAreTold T }
    ensures wake_ups { WakeUpsAreTold T }
{}
