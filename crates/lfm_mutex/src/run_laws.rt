//! The laws of the run of a running mutex. The rule of the table includes a run of the core: the actions of all seats since the
//! table was opened, in order. Each seat's trail is its part of that run. The run starts with the actions that a seat knows,
//! and continues with actions of others only. An action is a call that a seat begins, a step of a seat, or a load of the owner
//! word by `owner`. How the run is extended is stated in `laws`. Each function here does nothing: its contract is the law.
ghost use Rattle.lfm_mutex.specs.TableRuns.{
  SeatsKnowUpToTheirLastStep,
  TablesEndCalls,
  TablesGoThroughReachedStates,
  TablesHaveARun,
  TablesOvertakeOnce,
  TablesPushInRounds,
  TablesRunAsTheAbstractMutex,
  TablesServeInPushOrder,
  TablesServeInRounds,
  TrailsTellTheAnswers,
  TrailsTellThePushes,
};
ghost use Rattle.lfm_mutex.specs.calls.RunGoesOn.{SameTrailsKnowTheSame};

use lfm_table::Kept;

/// At every moment some run of the core has led from its start to the words and seats of the table, and each trail is its
/// seat's part of it. A seat's view keeps the run up to the seat's own last step or load for `owner`, and only actions of
/// others follow.
///
/// Definition: `TablesHaveARun` in `specs/TableRuns.antt`. Proof: `proofs/TableRuns.antt`.
pub fn tables_have_a_run<T: Kept>()
    ensures { TablesHaveARun T.follows T.fits }
{}

/// A seat knows exactly its table's run up to its own last step or load for `owner`, or nothing if it has made none. If its
/// trail has not grown between two views of it, it knows no more than before.
///
/// Definitions: `SeatsKnowUpToTheirLastStep` in `specs/TableRuns.antt`, and `SameTrailsKnowTheSame` in
/// `specs/calls/RunGoesOn.antt`. Proofs: `proofs/TableRuns.antt` and `proofs/runs/RunGoesOn.antt`.
pub fn seats_know_up_to_their_last_step<T: Kept>()
    ensures known { SeatsKnowUpToTheirLastStep T.follows T.fits }
    ensures same { SameTrailsKnowTheSame T }
{}

/// At each moment of a table's run the state is a reached one within the limits, and the events since then lead from it to the
/// table. So every law of schedules applies.
///
/// Definition: `TablesGoThroughReachedStates` in `specs/TableRuns.antt`. Proof: `proofs/TableRuns.antt`.
pub fn tables_go_through_reached_states<T: Kept>()
    ensures { TablesGoThroughReachedStates T.follows T.fits }
{}

/// Refinement: a table's run, read state by state, is a run of the abstract mutex that starts free.
///
/// Definition: `TablesRunAsTheAbstractMutex` in `specs/TableRuns.antt`. Proof: `proofs/TableRuns.antt`.
pub fn tables_run_as_the_abstract_mutex<T: Kept>()
    ensures { TablesRunAsTheAbstractMutex T.follows T.fits }
{}

/// From each moment of a table's run on, `queue_is_in_push_order` holds. Over the whole run, the stamps are 1, 2, 3 and so
/// on, and the answers `Held Queued` are the records that left the queue, or all of these except the last.
///
/// Definition: `TablesServeInPushOrder` in `specs/TableRuns.antt`. Proof: `proofs/TableRuns.antt`.
pub fn tables_serve_in_push_order<T: Kept>()
    ensures { TablesServeInPushOrder T.follows T.fits }
{}

/// From each moment of a table's run on, `queued_seats_are_overtaken_once`, `queued_seats_wait_for_few_releases` and
/// `no_seat_overtakes_twice` hold, the last also by the seat's trail.
///
/// Definition: `TablesOvertakeOnce` in `specs/TableRuns.antt`. Proof: `proofs/TableRuns.antt`.
pub fn tables_overtake_once<T: Kept>()
    ensures { TablesOvertakeOnce T.follows T.fits }
{}

/// From each moment of a table's run on, `queued_seats_are_served_in_rounds`, `queued_seats_are_served_in_fair_rounds` and
/// `queued_seats_are_served_whatever_owners_begin` hold. A queued thread behind k waits for its grant at most k + 1 releases,
/// and N + 8k + 7 rounds between holds.
///
/// Definition: `TablesServeInRounds` in `specs/TableRuns.antt`. Proof: `proofs/TableRuns.antt`.
pub fn tables_serve_in_rounds<T: Kept>()
    ensures { TablesServeInRounds T.follows T.fits }
{}

/// From each moment of a table's run on, `counted_seats_are_pushed_in_rounds` holds.
///
/// Definition: `TablesPushInRounds` in `specs/TableRuns.antt`. Proof: `proofs/TableRuns.antt`.
pub fn tables_push_in_rounds<T: Kept>()
    ensures { TablesPushInRounds T.follows T.fits }
{}

/// If k calls have ended since some moment of a table's run, at most (5N + 5)(N + k) steps of calls were made since. The
/// trails record exactly these steps, and the loads for `owner`.
///
/// Definition: `TablesEndCalls` in `specs/TableRuns.antt`. Proof: `proofs/TableRuns.antt`.
pub fn tables_end_calls<T: Kept>()
    ensures { TablesEndCalls T.follows T.fits }
{}

/// A seat's trail records exactly the records that it pushed in its table's run, and those by which it answered `Held Queued`.
///
/// Definitions: `TrailsTellThePushes` and `TrailsTellTheAnswers` in `specs/TableRuns.antt`. Proofs: `proofs/TableRuns.antt` and
/// `proofs/RunTrails.antt`.
pub fn trails_tell_the_records<T: Kept>()
    ensures pushes { TrailsTellThePushes T.follows T.fits }
    ensures answers { TrailsTellTheAnswers T.follows T.fits }
{}
