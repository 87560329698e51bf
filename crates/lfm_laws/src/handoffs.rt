//! No lost wake-up: every post is watched, every sleeping seat with no call open is reachable, and a `lock`, `unlock`,
//! `start_wait` or `send_lock` that has won a post finds a record. These laws are about words and steps. That the park
//! of a thread ends once its grant is stored is only tested.
ghost use Rattle.lfm_laws.specs.laws.Grants.{CallsGrantOnce};
ghost use Rattle.lfm_laws.specs.laws.InSchedules.{
  HandoffsAreWatchedInSchedules,
  QuiescentStatesRestInSchedules,
  SleepersAreReachableInSchedules,
  TakesFindARecordInSchedules,
  WonPostsHaveARecordInSchedules,
  FailedPushesSeeChangeInSchedules,
  CallsPostOnceInSchedules,
  CallsGrantOnceInSchedules,
};
ghost use Rattle.lfm_laws.specs.laws.Laws.{HandoffsAreWatched, QuiescentStatesRest, SleepersAreReachable, TakesFindARecord, WonPostsHaveARecord, FailedPushesSeeChange, CallsPostOnce};
ghost use Rattle.lfm_laws.specs.laws.TriedPosts.{PostsWithRecordsAreTried};

/// While the mutex is posted, some open call has yet to load the post, or has made or loaded it and has yet to try its
/// exchange.
///
/// Definitions: `HandoffsAreWatched` in `specs/laws/Laws.antt`, and `HandoffsAreWatchedInSchedules` in
/// `specs/laws/InSchedules.antt`. Proofs: `proofs/lawful/states/StateLaws.antt` and `proofs/lawful/runs/InSchedules.antt`.
pub fn handoffs_are_watched()
    ensures steady { HandoffsAreWatched }
    ensures schedules { HandoffsAreWatchedInSchedules }
{}

/// While the mutex is posted and the push list has a record, some open call has pushed and loads the handoff next, or has loaded
/// or made this post and has yet to try its exchange.
///
/// Definition: `PostsWithRecordsAreTried` in `specs/laws/TriedPosts.antt`. Proof: `proofs/lawful/rounds/TriedPosts.antt`.
pub fn posts_with_records_are_tried()
    ensures { PostsWithRecordsAreTried }
{}

/// If no call is open, nothing is posted. If then the count is above 0, a seat owns or a sleeping seat has its grant.
///
/// Definitions: `QuiescentStatesRest` in `specs/laws/Laws.antt`, and `QuiescentStatesRestInSchedules` in
/// `specs/laws/InSchedules.antt`. Proofs: `proofs/lawful/states/StateLaws.antt` and `proofs/lawful/runs/InSchedules.antt`.
pub fn quiescent_states_rest()
    ensures steady { QuiescentStatesRest }
    ensures schedules { QuiescentStatesRestInSchedules }
{}

/// A seat that sleeps with no call open is queued, has its grant, is WAITING for a send, or is between the claim of a send and
/// its grant.
///
/// Definitions: `SleepersAreReachable` in `specs/laws/Laws.antt`, and `SleepersAreReachableInSchedules` in
/// `specs/laws/InSchedules.antt`. Proofs: `proofs/lawful/states/Sleepers.antt` and `proofs/lawful/runs/InSchedules.antt`.
pub fn sleepers_are_reachable()
    ensures steady { SleepersAreReachable }
    ensures schedules { SleepersAreReachableInSchedules }
{}

/// A `lock`, `unlock`, `start_wait` or `send_lock` that has won a post finds a record when it clears the push list, and none in
/// the pop list.
///
/// Definitions: `TakesFindARecord` in `specs/laws/Laws.antt`, and `TakesFindARecordInSchedules` in
/// `specs/laws/InSchedules.antt`. Proofs: `proofs/lawful/states/StateLaws.antt` and `proofs/lawful/runs/InSchedules.antt`.
pub fn takes_find_a_record()
    ensures steady { TakesFindARecord }
    ensures schedules { TakesFindARecordInSchedules }
{}

/// At the exchange that wins a post in a `lock`, `unlock`, `start_wait` or `send_lock`, the push list has a record and the pop
/// list has none.
///
/// Definitions: `WonPostsHaveARecord` in `specs/laws/Laws.antt`, and `WonPostsHaveARecordInSchedules` in
/// `specs/laws/InSchedules.antt`. Proofs: `proofs/lawful/states/WonPosts.antt` and `proofs/lawful/runs/InSchedules.antt`.
pub fn won_posts_have_a_record()
    ensures steady { WonPostsHaveARecord }
    ensures schedules { WonPostsHaveARecordInSchedules }
{}

/// A push exchange fails only if, since its call last read the push word, the stamp has risen or the push list was cleared.
///
/// Definitions: `FailedPushesSeeChange` in `specs/laws/Laws.antt`, and `FailedPushesSeeChangeInSchedules` in
/// `specs/laws/InSchedules.antt`. Proofs: `proofs/lawful/states/StateLaws.antt` and `proofs/lawful/runs/InSchedules.antt`.
pub fn failed_pushes_see_change()
    ensures steady { FailedPushesSeeChange }
    ensures schedules { FailedPushesSeeChangeInSchedules }
{}

/// No call posts twice, whatever the other seats do in between.
///
/// Definitions: `CallsPostOnce` in `specs/laws/Laws.antt`, and `CallsPostOnceInSchedules` in `specs/laws/InSchedules.antt`.
/// Proofs: `proofs/lawful/bounds/PostsOnce.antt` and `proofs/lawful/runs/InSchedules.antt`.
pub fn calls_post_once()
    ensures steady { CallsPostOnce }
    ensures schedules { CallsPostOnceInSchedules }
{}

/// A call stores at most one grant, whatever the other seats do in between.
///
/// Definitions: `CallsGrantOnce` in `specs/laws/Grants.antt`, and `CallsGrantOnceInSchedules` in
/// `specs/laws/InSchedules.antt`. Proofs: `proofs/lawful/bounds/GrantsOnce.antt` and `proofs/lawful/runs/InSchedules.antt`.
pub fn calls_grant_once()
    ensures steady { CallsGrantOnce }
    ensures schedules { CallsGrantOnceInSchedules }
{}
