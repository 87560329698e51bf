//! Progress: a release, a try and a receive are wait-free, every call is obstruction-free, and all calls together are
//! lock-free. N is the number of seats.
ghost use Rattle.lfm_laws.specs.laws.ConstantBounds.{ReceivesAreBounded, TriesAreBounded};
ghost use Rattle.lfm_laws.specs.laws.InSchedules.{
  UnlocksAreBoundedInSchedules,
  StartWaitsAreBoundedInSchedules,
  TriesAndReceivesAreBoundedInSchedules,
  CallsEndAloneInSchedules,
  PushesAloneFailOnceInSchedules,
  TriesAloneHoldInSchedules,
  CallsEndBesideOthersInSchedules,
  CallsChangeThePushWordTwiceInSchedules,
  CallsShareTheirStepsInSchedules,
  SomeCallEndsInSchedules,
  NoStateIsStuckInSchedules,
};
ghost use Rattle.lfm_laws.specs.laws.Laws.{UnlocksAreBounded, StartWaitsAreBounded, CallsEndAlone, PushesAloneFailOnce, TriesAloneHold};
ghost use Rattle.lfm_laws.specs.laws.Progress.{CallsEndBesideOthers, CallsChangeThePushWordTwice, CallsShareTheirSteps, SomeCallEnds, NoStateIsStuck};

/// An `unlock` makes at most N + 7 steps, whatever the other seats do in between.
///
/// Definitions: `UnlocksAreBounded` in `specs/laws/Laws.antt`, and `UnlocksAreBoundedInSchedules` in
/// `specs/laws/InSchedules.antt`. Proofs: `proofs/lawful/bounds/ReleaseBounds.antt` and
/// `proofs/lawful/runs/InSchedules.antt`.
pub fn unlocks_are_bounded()
    ensures steady { UnlocksAreBounded }
    ensures schedules { UnlocksAreBoundedInSchedules }
{}

/// A `start_wait` makes at most N + 8 steps, whatever the other seats do in between.
///
/// Definitions: `StartWaitsAreBounded` in `specs/laws/Laws.antt`, and `StartWaitsAreBoundedInSchedules` in
/// `specs/laws/InSchedules.antt`. Proofs: `proofs/lawful/bounds/ReleaseBounds.antt` and
/// `proofs/lawful/runs/InSchedules.antt`.
pub fn start_waits_are_bounded()
    ensures steady { StartWaitsAreBounded }
    ensures schedules { StartWaitsAreBoundedInSchedules }
{}

/// A `try_lock` ends within 6 of its own atomic steps and a `receive` within 3, however many other seats interleave.
///
/// Definitions: `TriesAreBounded` and `ReceivesAreBounded` in `specs/laws/ConstantBounds.antt`, and
/// `TriesAndReceivesAreBoundedInSchedules` in `specs/laws/InSchedules.antt`. Proofs:
/// `proofs/lawful/bounds/ConstantBounds.antt` and `proofs/lawful/runs/InSchedules.antt`.
pub fn tries_and_receives_are_bounded()
    ensures tries { TriesAreBounded }
    ensures receives { ReceivesAreBounded }
    ensures schedules { TriesAndReceivesAreBoundedInSchedules }
{}

/// If only its seat makes steps, an open call ends within N + 16 of them, so `*` makes no more. `calls_end_beside_others`
/// gives N + 9.
///
/// Definitions: `CallsEndAlone` in `specs/laws/Laws.antt`, and `CallsEndAloneInSchedules` in `specs/laws/InSchedules.antt`.
/// Proofs: `proofs/lawful/bounds/CallsEnd.antt` and `proofs/lawful/runs/InSchedules.antt`.
pub fn calls_end_alone()
    ensures steady { CallsEndAlone }
    ensures schedules { CallsEndAloneInSchedules }
{}

/// If only its seat makes steps, the push exchange after a failed one succeeds.
///
/// Definitions: `PushesAloneFailOnce` in `specs/laws/Laws.antt`, and `PushesAloneFailOnceInSchedules` in
/// `specs/laws/InSchedules.antt`. Proofs: `proofs/lawful/bounds/PushesAlone.antt` and
/// `proofs/lawful/runs/InSchedules.antt`.
pub fn pushes_alone_fail_once()
    ensures steady { PushesAloneFailOnce }
    ensures schedules { PushesAloneFailOnceInSchedules }
{}

/// If only its seat makes steps, a `try_lock` of a seat that rests, holds nothing and has a take left ends with `Held Free`:
/// within two steps if the count is 0, within six if the mutex is posted.
///
/// Definitions: `TriesAloneHold` in `specs/laws/Laws.antt`, and `TriesAloneHoldInSchedules` in
/// `specs/laws/InSchedules.antt`. Proofs: `proofs/lawful/bounds/TriesAlone.antt` and `proofs/lawful/runs/InSchedules.antt`.
pub fn tries_alone_hold()
    ensures steady { TriesAloneHold }
    ensures schedules { TriesAloneHoldInSchedules }
{}

/// An open call makes at most N + 9 steps, plus two for each time that another seat changes the push word before the call
/// ends.
///
/// Definitions: `CallsEndBesideOthers` in `specs/laws/Progress.antt`, and `CallsEndBesideOthersInSchedules` in
/// `specs/laws/InSchedules.antt`. Proofs: `proofs/lawful/bounds/Beside.antt` and `proofs/lawful/runs/InSchedules.antt`.
pub fn calls_end_beside_others()
    ensures steady { CallsEndBesideOthers }
    ensures schedules { CallsEndBesideOthersInSchedules }
{}

/// A call changes the push word at most twice.
///
/// Definitions: `CallsChangeThePushWordTwice` in `specs/laws/Progress.antt`, and `CallsChangeThePushWordTwiceInSchedules`
/// in `specs/laws/InSchedules.antt`. Proofs: `proofs/lawful/bounds/Beside.antt` and `proofs/lawful/runs/InSchedules.antt`.
pub fn calls_change_the_push_word_twice()
    ensures steady { CallsChangeThePushWordTwice }
    ensures schedules { CallsChangeThePushWordTwiceInSchedules }
{}

/// The calls that were open before a run and those that open in it together make at most 5N + 5 steps per call.
///
/// Definitions: `CallsShareTheirSteps` in `specs/laws/Progress.antt`, and `CallsShareTheirStepsInSchedules` in
/// `specs/laws/InSchedules.antt`. Proofs: `proofs/lawful/bounds/LockFree.antt` and `proofs/lawful/runs/InSchedules.antt`.
pub fn calls_share_their_steps()
    ensures steady { CallsShareTheirSteps }
    ensures schedules { CallsShareTheirStepsInSchedules }
{}

/// Among any 5N(N + 1) + 1 steps of calls, however the seats interleave, some call ends.
///
/// Definitions: `SomeCallEnds` in `specs/laws/Progress.antt`, and `SomeCallEndsInSchedules` in
/// `specs/laws/InSchedules.antt`. Proofs: `proofs/lawful/bounds/LockFree.antt` and `proofs/lawful/runs/InSchedules.antt`.
pub fn some_call_ends()
    ensures steady { SomeCallEnds }
    ensures schedules { SomeCallEndsInSchedules }
{}

/// From each state with k open calls, some sequence of at most (5N + 5)k steps leads to one without. Nothing is posted
/// there, and if the count is above 0, a seat owns or a sleeping seat has its grant.
///
/// Definitions: `NoStateIsStuck` in `specs/laws/Progress.antt`, and `NoStateIsStuckInSchedules` in
/// `specs/laws/InSchedules.antt`. Proofs: `proofs/lawful/bounds/Resting.antt` and `proofs/lawful/runs/InSchedules.antt`.
pub fn no_state_is_stuck()
    ensures steady { NoStateIsStuck }
    ensures schedules { NoStateIsStuckInSchedules }
{}
