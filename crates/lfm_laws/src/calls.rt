//! What a call charges, how deep its seat holds, and what it answers. These laws hold for every steady state, and so for every
//! state that a schedule reaches.
ghost use Rattle.lfm_laws.specs.laws.Charges.{TakesChangeByCharges, TakesCountCharges};
ghost use Rattle.lfm_laws.specs.laws.ClaimedSeats.{ClaimedSeatsArePushed, ClaimedSeatsAreQueued};
ghost use Rattle.lfm_laws.specs.laws.Depths.{DepthCountsHolds};
ghost use Rattle.lfm_laws.specs.laws.Endings.{CallsEndInTheirKind};
ghost use Rattle.lfm_laws.specs.laws.Entries.{HoldersTookTheirRecord, ReceiversLoadedTheirGrant, RecursiveCallsLoadTheOwner};
ghost use Rattle.lfm_laws.specs.laws.InSchedules.{ClaimedSeatsAreQueuedInSchedules};
ghost use Rattle.lfm_laws.specs.laws.Releases.{ReleasesAnswerWhatTheyDid, ServedRecordsAreTold, WaitsAnswerTheirRelease};

/// A seat's takes rise by one when a `start_wait` opens, or a `lock` or `try_lock` at depth 0. They fall by one at a step
/// that is refused as Busy. No other event changes them.
///
/// Definition: `TakesChangeByCharges` in `specs/laws/Charges.antt`. Proof: `proofs/lawful/calls/TakesCounted.antt`.
pub fn takes_change_by_charges()
    ensures { TakesChangeByCharges }
{}

/// Over a run, a seat's takes grow by what its calls charged, less what refusals as Busy gave back.
///
/// Definition: `TakesCountCharges` in `specs/laws/Charges.antt`. Proof: `proofs/lawful/calls/TakesCounted.antt`.
pub fn takes_count_charges()
    ensures { TakesCountCharges }
{}

/// A step that answers a new hold raises the depth from 0 to 1. With Again it rises by one, with Still it falls by one, and
/// both answer the new depth. A release sets it to 0 with the store that empties the owner word. Nothing else changes it.
///
/// Definition: `DepthCountsHolds` in `specs/laws/Depths.antt`. Proof: `proofs/lawful/calls/DepthsCounted.antt`.
pub fn depth_counts_holds()
    ensures { DepthCountsHolds }
{}

/// A `lock` of a seat that holds makes exactly three steps, and a `try_lock` two, whatever the other seats do in between;
/// one loads the owner word.
///
/// Definition: `RecursiveCallsLoadTheOwner` in `specs/laws/Entries.antt`. Proof: `proofs/lawful/calls/RecursiveCalls.antt`.
pub fn recursive_calls_load_the_owner()
    ensures { RecursiveCallsLoadTheOwner }
{}

/// The step by which a `lock` answers Held with a stamp takes the oldest record from the queue: its seat's own, with that
/// stamp. The step by which a `lock` answers Held as Free, or a `try_lock` Held, takes none.
///
/// Definition: `HoldersTookTheirRecord` in `specs/laws/Entries.antt`. Proof: `proofs/lawful/calls/HeldTold.antt`.
pub fn holders_took_their_record()
    ensures { HoldersTookTheirRecord }
{}

/// A `receive` that ends with a hold found that grant in its wake word; one that ends with None found no grant there with its
/// last step.
///
/// Definition: `ReceiversLoadedTheirGrant` in `specs/laws/Entries.antt`. Proof: `proofs/lawful/calls/ReceivesTold.antt`.
pub fn receivers_loaded_their_grant()
    ensures { ReceiversLoadedTheirGrant }
{}

/// The answer of a release says what its last step did. Free: it took the count from 1 to 0. Granted: the oldest record, of the
/// named seat, left the queue, and its stamp is in the wake word of that seat. Posted: the recheck found the push list empty.
/// TakenOver: its own post was gone.
///
/// Definition: `ReleasesAnswerWhatTheyDid` in `specs/laws/Releases.antt`. Proof: `proofs/lawful/calls/ReleasesTold.antt`.
pub fn releases_answer_what_they_did()
    ensures { ReleasesAnswerWhatTheyDid }
{}

/// A step that removes the oldest record from the queue ends a lock, a send or a release. The lock holds by that record if
/// it is its own, and else sleeps; the send ends with Sent, the release with Granted and the record's seat.
///
/// Definition: `ServedRecordsAreTold` in `specs/laws/Releases.antt`. Proof: `proofs/lawful/calls/ReleasesTold.antt`.
pub fn served_records_are_told()
    ensures { ServedRecordsAreTold }
{}

/// A `start_wait` answers Waiting with what its own release did.
///
/// Definition: `WaitsAnswerTheirRelease` in `specs/laws/Releases.antt`. Proof: `proofs/lawful/calls/WaitsTold.antt`.
pub fn waits_answer_their_release()
    ensures { WaitsAnswerTheirRelease }
{}

/// A `send_lock` that has claimed its target and finds the count above 0 pushes the target's record once before it ends, and
/// no other. It is then the last of the queue.
///
/// Definitions: `ClaimedSeatsArePushed` and `ClaimedSeatsAreQueued` in `specs/laws/ClaimedSeats.antt`, and
/// `ClaimedSeatsAreQueuedInSchedules` in `specs/laws/InSchedules.antt`. Proofs: `proofs/lawful/calls/ClaimedSeats.antt` and
/// `proofs/lawful/runs/InSchedules.antt`.
pub fn claimed_seats_are_pushed()
    ensures pushed { ClaimedSeatsArePushed }
    ensures steady { ClaimedSeatsAreQueued }
    ensures schedules { ClaimedSeatsAreQueuedInSchedules }
{}

/// A call ends with an answer of its own kind: `lock` with Asked, `try_lock` with Locked, `unlock` with Unlocked,
/// `start_wait` with Waiting, `send_lock` with Sent, `receive` with Got.
///
/// Definition: `CallsEndInTheirKind` in `specs/laws/Endings.antt`. Proof: `proofs/lawful/calls/CallsEnded.antt`.
pub fn calls_end_in_their_kind()
    ensures { CallsEndInTheirKind }
{}
