//! The laws of a `wait`: its seat is not in the list yet, it sleeps until it is sent, and it ends holding.
ghost use Rattle.lfm_condvar_laws.specs.Rounds.{SentWaitersHoldInRounds, GrantedWaitersHoldInRounds, RoundsCanBeMade};
ghost use Rattle.lfm_condvar_laws.specs.Laws.{WaitsAreNew, WaitsAreSent, WaitsSleepUntilSent, WaitsEndHolding, WaitsCanEnd};

/// No `wait` that has taken the lock finds its seat in the list. So none is refused as Busy.
///
/// Definition: `WaitsAreNew` in `specs/Laws.antt`. Proof: `proofs/reached/ListOrder.antt`.
pub fn waits_are_new()
    ensures { WaitsAreNew }
{}

/// When a `wait` is about to end, exactly one claim has been made with its ticket, for its own seat.
///
/// Definition: `WaitsAreSent` in `specs/Laws.antt`. Proof: `proofs/reached/WaitsSent.antt`.
pub fn waits_are_sent()
    ensures { WaitsAreSent }
{}

/// After a `wait` has released the lock, either its wake word is WAITING and no claim has been made with its ticket, or exactly
/// one, for its own seat.
///
/// Definition: `WaitsSleepUntilSent` in `specs/Laws.antt`. Proof: `proofs/reached/WaitsSent.antt`.
pub fn waits_sleep_until_sent()
    ensures { WaitsSleepUntilSent }
{}

/// A `wait` that is about to end holds the user mutex, at depth 1.
///
/// Definition: `WaitsEndHolding` in `specs/Laws.antt`. Proof: `proofs/reached/WaitsSent.antt`.
pub fn waits_end_holding()
    ensures { WaitsEndHolding }
{}

/// In some run a `wait` is about to end, so the other laws are not vacuous.
///
/// Definition: `WaitsCanEnd` in `specs/Laws.antt`. Proof: `proofs/reached/OneWait.antt`.
pub fn waits_can_end()
    ensures { WaitsCanEnd }
{}

/// Starvation freedom of waiters. In a *round*, each seat that can go on in the user mutex does so. Among N seats, a waiter that
/// was sent and is queued, with k records before its own, holds within N + 8k + 11 rounds that begin while no seat owns, and its
/// `wait` is about to end. One that has its grant holds within five. A round can always be made.
///
/// Definitions: `SentWaitersHoldInRounds`, `GrantedWaitersHoldInRounds` and `RoundsCanBeMade` in `specs/Rounds.antt`. Proofs:
/// `proofs/rounds/SentWaiters.antt` and `proofs/rounds/Made.antt`.
pub fn sent_waiters_hold_in_rounds()
    ensures queued { SentWaitersHoldInRounds }
    ensures granted { GrantedWaitersHoldInRounds }
    ensures rounds { RoundsCanBeMade }
{}
