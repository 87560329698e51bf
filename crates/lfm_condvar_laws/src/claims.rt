//! The laws of claims: how the wakes of a condvar claim the waiters, and in which order they push their records.
ghost use Rattle.lfm_condvar_laws.specs.Laws.{ClaimsNeverFail, TicketsAreClaimedOnce, ClaimsAreInOrder, PushesAreInOrder};

/// A seat that is about to make the exchange of a `send_lock` finds its target waiting. So no wake is refused as NotWaiting.
///
/// Definition: `ClaimsNeverFail` in `specs/Laws.antt`. Proof: `proofs/reached/ClaimsFound.antt`.
pub fn claims_never_fail()
    ensures { ClaimsNeverFail }
{}

/// No ticket is claimed twice.
///
/// Definition: `TicketsAreClaimedOnce` in `specs/Laws.antt`. Proof: `proofs/reached/WaitsSent.antt`.
pub fn tickets_are_claimed_once()
    ensures { TicketsAreClaimedOnce }
{}

/// First come, first served: wakes claim the tickets of a condvar in the order in which they were given, from 1 and without
/// gaps. While the lock is free, as many tickets are claimed as are sent.
///
/// Definition: `ClaimsAreInOrder` in `specs/Laws.antt`. Proof: `proofs/reached/WaitsSent.antt`.
pub fn claims_are_in_order()
    ensures { ClaimsAreInOrder }
{}

/// The user mutex keeps the order: the records that the wakes of a condvar push for their targets increase by ticket, and each
/// is for a seat that was claimed with this ticket. Not stated: that each claimed seat is pushed.
///
/// Definition: `PushesAreInOrder` in `specs/Laws.antt`. Proof: `proofs/reached/PushOrder.antt`.
pub fn pushes_are_in_order()
    ensures { PushesAreInOrder }
{}
