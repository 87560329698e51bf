//! From the queue, and from a grant, to the hold: after how many rounds a seat owns, whatever calls begin.
ghost use Rattle.lfm_laws.specs.laws.HoldingInRounds.{GrantedSeatsHoldInRounds, QueuedSeatsHoldInRounds};

/// Starvation freedom up to the hold. A seat that has its grant owns within five rounds, whichever calls begin. Among N seats,
/// the seat of a queued record with k before it owns within N + 8k + 11 rounds that begin while no seat owns, however long holds
/// last.
///
/// Definitions: `GrantedSeatsHoldInRounds` and `QueuedSeatsHoldInRounds` in `specs/laws/HoldingInRounds.antt`. Proof:
/// `proofs/lawful/rounds/HoldingInRounds.antt`.
pub fn queued_seats_hold_in_rounds()
    ensures granted { GrantedSeatsHoldInRounds }
    ensures queued { QueuedSeatsHoldInRounds }
{}
