//! The laws of waits: where their tickets are, and what ends them.
ghost use Rattle.lfm_plain_condvar_laws.specs.Laws.{TicketsAreInOnePlace, WaitsEndByWakesOrLimits, WakesTakeTheOldest};

/// Each ticket that was given is in one place: in the list, with a waiter whose wake-up is on its way, or with a wait that
/// was woken or timed out. So no wait is woken twice, times out twice, or is both woken and timed out.
///
/// Definition: `TicketsAreInOnePlace` in `specs/Laws.antt`. Proof: `proofs/Places.antt`.
pub fn tickets_are_in_one_place()
    ensures { TicketsAreInOnePlace }
{}

/// The list is in the order of the tickets. A wake takes out the oldest waiter: whoever still waits has a later ticket than
/// each that a wake took out.
///
/// Definition: `WakesTakeTheOldest` in `specs/Laws.antt`. Proof: `proofs/Order.antt`.
pub fn wakes_take_the_oldest()
    ensures { WakesTakeTheOldest }
{}

/// A waiter stays in the list, with its seat and its ticket, until a wake or its time takes it out. If a wake took it out, it
/// returns as woken, whatever else happens, if it returns. There are as many wakes that found a waiter as waiters that were
/// woken or whose wake-up is on its way. The waits of a seat that timed out are as many as the ends of its own time limits,
/// and those that were woken are as many as its own returns.
///
/// Definition: `WaitsEndByWakesOrLimits` in `specs/Laws.antt`. Proof: `proofs/Ends.antt`.
pub fn waits_end_by_wakes_or_limits()
    ensures { WaitsEndByWakesOrLimits }
{}
