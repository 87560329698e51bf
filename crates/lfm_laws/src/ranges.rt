//! The ranges of all numbers: nothing wraps. N is the number of seats.
ghost use Rattle.lfm_laws.specs.laws.Ranges.{LimitsStay, NumbersStayInRange, StepsHaveRoom, StepsHaveRoomInLimits};

/// With a budget of B, the stamp is at most N · B and the count at most N + 1; a seat's depth is at most 65,535, its takes
/// at most B, and its posts at most its takes.
///
/// Definition: `NumbersStayInRange` in `specs/laws/Ranges.antt`. Proof: `proofs/lawful/states/RangesRead.antt`.
pub fn numbers_stay_in_range()
    ensures { NumbersStayInRange }
{}

/// If stamp and posts fit their words, the next step of each seat wraps no number, and touches only seats that exist.
///
/// Definitions: `StepsHaveRoom` in `specs/laws/Ranges.antt`, `NumbersFit` in `specs/steady/Steady.antt`. Proof:
/// `proofs/lawful/states/RangesRead.antt`.
pub fn steps_have_room()
    ensures { StepsHaveRoom }
{}

/// Within the limits both fit, so no step wraps a number.
///
/// Definition: `StepsHaveRoomInLimits` in `specs/laws/Ranges.antt`. Proof: `proofs/lawful/states/RangesRead.antt`.
pub fn steps_have_room_in_limits()
    ensures { StepsHaveRoomInLimits }
{}

/// A run from the start changes neither the number of seats nor the budget.
///
/// Definition: `LimitsStay` in `specs/laws/Ranges.antt`. Proof: `proofs/lawful/runs/LimitsKept.antt`.
pub fn limits_stay()
    ensures { LimitsStay }
{}
