//! Mutual exclusion: at most one seat owns the mutex, and no step loses or doubles the responsibility for it.
ghost use Rattle.lfm_laws.specs.laws.InSchedules.{
  OneSeatOwnsInSchedules,
  OneHasTheResponsibilityInSchedules,
  PlacesAreReadInSchedules,
  CountIsZeroIfFreeInSchedules,
};
ghost use Rattle.lfm_laws.specs.laws.Laws.{OneSeatOwns, OneHasTheResponsibility, CountIsZeroIfFree, PlacesAreRead};

/// At most one seat has a depth above 0, in every steady state and after every schedule.
///
/// Definitions: `OneSeatOwns` in `specs/laws/Laws.antt`, and `OneSeatOwnsInSchedules` in `specs/laws/InSchedules.antt`.
/// Proofs: `proofs/lawful/states/Owning.antt` and `proofs/lawful/runs/InSchedules.antt`.
pub fn one_seat_owns()
    ensures steady { OneSeatOwns }
    ensures schedules { OneSeatOwnsInSchedules }
{}

/// If the count is above 0, the words, depths and points show exactly one place of the responsibility.
///
/// Definitions: `OneHasTheResponsibility` in `specs/laws/Laws.antt`, and `OneHasTheResponsibilityInSchedules` in
/// `specs/laws/InSchedules.antt`. Proofs: `proofs/lawful/states/Owning.antt` and `proofs/lawful/runs/InSchedules.antt`.
pub fn one_has_the_responsibility()
    ensures steady { OneHasTheResponsibility }
    ensures schedules { OneHasTheResponsibilityInSchedules }
{}

/// The count is 0 exactly if the place is free.
///
/// Definitions: `CountIsZeroIfFree` in `specs/laws/Laws.antt`, and `CountIsZeroIfFreeInSchedules` in
/// `specs/laws/InSchedules.antt`. Proofs: `proofs/lawful/states/CountLaws.antt` and `proofs/lawful/runs/InSchedules.antt`.
pub fn count_is_zero_if_free()
    ensures steady { CountIsZeroIfFree }
    ensures schedules { CountIsZeroIfFreeInSchedules }
{}

/// The place that a trace prints is the place of the abstract mutex that the state stands for.
///
/// Definitions: `PlacesAreRead` in `specs/laws/Laws.antt`, and `PlacesAreReadInSchedules` in `specs/laws/InSchedules.antt`.
/// Proofs: `proofs/lawful/states/CountLaws.antt` and `proofs/lawful/runs/InSchedules.antt`.
pub fn places_are_read()
    ensures steady { PlacesAreRead }
    ensures schedules { PlacesAreReadInSchedules }
{}
