//! First come, first served: the order of the queue, that a counted seat is pushed, and that a queued seat is served, how
//! soon, whatever calls begin. N is the number of seats.
ghost use Rattle.lfm_laws.specs.laws.InSchedules.{
  QueueIsInPushOrderInSchedules,
  StampsAreConsecutiveInSchedules,
  QueuedSeatsAreOvertakenOnceInSchedules,
  QueuedSeatsWaitForFewReleasesInSchedules,
  NoSeatOvertakesTwiceInSchedules,
  QueuedSeatsAreServedSoonInSchedules,
  StepsServeInSchedules,
  SomebodyCanServeInSchedules,
};
ghost use Rattle.lfm_laws.specs.laws.Laws.{QueueIsInPushOrder, StampsAreConsecutive, AnswersAreTheRecords};
ghost use Rattle.lfm_laws.specs.laws.Overtaking.{QueuedSeatsAreOvertakenOnce, QueuedSeatsWaitForFewReleases, NoSeatOvertakesTwice};
ghost use Rattle.lfm_laws.specs.laws.BeforePush.{CountedSeatsArePushedInRounds, CountedSeatsArePushedWithinBudgets};
ghost use Rattle.lfm_laws.specs.laws.FairRounds.{FairRoundsCanBeMade, QueuedSeatsAreServedInFairRounds};
ghost use Rattle.lfm_laws.specs.laws.FullRounds.{FullRoundsCanBeMade, QueuedSeatsAreServedWhateverOwnersBegin};
ghost use Rattle.lfm_laws.specs.laws.Rounds.{QueuedSeatsAreServedInRounds, RoundsCanBeMade};
ghost use Rattle.lfm_laws.specs.laws.Service.{QueuedSeatsAreServedSoon, StepsServe, SomebodyCanServe};

/// In any run, the queue before it followed by the records that it pushes equals, in order, the records that leave in it
/// followed by the queue after it.
///
/// Definitions: `QueueIsInPushOrder` in `specs/laws/Laws.antt`, and `QueueIsInPushOrderInSchedules` in
/// `specs/laws/InSchedules.antt`. Proofs: `proofs/lawful/runs/PushOrder.antt` and `proofs/lawful/runs/InSchedules.antt`.
pub fn queue_is_in_push_order()
    ensures steady { QueueIsInPushOrder }
    ensures schedules { QueueIsInPushOrderInSchedules }
{}

/// The stamps of a run's successful pushes are consecutive, and the first is one more than that of the push word before the
/// run, which is 0 at the start.
///
/// Definitions: `StampsAreConsecutive` in `specs/laws/Laws.antt`, and `StampsAreConsecutiveInSchedules` in
/// `specs/laws/InSchedules.antt`. Proofs: `proofs/lawful/runs/PushOrder.antt` and `proofs/lawful/runs/InSchedules.antt`.
pub fn stamps_are_consecutive()
    ensures steady { StampsAreConsecutive }
    ensures schedules { StampsAreConsecutiveInSchedules }
{}

/// In a run from the start, the answers `Held Queued` are the records that left the queue, in that order. Only the last of them
/// may have no answer yet.
///
/// Definition: `AnswersAreTheRecords` in `specs/laws/Laws.antt`. Proof: `proofs/lawful/runs/PushOrder.antt`.
pub fn answers_are_the_records()
    ensures { AnswersAreTheRecords }
{}

/// While a queued record has not left the queue, seats become the owner at most once more than records leave it.
///
/// Definitions: `QueuedSeatsAreOvertakenOnce` in `specs/laws/Overtaking.antt`, and `QueuedSeatsAreOvertakenOnceInSchedules`
/// in `specs/laws/InSchedules.antt`. Proofs: `proofs/lawful/bounds/Overtaken.antt` and
/// `proofs/lawful/runs/InSchedules.antt`.
pub fn queued_seats_are_overtaken_once()
    ensures steady { QueuedSeatsAreOvertakenOnce }
    ensures schedules { QueuedSeatsAreOvertakenOnceInSchedules }
{}

/// While a queued record has not left the queue, owners release at most once more than records leave it. So a queued seat
/// with k before it waits for at most k + 1 releases.
///
/// Definitions: `QueuedSeatsWaitForFewReleases` in `specs/laws/Overtaking.antt`, and
/// `QueuedSeatsWaitForFewReleasesInSchedules` in `specs/laws/InSchedules.antt`. Proofs:
/// `proofs/lawful/bounds/Overtaken.antt` and `proofs/lawful/runs/InSchedules.antt`.
pub fn queued_seats_wait_for_few_releases()
    ensures steady { QueuedSeatsWaitForFewReleases }
    ensures schedules { QueuedSeatsWaitForFewReleasesInSchedules }
{}

/// While a queued record has not left the queue, no seat becomes the owner twice.
///
/// Definitions: `NoSeatOvertakesTwice` in `specs/laws/Overtaking.antt`, and `NoSeatOvertakesTwiceInSchedules` in
/// `specs/laws/InSchedules.antt`. Proofs: `proofs/lawful/bounds/Overtakers.antt` and `proofs/lawful/runs/InSchedules.antt`.
pub fn no_seat_overtakes_twice()
    ensures steady { NoSeatOvertakesTwice }
    ensures schedules { NoSeatOvertakesTwiceInSchedules }
{}

/// If only unlocks begin in a run in which o calls are open at first, and receives of seats that have their grant, calls
/// make at most (5N + 5)(o + 2k + 2) steps until a queued record with k before it leaves.
///
/// Definitions: `QueuedSeatsAreServedSoon` in `specs/laws/Service.antt`, and `QueuedSeatsAreServedSoonInSchedules` in
/// `specs/laws/InSchedules.antt`. Proofs: `proofs/lawful/bounds/Served.antt` and `proofs/lawful/runs/InSchedules.antt`.
pub fn queued_seats_are_served_soon()
    ensures steady { QueuedSeatsAreServedSoon }
    ensures schedules { QueuedSeatsAreServedSoonInSchedules }
{}

/// With the premise of `queued_seats_are_served_soon`, once calls have made more steps than its bound, the record has left the
/// queue.
///
/// Definitions: `StepsServe` in `specs/laws/Service.antt`, and `StepsServeInSchedules` in `specs/laws/InSchedules.antt`.
/// Proofs: `proofs/lawful/bounds/Served.antt` and `proofs/lawful/runs/InSchedules.antt`.
pub fn steps_serve()
    ensures steady { StepsServe }
    ensures schedules { StepsServeInSchedules }
{}

/// While a record is queued, the count is above 0. While it is above 0, an open call can make its step, a seat that holds can
/// start an `unlock`, or a sleeping seat that has its grant can start a `receive`.
///
/// Definitions: `SomebodyCanServe` in `specs/laws/Service.antt`, and `SomebodyCanServeInSchedules` in
/// `specs/laws/InSchedules.antt`. Proofs: `proofs/lawful/bounds/CanServe.antt` and `proofs/lawful/runs/InSchedules.antt`.
pub fn somebody_can_serve()
    ensures steady { SomebodyCanServe }
    ensures schedules { SomebodyCanServeInSchedules }
{}

/// A call that has counted a seat and has yet to push it does so within 4p + 6 rounds, if p records are pushed meanwhile,
/// and within 4NB + 2 with a budget of B. Only others' pushes delay it, and only budgets bound those, as in lock freedom.
///
/// Definitions: `CountedSeatsArePushedInRounds` and `CountedSeatsArePushedWithinBudgets` in `specs/laws/BeforePush.antt`.
/// Proof: `proofs/lawful/rounds/BeforePush.antt`.
pub fn counted_seats_are_pushed_in_rounds()
    ensures rounds { CountedSeatsArePushedInRounds }
    ensures budgets { CountedSeatsArePushedWithinBudgets }
{}

/// Starvation freedom from the push on. In a *round*, each seat that can go on at its start makes a step of its open call,
/// or begins its receive if it sleeps and has its grant. A queued record with k before it has left the queue after N + 8k +
/// 7 rounds that begin while no seat owns, whichever calls begin and however long holds last.
///
/// Definition: `QueuedSeatsAreServedInRounds` in `specs/laws/Rounds.antt`. Proof: `proofs/lawful/rounds/Runs.antt`.
pub fn queued_seats_are_served_in_rounds()
    ensures { QueuedSeatsAreServedInRounds }
{}

/// Let the owner be between two calls or releasing, and owners begin only releases. In a *fair round* an owner between two
/// calls at its start begins one. A queued record with k before it has left the queue after N + 10k + 9 fair rounds, one
/// more for each hold of the present owner, and one.
///
/// Definition: `QueuedSeatsAreServedInFairRounds` in `specs/laws/FairRounds.antt`. Proof:
/// `proofs/lawful/rounds/FairRounds.antt`.
pub fn queued_seats_are_served_in_fair_rounds()
    ensures { QueuedSeatsAreServedInFairRounds }
{}

/// Let owners begin other calls too. In a *full round* an owner between two calls at its start begins one that isn't
/// refused. Then a queued record with k before it has left the queue after 3N + 10k + 12 full rounds, one more for each
/// hold of the present owner, and five more for each of these.
///
/// Definition: `QueuedSeatsAreServedWhateverOwnersBegin` in `specs/laws/FullRounds.antt`. Proof:
/// `proofs/lawful/rounds/FullRounds.antt`.
pub fn queued_seats_are_served_whatever_owners_begin()
    ensures { QueuedSeatsAreServedWhateverOwnersBegin }
{}

/// From each state a round can be made in which only receives begin, and from each reached state a full one in which owners
/// begin only releases. Unless the owner is in a call other than its release, a fair one can be made, and then another.
///
/// Definitions: `RoundsCanBeMade` in `specs/laws/Rounds.antt`, `FairRoundsCanBeMade` in `specs/laws/FairRounds.antt`, and
/// `FullRoundsCanBeMade` in `specs/laws/FullRounds.antt`. Proof: `proofs/lawful/rounds/Made.antt`.
pub fn rounds_can_be_made()
    ensures rounds { RoundsCanBeMade }
    ensures fair { FairRoundsCanBeMade }
    ensures full { FullRoundsCanBeMade }
{}
