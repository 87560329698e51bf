//! What is true of one seat in the mutexes of its pool.
ghost use Rattle.lfm_pool_laws.specs.SeatLaws.{RestingSeatsAreQuiet, SeatsActInOneMutex};

/// A seat that is in a call in one mutex of a pool, sleeps there or is in its queue rests in all others. So it sleeps in at
/// most one.
///
/// Definition: `SeatsActInOneMutex` in `specs/SeatLaws.antt`. Proof: `proofs/Seats.antt`.
pub fn seats_act_in_one_mutex()
    ensures { SeatsActInOneMutex }
{}

/// A seat that rests in all mutexes of a pool has the wake word QUIET, and is in no queue. It has the responsibility for no
/// mutex that it does not hold. So if it holds none, its number may go to another thread.
///
/// Definition: `RestingSeatsAreQuiet` in `specs/SeatLaws.antt`. Proof: `proofs/Seats.antt`.
pub fn resting_seats_are_quiet()
    ensures { RestingSeatsAreQuiet }
{}
