//! The laws of the user mutex below the condvars: it behaves as in a schedule of the mutex alone.
ghost use Rattle.lfm_condvar_laws.specs.Laws.{CoresAreReached, OwnCallsAreFree};

/// The user mutex is always in a state that a schedule of the mutex alone reaches within the limits. So all laws of reached
/// states hold.
///
/// Definition: `CoresAreReached` in `specs/Laws.antt`. Proof: `proofs/mutex/MutexRuns.antt`.
pub fn cores_are_reached()
    ensures { CoresAreReached }
{}

/// Each call except `start_wait` and `send_lock`, and each step, of a seat in no call on a condvar changes the user mutex as in
/// a schedule of the mutex alone, and changes no condvar.
///
/// Definition: `OwnCallsAreFree` in `specs/Laws.antt`. Proof: `proofs/mutex/OwnCalls.antt`.
pub fn own_calls_are_free()
    ensures { OwnCallsAreFree }
{}
