//! What the laws of schedules say about the run of each mutex of a pool. The actions, rounds and steps of these laws are
//! those in this mutex alone, and the trails are what its seats record of them.
ghost use Rattle.lfm_pool_laws.specs.RunLaws.{
  MutexesAreOvertakenOnce,
  MutexesEndCalls,
  MutexesPushInRounds,
  MutexesRunAsTheAbstractMutex,
  MutexesServeInPushOrder,
  MutexesServeInRounds,
};

/// `tables_run_as_the_abstract_mutex`, of the run of each mutex.
///
/// Definition: `MutexesRunAsTheAbstractMutex` in `specs/RunLaws.antt`. Proof: `proofs/Runs.antt`.
pub fn mutexes_run_as_the_abstract_mutex()
    ensures { MutexesRunAsTheAbstractMutex }
{}

/// `tables_serve_in_push_order`, of the run of each mutex.
///
/// Definition: `MutexesServeInPushOrder` in `specs/RunLaws.antt`. Proof: `proofs/Runs.antt`.
pub fn mutexes_serve_in_push_order()
    ensures { MutexesServeInPushOrder }
{}

/// `tables_overtake_once`, of the run of each mutex.
///
/// Definition: `MutexesAreOvertakenOnce` in `specs/RunLaws.antt`. Proof: `proofs/Runs.antt`.
pub fn mutexes_are_overtaken_once()
    ensures { MutexesAreOvertakenOnce }
{}

/// `tables_serve_in_rounds`, of the run of each mutex.
///
/// Definition: `MutexesServeInRounds` in `specs/RunLaws.antt`. Proof: `proofs/Runs.antt`.
pub fn mutexes_serve_in_rounds()
    ensures { MutexesServeInRounds }
{}

/// `tables_push_in_rounds`, of the run of each mutex.
///
/// Definition: `MutexesPushInRounds` in `specs/RunLaws.antt`. Proof: `proofs/Runs.antt`.
pub fn mutexes_push_in_rounds()
    ensures { MutexesPushInRounds }
{}

/// `tables_end_calls`, of the run of each mutex.
///
/// Definition: `MutexesEndCalls` in `specs/RunLaws.antt`. Proof: `proofs/Runs.antt`.
pub fn mutexes_end_calls()
    ensures { MutexesEndCalls }
{}
