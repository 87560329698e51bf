//! What is true of each mutex of a pool at every moment.
ghost use Rattle.lfm_pool_laws.specs.StateLaws.{
  CallsInMutexesAreBounded,
  MutexesAreSteady,
  MutexesHaveARun,
  MutexesHaveOneOwner,
  OneHasTheResponsibilityForEach,
  PostsOfMutexesAreWatched,
};

/// At every moment some run of the core has led from its start to the count, owner and push words of each mutex, to the seat
/// of its post, to the wake words of seats that do not rest there, and to the data of the seats there. A seat's trail in the
/// mutex is its part of the run, and the seat knows the run up to its own last step there.
///
/// Definition: `MutexesHaveARun` in `specs/StateLaws.antt`. Proof: `proofs/Runs.antt`.
pub fn mutexes_have_a_run()
    ensures { MutexesHaveARun }
{}

/// At every moment each mutex is a reached, steady and lawful state of the core. Its stamp and the numbers of posts fit their
/// words, however long it is in use. So every law of reached states holds of it.
///
/// Definition: `MutexesAreSteady` in `specs/StateLaws.antt`. Proof: `proofs/States.antt`.
pub fn mutexes_are_steady()
    ensures { MutexesAreSteady }
{}

/// At most one seat owns a mutex.
///
/// Definition: `MutexesHaveOneOwner` in `specs/StateLaws.antt`. Proof: `proofs/States.antt`.
pub fn mutexes_have_one_owner()
    ensures { MutexesHaveOneOwner }
{}

/// If the count of a mutex is above 0, exactly one owner, grant, post or call of this mutex has the responsibility.
///
/// Definition: `OneHasTheResponsibilityForEach` in `specs/StateLaws.antt`. Proof: `proofs/States.antt`.
pub fn one_has_the_responsibility_for_each()
    ensures { OneHasTheResponsibilityForEach }
{}

/// While a mutex is posted, some open call in this mutex watches the post, as in `handoffs_are_watched`.
///
/// Definition: `PostsOfMutexesAreWatched` in `specs/StateLaws.antt`. Proof: `proofs/States.antt`.
pub fn posts_of_mutexes_are_watched()
    ensures { PostsOfMutexesAreWatched }
{}

/// `unlocks_are_bounded`, `tries_and_receives_are_bounded` and `calls_end_beside_others`, of the calls in each mutex.
///
/// Definition: `CallsInMutexesAreBounded` in `specs/StateLaws.antt`. Proof: `proofs/States.antt`.
pub fn calls_in_mutexes_are_bounded()
    ensures { CallsInMutexesAreBounded }
{}
