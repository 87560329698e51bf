//! That a step of a seat in one mutex of a pool is a step in no other mutex.
ghost use Rattle.lfm_pool_laws.specs.StepLaws.{CarriersWriteInOneMutex, StepsAreInOneMutex};

/// A step in one mutex changes no word, no seat's data and no run of another, and no link or wake word of a seat that does
/// not rest in another, whatever it writes into its own word. A write into the carried word or the chain changes no run at
/// all, and nothing else of another mutex.
///
/// Definitions: `StepsAreInOneMutex` and `CarriersWriteInOneMutex` in `specs/StepLaws.antt`. Proof: `proofs/Steps.antt`.
pub fn steps_are_in_one_mutex()
    ensures steps { StepsAreInOneMutex }
    ensures writes { CarriersWriteInOneMutex }
{}
