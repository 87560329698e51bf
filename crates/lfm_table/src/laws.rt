//! The laws of a wake word that are not among the laws of the core: what a park compares, and that no grant is slept through.
//! Their functions do nothing: each one's contract is the law.
ghost use Rattle.lfm_table.specs.Grants.{GrantsDifferInTheirLowBits};
ghost use Rattle.lfm_table.specs.Parking.{NoGrantIsSleptThrough};

/// The low 32 bits of a wake word, which a park compares, differ between a grant and each state that is no grant.
///
/// Definition: `GrantsDifferInTheirLowBits` in `specs/Grants.antt`.
pub fn grants_differ_in_their_low_bits()
    ensures { GrantsDifferInTheirLowBits }
{}

/// Whenever a thread sleeps on a wake word that is a grant, a wake-up is owed: in a model of one word, in which a park compares
/// it and puts the thread to sleep in one step.
///
/// Definition: `NoGrantIsSleptThrough` in `specs/Parking.antt`. Proof: `proofs/SleepingThreads.antt`.
pub fn no_grant_is_slept_through()
    ensures { NoGrantIsSleptThrough }
{
    grants_differ_in_their_low_bits();
}
