//! A law of pools. The function does nothing: its contract is the law. It follows from the rule that the table of a pool
//! keeps at every moment, whatever threads step on it: `HeldPosts` in `specs/Posts.antt`.
ghost use Rattle.lfm_pool.specs.Laws.{ChainsAreWalked};

/// If all popped records of a mutex are in its chain, a walk along the link words, from the oldest on, finds their seats in
/// the order in which they are to be served, each once and no other.
///
/// Definition: `ChainsAreWalked` in `specs/Laws.antt`. Proof: `proofs/ChainLaws.antt`.
pub fn chains_are_walked()
    ensures { ChainsAreWalked }
{}
