//! What calls with a seat did that is in no trail: the seats that they woke, in order, and the number of their polls. Contracts
//! read both, and no code does. Only `shared_table` and its children can add to them. A handwritten proof in any crate could
//! change them. Only `new`, `with_wake_up` and `with_poll`, which no tactic can prove, have a handwritten proof that names them.
//! `scripts/gate/edits --check` looks for others.
ghost use Rattle.std.specs.Prelude.{◌≡◌, ◌+◌, ℕ, List, [], ◌∷◌, ◌++◌};
ghost use Rattle.std.specs.Borrow.{ftrue};

use crate::wake_up::WakeUp;
use std::marker::Model;

/// The seats that were woken so far, and how many polls were made. It takes no bytes. Only contracts tie the two to what was
/// done. Therefore only `parking::wake` adds a seat, when it wakes it, and only `SharedTable::poll` adds a poll, when it loads.
#[derive(Drop)]
pub struct OffTrail {
    seal: (),
    pub ghost woken: { List ℕ },
    pub ghost polls: { ℕ },
}

impl Model for OffTrail {
    ghost also_owns = { λ _. ftrue };
}

// SAFETY: the struct owns nothing, so it may be sent. A struct with `also_owns` does not become `Send` automatically.
unsafe impl Send for OffTrail {}

// SAFETY: the struct owns nothing, so it may be shared. A struct with `also_owns` does not become `Sync` automatically.
unsafe impl Sync for OffTrail {}

impl OffTrail {
    /// Nobody was woken, and no poll was made.
    #[inline(always)]
    pub fn new() -> OffTrail
        ensures { (result.woken ≡ []) × (result.polls ≡ 0) }
    {
        OffTrail { seal: () }
    }

    /// The same with the seat of this wake-up added at the end. Only `parking::wake` calls it.
    #[inline(always)]
    pub(super) fn with_wake_up(_before: &OffTrail, _wake_up: &WakeUp) -> OffTrail
        ensures { result ≡ record _before.now { woken = _before.now.woken ++ _wake_up.now ∷ [] } }
    {
        OffTrail { seal: () }
    }

    /// The same with one more poll. Only `SharedTable::poll` calls it.
    #[inline(always)]
    pub(super) fn with_poll(_before: &OffTrail) -> OffTrail
        ensures { result ≡ record _before.now { polls = _before.now.polls + 1 } }
    {
        OffTrail { seal: () }
    }
}
