//! The seats that calls with a seat of a pool woke, in order: that is in no trail. Contracts read the list, and no code does. Only
//! `wake_up` can add to it. A handwritten proof in any crate could change it. Only `new` and `with_wake_up`, which no tactic can
//! prove, have a handwritten proof that names it. `scripts/gate/edits --check` looks for others.
ghost use Rattle.std.specs.Prelude.{◌≡◌, ℕ, List, [], ◌∷◌, ◌++◌};
ghost use Rattle.std.specs.Borrow.{ftrue};

use crate::wake_up::WakeUp;
use std::marker::Model;

/// The seats that were woken so far. It takes no bytes. Only contracts tie the list to what was done. Therefore only
/// `wake_up::wake_and_note` adds a seat, when it wakes it.
#[derive(Drop)]
pub struct OffTrail {
    seal: (),
    pub ghost woken: { List ℕ },
}

impl Model for OffTrail {
    ghost also_owns = { λ _. ftrue };
}

// SAFETY: the struct owns nothing, so it may be sent. A struct with `also_owns` does not become `Send` automatically.
unsafe impl Send for OffTrail {}

// SAFETY: the struct owns nothing, so it may be shared. A struct with `also_owns` does not become `Sync` automatically.
unsafe impl Sync for OffTrail {}

impl OffTrail {
    /// Nobody was woken.
    #[inline(always)]
    pub(crate) fn new() -> OffTrail
        ensures { result.woken ≡ [] }
    {
        OffTrail { seal: () }
    }

    /// The same with the seat of this wake-up added at the end. Only `wake_up::wake_and_note` calls it.
    #[inline(always)]
    pub(super) fn with_wake_up(_before: &OffTrail, _wake_up: &WakeUp) -> OffTrail
        ensures { result ≡ record _before.now { woken = _before.now.woken ++ _wake_up.now.seat ∷ [] } }
    {
        OffTrail { seal: () }
    }
}
