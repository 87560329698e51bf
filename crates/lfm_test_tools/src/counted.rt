//! A value that counts its drops.
use lfm_model::{Object, TotalOp};
use lfm_table::Kept;
use std::sync::atomic::{AtomicU64, Ordering};

/// A value for a mutex or a journal, which no op changes, and whose drops are counted.
pub struct Counted<'a> {
    pub drops: &'a AtomicU64,
}

impl Drop for Counted<'_> {
    /// Counts the drop.
    fn drop(self) {
        self.drops.fetch_add(1, Ordering::SeqCst);
        let Counted { drops: _ } = self;
    }
}

impl Kept for Counted<'_> {
    ghost fits = { λ _ _. Unit {0} };

    ghost follows = { λ _ _ _. Unit {0} };
}

impl Object for Counted<'_> {
    type Op = TotalOp;

    type Reply = u64;

    ghost after = { λ s _. s };

    ghost reply = { λ _ _. 0 };

    /// Changes nothing, and replies 0.
    fn apply(&mut self, op: &TotalOp) -> u64 {
        let _op = *op;
        0
    }
}
