//! How a waiter was woken, which the word of its parker tells its thread.
ghost use Rattle.std.specs.Prelude.{◌≡◌, ◌≤◌};
ghost use Rattle.lfm_plain_condvar.specs.WokenWords.{notified_word};

use super::{NOTIFIED, NOTIFIED_WITH_OTHERS};

/// How a waiter was woken: alone, or with others by one wake.
#[derive(Clone, Copy)]
pub enum Woken {
    /// The wake took this waiter alone out of the list.
    Alone,
    /// The wake took other waiters out of the list too.
    WithOthers,
}

impl Woken {
    /// How each waiter is woken if a wake takes this number of waiters out of the list.
    pub(crate) fn of_each(waiters: usize) -> Woken
        ensures { (waiters ≤ 1 → result ≡ Woken.Alone) × (2 ≤ waiters → result ≡ Woken.WithOthers) }
    {
        if waiters < 2 {
            Woken::Alone
        } else {
            Woken::WithOthers
        }
    }

    /// The word of a parker whose waiter was woken like this.
    pub(super) fn word(self) -> u64
        ensures { result ≡ notified_word self }
    {
        match self {
            Woken::Alone => NOTIFIED,
            Woken::WithOthers => NOTIFIED_WITH_OTHERS,
        }
    }

    /// How the waiter was woken whose parker has this word.
    pub(super) fn of_word(word: u64) -> Woken
        ensures { (w : Woken) → word ≡ notified_word w → result ≡ w }
    {
        if word == NOTIFIED_WITH_OTHERS {
            Woken::WithOthers
        } else {
            Woken::Alone
        }
    }
}
