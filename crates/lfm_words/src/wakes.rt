//! Wake states: the content of the wake word of a seat, and how it is packed.
ghost use Rattle.std.specs.Prelude.{◌≡◌, IsTrue};
ghost use Rattle.lfm_words.specs.Words.{wake_word, is_wake_word, IsSmallWake, wake_of, is_grant_word, grant_stamp};

/// The least word that counts as a grant.
pub const FIRST_GRANT: u64 = 3;

/// The state in the wake word of a seat.
#[derive(Clone, Copy, Debug, PartialEq, Eq)]
pub enum Wake {
    /// No wait has put the seat to sleep, and it has no grant to take up. A locker that sleeps in the queue also has this
    /// state.
    Quiet,
    /// A `start_wait` put the seat to sleep, and no send has claimed it.
    Waiting,
    /// One send has claimed the seat; no other send can.
    Claimed,
    /// The seat was granted the mutex. The number is the stamp of its queued record, below 2^48, or 0 if it had none.
    Grant(u64),
}

impl Wake {
    /// The word of this state: 0, 1, 2, or 3 + 4 × stamp for a grant, whose stamp is below 2^48.
    pub fn to_word(self) -> u64
        requires { IsSmallWake self }
        ensures { result ≡ wake_word self }
    {
        match self {
            Wake::Quiet => 0,
            Wake::Waiting => 1,
            Wake::Claimed => 2,
            Wake::Grant(stamp) => FIRST_GRANT + 4 * stamp,
        }
    }

    /// Whether a word is that of a state: 0, 1, 2, or any number whose remainder by 4 is 3.
    pub fn is_word(word: u64) -> bool
        ensures { result ≡ is_wake_word word }
    {
        word < FIRST_GRANT || word % 4 == 3
    }

    /// The state of a word for which `is_word` must be true.
    pub fn from_word(word: u64) -> Wake
        requires { IsTrue (is_wake_word word) }
        ensures holds { result ≡ wake_of word }
        ensures packs { wake_word result ≡ word }
    {
        Wake::of_any_word(word)
    }

    /// The state of any word, also if `is_word` is false: a step treats each word from `FIRST_GRANT` on as a grant.
    pub fn of_any_word(word: u64) -> Wake
        ensures { result ≡ wake_of word }
    {
        match word {
            0 => Wake::Quiet,
            1 => Wake::Waiting,
            2 => Wake::Claimed,
            _ => Wake::Grant(Wake::grant_stamp(word)),
        }
    }

    /// Whether a seat that loads this word treats it as a grant: it is none of quiet, waiting and claimed.
    #[inline(always)]
    pub fn is_grant_word(word: u64) -> bool
        ensures { result ≡ is_grant_word word }
    {
        word >= FIRST_GRANT
    }

    /// The stamp of the grant in a word: that of the queued record of its seat, or 0 if it had none. `is_grant_word` must be
    /// true of the word.
    #[inline(always)]
    pub fn grant_stamp(word: u64) -> u64
        requires { IsTrue (is_grant_word word) }
        ensures { result ≡ grant_stamp word }
    {
        (word - FIRST_GRANT) / 4
    }
}
