//! A post: the content of the handoff word, and how it is packed.
ghost use Rattle.std.specs.Prelude.{◌≡◌, ◌<◌, ◌^◌};
ghost use Rattle.lfm_words.specs.Words.{handoff_word, handoff_of, is_posted_word, seat_field_size};

use crate::links::SEAT_FIELD_SIZE;

/// A post, or handoff number: the seat that posted the responsibility, and the number of this post among the seat's posts. A
/// seat numbers its posts from 1, so no value is used twice.
#[derive(Clone, Copy, Debug, PartialEq, Eq)]
pub struct Handoff {
    /// The seat that posted: below 65,536, and 0 if nothing is posted.
    pub seat: u64,
    /// The number of the post among that seat's posts, counted from 1: below 2^48, and 0 if nothing is posted.
    pub post: u64,
}

impl Handoff {
    /// The content of a word of 0: nothing is posted.
    pub const NONE: Handoff = Handoff { seat: 0, post: 0 };

    /// Whether a handoff is posted in this word, that is, whether the word names a seat.
    #[inline(always)]
    pub fn is_posted_in(word: u64) -> bool
        ensures { result ≡ is_posted_word word }
    {
        unpack_handoff(word).seat != 0
    }
}

/// The word that has this post in its upper 48 bits and this seat in its lower 16. The seat is below 65,536 and the post below
/// 2^48.
pub fn pack_handoff(seat: u64, post: u64) -> u64
    requires seat { seat < seat_field_size }
    requires post { post < 2 ^ 48 }
    ensures { result ≡ handoff_word (record { seat = seat; post = post }) }
{
    post * SEAT_FIELD_SIZE + seat
}

/// The content of a handoff word. Every word is valid, and different words have different contents.
pub fn unpack_handoff(word: u64) -> Handoff
    ensures holds { result ≡ handoff_of word }
    ensures packs { handoff_word result ≡ word }
    ensures seat { result.seat < seat_field_size }
    ensures post { result.post < 2 ^ 48 }
{
    Handoff {
        seat: word % SEAT_FIELD_SIZE,
        post: word / SEAT_FIELD_SIZE,
    }
}
