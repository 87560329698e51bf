//! A stamp with a seat: the content of the push word and of each link word, and how it is packed.
ghost use Rattle.std.specs.Prelude.{◌≡◌, ◌<◌, ◌^◌};
ghost use Rattle.lfm_words.specs.Words.{link_word, link_of, seat_field_size};

/// The number of values of the seat field, which is the lower 16 bits of a packed word.
pub(crate) const SEAT_FIELD_SIZE: u64 = 65_536;

/// A stamp and a seat, as the push word and the link words hold them.
#[derive(Clone, Copy, Debug, PartialEq, Eq)]
pub struct Link {
    /// In the push word, the newest stamp that was used; in a link word, the stamp of that seat's record: below 2^48.
    pub stamp: u64,
    /// In the push word, the newest queued seat; in a link word, the next older one: below 65,536, and 0 for none.
    pub next: u64,
}

impl Link {
    /// The content of a word of 0: no stamp was used and no seat is named.
    pub const NONE: Link = Link { stamp: 0, next: 0 };
}

/// The word that has this stamp in its upper 48 bits and this seat in its lower 16. The stamp is below 2^48 and the seat below
/// 65,536; 0 is no seat.
pub fn pack_link(stamp: u64, next: u64) -> u64
    requires stamp { stamp < 2 ^ 48 }
    requires next { next < seat_field_size }
    ensures { result ≡ link_word (record { stamp = stamp; next = next }) }
{
    stamp * SEAT_FIELD_SIZE + next
}

/// The stamp and the seat in a word. Every word is valid, and different words have different contents.
pub fn unpack_link(word: u64) -> Link
    ensures holds { result ≡ link_of word }
    ensures packs { link_word result ≡ word }
    ensures stamp { result.stamp < 2 ^ 48 }
    ensures next { result.next < seat_field_size }
{
    Link {
        stamp: word / SEAT_FIELD_SIZE,
        next: word % SEAT_FIELD_SIZE,
    }
}
