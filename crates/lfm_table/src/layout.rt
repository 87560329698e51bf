//! The indexes of the table's words, and of its slot. The words, in order:
//! - the *count*: how many seats hold or want the mutex;
//! - the *owner*: the number of the seat that owns, or 0;
//! - the *handoff*: the current post, or 0;
//! - the *push* word: the newest stamp, and the seat that heads the push list;
//! - a *link* for each seat: its stamp, and the seat that was pushed before it;
//! - a *wake* word for each seat: the state that the seat finds when it sleeps and loads the word.
//!
//! Their encodings are in `docs/PROTOCOL.md`, "Words and seats".
ghost use Rattle.std.specs.Prelude.{◌≡◌, ◌+◌, ◌≤◌};
ghost use Rattle.lfm_protocol.specs.Limits.{max_seats};

/// The index of the count.
pub const COUNT: usize = 0;

/// The index of the owner word.
pub const OWNER: usize = 1;

/// The index of the handoff word.
pub const HANDOFF: usize = 2;

/// The index of the push word. The link words come next, one for each seat, and then the wake words.
pub const PUSH: usize = 3;

/// The only slot. The moving value is there while no seat carries it.
pub const SLOT: usize = 0;

/// The index of the link word of this seat. Its number is at most 4,095.
#[inline(always)]
pub fn link_at(seat: u64) -> usize
    requires { seat ≤ max_seats }
    ensures { result ≡ 3 + seat }
{
    PUSH + seat as usize
}

/// The index of the wake word of this seat in a mutex with this many seats, at most 4,095.
#[inline(always)]
pub fn wake_at(seats: u64, seat: u64) -> usize
    requires few { seats ≤ max_seats }
    requires inside { seat ≤ seats }
    ensures { result ≡ 3 + seats + seat }
{
    PUSH + seats as usize + seat as usize
}
