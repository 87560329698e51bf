//! Atomic operations by kind, each with the word that it accesses. A running mutex also splits its seats off and joins them
//! again. No call of a seat does that, so it has no kind here.
ghost use Rattle.std.specs.Prelude.{◌≡◌};
ghost use Rattle.lfm_protocol.specs.Points.{word};

/// What an atomic step does to its word. Each exchange is a compare-and-exchange: it writes only if the word holds the expected
/// value, and returns what it found in either case.
#[derive(Clone, Copy, Debug, PartialEq, Eq)]
pub enum Kind {
    // On the count word.
    /// Compare-and-exchange from 0 to 1.
    CountExchange,
    /// Adds 1 and returns the count before.
    CountAdd,
    /// Subtracts 1 and returns the count before.
    CountSubtract,

    // On the owner word.
    /// Loads the owning seat.
    OwnerLoad,
    /// Stores the seat's own number, or 0 at a release.
    OwnerStore,

    // On the push word.
    /// Loads the newest stamp and the head.
    PushLoad,
    /// Compare-and-exchange from the word that was loaded to one with the next stamp and the pushed seat as head.
    PushExchange,
    /// Sets the head to 0, keeps the stamp, and returns the word before.
    ClearHead,

    // On the link word of a seat.
    /// Loads the stamp of the target's record and the next older seat.
    LinkLoad,
    /// Stores these two for the record that is about to be pushed.
    LinkStore,

    // On the handoff word.
    /// Loads the current post, or 0.
    HandoffLoad,
    /// Stores the seat's next post.
    HandoffStore,
    /// Compare-and-exchange from the expected post to 0.
    HandoffExchange,

    // On the wake word of a seat.
    /// Loads the seat's own state.
    WakeLoad,
    /// Stores a grant, WAITING or QUIET.
    WakeStore,
    /// Compare-and-exchange from WAITING to CLAIMED.
    WakeExchange,
}

/// One of the 4 + 2N words of a mutex of N seats.
#[derive(Clone, Copy, Debug, PartialEq, Eq)]
pub enum Word {
    /// How many seats hold or want the mutex.
    Count,
    /// The owning seat; 0 for none.
    Owner,
    /// The current post; 0 for none.
    Handoff,
    /// The newest stamp, and the head of the push list.
    Push,
    /// The link word of the seat with this number.
    Link(u64),
    /// The wake word of the seat with this number.
    Wake(u64),
}

impl Kind {
    /// The word that a step of this kind accesses. t is the target of the point.
    pub fn word(self, t: u64) -> Word
        ensures { result ≡ word self t }
    {
        match self {
            Kind::CountExchange | Kind::CountAdd | Kind::CountSubtract => Word::Count,
            Kind::OwnerLoad | Kind::OwnerStore => Word::Owner,
            Kind::PushLoad | Kind::PushExchange | Kind::ClearHead => Word::Push,
            Kind::HandoffLoad | Kind::HandoffStore | Kind::HandoffExchange => Word::Handoff,
            Kind::LinkLoad | Kind::LinkStore => Word::Link(t),
            Kind::WakeLoad | Kind::WakeStore | Kind::WakeExchange => Word::Wake(t),
        }
    }
}
