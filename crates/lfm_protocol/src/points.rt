//! The state of a call between two atomic steps. A point names the next step and keeps what earlier steps have loaded. This
//! file also has what follows from a point alone: its kind, the seat whose word it accesses, and whether the call carries the
//! responsibility. How a step advances the seat is in `after`.
ghost use Rattle.std.specs.Prelude.{◌≡◌};
ghost use Rattle.lfm_protocol.specs.Place.{carries};
ghost use Rattle.lfm_protocol.specs.Points.{kind, target, pushed_seat};

use crate::kinds::Kind;
use lfm_model::{How, Unlocked};
use lfm_words::{Handoff, Link, Record};

/// For which seat a record is pushed.
#[derive(Clone, Copy, Debug, PartialEq, Eq)]
pub enum Pusher {
    /// A `lock` pushes the record of its own seat.
    Locker,
    /// A `send_lock` pushes the record of this seat, its target.
    Sender(u64),
}

/// Which call releases the mutex.
#[derive(Clone, Copy, Debug, PartialEq, Eq)]
pub enum Releaser {
    /// An `unlock`, which ends with the release.
    Unlocker,
    /// A `start_wait`, which puts its seat to sleep after the release.
    Waiter,
}

/// Which call carries the responsibility while it collects and serves the oldest record.
#[derive(Clone, Copy, Debug, PartialEq, Eq)]
pub enum Carrier {
    /// A `lock` that has taken a post over.
    Locker,
    /// A release that found a count above 1 when it subtracted.
    Releaser(Releaser),
    /// A release that has posted, and has taken its post back.
    Reclaimer(Releaser),
    /// A `send_lock` that has taken a post over.
    Sender,
}

/// Which call makes its own seat the owner.
#[derive(Clone, Copy, Debug, PartialEq, Eq)]
pub enum Entrant {
    /// A `lock` that found a count of 0, or its own record as the oldest.
    Locker,
    /// A `try_lock` that raised the count from 0, or accepted a post.
    Trier,
    /// A `receive` that found a grant.
    Receiver,
}

/// Which call put the seat to sleep.
#[derive(Clone, Copy, Debug, PartialEq, Eq)]
pub enum Sleeper {
    /// A `lock`: the seat's record is queued, or was already granted.
    Locker,
    /// A `start_wait`: the seat has no queued record until a send claims it.
    Waiter,
}

/// The point of a seat: its next atomic step. The payload is what the call has to remember. `lock` 4 below is step 4 of `lock`
/// in `docs/PROTOCOL.md`.
#[derive(Clone, Copy, Debug, PartialEq, Eq)]
pub enum Point {
    // Between calls: no step.
    /// No call is open, and the seat is awake.
    Rest,
    /// No call is open, and the seat sleeps until a receive finds a grant.
    Asleep(Sleeper),

    // A `lock` until its push.
    /// `lock` 1: add 1 to the count word.
    LockCountAdd,
    /// `lock` 2: load the owner word, to find out whether this seat already holds.
    LockOwnerLoad,
    /// `lock` 3: subtract 1 from the count word again, since the seat already holds.
    LockCountSubtract,

    // A `try_lock` until it enters.
    /// `try_lock` 1: compare-and-exchange of the count word from 0 to 1.
    TryCountExchange,
    /// `try_lock` 2: load the owner word, to find out whether this seat already holds.
    TryOwnerLoad,
    /// `try_lock` 4: load the handoff word, to accept a post instead of answering Busy.
    TryHandoffLoad,
    /// `try_lock` 5: compare-and-exchange of the handoff word from the post that was loaded to 0.
    TryHandoffExchange(Handoff),
    /// `try_lock` 6: add 1 to the count word, after the post was accepted.
    TryCountAdd,

    // The steps that only a `send_lock` makes. The number is its target.
    /// `send_lock` 1: compare-and-exchange of the target's wake word from WAITING to CLAIMED.
    SendWakeExchange(u64),
    /// `send_lock` 2: add 1 to the count word, for the target.
    SendCountAdd(u64),
    /// `send_lock` 7: load the push word again, to check whether it has a record. The post is the one loaded in step 6.
    SendPushRecheck(u64, Handoff),
    /// `send_lock` 9 after a count of 0: store GRANT(0) in the target's wake word.
    SendWakeStore(u64),

    // The push of a record, by `lock` for its own seat or by `send_lock` for its target.
    /// `lock` 4, `send_lock` 3: load the push word.
    PushLoad(Pusher),
    /// `lock` 5, `send_lock` 4: store in the pushed seat's link word the stamp of the push word that was loaded plus 1, and the
    /// head of that word.
    LinkStore(Pusher, Link),
    /// `lock` 6, `send_lock` 5: compare-and-exchange of the push word from the one that was loaded to the next stamp and the
    /// pushed seat.
    PushExchange(Pusher, Link),
    /// `lock` 7, `send_lock` 6: load the handoff word, after the record was pushed.
    PushedHandoffLoad(Pusher),
    /// `lock` 8, `send_lock` 8: compare-and-exchange of the handoff word from the post that was loaded to 0, which takes the
    /// post over.
    PushedHandoffExchange(Pusher, Handoff),

    // A release, by `unlock`, or by `start_wait` with the same step numbers.
    /// `unlock` 1: store 0 in the owner word.
    ReleaseOwnerStore(Releaser),
    /// `unlock` 2: subtract 1 from the count word.
    ReleaseCountSubtract(Releaser),
    /// `unlock` 3: store the seat's next post in the handoff word.
    ReleaseHandoffStore(Releaser),
    /// `unlock` 4: load the push word again, to check whether a record was pushed meanwhile.
    ReleasePushRecheck(Releaser),
    /// `unlock` 5: compare-and-exchange of the handoff word from the seat's own post to 0, which takes the post back.
    ReleaseHandoffExchange(Releaser),
    /// `start_wait` 7: store WAITING in the seat's own wake word. The payload is the answer of the release.
    WaitWakeStore(Unlocked),

    // A carrier collects the oldest record and serves it.
    /// `take` 1, if the pop list is empty: clear the head of the push word.
    TakeClearHead(Carrier),
    /// `take` 2: load the link word of the seat with this number, and add its record to the pop list as the oldest.
    TakeLinkLoad(Carrier, u64),
    /// `lock` 10, `unlock` 6, `send_lock` 9: store a grant of the record's stamp in the wake word of the record's seat.
    GrantWakeStore(Carrier, Record),
    /// `lock` 9, `try_lock` 3, `receive` 3: store the seat's number in the owner word. The payload states how it acquired the
    /// mutex.
    EnterOwnerStore(Entrant, How),

    // A `receive` of a seat that sleeps.
    /// `receive` 1: load the seat's own wake word. The payload states which call put it to sleep.
    ReceiveWakeLoad(Sleeper),
    /// `receive` 2: store QUIET in the seat's own wake word. The number is the stamp of the grant; it is 0 for a grant without
    /// a record.
    ReceiveWakeStore(u64),
}

impl Point {
    /// The kind of the step. None if no call is open.
    pub fn kind(self) -> Option<Kind>
        ensures { result ≡ kind self }
    {
        match self {
            Point::Rest | Point::Asleep(_) => None,
            Point::TryCountExchange => Some(Kind::CountExchange),
            Point::LockCountAdd | Point::TryCountAdd | Point::SendCountAdd(_) => Some(
                Kind::CountAdd,
            ),
            Point::LockCountSubtract | Point::ReleaseCountSubtract(_) => Some(Kind::CountSubtract),
            Point::LockOwnerLoad | Point::TryOwnerLoad => Some(Kind::OwnerLoad),
            Point::ReleaseOwnerStore(_) | Point::EnterOwnerStore(_, _) => Some(Kind::OwnerStore),
            Point::PushLoad(_) | Point::SendPushRecheck(_, _) | Point::ReleasePushRecheck(_) =>
                Some(Kind::PushLoad),
            Point::PushExchange(_, _) => Some(Kind::PushExchange),
            Point::TakeClearHead(_) => Some(Kind::ClearHead),
            Point::TakeLinkLoad(_, _) => Some(Kind::LinkLoad),
            Point::LinkStore(_, _) => Some(Kind::LinkStore),
            Point::PushedHandoffLoad(_) | Point::TryHandoffLoad => Some(Kind::HandoffLoad),
            Point::ReleaseHandoffStore(_) => Some(Kind::HandoffStore),
            Point::PushedHandoffExchange(_, _)
            | Point::TryHandoffExchange(_)
            | Point::ReleaseHandoffExchange(_) => Some(Kind::HandoffExchange),
            Point::ReceiveWakeLoad(_) => Some(Kind::WakeLoad),
            Point::GrantWakeStore(_, _)
            | Point::SendWakeStore(_)
            | Point::WaitWakeStore(_)
            | Point::ReceiveWakeStore(_) => Some(Kind::WakeStore),
            Point::SendWakeExchange(_) => Some(Kind::WakeExchange),
        }
    }

    /// The seat whose link or wake word a step of seat s accesses; s itself if it accesses neither.
    #[inline(always)]
    pub fn target(self, s: u64) -> u64
        ensures { result ≡ target self s }
    {
        match self {
            Point::LinkStore(pusher, _) => pusher.seat(s),
            Point::TakeLinkLoad(_, next) => next,
            Point::GrantWakeStore(_, oldest) => oldest.seat.get(),
            Point::SendWakeExchange(t) | Point::SendWakeStore(t) => t,
            _ => s,
        }
    }

    /// Whether a call at this point carries the responsibility: an earlier step has gained it, and a later one gives it away.
    pub fn carries(self) -> bool
        ensures { result ≡ carries self }
    {
        matches!(
            self,
            Point::TryCountAdd
                | Point::SendWakeStore(_)
                | Point::ReleaseCountSubtract(_)
                | Point::ReleaseHandoffStore(_)
                | Point::TakeClearHead(_)
                | Point::TakeLinkLoad(_, _)
                | Point::GrantWakeStore(_, _)
                | Point::EnterOwnerStore(_, _)
                | Point::ReceiveWakeStore(_)
        )
    }
}

impl Pusher {
    /// The seat whose record is pushed by a call of seat s.
    pub fn seat(self, s: u64) -> u64
        ensures { result ≡ pushed_seat self s }
    {
        match self {
            Pusher::Locker => s,
            Pusher::Sender(t) => t,
        }
    }
}
