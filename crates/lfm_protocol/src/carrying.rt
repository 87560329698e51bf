//! The points of a call that carries the responsibility or is about to gain it: which record it serves, and what it does if
//! there is none. No function here changes a seat.
ghost use Rattle.std.specs.Prelude.{◌≡◌};
ghost use Rattle.lfm_protocol.specs.After.{loaded, found_posted, carrier_of, once_cleared, take, serves, held, how_granted};

use crate::answers::Answer;
use crate::points::{Carrier, Entrant, Point, Pusher};
use lfm_model::{Asked, How, Locked, SeatNo};
use lfm_words::{Handoff, Link, Record};

impl Carrier {
    /// The point at which carrier s takes the oldest record: it serves that of the pop list, or clears the push list if the pop
    /// list is empty.
    pub(crate) fn point_to_take(self, s: u64, oldest: Option<Record>) -> Point
        ensures { result ≡ take self s oldest }
    {
        match oldest {
            Some(oldest) => self.point_to_serve(s, oldest),
            None => Point::TakeClearHead(self),
        }
    }

    /// The point at which carrier s serves the oldest record: a locker enters by its own record, and any other record is
    /// granted.
    pub(crate) fn point_to_serve(self, s: u64, oldest: Record) -> Point
        ensures { result ≡ serves self s oldest }
    {
        match self {
            Carrier::Locker if oldest.seat.get() == s => Point::EnterOwnerStore(
                Entrant::Locker,
                How::Queued(oldest.stamp),
            ),
            _ => Point::GrantWakeStore(self, oldest),
        }
    }

    /// The point after the push list with this head was cleared. Only a releaser may find an empty list; it then posts.
    pub(crate) fn point_after_clear(self, head: u64) -> Point
        ensures { result ≡ once_cleared self head }
    {
        match self {
            Carrier::Releaser(releaser) if head == 0 => Point::ReleaseHandoffStore(releaser),
            _ => Point::TakeLinkLoad(self, head),
        }
    }
}

/// The record of a seat, by its link.
pub(crate) fn loaded(seat: SeatNo, link: Link) -> Record
    ensures { result ≡ loaded seat link }
{
    Record {
        seat,
        stamp: link.stamp,
    }
}

impl Pusher {
    /// The point of a pusher that found this post. A sender rechecks the push word before it takes the post over.
    pub(crate) fn point_at_post(self, found: Handoff) -> Point
        ensures { result ≡ found_posted self found }
    {
        match self {
            Pusher::Locker => Point::PushedHandoffExchange(self, found),
            Pusher::Sender(t) => Point::SendPushRecheck(t, found),
        }
    }

    /// The carrier that a pusher becomes when it takes a post over.
    pub(crate) fn carrier(self) -> Carrier
        ensures { result ≡ carrier_of self }
    {
        match self {
            Pusher::Locker => Carrier::Locker,
            Pusher::Sender(_) => Carrier::Sender,
        }
    }
}

impl Entrant {
    /// The answer of a call whose seat holds now.
    pub(crate) fn held(self, how: How) -> Answer
        ensures { result ≡ held self how }
    {
        match self {
            Entrant::Locker => Answer::Asked(Asked::Held(how)),
            Entrant::Trier => Answer::Locked(Locked::Held(how)),
            Entrant::Receiver => Answer::Got(Some(how)),
        }
    }
}

/// How the mutex was acquired by a grant with this stamp, which is 0 if the seat had no queued record.
pub fn how_granted(stamp: u64) -> How
    ensures { result ≡ how_granted stamp }
{
    if stamp == 0 {
        How::Free
    } else {
        How::Queued(stamp)
    }
}
