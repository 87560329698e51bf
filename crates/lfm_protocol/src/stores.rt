//! What the storing steps of a seat write, and what its exchanges expect: functions of the seat's data and number alone. At a
//! point of another kind each returns the value that means none.
ghost use Rattle.std.specs.Prelude.{◌≡◌};
ghost use Rattle.lfm_protocol.specs.After.{drops_oldest};
ghost use Rattle.lfm_protocol.specs.Room.{HasNumbers};
ghost use Rattle.lfm_protocol.specs.Stores.{
  stored_owner,
  stored_link,
  expected_push,
  exchanged_push,
  stored_handoff,
  expected_handoff,
  stored_wake,
};

use crate::points::{Entrant, Point};
use crate::seats::SeatState;
use lfm_model::How;
use lfm_words::{Handoff, Link, Wake};

/// What a storing step writes, and what an exchange expects.
impl SeatState {
    /// The value of an owner store of seat s: s when it enters, 0 when it releases.
    pub fn stored_owner(&self, s: u64) -> u64
        ensures { result ≡ stored_owner self.now s }
    {
        match self.point {
            Point::EnterOwnerStore(_, _) => s,
            _ => 0,
        }
    }

    /// The value of a link store: the stamp of the push word that was loaded plus 1, and the head of that word.
    pub fn stored_link(&self) -> Link
        requires { HasNumbers self.now self.now.point }
        ensures { result ≡ stored_link self.now }
    {
        match self.point {
            Point::LinkStore(_, seen) => Link {
                stamp: seen.stamp + 1,
                next: seen.next,
            },
            _ => Link::NONE,
        }
    }

    /// The value that a push exchange expects: the push word that was loaded.
    pub fn expected_push(&self) -> Link
        ensures { result ≡ expected_push self.now }
    {
        match self.point {
            Point::PushExchange(_, seen) => seen,
            _ => Link::NONE,
        }
    }

    /// The value that a push exchange of seat s writes: the stamp that was loaded plus 1, and the pushed seat as head.
    pub fn exchanged_push(&self, s: u64) -> Link
        requires { HasNumbers self.now self.now.point }
        ensures { result ≡ exchanged_push self.now s }
    {
        match self.point {
            Point::PushExchange(pusher, seen) => Link {
                stamp: seen.stamp + 1,
                next: pusher.seat(s),
            },
            _ => Link::NONE,
        }
    }

    /// The value of a handoff store of seat s: the seat and the number of its next post.
    pub fn stored_handoff(&self, s: u64) -> Handoff
        requires { HasNumbers self.now self.now.point }
        ensures { result ≡ stored_handoff self.now s }
    {
        match self.point {
            Point::ReleaseHandoffStore(_) => Handoff {
                seat: s,
                post: self.posts + 1,
            },
            _ => Handoff::NONE,
        }
    }

    /// The value that a handoff exchange of seat s expects: the post that was loaded, or the seat's own last post.
    pub fn expected_handoff(&self, s: u64) -> Handoff
        ensures { result ≡ expected_handoff self.now s }
    {
        match self.point {
            Point::PushedHandoffExchange(_, seen) | Point::TryHandoffExchange(seen) => seen,
            Point::ReleaseHandoffExchange(_) => Handoff {
                seat: s,
                post: self.posts,
            },
            _ => Handoff::NONE,
        }
    }

    /// The value of a wake store: a grant of the record's stamp, a grant of 0 for a target without a record, WAITING when a
    /// wait starts, or QUIET when a grant is taken up.
    #[inline(always)]
    pub fn stored_wake(&self) -> Wake
        ensures { result ≡ stored_wake self.now }
    {
        match self.point {
            Point::GrantWakeStore(_, oldest) => Wake::Grant(oldest.stamp),
            Point::SendWakeStore(_) => Wake::Grant(0),
            Point::WaitWakeStore(_) => Wake::Waiting,
            _ => Wake::Quiet,
        }
    }

    /// Whether the store at this point takes the oldest record out of the pop list: the locker's own record, by which it
    /// enters, or the record that is granted.
    pub fn drops_oldest(&self) -> bool
        ensures { result ≡ drops_oldest self.now }
    {
        matches!(
            self.point,
            Point::EnterOwnerStore(Entrant::Locker, How::Queued(_)) | Point::GrantWakeStore(_, _)
        )
    }
}
