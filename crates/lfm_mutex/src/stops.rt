//! The points at which a fast path of `lock` or `try_lock`, or a push, stops. There the slow path (`calls::finish`) or `queue`
//! takes over the call. The fast paths of `lock` and `try_lock` give the point as a `Stop` or as the handoff word that they
//! loaded, and a push gives it as a `PushStop`. Each of these is one or two words, and a `Point` has more: if a path put a word
//! that it loaded into a point, the compiler would clear the point's memory before the first atomic step, even if the path does
//! not stop. So `stop_at_push` and `stop_at_post`, which do that, are not inlined. The point of a `Stop` has no such word, and
//! is stored inline, since that takes fewer instructions. The points of `unlock`, `start_wait` and `send_lock` are stored in
//! `serve` and `send`.
ghost use Rattle.std.specs.Prelude.{◌≡◌};
ghost use Rattle.lfm_protocol.specs.declared.points.Point.TheVariants.{TryHandoffExchange};
ghost use Rattle.lfm_laws.specs.table.Words.{handoff_of};
ghost use Rattle.lfm_mutex.specs.calls.Stops.{push_stop_point, stop_point};

use lfm_model::How;
use lfm_protocol::SeatState;
use lfm_protocol::points::{Entrant, Point, Pusher};
use lfm_words::{unpack_handoff, unpack_link};

/// Where a fast path of `lock` or `try_lock` stops if it has no word to pass on.
#[derive(Clone, Copy)]
pub(crate) enum Stop {
    /// A `lock` of a seat that doesn't hold found others in the count. The load of the owner is next.
    LockLoadsOwner,
    /// A `lock` found a count of 0 and owns the mutex. Its owner store is next.
    LockEnters,
    /// A `lock` found others in the count. The push of its record is next.
    LockPushes,
    /// A `try_lock` found a count of 0 and owns the mutex. Its owner store is next.
    TryEnters,
    /// A `try_lock` found that its own seat is not the owner. The load of the handoff word is next.
    TryLoadsHandoff,
}

/// Where a push stops, with the word that it found. `stop_at_push` unpacks the word.
#[derive(Clone, Copy)]
pub(crate) enum PushStop {
    /// Another seat has changed the push word to this one. The pusher's link has to be stored again.
    Changed(u64),
    /// The record is queued, and this handoff word has a post. A seat has released meanwhile, and found no record.
    Posted(u64),
}

/// Stores the point at which a fast path stops.
#[inline(always)]
pub(crate) fn stop_at(state: &mut SeatState, stop: Stop)
    ensures { state.new ≡ record state.old { point = stop_point stop } }
{
    state.point = match stop {
        Stop::LockLoadsOwner => Point::LockOwnerLoad,
        Stop::LockEnters => Point::EnterOwnerStore(Entrant::Locker, How::Free),
        Stop::LockPushes => Point::PushLoad(Pusher::Locker),
        Stop::TryEnters => Point::EnterOwnerStore(Entrant::Trier, How::Free),
        Stop::TryLoadsHandoff => Point::TryHandoffLoad,
    };
}

/// Stores the point at which a push stops. Out of line, as the head of this file says.
#[inline(never)]
pub(crate) fn stop_at_push(state: &mut SeatState, pusher: Pusher, stop: PushStop)
    ensures { state.new ≡ record state.old { point = push_stop_point pusher stop } }
{
    state.point = match (stop, pusher) {
        (PushStop::Changed(word), _) => Point::LinkStore(pusher, unpack_link(word)),
        (PushStop::Posted(word), Pusher::Locker) => {
            Point::PushedHandoffExchange(pusher, unpack_handoff(word))
        }
        (PushStop::Posted(word), Pusher::Sender(target)) => {
            Point::SendPushRecheck(target, unpack_handoff(word))
        }
    };
}

/// Stores the point at which a `try_lock` has found a post in this handoff word. Out of line, as the head of this file says.
#[inline(never)]
pub(crate) fn stop_at_post(state: &mut SeatState, word: u64)
    ensures { state.new ≡ record state.old { point = TryHandoffExchange (handoff_of word) } }
{
    state.point = Point::TryHandoffExchange(unpack_handoff(word));
}
