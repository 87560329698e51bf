//! How each kind of atomic step advances a seat, given what the step found in its word. There is one method for each kind, for
//! stepped and running mutexes. The caller performs the operation on the word. At a point of another kind each method refuses
//! as Idle and leaves the seat unchanged.
ghost use Rattle.std.specs.Prelude.{◌≡◌, ◌+◌, ◌^◌, ◌<◌};
ghost use Rattle.lfm_protocol.specs.After.{
  after_count_exchange,
  after_count_add,
  after_count_subtract,
  after_owner_load,
  after_owner_store,
  after_push_load,
  after_push_exchange,
  after_clear_head,
  after_link_load,
  after_link_store,
  after_handoff_load,
  after_handoff_store,
  after_handoff_exchange,
  after_wake_load,
  after_wake_store,
  after_wake_exchange,
  deepens,
  sleeps,
  busy,
  releases,
  pushed,
  granted,
};
ghost use Rattle.lfm_protocol.specs.Room.{HasNumbers};

use crate::answers::{Answer, Turn, Why};
use crate::carrying::{how_granted, loaded};
use crate::points::{Carrier, Entrant, Point, Pusher, Releaser, Sleeper};
use crate::seats::SeatState;
use lfm_model::{Asked, How, Locked, Refusal, SeatNo, Unlocked};
use lfm_words::{Handoff, Link, Record, Wake};

/// How a call ends, in the cases that several steps share.
impl SeatState {
    /// Adds a hold, ends the call, and returns the new depth.
    fn deepen(&mut self) -> u32
        requires { self.old.depth + 1 < 2 ^ 32 }
        ensures seat { self.new ≡ deepens self.old }
        ensures depth { result ≡ self.new.depth }
    {
        self.point = Point::Rest;
        self.depth += 1;
        self.depth
    }

    /// Ends a lock whose record is queued, or was granted meanwhile: the seat sleeps.
    fn fall_asleep(&mut self) -> Turn
        ensures seat { self.new ≡ (sleeps self.old).seat }
        ensures turn { result ≡ (sleeps self.old).turn }
    {
        self.point = Point::Asleep(Sleeper::Locker);
        Turn::Ended(Answer::Asked(Asked::Asleep))
    }

    /// Ends a `try_lock` as Busy: the charged take is given back.
    fn refuse_busy(&mut self) -> Turn
        requires { 0 < self.old.takes }
        ensures seat { self.new ≡ (busy self.old).seat }
        ensures turn { result ≡ (busy self.old).turn }
    {
        self.point = Point::Rest;
        self.takes -= 1;
        Turn::refused(Refusal::Busy)
    }

    /// Ends the release with this answer. An `unlock` ends here; a `start_wait` has one more step.
    fn finish_release(&mut self, releaser: Releaser, answer: Unlocked) -> Turn
        ensures seat { self.new ≡ (releases self.old releaser answer).seat }
        ensures turn { result ≡ (releases self.old releaser answer).turn }
    {
        match releaser {
            Releaser::Unlocker => self.end(Answer::Unlocked(answer)),
            Releaser::Waiter => self.go_on(Point::WaitWakeStore(answer)),
        }
    }

    /// Ends a push after which another party has the responsibility. A locker sleeps; a sender has sent.
    fn finish_push(&mut self, pusher: Pusher) -> Turn
        ensures seat { self.new ≡ (pushed self.old pusher).seat }
        ensures turn { result ≡ (pushed self.old pusher).turn }
    {
        match pusher {
            Pusher::Locker => self.fall_asleep(),
            Pusher::Sender(_) => self.end(Answer::Sent),
        }
    }

    /// Ends the grant of the oldest record, by cases on what the carrier's call still has to do.
    fn finish_grant(&mut self, carrier: Carrier, oldest: Record) -> Turn
        ensures seat { self.new ≡ (granted self.old carrier oldest).seat }
        ensures turn { result ≡ (granted self.old carrier oldest).turn }
    {
        match carrier {
            Carrier::Locker => self.fall_asleep(),
            Carrier::Releaser(releaser) | Carrier::Reclaimer(releaser) => {
                self.finish_release(releaser, Unlocked::Granted(oldest.seat))
            }
            Carrier::Sender => self.end(Answer::Sent),
        }
    }
}

/// How each kind of step advances the seat.
impl SeatState {
    /// After the compare-and-exchange of the count word from 0 to 1. It found this count.
    pub fn after_count_exchange(&mut self, found: u64) -> Turn
        ensures seat { self.new ≡ (after_count_exchange self.old found).seat }
        ensures turn { result ≡ (after_count_exchange self.old found).turn }
    {
        match self.point {
            Point::TryCountExchange if found == 0 => self.go_on(Point::EnterOwnerStore(
                Entrant::Trier,
                How::Free,
            )),
            Point::TryCountExchange => self.go_on(Point::TryOwnerLoad),
            _ => Turn::Refused(Why::Idle),
        }
    }

    /// After an addition of 1 to the count word. The count was this before.
    pub fn after_count_add(&mut self, found: u64) -> Turn
        ensures seat { self.new ≡ (after_count_add self.old found).seat }
        ensures turn { result ≡ (after_count_add self.old found).turn }
    {
        match self.point {
            Point::LockCountAdd if found == 0 => self.go_on(Point::EnterOwnerStore(
                Entrant::Locker,
                How::Free,
            )),
            Point::LockCountAdd => self.go_on(Point::LockOwnerLoad),
            Point::TryCountAdd => self.go_on(Point::EnterOwnerStore(Entrant::Trier, How::Free)),
            Point::SendCountAdd(t) if found == 0 => self.go_on(Point::SendWakeStore(t)),
            Point::SendCountAdd(t) => self.go_on(Point::PushLoad(Pusher::Sender(t))),
            _ => Turn::Refused(Why::Idle),
        }
    }

    /// After a subtraction of 1 from the count word. The count was this before. `oldest` is the oldest record of the pop list.
    pub fn after_count_subtract(&mut self, s: u64, found: u64, oldest: Option<Record>) -> Turn
        requires { HasNumbers self.old self.old.point }
        ensures seat { self.new ≡ (after_count_subtract self.old s found oldest).seat }
        ensures turn { result ≡ (after_count_subtract self.old s found oldest).turn }
    {
        match self.point {
            Point::LockCountSubtract => Turn::Ended(Answer::Asked(Asked::Again(self.deepen()))),
            Point::ReleaseCountSubtract(releaser) if found == 1 => self.finish_release(
                releaser,
                Unlocked::Free,
            ),
            Point::ReleaseCountSubtract(releaser) => self.go_on(Carrier::Releaser(
                releaser,
            ).point_to_take(s, oldest)),
            _ => Turn::Refused(Why::Idle),
        }
    }

    /// After a load of the owner word, with the value that it found.
    pub fn after_owner_load(&mut self, s: u64, found: u64) -> Turn
        requires { HasNumbers self.old self.old.point }
        ensures seat { self.new ≡ (after_owner_load self.old s found).seat }
        ensures turn { result ≡ (after_owner_load self.old s found).turn }
    {
        match self.point {
            Point::LockOwnerLoad if found == s => self.go_on(Point::LockCountSubtract),
            Point::LockOwnerLoad => self.go_on(Point::PushLoad(Pusher::Locker)),
            Point::TryOwnerLoad if found == s => Turn::Ended(Answer::Locked(Locked::Again(
                self.deepen(),
            ))),
            Point::TryOwnerLoad => self.go_on(Point::TryHandoffLoad),
            _ => Turn::Refused(Why::Idle),
        }
    }

    /// After a store of `stored_owner` in the owner word.
    pub fn after_owner_store(&mut self) -> Turn
        ensures seat { self.new ≡ (after_owner_store self.old).seat }
        ensures turn { result ≡ (after_owner_store self.old).turn }
    {
        match self.point {
            Point::EnterOwnerStore(entrant, how) => {
                self.depth = 1;
                self.end(entrant.held(how))
            }
            Point::ReleaseOwnerStore(releaser) => {
                self.depth = 0;
                self.go_on(Point::ReleaseCountSubtract(releaser))
            }
            _ => Turn::Refused(Why::Idle),
        }
    }

    /// After a load of the push word, with the value that it found.
    pub fn after_push_load(&mut self, found: Link) -> Turn
        ensures seat { self.new ≡ (after_push_load self.old found).seat }
        ensures turn { result ≡ (after_push_load self.old found).turn }
    {
        match self.point {
            Point::PushLoad(pusher) => self.go_on(Point::LinkStore(pusher, found)),
            Point::SendPushRecheck(_, _) if found.next == 0 => self.end(Answer::Sent),
            Point::SendPushRecheck(t, seen) => self.go_on(Point::PushedHandoffExchange(
                Pusher::Sender(t),
                seen,
            )),
            Point::ReleasePushRecheck(releaser) if found.next == 0 => self.finish_release(
                releaser,
                Unlocked::Posted,
            ),
            Point::ReleasePushRecheck(releaser) => self.go_on(Point::ReleaseHandoffExchange(
                releaser,
            )),
            _ => Turn::Refused(Why::Idle),
        }
    }

    /// After the compare-and-exchange of the push word from `expected_push` to `exchanged_push`, with the value that it found.
    pub fn after_push_exchange(&mut self, found: Link) -> Turn
        ensures seat { self.new ≡ (after_push_exchange self.old found).seat }
        ensures turn { result ≡ (after_push_exchange self.old found).turn }
    {
        match self.point {
            Point::PushExchange(pusher, seen) => {
                if found == seen {
                    self.go_on(Point::PushedHandoffLoad(pusher))
                } else {
                    self.go_on(Point::LinkStore(pusher, found))
                }
            }
            _ => Turn::Refused(Why::Idle),
        }
    }

    /// After the head of the push word was cleared. The word held this before.
    pub fn after_clear_head(&mut self, found: Link) -> Turn
        ensures seat { self.new ≡ (after_clear_head self.old found).seat }
        ensures turn { result ≡ (after_clear_head self.old found).turn }
    {
        match self.point {
            Point::TakeClearHead(carrier) => self.go_on(carrier.point_after_clear(found.next)),
            _ => Turn::Refused(Why::Idle),
        }
    }

    /// After a load of the link word of the seat at its point, with the value that it found. The record of that seat is added
    /// to the pop list as the oldest.
    pub fn after_link_load(&mut self, s: u64, found: Link) -> Turn
        requires { HasNumbers self.old self.old.point }
        ensures seat { self.new ≡ (after_link_load self.old s found).seat }
        ensures turn { result ≡ (after_link_load self.old s found).turn }
    {
        match self.point {
            Point::TakeLinkLoad(carrier, next) if found.next == 0 => {
                self.go_on(carrier.point_to_serve(s, loaded(SeatNo::known(next), found)))
            }
            Point::TakeLinkLoad(carrier, _) => self.go_on(Point::TakeLinkLoad(carrier, found.next)),
            _ => Turn::Refused(Why::Idle),
        }
    }

    /// After a store of `stored_link` in the link word of the seat that is being pushed.
    pub fn after_link_store(&mut self) -> Turn
        ensures seat { self.new ≡ (after_link_store self.old).seat }
        ensures turn { result ≡ (after_link_store self.old).turn }
    {
        match self.point {
            Point::LinkStore(pusher, seen) => self.go_on(Point::PushExchange(pusher, seen)),
            _ => Turn::Refused(Why::Idle),
        }
    }

    /// After a load of the handoff word, with the value that it found.
    pub fn after_handoff_load(&mut self, found: Handoff) -> Turn
        requires { HasNumbers self.old self.old.point }
        ensures seat { self.new ≡ (after_handoff_load self.old found).seat }
        ensures turn { result ≡ (after_handoff_load self.old found).turn }
    {
        match self.point {
            Point::PushedHandoffLoad(pusher) if found.seat == 0 => self.finish_push(pusher),
            Point::PushedHandoffLoad(pusher) => self.go_on(pusher.point_at_post(found)),
            Point::TryHandoffLoad if found.seat == 0 => self.refuse_busy(),
            Point::TryHandoffLoad => self.go_on(Point::TryHandoffExchange(found)),
            _ => Turn::Refused(Why::Idle),
        }
    }

    /// After a store of `stored_handoff` in the handoff word.
    pub fn after_handoff_store(&mut self) -> Turn
        requires { HasNumbers self.old self.old.point }
        ensures seat { self.new ≡ (after_handoff_store self.old).seat }
        ensures turn { result ≡ (after_handoff_store self.old).turn }
    {
        match self.point {
            Point::ReleaseHandoffStore(releaser) => {
                self.posts += 1;
                self.go_on(Point::ReleasePushRecheck(releaser))
            }
            _ => Turn::Refused(Why::Idle),
        }
    }

    /// After the compare-and-exchange of the handoff word from `expected_handoff` to none, with the value that it found.
    /// `oldest` is the oldest record of the pop list; it matters only if the exchange succeeded.
    pub fn after_handoff_exchange(&mut self, s: u64, found: Handoff, oldest: Option<Record>) -> Turn
        requires { HasNumbers self.old self.old.point }
        ensures seat { self.new ≡ (after_handoff_exchange self.old s found oldest).seat }
        ensures turn { result ≡ (after_handoff_exchange self.old s found oldest).turn }
    {
        let succeeded = found == self.expected_handoff(s);
        match self.point {
            Point::PushedHandoffExchange(pusher, _) if succeeded => self.go_on(
                pusher.carrier().point_to_take(s, oldest),
            ),
            Point::PushedHandoffExchange(pusher, _) => self.finish_push(pusher),
            Point::TryHandoffExchange(_) if succeeded => self.go_on(Point::TryCountAdd),
            Point::TryHandoffExchange(_) => self.refuse_busy(),
            Point::ReleaseHandoffExchange(releaser) if succeeded => {
                self.go_on(Carrier::Reclaimer(releaser).point_to_take(s, oldest))
            }
            Point::ReleaseHandoffExchange(releaser) => self.finish_release(
                releaser,
                Unlocked::TakenOver,
            ),
            _ => Turn::Refused(Why::Idle),
        }
    }

    /// After a load of its own wake word, with the value that it found.
    pub fn after_wake_load(&mut self, found: Wake) -> Turn
        ensures seat { self.new ≡ (after_wake_load self.old found).seat }
        ensures turn { result ≡ (after_wake_load self.old found).turn }
    {
        match (self.point, found) {
            (Point::ReceiveWakeLoad(_), Wake::Grant(stamp)) => self.go_on(Point::ReceiveWakeStore(
                stamp,
            )),
            (Point::ReceiveWakeLoad(sleeper), _) => {
                self.point = Point::Asleep(sleeper);
                Turn::Ended(Answer::Got(None))
            }
            _ => Turn::Refused(Why::Idle),
        }
    }

    /// After a store of `stored_wake` in the wake word of the point's target.
    pub fn after_wake_store(&mut self) -> Turn
        ensures seat { self.new ≡ (after_wake_store self.old).seat }
        ensures turn { result ≡ (after_wake_store self.old).turn }
    {
        match self.point {
            Point::GrantWakeStore(carrier, oldest) => self.finish_grant(carrier, oldest),
            Point::SendWakeStore(_) => self.end(Answer::Sent),
            Point::WaitWakeStore(released) => {
                self.point = Point::Asleep(Sleeper::Waiter);
                Turn::Ended(Answer::Waiting(released))
            }
            Point::ReceiveWakeStore(stamp) => {
                self.go_on(Point::EnterOwnerStore(Entrant::Receiver, how_granted(stamp)))
            }
            _ => Turn::Refused(Why::Idle),
        }
    }

    /// After the compare-and-exchange of its target's wake word from WAITING to CLAIMED, with the state that it found.
    pub fn after_wake_exchange(&mut self, found: Wake) -> Turn
        ensures seat { self.new ≡ (after_wake_exchange self.old found).seat }
        ensures turn { result ≡ (after_wake_exchange self.old found).turn }
    {
        match (self.point, found) {
            (Point::SendWakeExchange(t), Wake::Waiting) => self.go_on(Point::SendCountAdd(t)),
            (Point::SendWakeExchange(_), _) => {
                self.point = Point::Rest;
                Turn::refused(Refusal::NotWaiting)
            }
            _ => Turn::Refused(Why::Idle),
        }
    }
}
