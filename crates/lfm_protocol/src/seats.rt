//! The data that a seat keeps in addition to the words, and how it starts a call: what is checked, what is charged, and the
//! first point. Every mutex, stepped or running, starts its calls by `begin` of this file. What a step does is in `after`.
ghost use Rattle.std.specs.Prelude.{◌≡◌};
ghost use Rattle.lfm_protocol.specs.Begin.{
  goes_on,
  ends,
  charges,
  begin_entry,
  begin_unlock,
  begin_wait,
  begin_send,
  begin_awake,
  begin,
};

use crate::answers::{Answer, Call, Turn, Why};
use crate::limits::{Limits, MAX_DEPTH};
use crate::points::{Point, Releaser};
use lfm_model::{Refusal, Unlocked};

/// The data that a seat keeps in addition to the words. No other seat reads this data.
#[derive(Clone, Copy, Debug, PartialEq, Eq)]
pub struct SeatState {
    /// How many times the seat holds the mutex: 0 to 65,535.
    pub depth: u32,
    /// How many takes the seat has charged and not given back: 0 to the budget.
    pub takes: u64,
    /// How many posts the seat has made. The next one has the next number.
    pub posts: u64,
    /// The next atomic step of the seat, or that no call of it is open.
    pub point: Point,
}

impl SeatState {
    /// A seat at the start: at rest and awake, with no hold, no charged take and no post.
    pub const REST: SeatState = SeatState {
        depth: 0,
        takes: 0,
        posts: 0,
        point: Point::Rest,
    };
}

/// How a turn ends, in the cases that several calls share.
impl SeatState {
    /// Sets the point. The call is then open.
    pub(crate) fn go_on(&mut self, point: Point) -> Turn
        ensures seat { self.new ≡ (goes_on self.old point).seat }
        ensures turn { result ≡ (goes_on self.old point).turn }
    {
        self.point = point;
        Turn::Open
    }

    /// Ends the call with this answer. The seat is then at rest.
    pub(crate) fn end(&mut self, answer: Answer) -> Turn
        ensures seat { self.new ≡ (ends self.old answer).seat }
        ensures turn { result ≡ (ends self.old answer).turn }
    {
        self.point = Point::Rest;
        Turn::Ended(answer)
    }

    /// Charges a take and sets the point. Refused as Spent if no take is left.
    pub(crate) fn charge(&mut self, budget: u64, point: Point) -> Turn
        ensures seat { self.new ≡ (charges self.old budget point).seat }
        ensures turn { result ≡ (charges self.old budget point).turn }
    {
        if self.takes >= budget {
            return Turn::refused(Refusal::Spent);
        }
        self.takes += 1;
        self.point = point;
        Turn::Open
    }
}

/// How a call starts.
impl SeatState {
    /// Starts a `lock` or a `try_lock` at its first point. Refused as DepthFull at the greatest depth, and then as Spent at
    /// depth 0 with no take left. A take is charged only at depth 0.
    pub(crate) fn begin_entry(&mut self, budget: u64, point: Point) -> Turn
        ensures seat { self.new ≡ (begin_entry self.old budget point).seat }
        ensures turn { result ≡ (begin_entry self.old budget point).turn }
    {
        if self.depth >= MAX_DEPTH {
            return Turn::refused(Refusal::DepthFull);
        }
        if self.depth == 0 {
            self.charge(budget, point)
        } else {
            self.go_on(point)
        }
    }

    /// Starts an `unlock`. Refused as NotOwner at depth 0. At a depth above 1 the depth is reduced by one and the call has
    /// ended.
    pub(crate) fn begin_unlock(&mut self) -> Turn
        ensures seat { self.new ≡ (begin_unlock self.old).seat }
        ensures turn { result ≡ (begin_unlock self.old).turn }
    {
        if self.depth == 0 {
            return Turn::refused(Refusal::NotOwner);
        }
        if self.depth == 1 {
            return self.go_on(Point::ReleaseOwnerStore(Releaser::Unlocker));
        }
        self.depth -= 1;
        Turn::Ended(Answer::Unlocked(Unlocked::Still(self.depth)))
    }

    /// Starts a `start_wait`. Refused as NotOwner at depth 0, as Nested above 1, and then as Spent with no take left. The take
    /// that it charges pays for the receive that ends the wait.
    pub(crate) fn begin_wait(&mut self, budget: u64) -> Turn
        ensures seat { self.new ≡ (begin_wait self.old budget).seat }
        ensures turn { result ≡ (begin_wait self.old budget).turn }
    {
        if self.depth == 0 {
            return Turn::refused(Refusal::NotOwner);
        }
        if self.depth > 1 {
            return Turn::refused(Refusal::Nested);
        }
        self.charge(budget, Point::ReleaseOwnerStore(Releaser::Waiter))
    }

    /// Starts a `send_lock` to seat t; `seats` is the number of seats. Refused as NoSuchSeat if t is not the number of a seat.
    /// It charges nothing.
    pub(crate) fn begin_send(&mut self, seats: u64, t: u64) -> Turn
        ensures seat { self.new ≡ (begin_send self.old seats t).seat }
        ensures turn { result ≡ (begin_send self.old seats t).turn }
    {
        if 0 < t && t <= seats {
            self.go_on(Point::SendWakeExchange(t))
        } else {
            Turn::refused(Refusal::NoSuchSeat)
        }
    }

    /// Starts a call of a seat that is awake and at rest. A receive is refused as NotWaiting.
    pub(crate) fn begin_awake(&mut self, limits: Limits, call: Call) -> Turn
        ensures seat { self.new ≡ (begin_awake self.old limits call).seat }
        ensures turn { result ≡ (begin_awake self.old limits call).turn }
    {
        match call {
            Call::Lock => self.begin_entry(limits.budget, Point::LockCountAdd),
            Call::TryLock => self.begin_entry(limits.budget, Point::TryCountExchange),
            Call::Unlock => self.begin_unlock(),
            Call::StartWait => self.begin_wait(limits.budget),
            Call::SendLock(t) => self.begin_send(limits.seats, t),
            Call::Receive => Turn::refused(Refusal::NotWaiting),
        }
    }

    /// Starts a call, based on the seat's data alone: charges what the call costs and sets its first point. Refused as InCall
    /// if an earlier call is still open; then as Asleep if the seat sleeps and the call is not a receive; then for the call's
    /// own causes, in the order of `Refusal`. A refused call leaves the seat unchanged.
    pub fn begin(&mut self, limits: Limits, call: Call) -> Turn
        ensures seat { self.new ≡ (begin self.old limits call).seat }
        ensures turn { result ≡ (begin self.old limits call).turn }
    {
        match (self.point, call) {
            (Point::Rest, _) => self.begin_awake(limits, call),
            (Point::Asleep(sleeper), Call::Receive) => self.go_on(Point::ReceiveWakeLoad(sleeper)),
            (Point::Asleep(_), _) => Turn::refused(Refusal::Asleep),
            _ => Turn::Refused(Why::InCall),
        }
    }
}
