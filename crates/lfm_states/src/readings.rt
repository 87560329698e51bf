//! The content of a state of two seats, as plain data that can be stored and compared: all words, all data of the seats, and
//! the queue. The links, the points and the queue determine the pop list, so two states with the same reading are the same.
ghost use Rattle.std.specs.Prelude.{◌≡◌};
ghost use Rattle.lfm_laws.specs.laws.Grants.{grant_weight};
ghost use Rattle.lfm_laws.specs.laws.Overtaking.{enters_at, releases_at};
ghost use Rattle.lfm_laws.specs.laws.Schedules.{is_call};
ghost use Rattle.lfm_protocol.specs.Seats.{seat, link, wake};

use crate::points::PointNumbers;
use crate::weights::{enters_at, grants_at, is_open, releases_at};
use lfm_core::State;
use lfm_words::{Handoff, Link, Wake};

/// The data of one seat.
#[derive(Clone, Copy, Debug, PartialEq, Eq)]
pub struct SeatReading {
    /// Its point.
    pub point: PointNumbers,
    /// Whether a call of it is open.
    pub in_call: bool,
    /// How many grants its next step stores.
    pub grants: u64,
    /// How often a seat becomes the owner by its next step.
    pub enters: u64,
    /// How often a seat stops being the owner by its next step.
    pub releases: u64,
    /// Its depth.
    pub depth: u64,
    /// How many takes it has charged.
    pub takes: u64,
    /// How many hand-offs it has posted.
    pub posts: u64,
    /// Its link word.
    pub link: Link,
    /// Its wake word.
    pub wake: Wake,
}

impl SeatReading {
    /// The data of seat s in this state.
    pub fn of(state: &State, s: u64) -> SeatReading
        ensures in_call { result.in_call ≡ is_call (seat state.now.seats s).point }
        ensures grants { result.grants ≡ grant_weight (seat state.now.seats s).point }
        ensures enters { result.enters ≡ enters_at (seat state.now.seats s).point }
        ensures releases { result.releases ≡ releases_at (seat state.now.seats s).point }
        ensures depth { result.depth ≡ (seat state.now.seats s).depth }
        ensures takes { result.takes ≡ (seat state.now.seats s).takes }
        ensures posts { result.posts ≡ (seat state.now.seats s).posts }
        ensures link { result.link ≡ link state.now.links s }
        ensures wake { result.wake ≡ wake state.now.wakes s }
    {
        SeatReading {
            point: PointNumbers::of(&state.point(s)),
            in_call: is_open(state.point(s)),
            grants: grants_at(state.point(s)),
            enters: enters_at(state.point(s)),
            releases: releases_at(state.point(s)),
            depth: state.depth(s),
            takes: state.takes(s),
            posts: state.posts(s),
            link: state.link_word(s),
            wake: state.wake_word(s),
        }
    }
}

/// A queued record; its seat is 0 if there is none.
#[derive(Clone, Copy, Debug, PartialEq, Eq)]
pub struct Queued {
    /// The seat that waits.
    pub seat: u64,
    /// The stamp of its push.
    pub stamp: u64,
}

/// The content of a whole state.
#[derive(Clone, Copy, Debug, PartialEq, Eq)]
pub struct Reading {
    /// The count word.
    pub count: u64,
    /// The owner word.
    pub owner: u64,
    /// The handoff word.
    pub handoff: Handoff,
    /// The push word.
    pub push: Link,
    /// The oldest record of the queue.
    pub oldest: Queued,
    /// The record after it.
    pub second: Queued,
    /// The data of seat 1.
    pub seat_1: SeatReading,
    /// The data of seat 2.
    pub seat_2: SeatReading,
}

impl Reading {
    /// The reading of this state.
    pub fn of(state: &State) -> Reading
        ensures count { result.count ≡ state.now.count }
        ensures owner { result.owner ≡ state.now.owner }
        ensures handoff { result.handoff ≡ state.now.handoff }
        ensures push { result.push ≡ state.now.push }
    {
        Reading {
            count: state.count(),
            owner: state.owner(),
            handoff: state.handoff(),
            push: state.push_word(),
            oldest: Queued::at(state, 0),
            second: Queued::at(state, 1),
            seat_1: SeatReading::of(state, 1),
            seat_2: SeatReading::of(state, 2),
        }
    }

    /// The data of seat 1 if s is 1, and otherwise of seat 2.
    pub fn seat(&self, s: u64) -> SeatReading {
        if s == 1 { self.seat_1 } else { self.seat_2 }
    }
}

impl Queued {
    /// The queued record with index i; index 0 is the oldest.
    fn at(state: &State, i: u64) -> Queued {
        match state.queued(i) {
            Some((seat, stamp)) => Queued {
                seat: seat.get(),
                stamp,
            },
            None => Queued { seat: 0, stamp: 0 },
        }
    }
}
