//! The hash code of a reading. Different readings may have the same code.
use crate::points::PointNumbers;
use crate::readings::{Queued, Reading, SeatReading};
use lfm_words::{Handoff, Link, Wake};

/// The factor that spreads the bits of a code.
const FACTOR: u64 = 0x9E37_79B9_7F4A_7C15;

/// The code with one more number mixed in.
fn mixed(code: u64, number: u64) -> u64 {
    let product = (code ^ number).wrapping_mul(FACTOR);
    product ^ (product >> 29)
}

/// The code with a link mixed in.
fn with_link(code: u64, link: Link) -> u64 {
    mixed(mixed(code, link.stamp), link.next)
}

/// The code with a handoff word mixed in.
fn with_handoff(code: u64, handoff: Handoff) -> u64 {
    mixed(mixed(code, handoff.post), handoff.seat)
}

/// The code with a queued record mixed in.
fn with_record(code: u64, record: Queued) -> u64 {
    mixed(mixed(code, record.stamp), record.seat)
}

/// The code with a wake state mixed in.
fn with_wake(code: u64, wake: Wake) -> u64 {
    match wake {
        Wake::Quiet => mixed(code, 0),
        Wake::Waiting => mixed(code, 1),
        Wake::Claimed => mixed(code, 2),
        Wake::Grant(stamp) => mixed(mixed(code, 3), stamp),
    }
}

/// The code with the numbers of a point mixed in.
fn with_point(code: u64, point: PointNumbers) -> u64 {
    let code = mixed(mixed(code, point.variant), point.by);
    mixed(mixed(code, point.first), point.second)
}

/// The code with the data of a seat mixed in.
fn with_seat(code: u64, seat: SeatReading) -> u64 {
    let code = mixed(mixed(mixed(code, seat.depth), seat.takes), seat.posts);
    let code = with_wake(with_link(code, seat.link), seat.wake);
    with_point(code, seat.point)
}

impl Reading {
    /// Its hash code.
    pub fn code(&self) -> u64 {
        let code = mixed(mixed(0, self.count), self.owner);
        let code = with_link(with_handoff(code, self.handoff), self.push);
        let code = with_record(with_record(code, self.oldest), self.second);
        with_seat(with_seat(code, self.seat_1), self.seat_2)
    }
}
