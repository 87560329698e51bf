//! The readers of single words and points. No reader changes anything, allocates, sleeps or wakes a thread.
ghost use Rattle.std.specs.Prelude.{◌≡◌};
ghost use Rattle.lfm_protocol.specs.Seats.{seat, link, wake};

use crate::machine::Machine;
use crate::points::Point;
use lfm_words::{Link, Wake};

/// The push word, and the words and points of the seats. For a number that no seat has, each reader returns what it returns for
/// a seat at rest whose words are 0.
impl Machine {
    /// The push word: the newest stamp, and the head of the push list.
    pub fn push_word(&self) -> Link
        ensures { result ≡ self.now.push }
    {
        self.push
    }

    /// The link word of seat t: the stamp of its record, and the next older seat.
    pub fn link_word(&self, t: u64) -> Link
        ensures { result ≡ link self.now.links t }
    {
        let _ = &self.links;
        if self.is_seat(t) {
            self.link(t)
        } else {
            Link::NONE
        }
    }

    /// The wake word of seat t.
    pub fn wake_word(&self, t: u64) -> Wake
        ensures { result ≡ wake self.now.wakes t }
    {
        let _ = &self.wakes;
        if self.is_seat(t) {
            self.wake(t)
        } else {
            Wake::Quiet
        }
    }

    /// The point of seat s: its next atomic step, or none if no call of it is open.
    pub fn point(&self, s: u64) -> Point
        ensures { result ≡ (seat self.now.seats s).point }
    {
        if self.is_seat(s) {
            self.seat(s).point
        } else {
            Point::Rest
        }
    }
}
