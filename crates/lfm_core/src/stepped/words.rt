//! The readers of a state's single words and points, for programs that show each step. None changes anything or allocates.
ghost use Rattle.std.specs.Prelude.{◌≡◌};
ghost use Rattle.lfm_protocol.specs.Seats.{seat, link, wake};

use crate::stepped::State;
use lfm_protocol::points::Point;
use lfm_words::{Link, Wake};

/// For a number that no seat has, each reader returns the value of a seat at rest with empty words.
impl State {
    /// The push word: the newest stamp (0 to 2^48 - 1), and the head of the push list (0 is none).
    pub fn push_word(&self) -> Link
        ensures { result ≡ self.now.push }
    {
        self.machine.push_word()
    }

    /// The link word of seat t: the stamp of its record, and the next older seat (0 is none).
    pub fn link_word(&self, t: u64) -> Link
        ensures { result ≡ link self.now.links t }
    {
        self.machine.link_word(t)
    }

    /// The wake word of seat t.
    pub fn wake_word(&self, t: u64) -> Wake
        ensures { result ≡ wake self.now.wakes t }
    {
        self.machine.wake_word(t)
    }

    /// The point of seat s: the atomic step that it makes next, with what its call has read.
    pub fn point(&self, s: u64) -> Point
        ensures { result ≡ (seat self.now.seats s).point }
    {
        self.machine.point(s)
    }
}
