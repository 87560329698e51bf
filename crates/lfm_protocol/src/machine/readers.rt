//! The readers of a machine: words, seats, place and queue. No reader changes anything, allocates, sleeps or wakes a thread.
ghost use Rattle.std.specs.Prelude.{◌≡◌, ◌+◌, ◌++◌, ◌<◌, ◌≤◌, length, position, reverse, slice_get, vec_capacity, IfSome};
ghost use Rattle.std.specs.List.{zip};
ghost use Rattle.std.specs.Option.{option_map};
ghost use Rattle.lfm_protocol.specs.Limits.{max_seats};
ghost use Rattle.lfm_protocol.specs.Turns.{longest_call};
ghost use Rattle.lfm_protocol.specs.Place.{carries, is_passed, place_of};
ghost use Rattle.lfm_protocol.specs.Queue.{chain, unwalked, queue_of};
ghost use Rattle.lfm_protocol.specs.Seats.{seat};
ghost use Rattle.lfm_words.specs.Popped.{pair_of};

use crate::chains::Chain;
use crate::limits;
use crate::machine::Machine;
use crate::points::Point;
use crate::seats::SeatState;
use lfm_model::{Place, SeatNo};
use lfm_words::{Handoff, Record, Wake};

/// Its size and its words.
impl Machine {
    /// How many seats there are: at most 4,095. They are numbered from 1.
    pub fn seats(&self) -> u64
        ensures number { result ≡ length self.now.seats }
        ensures few { result ≤ max_seats }
    {
        self.seats.len() as u64
    }

    /// The count word: how many seats hold or want the mutex.
    pub fn count(&self) -> u64
        ensures { result ≡ self.now.count }
    {
        self.count
    }

    /// The owner word: the number of the owning seat, or 0 for none.
    pub fn owner(&self) -> u64
        ensures { result ≡ self.now.owner }
    {
        self.owner
    }

    /// The handoff word: the current post; its seat is 0 if nothing is posted.
    pub fn handoff(&self) -> Handoff
        ensures { result ≡ self.now.handoff }
    {
        self.handoff
    }

    /// A call makes at most this many steps while no other seat makes a step: 16 more than the number of seats.
    pub fn longest_call(&self) -> u64
        ensures { result ≡ longest_call self.now }
    {
        limits::longest_call(self.seats())
    }
}

/// The seats. For a number that no seat has, each reader returns what it returns for a seat at rest with all counters at 0.
impl Machine {
    /// How many times seat s holds the mutex: 0 to 65,535.
    pub fn depth(&self, s: u64) -> u64
        ensures { result ≡ (seat self.now.seats s).depth }
    {
        u64::from(self.seat_or_absent(s).depth)
    }

    /// How many takes seat s has charged and not given back: 0 to the budget.
    pub fn takes(&self, s: u64) -> u64
        ensures { result ≡ (seat self.now.seats s).takes }
    {
        self.seat_or_absent(s).takes
    }

    /// How many posts seat s has made.
    pub fn posts(&self, s: u64) -> u64
        ensures { result ≡ (seat self.now.seats s).posts }
    {
        self.seat_or_absent(s).posts
    }

    /// The data of seat s, or those of a seat at rest if no seat has this number.
    fn seat_or_absent(&self, s: u64) -> SeatState
        ensures { result ≡ seat self.now.seats s }
    {
        if self.is_seat(s) {
            self.seat(s)
        } else {
            SeatState::REST
        }
    }
}

/// Whether this wake word holds a grant that its seat, at this point, has not loaded yet.
fn is_passed(wake: Wake, point: Point) -> bool
    ensures { result ≡ is_passed wake point }
{
    matches!(wake, Wake::Grant(_)) && !matches!(point, Point::ReceiveWakeStore(_))
}

/// The place of the responsibility.
impl Machine {
    /// Where the responsibility is. Owner if the owner word names a seat; otherwise Posted if there is a post; otherwise Passed
    /// for the first seat with a grant that it has not loaded; otherwise Carried for the first seat whose call carries the
    /// responsibility; otherwise Free. It reads each seat at most twice.
    pub fn place(&self) -> Place
        ensures { result ≡ place_of self.now }
    {
        if self.owner != 0 {
            return Place::Owner(SeatNo::known(self.owner));
        }
        if self.handoff.seat != 0 {
            return Place::Posted;
        }
        if let Some(i) = self.first_passed() {
            return Place::Passed(SeatNo::known(i as u64 + 1));
        }
        match self.first_carried() {
            Some(i) => Place::Carried(SeatNo::known(i as u64 + 1)),
            None => Place::Free,
        }
    }

    /// The index, from 0, of the first seat whose wake word holds a grant that it has not loaded yet.
    fn first_passed(&self) -> Option<usize>
        ensures index { result ≡ position (λ w. is_passed w.0 w.1.point) (zip self.now.wakes self.now.seats) }
        ensures few { IfSome result (λ i. i < max_seats) }
    {
        self.wakes
            .iter()
            .zip(self.seats.iter())
            .position(|(wake, seat)| is_passed(*wake, seat.point))
    }

    /// The index, from 0, of the first seat whose call carries the responsibility.
    fn first_carried(&self) -> Option<usize>
        ensures index { result ≡ position (λ x. carries x.point) self.now.seats }
        ensures few { IfSome result (λ i. i < max_seats) }
    {
        self.seats.iter().position(|seat| seat.point.carries())
    }
}

/// The queue.
impl Machine {
    /// How many records are queued. It follows the links of the records that are not in the pop list.
    pub fn queue_len(&self) -> u64
        ensures { result ≡ length (queue_of self.now) }
    {
        self.chain_len(self.unwalked()) + self.popped.len() + self.chain_len(self.push.next)
    }

    /// The seat and the stamp of the queued record with index i; index 0 is the oldest. None if i is past the newest. It
    /// follows the links of the records that are not in the pop list.
    pub fn queued(&self, i: u64) -> Option<(SeatNo, u64)>
        ensures { result ≡ option_map pair_of (slice_get (queue_of self.now) i) }
    {
        let walked = self.chain_len(self.unwalked());
        if i < walked {
            return self.chained(self.unwalked(), walked - 1 - i);
        }
        let i = i - walked;
        if i < self.popped.len() {
            return self.popped.get(i);
        }
        let i = i - self.popped.len();
        let pushed = self.chain_len(self.push.next);
        if i < pushed {
            self.chained(self.push.next, pushed - 1 - i)
        } else {
            None
        }
    }

    /// Replaces the contents of `room` by the queued records, newest first. Its capacity must be enough for all of them, and
    /// does not change.
    pub fn gather(&self, room: &mut Vec<Record>)
        requires { length (queue_of self.now) ≤ vec_capacity room.old }
        ensures gathered { reverse room.new.items ≡ queue_of self.now }
        ensures room { vec_capacity room.new ≡ vec_capacity room.old }
    {
        room.clear();
        gather_chain(room, Chain::new(&self.links, self.push.next));
        gather_popped(room, self.popped.newest_first());
        gather_chain(room, Chain::new(&self.links, self.unwalked()));
    }

    /// The seat whose link a carrier loads next, or 0 if no carrier follows the links of a cleared list.
    fn unwalked(&self) -> u64
        ensures { result ≡ unwalked self.now.seats }
    {
        for seat in &self.seats {
            if let Point::TakeLinkLoad(_, next) = seat.point {
                if next != 0 {
                    return next;
                }
            }
        }
        0
    }

    /// How many records a walk from this seat visits.
    fn chain_len(&self, from: u64) -> u64
        ensures length { result ≡ length (chain self.now.links from) }
        ensures few { result ≤ max_seats }
    {
        let mut chain = Chain::new(&self.links, from);
        let mut length = 0;
        'walking: while let Some(_) = chain.next() {
            length += 1;
        }
        length
    }

    /// The seat and stamp of the record that a walk from this seat visits after i others.
    fn chained(&self, from: u64, i: u64) -> Option<(SeatNo, u64)>
        ensures { result ≡ option_map pair_of (slice_get (chain self.now.links from) i) }
    {
        let mut chain = Chain::new(&self.links, from);
        for _ in 0..i {
            let _ = chain.next();
        }
        match chain.next() {
            Some(record) => Some((record.seat, record.stamp)),
            None => None,
        }
    }
}

/// Appends the rest of a walk. The capacity must be enough for it.
fn gather_chain(room: &mut Vec<Record>, chain: Chain<'_>)
    requires { length room.old.items + length chain ≤ vec_capacity room.old }
    ensures gathered { room.new.items ≡ room.old.items ++ chain.entry }
    ensures room { vec_capacity room.new ≡ vec_capacity room.old }
{
    let mut chain = chain;
    'walking: while let Some(record) = chain.next() {
        room.push_reserved(record);
    }
}

/// Appends these records. The capacity must be enough for them.
fn gather_popped(room: &mut Vec<Record>, records: &[Record])
    requires { length room.old.items + length records.now ≤ vec_capacity room.old }
    ensures gathered { room.new.items ≡ room.old.items ++ records.now }
    ensures room { vec_capacity room.new ≡ vec_capacity room.old }
{
    for record in records {
        room.push_reserved(*record);
    }
}
