//! The words, the pop list and the seats, and what a turn does to them: it starts a call or makes one atomic step. A step is
//! the operation of its kind on its word, followed by the seat's own method. This file does not say which words and points go
//! together. The contracts of turns repeat their definitions, and the invariant is in the crates above.
ghost use Rattle.std.specs.Prelude.{◌≡◌, ◌+◌, ◌^◌, ◌<◌, ◌≤◌, true, false, length, IfOk, IfErr};
ghost use Rattle.lfm_protocol.specs.Core.{put, put_link, put_wake, drops_if};
ghost use Rattle.lfm_protocol.specs.Limits.{max_seats};
ghost use Rattle.lfm_protocol.specs.Room.{HasNumbers, HasRoom};
ghost use Rattle.lfm_protocol.specs.Seats.{seat, link, wake, IsSeat, is_seat};
ghost use Rattle.lfm_protocol.specs.Step.{
  count_exchange,
  count_add,
  count_subtract,
  owner_load,
  owner_store,
  push_load,
  push_exchange,
  clear_head,
  link_load_of,
  link_store_to,
  handoff_load,
  handoff_store,
  handoff_exchange,
  wake_load_of,
  wake_store_to,
  wake_exchange_of,
  made,
  begin,
  step,
  start,
};

mod readers;
mod words;

use crate::answers::{Call, Turn, Why};
use crate::kinds::Kind;
use crate::limits::Limits;
use crate::seats::SeatState;
use lfm_model::SeatNo;
use lfm_words::{Handoff, Link, PopList, Wake};
use std::alloc::{AllocError, Global};
use std::marker::Model;

/// The words of a mutex, its pop list, and the data of its seats.
#[derive(Drop)]
pub struct Machine {
    /// How many takes each seat may charge.
    budget: u64,
    /// The count word: how many seats hold or want the mutex.
    count: u64,
    /// The owner word: the number of the owning seat; 0 for none.
    owner: u64,
    /// The handoff word: the current post, or none.
    handoff: Handoff,
    /// The push word: the newest stamp, and the newest seat of the push list.
    push: Link,
    /// The pop list, which belongs to the party with the responsibility.
    popped: PopList,
    /// The link word of each seat, starting with seat 1.
    links: Vec<Link>,
    /// The wake word of each seat, starting with seat 1.
    wakes: Vec<Wake>,
    /// The data of each seat, starting with seat 1.
    seats: Vec<SeatState>,
}

impl Model for Machine {
    ghost use Rattle.lfm_protocol.specs.Core.{Core};
    ghost use Rattle.lfm_protocol.specs.Whole.{IsWhole};

    ghost Value = { Core };

    ghost invariant = { λ m. IsWhole m.popped m.owner m.links.items m.wakes.items m.seats.items };

    ghost view = { λ m. record {
      budget = m.budget;
      count = m.count;
      owner = m.owner;
      handoff = m.handoff;
      push = m.push;
      popped = m.popped.records;
      links = m.links.items;
      wakes = m.wakes.items;
      seats = m.seats.items;
    } };
}

/// The entries of a seat, by its number.
impl Machine {
    /// The data of this seat.
    fn seat(&self, s: u64) -> SeatState
        requires { IsSeat self.now.seats s }
        ensures { result ≡ seat self.now.seats s }
    {
        self.seats[(s - 1) as usize]
    }

    /// The link word of this seat.
    fn link(&self, t: u64) -> Link
        requires { IsSeat self.now.seats t }
        ensures { result ≡ link self.now.links t }
    {
        self.links[(t - 1) as usize]
    }

    /// The wake word of this seat.
    fn wake(&self, t: u64) -> Wake
        requires { IsSeat self.now.seats t }
        ensures { result ≡ wake self.now.wakes t }
    {
        self.wakes[(t - 1) as usize]
    }

    /// Replaces the data of this seat.
    fn put(&mut self, s: u64, x: SeatState)
        requires { IsSeat self.old.seats s }
        ensures { self.new ≡ put self.old s x }
    {
        self.seats[(s - 1) as usize] = x;
    }

    /// Replaces the link word of this seat.
    fn put_link(&mut self, t: u64, x: Link)
        requires { IsSeat self.old.seats t }
        ensures { self.new ≡ put_link self.old t x }
    {
        self.links[(t - 1) as usize] = x;
    }

    /// Replaces the wake word of this seat.
    fn put_wake(&mut self, t: u64, x: Wake)
        requires { IsSeat self.old.seats t }
        ensures { self.new ≡ put_wake self.old t x }
    {
        self.wakes[(t - 1) as usize] = x;
    }

    /// Whether a seat has this number: 1 to the number of seats.
    pub fn is_seat(&self, s: u64) -> bool
        ensures { result ≡ is_seat self.now.seats s }
    {
        0 < s && s <= self.seats()
    }
}

/// The pop list.
impl Machine {
    /// Takes the oldest record out of the pop list if `leaves` is true.
    fn drop_if(&mut self, leaves: bool)
        ensures { self.new ≡ drops_if self.old leaves }
    {
        if leaves {
            let _ = self.popped.take_oldest();
        }
    }
}

/// One atomic step of each kind by seat s: the operation on the word, then the seat's own method. t is the seat whose link or
/// wake word the step accesses.
impl Machine {
    /// Seat s makes a compare-and-exchange of the count from 0 to 1.
    fn count_exchange(&mut self, s: u64) -> Turn
        requires seat { IsSeat self.old.seats s }
        ensures core { self.new ≡ (count_exchange self.old s).core }
        ensures turn { result ≡ (count_exchange self.old s).turn }
    {
        let mut seat = self.seat(s);
        let found = self.count;
        if found == 0 {
            self.count = 1;
        }
        let turn = seat.after_count_exchange(found);
        self.put(s, seat);
        turn
    }

    /// Seat s adds 1 to the count.
    fn count_add(&mut self, s: u64) -> Turn
        requires seat { IsSeat self.old.seats s }
        requires counts { self.old.count + 1 < 2 ^ 64 }
        ensures core { self.new ≡ (count_add self.old s).core }
        ensures turn { result ≡ (count_add self.old s).turn }
    {
        let mut seat = self.seat(s);
        let found = self.count;
        self.count = found + 1;
        let turn = seat.after_count_add(found);
        self.put(s, seat);
        turn
    }

    /// Seat s subtracts 1 from the count.
    fn count_subtract(&mut self, s: u64) -> Turn
        requires seat { IsSeat self.old.seats s }
        requires numbers { HasNumbers (seat self.old.seats s) (seat self.old.seats s).point }
        requires counts { 0 < self.old.count }
        ensures core { self.new ≡ (count_subtract self.old s).core }
        ensures turn { result ≡ (count_subtract self.old s).turn }
    {
        let mut seat = self.seat(s);
        let found = self.count;
        self.count = found - 1;
        let turn = seat.after_count_subtract(s, found, self.popped.oldest());
        self.put(s, seat);
        turn
    }

    /// Seat s loads the owner word.
    fn owner_load(&mut self, s: u64) -> Turn
        requires seat { IsSeat self.old.seats s }
        requires numbers { HasNumbers (seat self.old.seats s) (seat self.old.seats s).point }
        ensures core { self.new ≡ (owner_load self.old s).core }
        ensures turn { result ≡ (owner_load self.old s).turn }
    {
        let mut seat = self.seat(s);
        let turn = seat.after_owner_load(s, self.owner);
        self.put(s, seat);
        turn
    }

    /// Seat s stores its number or 0 in the owner word. If it enters by the oldest record, that record is taken out of the pop
    /// list.
    fn owner_store(&mut self, s: u64) -> Turn
        requires seat { IsSeat self.old.seats s }
        ensures core { self.new ≡ (owner_store self.old s).core }
        ensures turn { result ≡ (owner_store self.old s).turn }
    {
        let mut seat = self.seat(s);
        self.owner = seat.stored_owner(s);
        self.drop_if(seat.drops_oldest());
        let turn = seat.after_owner_store();
        self.put(s, seat);
        turn
    }

    /// Seat s loads the push word.
    fn push_load(&mut self, s: u64) -> Turn
        requires seat { IsSeat self.old.seats s }
        ensures core { self.new ≡ (push_load self.old s).core }
        ensures turn { result ≡ (push_load self.old s).turn }
    {
        let mut seat = self.seat(s);
        let turn = seat.after_push_load(self.push);
        self.put(s, seat);
        turn
    }

    /// Seat s makes a compare-and-exchange of the push word from the one that it loaded to one with the pushed seat as the
    /// head.
    fn push_exchange(&mut self, s: u64) -> Turn
        requires seat { IsSeat self.old.seats s }
        requires numbers { HasNumbers (seat self.old.seats s) (seat self.old.seats s).point }
        ensures core { self.new ≡ (push_exchange self.old s).core }
        ensures turn { result ≡ (push_exchange self.old s).turn }
    {
        let mut seat = self.seat(s);
        let found = self.push;
        if found == seat.expected_push() {
            self.push = seat.exchanged_push(s);
        }
        let turn = seat.after_push_exchange(found);
        self.put(s, seat);
        turn
    }

    /// Seat s clears the head of the push word and keeps the stamp, so that no stamp is used twice.
    fn clear_head(&mut self, s: u64) -> Turn
        requires seat { IsSeat self.old.seats s }
        ensures core { self.new ≡ (clear_head self.old s).core }
        ensures turn { result ≡ (clear_head self.old s).turn }
    {
        let mut seat = self.seat(s);
        let found = self.push;
        self.push.next = 0;
        let turn = seat.after_clear_head(found);
        self.put(s, seat);
        turn
    }

    /// Seat s loads the link word of seat t, and the record of t becomes the oldest of the pop list.
    fn link_load_of(&mut self, s: u64, t: u64) -> Turn
        requires seat { IsSeat self.old.seats s }
        requires touches { IsSeat self.old.seats t }
        requires numbers { HasNumbers (seat self.old.seats s) (seat self.old.seats s).point }
        requires pops { length self.old.popped < length self.old.seats }
        ensures core { self.new ≡ (link_load_of self.old s t).core }
        ensures turn { result ≡ (link_load_of self.old s t).turn }
    {
        let mut seat = self.seat(s);
        let found = self.link(t);
        self.popped.add_older(SeatNo::known(t), found.stamp);
        let turn = seat.after_link_load(s, found);
        self.put(s, seat);
        turn
    }

    /// Seat s stores the link of seat t, whose record it pushes next.
    fn link_store_to(&mut self, s: u64, t: u64) -> Turn
        requires seat { IsSeat self.old.seats s }
        requires numbers { HasNumbers (seat self.old.seats s) (seat self.old.seats s).point }
        requires touches { IsSeat self.old.seats t }
        ensures core { self.new ≡ (link_store_to self.old s t).core }
        ensures turn { result ≡ (link_store_to self.old s t).turn }
    {
        let mut seat = self.seat(s);
        self.put_link(t, seat.stored_link());
        let turn = seat.after_link_store();
        self.put(s, seat);
        turn
    }

    /// Seat s loads the handoff word.
    fn handoff_load(&mut self, s: u64) -> Turn
        requires seat { IsSeat self.old.seats s }
        requires numbers { HasNumbers (seat self.old.seats s) (seat self.old.seats s).point }
        ensures core { self.new ≡ (handoff_load self.old s).core }
        ensures turn { result ≡ (handoff_load self.old s).turn }
    {
        let mut seat = self.seat(s);
        let turn = seat.after_handoff_load(self.handoff);
        self.put(s, seat);
        turn
    }

    /// Seat s stores its next post in the handoff word.
    fn handoff_store(&mut self, s: u64) -> Turn
        requires seat { IsSeat self.old.seats s }
        requires numbers { HasNumbers (seat self.old.seats s) (seat self.old.seats s).point }
        ensures core { self.new ≡ (handoff_store self.old s).core }
        ensures turn { result ≡ (handoff_store self.old s).turn }
    {
        let mut seat = self.seat(s);
        self.handoff = seat.stored_handoff(s);
        let turn = seat.after_handoff_store();
        self.put(s, seat);
        turn
    }

    /// Seat s makes a compare-and-exchange of the handoff word from the post that it expects to none.
    fn handoff_exchange(&mut self, s: u64) -> Turn
        requires seat { IsSeat self.old.seats s }
        requires numbers { HasNumbers (seat self.old.seats s) (seat self.old.seats s).point }
        ensures core { self.new ≡ (handoff_exchange self.old s).core }
        ensures turn { result ≡ (handoff_exchange self.old s).turn }
    {
        let mut seat = self.seat(s);
        let found = self.handoff;
        if found == seat.expected_handoff(s) {
            self.handoff = Handoff::NONE;
        }
        let turn = seat.after_handoff_exchange(s, found, self.popped.oldest());
        self.put(s, seat);
        turn
    }

    /// Seat s loads the wake word of seat t.
    fn wake_load_of(&mut self, s: u64, t: u64) -> Turn
        requires seat { IsSeat self.old.seats s }
        requires touches { IsSeat self.old.seats t }
        ensures core { self.new ≡ (wake_load_of self.old s t).core }
        ensures turn { result ≡ (wake_load_of self.old s t).turn }
    {
        let mut seat = self.seat(s);
        let turn = seat.after_wake_load(self.wake(t));
        self.put(s, seat);
        turn
    }

    /// Seat s stores in the wake word of seat t. If the store grants the oldest record, that record is taken out of the pop
    /// list.
    fn wake_store_to(&mut self, s: u64, t: u64) -> Turn
        requires seat { IsSeat self.old.seats s }
        requires touches { IsSeat self.old.seats t }
        ensures core { self.new ≡ (wake_store_to self.old s t).core }
        ensures turn { result ≡ (wake_store_to self.old s t).turn }
    {
        let mut seat = self.seat(s);
        self.put_wake(t, seat.stored_wake());
        self.drop_if(seat.drops_oldest());
        let turn = seat.after_wake_store();
        self.put(s, seat);
        turn
    }

    /// Seat s claims seat t if t is waiting. Otherwise the wake word does not change.
    fn wake_exchange_of(&mut self, s: u64, t: u64) -> Turn
        requires seat { IsSeat self.old.seats s }
        requires touches { IsSeat self.old.seats t }
        ensures core { self.new ≡ (wake_exchange_of self.old s t).core }
        ensures turn { result ≡ (wake_exchange_of self.old s t).turn }
    {
        let mut seat = self.seat(s);
        let found = self.wake(t);
        if let Wake::Waiting = found {
            self.put_wake(t, Wake::Claimed);
        }
        let turn = seat.after_wake_exchange(found);
        self.put(s, seat);
        turn
    }
}

/// The turns.
impl Machine {
    /// A mutex at its start: no seat holds it and no record is queued. It allocates the pop list and the three lists of entries
    /// here, and nothing later. It returns AllocError if one of these allocations fails.
    pub fn new(alloc: Global, limits: Limits) -> Result<Machine, AllocError>
        requires { limits.seats ≤ max_seats }
        ensures { IfOk result (λ m. m ≡ start limits) }
    {
        let seats = limits.seats as usize;
        Ok(Machine {
            budget: limits.budget,
            count: 0,
            owner: 0,
            handoff: Handoff::NONE,
            push: Link::NONE,
            popped: PopList::new(alloc, limits.seats)?,
            links: vec![in alloc; Link::NONE; seats]?,
            wakes: vec![in alloc; Wake::Quiet; seats]?,
            seats: vec![in alloc; SeatState::REST; seats]?,
        })
    }

    /// A machine with the same words, pop list and seats. It allocates as `new` does. It returns AllocError if one of these
    /// allocations fails.
    pub fn copy(&self, alloc: Global) -> Result<Machine, AllocError>
        ensures { IfOk result (λ m. m ≡ self.now) }
    {
        Ok(Machine {
            budget: self.budget,
            count: self.count,
            owner: self.owner,
            handoff: self.handoff,
            push: self.push,
            popped: self.popped.copy(alloc)?,
            links: Vec::from_slice(alloc, &self.links)?,
            wakes: Vec::from_slice(alloc, &self.wakes)?,
            seats: Vec::from_slice(alloc, &self.seats)?,
        })
    }

    /// Starts a call of seat s. Refused as NoSuchSeat if no seat has this number, and then for the causes of
    /// `SeatState::begin`. A refused call changes nothing.
    pub fn begin(&mut self, s: u64, call: Call) -> Turn
        ensures core { self.new ≡ (begin self.old s call).core }
        ensures turn { result ≡ (begin self.old s call).turn }
    {
        if !self.is_seat(s) {
            return Turn::Refused(Why::NoSuchSeat);
        }
        let limits = Limits {
            seats: self.seats(),
            budget: self.budget,
        };
        let mut seat = self.seat(s);
        let turn = seat.begin(limits, call);
        self.put(s, seat);
        turn
    }

    /// Seat s makes the one atomic step at its point. The numbers of the step must have room. Refused as NoSuchSeat if no seat
    /// has this number, and then as Idle if no call of the seat is open; both change nothing. If a step is refused as Busy or
    /// NotWaiting, it was made and its call has ended.
    pub fn step(&mut self, s: u64) -> Turn
        requires { IsSeat self.old.seats s → HasRoom self.old s }
        ensures core { self.new ≡ (step self.old s).core }
        ensures turn { result ≡ (step self.old s).turn }
    {
        if !self.is_seat(s) {
            return Turn::Refused(Why::NoSuchSeat);
        }
        self.make(s)
    }

    /// Makes the step at the point of seat s, by its kind.
    fn make(&mut self, s: u64) -> Turn
        requires seat { IsSeat self.old.seats s }
        requires room { HasRoom self.old s }
        ensures core { self.new ≡ (made self.old s).core }
        ensures turn { result ≡ (made self.old s).turn }
    {
        // All cases have the same order. What a step writes depends on the point, so it is read before the seat moves to its
        // next point. Then follows the operation on the word, with the change of the pop list. The next point depends on what
        // the operation found, so the seat's method comes last: it advances a copy of the data, which is put back.
        let seat = self.seat(s);
        let t = seat.point.target(s);
        match seat.point.kind() {
            None => Turn::Refused(Why::Idle),
            Some(Kind::CountExchange) => self.count_exchange(s),
            Some(Kind::CountAdd) => self.count_add(s),
            Some(Kind::CountSubtract) => self.count_subtract(s),
            Some(Kind::OwnerLoad) => self.owner_load(s),
            Some(Kind::OwnerStore) => self.owner_store(s),
            Some(Kind::PushLoad) => self.push_load(s),
            Some(Kind::PushExchange) => self.push_exchange(s),
            Some(Kind::ClearHead) => self.clear_head(s),
            Some(Kind::LinkLoad) => self.link_load_of(s, t),
            Some(Kind::LinkStore) => self.link_store_to(s, t),
            Some(Kind::HandoffLoad) => self.handoff_load(s),
            Some(Kind::HandoffStore) => self.handoff_store(s),
            Some(Kind::HandoffExchange) => self.handoff_exchange(s),
            Some(Kind::WakeLoad) => self.wake_load_of(s, t),
            Some(Kind::WakeStore) => self.wake_store_to(s, t),
            Some(Kind::WakeExchange) => self.wake_exchange_of(s, t),
        }
    }
}
