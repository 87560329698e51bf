//! Records of queued seats, and the pop list: the records that were collected from a cleared push list and are not served yet.
ghost use Rattle.std.specs.Prelude.{◌≡◌, [], ◌∷◌, ◌<◌, drop, length, reverse, slice_get, IfOk, IsTrue, ◌↔◌};
ghost use Rattle.std.specs.Option.{option_map};
ghost use Rattle.lfm_words.specs.Popped.{oldest, pair_of};

use lfm_model::SeatNo;
use std::alloc::{AllocError, Global};
use std::marker::Model;

/// The record of a queued seat.
#[derive(Clone, Copy, Debug, PartialEq, Eq)]
pub struct Record {
    /// The seat that waits.
    pub seat: SeatNo,
    /// The stamp of the push that queued it: 1 for the first push of a mutex, and one more for each further push.
    pub stamp: u64,
}

/// The popped records in their order, with memory for one record of each seat. A contract sees the records, oldest first, and
/// `room`, the number of records that fit.
#[derive(Drop)]
pub struct PopList {
    /// The oldest is the last, so that records are added and removed at the end.
    records: Vec<Record>,
    room: usize,
}

impl Model for PopList {
    ghost use Rattle.lfm_words.specs.Popped.{Popped};

    ghost Value = { Popped };

    ghost use Rattle.std.specs.Prelude.{◌≤◌, reverse, vec_capacity};

    ghost view = { λ p. record { records = reverse p.records.items; room = p.room } };

    ghost invariant = { λ p. p.room ≤ vec_capacity p.records };
}

impl PopList {
    /// An empty list with memory for this many records. It allocates here and nowhere later. Returns AllocError if there is no
    /// memory.
    pub fn new(alloc: Global, seats: u64) -> Result<PopList, AllocError>
        ensures { IfOk result (λ p. p ≡ record { records = []; room = seats }) }
    {
        Ok(PopList {
            records: Vec::with_capacity(alloc, seats as usize)?,
            room: seats as usize,
        })
    }

    /// A list of the same records, with memory for as many. It allocates here and nowhere later. Returns AllocError if there is
    /// no memory.
    pub fn copy(&self, alloc: Global) -> Result<PopList, AllocError>
        ensures { IfOk result (λ p. p ≡ self.now) }
    {
        let mut records = Vec::with_capacity(alloc, self.room)?;
        records.extend_from_slice(&self.records)?;
        Ok(PopList {
            records,
            room: self.room,
        })
    }

    /// How many records the list holds.
    pub fn len(&self) -> u64
        ensures { result ≡ length self.now.records }
    {
        self.records.len() as u64
    }

    /// Whether the list holds no record.
    pub fn is_empty(&self) -> bool
        ensures { IsTrue result ↔ (length self.now.records ≡ 0) }
    {
        self.records.is_empty()
    }

    /// The seat and the stamp of the record with index i; index 0 is the oldest. None if i is past the newest.
    pub fn get(&self, i: u64) -> Option<(SeatNo, u64)>
        ensures { result ≡ option_map pair_of (slice_get self.now.records i) }
    {
        if i < self.len() {
            let record = self.records[self.records.len() - 1 - i as usize];
            Some((record.seat, record.stamp))
        } else {
            None
        }
    }

    /// The oldest record. None if the list is empty.
    pub fn oldest(&self) -> Option<Record>
        ensures { result ≡ oldest self.now.records }
    {
        self.records.last().copied()
    }

    /// All records, from the newest to the oldest.
    pub fn newest_first(&self) -> &[Record]
        ensures { reverse result.now ≡ self.now.records }
    {
        &self.records
    }

    /// Adds the record of this seat and stamp as the oldest. The list must have fewer records than it has room for, so nothing
    /// is allocated.
    pub fn add_older(&mut self, seat: SeatNo, stamp: u64)
        requires { length self.old.records < self.old.room }
        ensures records { self.new.records ≡ record { seat = seat; stamp = stamp } ∷ self.old.records }
        ensures room { self.new.room ≡ self.old.room }
    {
        self.records.push_reserved(Record { seat, stamp });
    }

    /// Removes the oldest record and returns its seat and stamp. None if the list is empty.
    pub fn take_oldest(&mut self) -> Option<(SeatNo, u64)>
        ensures taken { result ≡ option_map pair_of (oldest self.old.records) }
        ensures records { self.new.records ≡ drop 1 self.old.records }
        ensures room { self.new.room ≡ self.old.room }
    {
        let record = self.records.pop()?;
        Some((record.seat, record.stamp))
    }
}
