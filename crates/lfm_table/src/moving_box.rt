//! The pop list and the guarded value, behind one pointer. They move with the responsibility, the duty to hold the mutex or to
//! hand it on. To move them between the slot of the table and a seat copies one pointer, however large the value is.
ghost use Rattle.std.specs.Prelude.{◌≡◌, ◌<◌, ◌∷◌, drop, length, IfOk};
ghost use Rattle.std.specs.Borrow.{Lends, sem};
ghost use Rattle.lfm_words.specs.Popped.{oldest};
ghost use Rattle.lfm_table.specs.contracts.moving_box.MovingBox.{the_row};

use crate::rule::Moving;
use lfm_model::SeatNo;
use lfm_words::{PopList, Record};
use std::alloc::{AllocError, Global};
use std::marker::Model;

/// What moves with the responsibility. A contract sees the pop list and the value.
#[derive(Drop)]
pub struct MovingBox<T: Drop> {
    held: Box<Moving<T>>,
}

impl<T: Drop> Model for MovingBox<T> {
    ghost use Rattle.lfm_table.specs.declared.rule.Moving.{Moving};

    ghost Value = { Moving T };

    ghost view = { λ m. m.held.value };
}

impl<T: Drop> MovingBox<T> {
    /// Allocates one piece of memory for the pop list and the value. If there is no memory, both are dropped.
    pub fn new(alloc: Global, popped: PopList, value: T) -> Result<MovingBox<T>, AllocError>
        ensures { IfOk result (λ m. m ≡ record { popped = popped; value = value }) }
    {
        Ok(MovingBox {
            held: Box::new(alloc, Moving { popped, value })?,
        })
    }

    /// Returns the value. Drops the pop list and frees the memory.
    pub fn into_value(self) -> T
        ensures { result ≡ self.value }
    {
        let MovingBox { held } = self;
        let Moving { popped: _, value } = Box::into_inner(held);
        value
    }

    /// The guarded value.
    pub fn value(&self) -> &T
        ensures { result.now ≡ self.now.value }
    {
        &self.held.value
    }

    /// The guarded value, mutable.
    pub fn value_mut(&mut self) -> &mut T
        ensures* lends { sem 𝓛 (Lends (the_row T.row) T.row self.entry result (λ w. record self.old { value = w })) }
        ensures value { result.now ≡ self.old.value }
    {
        let held = self.held.as_mut();
        &mut held.value
    }

    /// The oldest record of the pop list.
    pub fn oldest(&self) -> Option<Record>
        ensures { result ≡ oldest self.now.popped.records }
    {
        self.held.popped.oldest()
    }

    /// Removes the oldest record of the pop list, if there is one.
    pub fn drop_oldest(&mut self)
        ensures { self.new ≡ record self.old { popped = record self.old.popped { records = drop 1 self.old.popped.records } } }
    {
        let held = self.held.as_mut();
        held.popped.take_oldest();
    }

    /// Adds a record of this seat and stamp as the oldest of the pop list, which must have room for it.
    pub fn add_older(&mut self, seat: SeatNo, stamp: u64)
        requires { length self.old.popped.records < self.old.popped.room }
        ensures { self.new ≡ record self.old { popped = record self.old.popped { records = record { seat = seat; stamp = stamp } ∷ self.old.popped.records } } }
    {
        let held = self.held.as_mut();
        held.popped.add_older(seat, stamp);
    }
}
