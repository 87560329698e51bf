//! The words of a mutex as a table, a seat at it, and the operations on a word. The fields and the operations are private, so
//! only this module and its children can make an operation, and a reader finds each of them here:
//! - `operate` makes the step of a call, and its contract adds the step to the seat's trail;
//! - `polls` loads a word outside the steps, and adds a load for `owner` to the trail;
//! - `parking` lets a thread sleep on a wake word, and wakes it;
//! - `off_trail` records the polls, and the seats that were woken;
//! - `opening` and `closing` split seats off and join them, which loads a word;
//! - `slot_exchange` touches no word.
ghost use Rattle.std.specs.Prelude.{◌≡◌, ◌+◌, ◌-◌, ◌%◌, ◌^◌, ◌<◌, ◌==◌, bit_and};
ghost use mathlib.Core.Option.{none};
ghost use prog.Atomic.{either};
ghost use Rattle.atomic_table.specs.Table.{step, Allows};
ghost use Rattle.lfm_table.specs.Rule.{Held};

pub mod closing;
pub mod off_trail;
pub mod opening;
pub(crate) mod operate;
pub mod parking;
pub mod polls;
mod slot_exchange;

use crate::kept::Kept;
use crate::moving_box::MovingBox;
use crate::rule::{Key, MutexRule};
use crate::seat_view::View;
use atomic_table::{Play, Seat, Table};
use std::alloc::Global;
use std::marker::Model;
use std::sync::Wait;
use std::time::Duration;

/// The seat of the crate `atomic_table`, by which the rule knows what this seat may do. It has no bytes.
#[derive(Drop)]
pub struct AtomicSeat<T: Drop> {
    seat: Seat<Option<MovingBox<T>>, View<T>>,
}

impl<T: Drop> Model for AtomicSeat<T> {
    ghost use Rattle.lfm_table.specs.SeenTable.{SeenPlace};

    ghost Value = { SeenPlace T };

    ghost view = { λ p. record { table_id = p.seat.table_id; id = p.seat.id; me = p.seat.me } };
}

/// The words of a mutex, with the rule that they and its seats keep.
#[derive(Drop)]
pub struct SharedTable<T: Kept> {
    table: Table<Option<MovingBox<T>>, View<T>, Key<T>, MutexRule, Global>,
}

impl<T: Kept> Model for SharedTable<T> {
    ghost use Rattle.lfm_table.specs.SeenTable.{SeenTable};

    ghost Value = { SeenTable };

    ghost view = { λ t. record { table_id = t.table.shared.table_id } };
}

/// The operations on a word, all sequentially consistent. Each requires that it keeps the rule in any state of the table, as
/// the operations of `atomic_table` do.
impl<T: Kept> SharedTable<T> {
    /// Loads the word.
    #[inline(always)]
    fn load<M: Play<Option<MovingBox<T>>, View<T>>>(
        &self,
        place: &mut AtomicSeat<T>,
        word: usize,
    ) -> u64
        requires table { place.old.table_id ≡ self.now.table_id }
        requires inside { word < self.now.table_id.words }
        requires allowed { Allows (Held T.follows T.fits) self.now.table_id.slots place.old.id place.old.me word (λ n. n) (M.then (step self.now.table_id.slots word 0 0 none) place.old.me) }
        ensures table { (place.new.table_id ≡ place.old.table_id) × (place.new.id ≡ place.old.id) }
        ensures step { M.then (step self.now.table_id.slots word 0 0 none) place.old.me result place.new.me }
    {
        self.table.shared.load::<M>(&mut place.seat, word)
    }

    /// Stores this number.
    #[inline(always)]
    fn store<M: Play<Option<MovingBox<T>>, View<T>>>(
        &self,
        place: &mut AtomicSeat<T>,
        word: usize,
        new: u64,
    )
        requires table { place.old.table_id ≡ self.now.table_id }
        requires inside { word < self.now.table_id.words }
        requires allowed { Allows (Held T.follows T.fits) self.now.table_id.slots place.old.id place.old.me word (λ _. new) (λ _. M.then (step self.now.table_id.slots word new 0 none) place.old.me new) }
        ensures table { (place.new.table_id ≡ place.old.table_id) × (place.new.id ≡ place.old.id) }
        ensures step { M.then (step self.now.table_id.slots word new 0 none) place.old.me new place.new.me }
    {
        self.table.shared.store::<M>(&mut place.seat, word, new);
    }

    /// Adds this number, and returns the word as it was before. The sum wraps.
    #[inline(always)]
    fn fetch_add<M: Play<Option<MovingBox<T>>, View<T>>>(
        &self,
        place: &mut AtomicSeat<T>,
        word: usize,
        k: u64,
    ) -> u64
        requires table { place.old.table_id ≡ self.now.table_id }
        requires inside { word < self.now.table_id.words }
        requires allowed { Allows (Held T.follows T.fits) self.now.table_id.slots place.old.id place.old.me word (λ n. (n + k) % 2 ^ 64) (M.then (step self.now.table_id.slots word k 0 none) place.old.me) }
        ensures table { (place.new.table_id ≡ place.old.table_id) × (place.new.id ≡ place.old.id) }
        ensures step { M.then (step self.now.table_id.slots word k 0 none) place.old.me result place.new.me }
    {
        self.table.shared.fetch_add::<M>(&mut place.seat, word, k)
    }

    /// Subtracts this number, and returns the word as it was before. The difference wraps.
    #[inline(always)]
    fn fetch_sub<M: Play<Option<MovingBox<T>>, View<T>>>(
        &self,
        place: &mut AtomicSeat<T>,
        word: usize,
        k: u64,
    ) -> u64
        requires table { place.old.table_id ≡ self.now.table_id }
        requires inside { word < self.now.table_id.words }
        requires allowed { Allows (Held T.follows T.fits) self.now.table_id.slots place.old.id place.old.me word (λ n. (n + (2 ^ 64 - k)) % 2 ^ 64) (M.then (step self.now.table_id.slots word k 0 none) place.old.me) }
        ensures table { (place.new.table_id ≡ place.old.table_id) × (place.new.id ≡ place.old.id) }
        ensures step { M.then (step self.now.table_id.slots word k 0 none) place.old.me result place.new.me }
    {
        self.table.shared.fetch_sub::<M>(&mut place.seat, word, k)
    }

    /// Clears each bit that is 0 in this number, and returns the word as it was before.
    #[inline(always)]
    fn fetch_and<M: Play<Option<MovingBox<T>>, View<T>>>(
        &self,
        place: &mut AtomicSeat<T>,
        word: usize,
        k: u64,
    ) -> u64
        requires table { place.old.table_id ≡ self.now.table_id }
        requires inside { word < self.now.table_id.words }
        requires allowed { Allows (Held T.follows T.fits) self.now.table_id.slots place.old.id place.old.me word (λ n. bit_and n k) (M.then (step self.now.table_id.slots word k 0 none) place.old.me) }
        ensures table { (place.new.table_id ≡ place.old.table_id) × (place.new.id ≡ place.old.id) }
        ensures step { M.then (step self.now.table_id.slots word k 0 none) place.old.me result place.new.me }
    {
        self.table.shared.fetch_and::<M>(&mut place.seat, word, k)
    }

    /// Stores `new` if the word is `old`. Returns the word as it was before.
    #[inline(always)]
    fn compare_exchange<M: Play<Option<MovingBox<T>>, View<T>>>(
        &self,
        place: &mut AtomicSeat<T>,
        word: usize,
        old: u64,
        new: u64,
    ) -> u64
        requires table { place.old.table_id ≡ self.now.table_id }
        requires inside { word < self.now.table_id.words }
        requires allowed { Allows (Held T.follows T.fits) self.now.table_id.slots place.old.id place.old.me word (λ n. either (n == old) new n) (M.then (step self.now.table_id.slots word old new none) place.old.me) }
        ensures table { (place.new.table_id ≡ place.old.table_id) × (place.new.id ≡ place.old.id) }
        ensures step { M.then (step self.now.table_id.slots word old new none) place.old.me result place.new.me }
    {
        self.table
            .shared
            .compare_exchange::<M>(&mut place.seat, word, old, new)
    }
}

/// What is not a step on a word: loads from which no proof learns anything, sleep and wake-up.
impl<T: Kept> SharedTable<T> {
    /// A load from which no proof learns anything.
    #[inline(always)]
    fn peek(&self, word: usize) -> u64
        requires { word < self.now.table_id.words }
    {
        self.table.shared.peek(word)
    }

    /// Sleeps until a wake-up if the low 32 bits of the word are `expected`. It may also return without a wake-up.
    fn park<R: Wait>(&self, rt: &R, word: usize, expected: u32)
        requires { word < self.now.table_id.words }
    {
        self.table.shared.park(rt, word, expected);
    }

    /// Like `park`, for at most this time.
    fn park_timeout<R: Wait>(&self, rt: &R, word: usize, expected: u32, time: Duration)
        requires { word < self.now.table_id.words }
    {
        self.table.shared.park_timeout(rt, word, expected, time);
    }

    /// Wakes one thread that is parked on the word, if there is one.
    fn wake_one(&self, word: usize)
        requires { word < self.now.table_id.words }
    {
        self.table.shared.wake_one(word);
    }
}
