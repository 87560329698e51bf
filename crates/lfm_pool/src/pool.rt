//! A pool, and how it is opened with its seats.
ghost use Rattle.std.specs.Prelude.{◌≡◌, All, ◌+◌, ◌*◌, ◌^◌, ◌<◌, ◌≤◌, ℕ, [], length, false, true, IfErr, IfOk, vec_len};
ghost use mathlib.Core.Option.{some};
ghost use lib.ListN.{get_elem?};
ghost use Rattle.lfm_protocol.specs.Limits.{max_seats};
ghost use Rattle.lfm_pool.specs.Bounds.{most_takes};
ghost use Rattle.lfm_pool.specs.Rule.{MaySplit, first_pool_view, left_view, right_view};

use crate::layout::{MUTEX_WORDS, SEAT_WORDS};
use crate::rule::{PoolKey, PoolRule, PoolSplit};
use crate::seat::PoolSeat;
use crate::view::PoolView;
use atomic_table::{Seat, Table};
use lfm_model::NewFault;
use lfm_protocol::{Limits, MAX_SEATS};
use std::alloc::{AllocError, Global};

/// A pool has fewer mutexes than this.
const MUTEXES_BOUND: usize = 1 << 32;

/// How many takes a seat of a new pool may make: more than a thread makes in centuries.
const MOST_TAKES: u64 = 1 << 63;

/// The polls of a new pool.
const USUAL_POLLS: u32 = 800;

/// Many mutexes in one table, with the same limits for all of them: how many seats there are, and how many takes a seat may
/// make.
///
/// ```
/// let (pool, seats) = Pool::new(rt.alloc(), 1000, 4)?;
/// ```
#[derive(Drop)]
pub struct Pool {
    pub(crate) table: Table<u64, PoolView, PoolKey, PoolRule, Global>,
    pub(crate) mutexes: usize,
    pub(crate) limits: Limits,

    /// How often a seat that sleeps polls its wake word before its thread parks.
    pub(crate) polls: u32,
    pub ghost wide: { table.shared.table_id.words ≡ mutexes * 8 + limits.seats * 2 },
    pub ghost no_slots: { table.shared.table_id.slots ≡ 0 },
    pub ghost few: { (limits.seats ≤ max_seats) × (mutexes < 2 ^ 32) },
    pub ghost budgeted: { limits.budget ≤ most_takes },
}

/// The part of a seat by which it takes part in the table: its number, the count of the posts that it has made in all mutexes,
/// and a token without bytes by which the rule of the table knows what the seat may do. It may hold any number of mutexes at
/// once, each up to 65,535 times.
#[derive(Drop)]
pub struct TableSeat {
    pub(crate) place: Seat<u64, PoolView>,
    pub(crate) number: u64,

    /// How many posts it has made in all mutexes.
    pub(crate) posts: u64,
    pub ghost counted: { place.me.0.posts ≡ posts },
}

impl Pool {
    ghost use Rattle.lfm_model.specs.declared.refusals.NewFault.{NewFault};
    ghost use Rattle.lfm_pool.specs.Calls.{IsBetweenCalls};
    ghost use Rattle.lfm_pool.specs.NewSeats.{IsNewSeat, IsPoolSize};

    /// A pool of this many free mutexes, numbered from 0, and its seats in order, numbered from 1. Each seat rests in all
    /// mutexes, holds none, and may make 2^63 takes.
    ///
    /// Refuses, in this order, with Limit if there are no mutexes or 2^32 and more, or no seats or more than 4,095; and with
    /// Memory if a request for memory was refused. It requests memory for the words, 64 bytes for each mutex and 16 for each
    /// seat, and for the list of seats.
    pub fn new(alloc: Global, mutexes: usize, seats: u64) -> Result<(Pool, Vec<PoolSeat>), NewFault>
        ensures pool { IfOk result (λ r. (r.0.mutexes ≡ mutexes) × (r.0.limits ≡ record { seats = seats; budget = most_takes }) × (r.0.polls ≡ 800)) }
        ensures seats { IfOk result (λ r. (vec_len r.1 ≡ seats) × ((j : ℕ) (s : _) → get_elem? r.1.items j ≡ some s → IsNewSeat (j + 1) r.0 s × IsBetweenCalls s r.0)) }
        ensures between { IfOk result (λ r. All (λ s. IsBetweenCalls s r.0) r.1.items) }
        ensures limit { IsPoolSize mutexes seats ≡ false → IfErr result (λ e. e ≡ NewFault.Limit) × IfOk result (λ _. ⊥) }
        ensures memory { IsPoolSize mutexes seats ≡ true → IfErr result (λ e. e ≡ NewFault.Memory) }
    {
        let limits = Pool::usual_limits(mutexes, seats)?;
        let Ok(opened) = Pool::open(alloc, mutexes, limits) else {
            return Err(NewFault::Memory);
        };
        Ok(opened)
    }

    /// How many mutexes it has.
    pub fn mutexes(&self) -> usize
        ensures { result ≡ self.now.mutexes }
    {
        self.mutexes
    }

    /// The same pool, in which a seat that sleeps polls its wake word this many times before its thread parks. A new pool has
    /// 800, about 20 microseconds. With one processor 0 is best.
    pub fn with_polls(self, polls: u32) -> Pool
        ensures { result ≡ record self { polls = polls } }
    {
        Pool {
            table: self.table,
            mutexes: self.mutexes,
            limits: self.limits,
            polls,
        }
    }

    /// The limits of a new pool of this many mutexes and seats. Refuses with Limit if no pool has this size.
    pub(crate) fn usual_limits(mutexes: usize, seats: u64) -> Result<Limits, NewFault>
        ensures limits { IfOk result (λ l. l ≡ record { seats = seats; budget = most_takes }) }
        ensures fits { IfOk result (λ _. (IsPoolSize mutexes seats ≡ true) × (0 < mutexes) × (mutexes < 2 ^ 32) × (0 < seats) × (seats ≤ max_seats)) }
        ensures limit { IfErr result (λ e. (e ≡ NewFault.Limit) × (IsPoolSize mutexes seats ≡ false)) }
    {
        if mutexes == 0 || mutexes >= MUTEXES_BOUND || seats == 0 || seats > MAX_SEATS {
            return Err(NewFault::Limit);
        }
        Ok(Limits {
            seats,
            budget: MOST_TAKES,
        })
    }

    /// A pool as `new` makes it, each of whose seats may make as many takes as its limits say.
    pub(crate) fn open(
        alloc: Global,
        mutexes: usize,
        limits: Limits,
    ) -> Result<(Pool, Vec<PoolSeat>), AllocError>
        requires seats { (0 < limits.seats) × (limits.seats ≤ max_seats) }
        requires takes { (0 < limits.budget) × (limits.budget ≤ most_takes) }
        requires some { 0 < mutexes }
        requires many { mutexes < 2 ^ 32 }
        ensures pool { IfOk result (λ r. (r.0.mutexes ≡ mutexes) × (r.0.limits ≡ limits) × (r.0.polls ≡ 800)) }
        ensures seats { IfOk result (λ r. (vec_len r.1 ≡ limits.seats) × ((j : ℕ) (s : _) → get_elem? r.1.items j ≡ some s → IsNewSeat (j + 1) r.0 s × IsBetweenCalls s r.0)) }
        ensures between { IfOk result (λ r. All (λ s. IsBetweenCalls s r.0) r.1.items) }
    {
        let Ok(mut all) = Vec::with_capacity(alloc, limits.seats as usize) else {
            return Err(AllocError);
        };
        let (pool, mut first) = match Pool::with_first_seat(alloc, mutexes, limits) {
            Ok(opened) => opened,
            Err(fault) => return Err(fault),
        };
        for i in 1..limits.seats {
            let seat = pool.split_seat(&mut first, i + 1);
            all.push_reserved(PoolSeat::new(seat));
        }
        let Ok(()) = all.insert(0, PoolSeat::new(first)) else {
            unreachable!()
        };
        Ok((pool, all))
    }

    /// A pool and its first seat.
    pub(crate) fn with_first_seat(
        alloc: Global,
        mutexes: usize,
        limits: Limits,
    ) -> Result<(Pool, TableSeat), AllocError>
        requires seats { (0 < limits.seats) × (limits.seats ≤ max_seats) }
        requires takes { (0 < limits.budget) × (limits.budget ≤ most_takes) }
        requires many { mutexes < 2 ^ 32 }
        ensures pool { IfOk result (λ r. (r.0.mutexes ≡ mutexes) × (r.0.limits ≡ limits) × (r.0.polls ≡ 800)) }
        ensures seat { IfOk result (λ r. (r.1.number ≡ 1) × (r.1.place.table_id ≡ r.0.table.shared.table_id) × (r.1.place.id ≡ 0) × (r.1.place.me ≡ (first_pool_view mutexes limits, []))) }
    {
        let count = mutexes * MUTEX_WORDS + limits.seats as usize * SEAT_WORDS;
        let Ok(words) = Vec::from_elem(alloc, 0u64, count) else {
            return Err(AllocError);
        };
        let about = PoolKey { mutexes, limits };
        let Ok((table, place)) = Table::of_words(alloc, words.as_slice(), &about) else {
            return Err(AllocError);
        };
        let pool = Pool {
            table,
            mutexes,
            limits,
            polls: USUAL_POLLS,
        };
        let first = TableSeat {
            place,
            number: 1,
            posts: 0,
        };
        Ok((pool, first))
    }

    /// Splits one more seat off the first one, and gives it this number.
    pub(crate) fn split_seat(&self, first: &mut TableSeat, number: u64) -> TableSeat
        requires table { (first.old.place.table_id ≡ self.now.table.shared.table_id) × (first.old.place.id ≡ 0) }
        requires inside { length first.old.place.me.0.parts ≡ self.now.mutexes }
        requires may { MaySplit first.old.place.me.0 }
        ensures table { (first.new.place.table_id ≡ first.old.place.table_id) × (first.new.place.id ≡ first.old.place.id) × (first.new.number ≡ first.old.number) }
        ensures split { (first.new.place.me ≡ (left_view first.old.place.me.0, first.old.place.me.1)) × (result.place.table_id ≡ first.old.place.table_id) × (result.place.me ≡ (right_view first.old.place.me.0, [])) × (result.number ≡ number) }
    {
        TableSeat {
            place: self.table.shared.split_seat::<PoolSplit>(&mut first.place),
            number,
            posts: 0,
        }
    }
}
