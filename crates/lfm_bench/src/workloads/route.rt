//! At which mutexes one thread makes its calls, one after another, and how many calls it makes.
ghost use Rattle.std.specs.Prelude.{◌≡◌, ◌<◌, IfOk, IsPermutation, vec_len};
ghost use Rattle.lfm_bench.specs.Deliveries.{IsEachOnce};

use std::alloc::{AllocError, Global};

/// The numbers of a generator that looks random: the next number is the last one times `MULTIPLIER` plus `INCREMENT`. Its low
/// bits come again soon, so `LOW_BITS` of them are left out.
const MULTIPLIER: u32 = 1_664_525;

const INCREMENT: u32 = 1_013_904_223;

const LOW_BITS: u32 = 8;

/// In which order one thread takes many mutexes. It takes each of them once before it begins again.
#[derive(Clone, Copy)]
pub enum Order {
    /// By their numbers.
    InTurn,
    /// In an order that looks random, and is the same in each run.
    Shuffled,
}

/// How many mutexes there are, and what calls one thread makes at them.
#[derive(Clone, Copy)]
pub struct Load {
    /// How many mutexes there are. 0 counts as 1.
    pub mutexes: usize,
    pub order: Order,
    pub calls: u64,
}

/// The mutexes at which one thread makes its calls.
#[derive(Drop)]
pub struct Route {
    pub calls: u64,
    /// The numbers of all mutexes in their order.
    mutexes: Vec<usize>,
    /// The place of the next one.
    place: usize,
    ghost inside: { place < vec_len mutexes },
}

impl Route {
    /// The route of this load. It allocates memory.
    pub fn new(alloc: Global, load: Load) -> Result<Route, AllocError>
        ensures { IfOk result (λ r. r.calls ≡ load.calls) }
    {
        let mutexes = numbers(alloc, load.mutexes.max(1), load.order)?;
        Ok(Route {
            calls: load.calls,
            mutexes,
            place: 0,
        })
    }

    /// The number of the next mutex. The first one comes after the last one.
    #[inline(always)]
    pub fn next_mutex(&mut self) -> usize
        ensures { self.new.calls ≡ self.old.calls }
    {
        let mutex = self.mutexes[self.place];
        let next = self.place + 1;
        self.place = if next < self.mutexes.len() { next } else { 0 };
        mutex
    }
}

/// The numbers from 0 to this count, which is left out, in this order. It allocates memory.
fn numbers(alloc: Global, count: usize, order: Order) -> Result<Vec<usize>, AllocError>
    ensures count { IfOk result (λ v. vec_len v ≡ count) }
    ensures once { IfOk result (λ v. IsEachOnce v.items) }
{
    let mut numbers = Vec::with_capacity(alloc, count)?;
    'filling: for number in 0..count {
        numbers.push(number)?;
    }
    put_in_order(&mut numbers, order);
    Ok(numbers)
}

/// Puts numbers that are by their size into this order.
fn put_in_order(numbers: &mut [usize], order: Order)
    ensures { IsPermutation numbers.old numbers.new }
{
    match order {
        Order::InTurn => {}
        Order::Shuffled => shuffle(numbers),
    }
}

/// Puts numbers into an order that looks random. It is the same for the same numbers.
fn shuffle(numbers: &mut [usize])
    ensures { IsPermutation numbers.old numbers.new }
{
    let mut random = 1u32;
    'places: for place in 0..numbers.len() {
        random = random.wrapping_mul(MULTIPLIER).wrapping_add(INCREMENT);
        let other = (random >> LOW_BITS) as usize % (place + 1);
        numbers.swap(place, other);
    }
}
