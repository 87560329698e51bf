//! A small cache, as a value that a mutex guards.
use lfm_mutex::Kept;

/// How many entries the cache has room for.
const ROOM: u64 = 16;

/// A number, and what was found for it.
#[derive(Clone, Copy)]
struct Entry {
    number: u64,
    found: u64,
}

/// What was found for some numbers. The place of a number is the number modulo 16, and a place keeps what was put there last.
#[derive(Drop)]
pub struct Cache {
    entries: [Option<Entry>; 16],
}

impl Cache {
    /// A cache with nothing in it.
    pub fn new() -> Cache {
        Cache {
            entries: [None; 16],
        }
    }

    /// What was found for this number, if the cache has it.
    pub fn find(&self, number: u64) -> Option<u64> {
        let place = self.entries[(number % ROOM) as usize];
        match place {
            Some(entry) if entry.number == number => Some(entry.found),
            _ => None,
        }
    }

    /// Puts in what was found for this number.
    pub fn put(&mut self, number: u64, found: u64) {
        self.entries[(number % ROOM) as usize] = Some(Entry { number, found });
    }
}

/// A thread may leave any value.
impl Kept for Cache {
    ghost fits = { λ _ _. Unit {0} };

    ghost follows = { λ _ _ _. Unit {0} };
}
