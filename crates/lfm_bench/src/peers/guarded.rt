//! The value of a mutex whose threads wait on condvars: a number that they count up, and a bounded queue of numbers.

use lfm_mutex::Kept;

/// How many numbers the queue has room for.
const ROOM: u64 = 16;

/// A bounded queue of numbers, first in, first out.
#[derive(Drop)]
pub struct Queue {
    slots: [u64; 16],
    /// How many numbers were put in so far. The next one goes to the slot with this number modulo the room.
    put: u64,
    /// How many were taken out.
    taken: u64,
}

impl Queue {
    /// An empty queue.
    pub fn new() -> Queue {
        Queue {
            slots: [0; 16],
            put: 0,
            taken: 0,
        }
    }

    /// Puts this number in. Returns the number, or None if there is no room.
    #[inline(always)]
    pub fn put(&mut self, number: u64) -> Option<u64> {
        if self.put.wrapping_sub(self.taken) >= ROOM {
            return None;
        }
        self.slots[(self.put % ROOM) as usize] = number;
        self.put = self.put.wrapping_add(1);
        Some(number)
    }

    /// Takes the oldest number out. None if the queue is empty.
    #[inline(always)]
    pub fn take(&mut self) -> Option<u64> {
        if self.put == self.taken {
            return None;
        }
        let number = self.slots[(self.taken % ROOM) as usize];
        self.taken = self.taken.wrapping_add(1);
        Some(number)
    }
}

/// What the mutex guards.
#[derive(Drop)]
pub struct Guarded {
    number: u64,
    queue: Queue,
}

/// A thread may leave any value.
impl Kept for Guarded {
    ghost fits = { λ _ _. Unit {0} };

    ghost follows = { λ _ _ _. Unit {0} };
}

/// What a thread does while it holds the mutex.
#[derive(Clone, Copy)]
pub enum Operation {
    /// Reads the number as soon as it is at least this.
    ReadFrom(u64),
    /// Adds 1 to the number as soon as it is at least this, and reads the sum.
    AddOneTo(u64),
    /// Puts this number into the queue as soon as there is room.
    Put(u64),
    /// Takes a number out of the queue as soon as there is one.
    Take,
}

impl Guarded {
    /// The number 0 and an empty queue.
    pub fn new() -> Guarded {
        Guarded {
            number: 0,
            queue: Queue::new(),
        }
    }

    /// Makes the operation. Returns the number that was read, put in or taken out, or None if the operation isn't possible yet.
    #[inline(always)]
    pub fn apply(&mut self, operation: Operation) -> Option<u64> {
        match operation {
            Operation::ReadFrom(least) => {
                if self.number < least {
                    return None;
                }
                Some(self.number)
            }
            Operation::AddOneTo(least) => {
                if self.number < least {
                    return None;
                }
                self.number = self.number.wrapping_add(1);
                Some(self.number)
            }
            Operation::Put(number) => self.queue.put(number),
            Operation::Take => self.queue.take(),
        }
    }
}
