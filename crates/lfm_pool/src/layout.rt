//! The indexes of the words of a pool: eight for each mutex, and then two for each seat. A mutex uses the first five: its
//! count, owner, handoff and push word, and the carried word, which only the seat that carries or holds the mutex touches.
//! It has eight, the size of a cache line, so that mutexes share no line if the table begins at one. The words of a seat are
//! its link word and its wake word.
ghost use Rattle.std.specs.Prelude.{◌≡◌, ◌+◌, ◌*◌, ◌<◌, ◌^◌};

/// The number of words of a mutex.
pub const MUTEX_WORDS: usize = 8;

/// The number of words of a seat.
pub const SEAT_WORDS: usize = 2;

/// The count of a mutex, among its words.
pub const COUNT: usize = 0;

/// Its owner word.
pub const OWNER: usize = 1;

/// Its handoff word.
pub const HANDOFF: usize = 2;

/// Its push word.
pub const PUSH: usize = 3;

/// Its carried word.
pub const CARRIED: usize = 4;

/// The index of this word of a mutex.
#[inline(always)]
pub fn own_at(mutex: usize, word: usize) -> usize
    requires { mutex * 8 + word < 2 ^ 63 }
    ensures { result ≡ mutex * 8 + word }
{
    mutex * MUTEX_WORDS + word
}

/// The index of the link word of the seat with this number, in a pool of this many mutexes.
#[inline(always)]
pub fn link_at(mutexes: usize, number: u64) -> usize
    requires many { mutexes < 2 ^ 32 }
    requires number { (0 < number) × (number < 2 ^ 16) }
    ensures { result + 2 ≡ mutexes * 8 + number * 2 }
{
    mutexes * MUTEX_WORDS + (number as usize - 1) * SEAT_WORDS
}

/// The index of its wake word.
#[inline(always)]
pub fn wake_at(mutexes: usize, number: u64) -> usize
    requires many { mutexes < 2 ^ 32 }
    requires number { (0 < number) × (number < 2 ^ 16) }
    ensures { result + 1 ≡ mutexes * 8 + number * 2 }
{
    link_at(mutexes, number) + 1
}
