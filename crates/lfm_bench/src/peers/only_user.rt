//! Our mutex with its only user, for a thread that uses many mutexes.
ghost use Rattle.std.specs.Prelude.{◌≡◌};
ghost use Rattle.lfm_mutex.specs.Belongs.{OfMutex};

use crate::peers::ours::{BUDGET, last_seat, no_seat};
use lfm_model::Locked;
use lfm_mutex::{Mutex, Seat};
use std::alloc::{AllocError, Global};
use std::io;
use std::sync::Wait;

/// A mutex and its only seat.
#[derive(Drop)]
pub struct OnlyUser {
    mutex: Mutex<u64>,
    seat: Seat<u64>,
    ghost belongs: { OfMutex seat mutex },
}

impl OnlyUser {
    /// The user of a new mutex. Its seat never waits, so the mutex has no pace of this machine. It allocates memory.
    pub fn new(alloc: Global) -> io::Result<OnlyUser> {
        let Ok((mutex, mut seats)) = Mutex::new(alloc, 1, BUDGET, 0u64) else {
            return Err(AllocError.into());
        };
        let Some(seat) = last_seat(&mutex, &mut seats) else {
            return Err(no_seat());
        };
        Ok(OnlyUser { mutex, seat })
    }

    /// `lock` and `unlock`. Returns whether the seat acquired the mutex, and did not hold it before.
    #[inline(always)]
    pub fn lock_and_unlock<R: Wait>(&mut self, rt: &R) -> bool {
        let locked = self.mutex.lock(rt, &mut self.seat);
        let unlocked = self.mutex.unlock(&mut self.seat);
        matches!(locked, Ok(Locked::Held(_))) && unlocked.is_ok()
    }
}
