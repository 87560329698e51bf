//! Our mutex, as a thread uses it.
ghost use Rattle.std.specs.Prelude.{◌≡◌, ℕ, IfOk, IfSome};
ghost use Rattle.lfm_mutex.specs.Belongs.{OfMutex, limits_of};
ghost use mathlib.Core.Option.{some};
ghost use lib.ListN.{get_elem?};

use crate::measure::Start;
use lfm_model::{Asked, Locked, Refusal};
use lfm_mutex::{Kept, Mutex, Pace, Seat};
use std::alloc::AllocError;
use std::io;
use std::sync::Wait;
use std::thread::Threads;
use std::time::Clock;

/// The budget of each seat: more takes than any run needs.
pub const BUDGET: u64 = 1 << 36;

/// A mutex that guards this value, with this number of seats and the pace of this machine. It allocates memory.
pub fn new_mutex<R: Threads + Clock + AllocGlobal, T: Kept>(
    rt: &R,
    seats: u64,
    value: T,
) -> io::Result<(Mutex<T>, Vec<Seat<T>>)>
    requires { T.fits value 0 }
    ensures limits { IfOk result (λ r. (limits_of r.0).seats ≡ seats) }
    ensures seats { IfOk result (λ r. (j : ℕ) (s : _) → get_elem? r.1.items j ≡ some s → OfMutex s r.0) }
{
    let pace = Pace::of_machine(rt)?;
    let Ok((mut mutex, seats)) = Mutex::new(rt.alloc(), seats, BUDGET, value) else {
        return Err(AllocError.into());
    };
    mutex.set_pace(pace);
    Ok((mutex, seats))
}

/// How several threads lock our mutex.
#[derive(Clone, Copy)]
pub enum Locking {
    /// By `lock`, which serves in order.
    InOrder,
    /// By `lock_barging`, which tries for a while before it queues.
    Barging,
}

/// A mutex and one of its seats.
#[derive(Drop)]
pub struct User<'a> {
    mutex: &'a Mutex<u64>,
    seat: Seat<u64>,
    ghost belongs: { OfMutex seat mutex.now },
}

impl<'a> User<'a> {
    /// The user of this seat, which is one of the mutex's.
    pub fn new(mutex: &'a Mutex<u64>, seat: Seat<u64>) -> User<'a>
        requires { OfMutex seat mutex.now }
    {
        User { mutex, seat }
    }

    /// `lock`. Returns whether the seat acquired the mutex and did not hold it before.
    #[inline(always)]
    pub fn lock<R: Wait>(&mut self, rt: &R) -> bool {
        let locked = self.mutex.lock(rt, &mut self.seat);
        matches!(locked, Ok(Locked::Held(_)))
    }

    /// `lock_barging`. Returns whether the seat acquired the mutex and did not hold it before.
    #[inline(always)]
    pub fn lock_barging<R: Wait>(&mut self, rt: &R) -> bool {
        let locked = self.mutex.lock_barging(rt, &mut self.seat);
        matches!(locked, Ok(Locked::Held(_)))
    }

    /// Locks in this way. Returns whether the seat acquired the mutex and did not hold it before.
    #[inline(always)]
    pub fn lock_by<R: Wait>(&mut self, rt: &R, locking: Locking) -> bool {
        match locking {
            Locking::InOrder => self.lock(rt),
            Locking::Barging => self.lock_barging(rt),
        }
    }

    /// `with`, whose closure adds 1 to the value. Returns whether it was not refused.
    #[inline(always)]
    pub fn add_one_within<R: Wait>(&mut self, rt: &R) -> bool {
        let added = self.mutex.with(rt, &mut self.seat, |value| {
            *value = value.wrapping_add(1);
        });
        added.is_ok()
    }

    /// `lock` of a seat that should hold already. Returns whether its hold was deepened.
    #[inline(always)]
    pub fn lock_again<R: Wait>(&mut self, rt: &R) -> bool {
        let locked = self.mutex.lock(rt, &mut self.seat);
        matches!(locked, Ok(Locked::Again(_)))
    }

    /// `try_lock`. Returns whether the seat acquired the mutex and did not hold it before.
    #[inline(always)]
    pub fn try_lock(&mut self) -> bool {
        let locked = self.mutex.try_lock(&mut self.seat);
        matches!(locked, Ok(Locked::Held(_)))
    }

    /// `try_lock` while another seat should hold. Returns whether it was refused for that reason.
    #[inline(always)]
    pub fn miss(&mut self) -> bool {
        let locked = self.mutex.try_lock(&mut self.seat);
        matches!(locked, Err(Refusal::Busy))
    }

    /// `ask` while another seat should hold. Returns whether the seat was queued and sleeps.
    #[inline(always)]
    pub fn queue(&mut self) -> bool {
        let asked = self.mutex.ask(&mut self.seat);
        matches!(asked, Ok(Asked::Asleep))
    }

    /// `try_receive` of a seat that sleeps. Returns whether it acquired the mutex.
    #[inline(always)]
    pub fn receive(&mut self) -> bool {
        let received = self.mutex.try_receive(&mut self.seat);
        matches!(received, Ok(Some(_)))
    }

    /// `receive_lock_within` of a seat that sleeps. Returns whether it acquired the mutex.
    pub fn receive_within<R: Wait>(&mut self, rt: &R, polls: u32) -> bool {
        self.mutex
            .receive_lock_within(rt, &mut self.seat, polls)
            .is_ok()
    }

    /// `unlock`. Returns whether the seat held.
    #[inline(always)]
    pub fn unlock(&mut self) -> bool {
        self.mutex.unlock(&mut self.seat).is_ok()
    }

    /// Adds 1 to the value in hand.
    #[inline(always)]
    pub fn add_one(&mut self) {
        if let Some(value) = self.seat.value_mut() {
            *value = value.wrapping_add(1);
        }
    }

    /// The value of the mutex, which the user locks and unlocks to read it. None if it does not acquire the mutex.
    pub fn final_value<R: Wait>(&mut self, rt: &R) -> Option<u64> {
        if !self.lock(rt) {
            return None;
        }
        let value = self.seat.value().copied();
        self.unlock();
        value
    }
}

/// The error of a measurement that finds fewer seats than it needs.
pub fn no_seat() -> io::Error {
    io::ErrorKind::NotFound.into()
}

/// A mutex, with those of its seats that no thread has yet.
#[derive(Drop)]
pub struct FreeSeats<'a> {
    mutex: &'a Mutex<u64>,
    seats: Vec<Seat<u64>>,
    ghost of_mutex: { (j : ℕ) (s : _) → get_elem? seats.items j ≡ some s → OfMutex s mutex.now },
}

impl<'a> FreeSeats<'a> {
    /// All these seats, which are the mutex's.
    pub fn new(mutex: &'a Mutex<u64>, seats: Vec<Seat<u64>>) -> FreeSeats<'a>
        requires { (j : ℕ) (s : _) → get_elem? seats.items j ≡ some s → OfMutex s mutex.now }
    {
        FreeSeats { mutex, seats }
    }

    /// The user of one of them. An error if there is none left.
    pub fn next_user(&mut self) -> io::Result<User<'a>> {
        let Some(seat) = last_seat(self.mutex, &mut self.seats) else {
            return Err(no_seat());
        };
        Ok(User::new(self.mutex, seat))
    }
}

/// The last of these seats, which are the mutex's. None if there is none.
pub fn last_seat<T: Kept>(mutex: &Mutex<T>, seats: &mut Vec<Seat<T>>) -> Option<Seat<T>>
    requires { (j : ℕ) (s : _) → get_elem? seats.old.items j ≡ some s → OfMutex s mutex.now }
    ensures one { IfSome result (λ s. OfMutex s mutex.now) }
    ensures rest { (j : ℕ) (s : _) → get_elem? seats.new.items j ≡ some s → OfMutex s mutex.now }
{
    let _mutex = mutex;
    let seat = seats.pop()?;
    Some(seat)
}

/// Two users of one mutex.
#[derive(Drop)]
pub struct Users<'a> {
    /// The user that makes the calls.
    pub user: User<'a>,
    pub other: User<'a>,
}

impl Users<'_> {
    /// Locks if a seat is to hold when the calls start. Returns whether the mutex is in the required state.
    pub fn begin<R: Wait>(&mut self, rt: &R, start: Start) -> bool {
        match start {
            Start::Free => true,
            Start::Held => self.user.lock(rt),
            Start::HeldByOther => self.other.lock(rt),
        }
    }

    /// Unlocks what `begin` locked. Returns whether it was held.
    pub fn end(&mut self, start: Start) -> bool {
        match start {
            Start::Free => true,
            Start::Held => self.user.unlock(),
            Start::HeldByOther => self.other.unlock(),
        }
    }
}
