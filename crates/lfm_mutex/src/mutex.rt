//! The mutex: its words, its limits and its pace. Its calls are in the files `open` (`new`), `lock` (`lock`, `ask`), `barging`,
//! `try_lock`, `unlock`, `receive`, `wait` (`start_wait`), `send` (`send_lock`), `wake`, `owner`, `sections` (`with`,
//! `with_in_order`, `try_with`), `rounds` (`run`) and `close`.
ghost use Rattle.std.specs.Prelude.{◌≡◌, ◌+◌, ◌*◌, ◌<◌, ◌≤◌};
ghost use Rattle.lfm_protocol.specs.Limits.{max_seats};

use crate::pace::Pace;
use crate::seat::Seat;
use lfm_protocol::Limits;
use lfm_table::shared_table::SharedTable;
use lfm_table::{Kept, OffTrail};

/// A mutex around a value of type T: at most one seat at a time holds it, and only that seat reaches the value. A call takes
/// the mutex by a shared reference, with one of its seats. Each call requires that the seat is one of this mutex.
///
/// These lines are compiled in the crate `example_counter`:
///
/// ```
/// // a mutex with four seats, each of which may acquire it `ROUNDS` times, around a counter
/// let (mutex, seats) = Mutex::new(alloc, THREADS, ROUNDS, Counter::new(book))?;
/// // in a thread of its own, each seat acquires the mutex, changes the counter, and gives the mutex up
/// share = mutex.with(rt, &mut seat, move |counter| counter.add(share))?;
/// // when all threads have ended
/// let Ok(counter) = mutex.close(seats) else {
///     bail!("a seat still holds the mutex");
/// };
/// ```
#[derive(Drop)]
pub struct Mutex<T: Kept> {
    pub(crate) table: SharedTable<T>,
    pub(crate) limits: Limits,
    pub(crate) pace: Pace,
    pub ghost words: { table.table_id.words ≡ 4 + 2 * limits.seats },
    pub ghost slots: { table.table_id.slots ≡ 1 },
    pub ghost some: { 0 < limits.seats },
    pub ghost few: { limits.seats ≤ max_seats },
}

impl<T: Kept> Mutex<T> {
    ghost use Rattle.lfm_mutex.specs.Belongs.{Beside, OfMutex};
    ghost use Rattle.lfm_mutex.specs.calls.RunGoesOn.{RunGoesOnFrom};
    ghost use Rattle.lfm_mutex.specs.calls.Sight.{sight};
    ghost use Rattle.lfm_mutex.specs.calls.Woken.{PollsOnce};

    /// How many seats hold the mutex or want it, by one read of the count word. A queued seat is counted; a seat that spins,
    /// naps or waits for a send is not. The holder is counted twice while its `lock` adds a hold. The number is a hint, since
    /// it may change at once. The read is no atomic step of the protocol.
    pub fn count(&self) -> u64 {
        let mut off_trail = OffTrail::new();
        self.table.poll_count(&mut off_trail)
    }

    /// `count`, for a call that is made with this seat. The read is added to the polls that calls with this seat have made.
    #[inline(always)]
    pub fn count_from(&self, seat: &mut Seat<T>) -> u64
        requires belongs { OfMutex seat.old self.now }
        ensures belongs { Beside seat.old seat.new }
        ensures same { sight seat.new ≡ sight seat.old }
        ensures run { RunGoesOnFrom seat.old seat.new }
        ensures woken { PollsOnce seat.old seat.new }
    {
        self.table.poll_count(&mut seat.off_trail)
    }

    /// How a seat waits for this mutex.
    pub fn pace(&self) -> Pace
        ensures { result ≡ self.now.pace }
    {
        self.pace
    }

    /// Sets how a seat waits for this mutex, before threads share it.
    pub fn set_pace(&mut self, pace: Pace)
        ensures pace { self.new.pace ≡ pace }
        ensures same { (self.new.table ≡ self.old.table) × (self.new.limits ≡ self.old.limits) }
    {
        self.pace = pace;
    }
}
