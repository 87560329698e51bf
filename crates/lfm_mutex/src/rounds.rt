//! `run`: each seat makes its rounds in a thread of its own.
ghost use Rattle.std.specs.Prelude.{◌≡◌, IfErr, IfOk, vec_len};
ghost use Rattle.lfm_mutex.specs.AllSeats.{SeatsOf};
ghost use Rattle.lfm_mutex.specs.Belongs.{OfMutex};
ghost use Rattle.lfm_threads.specs.Together.{AllGiven};
ghost use Rattle.lfm_mutex.specs.Rounds.{HasRounded, KeepsRound, MayRound};

use crate::mutex::Mutex;
use crate::seat::Seat;
use lfm_model::Refusal;
use lfm_table::Kept;
use lfm_threads::{NotStarted, share};
use std::sync::Wait;
use std::thread::Threads;

impl<T: Kept> Mutex<T> {
    /// Starts a thread for each seat. Each thread calls the closure with its round, from 0 to `rounds - 1`, and its seat, and
    /// stops early at the first Err. `run` sleeps until all threads have ended. Then it returns Ok with all seats, in their
    /// order.
    ///
    /// The results of the closure are not kept: `run` returns Ok with all seats even if a thread stopped early. A caller that
    /// needs to know this lets the closure count the rounds. It is a precondition that the closure leaves a seat of this mutex,
    /// with the same number, at the same depth as before, and asleep exactly if it slept before.
    ///
    /// No thread calls the closure before all threads have been started. If a request for memory is refused (Memory), or a
    /// thread can't be started (Thread), it returns NotStarted: the closure was never called, and all seats are returned as
    /// they were. No clause says that NotStarted has such a cause, since none says when a thread can't be started.
    ///
    /// ```
    /// let seats = mutex.run(&rt, seats, 1_000, &|_: u64, seat: &mut Seat<u64>| -> Result<(), Refusal>
    ///     requires { OfMutex seat.old mutex }
    /// { mutex.with(&rt, seat, |total| *total = total.wrapping_add(1)) })?;
    /// ```
    pub fn run<R: Threads + Wait + Sync, F: Fn(u64, &mut Seat<T>) -> Result<(), Refusal> + Sync>(
        &self,
        rt: &R,
        seats: Vec<Seat<T>>,
        rounds: u64,
        f: &F,
    ) -> Result<Vec<Seat<T>>, NotStarted<Seat<T>>>
        requires belongs { SeatsOf seats.items self.now }
        requires callable { MayRound F.Fn f.now rounds self.now }
        requires keeps { KeepsRound F.Fn f.now rounds self.now }
        ensures count { IfOk result (λ v. vec_len v ≡ vec_len seats) }
        ensures rounds { IfOk result (λ v. AllGiven (HasRounded F.Fn f.now rounds self.now) seats.items v.items) }
        ensures belongs { IfOk result (λ v. SeatsOf v.items self.now) }
        ensures back { IfErr result (λ e. e.jobs.items ≡ seats.items) }
    {
        share(
            rt,
            self,
            seats,
            &|shared: &Mutex<T>, seat: Seat<T>| -> Seat<T>
                requires { OfMutex seat shared.now × MayRound F.Fn f.now rounds shared.now × KeepsRound F.Fn f.now rounds shared.now }
                ensures { HasRounded F.Fn f.entry.now rounds shared.entry.now seat result }
            { make_rounds(shared, seat, rounds, f) },
        )
    }
}

/// Makes this number of rounds with the seat, or fewer if one is refused.
fn make_rounds<T: Kept, F: Fn(u64, &mut Seat<T>) -> Result<(), Refusal>>(
    mutex: &Mutex<T>,
    mut seat: Seat<T>,
    rounds: u64,
    f: &F,
) -> Seat<T>
    requires belongs { OfMutex seat mutex.now }
    requires callable { MayRound F.Fn f.now rounds mutex.now }
    requires keeps { KeepsRound F.Fn f.now rounds mutex.now }
    ensures { HasRounded F.Fn f.now rounds mutex.now seat result }
{
    let _mutex = mutex;
    'rounds: for round in 0..rounds {
        if f(round, &mut seat).is_err() {
            return seat;
        }
    }
    seat
}
