//! Threads that share a value, each with its own job.
ghost use Rattle.std.specs.Prelude.{◌≡◌, IfErr, IfOk, vec_len};
ghost use Rattle.lfm_threads.specs.Sharing.{GivesResult, TakesJob};
ghost use Rattle.lfm_threads.specs.Together.{AllGiven, AllTaken};

use crate::not_started::NotStarted;
use crate::task::Task;
use crate::together::make_together;
use std::sync::Wait;
use std::thread::Threads;

/// A closure with the shared value for its calls.
#[derive(Drop)]
struct SharedCall<'s, S, F> {
    shared: &'s S,
    f: &'s F,
}

impl<'s, S, P, X, F: Fn(&S, P) -> X> Task<P, X> for SharedCall<'s, S, F> {
    ghost takes = { λ c p. TakesJob F.Fn c.f.now c.shared.now p };

    ghost gives = { λ c p x. GivesResult F.Fn c.f.now c.shared.now p x };

    /// Calls the closure with the shared value and the job.
    fn make(&self, job: P) -> X {
        (self.f)(self.shared, job)
    }
}

/// Calls the closure with the shared value and each job, each call in its own thread, and returns the results in the order of
/// the jobs. No call is made before all threads have been started, so calls may wait for one another. It sleeps until all
/// threads have ended.
///
/// If there is no memory (Memory) or a thread can't be started (Thread), no call is made, and all jobs are returned.
///
/// ```
/// let counts = share(&rt, &text, words, &|text: &Text, word: Word| text.count(&word))?;
/// ```
pub fn share<
    S: Sync,
    P: Send + Drop,
    X: Send + Drop,
    R: Threads + Wait + Sync,
    F: Fn(&S, P) -> X + Sync,
>(rt: &R, shared: &S, jobs: Vec<P>, f: &F) -> Result<Vec<X>, NotStarted<P>>
    requires { AllTaken (TakesJob F.Fn f.now shared.now) jobs.items }
    ensures count { IfOk result (λ v. vec_len v ≡ vec_len jobs) }
    ensures gives { IfOk result (λ v. AllGiven (GivesResult F.Fn f.now shared.now) jobs.items v.items) }
    ensures back { IfErr result (λ e. e.jobs.items ≡ jobs.items) }
{
    make_together(rt, jobs, &SharedCall { shared, f })
}
