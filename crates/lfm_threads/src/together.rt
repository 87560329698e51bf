//! Gives jobs to threads and starts them together.
ghost use Rattle.std.specs.Prelude.{◌≡◌, IfErr, IfOk, vec_len};
ghost use Rattle.lfm_threads.specs.Together.{AllGiven, AllTaken, Arrives};

use crate::arrivals::{Arrival, arrive};
use crate::not_started::{NotStarted, StartFault};
use crate::start_latch::{StartLatch, StartSignal};
use crate::task::Task;
use crate::workers::{Given, Team, Worker};
use std::snapshot::Snapshot;
use std::sync::Wait;
use std::thread;
use std::thread::Threads;

/// Does all jobs, each in its own thread, or none. If there is no memory or a thread can't be started, the jobs are returned.
/// It sleeps until all threads have ended.
pub fn make_together<
    P: Send + Drop,
    X: Send + Drop,
    R: Threads + Wait + Sync,
    K: Task<P, X> + Sync,
>(rt: &R, jobs: Vec<P>, task: &K) -> Result<Vec<X>, NotStarted<P>>
    requires takes { AllTaken (K.takes task.now) jobs.items }
    ensures count { IfOk result (λ v. vec_len v ≡ vec_len jobs) }
    ensures gives { IfOk result (λ v. AllGiven (K.gives task.now) jobs.items v.items) }
    ensures back { IfErr result (λ e. e.jobs.items ≡ jobs.items) }
{
    let latch = StartLatch::new();
    let at_latch = &latch;
    // The closure repeats the contract, since a scope ensures only what its closure ensures. Therefore the function is long.
    thread::scope(
        thread::scope_env(),
        rt,
        move |scope| -> Result<Vec<X>, NotStarted<P>>
            requires { AllTaken (K.takes task.now) jobs.items }
            ensures count { IfOk result (λ v. vec_len v ≡ vec_len jobs) }
            ensures gives { IfOk result (λ v. AllGiven (K.gives task.entry.now) jobs.items v.items) }
            ensures back { IfErr result (λ e. e.jobs.items ≡ jobs.items) }
        {
            let (alloc, count) = (*jobs.allocator(), jobs.len());
            // The memory for all lists is allocated before any thread is started.
            let (Ok(mut workers), Ok(results), Ok(back)) = (
                Vec::with_capacity(alloc, count),
                Vec::with_capacity(alloc, count),
                Vec::with_capacity(alloc, count),
            ) else {
                return Err(NotStarted {
                    jobs,
                    fault: StartFault::Memory,
                });
            };
            let all_jobs = Snapshot::of(&jobs);
            'starting: for job in jobs {
                let given = Given {
                    latch: Snapshot::of(at_latch),
                    job: Snapshot::of(&job),
                    task: Snapshot::of(task),
                };
                let started = scope.spawn_with(
                    given,
                    move || -> Arrival<'_, P, X>
                        requires { K.takes task.now job }
                        ensures { Arrives (K.gives task.entry.now) at_latch.entry.now.start.id job result }
                    { arrive(rt, at_latch, job, task) },
                );
                let worker = match started {
                    Ok(handle) => Worker::Started(handle),
                    Err(refused) => {
                        // The jobs are returned: each thread finds that the start was called off, and returns its job.
                        at_latch.decide(rt, StartSignal::CalledOff);
                        Worker::Refused((refused.value)())
                    }
                };
                workers.push_reserved(worker);
            }
            let decision = at_latch.decide(rt, StartSignal::Go);
            let start = decision.start();
            let team = Team {
                decision,
                workers,
                jobs: all_jobs,
                task: Snapshot::of(task),
            };
            match start {
                StartSignal::Go => Ok(team.results(rt, results)),
                StartSignal::CalledOff => Err(NotStarted {
                    jobs: team.jobs(rt, back),
                    fault: StartFault::Thread,
                }),
            }
        },
    )
}
