//! The threads that were given a job, and the results of all jobs.
ghost use Rattle.std.specs.Prelude.{◌≡◌, ◌≤◌, ℕ, List, [], vec_capacity, vec_len};
ghost use Rattle.lfm_threads.specs.declared.start_latch.StartSignal.{StartSignal as StartNow};
ghost use Rattle.lfm_threads.specs.Together.{AllGiven, Arrives};
ghost use Rattle.lfm_threads.specs.Workers.{AllHaveJobs, HasJob};

use crate::arrivals::{Arrival, Outcome};
use crate::start_latch::{Decision, StartLatch, StartSignal};
use crate::task::Task;
use std::snapshot::Snapshot;
use std::thread::{Promise, PromisedHandle, Threads};

/// What a thread was given. It promises that the outcome of the job agrees with the decision at the start latch.
#[derive(Drop)]
pub struct Given<P, K> {
    pub latch: Snapshot<StartLatch>,
    pub job: Snapshot<P>,
    pub task: Snapshot<K>,
}

impl<'a, P, X, K: Task<P, X>> Promise<Arrival<'a, P, X>> for Given<P, K> {
    ghost kept_by = { λ g a. Arrives (K.gives g.task.value) g.latch.value.start.id g.job.value a };
}

/// Which thread was given a job.
#[derive(Drop)]
pub enum Worker<'a, P, X, K: Task<P, X>> {
    /// A thread.
    Started(PromisedHandle<Arrival<'a, P, X>, Given<P, K>>),
    /// No thread: none could be started for the job. This is the outcome.
    Refused(Arrival<'a, P, X>),
}

impl<'a, P: Drop, X: Drop, K: Task<P, X>> Worker<'a, P, X, K> {
    /// The outcome of the job. It sleeps until the thread of the job, if there is one, has ended.
    pub fn arrival<R: Threads>(self, rt: &R) -> Arrival<'a, P, X>
        ensures { (task : K) (latch : ℕ) (p : P) → HasJob K.Task task latch p self.entry → Arrives (K.gives task) latch p result }
    {
        match self {
            Worker::Started(handle) => handle.join(rt),
            Worker::Refused(arrival) => arrival,
        }
    }
}

/// The workers of one start latch, and the decision there.
#[derive(Drop)]
pub struct Team<'a, P, X, K: Task<P, X>> {
    pub decision: Decision<'a>,
    pub workers: Vec<Worker<'a, P, X, K>>,
    /// The job that each worker was given.
    pub jobs: Snapshot<Vec<P>>,
    pub task: Snapshot<K>,
}

impl<'a, P: Drop, X: Drop, K: Task<P, X>> Team<'a, P, X, K> {
    /// The results of the jobs, in order. The decision must be to go. It sleeps until all threads have ended.
    pub fn results<R: Threads>(self, rt: &R, mut results: Vec<X>) -> Vec<X>
        requires go { self.decision.start ≡ StartNow.Go }
        requires given { AllHaveJobs K.Task self.task.value self.decision.token.of self.jobs.value.items self.workers.items }
        requires empty { results.items ≡ [] }
        requires room { vec_len self.workers ≤ vec_capacity results }
        ensures count { vec_len result ≡ vec_len self.entry.workers }
        ensures gives { AllGiven (K.gives self.entry.task.value) self.entry.jobs.value.items result.items }
    {
        let Team {
            decision,
            workers,
            jobs: _jobs,
            task: _task,
        } = self;
        'joining: for worker in workers {
            let Arrival {
                decision: seen,
                outcome,
            } = worker.arrival(rt);
            decision.agrees(&seen);
            match outcome {
                Outcome::Made(result) => results.push_reserved(result),
                Outcome::Kept(_job) => unreachable!(),
            }
        }
        results
    }

    /// The jobs, in order. The start must have been called off. It sleeps until all threads have ended.
    pub fn jobs<R: Threads>(self, rt: &R, mut jobs: Vec<P>) -> Vec<P>
        requires off { self.decision.start ≡ StartNow.CalledOff }
        requires given { AllHaveJobs K.Task self.task.value self.decision.token.of self.jobs.value.items self.workers.items }
        requires all { vec_len self.workers ≡ vec_len self.jobs.value }
        requires empty { jobs.items ≡ [] }
        requires room { vec_len self.workers ≤ vec_capacity jobs }
        ensures { result.items ≡ self.entry.jobs.value.items }
    {
        let Team {
            decision,
            workers,
            jobs: _jobs,
            task: _task,
        } = self;
        'joining: for worker in workers {
            let Arrival {
                decision: seen,
                outcome,
            } = worker.arrival(rt);
            decision.agrees(&seen);
            match outcome {
                Outcome::Kept(job) => jobs.push_reserved(job),
                Outcome::Made(_result) => unreachable!(),
            }
        }
        jobs
    }
}
