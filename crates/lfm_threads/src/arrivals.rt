//! The result of a job at a start latch.
ghost use Rattle.lfm_threads.specs.Together.{Arrives};

use crate::start_latch::{Decision, StartLatch, StartSignal};
use crate::task::Task;
use std::sync::Wait;

/// The outcome of a job.
#[derive(Drop)]
pub enum Outcome<P, X> {
    /// The job was done, with this result.
    Made(X),
    /// The job was not started.
    Kept(P),
}

/// The outcome of a job, with the decision at its start latch.
#[derive(Drop)]
pub struct Arrival<'a, P, X> {
    pub decision: Decision<'a>,
    pub outcome: Outcome<P, X>,
}

/// The body of a thread: it waits at the latch, and does its job if the decision is to go.
pub fn arrive<'a, P, X, R: Wait, K: Task<P, X>>(
    rt: &R,
    latch: &'a StartLatch,
    job: P,
    task: &K,
) -> Arrival<'a, P, X>
    requires { K.takes task.now job }
    ensures { Arrives (K.gives task.now) latch.now.start.id job result }
{
    let decision = latch.wait(rt);
    let outcome = match decision.start() {
        StartSignal::Go => Outcome::Made(task.make(job)),
        StartSignal::CalledOff => Outcome::Kept(job),
    };
    Arrival { decision, outcome }
}
