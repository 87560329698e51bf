//! What a thread does with its job.

/// What a thread does with its job.
pub trait Task<P, X> {
    // The job may be started.
    ghost takes: { Self → P → Type 0 };

    // The job may have this result.
    ghost gives: { Self → P → X → Type 0 };

    /// Does the job.
    fn make(&self, job: P) -> X
        requires { takes self.now job }
        ensures { gives self.now job result };
}
