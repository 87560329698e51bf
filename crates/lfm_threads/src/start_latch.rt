//! The start latch of `share`: threads wait at it until it is decided, once, whether they do their jobs.
//!
//! `lfm_program` has its own `StartingLine`, since `lfm work` must start its workers with the `Mutex` and `Condvar` of std.
//! These prove nothing about the decision. `share` promises that either all jobs are done or none, so its latch is a
//! `OnceLock`, whose tokens prove that all threads found the same decision.
ghost use Rattle.std.specs.Prelude.{◌≡◌};

use std::sync::{OnceLock, OnceToken, Wait};

/// The decision at a start latch.
#[derive(Clone, Copy, Debug, PartialEq, Eq)]
pub enum StartSignal {
    /// All threads have been started, and do their jobs.
    Go,
    /// A thread could not be started, so no thread does its job.
    CalledOff,
}

/// A start latch. It is closed until it is decided, once, whether all threads go or the start is called off. It allocates
/// nothing.
///
/// ```
/// let latch = StartLatch::new();
/// latch.decide(&rt, StartSignal::Go);
/// assert!(rt; latch.wait(&rt).start() == StartSignal::Go);
/// ```
#[derive(Drop)]
pub struct StartLatch {
    start: OnceLock<StartSignal>,
}

/// What was decided at a start latch. All decisions of one latch are equal.
#[derive(Drop)]
pub struct Decision<'a> {
    token: OnceToken<'a, StartSignal>,
    start: StartSignal,
    pub ghost shown: { token.value ≡ start },
}

impl StartLatch {
    /// A closed latch.
    pub fn new() -> StartLatch {
        StartLatch {
            start: OnceLock::new(),
        }
    }

    /// Decides, and wakes the threads that sleep at the latch. If there was already a decision, that one stays and is returned.
    pub fn decide<R: Wait>(&self, rt: &R, start: StartSignal) -> Decision<'_>
        ensures { result.token.of ≡ self.now.start.id }
    {
        let token = self.start.init(rt, || start);
        Decision {
            start: *self.start.value(&token),
            token,
        }
    }

    /// Sleeps while the latch is closed. Returns the decision.
    pub fn wait<R: Wait>(&self, rt: &R) -> Decision<'_>
        ensures { result.token.of ≡ self.now.start.id }
    {
        let _start = self.start.wait(rt);
        // There is a decision already, so this only reads it.
        self.decide(rt, StartSignal::CalledOff)
    }
}

impl<'a> Decision<'a> {
    /// The decision itself.
    pub fn start(&self) -> StartSignal
        ensures { result ≡ self.now.start }
    {
        self.start
    }

    /// Two decisions of one latch are equal. The function does nothing: its contract states the law.
    pub fn agrees(&self, other: &Decision<'a>)
        requires { self.now.token.of ≡ other.now.token.of }
        ensures { self.now.start ≡ other.now.start }
    {
        self.token.agrees(&other.token)
    }
}
