//! What the caller gets back if no job was started.

use std::error::Error;
use std::fmt;
use std::fmt::{Debug, Display, Formatter, Write};

/// Why no job was started.
#[derive(Clone, Copy, Debug, PartialEq, Eq, thiserror::Error)]
pub enum StartFault {
    /// There was no memory. This is found before any thread is started.
    #[error("out of memory")]
    Memory,
    /// A thread could not be started.
    #[error("a thread could not be started")]
    Thread,
}

/// All jobs, unchanged and in their order: none of them was started.
#[derive(Drop)]
pub struct NotStarted<P> {
    /// The jobs.
    pub jobs: Vec<P>,
    /// Why none was started.
    pub fault: StartFault,
}

impl<P: Drop> Debug for NotStarted<P> {
    /// Shows the number of jobs, since a job may be of any type.
    fn fmt<W: Write>(&self, f: &mut Formatter<W>) -> fmt::Result {
        f.debug_struct("NotStarted")
            .field("jobs", &self.jobs.len())
            .field("fault", &self.fault)
            .finish()
    }
}

impl<P: Drop> Display for NotStarted<P> {
    /// Shows only the fault.
    fn fmt<W: Write>(&self, f: &mut Formatter<W>) -> fmt::Result {
        Display::fmt(&self.fault, f)
    }
}

impl<P: Drop> Error for NotStarted<P> {}
