//! Why a text was not completely read or written.

use thiserror::Error;

/// Why the bytes of a reader were not read.
#[derive(Clone, Copy, Debug, PartialEq, Eq, Drop, Error)]
pub enum InputFault {
    /// The reader failed.
    #[error("read fault")]
    Read,
    /// An allocation failed.
    #[error("out of memory")]
    Memory,
}

/// The writer failed, or accepted no byte.
#[derive(Clone, Copy, Debug, PartialEq, Eq, Drop, Error)]
#[error("write fault")]
pub struct WriteFault;
