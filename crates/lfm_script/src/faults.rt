//! The faults of reading a script or running it to its end.

ghost use Rattle.std.specs.Prelude.{◌≡◌};
ghost use Rattle.lfm_script.specs.Faults.{input_fault, memory_fault, output_fault};

use lfm_text::{InputFault, WriteFault};
use std::alloc::AllocError;
use thiserror::Error;

/// Why no script was read or run to its end.
#[derive(Clone, Copy, Debug, PartialEq, Eq, Drop, Error)]
pub enum WorkFault {
    /// The line of this number, counted from 1, is not one that a script may have there.
    #[error("line {0} is not a line of a script")]
    Syntax(u64),
    /// The input has too many bytes or lines, or a line names a number that is out of range.
    #[error("the script is past a limit")]
    Limit,
    /// The reader failed.
    #[error("read fault")]
    Read,
    /// The writer failed, or took no byte.
    #[error("write fault")]
    Write,
    /// A request for memory was refused, or a worker could not be started.
    #[error("out of memory")]
    Memory,
    /// The gate stopped a worker.
    #[error("a worker was stopped")]
    Stuck,
}

impl From<InputFault> for WorkFault {
    ghost from_gives = { λ e r. r ≡ input_fault e };

    /// The fault of the same name.
    fn from(fault: InputFault) -> WorkFault {
        match fault {
            InputFault::Read => WorkFault::Read,
            InputFault::Memory => WorkFault::Memory,
        }
    }
}

impl From<WriteFault> for WorkFault {
    ghost from_gives = { λ e r. r ≡ output_fault e };

    /// Write, whichever fault of the writer it is.
    fn from(_fault: WriteFault) -> WorkFault {
        WorkFault::Write
    }
}

impl From<AllocError> for WorkFault {
    ghost from_gives = { λ e r. r ≡ memory_fault e };

    /// Memory, whatever the refused request was for.
    fn from(_fault: AllocError) -> WorkFault {
        WorkFault::Memory
    }
}
