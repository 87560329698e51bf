//! Why a schedule was not read, or not replayed to its end.

ghost use Rattle.std.specs.Prelude.{◌≡◌};
ghost use Rattle.lfm_core.specs.text.Faults.{input_fault, output_fault};

use lfm_text::{InputFault, WriteFault};
use thiserror::Error;

/// Why no schedule was read or replayed to its end.
///
/// The faults of this crate have numbers: 1 Syntax, 2 Limit, 6 Read, 7 Write, 8 Memory. The numbers 3 to 5 are those of a
/// refused turn.
#[derive(Clone, Copy, Debug, PartialEq, Eq, Drop, Error)]
pub enum ReplayFault {
    /// The line with this number, counted from 1, is not one that a schedule may have there.
    #[error("line {0} is not a line of a schedule")]
    Syntax(u64),
    /// The input has too many bytes or lines, or the first line names a number that is out of range.
    #[error("the schedule is past a limit")]
    Limit,
    /// The reader failed.
    #[error("read fault")]
    Read,
    /// The writer failed, or accepted no byte.
    #[error("write fault")]
    Write,
    /// An allocation failed.
    #[error("out of memory")]
    Memory,
}

impl From<InputFault> for ReplayFault {
    ghost from_gives = { λ e r. r ≡ input_fault e };

    /// The fault of the same name.
    fn from(fault: InputFault) -> ReplayFault {
        match fault {
            InputFault::Read => ReplayFault::Read,
            InputFault::Memory => ReplayFault::Memory,
        }
    }
}

impl From<WriteFault> for ReplayFault {
    ghost from_gives = { λ e r. r ≡ output_fault e };

    /// A failed write is always this fault, whatever the writer did.
    fn from(_fault: WriteFault) -> ReplayFault {
        ReplayFault::Write
    }
}
