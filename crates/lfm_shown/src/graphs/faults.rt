//! Why a graph was not printed to its end.
ghost use Rattle.std.specs.Prelude.{◌≡◌};
ghost use Rattle.lfm_shown.specs.declared.graphs.faults.GraphFault.TheVariants as Fault;
ghost use Rattle.lfm_shown.specs.Faults.{replay_fault};

use lfm_core::ReplayFault;
use lfm_text::WriteFault;
use std::alloc::AllocError;
use thiserror::Error;

/// Why a graph was not printed to its end.
#[derive(Clone, Copy, Debug, PartialEq, Eq, Drop, Error)]
pub enum GraphFault {
    /// The writer failed, or accepted no byte.
    #[error("write fault")]
    Write,
    /// An allocation failed.
    #[error("out of memory")]
    Memory,
}

impl From<WriteFault> for GraphFault {
    ghost from_gives = { λ e r. r ≡ Fault.Write };

    /// A failed write is always this fault, whatever the writer did.
    fn from(_fault: WriteFault) -> GraphFault {
        GraphFault::Write
    }
}

impl From<AllocError> for GraphFault {
    ghost from_gives = { λ e r. r ≡ Fault.Memory };

    /// A failed allocation.
    fn from(_fault: AllocError) -> GraphFault {
        GraphFault::Memory
    }
}

impl From<GraphFault> for ReplayFault {
    ghost from_gives = { λ e r. r ≡ replay_fault e };

    /// The fault of the same name.
    fn from(fault: GraphFault) -> ReplayFault {
        match fault {
            GraphFault::Write => ReplayFault::Write,
            GraphFault::Memory => ReplayFault::Memory,
        }
    }
}
