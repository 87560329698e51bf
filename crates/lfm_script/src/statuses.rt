//! The exit statuses of a run of workers.
ghost use Rattle.std.specs.Prelude.{◌≡◌};
ghost use Rattle.lfm_script.specs.Statuses.{work_status};

use crate::faults::WorkFault;

/// The exit status of a run of workers: 0 if the journal was lawful and no worker was refused; 1 if the journal was not lawful,
/// a worker was refused, or the script had a fault of syntax or was past a limit; 3 if the reader or the writer failed; 4 if
/// memory was refused; 5 if the gate stopped a worker.
pub fn status(outcome: &Result<bool, WorkFault>) -> u8
    ensures { result ≡ work_status outcome.now }
{
    match outcome {
        Ok(true) => 0,
        Ok(false) | Err(WorkFault::Syntax(_) | WorkFault::Limit) => 1,
        Err(WorkFault::Read | WorkFault::Write) => 3,
        Err(WorkFault::Memory) => 4,
        Err(WorkFault::Stuck) => 5,
    }
}
