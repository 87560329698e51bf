//! What a program reports at the end of a run of workers: a message on standard error, and the exit status.
ghost use Rattle.std.specs.Prelude.{◌≡◌};
ghost use Rattle.lfm_script.specs.Statuses.{work_status};

use crate::faults::WorkFault;
use crate::statuses::status;
use lfm_text::tell_fault;

/// Prints on standard error the fault that ended the program early, if there was one, after the program's name. Returns the
/// exit status of the outcome. A message that can't be written changes no status.
pub fn report_work<R: Eprint>(
    rt: &R,
    program: &'static str,
    outcome: &Result<bool, WorkFault>,
) -> u8
    ensures { result ≡ work_status outcome.now }
{
    let fault = match outcome {
        Err(WorkFault::Read) => Some(": read fault"),
        Err(WorkFault::Write) => Some(": write fault"),
        Err(WorkFault::Memory) => Some(": out of memory"),
        _ => None,
    };
    tell_fault(rt, program, fault);
    status(outcome)
}
