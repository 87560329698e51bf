//! What a program reports at the end of a replay: a message on standard error, and the exit status.
ghost use Rattle.std.specs.Prelude.{◌≡◌};
ghost use Rattle.lfm_core.specs.text.Statuses.{replay_status};

use crate::text::faults::ReplayFault;
use lfm_text::tell_fault;

/// The exit status of a replay: 0 if no line was refused; 1 if a line was refused, or the input had a fault of syntax or was
/// past a limit; 3 if the reader or the writer failed; 4 if an allocation failed.
pub fn replay_status(outcome: &Result<bool, ReplayFault>) -> u8
    ensures { result ≡ replay_status outcome.now }
{
    match outcome {
        Ok(true) => 0,
        Ok(false) | Err(ReplayFault::Syntax(_) | ReplayFault::Limit) => 1,
        Err(ReplayFault::Read | ReplayFault::Write) => 3,
        Err(ReplayFault::Memory) => 4,
    }
}

/// If a fault of the reader, the writer or the memory ended the program early, prints the program's name and then the fault on
/// standard error. Returns the exit status of the outcome. If the message can't be written, the status is the same.
pub fn report<R: Eprint>(rt: &R, program: &'static str, outcome: &Result<bool, ReplayFault>) -> u8
    ensures { result ≡ replay_status outcome.now }
{
    let fault = match outcome {
        Err(ReplayFault::Read) => Some(": read fault"),
        Err(ReplayFault::Write) => Some(": write fault"),
        Err(ReplayFault::Memory) => Some(": out of memory"),
        _ => None,
    };
    tell_fault(rt, program, fault);
    replay_status(outcome)
}
