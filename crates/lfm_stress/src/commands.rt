//! What the program does with its arguments, and the status that it ends with.
ghost use Rattle.std.specs.Prelude.{◌≡◌, if◌then◌else◌};

use crate::arguments::{Request, requested};
use crate::loads::{buffer, limits};
use crate::plan::{Load, OutOfRange, Plan};
use crate::running;
use std::io;
use std::rt::Env;
use std::sync::Wait;
use std::thread::Threads;
use std::time::Clock;

/// The status of a run in which nothing was lost.
const EXACT: u8 = 0;

/// The status of a run in which something was lost, or that did not reach its end.
const NOT_EXACT: u8 = 1;

/// The status of a command line that is refused.
const USAGE: u8 = 2;

/// Does what the command line asks for, and returns the exit status. Messages go to standard error.
pub fn run<R: Env + AllocGlobal + Print + Eprint + Threads + Wait + Sync + Clock>(rt: &R) -> u8 {
    match requested(rt) {
        Request::Run(plan) => status(rt, plan),
        Request::Refused(load, refusal) => {
            tell_range(rt, load, refusal);
            USAGE
        }
        Request::Other => {
            let _ = rt.eprintln(
                "usage: lfm_stress lock|mixed|ping_pong|broadcast|buffer|limits in_order|barging THREADS COUNT",
            );
            USAGE
        }
        Request::Unread => {
            let _ = rt.eprintln("lfm_stress: out of memory");
            NOT_EXACT
        }
    }
}

/// Prints which number is out of the range of its load, and what the range is.
fn tell_range<R: Eprint>(rt: &R, load: Load, refusal: OutOfRange) {
    let name = load.name();
    let (what, least, most) = match refusal {
        OutOfRange::Threads => ("THREADS", load.least_threads(), load.most_threads()),
        OutOfRange::Turns => ("COUNT", 1, load.most_turns()),
    };
    let _ = eprintln!(rt; "lfm_stress: {what} of {name} is {least} to {most}");
}

/// The status of a run that is exact, or that is not.
fn status_of(exact: bool) -> u8
    ensures { result ≡ (if exact then 0 else 1) }
{
    if exact { EXACT } else { NOT_EXACT }
}

/// Makes a run of this plan, and returns its status.
fn status<R: AllocGlobal + Print + Eprint + Threads + Wait + Sync + Clock>(
    rt: &R,
    plan: Plan,
) -> u8 {
    match made(rt, plan) {
        Ok(exact) => status_of(exact),
        Err(_) => {
            let _ = rt.eprintln("lfm_stress: the run did not come to its end");
            NOT_EXACT
        }
    }
}

/// Makes a run of this plan and prints what it left. Returns whether nothing was lost.
fn made<R: AllocGlobal + Print + Eprint + Threads + Wait + Sync + Clock>(
    rt: &R,
    plan: Plan,
) -> io::Result<bool> {
    let sums = match plan.load() {
        Load::Limits => {
            let sums = limits::run(rt, plan)?;
            sums.print(rt, plan)?;
            return Ok(sums.is_exact(plan));
        }
        Load::Buffer => buffer::run(rt, plan)?,
        Load::Lock | Load::Mixed | Load::PingPong | Load::Broadcast => running::run(rt, plan)?,
    };
    sums.print(rt, plan)?;
    Ok(sums.is_exact(plan))
}
