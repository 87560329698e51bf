//! What the program does with its arguments, and its exit status.
ghost use Rattle.std.specs.Prelude.{◌≡◌, if◌then◌else◌, nat_eq};

use crate::arguments::{Request, requested};
use crate::comparing::compare;
use crate::printing::{GraphRequest, print_graph};
use lfm_shown::GraphFault;
use lfm_text::{standard_output, tell_usage};
use std::rt::Env;

/// The status of a search in which each comparison passed.
const AS_KNOWN: u8 = 0;

/// The status of a search in which a comparison failed, or that could not be completed; and of a graph that was not
/// printed to its end.
const NOT_AS_KNOWN: u8 = 1;

/// The usage line of the program.
const USAGE_LINE: &str =
    "usage: lfm_states BUDGET, which is 2 or 3 | lfm_states graph SEATS BUDGET DEPTH CALLS";

/// The exit status after this many failed comparisons.
fn status_of(failed: u64) -> u8
    ensures { result ≡ (if nat_eq failed 0 then 0 else 1) }
{
    if failed == 0 { AS_KNOWN } else { NOT_AS_KNOWN }
}

/// Does what the command line asks for, and returns the exit status. Messages go to standard error.
pub fn run<R: Env + AllocGlobal + Print + Eprint>(rt: &R) -> u8 {
    match requested(rt) {
        Request::Search(budget) => match compare(rt, budget) {
            Ok(tally) => status_of(tally.failed),
            Err(_) => {
                let _ = rt.eprintln("lfm_states: the search did not come to its end");
                NOT_AS_KNOWN
            }
        },
        Request::Graph(request) => print(rt, request),
        Request::Other => tell_usage(rt, USAGE_LINE),
        Request::Unread => {
            let _ = rt.eprintln("lfm_states: out of memory");
            NOT_AS_KNOWN
        }
    }
}

/// Prints a graph on standard output, and returns the exit status. Messages go to standard error.
fn print<R: AllocGlobal + Print + Eprint>(rt: &R, request: GraphRequest) -> u8 {
    match print_on_output(rt, request) {
        Ok(()) => AS_KNOWN,
        Err(GraphFault::Write) => {
            let _ = rt.eprintln("lfm_states: write fault");
            NOT_AS_KNOWN
        }
        Err(GraphFault::Memory) => {
            let _ = rt.eprintln("lfm_states: out of memory");
            NOT_AS_KNOWN
        }
    }
}

/// Prints a graph on standard output.
fn print_on_output<R: AllocGlobal + Print>(
    rt: &R,
    request: GraphRequest,
) -> Result<(), GraphFault> {
    let mut writer = standard_output(rt)?;
    print_graph(rt.alloc(), request, &mut writer)?;
    Ok(())
}
