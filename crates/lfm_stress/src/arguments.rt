//! What the command line asks for.
ghost use Rattle.lfm_stress.specs.Requests.{AsksFor};

use crate::plan::{Load, OutOfRange, Plan};
use lfm_test_tools::locking::Locking;
use lfm_text::read_number;
use std::env;
use std::io::ErrorKind;
use std::rt::Env;

/// What the command line asks for.
#[derive(Clone, Copy)]
pub enum Request {
    /// A run of this plan.
    Run(Plan),
    /// A run whose numbers are out of range.
    Refused(Load, OutOfRange),
    /// Any other command line: not four words, an unknown load or locking, or a word that is no number.
    Other,
    /// The arguments could not be read, because there was no memory for them.
    Unread,
}

/// What the program's arguments ask for. It requests memory.
pub fn requested<R: Env + AllocGlobal>(rt: &R) -> Request {
    let mut words = match env::args(rt) {
        Ok(words) => words,
        Err(error) if error.kind() == ErrorKind::OutOfMemory => return Request::Unread,
        Err(_) => return Request::Other,
    };
    let _name = words.next();
    let (load, locking) = (words.next(), words.next());
    let (threads, turns) = (words.next(), words.next());
    let (Some(load), Some(locking), Some(threads), Some(turns), None) = (
        load,
        locking,
        threads,
        turns,
        words.next(),
    ) else {
        return Request::Other;
    };
    let Some(locking) = Locking::named(locking.as_str()) else {
        return Request::Other;
    };
    asked(load.as_str(), locking, threads.as_str(), turns.as_str())
}

/// What the name of a load, a locking and two numbers ask for.
fn asked(load: &str, locking: Locking, threads: &str, turns: &str) -> Request
    ensures { AsksFor result locking threads.now turns.now }
{
    let load = Load::named(load);
    let threads = read_number(threads.as_bytes());
    let turns = read_number(turns.as_bytes());
    let (Some(load), Some(threads), Some(turns)) = (load, threads, turns) else {
        return Request::Other;
    };
    match Plan::new(load, locking, threads, turns) {
        Ok(plan) => Request::Run(plan),
        Err(refusal) => Request::Refused(load, refusal),
    }
}
