//! What the command line asks for.
use crate::calls::calls_named;
use crate::printing::GraphRequest;
use lfm_core::Limits;
use lfm_protocol::MAX_DEPTH;
use lfm_text::read_number;
use std::alloc::{AllocError, Global};
use std::env;
use std::env::Args;
use std::io::ErrorKind;
use std::rt::Env;

/// What the command line asks for.
#[derive(Clone, Copy, Debug, PartialEq, Eq)]
pub enum Request {
    /// A search at this budget, which is 2 or 3.
    Search(u64),
    /// The graph of a small mutex.
    Graph(GraphRequest),
    /// Something else.
    Other,
    /// The arguments could not be read, since a request for memory was refused.
    Unread,
}

/// What the program's arguments ask for. It allocates memory.
pub fn requested<R: Env + AllocGlobal>(rt: &R) -> Request {
    match env::args(rt) {
        Ok(words) => request_of(rt.alloc(), words),
        Err(error) if error.kind() == ErrorKind::OutOfMemory => Request::Unread,
        Err(_) => Request::Other,
    }
}

/// What these words ask for, of which the first is the program's name. It allocates memory.
fn request_of(alloc: Global, words: Args) -> Request {
    match gathered(alloc, words) {
        Ok(words) => request_after_name(&words),
        Err(_) => Request::Unread,
    }
}

/// All words, in their order. It allocates memory.
fn gathered(alloc: Global, words: Args) -> Result<Vec<String>, AllocError> {
    let mut gathered = Vec::new(alloc);
    for word in words {
        gathered.push(word)?;
    }
    Ok(gathered)
}

/// What the words after the first ask for.
fn request_after_name(words: &[String]) -> Request {
    match words {
        [_, budget] => search_of(budget.as_str()),
        [_, command, seats, budget, depth, calls] if command.as_str() == "graph" => {
            graph_of(
                seats.as_str(),
                budget.as_str(),
                depth.as_str(),
                calls.as_str(),
            )
        }
        _ => Request::Other,
    }
}

/// A search at the budget that this word names.
pub fn search_of(budget: &str) -> Request {
    match read_number(budget.as_bytes()) {
        Some(budget) if 2 <= budget && budget <= 3 => Request::Search(budget),
        _ => Request::Other,
    }
}

/// The graph that these words name: the number of seats and the budget, which have to be within the limits of a mutex, a depth
/// of 1 to 65,535, and the calls.
pub fn graph_of(seats: &str, budget: &str, depth: &str, calls: &str) -> Request {
    match graph_request(seats, budget, depth, calls) {
        Some(request) => Request::Graph(request),
        None => Request::Other,
    }
}

/// The same; None if a word is wrong.
fn graph_request(seats: &str, budget: &str, depth: &str, calls: &str) -> Option<GraphRequest> {
    let limits = Limits {
        seats: read_number(seats.as_bytes())?,
        budget: read_number(budget.as_bytes())?,
    };
    let depth = read_number(depth.as_bytes())?;
    let calls = calls_named(calls)?;
    if !limits.are_allowed() || depth == 0 || depth > u64::from(MAX_DEPTH) {
        return None;
    }
    Some(GraphRequest {
        limits,
        depth,
        calls,
    })
}
