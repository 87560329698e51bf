//! A request of a client to a server, as a value that a mutex guards.
use lfm_mutex::Kept;

/// How far a request has come.
#[derive(Clone, Copy, Debug, PartialEq, Eq)]
pub enum Request {
    /// The server may take its time.
    Open,
    /// The client has waited for too long, and reminds the server.
    Reminded,
    /// The server has replied.
    Answered,
}

/// A thread may leave any request.
impl Kept for Request {
    ghost fits = { λ _ _. Unit {0} };

    ghost follows = { λ _ _ _. Unit {0} };
}
