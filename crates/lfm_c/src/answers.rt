//! The status of an answer. Only that of `unlock` is in `pool_calls`, since an unlock of a pool answers with the wake-up.
ghost use Rattle.std.specs.Prelude.{◌≡◌};
ghost use Rattle.lfm_c.specs.Status.{asked as asked_of, received as received_of, locked as locked_of};

use crate::status::Status;
use lfm_model::{Asked, How, Locked, Refusal};

/// The status of an answer of `ask`. How the seat acquired the mutex is not passed on to C.
pub fn asked(answer: Result<Asked, Refusal>) -> Status
    ensures { result ≡ asked_of answer }
{
    match answer {
        Ok(Asked::Held(_)) => Status::Done,
        Ok(Asked::Again(_)) => Status::Again,
        Ok(Asked::Asleep) => Status::Asleep,
        Err(refusal) => Status::Refused(refusal),
    }
}

/// The status of an answer of `try_receive`. Its answer None means that the seat still sleeps.
pub fn received(answer: Result<Option<How>, Refusal>) -> Status
    ensures { result ≡ received_of answer }
{
    match answer {
        Ok(Some(_)) => Status::Done,
        Ok(None) => Status::Asleep,
        Err(refusal) => Status::Refused(refusal),
    }
}

/// The status of an answer of `try_lock`.
pub fn locked(answer: Result<Locked, Refusal>) -> Status
    ensures { result ≡ locked_of answer }
{
    match answer {
        Ok(Locked::Held(_)) => Status::Done,
        Ok(Locked::Again(_)) => Status::Again,
        Err(refusal) => Status::Refused(refusal),
    }
}
