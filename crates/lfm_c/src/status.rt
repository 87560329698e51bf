//! The result of a call, and its number for C.
ghost use Rattle.std.specs.Prelude.{◌≡◌, ◌<◌};
ghost use Rattle.lfm_c.specs.Status.{code, code_of_refusal};

use lfm_model::Refusal;

/// The result of a call. The C header has the same names and numbers.
#[derive(Clone, Copy, Debug, PartialEq, Eq)]
pub enum Status {
    /// The call succeeded.
    Done,
    /// The seat already held, and now holds once more.
    Again,
    /// The seat has one hold less, and still holds.
    Still,
    /// The seat sleeps.
    Asleep,
    /// The mutex was released and posted. Another call takes it over, or has already done so.
    Posted,
    /// The mutex was granted to the oldest queued seat.
    Granted,
    /// The handle is blank.
    Blank,
    /// The handle is not blank.
    Taken,
    /// A number is outside its limits: of seats or mutexes, or the number of a mutex of the pool.
    Limit,
    /// The allocator had no memory.
    Memory,
    /// All seats are taken.
    NoSeat,
    /// The mutex refused the call.
    Refused(Refusal),
}

/// The number of a refusal: 32 to 39, which no other status has.
fn code_of_refusal(refusal: Refusal) -> u64
    ensures is { result ≡ code_of_refusal refusal }
    ensures low { result < 256 }
{
    match refusal {
        Refusal::Asleep => 32,
        Refusal::NotOwner => 33,
        Refusal::Nested => 34,
        Refusal::DepthFull => 35,
        Refusal::Spent => 36,
        Refusal::NoSuchSeat => 37,
        Refusal::NotWaiting => 38,
        Refusal::Busy => 39,
    }
}

impl Status {
    /// The number of the status in C: 0 to 39.
    pub fn code(self) -> u64
        ensures is { result ≡ code self }
        ensures low { result < 256 }
    {
        match self {
            Status::Done => 0,
            Status::Again => 1,
            Status::Still => 2,
            Status::Asleep => 3,
            Status::Posted => 4,
            Status::Granted => 5,
            Status::Blank => 16,
            Status::Taken => 17,
            Status::Limit => 18,
            Status::Memory => 19,
            Status::NoSeat => 20,
            Status::Refused(refusal) => code_of_refusal(refusal),
        }
    }
}
