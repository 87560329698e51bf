//! The limits of a mutex: the number of seats, the budget of each, the depth, and the number of steps that a call may need.
//! Other crates use these constants. Only `lfm_script`, which does not depend on a mutex, and `lfm_stress` repeat the number of
//! seats.
ghost use Rattle.std.specs.Prelude.{◌≡◌, ◌+◌, ◌<◌, ◌^◌};
ghost use Rattle.lfm_protocol.specs.Limits.{are_in_limits};

/// The greatest number of seats of a mutex.
pub const MAX_SEATS: u64 = 4_095;

/// The largest budget of a seat: 2^36 takes.
pub const MAX_BUDGET: u64 = 68_719_476_736;

/// The greatest number of times that a seat may hold the mutex at once.
pub const MAX_DEPTH: u32 = 65_535;

/// The size of one mutex.
#[derive(Clone, Copy, Debug, PartialEq, Eq)]
pub struct Limits {
    /// How many seats there are. They are numbered from 1.
    pub seats: u64,
    /// How many takes each seat may charge.
    pub budget: u64,
}

impl Limits {
    /// Whether a mutex may have these limits: 1 to 4,095 seats with a budget of 1 to 2^36 each.
    pub fn are_allowed(self) -> bool
        ensures { result ≡ are_in_limits self.seats self.budget }
    {
        1 <= self.seats && self.seats <= MAX_SEATS && 1 <= self.budget && self.budget <= MAX_BUDGET
    }
}

/// With this number of seats, a call makes at most this many steps while no other seat makes a step: 16 more than the number
/// of seats.
pub fn longest_call(seats: u64) -> u64
    requires { seats + 16 < 2 ^ 64 }
    ensures { result ≡ seats + 16 }
{
    seats + 16
}
