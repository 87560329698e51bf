//! Calls of a condvar that return why they were refused, if the readers of the seats answer as before. It has no test.
ghost use Rattle.std.specs.Prelude.{◌≤◌};
ghost use Rattle.lfm_mutex.specs.Belongs.{OfMutex, limits_of};
ghost use Rattle.lfm_condvar.specs.Belongs.{OfCondvar, cond_limits};

use lfm_condvar::{CondSeat, Condvar};
use lfm_model::{Refusal, SeatNo};
use lfm_mutex::{Holder, Mutex, Seat};
use std::sync::Wait;

/// What the readers of a seat, its mutex and a cond seat answer.
#[derive(Clone, Copy, PartialEq, Eq)]
struct Readings {
    depth: u32,
    takes: u64,
    left: u64,
    asleep: bool,
    value: Option<u64>,
    owner: Option<SeatNo>,
    cond_takes: u64,
    cond_asleep: bool,
}

impl Readings {
    /// What they answer now.
    fn of(mutex: &Mutex<u64>, seat: &mut Seat<u64>, cond: &CondSeat) -> Readings
        requires { OfMutex seat.old mutex.now }
        ensures { OfMutex seat.new mutex.now }
    {
        let owner = mutex.owner(seat);
        Readings {
            depth: seat.depth(),
            takes: seat.takes(),
            left: seat.left(),
            asleep: seat.asleep(),
            value: seat.value().copied(),
            owner,
            cond_takes: cond.seat().takes(),
            cond_asleep: cond.seat().asleep(),
        }
    }
}

/// Why `wait` is refused, if it is and the readers answer as before.
pub fn wait<R: Wait>(
    rt: &R,
    condvar: &Condvar,
    cond: &mut CondSeat,
    mutex: &Mutex<u64>,
    seat: &mut Seat<u64>,
) -> Option<Refusal>
    requires seat { OfMutex seat.old mutex.now }
    requires cond { OfCondvar cond.old condvar.now }
    ensures seat { OfMutex seat.new mutex.now }
    ensures cond { OfCondvar cond.new condvar.now }
{
    let before = Readings::of(mutex, seat, cond);
    let waited = condvar.wait(rt, cond, mutex, seat);
    let after = Readings::of(mutex, seat, cond);
    if before != after {
        return None;
    }
    waited.err()
}

/// Why `wake_one` and `wake_all` are refused, if both are for the same cause and the readers answer as before.
pub fn wake<R: Wait>(
    rt: &R,
    condvar: &Condvar,
    cond: &mut CondSeat,
    mutex: &Mutex<u64>,
    seat: &mut Seat<u64>,
) -> Option<Refusal>
    requires seat { OfMutex seat.old mutex.now }
    requires cond { OfCondvar cond.old condvar.now }
    requires wide { (cond_limits condvar.now).seats ≤ (limits_of mutex.now).seats }
    ensures seat { OfMutex seat.new mutex.now }
    ensures cond { OfCondvar cond.new condvar.now }
{
    let before = Readings::of(mutex, seat, cond);
    let one = condvar.wake_one(rt, cond, mutex, seat).err();
    let all = condvar.wake_all(rt, cond, mutex, seat).err();
    let after = Readings::of(mutex, seat, cond);
    if before != after || one != all {
        return None;
    }
    one
}
