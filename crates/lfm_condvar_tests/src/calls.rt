//! Calls of a mutex around a number and of a condvar, with no more of their contracts than the tests need: seats stay those of
//! the mutex and the condvar. It has no test.
ghost use Rattle.std.specs.Prelude.{◌≤◌};
ghost use Rattle.lfm_mutex.specs.Belongs.{OfMutex, limits_of};
ghost use Rattle.lfm_condvar.specs.Belongs.{OfCondvar, cond_limits};

use lfm_condvar::{CondSeat, Condvar};
use lfm_model::{Asked, How, Refusal, SeatNo, Unlocked};
use lfm_mutex::{Mutex, Seat};
use std::sync::Wait;

/// `ask`.
pub fn ask(mutex: &Mutex<u64>, seat: &mut Seat<u64>) -> Result<Asked, Refusal>
    requires { OfMutex seat.old mutex.now }
    ensures { OfMutex seat.new mutex.now }
{
    mutex.ask(seat)
}

/// `try_receive`.
pub fn receive(mutex: &Mutex<u64>, seat: &mut Seat<u64>) -> Result<Option<How>, Refusal>
    requires { OfMutex seat.old mutex.now }
    ensures { OfMutex seat.new mutex.now }
{
    mutex.try_receive(seat)
}

/// `unlock`.
pub fn unlock(mutex: &Mutex<u64>, seat: &mut Seat<u64>) -> Result<Unlocked, Refusal>
    requires { OfMutex seat.old mutex.now }
    ensures { OfMutex seat.new mutex.now }
{
    mutex.unlock(seat)
}

/// `send_lock`.
pub fn send_lock(mutex: &Mutex<u64>, seat: &mut Seat<u64>, to: SeatNo) -> Result<(), Refusal>
    requires { OfMutex seat.old mutex.now }
    ensures { OfMutex seat.new mutex.now }
{
    mutex.send_lock(seat, to)
}

/// `wake_one`.
pub fn wake_one<R: Wait>(
    rt: &R,
    condvar: &Condvar,
    cond: &mut CondSeat,
    mutex: &Mutex<u64>,
    seat: &mut Seat<u64>,
) -> Result<Option<(SeatNo, u64)>, Refusal>
    requires seat { OfMutex seat.old mutex.now }
    requires cond { OfCondvar cond.old condvar.now }
    requires wide { (cond_limits condvar.now).seats ≤ (limits_of mutex.now).seats }
    ensures seat { OfMutex seat.new mutex.now }
    ensures cond { OfCondvar cond.new condvar.now }
{
    condvar.wake_one(rt, cond, mutex, seat)
}

/// `wait`.
pub fn wait<R: Wait>(
    rt: &R,
    condvar: &Condvar,
    cond: &mut CondSeat,
    mutex: &Mutex<u64>,
    seat: &mut Seat<u64>,
) -> Result<(How, u64), Refusal>
    requires seat { OfMutex seat.old mutex.now }
    requires cond { OfCondvar cond.old condvar.now }
    ensures seat { OfMutex seat.new mutex.now }
    ensures cond { OfCondvar cond.new condvar.now }
{
    condvar.wait(rt, cond, mutex, seat)
}

/// `begin_wait`.
pub fn begin_wait<R: Wait>(
    rt: &R,
    condvar: &Condvar,
    cond: &mut CondSeat,
    mutex: &Mutex<u64>,
    seat: &mut Seat<u64>,
) -> Result<u64, Refusal>
    requires seat { OfMutex seat.old mutex.now }
    requires cond { OfCondvar cond.old condvar.now }
    ensures seat { OfMutex seat.new mutex.now }
    ensures cond { OfCondvar cond.new condvar.now }
{
    condvar.begin_wait(rt, cond, mutex, seat)
}

/// `wake_all`.
pub fn wake_all<R: Wait>(
    rt: &R,
    condvar: &Condvar,
    cond: &mut CondSeat,
    mutex: &Mutex<u64>,
    seat: &mut Seat<u64>,
) -> Result<u64, Refusal>
    requires seat { OfMutex seat.old mutex.now }
    requires cond { OfCondvar cond.old condvar.now }
    requires wide { (cond_limits condvar.now).seats ≤ (limits_of mutex.now).seats }
    ensures seat { OfMutex seat.new mutex.now }
    ensures cond { OfCondvar cond.new condvar.now }
{
    condvar.wake_all(rt, cond, mutex, seat)
}
