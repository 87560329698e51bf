//! Calls of a mutex around a number and of a plain condvar, with no more of their contracts than the tests need: a hand
//! stays one of the mutex and the condvar. It has no test.
ghost use Rattle.lfm_mutex.specs.Belongs.{Beside};
ghost use Rattle.lfm_plain_test_tools.specs.Hands.{IsHandOf};

use crate::hands::Hand;
use lfm_mutex::{Mutex, Seat};
use lfm_plain_condvar::{PlainCondvar, Waited};
use std::sync::Wait;
use std::time::{Clock, Duration};

/// Locks the mutex.
pub fn lock<R: Wait>(rt: &R, mutex: &Mutex<u64>, condvar: &PlainCondvar, hand: &mut Hand)
    requires { IsHandOf hand.old mutex.now condvar.now }
    ensures { IsHandOf hand.new mutex.now condvar.now }
{
    let _condvar = condvar;
    let _ = mutex.lock(rt, &mut hand.seat);
}

/// Locks the mutex by `lock_barging`.
pub fn lock_barging<R: Wait>(rt: &R, mutex: &Mutex<u64>, condvar: &PlainCondvar, hand: &mut Hand)
    requires { IsHandOf hand.old mutex.now condvar.now }
    ensures { IsHandOf hand.new mutex.now condvar.now }
{
    let _condvar = condvar;
    let _ = mutex.lock_barging(rt, &mut hand.seat);
}

/// Unlocks the mutex.
pub fn unlock(mutex: &Mutex<u64>, condvar: &PlainCondvar, hand: &mut Hand)
    requires { IsHandOf hand.old mutex.now condvar.now }
    ensures { IsHandOf hand.new mutex.now condvar.now }
{
    let _condvar = condvar;
    let _ = mutex.unlock(&mut hand.seat);
}

/// The number, or 0 if the seat doesn't hold.
pub fn number(hand: &Hand) -> u64 {
    hand.seat.value().copied().unwrap_or(0)
}

/// Puts this number in the place of the one in hand, if the seat holds.
fn put(seat: &mut Seat<u64>, number: u64)
    ensures { Beside seat.old seat.new }
{
    let Some(value) = seat.value_mut() else {
        return;
    };
    *value = number;
}

/// Writes this number, if the seat holds.
pub fn write(mutex: &Mutex<u64>, condvar: &PlainCondvar, hand: &mut Hand, number: u64)
    requires { IsHandOf hand.old mutex.now condvar.now }
    ensures { IsHandOf hand.new mutex.now condvar.now }
{
    let _mutex = mutex;
    let _condvar = condvar;
    put(&mut hand.seat, number);
}

/// `wait`, and its ticket.
pub fn wait<R: Wait>(
    rt: &R,
    mutex: &Mutex<u64>,
    condvar: &PlainCondvar,
    hand: &mut Hand,
) -> Option<u64>
    requires { IsHandOf hand.old mutex.now condvar.now }
    ensures { IsHandOf hand.new mutex.now condvar.now }
{
    condvar.wait(rt, &mut hand.cond, mutex, &mut hand.seat).ok()
}

/// `wait_for`.
pub fn wait_for<R: Wait + Clock>(
    rt: &R,
    mutex: &Mutex<u64>,
    condvar: &PlainCondvar,
    hand: &mut Hand,
    time: Duration,
) -> Option<Waited>
    requires { IsHandOf hand.old mutex.now condvar.now }
    ensures { IsHandOf hand.new mutex.now condvar.now }
{
    condvar
        .wait_for(rt, &mut hand.cond, mutex, &mut hand.seat, time)
        .ok()
}

/// `wait_while` the number is this one. Returns whether it was not refused.
pub fn wait_while<R: Wait>(
    rt: &R,
    mutex: &Mutex<u64>,
    condvar: &PlainCondvar,
    hand: &mut Hand,
    own: u64,
) -> bool
    requires { IsHandOf hand.old mutex.now condvar.now }
    ensures { IsHandOf hand.new mutex.now condvar.now }
{
    condvar
        .wait_while(
            rt,
            &mut hand.cond,
            mutex,
            &mut hand.seat,
            move |number: &u64| *number == own,
        )
        .is_ok()
}

/// `wake_one`, and the ticket of the seat that was woken.
pub fn wake_one<R: Wait>(
    rt: &R,
    mutex: &Mutex<u64>,
    condvar: &PlainCondvar,
    hand: &mut Hand,
) -> Option<u64>
    requires { IsHandOf hand.old mutex.now condvar.now }
    ensures { IsHandOf hand.new mutex.now condvar.now }
{
    let _mutex = mutex;
    condvar.wake_one(rt, &mut hand.cond).ok().flatten()
}

/// `wake_one_later`, `unlock` and then `notify`. Returns the number of the seat that was woken, or None if nobody waited or the
/// wake was refused.
pub fn wake_one_later_and_notify<R: Wait>(
    rt: &R,
    mutex: &Mutex<u64>,
    condvar: &PlainCondvar,
    hand: &mut Hand,
) -> Option<u64>
    requires { IsHandOf hand.old mutex.now condvar.now }
    ensures { IsHandOf hand.new mutex.now condvar.now }
{
    let owed = condvar.wake_one_later(rt, &mut hand.cond);
    let _ = mutex.unlock(&mut hand.seat);
    let Ok(Some(owed)) = owed else {
        return None;
    };
    let number = owed.number().get();
    condvar.notify(&mut hand.cond, owed);
    Some(number)
}

/// `wake_all`, and how many were woken.
pub fn wake_all<R: Wait>(
    rt: &R,
    mutex: &Mutex<u64>,
    condvar: &PlainCondvar,
    hand: &mut Hand,
) -> Option<u64>
    requires { IsHandOf hand.old mutex.now condvar.now }
    ensures { IsHandOf hand.new mutex.now condvar.now }
{
    let _mutex = mutex;
    condvar.wake_all(rt, &mut hand.cond).ok()
}
