//! A seat that is dropped while it holds or sleeps. No other seat can acquire what it held or was granted.
ghost use Rattle.lfm_mutex.specs.Belongs.{OfMutex};

use crate::running::calls::{Step, make, make_alone};
use crate::running::seats::pair;
use lfm_model::{Asked, How, Refusal, SeatNo, Unlocked};
use lfm_mutex::{Mutex, Seat};
use std::process::Abort;
use std::test::Fail;

/// Receives a thousand times for a seat that sleeps. Checks that it does not acquire the mutex.
fn sleeps_on<R: Abort>(rt: &R, mutex: &Mutex<u64>, seat: &mut Seat<u64>)
    requires { OfMutex seat.old mutex.now }
    ensures { OfMutex seat.new mutex.now }
{
    'looking: for look in 0..1_000 {
        make(rt, mutex, seat, look, Step::TryReceive(Ok(None)));
    }
}

#[test]
fn a_seat_dropped_while_it_holds(rt: HostRuntime) -> Result<(), Fail> {
    let (mutex, mut first, mut second) = pair(rt.alloc())?;
    make_alone(
        &rt,
        &mutex,
        &mut first,
        &[Step::Ask(Ok(Asked::Held(How::Free)))],
    );
    drop(first);
    let steps = [
        Step::TryLock(Err(Refusal::Busy)),
        Step::Ask(Ok(Asked::Asleep)),
    ];
    make_alone(&rt, &mutex, &mut second, &steps);
    sleeps_on(&rt, &mutex, &mut second);
    let mut left = Vec::new(rt.alloc());
    left.push(second)?;
    assert!(rt; mutex.close(left).is_err());
    Ok(())
}

#[test]
fn a_seat_dropped_while_it_sleeps(rt: HostRuntime) -> Result<(), Fail> {
    let (mutex, mut first, mut second) = pair(rt.alloc())?;
    make_alone(
        &rt,
        &mutex,
        &mut first,
        &[Step::Ask(Ok(Asked::Held(How::Free)))],
    );
    make_alone(&rt, &mutex, &mut second, &[Step::Ask(Ok(Asked::Asleep))]);
    drop(second);
    let steps = [
        Step::Unlock(Ok(Unlocked::Granted(SeatNo::known(2)))),
        Step::TryLock(Err(Refusal::Busy)),
        Step::Owner(None),
    ];
    make_alone(&rt, &mutex, &mut first, &steps);
    Ok(())
}
