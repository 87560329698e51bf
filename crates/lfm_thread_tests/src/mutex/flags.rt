//! A mutex around a flag that is up when the mutex is made: one thread holds it, finds the flag up, and lowers it.
ghost use Rattle.std.specs.Prelude.{◌≡◌, []};
ghost use Rattle.lfm_mutex.specs.Belongs.{Beside, OfMutex};

use crate::seeing::sees;
use lfm_model::{Asked, How, Unlocked};
use lfm_mutex::{Mutex, Seat};
use lfm_test_tools::two_seats::mutex_of_two;
use std::process::Abort;
use std::test::Fail;

/// Lowers the flag in hand, and returns how it was found. None if the seat doesn't hold.
fn lower(seat: &mut Seat<bool>) -> Option<bool>
    ensures { Beside seat.old seat.new }
{
    let Some(flag) = seat.value_mut() else {
        return None;
    };
    let found = *flag;
    *flag = false;
    Some(found)
}

/// The seat locks, finds the flag up, lowers it, and unlocks.
fn lower_in_one_hold<R: Abort>(rt: &R, mutex: &Mutex<bool>, seat: &mut Seat<bool>)
    requires { OfMutex seat.old mutex.now }
    ensures { OfMutex seat.new mutex.now }
{
    let asked = mutex.ask(seat);
    let found = lower(seat);
    let unlocked = mutex.unlock(seat);
    sees(rt, "ask", &asked, &Ok(Asked::Held(How::Free)));
    sees(rt, "the flag", &found, &Some(true));
    sees(rt, "unlock", &unlocked, &Ok(Unlocked::Free));
}

/// Closes the mutex with both seats in this empty list. Returns its flag. None if it can't be closed.
fn closed(
    mutex: Mutex<bool>,
    first: Seat<bool>,
    second: Seat<bool>,
    mut room: Vec<Seat<bool>>,
) -> Option<bool>
    requires first { OfMutex first mutex }
    requires second { OfMutex second mutex }
    requires empty { room.items ≡ [] }
{
    room.push(first).ok()?;
    room.push(second).ok()?;
    mutex.close(room).ok()
}

#[test]
fn a_flag_that_is_lowered(rt: HostRuntime) -> Result<(), Fail> {
    let (mutex, first, mut second) = mutex_of_two(rt.alloc(), 1, true).ok_or("a mutex")?;
    lower_in_one_hold(&rt, &mutex, &mut second);
    let flag = closed(mutex, first, second, Vec::new(rt.alloc()));
    sees(&rt, "the flag", &flag, &Some(false));
    Ok(())
}

#[test]
fn a_flag_that_nobody_lowers(rt: HostRuntime) -> Result<(), Fail> {
    let (mutex, first, second) = mutex_of_two(rt.alloc(), 1, true).ok_or("a mutex")?;
    let flag = closed(mutex, first, second, Vec::new(rt.alloc()));
    sees(&rt, "the flag", &flag, &Some(true));
    Ok(())
}
