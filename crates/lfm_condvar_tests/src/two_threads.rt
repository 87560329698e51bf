//! One thread waits, and another wakes it.
ghost use Rattle.std.specs.Prelude.{◌≤◌};
ghost use Rattle.lfm_mutex.specs.Belongs.{OfMutex, limits_of};
ghost use Rattle.lfm_condvar.specs.Belongs.{OfCondvar, cond_limits};
ghost use Rattle.lfm_condvar_tests.specs.Hands.{OfCalled};

use crate::calls::{unlock, wait, wake_all, wake_one};
use crate::in_hand::InHand;
use crate::pairs::{closed, in_hand_of_one_condvar};
use crate::seeing::{holds, sees};
use lfm_condvar::{CondSeat, Condvar};
use lfm_model::{Refusal, SeatNo};
use lfm_mutex::{Mutex, Seat};
use lfm_test_tools::adding::add_one;
use std::process::Abort;
use std::sync::Wait;
use std::test::Fail;
use std::thread::{Threads, join};

/// The most often that a thread reads before it gives up.
const MOST_READS: u64 = 1_000_000_000;

/// A thread's seats, and what it saw.
#[derive(Drop)]
struct Waited {
    seat: Seat<u64>,
    cond: CondSeat,
    ticket: Option<u64>,
    depth: u32,
}

#[derive(Drop)]
struct Woke {
    seat: Seat<u64>,
    cond: CondSeat,
    first: Option<(SeatNo, u64)>,
    none: bool,
    spent: bool,
}

/// Reads the number under the mutex; 0 if the seat did not acquire it.
fn read<R: Wait>(rt: &R, mutex: &Mutex<u64>, seat: &mut Seat<u64>) -> u64
    requires { OfMutex seat.old mutex.now }
    ensures { OfMutex seat.new mutex.now }
{
    let _ = mutex.lock(rt, seat);
    let number = seat.value().copied().unwrap_or(0);
    let _ = unlock(mutex, seat);
    number
}

/// Reads until the other thread has added 1.
fn read_until_added<R: Wait>(rt: &R, mutex: &Mutex<u64>, seat: &mut Seat<u64>)
    requires { OfMutex seat.old mutex.now }
    ensures { OfMutex seat.new mutex.now }
{
    'reads: for _ in 0..MOST_READS {
        if read(rt, mutex, seat) == 1 {
            break;
        }
    }
}

/// Adds 1 to the number, and waits.
fn add_and_wait<R: Wait>(
    rt: &R,
    mutex: &Mutex<u64>,
    condvar: &Condvar,
    mut seat: Seat<u64>,
    mut cond: CondSeat,
) -> Waited
    requires seat { OfMutex seat mutex.now }
    requires cond { OfCondvar cond condvar.now }
    ensures seat { OfMutex result.seat mutex.now }
    ensures cond { OfCondvar result.cond condvar.now }
{
    let _ = mutex.lock(rt, &mut seat);
    let _ = add_one(&mut seat);
    let ticket = match wait(rt, condvar, &mut cond, mutex, &mut seat) {
        Ok((_, ticket)) => Some(ticket),
        Err(_) => None,
    };
    let depth = seat.depth();
    let _ = unlock(mutex, &mut seat);
    Waited {
        seat,
        cond,
        ticket,
        depth,
    }
}

/// Reads until the other thread has added, and wakes three times.
fn read_and_wake<R: Wait>(
    rt: &R,
    mutex: &Mutex<u64>,
    condvar: &Condvar,
    mut seat: Seat<u64>,
    mut cond: CondSeat,
) -> Woke
    requires seat { OfMutex seat mutex.now }
    requires cond { OfCondvar cond condvar.now }
    requires wide { (cond_limits condvar.now).seats ≤ (limits_of mutex.now).seats }
    ensures seat { OfMutex result.seat mutex.now }
    ensures cond { OfCondvar result.cond condvar.now }
{
    read_until_added(rt, mutex, &mut seat);
    let first = wake_one(rt, condvar, &mut cond, mutex, &mut seat);
    let second = wake_one(rt, condvar, &mut cond, mutex, &mut seat);
    let third = wake_one(rt, condvar, &mut cond, mutex, &mut seat);
    Woke {
        seat,
        cond,
        first: first.ok().flatten(),
        none: matches!(second, Ok(None)),
        spent: matches!(third, Err(Refusal::Spent)),
    }
}

/// The calls of a thread that is alone answer as they should: no seat waits, and its seat doesn't hold.
fn alone<R: Wait + Abort>(
    rt: &R,
    mutex: &Mutex<u64>,
    condvar: &Condvar,
    seat: &mut Seat<u64>,
    cond: &mut CondSeat,
)
    requires seat { OfMutex seat.old mutex.now }
    requires cond { OfCondvar cond.old condvar.now }
    requires wide { (cond_limits condvar.now).seats ≤ (limits_of mutex.now).seats }
    ensures seat { OfMutex seat.new mutex.now }
    ensures cond { OfCondvar cond.new condvar.now }
{
    let one = wake_one(rt, condvar, cond, mutex, seat);
    let all = wake_all(rt, condvar, cond, mutex, seat);
    let waited = wait(rt, condvar, cond, mutex, seat);
    sees(rt, "wake_one", &one, &Ok(None));
    sees(rt, "wake_all", &all, &Ok(0));
    sees(rt, "wait", &waited, &Err(Refusal::NotOwner));
}

/// The first wake ended the wait, the second found no waiter, and the third was refused.
fn one_wake_ended_the_wait<R: Abort>(rt: &R, woke: &Woke, waited: &Waited) {
    sees(
        rt,
        "the first wake",
        &woke.first,
        &Some((SeatNo::known(2), 1)),
    );
    holds(rt, "the second wake found no waiter", woke.none);
    holds(rt, "the third wake was refused as Spent", woke.spent);
    sees(rt, "the ticket of the wait", &waited.ticket, &Some(1));
    sees(rt, "the depth after the wait", &waited.depth, &1);
}

/// One thread waits with the second seat, and another wakes it with the first. Before these threads start, the calls of the
/// first seat are tested alone.
fn wakes_the_other<R: Threads + Wait + Abort + Sync>(
    rt: &R,
    mutex: &Mutex<u64>,
    condvar: &Condvar,
    hand: InHand,
) -> (Woke, Waited)
    requires { OfCalled hand mutex.now condvar.now condvar.now }
    ensures { OfCondvar result.0.cond condvar.now × OfCondvar result.1.cond condvar.now }
{
    let InHand {
        first: mut seat_1,
        second: seat_2,
        one: mut cond_1,
        other: cond_2,
    } = hand;
    alone(rt, mutex, condvar, &mut seat_1, &mut cond_1);
    join(
        rt,
        move || -> Woke
            requires { OfMutex seat_1 mutex.now × OfCondvar cond_1 condvar.now × (cond_limits condvar.now).seats ≤ (limits_of mutex.now).seats }
            ensures { OfCondvar result.cond condvar.entry.now }
        { read_and_wake(rt, mutex, condvar, seat_1, cond_1) },
        move || -> Waited
            requires { OfMutex seat_2 mutex.now × OfCondvar cond_2 condvar.now }
            ensures { OfCondvar result.cond condvar.entry.now }
        { add_and_wait(rt, mutex, condvar, seat_2, cond_2) },
    )
}

#[test]
fn a_condition_variable(rt: HostRuntime) -> Result<(), Fail> {
    let (mutex, condvar, hand) = in_hand_of_one_condvar(rt.alloc(), 1_000_000_000, 0).ok_or(
        "seats",
    )?;
    let (woke, waited) = wakes_the_other(&rt, &mutex, &condvar, hand);
    one_wake_ended_the_wait(&rt, &woke, &waited);
    let numbers = closed(condvar, woke.cond, waited.cond, Vec::new(rt.alloc()));
    sees(&rt, "the numbers", &numbers, &Some((1, 1)));
    Ok(())
}
