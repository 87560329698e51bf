//! A seat that waits is sent past the condvar: its place stays in the list.
ghost use Rattle.lfm_mutex.specs.Belongs.{OfMutex};
ghost use Rattle.lfm_condvar.specs.Belongs.{OfCondvar};
ghost use Rattle.lfm_condvar_tests.specs.Hands.{OfCalled};

use crate::calls::{wait, wake_one};
use crate::in_hand::InHand;
use crate::pairs::{closed, in_hand_of_one_condvar};
use crate::seeing::{holds, sees};
use lfm_condvar::{CondSeat, Condvar};
use lfm_model::{Refusal, SeatNo};
use lfm_mutex::{Mutex, Seat};
use std::process::Abort;
use std::sync::Wait;
use std::test::Fail;
use std::thread::{Threads, join};

/// The most often that a thread sends before it gives up.
const MOST_SENDS: u64 = 1_000_000_000;

/// A thread's seats, and what it saw.
#[derive(Drop)]
struct Waited {
    seat: Seat<u64>,
    cond: CondSeat,
    ticket: Option<u64>,
    busy: bool,
}

#[derive(Drop)]
struct Sent {
    seat: Seat<u64>,
    sent: bool,
    only_not_waiting: bool,
}

/// Waits twice.
fn wait_twice<R: Wait>(
    rt: &R,
    mutex: &Mutex<u64>,
    condvar: &Condvar,
    mut seat: Seat<u64>,
    mut cond: CondSeat,
) -> Waited
    requires seat { OfMutex seat mutex.now }
    requires cond { OfCondvar cond condvar.now }
    ensures seat { OfMutex result.seat mutex.now }
    ensures cond { OfCondvar result.cond condvar.now }
{
    let _ = mutex.lock(rt, &mut seat);
    let ticket = match wait(rt, condvar, &mut cond, mutex, &mut seat) {
        Ok((_, ticket)) => Some(ticket),
        Err(_) => None,
    };
    let busy = matches!(
        wait(rt, condvar, &mut cond, mutex, &mut seat),
        Err(Refusal::Busy)
    );
    let _ = mutex.unlock(&mut seat);
    Waited {
        seat,
        cond,
        ticket,
        busy,
    }
}

/// Sends seat 1 until a send is not refused.
fn send_the_other(mutex: &Mutex<u64>, mut seat: Seat<u64>) -> Sent
    requires { OfMutex seat mutex.now }
    ensures { OfMutex result.seat mutex.now }
{
    let mut sent = false;
    let mut only_not_waiting = true;
    'sends: for _ in 0..MOST_SENDS {
        match mutex.send_lock(&mut seat, SeatNo::known(1)) {
            Ok(()) => {
                sent = true;
                break;
            }
            Err(refusal) => only_not_waiting = only_not_waiting && refusal == Refusal::NotWaiting,
        }
    }
    Sent {
        seat,
        sent,
        only_not_waiting,
    }
}

/// The send ended the first wait. The place that it left in the list made the second wait be refused.
fn the_first_wait_was_sent<R: Abort>(rt: &R, waited: &Waited, sent: &Sent) {
    holds(rt, "a send was not refused", sent.sent);
    holds(
        rt,
        "each send before it was refused as NotWaiting",
        sent.only_not_waiting,
    );
    sees(rt, "the ticket of the first wait", &waited.ticket, &Some(1));
    holds(rt, "the second wait was refused as Busy", waited.busy);
}

/// One thread waits twice with the first seat, and another sends it with the second. Also returns the cond seat that is left.
fn sends_past<R: Threads + Wait + Sync>(
    rt: &R,
    mutex: &Mutex<u64>,
    condvar: &Condvar,
    hand: InHand,
) -> (Waited, Sent, CondSeat)
    requires { OfCalled hand mutex.now condvar.now condvar.now }
    ensures waited { OfCondvar result.0.cond condvar.now }
    ensures sent { OfMutex result.1.seat mutex.now }
    ensures left { OfCondvar result.2 condvar.now }
{
    let InHand {
        first: seat_1,
        second: seat_2,
        one: cond_1,
        other: cond_2,
    } = hand;
    let (waited, sent) = join(
        rt,
        move || -> Waited
            requires { OfMutex seat_1 mutex.now × OfCondvar cond_1 condvar.now }
            ensures { OfCondvar result.cond condvar.entry.now }
        { wait_twice(rt, mutex, condvar, seat_1, cond_1) },
        move || -> Sent
            requires { OfMutex seat_2 mutex.now }
            ensures { OfMutex result.seat mutex.entry.now }
        { send_the_other(mutex, seat_2) },
    );
    (waited, sent, cond_2)
}

#[test]
fn a_send_past_the_condvar(rt: HostRuntime) -> Result<(), Fail> {
    let (mutex, condvar, hand) = in_hand_of_one_condvar(rt.alloc(), 8, 0).ok_or("seats")?;
    let (waited, mut sent, mut cond) = sends_past(&rt, &mutex, &condvar, hand);
    the_first_wait_was_sent(&rt, &waited, &sent);
    let woke = wake_one(&rt, &condvar, &mut cond, &mutex, &mut sent.seat);
    sees(&rt, "the wake", &woke, &Err(Refusal::NotWaiting));
    let numbers = closed(condvar, waited.cond, cond, Vec::new(rt.alloc()));
    sees(&rt, "the numbers", &numbers, &Some((0, 1)));
    Ok(())
}
