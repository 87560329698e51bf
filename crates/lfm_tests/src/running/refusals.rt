//! Limits past which no mutex is made and the value is dropped, and the refusals of a seat at each depth of its hold.
ghost use Rattle.lfm_mutex.specs.Belongs.{OfMutex};

use crate::running::calls::{Step, make_alone};
use crate::running::seats::alone;
use crate::seeing::sees;
use lfm_core::MAX_BUDGET;
use lfm_model::{Asked, How, NewFault, Refusal, Unlocked};
use lfm_mutex::{Mutex, Seat};
use lfm_test_tools::counted::Counted;
use std::alloc::Global;
use std::process::Abort;
use std::sync::Wait;
use std::sync::atomic::{AtomicU64, Ordering};
use std::test::Fail;

/// Why no mutex is made with these limits.
fn fault(alloc: Global, seats: u64, budget: u64) -> Option<NewFault> {
    Mutex::new(alloc, seats, budget, 0u64).err()
}

#[test]
fn limits(rt: HostRuntime) {
    let alloc = rt.alloc();
    let limit = Some(NewFault::Limit);
    sees(&rt, "no seats", &fault(alloc, 0, 1), &limit);
    sees(&rt, "a seat too many", &fault(alloc, 4_096, 1), &limit);
    sees(&rt, "no budget", &fault(alloc, 1, 0), &limit);
    sees(
        &rt,
        "a take too many",
        &fault(alloc, 1, MAX_BUDGET + 1),
        &limit,
    );
}

#[test]
fn a_refused_size_drops_the_value(rt: HostRuntime) {
    for (seats, budget) in [(0, 1), (4_096, 1), (1, 0), (1, MAX_BUDGET + 1)] {
        let drops = AtomicU64::new(0);
        let value = Counted { drops: &drops };
        let fault = Mutex::new(rt.alloc(), seats, budget, value).err();
        sees(&rt, "the fault", &fault, &Some(NewFault::Limit));
        sees(&rt, "one drop", &drops.load(Ordering::SeqCst), &1);
    }
}

/// Deepens a hold of depth 1 to the greatest depth.
fn deepen<R: Abort>(rt: &R, mutex: &Mutex<u64>, seat: &mut Seat<u64>)
    requires { OfMutex seat.old mutex.now }
    ensures { OfMutex seat.new mutex.now }
{
    'deepening: for depth in 2..=65_535 {
        sees(rt, "one deeper", &mutex.ask(seat), &Ok(Asked::Again(depth)));
    }
}

/// Unlocks a hold of the greatest depth until its depth is 1.
fn leave<R: Abort>(rt: &R, mutex: &Mutex<u64>, seat: &mut Seat<u64>)
    requires { OfMutex seat.old mutex.now }
    ensures { OfMutex seat.new mutex.now }
{
    'leaving: for depth in 1..65_535 {
        sees(
            rt,
            "one less deep",
            &mutex.unlock(seat),
            &Ok(Unlocked::Still(65_535 - depth)),
        );
    }
}

/// Makes all holds that one seat with one take can make, and checks the refusals at each depth.
fn refuses_in_order<R: Abort + Wait>(rt: &R, mutex: &Mutex<u64>, seat: &mut Seat<u64>)
    requires { OfMutex seat.old mutex.now }
{
    let held = [
        Step::Ask(Ok(Asked::Held(How::Free))),
        Step::StartWait(Err(Refusal::Spent)),
    ];
    make_alone(rt, mutex, seat, &held);
    deepen(rt, mutex, seat);
    let full = [
        Step::Ask(Err(Refusal::DepthFull)),
        Step::TryLock(Err(Refusal::DepthFull)),
        Step::StartWait(Err(Refusal::Nested)),
    ];
    make_alone(rt, mutex, seat, &full);
    let barged = mutex.lock_barging(rt, seat);
    sees(rt, "barging", &barged, &Err(Refusal::DepthFull));
    leave(rt, mutex, seat);
    let spent = [
        Step::Unlock(Ok(Unlocked::Free)),
        Step::Ask(Err(Refusal::Spent)),
        Step::TryLock(Err(Refusal::Spent)),
        Step::StartWait(Err(Refusal::NotOwner)),
    ];
    make_alone(rt, mutex, seat, &spent);
    let barged = mutex.lock_barging(rt, seat);
    sees(rt, "barging", &barged, &Err(Refusal::Spent));
}

#[test]
fn refusals_in_order(rt: HostRuntime) -> Result<(), Fail> {
    let (mutex, mut seat) = alone(rt.alloc(), 0)?;
    refuses_in_order(&rt, &mutex, &mut seat);
    Ok(())
}
