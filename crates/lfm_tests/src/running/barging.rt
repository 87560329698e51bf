//! Seats of one thread that lock by `lock_barging`: what they acquire, how many takes it costs, and how they are refused.
use crate::running::seats::{alone, closed_alone, pair_with};
use crate::seeing::sees;
use lfm_model::{Asked, How, Locked, Refusal, SeatNo, Unlocked};
use std::test::Fail;

#[test]
fn barging_gains_a_free_mutex_and_deepens_a_hold(rt: HostRuntime) -> Result<(), Fail> {
    let (mutex, mut seat) = alone(rt.alloc(), 7)?;
    let gained = mutex.lock_barging(&rt, &mut seat);
    sees(&rt, "the gain", &gained, &Ok(Locked::Held(How::Free)));
    sees(&rt, "the value", &seat.value().copied(), &Some(7));
    let deeper = mutex.lock_barging(&rt, &mut seat);
    sees(&rt, "one deeper", &deeper, &Ok(Locked::Again(2)));
    sees(&rt, "the takes", &seat.takes(), &1);
    let unlocked = mutex.unlock(&mut seat);
    sees(&rt, "one less deep", &unlocked, &Ok(Unlocked::Still(1)));
    let unlocked = mutex.unlock(&mut seat);
    sees(&rt, "the release", &unlocked, &Ok(Unlocked::Free));
    let value = closed_alone(mutex, seat, Vec::new(rt.alloc()));
    sees(&rt, "the value at the end", &value, &Some(7));
    Ok(())
}

/// Seat 2 sleeps, and its only take is charged. It is refused as Asleep, before and after the grant.
#[test]
fn barging_of_a_seat_that_sleeps(rt: HostRuntime) -> Result<(), Fail> {
    let (mutex, mut first, mut second) = pair_with(rt.alloc(), 1)?;
    let gained = mutex.lock_barging(&rt, &mut first);
    sees(&rt, "the gain", &gained, &Ok(Locked::Held(How::Free)));
    let asked = mutex.ask(&mut second);
    sees(&rt, "seat 2 queues", &asked, &Ok(Asked::Asleep));
    let refused = mutex.lock_barging(&rt, &mut second);
    sees(&rt, "while it sleeps", &refused, &Err(Refusal::Asleep));
    let granted = mutex.unlock(&mut first);
    let second_seat = SeatNo::known(2);
    sees(
        &rt,
        "the grant",
        &granted,
        &Ok(Unlocked::Granted(second_seat)),
    );
    let refused = mutex.lock_barging(&rt, &mut second);
    sees(&rt, "before it looks", &refused, &Err(Refusal::Asleep));
    let received = mutex.try_receive(&mut second);
    sees(&rt, "the receive", &received, &Ok(Some(How::Queued(1))));
    let deeper = mutex.lock_barging(&rt, &mut second);
    sees(&rt, "one deeper", &deeper, &Ok(Locked::Again(2)));
    let refused = mutex.lock_barging(&rt, &mut first);
    sees(&rt, "with no take left", &refused, &Err(Refusal::Spent));
    Ok(())
}
