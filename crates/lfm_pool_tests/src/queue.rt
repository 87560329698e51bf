//! A seat that queues in one mutex, is refused in the other, and is granted the first.
ghost use Rattle.std.specs.Prelude.{◌≡◌};
ghost use Rattle.lfm_pool.specs.Calls.{IsBetweenCalls};

use crate::seeing::sees;
use crate::two_seats::pool_of_two;
use lfm_model::{Asked, How, Locked, Refusal, Unlocked};
use lfm_pool::calls::{ask, try_lock, try_receive, unlock};
use lfm_pool::pool::Pool;
use lfm_pool::seat::PoolSeat;
use std::process::Abort;
use std::test::Fail;

/// The seat to which an unlock has granted the mutex, or 0.
fn granted_seat(unlocked: &Result<Unlocked, Refusal>) -> u64 {
    match unlocked {
        Ok(Unlocked::Granted(seat)) => seat.get(),
        _ => 0,
    }
}

/// Whether a receive has found a grant.
fn is_granted(received: &Result<Option<How>, Refusal>) -> bool {
    matches!(received, Ok(Some(How::Queued(_))))
}

/// The first seat holds mutex 1, and the second queues there.
fn queue_behind<R: Abort>(rt: &R, pool: &Pool, first: &mut PoolSeat, second: &mut PoolSeat)
    requires between { IsBetweenCalls first.old pool.now × IsBetweenCalls second.old pool.now }
    requires mutexes { pool.now.mutexes ≡ 2 }
    ensures { IsBetweenCalls first.new pool.now × IsBetweenCalls second.new pool.now }
{
    let held = try_lock(pool, first, 1);
    sees(rt, "free", &held, &Ok(Locked::Held(How::Free)));
    let tried = try_lock(pool, second, 1);
    sees(rt, "taken", &tried, &Err(Refusal::Busy));
    let asked = ask(pool, second, 1);
    sees(rt, "queued", &asked, &Ok(Asked::Asleep));
}

/// A seat that sleeps in mutex 1 is refused elsewhere, and finds no grant.
fn is_refused_elsewhere<R: Abort>(rt: &R, pool: &Pool, seat: &mut PoolSeat)
    requires between { IsBetweenCalls seat.old pool.now }
    requires mutexes { pool.now.mutexes ≡ 2 }
    ensures { IsBetweenCalls seat.new pool.now }
{
    let tried = try_lock(pool, seat, 0);
    sees(rt, "elsewhere", &tried, &Err(Refusal::Asleep));
    let received = try_receive(pool, seat, 0);
    sees(rt, "another mutex", &received, &Err(Refusal::NotWaiting));
    let received = try_receive(pool, seat, 1);
    sees(rt, "no grant yet", &received, &Ok(None));
}

#[test]
fn a_seat_that_sleeps_is_refused_elsewhere(rt: HostRuntime) -> Result<(), Fail> {
    let (pool, mut first, mut second) = pool_of_two(rt.alloc()).ok_or("a pool")?;
    queue_behind(&rt, &pool, &mut first, &mut second);
    is_refused_elsewhere(&rt, &pool, &mut second);
    Ok(())
}

#[test]
fn a_seat_that_is_granted_a_mutex_receives_it(rt: HostRuntime) -> Result<(), Fail> {
    let (pool, mut first, mut second) = pool_of_two(rt.alloc()).ok_or("a pool")?;
    queue_behind(&rt, &pool, &mut first, &mut second);
    let unlocked = unlock(&pool, &mut first, 1);
    sees(&rt, "granted", &granted_seat(&unlocked), &2);
    let received = try_receive(&pool, &mut second, 1);
    sees(&rt, "received", &is_granted(&received), &true);
    let held = try_lock(&pool, &mut second, 0);
    sees(&rt, "awake", &held, &Ok(Locked::Held(How::Free)));
    let released = unlock(&pool, &mut second, 1);
    sees(&rt, "released", &released, &Ok(Unlocked::Free));
    Ok(())
}
