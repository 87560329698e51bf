//! One seat holds two mutexes at once, one of them twice.
use crate::seeing::sees;
use crate::two_seats::pool_of_two;
use lfm_model::{Asked, How, Locked, Refusal, Unlocked};
use lfm_pool::calls::{ask, try_lock, unlock};
use std::test::Fail;

#[test]
fn a_seat_that_holds_two_mutexes(rt: HostRuntime) -> Result<(), Fail> {
    let (pool, mut seat, _other) = pool_of_two(rt.alloc()).ok_or("a pool")?;
    sees(
        &rt,
        "free",
        &try_lock(&pool, &mut seat, 0),
        &Ok(Locked::Held(How::Free)),
    );
    sees(
        &rt,
        "free too",
        &ask(&pool, &mut seat, 1),
        &Ok(Asked::Held(How::Free)),
    );
    sees(
        &rt,
        "again",
        &try_lock(&pool, &mut seat, 1),
        &Ok(Locked::Again(2)),
    );
    sees(&rt, "takes", &seat.takes(), &2);
    sees(
        &rt,
        "the first",
        &unlock(&pool, &mut seat, 0),
        &Ok(Unlocked::Free),
    );
    sees(
        &rt,
        "one of two",
        &unlock(&pool, &mut seat, 1),
        &Ok(Unlocked::Still(1)),
    );
    sees(
        &rt,
        "the last",
        &unlock(&pool, &mut seat, 1),
        &Ok(Unlocked::Free),
    );
    sees(
        &rt,
        "none",
        &unlock(&pool, &mut seat, 1),
        &Err(Refusal::NotOwner),
    );
    Ok(())
}
