//! How large a pool may be, and in which order its seats are taken.
ghost use Rattle.std.specs.Prelude.{IfSome};
ghost use Rattle.lfm_pool.specs.NewSeats.{AreFreeSeats};

use crate::seeing::{holds, sees};
use lfm_model::NewFault;
use lfm_pool::free_seats::FreeSeats;
use lfm_pool::pool::Pool;
use std::test::Fail;

#[test]
fn a_pool_has_a_mutex_and_a_seat(rt: HostRuntime) -> Result<(), Fail> {
    sees(
        &rt,
        "no mutex",
        &Pool::new(rt.alloc(), 0, 1).err(),
        &Some(NewFault::Limit),
    );
    sees(
        &rt,
        "no seat",
        &Pool::new(rt.alloc(), 1, 0).err(),
        &Some(NewFault::Limit),
    );
    sees(
        &rt,
        "too many mutexes",
        &Pool::new(rt.alloc(), 1 << 32, 1).err(),
        &Some(NewFault::Limit),
    );
    sees(
        &rt,
        "too many seats",
        &Pool::new(rt.alloc(), 1, 4_096).err(),
        &Some(NewFault::Limit),
    );
    Ok(())
}

#[test]
fn a_pool_has_as_many_seats_as_it_may(rt: HostRuntime) -> Result<(), Fail> {
    let (_pool, seats) = Pool::new(rt.alloc(), 2, 4_095)?;
    holds(&rt, "4,095 seats", seats.len() == 4_095);
    let numbered = seats
        .iter()
        .enumerate()
        .all(|(i, seat)| seat.number() == i as u64 + 1);
    holds(&rt, "numbered from 1", numbered);
    Ok(())
}

/// The number of the seat that is taken next, with the seats that are left then. 0 if none is left.
fn take_next(pool: &Pool, free: Option<FreeSeats>) -> (u64, Option<FreeSeats>)
    requires { IfSome free (λ f. AreFreeSeats f pool.now) }
    ensures { IfSome result.1 (λ f. AreFreeSeats f pool.now) }
{
    let Some(free) = free else {
        return (0, None);
    };
    let (seat, left) = free.take(pool);
    (seat.number(), left)
}

#[test]
fn the_first_seat_is_taken_last(rt: HostRuntime) -> Result<(), Fail> {
    let (pool, free) = Pool::with_free_seats(rt.alloc(), 2, 3)?;
    let (first, left) = take_next(&pool, Some(free));
    let (second, left) = take_next(&pool, left);
    let (third, left) = take_next(&pool, left);
    let (fourth, left) = take_next(&pool, left);
    sees(&rt, "the first that is taken", &first, &2);
    sees(&rt, "the second", &second, &3);
    sees(&rt, "the third", &third, &1);
    sees(&rt, "no seat", &fourth, &0);
    holds(&rt, "none is left", left.is_none());
    Ok(())
}

#[test]
fn free_seats_need_a_pool_of_an_allowed_size(rt: HostRuntime) -> Result<(), Fail> {
    sees(
        &rt,
        "too many seats",
        &Pool::with_free_seats(rt.alloc(), 1, 4_096).err(),
        &Some(NewFault::Limit),
    );
    Ok(())
}
