//! A mutex with the greatest number of seats, each with the greatest budget.
ghost use Rattle.std.specs.Prelude.{◌≡◌, ◌<◌, All, vec_len};
ghost use Rattle.lfm_mutex.specs.Belongs.{Beside, OfMutex};

use crate::seeing::sees;
use lfm_core::{MAX_BUDGET, MAX_SEATS};
use lfm_model::{Asked, How, Refusal, SeatNo, Unlocked};
use lfm_mutex::{Mutex, Seat};
use std::process::Abort;
use std::test::Fail;

/// What the calls of one thread answered, in order.
type Answers = (
    Result<Asked, Refusal>,
    Result<Asked, Refusal>,
    Result<Unlocked, Refusal>,
    Result<Option<How>, Refusal>,
    Result<Unlocked, Refusal>,
);

/// `ask` of the seat at an index.
fn ask(mutex: &Mutex<u64>, seats: &mut Vec<Seat<u64>>, at: usize) -> Result<Asked, Refusal>
    requires at { at < vec_len seats.old }
    requires belong { All (λ s. OfMutex s mutex.now) seats.old.items }
    ensures belong { All (λ s. OfMutex s mutex.now) seats.new.items }
    ensures all { vec_len seats.new ≡ vec_len seats.old }
{
    mutex.ask(&mut seats[at])
}

/// `unlock` of the seat at an index.
fn unlock(mutex: &Mutex<u64>, seats: &mut Vec<Seat<u64>>, at: usize) -> Result<Unlocked, Refusal>
    requires at { at < vec_len seats.old }
    requires belong { All (λ s. OfMutex s mutex.now) seats.old.items }
    ensures belong { All (λ s. OfMutex s mutex.now) seats.new.items }
    ensures all { vec_len seats.new ≡ vec_len seats.old }
{
    mutex.unlock(&mut seats[at])
}

/// `try_receive` of the seat at an index.
fn try_receive(
    mutex: &Mutex<u64>,
    seats: &mut Vec<Seat<u64>>,
    at: usize,
) -> Result<Option<How>, Refusal>
    requires at { at < vec_len seats.old }
    requires belong { All (λ s. OfMutex s mutex.now) seats.old.items }
    ensures belong { All (λ s. OfMutex s mutex.now) seats.new.items }
    ensures all { vec_len seats.new ≡ vec_len seats.old }
{
    mutex.try_receive(&mut seats[at])
}

/// The last seat acquires the mutex, and seat 1 queues, is granted it, and releases it.
fn hand_over(mutex: &Mutex<u64>, seats: &mut Vec<Seat<u64>>) -> Answers
    requires all { vec_len seats.old ≡ 4095 }
    requires belong { All (λ s. OfMutex s mutex.now) seats.old.items }
    ensures { All (λ s. OfMutex s mutex.now) seats.new.items }
{
    let held = ask(mutex, seats, 4_094);
    let asleep = ask(mutex, seats, 0);
    let granted = unlock(mutex, seats, 4_094);
    let received = try_receive(mutex, seats, 0);
    let free = unlock(mutex, seats, 0);
    (held, asleep, granted, received, free)
}

/// Checks that each call answered as it must.
fn sees_handed_over<R: Abort>(rt: &R, answers: Answers) {
    let (held, asleep, granted, received, free) = answers;
    sees(
        rt,
        "the last seat holds",
        &held,
        &Ok(Asked::Held(How::Free)),
    );
    sees(rt, "seat 1 sleeps", &asleep, &Ok(Asked::Asleep));
    let to_first = Ok(Unlocked::Granted(SeatNo::known(1)));
    sees(rt, "seat 1 is granted it", &granted, &to_first);
    sees(rt, "seat 1 holds", &received, &Ok(Some(How::Queued(1))));
    sees(rt, "seat 1 releases it", &free, &Ok(Unlocked::Free));
}

#[test]
fn as_many_seats_as_there_may_be(rt: HostRuntime) -> Result<(), Fail> {
    let (mutex, mut seats) = Mutex::new(rt.alloc(), MAX_SEATS, MAX_BUDGET, 0u64)?;
    let answers = hand_over(&mutex, &mut seats);
    sees_handed_over(&rt, answers);
    let value = mutex.close(seats).ok();
    sees(&rt, "the value", &value, &Some(0));
    Ok(())
}
