//! The start of `ask`, a `lock` that queues, of a seat that does not hold the mutex: up to the point at which the seat holds
//! the mutex, sleeps, or has taken a post over and so has the responsibility. With the responsibility, the
//! `lock` goes on in `finish_ask`.
ghost use Rattle.std.specs.Prelude.{◌≡◌};
ghost use Rattle.lfm_protocol.specs.declared.points.Point.TheVariants.{PushLoad};
ghost use Rattle.lfm_protocol.specs.declared.points.Pusher.{Pusher};
ghost use Rattle.lfm_pool.specs.Admissions.{IsAdmittedIn};
ghost use Rattle.lfm_pool.specs.Ask.{AsksIn, IsReadyAfter, MakesBesideFailuresIn, QueuesIn, WaitsIn};
ghost use Rattle.lfm_pool.specs.Belongs.{IsMutex, OfPool, SameSeat};
ghost use Rattle.lfm_pool.specs.Moves.{MayStepIn};
ghost use Rattle.lfm_pool.specs.Push.{LoadsPush};
ghost use Rattle.lfm_pool.specs.Seats.{state_of, MayTryIn, RestsInOthers};

use crate::layout::{COUNT, OWNER};
use crate::moves::{go_on, start};
use crate::pool::{Pool, TableSeat};
use crate::push::{load_handoff, load_push, push, take_over};
use lfm_table::operations::Access;
use lfm_words::{Handoff, unpack_link};

/// How far a `lock` has come.
#[derive(Clone, Copy, Debug, PartialEq, Eq)]
pub enum Asking {
    /// The mutex was free, and the seat holds it once. The call has ended.
    Held,
    /// The record of the seat is in the queue, or was served already, and the seat sleeps until a receive finds its grant.
    /// The call has ended.
    Asleep,
    /// The record of the seat is in the queue, and the call has taken a post over. It is open and has the responsibility.
    Carries,
}

/// Begins a `lock` of this mutex by a seat that does not hold it. If the mutex is free, the seat acquires it. Else the seat
/// queues: it pushes its record, loads the handoff word, and tries to take over a post that it finds there. Returns how far
/// the call has come. It is charged one take.
///
/// If it returns Carries, the call has the responsibility. It does not serve any record: its next step grants the oldest
/// record of the pop list, makes the seat the owner if that record is its own, or clears the head of the push word if there
/// is none.
///
/// The seat has to rest in all mutexes, not to hold this one, and to have a take and a stamp left here, so that there is no
/// refusal. It may hold other mutexes. Nothing changes in them, nor in what the seat knows of them. The call makes at most 7
/// atomic steps, and two more for each exchange of the push word that fails. The seat alone does not bound how many fail: each
/// has found that another seat changed the word, by a push of its record or by a clearing of the push list. It allocates
/// nothing, never waits and wakes no thread.
#[inline(always)]
pub fn begin_ask(pool: &Pool, seat: &mut TableSeat, mutex: usize) -> Asking
    requires belongs { OfPool seat.old pool.now }
    requires mutex { IsMutex mutex pool.now }
    requires may { MayTryIn seat.old pool.now mutex }
    requires elsewhere { RestsInOthers seat.old mutex }
    requires admitted { IsAdmittedIn seat.old mutex }
    ensures belongs { SameSeat seat.old seat.new }
    ensures may { MayStepIn seat.new pool.now mutex }
    ensures asks { AsksIn seat.old seat.new mutex result }
    ensures ready { IsReadyAfter result seat.new pool.now mutex }
    ensures bounded { MakesBesideFailuresIn 7 seat.old seat.new mutex }
{
    let count = start(pool, seat, mutex, Access::FetchAdd(COUNT, 1));
    if count == 0 {
        let number = seat.number;
        go_on(pool, seat, mutex, Access::Store(OWNER, number));
        return Asking::Held;
    }
    go_on(pool, seat, mutex, Access::Load(OWNER));
    queue(pool, seat, mutex)
}

/// Queues the seat, and takes over a post that it finds after its push. Returns Asleep or Carries.
fn queue(pool: &Pool, seat: &mut TableSeat, mutex: usize) -> Asking
    requires may { MayStepIn seat.old pool.now mutex }
    requires at { LoadsPush (state_of seat.old mutex) }
    requires admitted { IsAdmittedIn seat.old mutex }
    ensures belongs { SameSeat seat.old seat.new }
    ensures may { MayStepIn seat.new pool.now mutex }
    ensures waits { WaitsIn seat.old seat.new mutex result }
{
    push_record(pool, seat, mutex);
    let post = load_handoff(pool, seat, mutex);
    if !Handoff::is_posted_in(post) {
        return Asking::Asleep;
    }
    let found = take_over(pool, seat, mutex, post);
    if found == post {
        return Asking::Carries;
    }
    Asking::Asleep
}

/// Pushes the record of the seat: it loads the push word, and tries until an exchange has found the word that was loaded.
/// Each exchange that fails has found a word that another seat has changed since then.
fn push_record(pool: &Pool, seat: &mut TableSeat, mutex: usize)
    requires may { MayStepIn seat.old pool.now mutex }
    requires at { LoadsPush (state_of seat.old mutex) }
    requires admitted { IsAdmittedIn seat.old mutex }
    ensures belongs { SameSeat seat.old seat.new }
    ensures may { MayStepIn seat.new pool.now mutex }
    ensures queues { QueuesIn seat.old seat.new mutex }
{
    let mut word = load_push(pool, seat, mutex);
    loop {
        let found = push(pool, seat, mutex, unpack_link(word));
        if found == word {
            return;
        }
        word = found;
    }
}
