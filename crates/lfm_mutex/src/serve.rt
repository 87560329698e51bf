//! How a release that found others in the count serves the oldest queued seat, in `unlock` and in `start_wait`. Fast path: the
//! pop list has a record, or the push list has exactly one. Everything else is the slow path (`calls::finish`).
ghost use Rattle.std.specs.Prelude.{◌≡◌, false};
ghost use Rattle.lfm_protocol.specs.declared.points.Carrier.{Carrier as CarrierNow};
ghost use Rattle.lfm_protocol.specs.declared.points.Point.TheVariants.{GrantWakeStore, TakeClearHead};
ghost use Rattle.lfm_protocol.specs.After.{take};
ghost use Rattle.lfm_table.specs.Steps.{oldest_in};
ghost use Rattle.lfm_mutex.specs.calls.Runs.{errand, is_release, releasing};
ghost use Rattle.lfm_mutex.specs.calls.FastPath.{release_turn};
ghost use Rattle.lfm_mutex.specs.calls.OpenCalls.{AtTableOf, WithinWeight, FinishesAs};

use crate::calls::finish;
use crate::mutex::Mutex;
use crate::seat::Seat;
use lfm_model::{SeatNo, Unlocked};
use lfm_protocol::points::{Carrier, Point, Releaser, Sleeper};
use lfm_protocol::{Answer, SeatState, Turn};
use lfm_table::moving_box::MovingBox;
use lfm_table::operations::{ClearHead, WakeStore};
use lfm_table::table_steps::{collect, keep, keep_held, store_grant};
use lfm_table::transition::oldest_of;
use lfm_table::{Kept, WakeUp};
use lfm_words::{Record, unpack_link};

/// The slow path of an open release whose seat has given up the owner word, from the seat's point to the end of the call.
/// Only the contract uses `releaser`: it says which answer ends the call.
#[inline(always)]
fn finish_release<T: Kept>(
    mutex: &Mutex<T>,
    seat: &mut Seat<T>,
    releaser: Releaser,
) -> (Unlocked, Option<WakeUp>)
    requires belongs { AtTableOf seat.old mutex.now }
    requires releases { errand seat.old.state.point ≡ releasing releaser }
    requires keeps { is_release seat.old.state.point ≡ false }
    ensures finishes { FinishesAs T.follows T.fits seat.old (release_turn releaser result.0) result.1 seat.new }
    ensures bounded { WithinWeight seat.old seat.new }
{
    let _releaser = releaser;
    let (turn, wake_up) = finish(mutex, seat);
    match turn {
        Turn::Ended(Answer::Unlocked(released)) => (released, wake_up),
        Turn::Ended(Answer::Waiting(released)) => (released, wake_up),
        _ => unreachable!(),
    }
}

/// Stores the point at which a release that found others in the count serves the oldest seat.
#[inline(always)]
pub(crate) fn stop_at_serving<T: Kept>(
    state: &mut SeatState,
    moving: &Option<MovingBox<T>>,
    releaser: Releaser,
)
    ensures { state.new ≡ record state.old { point = take (CarrierNow.Releaser releaser) 0 (oldest_in moving.now) } }
{
    let carrier = Carrier::Releaser(releaser);
    state.point = match oldest_of(moving) {
        Some(oldest) => Point::GrantWakeStore(carrier, oldest),
        None => Point::TakeClearHead(carrier),
    };
}

/// Stores the grant for the seat of the oldest record. An `unlock` ends with it; a `start_wait` then stores its own wake word.
#[inline(always)]
fn grant<T: Kept>(
    mutex: &Mutex<T>,
    seat: &mut Seat<T>,
    releaser: Releaser,
    oldest: Record,
) -> (Unlocked, Option<WakeUp>)
    requires belongs { AtTableOf seat.old mutex.now }
    requires stands { seat.old.state.point ≡ GrantWakeStore (CarrierNow.Releaser releaser) oldest }
    requires flat { seat.old.state.depth ≡ 0 }
    ensures finishes { FinishesAs T.follows T.fits seat.old (release_turn releaser result.0) result.1 seat.new }
    ensures bounded { WithinWeight seat.old seat.new }
{
    let table = &mutex.table;
    let Record { seat: next, stamp } = oldest;
    let mut state = SeatState {
        depth: 0,
        point: Point::GrantWakeStore(Carrier::Releaser(releaser), Record { seat: next, stamp }),
        ..seat.state
    };
    let wake_up = store_grant(table, &mut seat.table_seat, &state);
    match releaser {
        Releaser::Unlocker => {
            seat.state.point = Point::Rest;
            (Unlocked::Granted(next), wake_up)
        }
        Releaser::Waiter => {
            state.point = Point::WaitWakeStore(Unlocked::Granted(next));
            keep::<WakeStore, T>(table, &mut seat.table_seat, &state);
            seat.state.point = Point::Asleep(Sleeper::Waiter);
            (Unlocked::Granted(next), wake_up)
        }
    }
}

/// Clears the push list. If the list had one record, that is the oldest, and it is served. If it had none, a seat is counted
/// and not queued yet, and the release posts. If it had more, the oldest is found last, after one load for each record: the
/// slow path does that.
#[inline(always)]
fn serve_pushed<T: Kept>(
    mutex: &Mutex<T>,
    seat: &mut Seat<T>,
    releaser: Releaser,
) -> (Unlocked, Option<WakeUp>)
    requires belongs { AtTableOf seat.old mutex.now }
    requires stands { seat.old.state.point ≡ TakeClearHead (CarrierNow.Releaser releaser) }
    requires flat { seat.old.state.depth ≡ 0 }
    ensures finishes { FinishesAs T.follows T.fits seat.old (release_turn releaser result.0) result.1 seat.new }
    ensures bounded { WithinWeight seat.old seat.new }
{
    let table = &mutex.table;
    let carrier = Carrier::Releaser(releaser);
    let mut state = SeatState {
        depth: 0,
        point: Point::TakeClearHead(carrier),
        ..seat.state
    };
    let push = keep_held::<ClearHead, T>(table, &mut seat.table_seat, &state);
    let next = unpack_link(push).next;
    if next == 0 {
        seat.state.point = Point::ReleaseHandoffStore(releaser);
        return finish_release(mutex, seat, releaser);
    }
    state.point = Point::TakeLinkLoad(carrier, next);
    let word = collect(table, &mut seat.table_seat, &state);
    let link = unpack_link(word);
    if link.next != 0 {
        seat.state.point = Point::TakeLinkLoad(carrier, link.next);
        return finish_release(mutex, seat, releaser);
    }
    let stamp = link.stamp;
    let next = SeatNo::known(next);
    seat.state.point = Point::GrantWakeStore(carrier, Record { seat: next, stamp });
    grant(mutex, seat, releaser, Record { seat: next, stamp })
}

/// Finishes an open release that found others in the count.
#[inline(always)]
pub(crate) fn serve<T: Kept>(
    mutex: &Mutex<T>,
    seat: &mut Seat<T>,
    releaser: Releaser,
) -> (Unlocked, Option<WakeUp>)
    requires belongs { AtTableOf seat.old mutex.now }
    requires stands { seat.old.state.point ≡ take (CarrierNow.Releaser releaser) 0 (oldest_in seat.old.table_seat.moving) }
    requires flat { seat.old.state.depth ≡ 0 }
    ensures finishes { FinishesAs T.follows T.fits seat.old (release_turn releaser result.0) result.1 seat.new }
    ensures bounded { WithinWeight seat.old seat.new }
{
    match oldest_of(&seat.table_seat.moving) {
        Some(oldest) => grant(mutex, seat, releaser, oldest),
        None => serve_pushed(mutex, seat, releaser),
    }
}
