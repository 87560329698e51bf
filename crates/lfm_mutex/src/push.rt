//! Pushes a record: that of the locker itself, or that of the target of a `send_lock`. Fast path: the push word has not changed
//! since it was loaded, and no handoff is posted. Everything else is the slow path (`calls::finish`).
ghost use Rattle.std.specs.Prelude.{◌≡◌};
ghost use Rattle.lfm_protocol.specs.declared.points.Point.TheVariants.{PushLoad};
ghost use Rattle.lfm_table.specs.FastPath.{IsBetweenSteps, KeepsNumberAndLimits};
ghost use Rattle.lfm_mutex.specs.calls.Pushes.{PushLeadsTo, push_end};

use crate::stops::PushStop;
use lfm_protocol::SeatState;
use lfm_protocol::points::{Point, Pusher};
use lfm_table::shared_table::SharedTable;
use lfm_table::table_steps::keep;
use lfm_table::{Kept, TableSeat, operations};
use lfm_words::{Handoff, unpack_link};

/// How a push has ended.
pub(crate) enum Pushed {
    /// The record is queued, and no handoff is posted. The call has ended: a locker sleeps, and a sender has sent.
    Queued,
    /// The slow path continues at the point of this stop (`stop_at_push`).
    Stopped(PushStop),
}

/// Pushes a record and loads the handoff word. It stores no point: the caller does that.
#[inline(always)]
pub(crate) fn push<T: Kept>(
    table: &SharedTable<T>,
    seat: &mut TableSeat<T>,
    state: &SeatState,
    pusher: Pusher,
) -> Pushed
    requires belongs { seat.old.place.table_id ≡ table.now.table_id }
    requires fit { IsBetweenSteps seat.old state.now }
    requires stands { state.now.point ≡ PushLoad pusher }
    ensures belongs { seat.new.place.table_id ≡ seat.old.place.table_id }
    ensures same { KeepsNumberAndLimits seat.old seat.new }
    ensures fit { IsBetweenSteps seat.new (push_end result state.now pusher).seat }
    ensures made { PushLeadsTo T.follows T.fits seat.old state.now (push_end result state.now pusher) seat.new }
{
    let mut at = SeatState {
        point: Point::PushLoad(pusher),
        ..*state
    };
    let word = keep::<operations::PushLoad, T>(table, seat, &at);
    let seen = unpack_link(word);
    at.point = Point::LinkStore(pusher, seen);
    keep::<operations::LinkStore, T>(table, seat, &at);
    at.point = Point::PushExchange(pusher, seen);
    let found = keep::<operations::PushExchange, T>(table, seat, &at);
    if found != word {
        return Pushed::Stopped(PushStop::Changed(found));
    }
    at.point = Point::PushedHandoffLoad(pusher);
    let handoff = keep::<operations::HandoffLoad, T>(table, seat, &at);
    if Handoff::is_posted_in(handoff) {
        return Pushed::Stopped(PushStop::Posted(handoff));
    }
    Pushed::Queued
}
