//! The sixteen atomic operations on packed words, one for each kind of step. `access` states what an operation does to which
//! word. `operate` of `shared_table` performs it, under one contract for all kinds, and returns the number that it found or
//! stored. No function here changes the seat's state.
//!
//! The contracts refer to every argument, but an operation reads only what it needs. The operations are inlined, so the
//! compiler drops the rest of the state that a caller builds for one step.
ghost use Rattle.std.specs.Prelude.{◌≡◌, ◌≤◌, ℕ, Some};
ghost use Rattle.lfm_protocol.specs.declared.kinds.Kind.{Kind as KindNow};
ghost use Rattle.lfm_protocol.specs.Limits.{max_seats};
ghost use Rattle.lfm_protocol.specs.Points.{kind as kind_of, target};
ghost use Rattle.lfm_laws.specs.table.Ready.{IsReady};
ghost use Rattle.lfm_laws.specs.table.Words.{index_by, written_by};
ghost use Rattle.lfm_table.specs.Accesses.{becomes, is_store, word_at};
ghost use Rattle.lfm_table.specs.Grants.{granted_at};
ghost use Rattle.lfm_table.specs.Rule.{Advanced, value_in};
ghost use Rattle.lfm_table.specs.Steps.{CanMake, stores};
ghost use Rattle.lfm_table.specs.FastPath.{KeepsNumberAndLimits};

use crate::kept::Kept;
use crate::layout::{COUNT, HANDOFF, OWNER, PUSH, link_at, wake_at};
use crate::rule::Plain;
use crate::shared_table::SharedTable;
use crate::shared_table::operate::operate;
use crate::table_seat::TableSeat;
use crate::wake_up::WakeUp;
use lfm_protocol::SeatState;
use lfm_protocol::kinds::Kind;
use lfm_words::{Wake, pack_handoff, pack_link};

/// All bits of the push word except the head.
const STAMP: u64 = 0xffff_ffff_ffff_0000;

/// One atomic access to the word at this index of the table.
#[derive(Clone, Copy)]
pub enum Access {
    /// Loads the word.
    Load(usize),

    /// Stores this number.
    Store(usize, u64),

    /// Adds this number.
    FetchAdd(usize, u64),

    /// Subtracts this number.
    FetchSub(usize, u64),

    /// Clears each bit that is 0 in this number.
    FetchAnd(usize, u64),

    /// Stores the second number if the word holds the first.
    CompareExchange(usize, u64, u64),
}

/// The operation of one kind of step. An implementation only names the access, and `operate` performs it. The reason: the
/// checker cannot yet prove a function of an `impl` that passes on a type which is `Send` by a bound, as `T: Kept` is.
pub trait Operation {
    /// The kind.
    ghost kind: { KindNow };

    /// The access of the seat with this number, in a mutex with this many seats. The seat's point is of this kind.
    fn access(state: &SeatState, number: u64, seats: u64) -> Access
        requires is_next { kind_of state.now.point ≡ Some kind }
        requires ready { IsReady seats number state.now }
        requires few { seats ≤ max_seats }
        ensures word { word_at result ≡ index_by seats (target state.now.point number) (Some kind) }
        ensures becomes { (n : ℕ) → becomes result n ≡ written_by state.now number n (Some kind) }
        ensures stores { is_store result ≡ stores (Some kind) };
}

/// Compare-and-exchange of the count from 0 to 1.
pub struct CountExchange;

impl Operation for CountExchange {
    ghost kind = { KindNow.CountExchange };

    #[inline(always)]
    fn access(_state: &SeatState, _number: u64, _seats: u64) -> Access {
        Access::CompareExchange(COUNT, 0, 1)
    }
}

/// Adds 1 to the count.
pub struct CountAdd;

impl Operation for CountAdd {
    ghost kind = { KindNow.CountAdd };

    #[inline(always)]
    fn access(_state: &SeatState, _number: u64, _seats: u64) -> Access {
        Access::FetchAdd(COUNT, 1)
    }
}

/// Subtracts 1 from the count.
pub struct CountSubtract;

impl Operation for CountSubtract {
    ghost kind = { KindNow.CountSubtract };

    #[inline(always)]
    fn access(_state: &SeatState, _number: u64, _seats: u64) -> Access {
        Access::FetchSub(COUNT, 1)
    }
}

/// Loads the owner.
pub struct OwnerLoad;

impl Operation for OwnerLoad {
    ghost kind = { KindNow.OwnerLoad };

    #[inline(always)]
    fn access(_state: &SeatState, _number: u64, _seats: u64) -> Access {
        Access::Load(OWNER)
    }
}

/// Stores the owner.
pub struct OwnerStore;

impl Operation for OwnerStore {
    ghost kind = { KindNow.OwnerStore };

    #[inline(always)]
    fn access(state: &SeatState, number: u64, _seats: u64) -> Access {
        Access::Store(OWNER, state.stored_owner(number))
    }
}

/// Loads the push word.
pub struct PushLoad;

impl Operation for PushLoad {
    ghost kind = { KindNow.PushLoad };

    #[inline(always)]
    fn access(_state: &SeatState, _number: u64, _seats: u64) -> Access {
        Access::Load(PUSH)
    }
}

/// Compare-and-exchange of the push word: from the word that the seat loaded to the one with the new head.
pub struct PushExchange;

impl Operation for PushExchange {
    ghost kind = { KindNow.PushExchange };

    #[inline(always)]
    fn access(state: &SeatState, number: u64, _seats: u64) -> Access {
        let seen = state.expected_push();
        let head = state.exchanged_push(number);
        let expected = pack_link(seen.stamp, seen.next);
        Access::CompareExchange(PUSH, expected, pack_link(head.stamp, head.next))
    }
}

/// Clears the head of the push word. The stamp stays.
pub struct ClearHead;

impl Operation for ClearHead {
    ghost kind = { KindNow.ClearHead };

    #[inline(always)]
    fn access(_state: &SeatState, _number: u64, _seats: u64) -> Access {
        Access::FetchAnd(PUSH, STAMP)
    }
}

/// Loads the link word of the point's target.
pub struct LinkLoad;

impl Operation for LinkLoad {
    ghost kind = { KindNow.LinkLoad };

    #[inline(always)]
    fn access(state: &SeatState, number: u64, _seats: u64) -> Access {
        Access::Load(link_at(state.point.target(number)))
    }
}

/// Stores the link of the seat that is being pushed.
pub struct LinkStore;

impl Operation for LinkStore {
    ghost kind = { KindNow.LinkStore };

    #[inline(always)]
    fn access(state: &SeatState, number: u64, _seats: u64) -> Access {
        let link = state.stored_link();
        let word = link_at(state.point.target(number));
        Access::Store(word, pack_link(link.stamp, link.next))
    }
}

/// Loads the handoff word.
pub struct HandoffLoad;

impl Operation for HandoffLoad {
    ghost kind = { KindNow.HandoffLoad };

    #[inline(always)]
    fn access(_state: &SeatState, _number: u64, _seats: u64) -> Access {
        Access::Load(HANDOFF)
    }
}

/// Stores the handoff word.
pub struct HandoffStore;

impl Operation for HandoffStore {
    ghost kind = { KindNow.HandoffStore };

    #[inline(always)]
    fn access(state: &SeatState, number: u64, _seats: u64) -> Access {
        let handoff = state.stored_handoff(number);
        Access::Store(HANDOFF, pack_handoff(handoff.seat, handoff.post))
    }
}

/// Compare-and-exchange of the handoff word: from the post that the seat expects to none.
pub struct HandoffExchange;

impl Operation for HandoffExchange {
    ghost kind = { KindNow.HandoffExchange };

    #[inline(always)]
    fn access(state: &SeatState, number: u64, _seats: u64) -> Access {
        let handoff = state.expected_handoff(number);
        let expected = pack_handoff(handoff.seat, handoff.post);
        Access::CompareExchange(HANDOFF, expected, 0)
    }
}

/// Loads the wake word of this seat.
pub struct WakeLoad;

impl Operation for WakeLoad {
    ghost kind = { KindNow.WakeLoad };

    #[inline(always)]
    fn access(state: &SeatState, number: u64, seats: u64) -> Access {
        let target = state.point.target(number);
        Access::Load(wake_at(seats, target))
    }
}

/// Stores the wake word of the point's target.
pub struct WakeStore;

impl Operation for WakeStore {
    ghost kind = { KindNow.WakeStore };

    #[inline(always)]
    fn access(state: &SeatState, number: u64, seats: u64) -> Access {
        let target = state.point.target(number);
        let word = wake_at(seats, target);
        Access::Store(word, state.stored_wake().to_word())
    }
}

/// Compare-and-exchange of the target's wake word, from WAITING to CLAIMED.
pub struct WakeExchange;

impl Operation for WakeExchange {
    ghost kind = { KindNow.WakeExchange };

    #[inline(always)]
    fn access(state: &SeatState, number: u64, seats: u64) -> Access {
        let target = state.point.target(number);
        let word = wake_at(seats, target);
        Access::CompareExchange(word, Wake::Waiting.to_word(), Wake::Claimed.to_word())
    }
}

/// Like `operate`, for the operation of this kind.
#[inline(always)]
fn operate_by_kind<T: Kept, B: Plain<T>>(
    kind: Kind,
    table: &SharedTable<T>,
    seat: &mut TableSeat<T>,
    state: &SeatState,
) -> u64
    requires plain { (B.state ≡ state.now) × (B.hand ≡ value_in seat.old.moving) }
    requires table { seat.old.place.table_id ≡ table.now.table_id }
    requires can { CanMake T.follows T.fits state.now (value_in seat.old.moving) seat.old.number seat.old.limits.seats table.now.table_id.words seat.old.place.me }
    requires is_next { kind_of state.now.point ≡ Some kind }
    ensures table { (seat.new.place.table_id ≡ seat.old.place.table_id) × (seat.new.place.id ≡ seat.old.place.id) }
    ensures same { KeepsNumberAndLimits seat.old seat.new }
    ensures moving { seat.new.moving ≡ seat.old.moving }
    ensures step { Advanced T.follows T.fits state.now (value_in seat.old.moving) seat.old.place.me result seat.new.place.me }
{
    match kind {
        Kind::CountExchange => operate::<CountExchange, T, B>(table, seat, state),
        Kind::CountAdd => operate::<CountAdd, T, B>(table, seat, state),
        Kind::CountSubtract => operate::<CountSubtract, T, B>(table, seat, state),
        Kind::OwnerLoad => operate::<OwnerLoad, T, B>(table, seat, state),
        Kind::OwnerStore => operate::<OwnerStore, T, B>(table, seat, state),
        Kind::PushLoad => operate::<PushLoad, T, B>(table, seat, state),
        Kind::PushExchange => operate::<PushExchange, T, B>(table, seat, state),
        Kind::ClearHead => operate::<ClearHead, T, B>(table, seat, state),
        Kind::LinkLoad => operate::<LinkLoad, T, B>(table, seat, state),
        Kind::LinkStore => operate::<LinkStore, T, B>(table, seat, state),
        Kind::HandoffLoad => operate::<HandoffLoad, T, B>(table, seat, state),
        Kind::HandoffStore => operate::<HandoffStore, T, B>(table, seat, state),
        Kind::HandoffExchange => operate::<HandoffExchange, T, B>(table, seat, state),
        Kind::WakeLoad => operate::<WakeLoad, T, B>(table, seat, state),
        Kind::WakeStore => operate::<WakeStore, T, B>(table, seat, state),
        Kind::WakeExchange => operate::<WakeExchange, T, B>(table, seat, state),
    }
}

/// Makes the atomic step at the seat's point, which is of this kind. Returns the number that it found or stored, and a wake-up
/// if it stored a grant.
pub fn make_step<T: Kept, B: Plain<T>>(
    kind: Kind,
    table: &SharedTable<T>,
    seat: &mut TableSeat<T>,
    state: &SeatState,
) -> (u64, Option<WakeUp>)
    requires plain { (B.state ≡ state.now) × (B.hand ≡ value_in seat.old.moving) }
    requires table { seat.old.place.table_id ≡ table.now.table_id }
    requires can { CanMake T.follows T.fits state.now (value_in seat.old.moving) seat.old.number seat.old.limits.seats table.now.table_id.words seat.old.place.me }
    requires is_next { kind_of state.now.point ≡ Some kind }
    ensures table { (seat.new.place.table_id ≡ seat.old.place.table_id) × (seat.new.place.id ≡ seat.old.place.id) }
    ensures same { KeepsNumberAndLimits seat.old seat.new }
    ensures moving { seat.new.moving ≡ seat.old.moving }
    ensures step { Advanced T.follows T.fits state.now (value_in seat.old.moving) seat.old.place.me result.0 seat.new.place.me }
    ensures wakes { result.1 ≡ granted_at state.now.point }
{
    let seat_number = seat.number;
    let found = operate_by_kind::<T, B>(kind, table, seat, state);
    match kind {
        Kind::WakeStore => (found, WakeUp::owed_by(seat_number, state)),
        _ => (found, None),
    }
}
