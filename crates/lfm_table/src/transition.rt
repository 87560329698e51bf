//! What a step does in the seat's own memory, except for the slot: which record it takes from or adds to the pop list that the
//! seat carries, and how the seat's state advances. Only the methods of the core change the state.
ghost use Rattle.std.specs.Prelude.{◌≡◌, ◌<◌, Some, length};
ghost use Rattle.lfm_model.specs.SeatNumbers.{IsSeatNo};
ghost use Rattle.lfm_protocol.specs.declared.kinds.Kind.{Kind};
ghost use Rattle.lfm_protocol.specs.Points.{kind, target};
ghost use Rattle.lfm_protocol.specs.Room.{HasNumbers};
ghost use Rattle.lfm_laws.specs.table.Words.{stepped_by};
ghost use Rattle.lfm_table.specs.declared.rule.Moving.{Moving};
ghost use Rattle.lfm_table.specs.Steps.{dropped, with_record, oldest_in};

use crate::moving_box::MovingBox;
use lfm_model::SeatNo;
use lfm_protocol::kinds::Kind;
use lfm_protocol::{SeatState, Turn, Why};
use lfm_words::{Record, Wake, unpack_handoff, unpack_link};

/// The oldest record of the pop list, if the seat carries the list.
pub fn oldest_of<T: Drop>(moving: &Option<MovingBox<T>>) -> Option<Record>
    ensures { result ≡ oldest_in moving.now }
{
    match moving {
        Some(moving) => moving.oldest(),
        None => None,
    }
}

/// Takes the oldest record out of the pop list if the step at the seat's point serves it.
pub fn drop_oldest<T: Drop>(moving: &mut Option<MovingBox<T>>, state: &SeatState)
    ensures { moving.new ≡ dropped state.now moving.old }
{
    if !state.drops_oldest() {
        return;
    }
    match moving {
        Some(moving) => moving.drop_oldest(),
        None => {}
    }
}

/// Adds the record of a link that was loaded to the pop list.
pub fn add_loaded<T: Drop>(
    moving: &mut Option<MovingBox<T>>,
    number: u64,
    state: &SeatState,
    found: u64,
)
    requires target { IsSeatNo (target state.now.point number) }
    requires room { kind state.now.point ≡ Some Kind.LinkLoad → (x : Moving T) → moving.old ≡ Some x → length x.popped.records < x.popped.room }
    ensures { moving.new ≡ with_record state.now number found moving.old }
{
    if state.point.kind() != Some(Kind::LinkLoad) {
        return;
    }
    let target = SeatNo::known(state.point.target(number));
    match moving {
        Some(moving) => moving.add_older(target, unpack_link(found).stamp),
        None => {}
    }
}

/// Advances the seat's state by what its step found, with the core's method of that kind.
pub fn advance(state: &mut SeatState, number: u64, found: u64, oldest: Option<Record>) -> Turn
    requires { HasNumbers state.old state.old.point }
    ensures seat { state.new ≡ (stepped_by state.old number found oldest).seat }
    ensures turn { result ≡ (stepped_by state.old number found oldest).turn }
{
    match state.point.kind() {
        None => Turn::Refused(Why::Idle),
        Some(Kind::CountExchange) => state.after_count_exchange(found),
        Some(Kind::CountAdd) => state.after_count_add(found),
        Some(Kind::CountSubtract) => state.after_count_subtract(number, found, oldest),
        Some(Kind::OwnerLoad) => state.after_owner_load(number, found),
        Some(Kind::OwnerStore) => state.after_owner_store(),
        Some(Kind::PushLoad) => state.after_push_load(unpack_link(found)),
        Some(Kind::PushExchange) => state.after_push_exchange(unpack_link(found)),
        Some(Kind::ClearHead) => state.after_clear_head(unpack_link(found)),
        Some(Kind::LinkLoad) => state.after_link_load(number, unpack_link(found)),
        Some(Kind::LinkStore) => state.after_link_store(),
        Some(Kind::HandoffLoad) => state.after_handoff_load(unpack_handoff(found)),
        Some(Kind::HandoffStore) => state.after_handoff_store(),
        Some(Kind::HandoffExchange) => {
            state.after_handoff_exchange(number, unpack_handoff(found), oldest)
        }
        Some(Kind::WakeLoad) => state.after_wake_load(Wake::of_any_word(found)),
        Some(Kind::WakeStore) => state.after_wake_store(),
        Some(Kind::WakeExchange) => state.after_wake_exchange(Wake::of_any_word(found)),
    }
}
