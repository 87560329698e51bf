//! How the guarded value is put into the slot of the table and taken out again. Only here could a value get lost: one seat at a
//! time has it, and between two such seats it is in the slot.
//!
//! A step that may give the value away puts it into the slot before the word is written, since the next owner may take it as
//! soon as the word is written. A step that gains the value takes it out after it has read the word. If a step has put the
//! value into the slot and has not given it away, it takes it out again. On the slow path `carries_after` returns whether the
//! seat has the value after its step. A step of a fast path decides this by the number that it found.
ghost use Rattle.std.specs.Prelude.{◌≡◌, ◌∷◌, Option, None, true, false};
ghost use Rattle.atomic_table.specs.Table.{rest};
ghost use Rattle.lfm_laws.specs.table.Carried.{carries_value};
ghost use Rattle.lfm_laws.specs.table.Words.{stepped_by};
ghost use Rattle.lfm_table.specs.declared.rule.Moving.{Moving};
ghost use Rattle.lfm_table.specs.Rule.{is_carried};
ghost use Rattle.lfm_table.specs.Steps.{gives_at, kept_out, put_in, Took};
ghost use Rattle.lfm_table.specs.FastPath.{KeepsNumberAndLimits};

use crate::kept::Kept;
use crate::layout::SLOT;
use crate::moving_box::MovingBox;
use crate::shared_table::SharedTable;
use crate::table_seat::TableSeat;
use lfm_protocol::SeatState;
use lfm_protocol::points::Point;
use lfm_words::{Wake, unpack_handoff};

/// Whether a step at this point may give the value away.
pub fn gives(point: Point) -> bool
    ensures { result ≡ gives_at point }
{
    matches!(
        point,
        Point::ReleaseCountSubtract(_)
            | Point::ReleaseHandoffStore(_)
            | Point::GrantWakeStore(_, _)
            | Point::SendWakeStore(_)
    )
}

/// Whether the seat carries the value after its step, which found this number. It is called before the seat's state is
/// advanced. A seat that carries the value still carries it afterwards unless the step gives it away (see `gives`). A seat that
/// doesn't carry it gains it only by what it found: a count of 0, a grant, a post that it wins, or itself as the owner.
pub fn carries_after(state: &SeatState, number: u64, found: u64) -> bool
    ensures { result ≡ carries_value (stepped_by state.now number found None).seat }
{
    if state.depth != 0 {
        return true;
    }
    match state.point {
        Point::LockCountAdd | Point::TryCountExchange | Point::SendCountAdd(_) => found == 0,
        Point::ReleaseCountSubtract(_) => found != 1,
        Point::ReceiveWakeLoad(_) => Wake::is_grant_word(found),
        Point::TryOwnerLoad => found == number,
        Point::TryHandoffExchange(_)
        | Point::PushedHandoffExchange(_, _)
        | Point::ReleaseHandoffExchange(_) => {
            unpack_handoff(found) == state.expected_handoff(number)
        }
        Point::ReleaseOwnerStore(_)
        | Point::LockCountSubtract
        | Point::TryCountAdd
        | Point::TakeClearHead(_)
        | Point::TakeLinkLoad(_, _)
        | Point::EnterOwnerStore(_, _)
        | Point::ReceiveWakeStore(_) => true,
        _ => false,
    }
}

/// Replaces what the seat has in hand. The assignment also drops the old content, if there is any. It has its own function, so
/// that its callers are not proved once for each case.
fn put<T: Drop>(moving: &mut Option<MovingBox<T>>, new: Option<MovingBox<T>>)
    ensures { moving.new ≡ new }
{
    *moving = new;
}

/// Puts this content, if any, into the slot.
#[inline(always)]
fn put_back<T: Kept>(table: &SharedTable<T>, seat: &mut TableSeat<T>, moving: Option<MovingBox<T>>)
    requires table { seat.old.place.table_id ≡ table.now.table_id }
    requires slot { (x : Option (Moving T)) × (seat.old.place.me.1 ≡ (0, x) ∷ rest seat.old.place.me.1) }
    ensures table { (seat.new.place.table_id ≡ seat.old.place.table_id) × (seat.new.place.id ≡ seat.old.place.id) }
    ensures same { KeepsNumberAndLimits seat.old seat.new }
    ensures moving { seat.new.moving ≡ seat.old.moving }
    ensures slot { seat.new.place.me ≡ (seat.old.place.me.0, (0, moving) ∷ rest seat.old.place.me.1) }
{
    table.exchange(&mut seat.place, SLOT, moving);
}

/// Puts the value that the seat carries into the slot.
#[inline(always)]
pub(crate) fn put_out<T: Kept>(table: &SharedTable<T>, seat: &mut TableSeat<T>)
    requires table { seat.old.place.table_id ≡ table.now.table_id }
    requires slot { (x : Option (Moving T)) × (seat.old.place.me.1 ≡ (0, x) ∷ rest seat.old.place.me.1) }
    ensures table { (seat.new.place.table_id ≡ seat.old.place.table_id) × (seat.new.place.id ≡ seat.old.place.id) }
    ensures same { KeepsNumberAndLimits seat.old seat.new }
    ensures moving { seat.new.moving ≡ None }
    ensures slot { seat.new.place.me ≡ (seat.old.place.me.0, (0, seat.old.moving) ∷ rest seat.old.place.me.1) }
{
    let value = seat.moving.take();
    put_back(table, seat, value);
}

/// Takes the value out of the slot. The seat doesn't have it yet.
#[inline(always)]
pub(crate) fn take_out<T: Kept>(table: &SharedTable<T>, seat: &mut TableSeat<T>)
    requires table { seat.old.place.table_id ≡ table.now.table_id }
    requires slot { (x : Option (Moving T)) × (seat.old.place.me.1 ≡ (0, x) ∷ rest seat.old.place.me.1) }
    ensures table { (seat.new.place.table_id ≡ seat.old.place.table_id) × (seat.new.place.id ≡ seat.old.place.id) }
    ensures same { KeepsNumberAndLimits seat.old seat.new }
    ensures took { (seat.old.place.me.1 ≡ (0, seat.new.moving) ∷ rest seat.old.place.me.1) × (seat.new.place.me ≡ (seat.old.place.me.0, (0, None) ∷ rest seat.old.place.me.1)) }
{
    let taken = table.exchange(&mut seat.place, SLOT, None);
    put(&mut seat.moving, taken);
}

/// Puts the value into the slot if the step may give it away.
pub fn prepare<T: Kept>(table: &SharedTable<T>, seat: &mut TableSeat<T>, gives: bool)
    requires table { seat.old.place.table_id ≡ table.now.table_id }
    requires slot { gives ≡ true → (x : Option (Moving T)) × (seat.old.place.me.1 ≡ (0, x) ∷ rest seat.old.place.me.1) }
    ensures table { (seat.new.place.table_id ≡ seat.old.place.table_id) × (seat.new.place.id ≡ seat.old.place.id) }
    ensures same { KeepsNumberAndLimits seat.old seat.new }
    ensures moving { seat.new.moving ≡ kept_out gives seat.old.moving }
    ensures slot { seat.new.place.me ≡ (seat.old.place.me.0, put_in gives seat.old.moving seat.old.place.me.1) }
{
    if !gives {
        return;
    }
    let value = seat.moving.take();
    put_back(table, seat, value);
}

/// Takes the value out of the slot if the seat carries it after its step and doesn't have it yet. Whether it has it is tested
/// first, since that costs less than `carries_after`.
pub fn settle<T: Kept>(
    table: &SharedTable<T>,
    seat: &mut TableSeat<T>,
    state: &SeatState,
    found: u64,
)
    requires table { seat.old.place.table_id ≡ table.now.table_id }
    requires slot { is_carried seat.old.moving ≡ false → carries_value (stepped_by state.now seat.old.number found None).seat ≡ true → (x : Option (Moving T)) × (seat.old.place.me.1 ≡ (0, x) ∷ rest seat.old.place.me.1) }
    ensures table { (seat.new.place.table_id ≡ seat.old.place.table_id) × (seat.new.place.id ≡ seat.old.place.id) }
    ensures same { KeepsNumberAndLimits seat.old seat.new }
    ensures took { Took (is_carried seat.old.moving) (carries_value (stepped_by state.now seat.old.number found None).seat) seat.old.moving seat.old.place.me seat.new.moving seat.new.place.me }
{
    if seat.moving.is_some() {
        return;
    }
    if !carries_after(state, seat.number, found) {
        return;
    }
    let taken = table.exchange(&mut seat.place, SLOT, None);
    put(&mut seat.moving, taken);
}
