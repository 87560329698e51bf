//! The atomic steps of the fast paths, named by what happens to the guarded value. A fast path rarely stores a point. It builds
//! the seat's state at the step's point and passes it. After inlining, only the fields that the step reads are left. The proof
//! needs the other fields. Each function except `store_grant` returns the number that its step found, or stored if it is a
//! store.
//!
//! An atomic step waits for the plain writes before it. Therefore a fast path makes its plain writes together, between two
//! steps between which it moves the value anyway, since that takes plain writes too.
ghost use Rattle.std.specs.Prelude.{◌≡◌, ◌≢◌, ◌<◌, ◌≤◌, ℕ, Some, None, true, false};
ghost use Rattle.lfm_protocol.specs.declared.kinds.Kind.{Kind as KindNow};
ghost use Rattle.lfm_protocol.specs.declared.points.Point.TheVariants.{ReleaseOwnerStore};
ghost use Rattle.lfm_protocol.specs.declared.points.Releaser.{Releaser};
ghost use Rattle.lfm_protocol.specs.After.{drops_oldest};
ghost use Rattle.lfm_protocol.specs.Points.{kind as kind_of};
ghost use Rattle.lfm_laws.specs.table.Carried.{carries_value};
ghost use Rattle.lfm_laws.specs.table.Words.{stepped_by};
ghost use Rattle.lfm_table.specs.Grants.{granted_at};
ghost use Rattle.lfm_table.specs.Steps.{gives_at, MayBeLeft};
ghost use Rattle.lfm_table.specs.FastPath.{IsBetweenSteps, KeepsNumberAndLimits, StepMade};

use crate::kept::Kept;
use crate::operations::{CountSubtract, LinkLoad, Operation, OwnerLoad, WakeLoad, WakeStore};
use crate::shared_table::SharedTable;
use crate::shared_table::operate::operate;
use crate::slot::{put_out, take_out};
use crate::table_seat::TableSeat;
use crate::transition::{add_loaded, drop_oldest};
use crate::wake_up::WakeUp;
use lfm_protocol::SeatState;
use lfm_words::Wake;
use std::marker::Brand;

/// Makes a step after which the seat carries the value exactly if it did before. The step changes only the word: it adds no
/// record to the pop list, removes none, and gives no value away.
#[inline(always)]
pub fn keep<O: Operation, T: Kept>(
    table: &SharedTable<T>,
    seat: &mut TableSeat<T>,
    state: &SeatState,
) -> u64
    requires table { seat.old.place.table_id ≡ table.now.table_id }
    requires fit { IsBetweenSteps seat.old state.now }
    requires is_next { kind_of state.now.point ≡ Some O.kind }
    requires moves_nothing { (O.kind ≢ KindNow.LinkLoad) × (drops_oldest state.now ≡ false) × (gives_at state.now.point ≡ false) }
    requires leaves { (r : Releaser) → state.now.point ≡ ReleaseOwnerStore r → MayBeLeft T.follows T.fits seat.old.moving seat.old.place.me.0 }
    requires stays { (n : ℕ) → carries_value (stepped_by state.now seat.old.number n None).seat ≡ carries_value state.now }
    ensures table { seat.new.place.table_id ≡ seat.old.place.table_id }
    ensures same { KeepsNumberAndLimits seat.old seat.new }
    ensures moving { seat.new.moving ≡ seat.old.moving }
    ensures step { StepMade T.follows T.fits seat.old state.now result seat.new }
{
    operate::<O, T, Brand>(table, seat, state)
}

/// Like `keep`, for a seat that carries the value and still carries it afterwards.
#[inline(always)]
pub fn keep_held<O: Operation, T: Kept>(
    table: &SharedTable<T>,
    seat: &mut TableSeat<T>,
    state: &SeatState,
) -> u64
    requires table { seat.old.place.table_id ≡ table.now.table_id }
    requires fit { IsBetweenSteps seat.old state.now }
    requires is_next { kind_of state.now.point ≡ Some O.kind }
    requires moves_nothing { (O.kind ≢ KindNow.LinkLoad) × (drops_oldest state.now ≡ false) × (gives_at state.now.point ≡ false) }
    requires leaves { (r : Releaser) → state.now.point ≡ ReleaseOwnerStore r → MayBeLeft T.follows T.fits seat.old.moving seat.old.place.me.0 }
    requires held { carries_value state.now ≡ true }
    ensures table { seat.new.place.table_id ≡ seat.old.place.table_id }
    ensures same { KeepsNumberAndLimits seat.old seat.new }
    ensures moving { seat.new.moving ≡ seat.old.moving }
    ensures step { StepMade T.follows T.fits seat.old state.now result seat.new }
{
    keep::<O, T>(table, seat, state)
}

/// Loads the owner for a seat that doesn't hold. It finds another number than its own, and has no value afterwards.
#[inline(always)]
pub fn load_other_owner<T: Kept>(
    table: &SharedTable<T>,
    seat: &mut TableSeat<T>,
    state: &SeatState,
) -> u64
    requires table { seat.old.place.table_id ≡ table.now.table_id }
    requires fit { IsBetweenSteps seat.old state.now }
    requires is_next { kind_of state.now.point ≡ Some KindNow.OwnerLoad }
    requires flat { state.now.depth ≡ 0 }
    requires free { carries_value state.now ≡ false }
    requires idles { (n : ℕ) → n ≢ seat.old.number → carries_value (stepped_by state.now seat.old.number n None).seat ≡ false }
    ensures other { result ≢ seat.old.number }
    ensures table { seat.new.place.table_id ≡ seat.old.place.table_id }
    ensures same { KeepsNumberAndLimits seat.old seat.new }
    ensures moving { seat.new.moving ≡ seat.old.moving }
    ensures step { StepMade T.follows T.fits seat.old state.now result seat.new }
{
    operate::<OwnerLoad, T, Brand>(table, seat, state)
}

/// Makes a step of a seat that doesn't carry the value. Afterwards it carries the value exactly if it found 0.
#[inline(always)]
pub fn gain<O: Operation, T: Kept>(
    table: &SharedTable<T>,
    seat: &mut TableSeat<T>,
    state: &SeatState,
) -> u64
    requires table { seat.old.place.table_id ≡ table.now.table_id }
    requires fit { IsBetweenSteps seat.old state.now }
    requires is_next { kind_of state.now.point ≡ Some O.kind }
    requires moves_nothing { (O.kind ≢ KindNow.LinkLoad) × (drops_oldest state.now ≡ false) × (gives_at state.now.point ≡ false) }
    requires ends_no_hold { O.kind ≢ KindNow.OwnerStore }
    requires free { carries_value state.now ≡ false }
    requires gains { carries_value (stepped_by state.now seat.old.number 0 None).seat ≡ true }
    requires idles { (n : ℕ) → n ≢ 0 → carries_value (stepped_by state.now seat.old.number n None).seat ≡ false }
    ensures table { seat.new.place.table_id ≡ seat.old.place.table_id }
    ensures same { KeepsNumberAndLimits seat.old seat.new }
    ensures step { StepMade T.follows T.fits seat.old state.now result seat.new }
{
    let found = operate::<O, T, Brand>(table, seat, state);
    if found != 0 {
        return found;
    }
    take_out(table, seat);
    0
}

/// Loads the seat's own wake word for a seat that sleeps. Afterwards it carries the value exactly if it found a grant.
#[inline(always)]
pub fn gain_by_grant<T: Kept>(
    table: &SharedTable<T>,
    seat: &mut TableSeat<T>,
    state: &SeatState,
) -> u64
    requires table { seat.old.place.table_id ≡ table.now.table_id }
    requires fit { IsBetweenSteps seat.old state.now }
    requires is_next { kind_of state.now.point ≡ Some KindNow.WakeLoad }
    requires free { carries_value state.now ≡ false }
    requires gains { (n : ℕ) → 2 < n → carries_value (stepped_by state.now seat.old.number n None).seat ≡ true }
    requires idles { (n : ℕ) → n ≤ 2 → carries_value (stepped_by state.now seat.old.number n None).seat ≡ false }
    ensures table { seat.new.place.table_id ≡ seat.old.place.table_id }
    ensures same { KeepsNumberAndLimits seat.old seat.new }
    ensures step { StepMade T.follows T.fits seat.old state.now result seat.new }
{
    let found = operate::<WakeLoad, T, Brand>(table, seat, state);
    if !Wake::is_grant_word(found) {
        return found;
    }
    take_out(table, seat);
    found
}

/// Subtracts 1 from the count for a seat that has cleared the owner word. Before this step the value is put into its slot: if
/// the count was 1, the next seat may acquire the mutex and take the value at once. If the count was more, this seat takes the
/// value out again.
#[inline(always)]
pub fn retake<T: Kept>(table: &SharedTable<T>, seat: &mut TableSeat<T>, state: &SeatState) -> u64
    requires table { seat.old.place.table_id ≡ table.now.table_id }
    requires fit { IsBetweenSteps seat.old state.now }
    requires is_next { kind_of state.now.point ≡ Some KindNow.CountSubtract }
    requires gives { gives_at state.now.point ≡ true }
    requires leaves { carries_value (stepped_by state.now seat.old.number 1 None).seat ≡ false }
    requires carries { (n : ℕ) → n ≢ 1 → carries_value (stepped_by state.now seat.old.number n None).seat ≡ true }
    ensures table { seat.new.place.table_id ≡ seat.old.place.table_id }
    ensures same { KeepsNumberAndLimits seat.old seat.new }
    ensures step { StepMade T.follows T.fits seat.old state.now result seat.new }
{
    put_out(table, seat);
    let found = operate::<CountSubtract, T, Brand>(table, seat, state);
    if found == 1 {
        return 1;
    }
    take_out(table, seat);
    found
}

/// Loads a link of a cleared list, for a seat that carries the value, and adds its record to the pop list.
#[inline(always)]
pub fn collect<T: Kept>(table: &SharedTable<T>, seat: &mut TableSeat<T>, state: &SeatState) -> u64
    requires table { seat.old.place.table_id ≡ table.now.table_id }
    requires fit { IsBetweenSteps seat.old state.now }
    requires is_next { kind_of state.now.point ≡ Some KindNow.LinkLoad }
    requires held { carries_value state.now ≡ true }
    ensures table { seat.new.place.table_id ≡ seat.old.place.table_id }
    ensures same { KeepsNumberAndLimits seat.old seat.new }
    ensures step { StepMade T.follows T.fits seat.old state.now result seat.new }
{
    let number = seat.number;
    let found = operate::<LinkLoad, T, Brand>(table, seat, state);
    add_loaded(&mut seat.moving, number, state, found);
    found
}

/// Stores a grant in the wake word of another seat, and returns the wake-up of that seat. The calling seat gives the value away
/// by this store. After the store, the granted seat may take the value and the pop list, which are in the slot together.
/// Therefore the record that the grant serves, if there is one, is removed from the pop list first. Then both are put into the
/// slot.
#[inline(always)]
pub fn store_grant<T: Kept>(
    table: &SharedTable<T>,
    seat: &mut TableSeat<T>,
    state: &SeatState,
) -> Option<WakeUp>
    requires table { seat.old.place.table_id ≡ table.now.table_id }
    requires fit { IsBetweenSteps seat.old state.now }
    requires is_next { kind_of state.now.point ≡ Some KindNow.WakeStore }
    requires gives { gives_at state.now.point ≡ true }
    requires leaves { (n : ℕ) → carries_value (stepped_by state.now seat.old.number n None).seat ≡ false }
    ensures table { seat.new.place.table_id ≡ seat.old.place.table_id }
    ensures same { KeepsNumberAndLimits seat.old seat.new }
    ensures step { (n : ℕ) × StepMade T.follows T.fits seat.old state.now n seat.new }
    ensures wakes { result ≡ granted_at state.now.point }
{
    let number = seat.number;
    drop_oldest(&mut seat.moving, state);
    put_out(table, seat);
    operate::<WakeStore, T, Brand>(table, seat, state);
    WakeUp::owed_by(number, state)
}
