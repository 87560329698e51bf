//! The atomic step of each kind by itself: one operation on one word, and then the seat's own method of the core for that kind.
//! Each function requires that the seat's point is of its kind, and is one event of the core.
//!
//! Each returns Open if the call goes on, and otherwise the answer or refusal that ends the call. None of them waits or
//! allocates, and only `store_wake` wakes a seat.
ghost use Rattle.std.specs.Prelude.{◌≡◌, ◌≢◌, true, false, Some};
ghost use Rattle.lfm_protocol.specs.declared.kinds.Kind.{Kind as KindNow};
ghost use Rattle.lfm_protocol.specs.Points.{kind as kind_of};
ghost use Rattle.lfm_mutex.specs.Belongs.{state_of};
ghost use Rattle.lfm_mutex.specs.calls.RunGoesOn.{RunGoesOnFrom};
ghost use Rattle.lfm_mutex.specs.calls.Runs.{is_release};
ghost use Rattle.lfm_mutex.specs.calls.SeatSteps.{stores_owner, NextIs, MakesTurn};
ghost use Rattle.lfm_mutex.specs.calls.Sight.{sight, MayLeave};
ghost use Rattle.lfm_table.specs.Grants.{granted_at};
ghost use Rattle.lfm_mutex.specs.calls.OpenCalls.{KeepsSeat, MayMakeNext, MakesEvent, AtTableOf};

use crate::mutex::Mutex;
use crate::seat::Seat;
use lfm_protocol::Turn;
use lfm_protocol::kinds::Kind;
use lfm_table::operations::make_step;
use lfm_table::slot::{gives, prepare, settle};
use lfm_table::transition::{add_loaded, advance, drop_oldest, oldest_of};
use lfm_table::{Kept, WakeUp};
use std::marker::Brand;

/// Makes the step at the seat's point, which is of this kind, and returns the wake-up of the seat to which it granted the
/// mutex, if any. The proofs of the calls build on this contract.
#[inline(always)]
pub(crate) fn make_of<T: Kept>(
    mutex: &Mutex<T>,
    seat: &mut Seat<T>,
    kind: Kind,
) -> (Turn, Option<WakeUp>)
    requires belongs { AtTableOf seat.old mutex.now }
    requires is_next { kind_of seat.old.state.point ≡ Some kind }
    requires leaves { MayMakeNext T.follows T.fits seat.old }
    ensures kept { KeepsSeat seat.old seat.new }
    ensures run { RunGoesOnFrom seat.old seat.new }
    ensures event { MakesEvent T.follows T.fits seat.old result.0 seat.new }
    ensures wakes { result.1 ≡ granted_at seat.old.state.point }
{
    let table = &mutex.table;
    let number = seat.table_seat.number;
    let state = seat.state;
    // What the step may give away is put back before the step: once the word is stored, the next owner may use it. So the
    // record that the step serves is removed from the pop list, and then the value, with that list, is put into its slot.
    let may_give = gives(state.point);
    drop_oldest(&mut seat.table_seat.moving, &state);
    prepare(table, &mut seat.table_seat, may_give);
    let (found, wake_up) = make_step::<T, Brand>(kind, table, &mut seat.table_seat, &state);
    // What the step brings is taken after it: the record of a loaded link, or the value, if the seat carries it now. `settle`
    // decides that by `carries_after` before `advance` changes the seat's state. `advance`, the proved transition, needs the
    // oldest record, which is kept with the value.
    add_loaded(&mut seat.table_seat.moving, number, &state, found);
    settle(table, &mut seat.table_seat, &state, found);
    let oldest = oldest_of(&seat.table_seat.moving);
    let turn = advance(&mut seat.state, number, found, oldest);
    (turn, wake_up)
}

/// `make_of` for a kind that stores no wake word, so that there is no wake-up.
#[inline(always)]
pub(crate) fn make_waking_none<T: Kept>(mutex: &Mutex<T>, seat: &mut Seat<T>, kind: Kind) -> Turn
    requires belongs { AtTableOf seat.old mutex.now }
    requires is_next { kind_of seat.old.state.point ≡ Some kind }
    requires other { kind ≢ KindNow.WakeStore }
    requires leaves { MayMakeNext T.follows T.fits seat.old }
    ensures kept { KeepsSeat seat.old seat.new }
    ensures run { RunGoesOnFrom seat.old seat.new }
    ensures event { MakesEvent T.follows T.fits seat.old result seat.new }
{
    let (turn, wake_up) = make_of(mutex, seat, kind);
    WakeUp::expect_none(wake_up);
    turn
}

/// Makes a step of a kind that ends no hold and stores no wake word.
#[inline(always)]
fn make_within<T: Kept>(mutex: &Mutex<T>, seat: &mut Seat<T>, kind: Kind) -> Turn
    requires next { NextIs kind seat.old mutex.now }
    requires keeps { stores_owner kind ≡ false }
    requires other { kind ≢ KindNow.WakeStore }
    ensures { MakesTurn T.follows T.fits (Some kind) seat.old result seat.new }
{
    make_waking_none(mutex, seat, kind)
}

/// Compare-and-exchange of the count from 0 to 1, which reads the count: the first step of a `try_lock`.
pub fn exchange_count<T: Kept>(mutex: &Mutex<T>, seat: &mut Seat<T>) -> Turn
    requires next { NextIs KindNow.CountExchange seat.old mutex.now }
    ensures { MakesTurn T.follows T.fits (Some KindNow.CountExchange) seat.old result seat.new }
{
    make_within(mutex, seat, Kind::CountExchange)
}

/// Adds 1 to the count, and reads the count before: for a `lock`, for the target of a `send_lock`, or for a `try_lock` that
/// accepted a post.
pub fn add_count<T: Kept>(mutex: &Mutex<T>, seat: &mut Seat<T>) -> Turn
    requires next { NextIs KindNow.CountAdd seat.old mutex.now }
    ensures { MakesTurn T.follows T.fits (Some KindNow.CountAdd) seat.old result seat.new }
{
    make_within(mutex, seat, Kind::CountAdd)
}

/// Subtracts 1 from the count, and reads the count before: for a release, or for a `lock` of a seat that already owns and had
/// counted itself.
pub fn subtract_count<T: Kept>(mutex: &Mutex<T>, seat: &mut Seat<T>) -> Turn
    requires next { NextIs KindNow.CountSubtract seat.old mutex.now }
    ensures { MakesTurn T.follows T.fits (Some KindNow.CountSubtract) seat.old result seat.new }
{
    make_within(mutex, seat, Kind::CountSubtract)
}

/// Loads the owner word: a `lock` or `try_lock` checks whether its own seat owns.
pub fn load_owner<T: Kept>(mutex: &Mutex<T>, seat: &mut Seat<T>) -> Turn
    requires next { NextIs KindNow.OwnerLoad seat.old mutex.now }
    ensures { MakesTurn T.follows T.fits (Some KindNow.OwnerLoad) seat.old result seat.new }
{
    make_within(mutex, seat, Kind::OwnerLoad)
}

/// Stores the owner word: 0 when a release ends a hold, or the seat's own number when it acquires the mutex. At the store that
/// ends a hold, the value in hand has to follow the one that was found.
pub fn store_owner<T: Kept>(mutex: &Mutex<T>, seat: &mut Seat<T>) -> Turn
    requires next { NextIs KindNow.OwnerStore seat.old mutex.now }
    requires leaves { is_release (state_of seat.old).point ≡ true → MayLeave T.follows T.fits (sight seat.old) }
    ensures { MakesTurn T.follows T.fits (Some KindNow.OwnerStore) seat.old result seat.new }
{
    make_waking_none(mutex, seat, Kind::OwnerStore)
}

/// Loads the push word: the newest stamp, and the seat whose record is the newest one pushed.
pub fn load_push<T: Kept>(mutex: &Mutex<T>, seat: &mut Seat<T>) -> Turn
    requires next { NextIs KindNow.PushLoad seat.old mutex.now }
    ensures { MakesTurn T.follows T.fits (Some KindNow.PushLoad) seat.old result seat.new }
{
    make_within(mutex, seat, Kind::PushLoad)
}

/// Compare-and-exchange of the push word, from the word that was seen to one that has the pushed record as its newest.
pub fn exchange_push<T: Kept>(mutex: &Mutex<T>, seat: &mut Seat<T>) -> Turn
    requires next { NextIs KindNow.PushExchange seat.old mutex.now }
    ensures { MakesTurn T.follows T.fits (Some KindNow.PushExchange) seat.old result seat.new }
{
    make_within(mutex, seat, Kind::PushExchange)
}

/// Clears the head of the push word, keeps its stamp, and reads the word before: the carrier takes over the pushed records.
pub fn clear_head<T: Kept>(mutex: &Mutex<T>, seat: &mut Seat<T>) -> Turn
    requires next { NextIs KindNow.ClearHead seat.old mutex.now }
    ensures { MakesTurn T.follows T.fits (Some KindNow.ClearHead) seat.old result seat.new }
{
    make_within(mutex, seat, Kind::ClearHead)
}

/// Loads the link word of a record that was taken over: its stamp, and the next older record. The record joins the pop
/// list.
pub fn load_link<T: Kept>(mutex: &Mutex<T>, seat: &mut Seat<T>) -> Turn
    requires next { NextIs KindNow.LinkLoad seat.old mutex.now }
    ensures { MakesTurn T.follows T.fits (Some KindNow.LinkLoad) seat.old result seat.new }
{
    make_within(mutex, seat, Kind::LinkLoad)
}

/// Stores the link word of the record that is to be pushed.
pub fn store_link<T: Kept>(mutex: &Mutex<T>, seat: &mut Seat<T>) -> Turn
    requires next { NextIs KindNow.LinkStore seat.old mutex.now }
    ensures { MakesTurn T.follows T.fits (Some KindNow.LinkStore) seat.old result seat.new }
{
    make_within(mutex, seat, Kind::LinkStore)
}

/// Loads the handoff word: the current post, if any.
pub fn load_handoff<T: Kept>(mutex: &Mutex<T>, seat: &mut Seat<T>) -> Turn
    requires next { NextIs KindNow.HandoffLoad seat.old mutex.now }
    ensures { MakesTurn T.follows T.fits (Some KindNow.HandoffLoad) seat.old result seat.new }
{
    make_within(mutex, seat, Kind::HandoffLoad)
}

/// Stores a new post of the seat in the handoff word.
pub fn store_handoff<T: Kept>(mutex: &Mutex<T>, seat: &mut Seat<T>) -> Turn
    requires next { NextIs KindNow.HandoffStore seat.old mutex.now }
    ensures { MakesTurn T.follows T.fits (Some KindNow.HandoffStore) seat.old result seat.new }
{
    make_within(mutex, seat, Kind::HandoffStore)
}

/// Compare-and-exchange of the handoff word, from an expected post to none: the post is accepted, taken over, or taken back.
pub fn exchange_handoff<T: Kept>(mutex: &Mutex<T>, seat: &mut Seat<T>) -> Turn
    requires next { NextIs KindNow.HandoffExchange seat.old mutex.now }
    ensures { MakesTurn T.follows T.fits (Some KindNow.HandoffExchange) seat.old result seat.new }
{
    make_within(mutex, seat, Kind::HandoffExchange)
}

/// Loads the seat's own wake word: a receive checks for its grant.
pub fn load_wake<T: Kept>(mutex: &Mutex<T>, seat: &mut Seat<T>) -> Turn
    requires next { NextIs KindNow.WakeLoad seat.old mutex.now }
    ensures { MakesTurn T.follows T.fits (Some KindNow.WakeLoad) seat.old result seat.new }
{
    make_within(mutex, seat, Kind::WakeLoad)
}

/// Stores a wake word: a grant, whose seat it wakes, or the seat's own, when it starts to wait or no longer sleeps.
pub fn store_wake<T: Kept>(mutex: &Mutex<T>, seat: &mut Seat<T>) -> Turn
    requires next { NextIs KindNow.WakeStore seat.old mutex.now }
    ensures { MakesTurn T.follows T.fits (Some KindNow.WakeStore) seat.old result seat.new }
{
    let (turn, wake_up) = make_of(mutex, seat, Kind::WakeStore);
    mutex.wake_seat(wake_up, &mut seat.off_trail);
    turn
}

/// Compare-and-exchange of the wake word of a seat that waits, so that only this sender sends it.
pub fn exchange_wake<T: Kept>(mutex: &Mutex<T>, seat: &mut Seat<T>) -> Turn
    requires next { NextIs KindNow.WakeExchange seat.old mutex.now }
    ensures { MakesTurn T.follows T.fits (Some KindNow.WakeExchange) seat.old result seat.new }
{
    make_within(mutex, seat, Kind::WakeExchange)
}
