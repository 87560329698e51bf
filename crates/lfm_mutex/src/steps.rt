//! Single turns of a seat: `start` begins a call, and `next` makes the one atomic step at the seat's point. Every call of a
//! mutex is a run of these. A caller that knows the kind of the step may call the function of that kind.
ghost use Rattle.std.specs.Prelude.{◌≡◌, true};
ghost use Rattle.lfm_protocol.specs.Begin.{begin};
ghost use Rattle.lfm_protocol.specs.Points.{kind};
ghost use Rattle.lfm_mutex.specs.Belongs.{OfMutex, limits_of, state_of};
ghost use Rattle.lfm_mutex.specs.calls.Runs.{is_release};
ghost use Rattle.lfm_mutex.specs.calls.SeatSteps.{Begins, MakesTurn};
ghost use Rattle.lfm_mutex.specs.calls.Sight.{sight, MayLeave};
ghost use Rattle.lfm_table.specs.Grants.{granted_at};
ghost use Rattle.lfm_mutex.specs.calls.Woken.{WakesNobody};
ghost use Rattle.lfm_mutex.specs.calls.OpenCalls.{AtTableOf, KeepsSeat, MayMakeNext, MakesNext, KeepsTableSeat};
ghost use Rattle.lfm_mutex.specs.calls.Acts.{ActsWakingGranted};

use crate::mutex::Mutex;
use crate::seat::Seat;
use crate::steps::kinds::make_of;
use lfm_protocol::kinds::Kind;
use lfm_protocol::{Call, Turn, Why};
use lfm_table::{Kept, WakeUp};

mod kinds;

pub(crate) use crate::steps::kinds::make_waking_none;
pub use crate::steps::kinds::{
    add_count, clear_head, exchange_count, exchange_handoff, exchange_push, exchange_wake,
    load_handoff, load_link, load_owner, load_push, load_wake, store_handoff, store_link,
    store_owner, store_wake, subtract_count,
};

/// Begins a call: makes the checks in the order of the refusals, charges the take, and sets the first point. It returns what
/// the core's `begin` returns for this state of the seat: Open if steps follow, the answer if no step follows, the refusal, or
/// InCall if a call of the seat is already open. It accesses no word and never waits.
pub fn start<T: Kept>(mutex: &Mutex<T>, seat: &mut Seat<T>, call: Call) -> Turn
    requires belongs { OfMutex seat.old mutex.now }
    ensures acts { ActsWakingGranted seat.old seat.new }
    ensures begins { Begins (limits_of mutex.now) call (state_of seat.old) (sight seat.old) result (state_of seat.new) (sight seat.new) }
{
    begin_call(mutex, seat, call)
}

/// Makes the one atomic step at the seat's point: one operation on one word, and then the seat's own method of the core for
/// that kind of step. It returns Open if the call goes on, the answer or refusal that ends the call, or Idle if no call of the
/// seat is open. At the store that ends a hold, the value that the seat leaves has to follow the one that it found.
///
/// It never waits. If it stores a grant, it wakes the seat that is granted the mutex.
pub fn next<T: Kept>(mutex: &Mutex<T>, seat: &mut Seat<T>) -> Turn
    requires belongs { OfMutex seat.old mutex.now }
    requires leaves { is_release (state_of seat.old).point ≡ true → MayLeave T.follows T.fits (sight seat.old) }
    ensures { MakesTurn T.follows T.fits (kind (state_of seat.old).point) seat.old result seat.new }
{
    match seat.state.point.kind() {
        None => Turn::Refused(Why::Idle),
        Some(Kind::CountExchange) => exchange_count(mutex, seat),
        Some(Kind::CountAdd) => add_count(mutex, seat),
        Some(Kind::CountSubtract) => subtract_count(mutex, seat),
        Some(Kind::OwnerLoad) => load_owner(mutex, seat),
        Some(Kind::OwnerStore) => store_owner(mutex, seat),
        Some(Kind::PushLoad) => load_push(mutex, seat),
        Some(Kind::PushExchange) => exchange_push(mutex, seat),
        Some(Kind::ClearHead) => clear_head(mutex, seat),
        Some(Kind::LinkLoad) => load_link(mutex, seat),
        Some(Kind::LinkStore) => store_link(mutex, seat),
        Some(Kind::HandoffLoad) => load_handoff(mutex, seat),
        Some(Kind::HandoffStore) => store_handoff(mutex, seat),
        Some(Kind::HandoffExchange) => exchange_handoff(mutex, seat),
        Some(Kind::WakeLoad) => load_wake(mutex, seat),
        Some(Kind::WakeStore) => store_wake(mutex, seat),
        Some(Kind::WakeExchange) => exchange_wake(mutex, seat),
    }
}

/// `start`, with the contract on which the proofs of the calls build.
pub(crate) fn begin_call<T: Kept>(mutex: &Mutex<T>, seat: &mut Seat<T>, call: Call) -> Turn
    requires belongs { AtTableOf seat.old mutex.now }
    ensures same { KeepsTableSeat seat.old.table_seat seat.new.table_seat }
    ensures woken { WakesNobody seat.old seat.new }
    ensures seat { seat.new.state ≡ (begin seat.old.state seat.old.table_seat.limits call).seat }
    ensures turn { result ≡ (begin seat.old.state seat.old.table_seat.limits call).turn }
{
    let _mutex = mutex;
    let limits = seat.table_seat.limits;
    seat.state.begin(limits, call)
}

/// `next`, with the contract on which the proofs of the calls build. It wakes no thread. It returns the wake-up of the seat to
/// which it granted the mutex, if any.
pub(crate) fn make_next<T: Kept>(mutex: &Mutex<T>, seat: &mut Seat<T>) -> (Turn, Option<WakeUp>)
    requires belongs { AtTableOf seat.old mutex.now }
    requires leaves { MayMakeNext T.follows T.fits seat.old }
    ensures kept { KeepsSeat seat.old seat.new }
    ensures event { MakesNext T.follows T.fits seat.old result.0 seat.new }
    ensures wakes { result.1 ≡ granted_at seat.old.state.point }
{
    match seat.state.point.kind() {
        None => (Turn::Refused(Why::Idle), None),
        Some(kind) => make_of(mutex, seat, kind),
    }
}
