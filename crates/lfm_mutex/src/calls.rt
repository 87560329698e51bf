//! The slow path: a call begins, and makes one step after another until it ends. Each public call has a file of its own. None
//! of these functions allocates or wakes a seat: if a step grants another seat the mutex, its wake-up is returned with the
//! turn.
ghost use Rattle.std.specs.Prelude.{◌≡◌, ◌≢◌, ◌+◌, ℕ, false, true, Some, None};
ghost use Rattle.lfm_protocol.specs.declared.points.Point.TheVariants.{ReleaseOwnerStore};
ghost use Rattle.lfm_protocol.specs.declared.points.Releaser.{Releaser};
ghost use Rattle.lfm_mutex.specs.calls.FailedPushes.{MakesBesideFailures};
ghost use Rattle.lfm_mutex.specs.calls.Runs.{nothing, errand, errand_of, is_releasing, is_release, release_steps, Ends, Answers, Ran, opens};
ghost use Rattle.lfm_mutex.specs.Belongs.{OfMutex};
ghost use Rattle.lfm_mutex.specs.calls.Trails.{Made, MakesAtMost};
ghost use Rattle.lfm_mutex.specs.calls.Sight.{sight, is_asleep, Concludes, MayRelease, Turned};
ghost use Rattle.lfm_mutex.specs.calls.WakeUps.{first_of, may_grant};
ghost use Rattle.lfm_table.specs.Steps.{MayBeLeft};
ghost use Rattle.lfm_mutex.specs.calls.OpenCalls.{AtTableOf, WithinDue, WithinWeight, OwesWakeUp, FinishesAs, KeepsSeat, EndsHold};
ghost use Rattle.lfm_mutex.specs.calls.Acts.{ActsOwing};

use crate::mutex::Mutex;
use crate::seat::Seat;
use crate::steps::{begin_call, make_next, make_waking_none};
use lfm_protocol::kinds::Kind;
use lfm_protocol::points::Point;
use lfm_protocol::{Call, SeatState, Turn};
use lfm_table::{Kept, WakeUp};

/// The wake-up that is due after two sequences of steps, at most one of which has stored a grant.
fn either(first: Option<WakeUp>, then: Option<WakeUp>) -> Option<WakeUp>
    requires { (t : ℕ) → first ≡ Some t → then ≡ None }
    ensures { result ≡ first_of first then }
{
    match first {
        None => then,
        Some(wake_up) => {
            WakeUp::expect_none(then);
            Some(wake_up)
        }
    }
}

/// Finishes an open call: makes one step after another until the call ends.
#[inline(never)]
pub fn finish<T: Kept>(mutex: &Mutex<T>, seat: &mut Seat<T>) -> (Turn, Option<WakeUp>)
    requires belongs { AtTableOf seat.old mutex.now }
    requires open { errand seat.old.state.point ≢ nothing }
    requires keeps { is_release seat.old.state.point ≡ false }
    ensures finishes { FinishesAs T.follows T.fits seat.old result.0 result.1 seat.new }
    ensures ends { Ends (errand seat.old.state.point) result.0 }
    ensures bounded { WithinWeight seat.old seat.new }
    ensures spends { WithinDue seat.old seat.new }
    ensures none { may_grant (errand seat.old.state.point) ≡ false → result.1 ≡ None }
{
    let mut owed = None;
    loop {
        let (turn, wake_up) = make_next(mutex, seat);
        owed = either(owed, wake_up);
        match turn {
            Turn::Open => {}
            ended => return (ended, owed),
        }
    }
}

/// Makes a call that releases nothing.
#[inline(never)]
pub fn begin_and_finish<T: Kept>(
    mutex: &Mutex<T>,
    seat: &mut Seat<T>,
    call: Call,
) -> (Turn, Option<WakeUp>)
    requires belongs { OfMutex seat.old mutex.now }
    requires keeps { is_releasing (errand_of call) ≡ false }
    ensures acts { ActsOwing mutex.now.limits.seats result.1 seat.old seat.new }
    ensures answers { Answers (errand_of call) result.0 }
    ensures turned { Turned T.follows T.fits mutex.now.limits call (sight seat.old) (sight seat.new) result.0 }
    ensures made { Made mutex.now.limits call (sight seat.old) (sight seat.new) result.0 }
    ensures bounded { MakesBesideFailures (mutex.now.limits.seats + 9) (sight seat.old) (sight seat.new) }
    ensures none { may_grant (errand_of call) ≡ false → result.1 ≡ None }
{
    match begin_call(mutex, seat, call) {
        Turn::Open => finish(mutex, seat),
        told => (told, None),
    }
}

/// Makes a call that releases the mutex.
#[inline(never)]
pub fn begin_and_release<T: Kept>(
    mutex: &Mutex<T>,
    seat: &mut Seat<T>,
    call: Call,
) -> (Turn, Option<WakeUp>)
    requires belongs { OfMutex seat.old mutex.now }
    requires gives { is_releasing (errand_of call) ≡ true }
    requires leaves { MayRelease T.follows T.fits (sight seat.old) }
    ensures acts { ActsOwing mutex.now.limits.seats result.1 seat.old seat.new }
    ensures answers { Answers (errand_of call) result.0 }
    ensures turned { Turned T.follows T.fits mutex.now.limits call (sight seat.old) (sight seat.new) result.0 }
    ensures made { Made mutex.now.limits call (sight seat.old) (sight seat.new) result.0 }
    ensures bounded { MakesAtMost (release_steps mutex.now.limits.seats call) (sight seat.old) (sight seat.new) }
{
    match begin_call(mutex, seat, call) {
        Turn::Open => finish_from_owner_store(mutex, seat),
        told => (told, None),
    }
}

/// Finishes an open release. Its first step is the store that ends the hold.
fn finish_from_owner_store<T: Kept>(mutex: &Mutex<T>, seat: &mut Seat<T>) -> (Turn, Option<WakeUp>)
    requires belongs { AtTableOf seat.old mutex.now }
    requires gives { (r : Releaser) × (seat.old.state.point ≡ ReleaseOwnerStore r) }
    requires leaves { MayBeLeft T.follows T.fits seat.old.table_seat.moving seat.old.table_seat.place.me.0 }
    ensures kept { KeepsSeat seat.old seat.new }
    ensures ends { Ends (errand seat.old.state.point) result.0 }
    ensures last { EndsHold seat.old seat.new }
    ensures ran { Ran seat.old.table_seat.number (opens seat.old.state) seat.old.table_seat.place.me.0 result.0 seat.new.state seat.new.table_seat.place.me.0 }
    ensures concludes { Concludes (record seat.old.state { depth = 0 }) result.0 seat.new.state }
    ensures bounded { WithinWeight seat.old seat.new }
    ensures wakes { OwesWakeUp seat.old result.1 seat.new }
{
    match make_waking_none(mutex, seat, Kind::OwnerStore) {
        Turn::Open => finish(mutex, seat),
        ended => (ended, None),
    }
}

/// Whether the seat sleeps, or a call of it is open.
#[inline(always)]
pub fn asleep(state: &SeatState) -> bool
    ensures { result ≡ is_asleep state.now.point }
{
    match state.point {
        Point::Rest => false,
        _ => true,
    }
}
