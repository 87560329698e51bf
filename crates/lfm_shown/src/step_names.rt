//! The name of the step at a point: its call, and its number among the numbered steps of that call.
ghost use Rattle.std.specs.Prelude.{◌≡◌};
ghost use Rattle.lfm_shown.specs.Names.{call_name, kind_name, of_pusher, of_releaser, clear_name, walk_name, grant_name, step_name};

use lfm_core::Call;
use lfm_core::kinds::Kind;
use lfm_core::points::{Carrier, Entrant, Point, Pusher, Releaser};

/// The name of a call in a schedule.
pub fn call_name(call: Call) -> &'static str
    ensures { result.now ≡ call_name call }
{
    match call {
        Call::Lock => "lock",
        Call::TryLock => "try_lock",
        Call::Unlock => "unlock",
        Call::StartWait => "start_wait",
        Call::SendLock(_) => "send_lock",
        Call::Receive => "receive",
    }
}

/// The name of an atomic operation.
pub fn kind_name(kind: Kind) -> &'static str
    ensures { result.now ≡ kind_name kind }
{
    match kind {
        Kind::CountAdd => "add",
        Kind::CountSubtract => "subtract",
        Kind::OwnerLoad | Kind::PushLoad | Kind::LinkLoad | Kind::HandoffLoad | Kind::WakeLoad =>
            "load",
        Kind::OwnerStore | Kind::LinkStore | Kind::HandoffStore | Kind::WakeStore => "store",
        Kind::CountExchange | Kind::PushExchange | Kind::HandoffExchange | Kind::WakeExchange =>
            "exchange",
        Kind::ClearHead => "clear-head",
    }
}

/// The call and the number of the step at a point, as in `lock 6`. The name of a step that takes a record starts with the step
/// at which the taking began, as in `unlock 2 take 1`. Empty if no call is open.
pub fn step_name(point: Point) -> &'static str
    ensures { result.now ≡ step_name point }
{
    match point {
        Point::Rest | Point::Asleep(_) => "",
        Point::LockCountAdd => "lock 1",
        Point::LockOwnerLoad => "lock 2",
        Point::LockCountSubtract => "lock 3",
        Point::TryCountExchange => "try_lock 1",
        Point::TryOwnerLoad => "try_lock 2",
        Point::TryHandoffLoad => "try_lock 4",
        Point::TryHandoffExchange(_) => "try_lock 5",
        Point::TryCountAdd => "try_lock 6",
        Point::SendWakeExchange(_) => "send_lock 1",
        Point::SendCountAdd(_) => "send_lock 2",
        Point::SendPushRecheck(_, _) => "send_lock 7",
        Point::SendWakeStore(_) => "send_lock 9",
        Point::PushLoad(pusher) => of_pusher(pusher, "lock 4", "send_lock 3"),
        Point::LinkStore(pusher, _) => of_pusher(pusher, "lock 5", "send_lock 4"),
        Point::PushExchange(pusher, _) => of_pusher(pusher, "lock 6", "send_lock 5"),
        Point::PushedHandoffLoad(pusher) => of_pusher(pusher, "lock 7", "send_lock 6"),
        Point::PushedHandoffExchange(pusher, _) => of_pusher(pusher, "lock 8", "send_lock 8"),
        Point::ReleaseOwnerStore(releaser) => of_releaser(releaser, "unlock 1", "start_wait 1"),
        Point::ReleaseCountSubtract(releaser) => of_releaser(releaser, "unlock 2", "start_wait 2"),
        Point::ReleaseHandoffStore(releaser) => of_releaser(releaser, "unlock 3", "start_wait 3"),
        Point::ReleasePushRecheck(releaser) => of_releaser(releaser, "unlock 4", "start_wait 4"),
        Point::ReleaseHandoffExchange(releaser) => of_releaser(
            releaser,
            "unlock 5",
            "start_wait 5",
        ),
        Point::WaitWakeStore(_) => "start_wait 7",
        Point::TakeClearHead(carrier) => clear_name(carrier),
        Point::TakeLinkLoad(carrier, _) => walk_name(carrier),
        Point::GrantWakeStore(carrier, _) => grant_name(carrier),
        Point::EnterOwnerStore(Entrant::Locker, _) => "lock 9",
        Point::EnterOwnerStore(Entrant::Trier, _) => "try_lock 3",
        Point::EnterOwnerStore(Entrant::Receiver, _) => "receive 3",
        Point::ReceiveWakeLoad(_) => "receive 1",
        Point::ReceiveWakeStore(_) => "receive 2",
    }
}

/// The name for the call that pushes: `lock` pushes its own record, `send_lock` another seat's.
fn of_pusher(pusher: Pusher, locker: &'static str, sender: &'static str) -> &'static str
    ensures { result.now ≡ of_pusher pusher locker.now sender.now }
{
    match pusher {
        Pusher::Locker => locker,
        Pusher::Sender(_) => sender,
    }
}

/// The name for the call that releases: `unlock` or `start_wait`.
fn of_releaser(releaser: Releaser, unlocker: &'static str, waiter: &'static str) -> &'static str
    ensures { result.now ≡ of_releaser releaser unlocker.now waiter.now }
{
    match releaser {
        Releaser::Unlocker => unlocker,
        Releaser::Waiter => waiter,
    }
}

/// The name of the clear-head with which this carrier collects.
fn clear_name(carrier: Carrier) -> &'static str
    ensures { result.now ≡ clear_name carrier }
{
    match carrier {
        Carrier::Locker => "lock 8 take 1",
        Carrier::Sender => "send_lock 8 take 1",
        Carrier::Releaser(releaser) => of_releaser(
            releaser,
            "unlock 2 take 1",
            "start_wait 2 take 1",
        ),
        Carrier::Reclaimer(releaser) => of_releaser(
            releaser,
            "unlock 5 take 1",
            "start_wait 5 take 1",
        ),
    }
}

/// The name of a link load with which this carrier collects.
fn walk_name(carrier: Carrier) -> &'static str
    ensures { result.now ≡ walk_name carrier }
{
    match carrier {
        Carrier::Locker => "lock 8 take 2",
        Carrier::Sender => "send_lock 8 take 2",
        Carrier::Releaser(releaser) => of_releaser(
            releaser,
            "unlock 2 take 2",
            "start_wait 2 take 2",
        ),
        Carrier::Reclaimer(releaser) => of_releaser(
            releaser,
            "unlock 5 take 2",
            "start_wait 5 take 2",
        ),
    }
}

/// The name of the wake store with which this carrier grants.
fn grant_name(carrier: Carrier) -> &'static str
    ensures { result.now ≡ grant_name carrier }
{
    match carrier {
        Carrier::Locker => "lock 10",
        Carrier::Sender => "send_lock 9",
        Carrier::Releaser(releaser) | Carrier::Reclaimer(releaser) => {
            of_releaser(releaser, "unlock 6", "start_wait 6")
        }
    }
}
