//! The calls of a seat of a pool. Each makes the corresponding call of the pool in the mutex of this number, without its
//! wake-up. It returns a number: the status, and the seat that is still to be woken.
ghost use Rattle.std.specs.Prelude.{◌≡◌, ◌≢◌, ◌+◌, Some, length};
ghost use Rattle.std.specs.Arc.{arc_value};
ghost use Rattle.lfm_pool.specs.Ask.{MakesBesideFailuresIn};
ghost use Rattle.lfm_pool.specs.Belongs.{IsMutex};
ghost use Rattle.lfm_pool.specs.Calls.{Asks, Receives, SamePoolSeat, Tries, Unlocks};
ghost use Rattle.lfm_pool.specs.Depths.{HasDepthIn};
ghost use Rattle.lfm_pool.specs.Moves.{MakesAtMostIn};
ghost use Rattle.lfm_pool.specs.Seats.{popped_of};
ghost use Rattle.lfm_pool.specs.WakeUps.{WakesSeatOf, granted_by_release};
ghost use Rattle.lfm_c.specs.PoolHandles.{KnowsTheSame, TellsPoolAsk, TellsPoolDepth, TellsPoolReceive, TellsPoolTry, TellsPoolUnlock, granted_by, released_in, seat_of, unlocked_in};
ghost use Rattle.lfm_c.specs.Status.{told as told_of, Names};

use crate::answers::{asked, locked, received};
use crate::pool_handles::{PoolSeatHandle, PoolSeated};
use crate::status::Status;
use lfm_model::{Asked, How, Locked, Refusal};
use lfm_pool::calls::{Release, Released};
use lfm_pool::wake_up::WakeUp;
use lfm_pool::{calls, reading};

/// The status, and above it the number of the seat that is to be woken. From here on the caller is responsible for the wake-up.
fn told(status: Status, wake_up: Option<WakeUp>) -> u64
    ensures is { result ≡ told_of status (seat_of wake_up) }
    ensures names { Names (seat_of wake_up) result }
{
    match wake_up {
        Some(wake_up) => status.code() + 256 * wake_up.into_seat().get(),
        None => status.code(),
    }
}

/// The status of an unlock that gave up the last hold, and its wake-up. If the mutex was posted, C has one status, whether
/// another call has already taken the post over or not.
fn released(released: Released) -> (Status, Option<WakeUp>)
    ensures { (result.0 ≡ released_in released) × (result.1 ≡ granted_by_release released) }
{
    match released {
        Released::Free => (Status::Done, None),
        Released::Granted(wake_up) => (Status::Granted, Some(wake_up)),
        Released::Posted => (Status::Posted, None),
        Released::TakenOver => (Status::Posted, None),
    }
}

/// The status of an answer of `unlock`, and its wake-up.
fn unlocked(answer: Result<Release, Refusal>) -> (Status, Option<WakeUp>)
    ensures { (result.0 ≡ unlocked_in answer) × (result.1 ≡ granted_by answer) }
{
    match answer {
        Ok(Release::Last(last)) => released(last),
        Ok(Release::Still(_)) => (Status::Still, None),
        Err(refusal) => (Status::Refused(refusal), None),
    }
}

/// The calls of the pool, whose contracts are stated here for the seat and the pool together in one handle.
impl PoolSeated {
    /// `ask_without_waking` of the pool.
    fn ask(&mut self, mutex: usize) -> (Result<Asked, Refusal>, Option<WakeUp>)
        requires mutex { IsMutex mutex (arc_value self.old.pool) }
        ensures same { (self.new.pool ≡ self.old.pool) × SamePoolSeat self.old.seat self.new.seat }
        ensures asks { Asks result.0 result.1 self.old.seat self.new.seat (arc_value self.old.pool) mutex }
        ensures bounded { MakesBesideFailuresIn (10 + length (popped_of self.new.seat.table_seat mutex)) self.old.seat.table_seat self.new.seat.table_seat mutex }
        ensures inside { WakesSeatOf result.1 (arc_value self.old.pool) }
    {
        calls::ask_without_waking(&self.pool, &mut self.seat, mutex)
    }

    /// `try_receive` of the pool.
    fn receive(&mut self, mutex: usize) -> Result<Option<How>, Refusal>
        requires mutex { IsMutex mutex (arc_value self.old.pool) }
        ensures same { (self.new.pool ≡ self.old.pool) × SamePoolSeat self.old.seat self.new.seat }
        ensures receives { Receives result self.old.seat self.new.seat (arc_value self.old.pool) mutex }
        ensures bounded { MakesAtMostIn 3 self.old.seat.table_seat self.new.seat.table_seat mutex }
    {
        calls::try_receive(&self.pool, &mut self.seat, mutex)
    }

    /// `try_lock` of the pool.
    fn try_lock(&mut self, mutex: usize) -> Result<Locked, Refusal>
        requires mutex { IsMutex mutex (arc_value self.old.pool) }
        ensures same { (self.new.pool ≡ self.old.pool) × SamePoolSeat self.old.seat self.new.seat }
        ensures tries { Tries result self.old.seat self.new.seat (arc_value self.old.pool) mutex }
        ensures bounded { MakesAtMostIn 6 self.old.seat.table_seat self.new.seat.table_seat mutex }
    {
        calls::try_lock(&self.pool, &mut self.seat, mutex)
    }

    /// `unlock_without_waking` of the pool.
    fn unlock(&mut self, mutex: usize) -> Result<Release, Refusal>
        requires mutex { IsMutex mutex (arc_value self.old.pool) }
        ensures same { (self.new.pool ≡ self.old.pool) × SamePoolSeat self.old.seat self.new.seat }
        ensures unlocks { Unlocks result self.old.seat self.new.seat (arc_value self.old.pool) mutex }
        ensures bounded { MakesAtMostIn (9 + length (popped_of self.new.seat.table_seat mutex)) self.old.seat.table_seat self.new.seat.table_seat mutex }
        ensures inside { WakesSeatOf (granted_by result) (arc_value self.old.pool) }
    {
        calls::unlock_without_waking(&self.pool, &mut self.seat, mutex)
    }

    /// `depth` of the pool.
    fn depth(&mut self, mutex: usize) -> u64
        requires mutex { IsMutex mutex (arc_value self.old.pool) }
        ensures same { (self.new.pool ≡ self.old.pool) × SamePoolSeat self.old.seat self.new.seat }
        ensures knows { KnowsTheSame self.old.seat self.new.seat }
        ensures depth { self.old.seat.asleep_in ≢ Some mutex → HasDepthIn self.old.seat.table_seat (arc_value self.old.pool) mutex result }
        ensures sleeping { self.old.seat.asleep_in ≡ Some mutex → result ≡ 0 }
    {
        u64::from(reading::depth(&self.pool, &mut self.seat, mutex))
    }
}

/// `ask` of the seat in this mutex.
pub fn ask(handle: &mut PoolSeatHandle, mutex: u64) -> u64
    ensures told { TellsPoolAsk handle.old mutex handle.new result }
{
    let Some(seated) = &mut handle.seated else {
        return Status::Blank.code();
    };
    if !seated.has(mutex) {
        return Status::Limit.code();
    }
    let (answer, wake_up) = seated.ask(mutex as usize);
    told(asked(answer), wake_up)
}

/// `try_receive` of the seat in this mutex.
pub fn receive(handle: &mut PoolSeatHandle, mutex: u64) -> u64
    ensures told { TellsPoolReceive handle.old mutex handle.new result }
{
    let Some(seated) = &mut handle.seated else {
        return Status::Blank.code();
    };
    if !seated.has(mutex) {
        return Status::Limit.code();
    }
    received(seated.receive(mutex as usize)).code()
}

/// `try_lock` of the seat in this mutex.
pub fn try_lock(handle: &mut PoolSeatHandle, mutex: u64) -> u64
    ensures told { TellsPoolTry handle.old mutex handle.new result }
{
    let Some(seated) = &mut handle.seated else {
        return Status::Blank.code();
    };
    if !seated.has(mutex) {
        return Status::Limit.code();
    }
    locked(seated.try_lock(mutex as usize)).code()
}

/// `unlock` of the seat in this mutex.
pub fn unlock(handle: &mut PoolSeatHandle, mutex: u64) -> u64
    ensures told { TellsPoolUnlock handle.old mutex handle.new result }
{
    let Some(seated) = &mut handle.seated else {
        return Status::Blank.code();
    };
    if !seated.has(mutex) {
        return Status::Limit.code();
    }
    let (status, wake_up) = unlocked(seated.unlock(mutex as usize));
    told(status, wake_up)
}

/// How many times the seat holds this mutex, 0 to 65,535, or 0 if the handle is blank or the pool has no mutex of this number.
pub fn depth(handle: &mut PoolSeatHandle, mutex: u64) -> u64
    ensures told { TellsPoolDepth handle.old mutex handle.new result }
{
    let Some(seated) = &mut handle.seated else {
        return 0;
    };
    if !seated.has(mutex) {
        return 0;
    }
    seated.depth(mutex as usize)
}
