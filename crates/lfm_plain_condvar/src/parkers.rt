//! The parkers: one word for each seat, on which the thread of that seat parks until it is notified. Only the owner of a
//! parker's *waker* can notify it. A waker is a slot of the table beside the words. It is in one place at a time: with the
//! seat between its calls, in the list while the seat waits, with the wake that took the seat out of the list, or in the
//! table after the wake has notified the parker.
//!
//! Whoever notifies a parker whose thread is parked owes that thread a wake-up, which `parked` uses up. It is not proved that
//! a wake-up reaches the thread: `wake_one` of the table makes a system call, and the system wakes the thread that parks on
//! the low 32 bits of the word.
ghost use Rattle.std.specs.Prelude.{◌≡◌, ◌+◌, ◌<◌, ◌≤◌, ℕ, [], ◌∷◌, ◌++◌, IfErr, IfOk, IfSome, is_some};
ghost use Rattle.lfm_plain_condvar.specs.Parked.{Gathers, IsOwedTo, owed_after};
ghost use Rattle.lfm_plain_condvar.specs.Parkers.{HasEachOnce, IsWakerOf, Notifies, ParkersHold, Retires, StartsWithNone, TakesIfNotified, no_notices, times, with_those};
ghost use Rattle.lfm_plain_condvar.specs.Polls.{PollsByCredit};

mod parked;
pub mod woken;

use crate::polls::PollCredit;
use crate::time_is_over::TimeIsOver;
use crate::unlocked_wait::UnlockedWait;
use atomic_table::{Join, Play, Seat, Table, TableRule};
use lfm_mutex::Kept;
use parked::Notified;
pub(crate) use parked::ParkedRange;
use std::alloc::{AllocError, Global};
use std::collections::LinkedList;
use std::hint::spin_loop;
use std::sync::Wait;
use std::time::Clock;
pub(crate) use woken::Woken;

/// The parker was not notified, and its thread is not about to park.
const EMPTY: u64 = 0;

/// The thread of the parker is parked, or is about to park.
const PARKED: u64 = 1;

/// The parker was notified, and its waker is in the table. Every word of at least this value says so.
const NOTIFIED: u64 = 2;

/// The same, and the wake took other waiters out of the list too.
const NOTIFIED_WITH_OTHERS: u64 = 3;

/// How many pauses a thread makes between two polls of its parker.
const PAUSES: u32 = 4;

/// What a seat of the table knows: the parkers that it has notified, in order, those whose wakers it has, and those that it
/// has notified and whose threads it found parked, in order. No value of this type is ever made: it is for proofs alone.
pub struct Notices {
    pub parkers: LinkedList<u64>,
    pub wakers: LinkedList<u64>,
    pub parked: LinkedList<u64>,
}

/// The rule of the table: the waker of a parker that was notified is in the table, and at most one seat has the waker of a
/// parker.
pub struct ParkerRule;

impl TableRule<(), Notices, ()> for ParkerRule {
    ghost holds = { λ _. ParkersHold };

    ghost first = { λ _. no_notices };
}

/// A swap that takes the waker out of the table if the parker was notified.
pub struct WakerTaken;

impl Play<(), Notices> for WakerTaken {
    ghost then = { TakesIfNotified };
}

/// A swap that notifies the parker, and leaves its waker in the table.
pub struct ParkerNotified;

impl Play<(), Notices> for ParkerNotified {
    ghost then = { Notifies };
}

/// A swap by a seat that has a waker for the last time: the waker's slot goes back to the table, and nobody takes it again.
pub struct WakerRetired;

impl Play<(), Notices> for WakerRetired {
    ghost then = { Retires };
}

/// A load that shows that a seat has the waker of each parker at most once.
pub struct EachWakerOnce;

impl Play<(), Notices> for EachWakerOnce {
    ghost then = { HasEachOnce };
}

/// A load by a seat that has notified no parker yet.
pub struct Begun;

impl Play<(), Notices> for Begun {
    ghost then = { StartsWithNone };
}

/// Adds what one seat has notified to what another has.
pub struct NoticesJoined;

impl Join<Notices> for NoticesJoined {
    ghost both = { with_those };

    ghost spent = { no_notices };
}

/// The right to notify one parker. There is only one waker for each parker.
#[derive(Drop)]
pub struct Waker {
    seat: Seat<(), Notices>,
    pub(crate) number: u64,
    pub ghost its: { IsWakerOf number seat.me },
}

/// A waker that was taken out of the table after its parker was notified, and how the waiter was woken.
#[derive(Drop)]
pub(crate) struct TakenWaker {
    pub(crate) waker: Waker,
    pub(crate) woken: Woken,
}

/// The parkers that a seat has notified, in order. It takes no bytes. Only `Parkers::notify` adds to it, by the step of the
/// table that notifies.
#[derive(Drop)]
pub struct NoticeLog {
    seat: Seat<(), Notices>,
    pub ghost free: { seat.me.1 ≡ [] },
}

/// The wakers of a condvar that is being closed. It takes no bytes.
#[derive(Drop)]
pub(crate) struct GatheredWakers {
    seat: Seat<(), Notices>,
}

/// The right to take the wakers of new parkers out of the table. Only `Parkers::new` gives it. It takes no bytes.
#[derive(Drop)]
pub(crate) struct FirstWakers {
    of: NoticeLog,
}

/// Names the parkers in contracts. It takes no bytes.
#[derive(Drop)]
pub struct ParkersName {
    root: Seat<(), Notices>,
}

/// The parkers of all seats. Word 0 is unused.
#[derive(Drop)]
pub struct Parkers {
    table: Table<(), Notices, (), ParkerRule, Global>,
    pub(crate) seats: u64,
    pub ghost words: { table.shared.table_id.words ≡ seats + 1 },
    pub ghost slots: { table.shared.table_id.slots ≡ seats + 1 },
}

impl Parkers {
    /// Parkers for this number of seats. Each starts as notified, so its waker is in the table. The second value names them
    /// in contracts, and the third is needed to take their wakers. It allocates three times.
    pub(crate) fn new(
        alloc: Global,
        seats: u64,
    ) -> Result<(Parkers, ParkersName, FirstWakers), AllocError>
        requires { seats ≤ 4095 }
        ensures { IfOk result (λ p. (p.0.seats ≡ seats) × (p.1.root.table_id ≡ p.0.table.shared.table_id) × (p.2.of.seat.table_id ≡ p.0.table.shared.table_id)) }
    {
        let words = Vec::from_elem(alloc, NOTIFIED, seats as usize + 1)?;
        let wakers = Vec::from_elem(alloc, (), seats as usize + 1)?;
        match Table::new(alloc, words.as_slice(), wakers, &()) {
            Ok((table, root)) => {
                let parkers = Parkers { table, seats };
                let of = parkers.new_log();
                Ok((parkers, ParkersName { root }, FirstWakers { of }))
            }
            Err(_refused) => Err(AllocError),
        }
    }

    /// A log of a seat that has notified nobody yet.
    pub(crate) fn new_log(&self) -> NoticeLog
        ensures { (result.seat.me.0.parkers ≡ []) × (result.seat.table_id ≡ self.now.table.shared.table_id) }
    {
        let (_, seat) = self.table.shared.load_new_seat::<Begun>(0);
        NoticeLog { seat }
    }

    /// Sets the word of the parker to EMPTY or PARKED, and takes its waker out of the table if it was notified.
    fn take(&self, number: u64, word: u64) -> Option<TakenWaker>
        requires { (number ≤ self.now.seats) × (word < 2) }
        ensures { IfSome result (λ t. (t.waker.number ≡ number) × (t.waker.seat.table_id ≡ self.now.table.shared.table_id)) }
    {
        let (found, seat) = self
            .table
            .shared
            .swap_new_seat::<WakerTaken>(number as usize, word);
        if found >= NOTIFIED {
            Some(TakenWaker {
                waker: Waker { seat, number },
                woken: Woken::of_word(found),
            })
        } else {
            None
        }
    }

    /// If the parker was notified, takes its waker out of the table and sets its word to EMPTY. Otherwise it only reads the
    /// word.
    fn take_if_notified(&self, number: u64) -> Option<TakenWaker>
        requires { number ≤ self.now.seats }
        ensures { IfSome result (λ t. (t.waker.number ≡ number) × (t.waker.seat.table_id ≡ self.now.table.shared.table_id)) }
    {
        if self.table.shared.peek(number as usize) < NOTIFIED {
            return None;
        }
        self.take(number, EMPTY)
    }

    /// The waker of a new parker, if it is in the table. A caller that has no `FirstWakers` takes its waker only by `park` or
    /// `park_until`.
    pub(crate) fn first_waker(&self, number: u64, _first: &FirstWakers) -> Option<Waker>
        requires { (number ≤ self.now.seats) × (_first.now.of.seat.table_id ≡ self.now.table.shared.table_id) }
        ensures { IfSome result (λ w. (w.number ≡ number) × (w.seat.table_id ≡ self.now.table.shared.table_id)) }
    {
        let TakenWaker { waker, woken: _ } = self.take_if_notified(number)?;
        Some(waker)
    }

    /// Notifies the parker of this waker. If its thread is parked, it returns the duty to wake that thread. It makes one swap
    /// and one load.
    fn set_notified(&self, waker: Waker, woken: Woken, log: &mut NoticeLog) -> Notified
        requires waker { (waker.number ≤ self.now.seats) × (waker.seat.table_id ≡ self.now.table.shared.table_id) }
        requires log { log.old.seat.table_id ≡ self.now.table.shared.table_id }
        ensures log { log.new.seat.table_id ≡ log.old.seat.table_id }
        ensures notified { log.new.seat.me.0.parkers ≡ log.old.seat.me.0.parkers ++ waker.number ∷ [] }
        ensures parked { log.new.seat.me.0.parked ≡ log.old.seat.me.0.parked ++ owed_after result }
        ensures owed { IsOwedTo waker.number result }
    {
        let Waker { mut seat, number } = waker;
        let found = self
            .table
            .shared
            .swap::<ParkerNotified>(&mut seat, number as usize, woken.word());
        self.table
            .shared
            .join_seat::<NoticesJoined>(&mut log.seat, seat);
        Notified::after(number, found)
    }

    /// Notifies the parker of this waker, alone, and wakes its thread if that is parked. It makes one swap, one load, and a
    /// system call if the thread is parked.
    pub(crate) fn notify(&self, waker: Waker, log: &mut NoticeLog)
        requires waker { (waker.number ≤ self.now.seats) × (waker.seat.table_id ≡ self.now.table.shared.table_id) }
        requires log { log.old.seat.table_id ≡ self.now.table.shared.table_id }
        ensures log { log.new.seat.table_id ≡ log.old.seat.table_id }
        ensures notified { log.new.seat.me.0.parkers ≡ log.old.seat.me.0.parkers ++ waker.number ∷ [] }
    {
        match self.set_notified(waker, Woken::Alone, log) {
            Notified::GoesOn => {}
            Notified::Parked(thread) => self.wake_thread(thread),
        }
    }

    /// Notifies the parker of this waker. If its thread is parked, it is added to `parked`, and `wake_parked` is to wake it.
    pub(crate) fn notify_before_wake(
        &self,
        waker: Waker,
        woken: Woken,
        log: &mut NoticeLog,
        parked: &mut ParkedRange,
    )
        requires waker { (waker.number ≤ self.now.seats) × (waker.seat.table_id ≡ self.now.table.shared.table_id) }
        requires log { log.old.seat.table_id ≡ self.now.table.shared.table_id }
        ensures log { log.new.seat.table_id ≡ log.old.seat.table_id }
        ensures notified { log.new.seat.me.0.parkers ≡ log.old.seat.me.0.parkers ++ waker.number ∷ [] }
        ensures parked { Gathers parked.old parked.new log.old.seat.me.0.parked log.new.seat.me.0.parked }
    {
        match self.set_notified(waker, woken, log) {
            Notified::GoesOn => {}
            Notified::Parked(thread) => parked.add(thread),
        }
    }

    /// Polls the parker at most this often, with pauses, for a thread that may be notified soon.
    fn poll(&self, number: u64, polls: u32) -> Option<TakenWaker>
        requires { number ≤ self.now.seats }
        ensures { IfSome result (λ t. (t.waker.number ≡ number) × (t.waker.seat.table_id ≡ self.now.table.shared.table_id)) }
    {
        'polls: for _ in 0..polls {
            for _ in 0..PAUSES {
                spin_loop();
            }
            if let Some(taken) = self.take_if_notified(number) {
                return Some(taken);
            }
        }
        None
    }

    /// Polls at most this often, if the credit allows it, and then tells the credit whether a poll found that the parker was
    /// notified.
    fn poll_with_credit(
        &self,
        number: u64,
        polls: u32,
        credit: &mut PollCredit,
    ) -> Option<TakenWaker>
        requires { number ≤ self.now.seats }
        ensures taken { IfSome result (λ t. (t.waker.number ≡ number) × (t.waker.seat.table_id ≡ self.now.table.shared.table_id)) }
        ensures credit { PollsByCredit polls (is_some result) credit.old credit.new }
    {
        if polls == 0 {
            return None;
        }
        if !credit.allows() {
            return None;
        }
        let found = self.poll(number, polls);
        credit.tell(found.is_some());
        found
    }

    /// Polls, and then says that the thread is about to park. Takes the waker if the parker was notified before.
    fn poll_and_announce(
        &self,
        number: u64,
        polls: u32,
        credit: &mut PollCredit,
    ) -> Option<TakenWaker>
        requires { number ≤ self.now.seats }
        ensures { IfSome result (λ t. (t.waker.number ≡ number) × (t.waker.seat.table_id ≡ self.now.table.shared.table_id)) }
    {
        match self.poll_with_credit(number, polls, credit) {
            Some(taken) => Some(taken),
            None => self.take(number, PARKED),
        }
    }

    /// Parks until the parker of the seat that waits is notified, and takes its waker. The thread polls at most `polls` times
    /// before it parks, if the credit allows it.
    pub(crate) fn park<T: Kept, R: Wait>(
        &self,
        rt: &R,
        wait: &UnlockedWait<T>,
        polls: u32,
        credit: &mut PollCredit,
    ) -> TakenWaker
        requires { wait.now.listed.number ≤ self.now.seats }
        ensures { (result.waker.number ≡ wait.now.listed.number) × (result.waker.seat.table_id ≡ self.now.table.shared.table_id) }
    {
        let number = wait.number();
        if let Some(taken) = self.poll_and_announce(number, polls, credit) {
            return taken;
        }
        for _ in rt.forever() {
            if let Some(taken) = self.take_if_notified(number) {
                return taken;
            }
            self.table.shared.park(rt, number as usize, PARKED as u32);
        }
        unreachable!()
    }

    /// Takes the waker if the parker was notified before this call, although the time of the wait is over.
    fn take_at_end(&self, number: u64, over: TimeIsOver) -> Result<TakenWaker, TimeIsOver>
        requires { number ≤ self.now.seats }
        ensures waker { IfOk result (λ t. (t.waker.number ≡ number) × (t.waker.seat.table_id ≡ self.now.table.shared.table_id)) }
        ensures over { IfErr result (λ o. o ≡ over) }
    {
        match self.take_if_notified(number) {
            Some(taken) => Ok(taken),
            None => Err(over),
        }
    }

    /// `park` until the deadline of the wait. If the parker was not notified by then, it returns that the time is over. If
    /// the system ends the sleep for no reason, the thread parks again for the time that is left.
    pub(crate) fn park_until<T: Kept, R: Wait + Clock>(
        &self,
        rt: &R,
        wait: &UnlockedWait<T>,
        polls: u32,
        credit: &mut PollCredit,
    ) -> Result<TakenWaker, TimeIsOver>
        requires { wait.now.listed.number ≤ self.now.seats }
        ensures waker { IfOk result (λ t. (t.waker.number ≡ wait.now.listed.number) × (t.waker.seat.table_id ≡ self.now.table.shared.table_id)) }
        ensures over { IfErr result (λ over. over.deadline ≡ wait.now.deadline) }
    {
        let number = wait.number();
        let deadline = wait.deadline();
        if let Some(taken) = self.poll_and_announce(number, polls, credit) {
            return Ok(taken);
        }
        for _ in rt.forever() {
            let time = match TimeIsOver::check(rt, deadline) {
                Ok(time) => time,
                Err(over) => return self.take_at_end(number, over),
            };
            self.table
                .shared
                .park_timeout(rt, number as usize, PARKED as u32, time);
            if let Some(taken) = self.take_if_notified(number) {
                return Ok(taken);
            }
        }
        unreachable!()
    }

    /// No wakers yet.
    pub(crate) fn no_wakers(&self) -> GatheredWakers
        ensures { (result.seat.me.0.wakers ≡ []) × (result.seat.table_id ≡ self.now.table.shared.table_id) }
    {
        let (_, seat) = self.table.shared.load_new_seat::<Begun>(0);
        GatheredWakers { seat }
    }

    /// Adds the waker to the others. Nobody can notify its parker any more.
    pub(crate) fn gather(&self, waker: Waker, all: &mut GatheredWakers)
        requires waker { (waker.number ≤ self.now.seats) × (waker.seat.table_id ≡ self.now.table.shared.table_id) }
        requires all { all.old.seat.table_id ≡ self.now.table.shared.table_id }
        ensures all { all.new.seat.table_id ≡ all.old.seat.table_id }
        ensures has { all.new.seat.me.0.wakers ≡ all.old.seat.me.0.wakers ++ waker.number ∷ [] }
    {
        let Waker { mut seat, number } = waker;
        let _found = self
            .table
            .shared
            .swap::<WakerRetired>(&mut seat, number as usize, EMPTY);
        self.table
            .shared
            .join_seat::<NoticesJoined>(&mut all.seat, seat);
    }

    /// Shows that no waker is there twice, by one load.
    pub(crate) fn show_each_once(&self, all: &mut GatheredWakers)
        requires { all.old.seat.table_id ≡ self.now.table.shared.table_id }
        ensures { (k : ℕ) → times k all.old.seat.me.0.wakers ≤ 1 }
    {
        let _found = self.table.shared.load::<EachWakerOnce>(&mut all.seat, 0);
    }

    /// Sets the word of this waker's parker to EMPTY. Its waker isn't in the table, so none is taken.
    pub(crate) fn clear(&self, waker: &Waker)
        requires { waker.now.number ≤ self.now.seats }
    {
        let _none = self.take(waker.number, EMPTY);
    }
}
