//! How a mutex is made: one table of words, whose first seat is seat 1, and the other seats split off it.
ghost use Rattle.std.specs.Prelude.{◌≡◌, ◌+◌, ℕ, [], IfOk, IfErr, vec_len, true, false};
ghost use mathlib.Core.Option.{some};
ghost use lib.ListN.{get_elem?};
ghost use Rattle.lfm_model.specs.declared.refusals.NewFault.{NewFault};
ghost use Rattle.lfm_protocol.specs.Limits.{are_in_limits};
ghost use Rattle.lfm_mutex.specs.AllSeats.{SeatsOf};
ghost use Rattle.lfm_mutex.specs.Belongs.{OfMutex, limits_of};
ghost use Rattle.lfm_mutex.specs.Paces.{usual_pace};
ghost use Rattle.lfm_mutex.specs.calls.RunGoesOn.{past_of};
ghost use Rattle.lfm_mutex.specs.calls.Sight.{sight, new_sight};
ghost use Rattle.lfm_mutex.specs.Fresh.{IsFirstAt};

use crate::mutex::Mutex;
use crate::pace::Pace;
use crate::seat::Seat;
use lfm_model::NewFault;
use lfm_protocol::{Limits, SeatState};
use lfm_table::moving_box::MovingBox;
use lfm_table::rule::Key;
use lfm_table::shared_table::{AtomicSeat, SharedTable};
use lfm_table::{Kept, OffTrail, TableSeat};
use lfm_words::PopList;
use std::alloc::Global;
use std::snapshot::Snapshot;

/// The pace of a new mutex is for this number of processors, since `new` cannot ask the system.
const USUAL_PROCESSORS: u64 = 8;

impl<T: Kept> Mutex<T> {
    /// A mutex around this value, and its seats in order, numbered from 1. `seats` is 1 to 4,095. `budget`, the number of takes
    /// that each seat may make, is 1 to 2^36. A `lock`, `try_lock` or `start_wait` charges one take unless it is refused or
    /// deepens a hold. The value has to suit a mutex that has had no queued take, as `fits` of `Kept` says. The pace is the one
    /// for eight processors until `set_pace`.
    ///
    /// Outside these limits it returns Limit, and requests no memory. It returns Memory if a request for memory was refused. On
    /// a fault the value is dropped. Of the other functions of a mutex only `run` allocates.
    pub fn new(
        alloc: Global,
        seats: u64,
        budget: u64,
        value: T,
    ) -> Result<(Mutex<T>, Vec<Seat<T>>), NewFault>
        requires fits { T.fits value 0 }
        ensures limits { IfOk result (λ r. (limits_of r.0 ≡ record { seats = seats; budget = budget }) × (are_in_limits seats budget ≡ true)) }
        ensures seats { IfOk result (λ r. (vec_len r.1 ≡ seats) × ((j : ℕ) (s : _) → get_elem? r.1.items j ≡ some s → OfMutex s r.0 × (sight s ≡ new_sight value seats (j + 1)))) }
        ensures belongs { IfOk result (λ r. SeatsOf r.1.items r.0) }
        ensures past { IfOk result (λ r. (j : ℕ) (s : _) → get_elem? r.1.items j ≡ some s → past_of s ≡ []) }
        ensures pace { IfOk result (λ r. r.0.pace ≡ usual_pace) }
        ensures limit { are_in_limits seats budget ≡ false → IfErr result (λ e. e ≡ NewFault.Limit) × IfOk result (λ _. ⊥) }
        ensures memory { are_in_limits seats budget ≡ true → IfErr result (λ e. e ≡ NewFault.Memory) }
    {
        let limits = Limits { seats, budget };
        if !limits.are_allowed() {
            return Err(NewFault::Limit);
        }
        let Ok(mut all) = Vec::with_capacity(alloc, seats as usize) else {
            return Err(NewFault::Memory);
        };
        let (table, mut root) = match new_table(alloc, limits, value) {
            Ok(laid) => laid,
            Err(fault) => return Err(fault),
        };
        for i in 1..seats {
            let place = table.split_seat(&mut root);
            all.push_reserved(Seat {
                table_seat: TableSeat {
                    place,
                    moving: None,
                    number: i + 1,
                    limits,
                },
                state: SeatState::REST,
                off_trail: OffTrail::new(),
            });
        }
        let first = Seat {
            table_seat: TableSeat {
                place: root,
                moving: None,
                number: 1,
                limits,
            },
            state: SeatState::REST,
            off_trail: OffTrail::new(),
        };
        let Ok(()) = all.insert(0, first) else {
            unreachable!()
        };
        let mutex = Mutex {
            table,
            limits,
            pace: Pace::for_processors(USUAL_PROCESSORS),
        };
        Ok((mutex, all))
    }
}

/// The table of a mutex that no seat holds or wants, and its first seat.
fn new_table<T: Kept>(
    alloc: Global,
    limits: Limits,
    value: T,
) -> Result<(SharedTable<T>, AtomicSeat<T>), NewFault>
    requires allowed { are_in_limits limits.seats limits.budget ≡ true }
    requires fits { T.fits value 0 }
    ensures ok { IfOk result (λ r. IsFirstAt r.0 limits value r.1) }
    ensures err { IfErr result (λ e. e ≡ NewFault.Memory) }
{
    let about = Key {
        limits,
        opening: Snapshot::of(&value),
    };
    let Ok(popped) = PopList::new(alloc, limits.seats) else {
        return Err(NewFault::Memory);
    };
    let Ok(moving) = MovingBox::new(alloc, popped, value) else {
        return Err(NewFault::Memory);
    };
    let mut slots = Vec::new(alloc);
    let Ok(()) = slots.push(Some(moving)) else {
        return Err(NewFault::Memory);
    };
    let Ok(words) = Vec::from_elem(alloc, 0u64, 4 + 2 * limits.seats as usize) else {
        return Err(NewFault::Memory);
    };
    let Ok(laid) = SharedTable::new(alloc, words.as_slice(), slots, &about) else {
        return Err(NewFault::Memory);
    };
    Ok(laid)
}
