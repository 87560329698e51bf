//! Two threads take turns at one mutex, each with its own condvar. In a turn a thread acquires the mutex, waits until the other
//! has had its turn, and adds 1 to the number under the mutex. Then it unlocks the mutex and wakes the other, in the order that
//! `Waking` says.
ghost use Rattle.std.specs.Prelude.{◌≡◌, ◌*◌, ◌%◌, ◌^◌, Some, true};

use crate::measure::clocks::{now, since};
use crate::measure::{Gate, Round, Sample};
use crate::peers::guarded::Operation;
use crate::peers::morphing::{MorphingPlaces, MorphingShared};
use crate::peers::ours::Locking;
use crate::peers::participants::{Participant, Places, Side, Waking, lock_and_apply};
use crate::peers::plain::{PlainPlaces, PlainShared};
use crate::peers::standard::{unlock_and_notify, wait_until};
use std::io;
use std::sync::{Condvar, Mutex, Wait};
use std::thread::{Threads, join};
use std::time::Clock;

/// How many seats there are: one for each of the two threads, and one that reads the number after them.
const SEATS: u64 = 3;

/// The amount of work.
#[derive(Clone, Copy)]
pub struct Load {
    /// How many turns each thread takes.
    pub turns: u64,
    /// When a thread wakes the other after its turn.
    pub waking: Waking,
}

/// What one thread did.
#[derive(Clone, Copy)]
struct TurnsTaken {
    made: u64,
    nanoseconds: u64,
}

/// The turns of one thread.
#[derive(Clone, Copy)]
struct Task {
    turns: u64,
    /// The number under the mutex at which its first turn is due.
    start: u64,
    waking: Waking,
}

impl Task {
    /// The turns of the thread that takes the first turn.
    fn first(load: Load) -> Task {
        Task {
            turns: load.turns,
            start: 0,
            waking: load.waking,
        }
    }

    /// The turns of the other thread.
    fn second(load: Load) -> Task {
        Task {
            start: 1,
            ..Task::first(load)
        }
    }

    /// The number under the mutex at which this turn is due. The first turn is turn 0.
    fn due(self, turn: u64) -> u64 {
        turn.wrapping_mul(2).wrapping_add(self.start)
    }
}

/// The sample of two threads, each of which was to take `turns` turns. `number` is the number after them; it was 0 before. A
/// call is one turn of each thread. The sample is exact if each took its turns and the number is how many there were.
fn sample(first: TurnsTaken, second: TurnsTaken, turns: u64, number: Option<u64>) -> Sample
    ensures made { result.exact ≡ true → (first.made ≡ turns) × (second.made ≡ turns) }
    ensures number { result.exact ≡ true → number ≡ Some (turns * 2 % 2 ^ 64) }
{
    let exact = first.made == turns
        && second.made == turns
        && number == Some(turns.wrapping_mul(2));
    Sample::of_calls(first.nanoseconds.max(second.nanoseconds), turns, exact)
}

/// A round.
pub fn round<R: Threads + Sync + Wait + Clock + AllocGlobal>(
    rt: &R,
    load: Load,
) -> io::Result<Round> {
    let (in_order, barging) = match load.waking {
        Waking::InHold => (
            Some(morphing(rt, load, Locking::InOrder)?),
            Some(morphing(rt, load, Locking::Barging)?),
        ),
        Waking::AfterUnlock => (None, None),
    };
    Ok(Round {
        in_order,
        barging,
        plain: Some(plain(rt, load)?),
        standard: Some(standard(rt, load)),
        ..Round::NONE
    })
}

/// Our mutex and condvars that morph waits.
fn morphing<R: Threads + Sync + Wait + Clock + AllocGlobal>(
    rt: &R,
    load: Load,
    locking: Locking,
) -> io::Result<Sample> {
    let (shared, free) = MorphingShared::new(rt, SEATS)?;
    ours(rt, load, MorphingPlaces::new(&shared, free, locking))
}

/// Our mutex and plain condvars.
fn plain<R: Threads + Sync + Wait + Clock + AllocGlobal>(rt: &R, load: Load) -> io::Result<Sample> {
    let (shared, free) = PlainShared::new(rt, SEATS)?;
    ours(rt, load, PlainPlaces::new(&shared, free))
}

/// Our mutex and condvars. The number is read after the turns.
fn ours<R: Threads + Sync + Wait + Clock, S: Places>(
    rt: &R,
    load: Load,
    mut places: S,
) -> io::Result<Sample> {
    let mut reader = places.next(Side::First)?;
    let first = places.next(Side::First)?;
    let second = places.next(Side::Second)?;
    let (ping, pong) = our_pair(rt, load, first, second);
    let number = lock_and_apply(rt, &mut reader, Operation::ReadFrom(0), load.waking);
    Ok(sample(ping, pong, load.turns, number))
}

/// The turns of two participants. The first participant takes the first turn.
fn our_pair<R: Threads + Sync + Wait + Clock, P: Participant>(
    rt: &R,
    load: Load,
    first: P,
    second: P,
) -> (TurnsTaken, TurnsTaken) {
    let gate = Gate::new(2);
    let start = &gate;
    join(
        rt,
        move || our_turns(rt, start, Task::first(load), first),
        move || our_turns(rt, start, Task::second(load), second),
    )
}

/// The turns of one participant.
fn our_turns<R: Wait + Clock, P: Participant>(
    rt: &R,
    gate: &Gate,
    task: Task,
    mut participant: P,
) -> TurnsTaken {
    let mut made = 0u64;
    gate.pass();
    let start = now(rt);
    for turn in 0..task.turns {
        let operation = Operation::AddOneTo(task.due(turn));
        let number = lock_and_apply(rt, &mut participant, operation, task.waking);
        if number.is_some() {
            made = made.wrapping_add(1);
        }
    }
    TurnsTaken {
        made,
        nanoseconds: since(rt, start),
    }
}

/// What one thread uses of std's: the mutex, the condvar on which it waits, and the one on which the other thread waits.
#[derive(Clone, Copy)]
struct StandardParticipant<'a> {
    mutex: &'a Mutex<u64>,
    own: &'a Condvar,
    other: &'a Condvar,
}

/// Std's mutex and condvars.
fn standard<R: Threads + Sync + Wait + Clock>(rt: &R, load: Load) -> Sample {
    let mutex = Mutex::new(0u64);
    let (ping, pong) = standard_pair(rt, load, &mutex);
    sample(ping, pong, load.turns, Some(mutex.into_inner()))
}

/// The turns of two threads at std's mutex.
fn standard_pair<R: Threads + Sync + Wait + Clock>(
    rt: &R,
    load: Load,
    mutex: &Mutex<u64>,
) -> (TurnsTaken, TurnsTaken) {
    let gate = Gate::new(2);
    let conditions = (Condvar::new(), Condvar::new());
    let start = &gate;
    let (own, other) = (&conditions.0, &conditions.1);
    let first = StandardParticipant { mutex, own, other };
    let second = StandardParticipant {
        mutex,
        own: other,
        other: own,
    };
    join(
        rt,
        move || standard_turns(rt, start, Task::first(load), first),
        move || standard_turns(rt, start, Task::second(load), second),
    )
}

/// The turns of one thread at std's mutex.
fn standard_turns<R: Wait + Clock>(
    rt: &R,
    gate: &Gate,
    task: Task,
    participant: StandardParticipant,
) -> TurnsTaken {
    let mut made = 0u64;
    gate.pass();
    let start = now(rt);
    for turn in 0..task.turns {
        let held = participant.mutex.lock(rt);
        let mut number = wait_until(rt, participant.own, held, task.due(turn));
        *number = number.wrapping_add(1);
        made = made.wrapping_add(1);
        unlock_and_notify(number, participant.other, task.waking);
    }
    TurnsTaken {
        made,
        nanoseconds: since(rt, start),
    }
}
