//! The calls that ask for memory. Each test whose name contains `memory` also passes if a request was refused: it then checks
//! that nothing was changed or written, and prints that memory was refused. A script makes each request of these tests fail in
//! turn.
ghost use Rattle.std.specs.Prelude.{All, IfSome};
ghost use Rattle.lfm_core.specs.text.Grammar.{HasFewSteps};

use crate::refused_memory::{sees_memory, tells_refused};
use crate::seeing::sees;
use lfm_core::{Answer, Call, ReplayFault, Schedule, State, Turn, read_schedule, replay, run};
use lfm_model::{
    Asked, Entry, How, NewFault, Place, SeatNo, Total, TotalOp, Unlocked, What, journals,
};
use lfm_mutex::Mutex;
use lfm_test_tools::counted::Counted;
use lfm_words::{Handoff, PopList};
use std::alloc::Global;
use std::process::Abort;
use std::sync::atomic::{AtomicU64, Ordering};

const SCHEDULE: &[u8; 46] = b"seats 2\n1 lock\n1 *\n2 lock\n2 .\n1 unlock\n1 *\n2 *";

#[test]
fn pop_list_and_memory(rt: HostRuntime) {
    match PopList::new(rt.alloc(), 3) {
        Ok(list) => assert!(rt; list.is_empty()),
        Err(_) => tells_refused(&rt),
    }
}

#[test]
fn state_and_memory(rt: HostRuntime) {
    match State::new(rt.alloc(), 2, 1) {
        Ok(state) => sees(&rt, "the count", &state.count(), &0),
        Err(fault) => sees_memory(&rt, &fault, &NewFault::Memory),
    }
}

#[test]
fn schedule_and_memory(rt: HostRuntime) {
    match read_schedule(rt.alloc(), SCHEDULE) {
        Ok(schedule) => sees(&rt, "the lines", &schedule.lines.len(), &7),
        Err(fault) => sees_memory(&rt, &fault, &ReplayFault::Memory),
    }
}

/// What two seats do after there is a post and a record: the locker takes the post over and becomes the owner.
const REST: &[u8; 26] = b"seats 2 1\n1 .\n2 +2\n1 *\n2 *";

/// Checks that a call of a seat starts.
fn begins<R: Abort>(rt: &R, state: &mut State, seat: u64, call: Call) {
    sees(rt, "a begin", &state.begin(seat, call), &Turn::Open);
}

/// Checks that a seat makes this number of steps, and that its call goes on.
fn goes_on<R: Abort>(rt: &R, state: &mut State, seat: u64, steps: u64) {
    sees(rt, "steps", &state.steps(seat, steps), &Turn::Open);
}

/// Checks that a call of a seat ends with this turn.
fn ends<R: Abort>(rt: &R, state: &mut State, seat: u64, turn: Turn) {
    sees(rt, "an end", &state.steps(seat, 9), &turn);
}

/// Brings a state of two seats to the point at which seat 1 has posted and seat 2 has queued, each within a call.
fn post_beside_a_record<R: Abort>(rt: &R, state: &mut State) {
    let held = Turn::Ended(Answer::Asked(Asked::Held(How::Free)));
    begins(rt, state, 1, Call::Lock);
    ends(rt, state, 1, held);
    begins(rt, state, 2, Call::Lock);
    goes_on(rt, state, 2, 1);
    begins(rt, state, 1, Call::Unlock);
    // seat 1 finds no record queued, and carries the responsibility
    goes_on(rt, state, 1, 3);
    goes_on(rt, state, 2, 4);
    goes_on(rt, state, 1, 1);
}

/// Checks the depth, the takes and the posts of a seat.
fn sees_seat<R: Abort>(rt: &R, state: &State, seat: u64, wanted: (u64, u64, u64)) {
    let found = (
        u64::from(state.depth(seat)),
        state.takes(seat),
        state.posts(seat),
    );
    sees(rt, "a seat", &found, &wanted);
}

/// Checks that the functions that read a state show that post and that record.
fn sees_post_beside_a_record<R: Abort>(rt: &R, state: &State) {
    let posted = Handoff { seat: 1, post: 1 };
    let record = Some((SeatNo::known(2), 1));
    sees(rt, "the count", &state.count(), &1);
    sees(rt, "the owner", &state.owner(), &0);
    sees(rt, "the handoff", &state.handoff(), &posted);
    sees(rt, "the place", &state.place(), &Place::Posted);
    sees(rt, "the length of the queue", &state.queue_len(), &1);
    sees(rt, "the first in it", &state.queued(0), &record);
    sees(rt, "no second in it", &state.queued(1), &None);
    sees_seat(rt, state, 1, (0, 1, 1));
    sees_seat(rt, state, 2, (0, 1, 0));
}

/// Checks the last turns of the four lines.
fn sees_rest<R: Abort>(rt: &R, turns: &[Turn]) {
    let taken = Turn::Ended(Answer::Unlocked(Unlocked::TakenOver));
    let held = Turn::Ended(Answer::Asked(Asked::Held(How::Queued(1))));
    assert_eq!(*rt; turns, [Turn::Open, Turn::Open, taken, held].as_slice());
}

/// The schedule of the lines that follow, and a state of two seats. If memory is refused, prints so and returns None.
fn rest_and_state<R: Abort + Print>(rt: &R, alloc: Global) -> Option<(Schedule, State)>
    ensures { IfSome result (λ r. All (λ l. HasFewSteps l.act) r.0.lines.items) }
{
    let schedule = match read_schedule(alloc, REST) {
        Ok(schedule) => schedule,
        Err(fault) => {
            sees_memory(rt, &fault, &ReplayFault::Memory);
            return None;
        }
    };
    match State::new(alloc, 2, 1) {
        Ok(state) => Some((schedule, state)),
        Err(fault) => {
            sees_memory(rt, &fault, &NewFault::Memory);
            None
        }
    }
}

#[test]
fn run_and_memory(rt: HostRuntime) {
    let Some((schedule, mut state)) = rest_and_state(&rt, rt.alloc()) else {
        return;
    };
    post_beside_a_record(&rt, &mut state);
    sees_post_beside_a_record(&rt, &state);
    match run(rt.alloc(), &mut state, schedule.lines.as_slice()) {
        Ok(turns) => sees_rest(&rt, turns.as_slice()),
        Err(_) => {
            tells_refused(&rt);
            sees_post_beside_a_record(&rt, &state);
            // seat 1 goes on from there
            goes_on(&rt, &mut state, 1, 1);
        }
    }
}

/// The result of a replay of the schedule, and how much room is left of 512 bytes.
fn replayed(alloc: Global) -> (Result<bool, ReplayFault>, usize) {
    let mut written = [0; 512];
    let mut writer = written.as_mut_slice();
    let mut reader = SCHEDULE.as_slice();
    let outcome = replay(alloc, &mut reader, &mut writer);
    (outcome, writer.len())
}

#[test]
fn replay_and_memory(rt: HostRuntime) {
    let (outcome, room) = replayed(rt.alloc());
    match outcome {
        Ok(none_refused) => {
            assert!(rt; none_refused);
            sees(&rt, "the room", &room, &(512 - 252));
        }
        Err(fault) => {
            sees_memory(&rt, &fault, &ReplayFault::Memory);
            sees(&rt, "the room", &room, &512);
        }
    }
}

#[test]
fn mutex_and_memory(rt: HostRuntime) {
    let drops = AtomicU64::new(0);
    match Mutex::new(rt.alloc(), 2, 1, Counted { drops: &drops }) {
        Ok(_made) => sees(&rt, "no drop", &drops.load(Ordering::SeqCst), &0),
        Err(fault) => {
            sees_memory(&rt, &fault, &NewFault::Memory);
            sees(&rt, "one drop", &drops.load(Ordering::SeqCst), &1);
        }
    }
}

/// An entry of this seat.
fn entry(seat: SeatNo, what: What<TotalOp>) -> Entry<TotalOp> {
    Entry { seat, what }
}

/// The journal of a monitor that two seats took in turns.
fn journal() -> [Entry<TotalOp>; 6] {
    let first = SeatNo::known(1);
    let second = SeatNo::known(2);
    [
        entry(first, What::Took(How::Free)),
        entry(first, What::Did(TotalOp::Add(5))),
        entry(second, What::Took(How::Queued(1))),
        entry(second, What::Did(TotalOp::Add(7))),
        entry(first, What::Took(How::Queued(2))),
        entry(first, What::Did(TotalOp::Read)),
    ]
}

#[test]
fn journal_and_memory(rt: HostRuntime) {
    match journals::replay(rt.alloc(), Total(0), &journal()) {
        Ok((total, replies)) => {
            sees(&rt, "the total", &total, &Total(12));
            assert_eq!(rt; replies.as_slice(), [5, 12, 12].as_slice());
        }
        Err(_) => tells_refused(&rt),
    }
}

#[test]
fn journal_of_a_counted_object_and_memory(rt: HostRuntime) {
    let drops = AtomicU64::new(0);
    match journals::replay(rt.alloc(), Counted { drops: &drops }, &journal()) {
        Ok(_replayed) => sees(&rt, "no drop", &drops.load(Ordering::SeqCst), &0),
        Err(_) => {
            tells_refused(&rt);
            sees(&rt, "one drop", &drops.load(Ordering::SeqCst), &1);
        }
    }
}
