//! The stepped state, called directly.
use crate::seeing::sees;
use lfm_core::{Answer, Call, MAX_BUDGET, MAX_SEATS, State, Turn, Why, read_schedule, run};
use lfm_model::{Asked, How, NewFault, Place, Refusal, SeatNo, Unlocked};
use std::alloc::Global;
use std::process::Abort;
use std::test::Fail;

/// The turn that ends an `ask` in a hold of this depth.
fn again(depth: u32) -> Turn {
    Turn::Ended(Answer::Asked(Asked::Again(depth)))
}

/// Checks the state after one seat acquired the mutex by two turns.
fn sees_a_hold<R: Abort>(rt: &R, state: &State, turns: &[Turn]) {
    let held = Turn::Ended(Answer::Asked(Asked::Held(How::Free)));
    sees(rt, "two turns", &turns.len(), &2);
    sees(
        rt,
        "the first turn",
        &turns.get(0).copied(),
        &Some(Turn::Open),
    );
    sees(rt, "the last turn", &turns.get(1).copied(), &Some(held));
    sees(rt, "the count", &state.count(), &1);
    sees(rt, "the owner", &state.owner(), &1);
    sees(rt, "the handoff", &state.handoff().seat, &0);
    sees(
        rt,
        "the place",
        &state.place(),
        &Place::Owner(SeatNo::known(1)),
    );
    sees(rt, "the depth", &state.depth(1), &1);
    sees(rt, "the takes", &state.takes(1), &1);
    sees(rt, "the posts", &state.posts(1), &0);
    sees(rt, "the length of the queue", &state.queue_len(), &0);
    sees(rt, "nobody queued", &state.queued(0), &None);
}

#[test]
fn first_run(rt: HostRuntime) -> Result<(), Fail> {
    let schedule = read_schedule(rt.alloc(), b"seats 1\n1 lock\n1 *\n")?;
    sees(&rt, "the seats", &schedule.seats, &1);
    sees(&rt, "the budget", &schedule.budget, &MAX_BUDGET);
    let mut state = State::new(rt.alloc(), schedule.seats, schedule.budget)?;
    sees(&rt, "the place at first", &state.place(), &Place::Free);
    let turns = run(rt.alloc(), &mut state, schedule.lines.as_slice())?;
    sees_a_hold(&rt, &state, turns.as_slice());
    Ok(())
}

/// Why no state is made with these limits.
fn fault(alloc: Global, seats: u64, budget: u64) -> Option<NewFault> {
    State::new(alloc, seats, budget).err()
}

#[test]
fn limits(rt: HostRuntime) {
    let alloc = rt.alloc();
    let limit = Some(NewFault::Limit);
    sees(&rt, "no seats", &fault(alloc, 0, 1), &limit);
    sees(
        &rt,
        "a seat too many",
        &fault(alloc, MAX_SEATS + 1, 1),
        &limit,
    );
    sees(&rt, "no budget", &fault(alloc, 1, 0), &limit);
    sees(
        &rt,
        "a take too many",
        &fault(alloc, 1, MAX_BUDGET + 1),
        &limit,
    );
    sees(
        &rt,
        "the greatest limits",
        &fault(alloc, MAX_SEATS, MAX_BUDGET),
        &None,
    );
}

/// Checks a state of three seats after seat 1 served seat 2 and queued behind seat 3.
fn sees_a_queue<R: Abort>(rt: &R, state: &State, turns: &[Turn]) {
    let granted = Turn::Ended(Answer::Unlocked(Unlocked::Granted(SeatNo::known(2))));
    sees(
        rt,
        "the turn of unlock",
        &turns.get(7).copied(),
        &Some(granted),
    );
    sees(
        rt,
        "the place",
        &state.place(),
        &Place::Passed(SeatNo::known(2)),
    );
    // seat 3 is on the pop list, seat 1 on the push list
    sees(rt, "the length of the queue", &state.queue_len(), &2);
    sees(
        rt,
        "the first in it",
        &state.queued(0),
        &Some((SeatNo::known(3), 2)),
    );
    sees(
        rt,
        "the second in it",
        &state.queued(1),
        &Some((SeatNo::known(1), 3)),
    );
    sees(rt, "no third in it", &state.queued(2), &None);
}

#[test]
fn a_queue(rt: HostRuntime) -> Result<(), Fail> {
    let schedule = read_schedule(
        rt.alloc(),
        b"seats 3\n1 lock\n1 *\n2 lock\n2 *\n3 lock\n3 *\n1 unlock\n1 *\n1 lock\n1 *",
    )?;
    let mut state = State::new(rt.alloc(), schedule.seats, schedule.budget)?;
    let turns = run(rt.alloc(), &mut state, schedule.lines.as_slice())?;
    sees_a_queue(&rt, &state, turns.as_slice());
    Ok(())
}

/// Checks that a lock by seat 1 starts, and ends with this turn.
fn locks<R: Abort>(rt: &R, state: &mut State, ended: Turn) {
    sees(rt, "lock begins", &state.begin(1, Call::Lock), &Turn::Open);
    sees(rt, "lock ends", &state.steps(1, 9), &ended);
}

/// Checks that no seat deepens a hold of the greatest depth.
fn sees_full<R: Abort>(rt: &R, state: &mut State) {
    let full = Turn::Refused(Why::By(Refusal::DepthFull));
    sees(rt, "lock", &state.begin(1, Call::Lock), &full);
    sees(rt, "try_lock", &state.begin(1, Call::TryLock), &full);
    sees(rt, "the depth", &state.depth(1), &65_535);
    sees(rt, "the takes", &state.takes(1), &1);
    sees(rt, "the count", &state.count(), &1);
}

#[test]
fn depth_full(rt: HostRuntime) -> Result<(), Fail> {
    let mut state = State::new(rt.alloc(), 1, 1)?;
    locks(
        &rt,
        &mut state,
        Turn::Ended(Answer::Asked(Asked::Held(How::Free))),
    );
    for depth in 2..=65_535 {
        locks(&rt, &mut state, again(depth));
    }
    sees_full(&rt, &mut state);
    Ok(())
}
