//! How many rounds that begin while no seat owns pass before a queued record leaves, and before its seat holds. The laws
//! `queued_seats_are_served_in_rounds` and `queued_seats_hold_in_rounds` bound them for every schedule. Here one schedule shows
//! that both bounds are exact for the first record of a queue, at two seats.
use crate::seeing::sees;
use lfm_core::points::Point;
use lfm_core::{Act, Call, Line, State, Turn, read_schedule, run};
use lfm_model::SeatNo;
use lfm_words::Wake;
use std::alloc::Global;
use std::process::Abort;
use std::test::Fail;

/// What leads to the first round. Seat 2 has its grant, though its `lock` has not ended, and seat 1 has just pushed its record.
/// With the rounds below it is the example `handoffs/most_rounds_before_a_grant`.
const START: &[u8; 67] =
    b"seats 2\n1 lock\n1 *\n1 unlock\n1 .\n2 lock\n2 .\n1 .\n2 +4\n1 *\n1 lock\n1 +5";

/// Eight rounds. In the first, both seats end their `lock`. In the next four, seat 2 begins its `receive` and makes its three
/// steps, the last of which stores the owner. The other three begin after seat 2 has cleared the owner: it lowers the count,
/// clears the head of the push word, and loads the link of seat 1.
const ROUNDS: &[u8; 62] =
    b"seats 2\n1 .\n2 .\n2 receive\n2 .\n2 .\n2 .\n2 unlock\n2 .\n2 .\n2 .\n2 .";

/// A ninth round, in which seat 2 grants seat 1 the mutex.
const GRANT: &[u8; 11] = b"seats 2\n2 .";

/// Three rounds more, in which seat 1 begins its `receive`, loads the grant and stores QUIET.
const RECEIVE: &[u8; 25] = b"seats 2\n1 receive\n1 .\n1 .";

/// A thirteenth round, in which seat 1 stores the owner.
const HOLD: &[u8; 11] = b"seats 2\n1 .";

/// Whether the call of a seat is open.
fn is_in_call(state: &State, seat: u64) -> bool {
    !matches!(&state.point(seat), Point::Rest | Point::Asleep(_))
}

/// Whether a seat can go on: its call is open, or it sleeps and has its grant.
fn can_go_on(state: &State, seat: u64) -> bool {
    match state.point(seat) {
        Point::Rest => false,
        Point::Asleep(_) => matches!(&state.wake_word(seat), Wake::Grant(_)),
        _ => true,
    }
}

/// The rounds of two seats that begin while no seat owns.
#[derive(Drop)]
struct Rounds {
    /// Whether a round has begun that has not ended.
    has_begun: bool,
    /// Whether seat 1 has yet to go on in it.
    waits_for_first: bool,
    /// Whether seat 2 has yet to go on in it.
    waits_for_second: bool,
    /// How many have ended.
    ended: u64,
}

impl Rounds {
    /// Begins a round in this state, unless one has begun or a seat owns.
    fn begin(&mut self, state: &State) {
        if !self.has_begun && state.owner() == 0 {
            self.has_begun = true;
            self.waits_for_first = can_go_on(state, 1);
            self.waits_for_second = can_go_on(state, 2);
        }
    }

    /// Notes that a seat goes on. A round ends when each seat that could go on at its start has gone on.
    fn note(&mut self, seat: u64) {
        if seat == 1 {
            self.waits_for_first = false;
        } else {
            self.waits_for_second = false;
        }
        if self.has_begun && !self.waits_for_first && !self.waits_for_second {
            self.has_begun = false;
            self.ended = self.ended.wrapping_add(1);
        }
    }
}

/// Makes the event of a line, and answers whether its seat goes on by it: it makes a step of its open call, or begins a receive
/// that isn't refused. A line with steps is made as one step.
fn goes_on_by(state: &mut State, line: &Line) -> bool {
    match line.act {
        Act::Begin(call) => state.begin(line.seat, call) == Turn::Open && call == Call::Receive,
        Act::Steps(_) | Act::ToEnd => {
            let was_in_call = is_in_call(state, line.seat);
            state.step(line.seat);
            was_in_call
        }
    }
}

/// Makes the events of these lines, and counts the rounds in them. Each round begins as early as it can, so no other choice
/// of rounds has more.
fn count_rounds(state: &mut State, lines: &[Line]) -> u64 {
    let mut rounds = Rounds {
        has_begun: false,
        waits_for_first: false,
        waits_for_second: false,
        ended: 0,
    };
    for line in lines {
        rounds.begin(state);
        if goes_on_by(state, line) {
            rounds.note(line.seat);
        }
    }
    rounds.ended
}

/// Checks how many rounds these lines have.
fn sees_rounds<R: Abort>(
    rt: &R,
    alloc: Global,
    state: &mut State,
    text: &[u8],
    wanted: u64,
) -> Result<(), Fail> {
    let schedule = read_schedule(alloc, text)?;
    sees(
        rt,
        "the rounds",
        &count_rounds(state, schedule.lines.as_slice()),
        &wanted,
    );
    Ok(())
}

#[test]
fn most_rounds_before_a_grant(rt: HostRuntime) -> Result<(), Fail> {
    let schedule = read_schedule(rt.alloc(), START)?;
    let mut state = State::new(rt.alloc(), schedule.seats, schedule.budget)?;
    run(rt.alloc(), &mut state, schedule.lines.as_slice())?;
    let first = Some((SeatNo::known(1), 2));
    sees(&rt, "the first at the start", &state.queued(0), &first);
    sees_rounds(&rt, rt.alloc(), &mut state, ROUNDS, 8)?;
    sees(&rt, "the first after 8 rounds", &state.queued(0), &first);
    sees(&rt, "the owner", &state.owner(), &0);
    sees_rounds(&rt, rt.alloc(), &mut state, GRANT, 1)?;
    sees(&rt, "nobody queued", &state.queued(0), &None);
    sees(&rt, "the grant", &state.wake_word(1), &Wake::Grant(2));
    sees_rounds(&rt, rt.alloc(), &mut state, RECEIVE, 3)?;
    sees(&rt, "no owner after 12", &state.owner(), &0);
    sees_rounds(&rt, rt.alloc(), &mut state, HOLD, 1)?;
    sees(&rt, "the owner after 13", &state.owner(), &1);
    Ok(())
}
