//! The commands of one worker, made in the thread that holds its pass.
ghost use Rattle.lfm_program.specs.Workers.{ReadyFor};

use crate::passes::{closed_by_one, closed_by_two, monitor_of_one, monitor_of_two};
use lfm_model::{Refusal, Total};
use lfm_monitor::{Monitor, Pass};
use lfm_program::{Command, Gate, Meet, OpenGate, Performed, perform};
use std::sync::Wait;

/// The turns for which a worker polls for the other.
const TURNS: u64 = 1000;

/// Waits until the other worker has added.
const WAITS: [Command; 1] = [Command::Until(1, 3)];

/// Adds and wakes.
const ADDS: [Command; 2] = [Command::Add(3), Command::All(1)];

/// `perform`. Of its contract the tests need only that the pass may make further commands.
fn performed<R: Wait, G: Gate>(
    rt: &R,
    monitor: &Monitor<Total>,
    pass: &mut Pass<Total>,
    commands: &[Command],
    gate: &G,
) -> Performed
    requires { ReadyFor monitor.now pass.old }
    ensures { ReadyFor monitor.now pass.new }
{
    perform(rt, monitor, pass, commands, gate)
}

/// Two workers that are to meet make their commands one after the other. Returns how they ended, the first worker first.
fn perform_in_turn<R: Wait>(
    rt: &R,
    monitor: &Monitor<Total>,
    first: &mut Pass<Total>,
    second: &mut Pass<Total>,
    waiter_first: bool,
) -> (Performed, Performed)
    requires first { ReadyFor monitor.now first.old }
    requires second { ReadyFor monitor.now second.old }
    ensures first { ReadyFor monitor.now first.new }
    ensures second { ReadyFor monitor.now second.new }
{
    let gate = Meet::new(TURNS);
    if waiter_first {
        let waits = performed(rt, monitor, first, &WAITS, &gate);
        let adds = performed(rt, monitor, second, &ADDS, &gate);
        (waits, adds)
    } else {
        let adds = performed(rt, monitor, second, &ADDS, &gate);
        let waits = performed(rt, monitor, first, &WAITS, &gate);
        (waits, adds)
    }
}

/// A pass that is alone in a monitor with one condition makes these commands. Returns how they ended, how many entries are its
/// own, at which depth it holds, and the total.
fn alone<R: AllocGlobal + Wait>(
    rt: &R,
    entries: u64,
    commands: &[Command],
) -> Option<(Performed, u64, u32, Total)> {
    let (monitor, mut pass) = monitor_of_one(rt.alloc(), entries, 1)?;
    let outcome = performed(rt, &monitor, &mut pass, commands, &OpenGate);
    let (mine, depth) = (pass.mine(), pass.depth());
    let total = closed_by_one(monitor, pass, Vec::new(rt.alloc()))?;
    Some((outcome, mine, depth, total))
}

/// A worker adds twice, and once more when its entries are spent. Returns how it ended each time and with how many entries, at
/// which depth it holds, and the total.
fn adds_until_spent<R: AllocGlobal + Wait>(
    rt: &R,
) -> Option<((Performed, u64), (Performed, u64), u32, Total)> {
    let (monitor, mut pass) = monitor_of_one(rt.alloc(), 4, 0)?;
    let adds = [Command::Add(5), Command::Add(7)];
    let first = performed(rt, &monitor, &mut pass, &adds, &OpenGate);
    let first_mine = pass.mine();
    let second = performed(rt, &monitor, &mut pass, &[Command::Add(1)], &OpenGate);
    let (second_mine, depth) = (pass.mine(), pass.depth());
    let total = closed_by_one(monitor, pass, Vec::new(rt.alloc()))?;
    Some(((first, first_mine), (second, second_mine), depth, total))
}

#[test]
fn performing(rt: HostRuntime) {
    let done = (Performed::Done, 4);
    let spent = (Performed::Refused(Refusal::Spent), 4);
    assert_eq!(rt; adds_until_spent(&rt), Some((done, spent, 0, Total(12))));
}

/// A command with a missing condition is refused by the call of the monitor that needs the condition: a wake at once, and a
/// wait after a take and a read. A wait that is over at once needs no condition.
#[test]
fn each_command_and_its_refusal(rt: HostRuntime) {
    let not_there = Performed::Refused(Refusal::NoSuchSeat);
    let spent = Performed::Refused(Refusal::Spent);
    for (entries, command, outcome, mine) in [
        (4, Command::One(1), Performed::Done, 0),
        (4, Command::All(1), Performed::Done, 0),
        (4, Command::Until(1, 0), Performed::Done, 2),
        (4, Command::One(2), not_there, 0),
        (4, Command::All(2), not_there, 0),
        (4, Command::Until(2, 1), not_there, 2),
        (4, Command::Until(2, 0), Performed::Done, 2),
        // the take leaves no entry for the op
        (1, Command::Add(1), spent, 1),
        (1, Command::Until(1, 0), spent, 1),
        // the read leaves no entry for the take that ends the wait
        (2, Command::Until(1, 1), spent, 2),
    ] {
        assert_eq!(rt;
            alone(&rt, entries, &[command]),
            Some((outcome, mine, 0, Total(0))),
            "{entries} entries, {command:?}"
        );
    }
}

/// Two passes that are to meet make their commands one after the other. Returns how they ended, how many entries are their own,
/// at which depths they hold, the total, and how many entries the journal has.
fn in_turn<R: AllocGlobal + Wait>(
    rt: &R,
    waiter_first: bool,
) -> Option<((Performed, Performed), (u64, u64), (u32, u32), Total, usize)> {
    let (monitor, mut first, mut second) = monitor_of_two(rt.alloc(), 8, 1)?;
    let outcomes = perform_in_turn(rt, &monitor, &mut first, &mut second, waiter_first);
    let mine = (first.mine(), second.mine());
    let depths = (first.depth(), second.depth());
    let (total, journal) = closed_by_two(monitor, first, second, Vec::new(rt.alloc()))?;
    Some((outcomes, mine, depths, total, journal.len()))
}

/// The worker that comes first gives up at the meeting, so the other is stopped too. Neither has made a command.
#[test]
fn workers_in_turn_are_stuck(rt: HostRuntime) {
    let stuck = (Performed::Stuck, Performed::Stuck);
    for waiter_first in [true, false] {
        assert_eq!(rt;
            in_turn(&rt, waiter_first),
            Some((stuck, (0, 0), (0, 0), Total(0), 0))
        );
    }
}
