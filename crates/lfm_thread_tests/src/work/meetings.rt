//! Two workers meet at a gate, or one comes alone.

use lfm_program::{Gate, Meet, OpenGate};
use std::thread::join;

/// More turns than a thread needs to be started.
const MANY_TURNS: u64 = 10_000_000_000;

#[test]
fn two_meet(rt: HostRuntime) {
    let gate = Meet::new(MANY_TURNS);
    let at_gate = &gate;
    let (first, second) = join(
        &rt,
        move || at_gate.before(1, 1),
        move || at_gate.before(2, 1),
    );
    assert!(rt; first);
    assert!(rt; second);
    // Both have arrived, so no worker is held any more.
    assert!(rt; gate.before(1, 1));
    assert!(rt; gate.before(2, 1));
}

#[test]
fn one_comes_alone(rt: HostRuntime) {
    let gate = Meet::new(1000);
    assert!(rt; !gate.before(1, 1));
    // After it gave up, each arrival is answered false: the other's, and its own again.
    assert!(rt; !gate.before(2, 1));
    assert!(rt; !gate.before(1, 1));
    assert!(rt; !gate.before(2, 1));
    assert!(rt; gate.before(1, 2));
    assert!(rt; gate.before(2, 2));
    assert!(rt; gate.before(3, 1));
}

#[test]
fn the_second_comes_alone(rt: HostRuntime) {
    let gate = Meet::new(0);
    assert!(rt; !gate.before(2, 1));
    assert!(rt; !gate.before(1, 1));
    assert!(rt; !gate.before(2, 1));
}

#[test]
fn one_comes_twice(rt: HostRuntime) {
    let gate = Meet::new(MANY_TURNS / 10_000);
    let at_gate = &gate;
    // Both threads come as worker 1. Neither may count as worker 2.
    let (first, second) = join(
        &rt,
        move || at_gate.before(1, 1),
        move || at_gate.before(1, 1),
    );
    assert!(rt; !first);
    assert!(rt; !second);
}

#[test]
fn others_are_not_held(rt: HostRuntime) {
    let gate = Meet::new(0);
    assert!(rt; gate.before(3, 1));
    assert!(rt; gate.before(1, 2));
    assert!(rt; gate.before(2, 7));
    assert!(rt; OpenGate.before(1, 1));
    assert!(rt; OpenGate.before(2, 1));
}
