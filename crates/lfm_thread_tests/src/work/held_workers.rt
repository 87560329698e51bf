//! Gates that hold a worker, or stop it: then nothing is written.
ghost use Rattle.std.specs.Prelude.{◌≡◌};

use crate::work::scripts::{TWO_ADDS, comes_to};
use lfm_program::{Gate, Meet, WorkFault};
use std::sync::atomic::{AtomicBool, Ordering};

/// The turns for which worker 2 is held.
const HELD_TURNS: u64 = 10_000_000;

/// Stops worker 1 before its first command.
struct ClosedGate;

impl Gate for ClosedGate {
    ghost stops = { λ _ worker command. (worker ≡ 1) × (command ≡ 1) };

    /// False for the first command of worker 1 alone.
    fn before(&self, worker: u64, command: u64) -> bool {
        match (worker, command) {
            (1, 1) => false,
            _ => true,
        }
    }
}

/// Holds worker 2 before its first command, and stops it there if worker 1 meanwhile reaches its second.
#[derive(Drop)]
struct HoldingGate {
    passed_by: AtomicBool,
}

impl Gate for HoldingGate {
    ghost stops = { λ _ worker command. (worker ≡ 2) × (command ≡ 1) };

    /// Keeps worker 2 for some turns, and notes whether worker 1 has reached its second command.
    fn before(&self, worker: u64, command: u64) -> bool {
        match (worker, command) {
            (1, 2) => {
                self.passed_by.store(true, Ordering::SeqCst);
                true
            }
            (2, 1) => {
                for _ in 0..HELD_TURNS {
                    if self.passed_by.load(Ordering::SeqCst) {
                        return false;
                    }
                }
                true
            }
            _ => true,
        }
    }
}

#[test]
fn a_closed_gate(rt: HostRuntime) {
    comes_to(&rt, TWO_ADDS, &ClosedGate, Err(WorkFault::Stuck), b"", 5);
}

#[test]
fn alone_at_the_meeting(rt: HostRuntime) {
    let gate = Meet::new(1000);
    let script = b"workers 1 0\n1 add 5\n";
    comes_to(&rt, script, &gate, Err(WorkFault::Stuck), b"", 5);
}

/// Worker 1 waits until worker 2 has added 3, so it makes no second command while worker 2 is held.
#[test]
fn a_held_gate(rt: HostRuntime) {
    let gate = HoldingGate {
        passed_by: AtomicBool::new(false),
    };
    let script = b"workers 2 1\n1 until 1 3\n1 add 1\n2 add 3\n2 all 1\n";
    let text = b"worker 1 adds 1 sum 1\nworker 2 adds 1 sum 3\ntotal 4\nlawful\n";
    comes_to(&rt, script, &gate, Ok(true), text, 0);
    // worker 1 reached its second command
    assert!(rt; gate.passed_by.load(Ordering::SeqCst));
}
