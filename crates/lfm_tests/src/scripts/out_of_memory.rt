//! The calls that ask for memory. Each test whose name contains `memory` also passes if a request was refused, and then prints
//! so. A script makes each request of these tests fail in turn.
use crate::refused_memory::sees_memory;
use lfm_script::{Command, Script, ScriptLine, WorkFault, commands_by_worker, read_script};
use std::alloc::Global;
use std::process::Abort;

/// `read_script` without its contract, so that the proof of a test knows nothing of the answer and the test checks it.
fn read(alloc: Global, text: &[u8]) -> Result<Script, WorkFault> {
    read_script(alloc, text)
}

/// Checks that a script has two workers and one condition, and these lines.
fn sees_script<R: Abort>(rt: &R, script: &Script, lines: &[ScriptLine]) {
    assert_eq!(*rt; (script.workers, script.conditions), (2, 1));
    assert_eq!(*rt; script.lines.as_slice(), lines);
}

#[test]
fn script_and_memory(rt: HostRuntime) {
    let lines = [
        ScriptLine {
            worker: 1,
            command: Command::Until(1, 3),
        },
        ScriptLine {
            worker: 2,
            command: Command::Add(3),
        },
        ScriptLine {
            worker: 2,
            command: Command::All(1),
        },
        ScriptLine {
            worker: 2,
            command: Command::One(1),
        },
    ];
    match read(
        rt.alloc(),
        b"workers 2 1\n1 until 1 3\n2 add 3\n2 all 1\n2 one 1",
    ) {
        Ok(script) => sees_script(&rt, &script, &lines),
        Err(fault) => sees_memory(&rt, &fault, &WorkFault::Memory),
    }
}

/// Checks that worker 1 has one command, worker 2 none, and worker 3 two.
fn sees_commands<R: Abort>(rt: &R, found: (&[Command], &[Command], &[Command])) {
    let (first, second, third) = found;
    assert_eq!(*rt; first, [Command::One(1)].as_slice());
    assert!(*rt; second.is_empty());
    assert_eq!(*rt; third, [Command::Add(5), Command::Add(7)].as_slice());
}

#[test]
fn commands_and_memory(rt: HostRuntime) {
    let lines = [
        ScriptLine {
            worker: 3,
            command: Command::Add(5),
        },
        ScriptLine {
            worker: 1,
            command: Command::One(1),
        },
        ScriptLine {
            worker: 3,
            command: Command::Add(7),
        },
        ScriptLine {
            worker: 4,
            command: Command::Add(9),
        },
    ];
    match commands_by_worker(rt.alloc(), 3, &lines) {
        Ok(commands) => {
            let found = (
                commands[0].as_slice(),
                commands[1].as_slice(),
                commands[2].as_slice(),
            );
            sees_commands(&rt, found);
        }
        Err(fault) => sees_memory(&rt, &fault, &WorkFault::Memory),
    }
}
