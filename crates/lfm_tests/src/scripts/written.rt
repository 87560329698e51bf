//! Pseudorandom scripts that are written and read back.
ghost use Rattle.std.specs.Prelude.{◌<◌};

use lfm_script::{
    Command, MAX_NUMBER, Script, ScriptLine, WorkFault, commands_by_worker, read_script,
};
use std::alloc::{AllocError, Global};
use std::process::Abort;
use std::test::Fail;

const WORKERS: u64 = 7;

const CONDITIONS: u64 = 3;

/// The number after this one in a pseudorandom sequence.
fn after(number: u64) -> u64 {
    number
        .wrapping_mul(6_364_136_223_846_793_005)
        .wrapping_add(1_442_695_040_888_963_407)
}

/// The number from 1 to `many` that these bits select.
fn one_of(bits: u64, many: u64) -> u64
    requires { 0 < many }
{
    bits % many + 1
}

/// The line that a number selects.
fn picked(number: u64) -> ScriptLine {
    let condition = one_of(number >> 40, CONDITIONS);
    let amount = (number >> 33) % (MAX_NUMBER + 1);
    ScriptLine {
        worker: one_of(number >> 50, WORKERS),
        command: match (number >> 60) % 4 {
            0 => Command::Add(amount),
            1 => Command::Until(condition, amount),
            2 => Command::One(condition),
            _ => Command::All(condition),
        },
    }
}

/// The text of a line.
fn spelled(alloc: Global, line: &ScriptLine) -> Result<String, AllocError> {
    let worker = line.worker;
    match line.command {
        Command::Add(amount) => format!(in alloc; "{worker} add {amount}\n"),
        Command::Until(condition, amount) => format!(in alloc;
            "{worker} until {condition} {amount}\n"
        ),
        Command::One(condition) => format!(in alloc; "{worker} one {condition}\n"),
        Command::All(condition) => format!(in alloc; "{worker} all {condition}\n"),
    }
}

/// This number of pseudorandom lines, and their text.
fn script_by_chance(
    alloc: Global,
    seed: u64,
    many: u64,
) -> Result<(Vec<ScriptLine>, String), AllocError> {
    let mut lines = Vec::new(alloc);
    let mut text = format!(in alloc; "workers {WORKERS} {CONDITIONS}\n")?;
    let mut number = after(seed);
    for _ in 0..many {
        let line = picked(number);
        text.push_str(&spelled(alloc, &line)?)?;
        lines.push(line)?;
        number = after(number);
    }
    Ok((lines, text))
}

/// Whether these are the commands of the worker, in the order of the lines.
fn are_of_worker(commands: &[Command], worker: u64, lines: &[ScriptLine]) -> bool {
    let mut rest = commands.iter();
    for line in lines {
        if line.worker == worker && rest.next() != Some(&line.command) {
            return false;
        }
    }
    rest.next().is_none()
}

/// `read_script` without its contract, so that the proof of a test knows nothing of the answer and the test checks it.
fn read(alloc: Global, text: &str) -> Result<Script, WorkFault> {
    read_script(alloc, text.as_bytes())
}

/// Checks that a script is the pseudorandom one with these lines.
fn sees_lines<R: Abort>(rt: &R, script: &Script, lines: &[ScriptLine], seed: u64) {
    assert_eq!(*rt; (script.workers, script.conditions), (WORKERS, CONDITIONS));
    assert_eq!(*rt; script.lines.as_slice(), lines, "seed {seed}");
}

#[test]
fn written_scripts_are_read(rt: HostRuntime) -> Result<(), Fail> {
    for seed in 0..40 {
        let (lines, text) = script_by_chance(rt.alloc(), seed, seed * 3)?;
        let script = read(rt.alloc(), &text)?;
        sees_lines(&rt, &script, &lines, seed);
    }
    Ok(())
}

/// Checks that there is this number of workers, and that each has its commands of these lines.
fn sees_commands<R: Abort>(
    rt: &R,
    commands: &[Vec<Command>],
    workers: u64,
    lines: &[ScriptLine],
    seed: u64,
) {
    assert_eq!(*rt; commands.len() as u64, workers);
    for (index, own) in commands.iter().enumerate() {
        assert!(*rt; are_of_worker(own, index as u64 + 1, lines), "seed {seed}");
    }
}

#[test]
fn each_worker_has_its_commands(rt: HostRuntime) -> Result<(), Fail> {
    for seed in 0..40 {
        let (lines, _) = script_by_chance(rt.alloc(), seed, seed * 3)?;
        // with one worker fewer than there are, the lines of the last belong to no worker
        for workers in [WORKERS, WORKERS - 1, 0] {
            let commands = commands_by_worker(rt.alloc(), workers, &lines)?;
            sees_commands(&rt, &commands, workers, &lines, seed);
        }
    }
    Ok(())
}
