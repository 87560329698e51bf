//! Scripts whose workers are not stopped: what a run answers, and the text that it writes.
use lfm_program::{Gate, Meet, OpenGate, WorkFault, status, work};
use std::alloc::{AllocError, Global};
use std::io::{Read, Write};
use std::process::Abort;
use std::sync::Wait;
use std::test::Fail;
use std::thread::Threads;

/// More turns than a thread needs to be started.
const MANY_TURNS: u64 = 10_000_000_000;

/// Worker 1 waits until worker 2 has added.
pub const WAITING: &[u8; 40] = b"workers 2 1\n1 until 1 3\n2 add 3\n2 all 1\n";

/// What is written of it.
pub const WAITED: &[u8; 59] = b"worker 1 adds 0 sum 0\nworker 2 adds 1 sum 3\ntotal 3\nlawful\n";

/// One worker adds twice.
pub const TWO_ADDS: &[u8; 28] = b"workers 1 0\n1 add 5\n1 add 7\n";

/// `work`, without its contract: the tests check what it answers and writes.
pub fn answered<R: AllocGlobal + Threads + Wait + Sync, G: Gate, I: Read, W: Write>(
    rt: &R,
    reader: &mut I,
    writer: &mut W,
    gate: &G,
) -> Result<bool, WorkFault> {
    work(rt, rt.alloc(), reader, writer, gate)
}

/// Runs a script. Returns what it answered, and what it wrote.
pub fn worked<R: AllocGlobal + Threads + Wait + Sync, G: Gate>(
    rt: &R,
    script: &[u8],
    gate: &G,
) -> (Result<bool, WorkFault>, Vec<u8>) {
    let mut reader = script;
    let mut written = Vec::new(rt.alloc());
    let outcome = answered(rt, &mut reader, &mut written, gate);
    (outcome, written)
}

/// Checks what a run of this script answers, the text that it writes, and the status with which it ends the program.
pub fn comes_to<R: AllocGlobal + Threads + Wait + Sync + Abort, G: Gate>(
    rt: &R,
    script: &[u8],
    gate: &G,
    wanted: Result<bool, WorkFault>,
    text: &[u8],
    exit: u8,
) {
    let (outcome, written) = worked(rt, script, gate);
    assert_eq!(rt; outcome, wanted);
    assert_eq!(rt; written.as_slice(), text);
    assert_eq!(rt; status(&outcome), exit);
}

#[test]
fn a_worker_that_waits(rt: HostRuntime) {
    comes_to(&rt, WAITING, &OpenGate, Ok(true), WAITED, 0);
}

/// Neither makes its first command before the other reaches its own, so they would be stuck if run one after the other.
#[test]
fn a_worker_that_waits_after_a_meeting(rt: HostRuntime) {
    let gate = Meet::new(MANY_TURNS);
    comes_to(&rt, WAITING, &gate, Ok(true), WAITED, 0);
}

#[test]
fn two_adds(rt: HostRuntime) {
    let text = b"worker 1 adds 2 sum 12\ntotal 12\nlawful\n";
    comes_to(&rt, TWO_ADDS, &OpenGate, Ok(true), text, 0);
}

/// Scripts that are refused, each with its fault and the line that is written for it.
fn faulty_scripts() -> [(&'static [u8], WorkFault, &'static [u8]); 8] {
    [
        (
            b"workers 1 0\n1 one 1\n",
            WorkFault::Limit,
            b"fault Limit\n",
        ),
        (b"workers 1 17\n", WorkFault::Limit, b"fault Limit\n"),
        (b"workers 0 0\n", WorkFault::Limit, b"fault Limit\n"),
        (b"workers 4096 0\n", WorkFault::Limit, b"fault Limit\n"),
        (
            b"workers 1 0\n2 add 1\n",
            WorkFault::Limit,
            b"fault Limit\n",
        ),
        (
            b"workers 1 0\n1 add 1000000001\n",
            WorkFault::Limit,
            b"fault Limit\n",
        ),
        (b"workers 2\n", WorkFault::Syntax(1), b"fault Syntax 1\n"),
        (
            b"workers 1 0\n1 add\n",
            WorkFault::Syntax(2),
            b"fault Syntax 2\n",
        ),
    ]
}

#[test]
fn script_faults(rt: HostRuntime) {
    for (script, fault, text) in faulty_scripts() {
        comes_to(&rt, script, &OpenGate, Err(fault), text, 1);
    }
}

/// Appends the rows of workers that added nothing.
fn push_idle(alloc: Global, text: &mut String, first: u64, last: u64) -> Result<(), AllocError> {
    for worker in first..=last {
        text.push_str(&format!(in alloc; "worker {worker} adds 0 sum 0\n")?)?;
    }
    Ok(())
}

/// The first of 255 workers adds 2,057 times.
fn many_adds(alloc: Global) -> Result<String, AllocError> {
    let mut script = format!(in alloc; "workers 255 0\n")?;
    for _ in 0..2057 {
        script.push_str("1 add 1\n")?;
    }
    Ok(script)
}

/// What is written of it.
fn many_added(alloc: Global) -> Result<String, AllocError> {
    let mut text = format!(in alloc; "worker 1 adds 2056 sum 2056 refused Spent\n")?;
    push_idle(alloc, &mut text, 2, 255)?;
    text.push_str("total 2056\nlawful\n")?;
    Ok(text)
}

/// Each of 255 workers has 4,112 entries, and an add takes two of them.
#[test]
fn a_spent_worker(rt: HostRuntime) -> Result<(), Fail> {
    let script = many_adds(rt.alloc())?;
    let text = many_added(rt.alloc())?;
    comes_to(
        &rt,
        script.as_bytes(),
        &OpenGate,
        Ok(false),
        text.as_bytes(),
        1,
    );
    Ok(())
}

/// What is written if only the last of 256 workers adds.
fn one_added(alloc: Global) -> Result<String, AllocError> {
    let mut text = String::new(alloc);
    push_idle(alloc, &mut text, 1, 255)?;
    text.push_str("worker 256 adds 1 sum 1\ntotal 1\nlawful\n")?;
    Ok(text)
}

#[test]
fn many_workers(rt: HostRuntime) -> Result<(), Fail> {
    let text = one_added(rt.alloc())?;
    let script = b"workers 256 0\n256 add 1\n";
    comes_to(&rt, script, &OpenGate, Ok(true), text.as_bytes(), 0);
    Ok(())
}
