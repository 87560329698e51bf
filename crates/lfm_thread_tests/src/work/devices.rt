//! Runs of scripts with readers and writers that fail, or readers without an end.
use crate::work::scripts::{WAITED, WAITING, answered};
use lfm_program::{OpenGate, WorkFault};
use lfm_test_tools::devices::{
    EndlessReader, FailingReader, FailingWriter, Failure, UnflushedWriter,
};
use std::process::Abort;
use std::sync::Wait;
use std::thread::Threads;

/// What the run of a script answers that can't be read to its end, and how many bytes it writes.
fn read_in_part<R: AllocGlobal + Threads + Wait + Sync>(
    rt: &R,
    reads: u64,
) -> (Result<bool, WorkFault>, usize) {
    let mut reader = FailingReader {
        bytes: WAITING.as_slice(),
        reads,
    };
    let mut written = Vec::new(rt.alloc());
    let outcome = answered(rt, &mut reader, &mut written, &OpenGate);
    (outcome, written.len())
}

#[test]
fn fails_at_each_read(rt: HostRuntime) {
    for reads in 0..=WAITING.len() as u64 {
        assert_eq!(rt; read_in_part(&rt, reads), (Err(WorkFault::Read), 0));
    }
}

/// Scripts with what is written for each: a report, and the line of a fault.
fn written_texts() -> [(&'static [u8], &'static [u8]); 2] {
    [
        (WAITING.as_slice(), WAITED.as_slice()),
        (b"workers 0 0".as_slice(), b"fault Limit\n".as_slice()),
    ]
}

/// A run whose writer has less room than its text needs writes as much as there is room for.
fn fails_without_room<R: AllocGlobal + Threads + Wait + Sync + Abort>(
    rt: &R,
    script: &[u8],
    text: &[u8],
    failure: Failure,
) {
    for room in 0..text.len() {
        let mut reader = script;
        let mut writer = FailingWriter {
            bytes: Vec::new(rt.alloc()),
            room,
            failure,
        };
        let outcome = answered(rt, &mut reader, &mut writer, &OpenGate);
        assert_eq!(rt; outcome, Err(WorkFault::Write));
        assert_eq!(rt; writer.bytes.as_slice(), &text[..room]);
    }
}

#[test]
fn fails_after_each_written_byte(rt: HostRuntime) {
    for failure in [Failure::Error, Failure::TakesNothing] {
        for (script, text) in written_texts() {
            fails_without_room(&rt, script, text, failure);
        }
    }
}

/// What the run of a script answers whose writer can't be flushed, and what it writes.
fn unflushed<R: AllocGlobal + Threads + Wait + Sync>(
    rt: &R,
    script: &[u8],
) -> (Result<bool, WorkFault>, Vec<u8>) {
    let mut reader = script;
    let mut writer = UnflushedWriter {
        bytes: Vec::new(rt.alloc()),
    };
    let outcome = answered(rt, &mut reader, &mut writer, &OpenGate);
    (outcome, writer.bytes)
}

/// No contract can say that a writer was flushed: one that holds its bytes back has them either way.
#[test]
fn fails_at_the_flush(rt: HostRuntime) {
    for (script, text) in written_texts() {
        let (outcome, written) = unflushed(&rt, script);
        assert_eq!(rt; outcome, Err(WorkFault::Write));
        assert_eq!(rt; written.as_slice(), text);
    }
}

/// What the run of an input without an end answers, and what it writes.
fn endless<R: AllocGlobal + Threads + Wait + Sync>(
    rt: &R,
    byte: u8,
) -> (Result<bool, WorkFault>, Vec<u8>) {
    let mut written = Vec::new(rt.alloc());
    let outcome = answered(rt, &mut EndlessReader { byte }, &mut written, &OpenGate);
    (outcome, written)
}

#[test]
fn ends_an_endless_input(rt: HostRuntime) {
    for byte in [0, b'\n', b'1'] {
        let (outcome, written) = endless(&rt, byte);
        assert_eq!(rt; outcome, Err(WorkFault::Limit));
        assert_eq!(rt; written.as_slice(), b"fault Limit\n".as_slice());
    }
}
