//! Schedules whose replay succeeds, fails at a read or a write, stops at a limit, or meets a refused line.
ghost use Rattle.std.specs.Prelude.{◌<◌};

use crate::seeing::sees;
use lfm_core::{ReplayFault, replay};
use lfm_test_tools::devices::{
    EndlessReader, FailingReader, FailingWriter, Failure, SingleBytes, UnflushedWriter,
};
use std::alloc::Global;
use std::io::{Read, Write};
use std::process::Abort;

/// The schedule of a post that the locker takes.
const INPUT: &[u8; 46] = b"seats 2\n1 lock\n1 *\n2 lock\n2 .\n1 unlock\n1 *\n2 *";

/// Its trace.
const OUTPUT: &[u8; 252] =
    b"1 seats 2 | 0 0 0 free -\n2 1 begins | 0 0 0 free -\n3 1 ends Held Free | 1 1 0 owner.1 -\n4 2 begins | 1 1 0 owner.1 -\n5 2 goes on | 2 1 0 owner.1 -\n6 1 begins | 2 1 0 owner.1 -\n7 1 ends Posted | 1 0 1.1 posted -\n8 2 ends Held Queued 1 | 1 2 0 owner.2 -\n";

/// The result of a replay.
fn outcome<R: Read, W: Write>(
    alloc: Global,
    reader: &mut R,
    writer: &mut W,
) -> Result<bool, ReplayFault> {
    replay(alloc, reader, writer)
}

/// Checks that these bytes were written.
fn sees_bytes<A: Abort>(rt: &A, written: &[u8], wanted: &[u8]) {
    assert_eq!(rt; written, wanted);
}

/// Checks that a replay from this reader ends with this result and writes these bytes.
fn replays_as<A: Abort, R: Read>(
    rt: &A,
    alloc: Global,
    reader: &mut R,
    wanted: Result<bool, ReplayFault>,
    bytes: &[u8],
) {
    let mut written = Vec::new(alloc);
    sees(
        rt,
        "the outcome",
        &outcome(alloc, reader, &mut written),
        &wanted,
    );
    sees_bytes(rt, written.as_slice(), bytes);
}

#[test]
fn first_run(rt: HostRuntime) {
    let mut reader = b"seats 1\n1 lock\n1 *\n".as_slice();
    let trace =
        b"1 seats 1 | 0 0 0 free -\n2 1 begins | 0 0 0 free -\n3 1 ends Held Free | 1 1 0 owner.1 -\n";
    replays_as(&rt, rt.alloc(), &mut reader, Ok(true), trace);
}

#[test]
fn replays_with_ample_room(rt: HostRuntime) {
    let mut reader = INPUT.as_slice();
    replays_as(&rt, rt.alloc(), &mut reader, Ok(true), OUTPUT);
}

#[test]
fn reports_a_refused_line(rt: HostRuntime) {
    let mut reader = b"seats 1\n1 unlock\n1 .".as_slice();
    let trace =
        b"1 seats 1 | 0 0 0 free -\n2 1 refused NotOwner | 0 0 0 free -\n3 1 refused Idle | 0 0 0 free -\n";
    replays_as(&rt, rt.alloc(), &mut reader, Ok(false), trace);
}

#[test]
fn fails_at_each_read(rt: HostRuntime) {
    for reads in 0..=INPUT.len() as u64 {
        let mut reader = FailingReader {
            bytes: INPUT.as_slice(),
            reads,
        };
        replays_as(&rt, rt.alloc(), &mut reader, Err(ReplayFault::Read), b"");
    }
}

/// Checks that a replay fails if its writer fails in this way after `room` bytes, and that these are the first bytes of the
/// trace.
fn fails_after<A: Abort>(rt: &A, alloc: Global, failure: Failure, room: usize, trace: &[u8]) {
    let mut reader = INPUT.as_slice();
    let mut writer = FailingWriter {
        bytes: Vec::new(alloc),
        room,
        failure,
    };
    let ended = outcome(alloc, &mut reader, &mut writer);
    sees(rt, "the outcome", &ended, &Err(ReplayFault::Write));
    sees_bytes(rt, writer.bytes.as_slice(), trace);
}

#[test]
fn fails_after_each_written_byte(rt: HostRuntime) {
    for failure in [Failure::Error, Failure::TakesNothing] {
        for room in 0..OUTPUT.len() {
            fails_after(&rt, rt.alloc(), failure, room, &OUTPUT[..room]);
        }
    }
}

/// Checks that a replay of this input fails at the flush, after it wrote this.
fn fails_flushed<A: Abort>(rt: &A, alloc: Global, input: &[u8], output: &[u8]) {
    let mut reader = input;
    let mut writer = UnflushedWriter {
        bytes: Vec::new(alloc),
    };
    let ended = outcome(alloc, &mut reader, &mut writer);
    sees(rt, "the outcome", &ended, &Err(ReplayFault::Write));
    sees_bytes(rt, writer.bytes.as_slice(), output);
}

/// No contract can state that a writer was flushed: a writer that buffers its bytes has the same contents either way. So it is
/// tested.
#[test]
fn fails_at_the_flush(rt: HostRuntime) {
    fails_flushed(&rt, rt.alloc(), INPUT, OUTPUT);
    fails_flushed(&rt, rt.alloc(), b"seats 0", b"fault Limit\n");
}

#[test]
fn ends_an_endless_input(rt: HostRuntime) {
    for byte in [0, b'\n', b'1'] {
        let mut reader = EndlessReader { byte };
        replays_as(
            &rt,
            rt.alloc(),
            &mut reader,
            Err(ReplayFault::Limit),
            b"fault Limit\n",
        );
    }
}

/// Checks that a replay makes this number of reads of these bytes, which are past a limit, and that one byte less is within it.
fn ends_past_a_limit<A: Abort>(rt: &A, alloc: Global, line_feeds: u64, reads: u64)
    requires { 0 < reads }
{
    let mut reader = SingleBytes { line_feeds, reads };
    let mut written = Vec::new(alloc);
    let ended = outcome(alloc, &mut reader, &mut written);
    sees(
        rt,
        "the outcome past a limit",
        &ended,
        &Err(ReplayFault::Limit),
    );
    sees(rt, "the reads that were not made", &reader.reads, &0);
    // one byte less is within the limits, so the next read is made and fails
    let mut reader = SingleBytes {
        line_feeds,
        reads: reads - 1,
    };
    let ended = outcome(alloc, &mut reader, &mut written);
    sees(rt, "the outcome within it", &ended, &Err(ReplayFault::Read));
}

/// The reader fails at the read after the first byte past a limit, so the replay must not make that read.
#[test]
fn reads_no_byte_after_the_first_past_a_limit(rt: HostRuntime) {
    // 65,536 lines and one more line feed, the same with a byte of one more line, and one byte too many
    ends_past_a_limit(&rt, rt.alloc(), 65_537, 65_537);
    ends_past_a_limit(&rt, rt.alloc(), 65_536, 65_537);
    ends_past_a_limit(&rt, rt.alloc(), 0, 1_048_577);
}
