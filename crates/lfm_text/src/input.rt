//! Reads the bytes of a text from a reader, within the limits of a text.

ghost use Rattle.std.specs.Prelude.{◌≡◌, ◌+◌, ◌++◌, ◌<◌, ◌≤◌, length, IfErr, IfOk, IsErrOf, vec_capacity, vec_len};
ghost use Rattle.std.specs.Io.{ReadsAtMost};
ghost use Rattle.std.specs.Io.KnownBytes.{Keeps, ReadConsumes};
ghost use Rattle.lfm_text.specs.Taking.{read_size, Takes, TakesWithin};
ghost use Rattle.lfm_text.specs.Text.{max_bytes, max_lines};

use crate::faults::InputFault;
use crate::limits::{MAX_BYTES, MAX_LINES, count_line_feeds, is_past_limit};
use std::alloc::Global;
use std::io::Read;

/// The greatest number of bytes that one read asks for.
const READ_SIZE: usize = 4_096;

/// Appends bytes within the capacity, so that nothing is allocated.
fn append_reserved(input: &mut Vec<u8>, given: &[u8])
    requires { vec_len input.old + length given.now ≤ vec_capacity input.old }
    ensures items { input.new.items ≡ input.old.items ++ given.now }
    ensures room { vec_capacity input.old ≤ vec_capacity input.new }
{
    input.extend_from_slice(given).unwrap();
}

/// How many bytes the next read asks for, after this many bytes and line feeds: at most one more than the limits still allow.
///
/// Each byte may be a line feed, so the limit on lines bounds the bytes of a read too. Near the limit on lines the reads get
/// short.
fn next_room(bytes: usize, line_feeds: usize) -> usize
    requires bytes_within { bytes ≤ max_bytes }
    requires lines_within { line_feeds ≤ max_lines }
    ensures some { 0 < result }
    ensures size { result ≤ read_size }
    ensures bytes { bytes + result ≤ max_bytes + 1 }
    ensures lines { line_feeds + result ≤ max_lines + 1 }
{
    let bytes_left = MAX_BYTES + 1 - bytes;
    let lines_left = MAX_LINES + 1 - line_feeds;
    bytes_left.min(lines_left).min(READ_SIZE)
}

/// Reads once, and returns how many bytes it got: 0 at the end. Returns Read if the reader fails.
fn read_once<R: Read>(reader: &mut R, buffer: &mut [u8]) -> Result<usize, InputFault>
    ensures bound { ReadsAtMost result buffer.new }
    ensures bytes { ReadConsumes (R.remaining reader.old) (R.remaining reader.new) result buffer.new }
    ensures fault { IfErr result (λ e. e ≡ InputFault.Read) }
{
    match reader.read(buffer) {
        Ok(count) => Ok(count),
        Err(_) => Err(InputFault::Read),
    }
}

/// Reads all bytes of the reader, and no byte after the first that is past a limit: byte 1,048,577, or the first byte after
/// 65,536 line feeds.
///
/// It allocates once, 1,048,577 bytes. If that fails it returns Memory, and nothing was read. It returns Read if the reader
/// fails before the text is past a limit. Any error of the reader counts, even an interruption.
pub fn read_input<R: Read>(alloc: Global, reader: &mut R) -> Result<Vec<u8>, InputFault>
    ensures ok { IfOk result (λ v. Takes (R.remaining reader.old) (R.remaining reader.new) v.items) }
    ensures read { IsErrOf result InputFault.Read →
        TakesWithin (R.remaining reader.old) (R.remaining reader.new) }
    ensures memory { IsErrOf result InputFault.Memory →
        Keeps (R.remaining reader.old) (R.remaining reader.new) }
{
    let mut input = Vec::with_capacity(alloc, MAX_BYTES + 1).map_err(|_| InputFault::Memory)?;
    let mut buffer = [0u8; READ_SIZE];
    let mut line_feeds = 0;
    'reading: while !is_past_limit(&input, line_feeds) {
        let room = next_room(input.len(), line_feeds);
        let count = read_once(reader, &mut buffer[..room])?;
        if count == 0 {
            return Ok(input);
        }
        let given = &buffer[..count];
        line_feeds += count_line_feeds(given);
        append_reserved(&mut input, given);
    }
    Ok(input)
}
