//! Readers and writers that fail, or give without end.
use std::io;
use std::io::{ErrorKind, Read, Write};

/// Gives its bytes one at a time, and fails at the read that comes after `reads` others.
#[derive(Drop)]
pub struct FailingReader<'a> {
    pub bytes: &'a [u8],
    pub reads: u64,
}

impl Read for FailingReader<'_> {
    /// Gives the next byte, or none after the last one.
    fn read(&mut self, buf: &mut [u8]) -> io::Result<usize> {
        if self.reads == 0 {
            return Err(io::Error::from(ErrorKind::Interrupted));
        }
        self.reads -= 1;
        match (self.bytes.split_first(), buf.first_mut()) {
            (Some((byte, rest)), Some(place)) => {
                *place = *byte;
                self.bytes = rest;
                Ok(1)
            }
            _ => Ok(0),
        }
    }
}

/// Gives this byte without end.
#[derive(Drop)]
pub struct EndlessReader {
    pub byte: u8,
}

impl Read for EndlessReader {
    /// Fills the whole buffer.
    fn read(&mut self, buf: &mut [u8]) -> io::Result<usize> {
        buf.fill(self.byte);
        Ok(buf.len())
    }
}

/// Gives one byte a read: first `line_feeds` line feeds, and then zeros. Fails at the read that comes after `reads` others.
#[derive(Drop)]
pub struct SingleBytes {
    pub line_feeds: u64,
    pub reads: u64,
}

impl Read for SingleBytes {
    /// Gives a line feed, or a zero once all line feeds were given.
    fn read(&mut self, buf: &mut [u8]) -> io::Result<usize> {
        if self.reads == 0 {
            return Err(io::Error::from(ErrorKind::Other));
        }
        self.reads -= 1;
        let Some(place) = buf.first_mut() else {
            return Ok(0);
        };
        *place = if self.line_feeds > 0 { b'\n' } else { 0 };
        self.line_feeds = self.line_feeds.saturating_sub(1);
        Ok(1)
    }
}

/// How a writer fails that has no room left.
#[derive(Clone, Copy)]
pub enum Failure {
    Error,
    TakesNothing,
}

/// Takes three bytes at a time, and fails once it has `room` bytes.
#[derive(Drop)]
pub struct FailingWriter {
    pub bytes: Vec<u8>,
    pub room: usize,
    pub failure: Failure,
}

impl Write for FailingWriter {
    /// Takes up to three bytes, or fails if there is no room.
    fn write(&mut self, buf: &[u8]) -> io::Result<usize> {
        let left = self.room.saturating_sub(self.bytes.len());
        let count = buf.len().min(3).min(left);
        if count == 0 {
            return match self.failure {
                Failure::Error => Err(io::Error::from(ErrorKind::Other)),
                Failure::TakesNothing => Ok(0),
            };
        }
        self.bytes.extend_from_slice(&buf[..count])?;
        Ok(count)
    }

    /// Does nothing: all bytes are already kept.
    fn flush(&mut self) -> io::Result<()> {
        Ok(())
    }
}

/// Takes all bytes, and fails as it is flushed.
#[derive(Drop)]
pub struct UnflushedWriter {
    pub bytes: Vec<u8>,
}

impl Write for UnflushedWriter {
    /// Takes all bytes.
    fn write(&mut self, buf: &[u8]) -> io::Result<usize> {
        self.bytes.extend_from_slice(buf)?;
        Ok(buf.len())
    }

    /// Always fails.
    fn flush(&mut self) -> io::Result<()> {
        Err(io::Error::from(ErrorKind::Other))
    }
}
