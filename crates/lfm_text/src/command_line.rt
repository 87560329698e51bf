//! The command line of a program: the words on it, the usage message, and the standard output that a program opens when it
//! knows what to do.
ghost use Rattle.std.specs.Prelude.{◌≡◌};
ghost use Rattle.std.specs.Vec.Iter.{into_iter_items};
ghost use Rattle.lfm_text.specs.CommandLines.{after_name};

use std::alloc::{AllocError, Global};
use std::env::Args;
use std::io::{BufWriter, ErrorKind, Printer};
use std::rt::Env;
use std::{env, io};

/// The exit status for a command line that the program doesn't accept.
const USAGE: u8 = 2;

/// The words on a command line after the program's name.
#[derive(Drop)]
pub enum CommandLine {
    /// No word.
    Empty,
    /// One word.
    Word(String),
    /// Several words, or one that is not UTF-8.
    Other,
    /// Not known: an allocation for the words failed.
    Unread,
}

/// The command line after the first of these words, which is the program's name.
fn after_name(mut words: Args) -> CommandLine
    ensures { result ≡ after_name (into_iter_items words) }
{
    let _name = words.next();
    match (words.next(), words.next()) {
        (None, _) => CommandLine::Empty,
        (Some(word), None) => CommandLine::Word(word),
        (Some(_), Some(_)) => CommandLine::Other,
    }
}

/// Returns the command line of this program. It allocates memory.
pub fn read_command_line<R: Env + AllocGlobal>(rt: &R) -> CommandLine {
    match env::args(rt) {
        Ok(words) => after_name(words),
        Err(error) if error.kind() == ErrorKind::OutOfMemory => CommandLine::Unread,
        Err(_) => CommandLine::Other,
    }
}

/// Prints this usage message on standard error, and returns the exit status for a command line that the program doesn't accept.
/// If the message can't be written, the status is the same.
pub fn tell_usage<R: Eprint>(rt: &R, usage: &'static str) -> u8
    ensures { result ≡ 2 }
{
    let _ = rt.eprintln(usage);
    USAGE
}

/// Returns standard output, with a buffer for what is written. It allocates memory.
pub fn standard_output<R: AllocGlobal + Print>(
    rt: &R,
) -> Result<BufWriter<Printer<'_, R>, Global>, AllocError> {
    let alloc: Global = rt.alloc();
    BufWriter::new(alloc, io::writer(rt)).map_err(|_| AllocError)
}
