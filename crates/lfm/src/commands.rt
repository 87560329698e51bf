//! What the program does with its arguments: it runs a command from standard input to standard output, and turns its outcome
//! into the exit status.
ghost use Rattle.std.specs.Prelude.{◌≢◌, Err};

use lfm_core::{ReplayFault, replay, report};
use lfm_program::{OpenGate, work};
use lfm_script::{WorkFault, report_work};
use lfm_text::{CommandLine, read_command_line, standard_output, tell_usage};
use std::io::Input;
use std::rt::Env;
use std::sync::Wait;
use std::thread::Threads;

/// The usage line of the program.
const USAGE_LINE: &str = "usage: lfm replay | lfm work";

/// Does what the command line asks for, and returns the exit status. Messages go to standard error.
pub fn run<R: Env + AllocGlobal + Input + Print + Eprint + Threads + Wait + Sync>(rt: &R) -> u8 {
    match read_command_line(rt) {
        CommandLine::Word(word) => run_command(rt, word.as_str()),
        CommandLine::Unread => report(rt, "lfm", &Err(ReplayFault::Memory)),
        CommandLine::Empty | CommandLine::Other => tell_usage(rt, USAGE_LINE),
    }
}

/// Does what this command asks for, and returns the exit status.
fn run_command<R: AllocGlobal + Input + Print + Eprint + Threads + Wait + Sync>(
    rt: &R,
    command: &str,
) -> u8 {
    match command {
        "replay" => report(rt, "lfm", &replay_streams(rt)),
        "work" => report_work(rt, "lfm", &work_streams(rt)),
        _ => tell_usage(rt, USAGE_LINE),
    }
}

/// Replays standard input into standard output.
fn replay_streams<R: AllocGlobal + Input + Print>(rt: &R) -> Result<bool, ReplayFault> {
    let Ok(mut writer) = standard_output(rt) else {
        return Err(ReplayFault::Memory);
    };
    replay(rt.alloc(), &mut rt.reader(), &mut writer)
}

/// Runs the script on standard input, and writes its report to standard output. No gate stops a worker.
fn work_streams<R: AllocGlobal + Input + Print + Threads + Wait + Sync>(
    rt: &R,
) -> Result<bool, WorkFault>
    // An open gate stops no worker.
    ensures { result ≢ Err WorkFault.Stuck }
{
    let Ok(mut writer) = standard_output(rt) else {
        return Err(WorkFault::Memory);
    };
    work(rt, rt.alloc(), &mut rt.reader(), &mut writer, &OpenGate)
}
