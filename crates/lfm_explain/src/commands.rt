//! What the program does with its arguments. Without arguments it explains a schedule. With the word `drive` it drives a
//! running mutex through one, and with the word `states` it prints the states that one passes. Its messages and statuses are
//! those of `lfm replay`.
use crate::driving::drive;
use crate::explaining::explain;
use crate::passing::print_states;
use lfm_core::{ReplayFault, report};
use lfm_text::{CommandLine, read_command_line, standard_output, tell_usage};
use std::io::Input;
use std::rt::Env;

/// The usage line of the program.
const USAGE_LINE: &str = "usage: lfm_explain [drive | states]";

/// Does what the command line asks for, and returns the exit status. Messages go to standard error.
pub fn run<R: Env + AllocGlobal + Input + Print + Eprint>(rt: &R) -> u8 {
    match read_command_line(rt) {
        CommandLine::Empty => report_outcome(rt, &explain_streams(rt)),
        CommandLine::Word(word) => run_command(rt, word.as_str()),
        CommandLine::Unread => report_outcome(rt, &Err(ReplayFault::Memory)),
        CommandLine::Other => tell_usage(rt, USAGE_LINE),
    }
}

/// Does what this command asks for, and returns the exit status.
fn run_command<R: AllocGlobal + Input + Print + Eprint>(rt: &R, command: &str) -> u8 {
    match command {
        "drive" => report_outcome(rt, &drive_streams(rt)),
        "states" => report_outcome(rt, &print_streams(rt)),
        _ => tell_usage(rt, USAGE_LINE),
    }
}

/// Prints the message of a fault on standard error, if there is one, and returns the exit status of a replay with this outcome.
fn report_outcome<R: Eprint>(rt: &R, outcome: &Result<bool, ReplayFault>) -> u8 {
    report(rt, "lfm_explain", outcome)
}

/// Explains standard input on standard output.
fn explain_streams<R: AllocGlobal + Input + Print>(rt: &R) -> Result<bool, ReplayFault> {
    let Ok(mut writer) = standard_output(rt) else {
        return Err(ReplayFault::Memory);
    };
    explain(rt.alloc(), &mut rt.reader(), &mut writer)
}

/// Drives a running mutex through the schedule on standard input, and shows the outcome of each line on standard output.
fn drive_streams<R: AllocGlobal + Input + Print>(rt: &R) -> Result<bool, ReplayFault> {
    let Ok(mut writer) = standard_output(rt) else {
        return Err(ReplayFault::Memory);
    };
    drive(rt.alloc(), &mut rt.reader(), &mut writer)
}

/// Prints the states that the schedule on standard input passes, as a graph on standard output.
fn print_streams<R: AllocGlobal + Input + Print>(rt: &R) -> Result<bool, ReplayFault> {
    let Ok(mut writer) = standard_output(rt) else {
        return Err(ReplayFault::Memory);
    };
    print_states(rt.alloc(), &mut rt.reader(), &mut writer)
}
