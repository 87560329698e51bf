//! Texts of lines and words: how they are read from a reader, cut into lines and words, read as numbers, and written; how a
//! fault of a text is reported; and the command line and standard output of a program that reads and writes such texts.
//!
//! Nothing here knows what a line means: schedules and scripts are defined in the crates above.
#![tactic(auto)]

mod command_line;
mod fault_lines;
pub mod faults;
mod input;
mod limits;
mod messages;
mod output;
pub mod parsing;
pub mod text_laws;

pub use command_line::{CommandLine, read_command_line, standard_output, tell_usage};
pub use fault_lines::{write_limit_line, write_syntax_line};
pub use faults::{InputFault, WriteFault};
pub use input::read_input;
pub use limits::{MAX_BYTES, MAX_LINES, count_lines};
pub use messages::tell_fault;
pub use output::{flush, write_line_feed, write_number, write_text};
pub use parsing::{LineWords, MAX_DIGITS, first_line, read_number, split_words};
