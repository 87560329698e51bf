//! Whether the numbers of a script are within its limits.

ghost use Rattle.std.specs.Prelude.{◌≡◌};
ghost use Rattle.lfm_script.specs.script.Limits.{is_there, command_allowed, lines_allowed, header_allowed};

use crate::script::{Command, MAX_CONDITIONS, MAX_NUMBER, MAX_WORKERS, ScriptLine};

/// Whether this number, counted from 1, is at most this count.
pub fn is_there(number: u64, count: u64) -> bool
    ensures { result ≡ is_there number count }
{
    1 <= number && number <= count
}

impl Command {
    /// Whether its condition exists and its number is at most 1,000,000,000.
    fn is_allowed(&self, conditions: u64) -> bool
        ensures { result ≡ command_allowed conditions self.now }
    {
        match self {
            Command::Add(number) => *number <= MAX_NUMBER,
            Command::Until(condition, bound) => {
                is_there(*condition, conditions) && *bound <= MAX_NUMBER
            }
            Command::One(condition) | Command::All(condition) => is_there(*condition, conditions),
        }
    }
}

/// Whether the workers and conditions of all lines exist, and no number is too large.
pub fn are_lines_allowed(workers: u64, conditions: u64, lines: &[ScriptLine]) -> bool
    ensures { result ≡ lines_allowed workers conditions lines.now }
{
    'looking: for line in lines {
        if !(is_there(line.worker, workers) && line.command.is_allowed(conditions)) {
            return false;
        }
    }
    true
}

/// Whether a script may have this many workers and conditions: 1 to 4,095 workers, and at most 16 conditions.
pub fn is_header_allowed(workers: u64, conditions: u64) -> bool
    ensures { result ≡ header_allowed workers conditions }
{
    1 <= workers && workers <= MAX_WORKERS && conditions <= MAX_CONDITIONS
}
