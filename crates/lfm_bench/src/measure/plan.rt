//! How much is measured, by the arguments of the program.
use std::rt::Env;
use std::{env, io};

/// What is printed.
#[derive(Clone, Copy)]
pub enum Mode {
    /// The medians of the times.
    Times,
    /// The names of the rows, and whether each call did what it should. This text is the same in each run.
    Check,
}

/// How much is measured.
#[derive(Clone, Copy)]
pub struct Plan {
    /// What is printed.
    pub mode: Mode,
    /// The number of rounds. Each round measures everything once.
    pub rounds: u64,
    /// How many calls one thread makes in a round of one measurement.
    pub calls: u64,
    /// How long several threads contend in a round of one measurement.
    pub milliseconds: u64,
}

impl Plan {
    /// The plan if there are no arguments. It takes about 25 seconds.
    const USUAL: Plan = Plan {
        mode: Mode::Times,
        rounds: 15,
        calls: 100_000,
        milliseconds: 50,
    };

    /// The least that shows that each measurement runs.
    const LEAST: Plan = Plan {
        mode: Mode::Check,
        rounds: 3,
        calls: 100,
        milliseconds: 1,
    };

    /// The plan of the program's arguments: only `check`, or up to three numbers, which are the rounds, the calls and the
    /// milliseconds. Further words, and words that are not numbers, are ignored.
    pub fn from_arguments<R: Env + Alloc>(rt: &R) -> io::Result<Plan> {
        let mut plan = Plan::USUAL;
        for (place, word) in env::args(rt)?.enumerate() {
            if word.as_str() == "check" {
                return Ok(Plan::LEAST);
            }
            if let Ok(number) = word.as_str().parse::<u64>() {
                plan = plan.with(place, number);
            }
        }
        Ok(plan)
    }

    /// The plan with the number at this place of the command line.
    fn with(self, place: usize, number: u64) -> Plan {
        match place {
            1 => Plan {
                rounds: number,
                ..self
            },
            2 => Plan {
                calls: number,
                ..self
            },
            3 => Plan {
                milliseconds: number,
                ..self
            },
            _ => self,
        }
    }
}
