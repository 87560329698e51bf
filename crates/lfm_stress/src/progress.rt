//! A run is made by tenths of its turns. After each tenth all threads have ended, and a line reports how far the run is.
ghost use Rattle.std.specs.Prelude.{◌≡◌, ◌≤◌, ◌+◌, ◌*◌, ◌/◌};
ghost use Rattle.lfm_stress.specs.Tenths.{until};

use crate::plan::Plan;
use std::io;

/// How many tenths a run has.
pub const TENTHS: u64 = 10;

/// The turns of a tenth: the first of them, and the one after the last. Turns count from 0.
#[derive(Clone, Copy)]
pub struct Tenth {
    pub from: u64,
    pub to: u64,
}

/// How many of `turns` turns are made after this number of tenths.
fn until(turns: u64, tenths: u64) -> u64
    requires turns { turns ≤ 1000000000 }
    requires tenths { tenths ≤ 10 }
    ensures { result ≡ until turns tenths }
{
    turns * tenths / TENTHS
}

impl Tenth {
    /// The turns of the tenth after `done` tenths.
    pub fn of(plan: Plan, done: u64) -> Tenth
        requires { done + 1 ≤ 10 }
        ensures { (result.from ≡ until plan.turns done) × (result.to ≡ until plan.turns (done + 1)) }
    {
        let turns = plan.turns();
        Tenth {
            from: until(turns, done),
            to: until(turns, done + 1),
        }
    }

    /// Prints that this tenth is made.
    pub fn print<R: Print>(self, rt: &R, plan: Plan) -> io::Result<()> {
        let (load, locking) = (plan.load().name(), plan.locking().name());
        let (threads, turns) = (plan.threads(), plan.turns());
        let made = self.to;
        println!(rt; "{load}, {locking}, {threads} threads: {made} of {turns} turns")
    }
}
