//! What a run of waits with time limits leaves, and whether no wake was lost.
ghost use Rattle.std.specs.Prelude.{◌≡◌, ◌≤◌, ◌*◌};
ghost use Rattle.lfm_stress.specs.Waits.{counts_all, has_all};

use crate::plan::Plan;
use lfm_plain_condvar::WaitCounts;
use std::io;

/// What a run of waits with time limits leaves.
#[derive(Clone, Copy, Debug, PartialEq, Eq)]
pub struct WaitSums {
    /// How many waits returned that they were woken.
    pub woken: u64,
    /// How many waits returned that they timed out.
    pub timed_out: u64,
    /// How many wakes took a wait off the list.
    pub took: u64,
    /// What the condvar counted. None if it could not be closed.
    pub counts: Option<WaitCounts>,
}

impl WaitSums {
    /// What is left by a run that has not begun.
    pub fn new() -> WaitSums {
        WaitSums {
            woken: 0,
            timed_out: 0,
            took: 0,
            counts: None,
        }
    }

    /// Whether the condvar counted this number of waits, and as many ends of each kind as the threads did.
    fn counts_all(self, waits: u64) -> bool
        ensures { result ≡ counts_all waits self self.counts }
    {
        match self.counts {
            None => false,
            Some(counts) => {
                counts.added == waits
                    && counts.woken == self.woken
                    && counts.timed_out == self.timed_out
            }
        }
    }

    /// Whether no wake was lost in a run of this plan: each wait ended, either woken or timed out; as many waits were woken as
    /// wakes took one off the list; and the condvar, in whose list nobody is left, counted the same.
    pub fn is_exact(self, plan: Plan) -> bool
        ensures { result ≡ has_all (plan.threads * plan.turns) self }
    {
        let waits = plan.threads() * plan.turns();
        self.woken <= waits
            && self.timed_out == waits - self.woken
            && self.took == self.woken
            && self.counts_all(waits)
    }

    /// Prints whether no wake was lost in a run of this plan. How many waits were woken depends on the schedule, so that is
    /// written to standard error.
    pub fn print<R: Print + Eprint>(self, rt: &R, plan: Plan) -> io::Result<()> {
        let WaitSums {
            woken,
            timed_out,
            took,
            counts,
        } = self;
        let _ = eprintln!(rt;
            "lfm_stress: {woken} waits were woken, {timed_out} timed out, {took} wakes took one off the list"
        );
        match counts {
            Some(
                WaitCounts {
                    added,
                    woken,
                    timed_out,
                },
            ) => {
                let _ = eprintln!(rt;
                    "lfm_stress: the condvar counted {added} waits, {woken} woken, {timed_out} timed out"
                );
            }
            None => {
                let _ = rt.eprintln("lfm_stress: the condvar was not closed");
            }
        }
        let (load, locking) = (plan.load().name(), plan.locking().name());
        let (threads, turns) = (plan.threads(), plan.turns());
        let verdict = if self.is_exact(plan) {
            "exact"
        } else {
            "NOT EXACT"
        };
        println!(rt;
            "{load}, {locking}, {threads} threads: {turns} waits each, woken or timed out: {verdict}"
        )
    }
}
