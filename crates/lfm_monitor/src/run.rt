//! `run`: a thread for each pass, which executes a critical section round by round.
ghost use Rattle.lfm_monitor.specs.Belongs.{OfMonitor};
ghost use Rattle.lfm_monitor.specs.Rounds.{MakesRounds};
ghost use Rattle.lfm_threads.specs.Together.{AllGiven};
ghost use Rattle.std.specs.Prelude.{◌≡◌, ℕ, IfErr, IfOk, vec_len};
ghost use lib.ListN.{get_elem?};
ghost use mathlib.Core.Option.{some};

use crate::hold::CriticalSection;
use crate::monitor::Monitor;
use crate::pass::Pass;
use lfm_model::Object;
use lfm_threads::{NotStarted, share};
use std::ops::ControlFlow;
use std::sync::Wait;
use std::thread::Threads;

impl<O: Object> Monitor<O> {
    /// Executes the section in up to `rounds` holds, one after another. It stops early if the section returns Break or is
    /// refused, or if `hold` is refused. Returns the pass.
    fn make_rounds<R: Wait, S: CriticalSection<O, R, Answer = ControlFlow<()>>>(
        &self,
        rt: &R,
        mut pass: Pass<O>,
        rounds: u64,
        section: &S,
    ) -> Pass<O>
        requires { OfMonitor pass self.now }
        ensures belongs { OfMonitor result self.now }
        ensures rounds { MakesRounds self.now (λ i p q r. S.makes section.now i p q r) rounds pass result }
    {
        'rounds: for round in 0..rounds {
            match self.hold(rt, &mut pass, round, section) {
                Ok(ControlFlow::Continue(())) => {}
                Ok(ControlFlow::Break(())) => return pass,
                Err(_) => return pass,
            }
        }
        pass
    }

    /// Starts a thread for each pass. Each thread makes `rounds` rounds, numbered from 0. In each round it executes the section
    /// in its own hold. A thread stops early if its section returns Break or is refused, or if `hold` is refused. Each round
    /// uses `hold`, so a thread tries before it queues. `run` sleeps until all threads have ended. Then it returns Ok with all
    /// passes, in their order.
    ///
    /// No round is made before all threads have been started, so sections may wait for one another. If an allocation fails
    /// (Memory), or a thread can't be started (Thread), it returns NotStarted: no round was made, and all passes are returned as
    /// they were. No clause says that NotStarted has such a cause.
    pub fn run<R: Threads + Wait + Sync, S: CriticalSection<O, R, Answer = ControlFlow<()>>>(
        &self,
        rt: &R,
        passes: Vec<Pass<O>>,
        rounds: u64,
        section: &S,
    ) -> Result<Vec<Pass<O>>, NotStarted<Pass<O>>>
        requires belongs { (j : ℕ) (p : _) → get_elem? passes.items j ≡ some p → OfMonitor p self.now }
        ensures count { IfOk result (λ v. vec_len v ≡ vec_len passes) }
        ensures belongs { IfOk result (λ v. (j : ℕ) (p : _) → get_elem? v.items j ≡ some p → OfMonitor p self.now) }
        ensures rounds { IfOk result (λ v. AllGiven (λ p q. MakesRounds self.now (λ i before after r. S.makes section.now i before after r) rounds p q) passes.items v.items) }
        ensures back { IfErr result (λ e. e.jobs.items ≡ passes.items) }
    {
        let passes = share(
            rt,
            self,
            passes,
            &|monitor: &Monitor<O>, pass: Pass<O>| -> Pass<O>
                requires { OfMonitor pass monitor.now }
                ensures { OfMonitor result monitor.now × MakesRounds monitor.now (λ i p q r. S.makes section.entry.now i p q r) rounds pass result }
            { monitor.make_rounds(rt, pass, rounds, section) },
        )?;
        Ok(passes)
    }
}
