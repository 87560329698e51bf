//! How a monitor is closed.
ghost use Rattle.lfm_model.specs.Journals.{LawfulJournal, after_all, own, total};
ghost use Rattle.lfm_monitor.specs.Belongs.{SameMonitor, OfMonitor, mine_of, mutex_limits, opening_of, pass_past, pass_sight, passes_of};
ghost use Rattle.lfm_monitor.specs.Passes.{GoesOnTo, journal_of};
ghost use Rattle.lfm_mutex.specs.Close.{AllStand, FirstMissing, HaveRun};
ghost use Rattle.std.specs.Prelude.{◌≡◌, ℕ, IfErr, IfOk, length, vec_len};
ghost use lib.ListN.{get_elem?};
ghost use mathlib.Core.Option.{some};

use crate::journaled::Journaled;
use crate::monitor::Monitor;
use crate::pass::Pass;
use lfm_model::{Entry, Missing, Object};

impl<O: Object> Monitor<O> {
    /// Closes the monitor and returns the object and the journal, if all passes are handed in, none holds and none sleeps. The
    /// journal is lawful, its replay from the opening object gives the object, and it has the entries that the passes wrote,
    /// each once. For each pass, it starts with the journal that the pass last left, and continues with entries of others only.
    /// The trails are the passes' parts of one run of the mutex, from its start to a free mutex.
    ///
    /// Otherwise it hands back the monitor and the passes, and names the first pass that prevents the close, and why. It
    /// allocates no memory and never waits.
    pub fn close(
        self,
        passes: Vec<Pass<O>>,
    ) -> Result<(O, Vec<Entry<O::Op>>), (Monitor<O>, Vec<Pass<O>>, Missing)>
        requires belongs { (j : ℕ) (p : _) → get_elem? passes.items j ≡ some p → OfMonitor p self }
        ensures missing { IfErr result (λ e. SameMonitor e.0 self × (e.1 ≡ passes) × FirstMissing (λ p. pass_sight p) passes.items (passes_of self) e.2) }
        ensures back { IfErr result (λ e. (j : ℕ) (p : _) → get_elem? e.1.items j ≡ some p → OfMonitor p e.0) }
        ensures kept { IfErr result (λ e. (p : _) → OfMonitor p self → OfMonitor p e.0) }
        ensures all { IfOk result (λ _. AllStand (λ p. pass_sight p) passes.items (passes_of self)) }
        ensures legal { IfOk result (λ r. (r.0 ≡ after_all O.after (opening_of self) r.1.items) × LawfulJournal r.1.items) }
        ensures mine { IfOk result (λ r. (j : ℕ) (p : _) → get_elem? passes.items j ≡ some p → (own (pass_sight p).number r.1.items ≡ own (pass_sight p).number (journal_of (pass_sight p))) × (mine_of p ≡ length (own (pass_sight p).number r.1.items))) }
        ensures order { IfOk result (λ r. (j : ℕ) (p : _) → get_elem? passes.items j ≡ some p → GoesOnTo (pass_sight p) r.1.items) }
        ensures whole { IfOk result (λ r. vec_len r.1 ≡ total (λ p. mine_of p) passes.items) }
        ensures run { IfOk result (λ _. HaveRun (λ p. pass_sight p) (λ p. pass_past p) (mutex_limits self) passes.items) }
    {
        let Monitor {
            mutex,
            opening,
            share,
            conditions,
            plain_conditions,
        } = self;
        match mutex.close(passes) {
            Err((mutex, passes, missing)) => Err((
                Monitor {
                    mutex,
                    opening,
                    share,
                    conditions,
                    plain_conditions,
                },
                passes,
                missing,
            )),
            Ok(journaled) => {
                let Journaled {
                    object,
                    journal,
                    opening: _,
                    seats: _,
                    share: _,
                } = journaled;
                Ok((object, journal))
            }
        }
    }
}
