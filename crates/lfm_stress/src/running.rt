//! A run over a mutex and its condvars. In each tenth of it, each part is used by a thread of its own. After the last tenth
//! the mutex and the condvars are closed. The run returns the mutex's number and what the threads counted; `sums` compares
//! them.
ghost use Rattle.std.specs.Prelude.{◌≡◌, All, IfOk};
ghost use Rattle.lfm_test_tools.specs.Parts.{OfShared};

use crate::loads::{broadcast, lock, mixed, ping_pong};
use crate::plan::{Load, Plan};
use crate::progress::{TENTHS, Tenth};
use crate::sums::Sums;
use lfm_mutex::Pace;
use lfm_test_tools::two_condvars::dealing::shared_by;
use lfm_test_tools::two_condvars::parts::{Counts, Part, Shared};
use lfm_test_tools::two_condvars::tasks::{Task, perform_all};
use std::alloc::AllocError;
use std::io;
use std::sync::Wait;
use std::thread::Threads;
use std::time::Clock;

/// Makes a run of this plan, and prints after each tenth how far it is. It requests memory, starts threads and joins them all.
/// It is an error if the number of processors or the time can't be read, a line can't be written, or there is no memory for the
/// parts and threads. The number is 0 if a seat holds, sleeps or is missing at the end, or if there is no memory to sort the
/// seats.
pub fn run<R: Threads + Wait + Sync + Clock + AllocGlobal + Print>(
    rt: &R,
    plan: Plan,
) -> io::Result<Sums> {
    let pace = Pace::of_machine(rt)?;
    let Some((shared, parts)) = shared_by(rt.alloc(), pace, plan.locking(), plan.seats()) else {
        return Err(AllocError.into());
    };
    let parts = run_tenths(rt, &shared, plan, parts)?;
    let counts = Counts::of(&parts);
    let number = match shared.close(rt.alloc(), parts) {
        Some(left) => left.number,
        None => 0,
    };
    Ok(Sums {
        made: counts.made,
        woken: counts.woken,
        number,
    })
}

/// All tenths of a run.
fn run_tenths<R: Threads + Wait + Sync + Print>(
    rt: &R,
    shared: &Shared,
    plan: Plan,
    mut parts: Vec<Part>,
) -> io::Result<Vec<Part>>
    requires { All (λ p. OfShared p shared.now) parts.items }
    ensures { IfOk result (λ v. All (λ p. OfShared p shared.now) v.items) }
{
    'tenths: for done in 0..TENTHS {
        let tenth = Tenth::of(plan, done);
        parts = perform_all(rt, shared, parts, &Turns { plan, tenth })?;
        tenth.print(rt, plan)?;
    }
    Ok(parts)
}

/// The turns of a run of this plan in one tenth of it.
#[derive(Clone, Copy)]
struct Turns {
    plan: Plan,
    tenth: Tenth,
}

impl<R: Wait> Task<R> for Turns {
    /// The turns of one thread.
    fn perform(&self, rt: &R, shared: &Shared, part: Part) -> Part {
        let tenth = self.tenth;
        match self.plan.load() {
            Load::Lock => lock::take_turns(rt, shared, tenth, part),
            Load::Mixed => mixed::take_turns(rt, shared, tenth, part),
            Load::PingPong => ping_pong::take_turns(rt, shared, tenth, part),
            Load::Broadcast => broadcast::take_turns(rt, shared, tenth, self.plan.threads(), part),
            // a monitor has passes instead of parts, and a plain condvar hands
            Load::Buffer | Load::Limits => part,
        }
    }
}
