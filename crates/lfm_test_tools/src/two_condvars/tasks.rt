//! What the threads of a mutex with two condvars do, each with a part of its own.
ghost use Rattle.std.specs.Prelude.{All, IfOk};
ghost use Rattle.lfm_test_tools.specs.Parts.{OfShared};

use crate::two_condvars::parts::{Part, Shared};
use std::alloc::AllocError;
use std::sync::Wait;
use std::thread;
use std::thread::Threads;

/// What a thread does with its part.
pub trait Task<R: Wait>: Sync {
    /// Does it, and hands the part back.
    fn perform(&self, rt: &R, shared: &Shared, part: Part) -> Part
        requires { OfShared part shared.now }
        ensures { OfShared result shared.now };
}

/// Performs the task with each part in a thread of its own, and joins the threads. It takes memory.
pub fn perform_all<R: Threads + Wait + Sync, K: Task<R>>(
    rt: &R,
    shared: &Shared,
    parts: Vec<Part>,
    task: &K,
) -> Result<Vec<Part>, AllocError>
    requires { All (λ p. OfShared p shared.now) parts.items }
    ensures { IfOk result (λ v. All (λ p. OfShared p shared.now) v.items) }
{
    let parts = thread::map_vec(
        rt,
        parts,
        &|part: Part| -> Part
            requires { OfShared part shared.now }
            ensures { OfShared result shared.entry.now }
        { task.perform(rt, shared, part) },
    )?;
    Ok(parts)
}
