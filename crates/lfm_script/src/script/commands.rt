//! The commands of each worker of a script. Its lines are read twice. The first time the commands are counted, so that exactly
//! the memory that they need is reserved.

ghost use Rattle.std.specs.Prelude.{◌≡◌, ◌<◌, ◌+◌, [], ℕ, length, IfOk, IfErr, Vec, vec_capacity, vec_len, slice_index_or};
ghost use Rattle.lfm_script.specs.script.Commands.{commands_of};

use crate::faults::WorkFault;
use crate::script::limits::is_there;
use crate::script::{Command, ScriptLine};
use std::alloc::{AllocError, Global};

/// How many commands each worker has. Makes one request for memory.
fn count_commands(
    alloc: Global,
    workers: u64,
    lines: &[ScriptLine],
) -> Result<Vec<usize>, AllocError>
    ensures count { IfOk result (λ v. vec_len v ≡ workers) }
    ensures each { IfOk result (λ v. (i : ℕ) (d : ℕ) → i < workers →
        slice_index_or v.items i d ≡ length (commands_of (i + 1) lines.now)) }
{
    let mut counts = Vec::from_elem(alloc, 0usize, workers as usize)?;
    'counting: for line in lines {
        if is_there(line.worker, workers) {
            counts[(line.worker - 1) as usize] += 1;
        }
    }
    Ok(counts)
}

/// An empty list for each worker, with room for as many commands as its count. Makes one request for memory for all lists, and
/// one for each that is to have commands.
fn reserve_commands(alloc: Global, counts: &[usize]) -> Result<Vec<Vec<Command>>, AllocError>
    ensures count { IfOk result (λ v. vec_len v ≡ length counts.now) }
    ensures empty { IfOk result (λ v. (i : ℕ) (d : Vec Command Global) → i < length counts.now →
        (slice_index_or v.items i d).items ≡ []) }
    ensures room { IfOk result (λ v. (i : ℕ) (d : Vec Command Global) (n : ℕ) → i < length counts.now →
        vec_capacity (slice_index_or v.items i d) ≡ slice_index_or counts.now i n) }
{
    let mut commands = Vec::with_capacity(alloc, counts.len())?;
    'reserving: for count in counts {
        commands.push_reserved(Vec::with_capacity(alloc, *count)?);
    }
    Ok(commands)
}

/// The commands of the workers from 1 to `workers`, each in the order of the script. Lines of other workers are left out.
///
/// Makes a request for memory for the numbers of commands, one for the lists, and one for each list that is to have commands,
/// of exactly its length: Memory if one is refused.
pub fn commands_by_worker(
    alloc: Global,
    workers: u64,
    lines: &[ScriptLine],
) -> Result<Vec<Vec<Command>>, WorkFault>
    ensures count { IfOk result (λ v. vec_len v ≡ workers) }
    ensures each { IfOk result (λ v. (i : ℕ) (d : Vec Command Global) → i < workers →
        (slice_index_or v.items i d).items ≡ commands_of (i + 1) lines.now) }
    ensures memory { IfErr result (λ e. e ≡ WorkFault.Memory) }
{
    let counts = count_commands(alloc, workers, lines)?;
    let mut commands = reserve_commands(alloc, &counts)?;
    'handing_out: for line in lines {
        if is_there(line.worker, workers) {
            commands[(line.worker - 1) as usize].push_reserved(line.command);
        }
    }
    Ok(commands)
}
