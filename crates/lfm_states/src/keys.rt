//! The key by which a state is found again.
ghost use Rattle.std.specs.Prelude.{◌≡◌, ◌≤◌, ℕ, List, ◌++◌, length, vec_capacity, IfOk, OnOk};
ghost use Rattle.lfm_shown.specs.Graphs.{key_text};

use crate::points::PointNumbers;
use lfm_core::State;
use lfm_shown::graphs::write_key_text;
use lfm_text::{WriteFault, write_number, write_text};
use lfm_words::Record;
use std::alloc::{AllocError, Global};

/// The key of a state: its texts, and the numbers of its points, since a text does not show by which call a seat that looks for
/// its grant fell asleep, and whether a seat that grants has taken its post back. It allocates memory.
pub fn key_of(alloc: Global, state: &State) -> Result<Vec<u8>, AllocError>
    ensures { IfOk result (λ key. (points : List ℕ) × key.items ≡ key_text state.now ++ points) }
{
    let mut key = Vec::new(alloc);
    let mut records = Vec::with_capacity(alloc, state.seats() as usize)?;
    match write_key(&mut key, state, &mut records) {
        Ok(()) => Ok(key),
        Err(WriteFault) => Err(AllocError),
    }
}

/// Writes the texts of a state, and the numbers of all points. The records of the queue need memory for one of each seat.
fn write_key(key: &mut Vec<u8>, state: &State, records: &mut Vec<Record>) -> Result<(), WriteFault>
    requires { length state.now.seats ≤ vec_capacity records.old }
    ensures { OnOk result ((points : List ℕ) × key.new.items ≡ key.old.items ++ (key_text state.now ++ points)) }
{
    write_key_text(key, state, records)?;
    write_points(key, state)?;
    Ok(())
}

/// Writes the numbers of all points.
fn write_points(key: &mut Vec<u8>, state: &State) -> Result<(), WriteFault>
    ensures { OnOk result ((points : List ℕ) × key.new.items ≡ key.old.items ++ points) }
{
    for s in 0..state.seats() {
        write_point(key, PointNumbers::of(&state.point(s + 1)))?;
    }
    Ok(())
}

/// Writes the numbers of a point.
fn write_point(key: &mut Vec<u8>, point: PointNumbers) -> Result<(), WriteFault>
    ensures { OnOk result ((numbers : List ℕ) × key.new.items ≡ key.old.items ++ numbers) }
{
    let PointNumbers {
        variant,
        by,
        first,
        second,
    } = point;
    for number in [variant, by, first, second] {
        write_text(key, b" ")?;
        write_number(key, number)?;
    }
    Ok(())
}
