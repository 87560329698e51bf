//! The rows of a report, counted from the journal. Each entry of the journal is read once.

ghost use Rattle.std.specs.Prelude.{◌≡◌, ◌+◌, ◌^◌, ◌<◌, ℕ, sum, length, IfOk, slice_index_or};
ghost use Rattle.lfm_model.specs.Journals.{Within, own};
ghost use Rattle.lfm_script.specs.Adds.{added, adds};
ghost use Rattle.lfm_script.specs.Rows.{FitsRow, refusal_at, rows_from, row_plus, run_row};
ghost use Rattle.lfm_script.specs.declared.rows.Row.{Row};

use crate::rows::Row;
use lfm_model::{Entry, Refusal, TotalOp, What};
use std::alloc::{AllocError, Global};

impl Row {
    /// Counts an entry in the row. Only an entry that adds a number changes the row.
    fn count_entry(&mut self, what: &What<TotalOp>)
        requires fits { FitsRow (row_plus self.old (added what.now)) }
        ensures { self.new ≡ row_plus self.old (added what.now) }
    {
        match what {
            What::Took(_) | What::Did(TotalOp::Read) => {}
            What::Did(TotalOp::Add(number)) => {
                self.count += 1;
                self.sum += *number;
            }
        }
    }
}

/// Counts each worker's entries in the worker's row. The first row is worker 1's. Allocates no memory.
fn count_entries(rows: &mut [Row], entries: &[Entry<TotalOp>])
    requires within { Within (length rows.old) entries.now }
    requires fits { (i : ℕ) (d : Row) → i < length rows.old →
        FitsRow (row_plus (slice_index_or rows.old i d) (adds (own (i + 1) entries.now))) }
    ensures all { length rows.new ≡ length rows.old }
    ensures each { (i : ℕ) (d : Row) → i < length rows.old →
        slice_index_or rows.new i d ≡ row_plus (slice_index_or rows.old i d) (adds (own (i + 1) entries.now)) }
{
    'counting: for entry in entries {
        let at = (entry.seat.get() - 1) as usize;
        rows[at].count_entry(&entry.what);
    }
}

/// A row for each worker, beginning with worker 1: how many numbers its entries in the journal add, their sum, and its refusal.
/// There are as many workers as refusals. Makes one request for memory, of exactly the rows, and none if there is no worker;
/// AllocError if it is refused.
pub fn rows_of(
    alloc: Global,
    refusals: &[Option<Refusal>],
    entries: &[Entry<TotalOp>],
) -> Result<Vec<Row>, AllocError>
    requires within { Within (length refusals.now) entries.now }
    requires few { length entries.now < 2 ^ 64 }
    requires fits { sum (adds entries.now) < 2 ^ 64 }
    ensures { IfOk result (λ v. v.items ≡
        rows_from (run_row entries.now (refusal_at refusals.now)) 1 (length refusals.now)) }
{
    let mut rows = Vec::with_capacity(alloc, refusals.len())?;
    'making: for (index, refused) in refusals.iter().enumerate() {
        rows.push_reserved(Row {
            worker: index as u64 + 1,
            count: 0,
            sum: 0,
            refused: *refused,
        });
    }
    count_entries(rows.as_mut_slice(), entries);
    Ok(rows)
}
