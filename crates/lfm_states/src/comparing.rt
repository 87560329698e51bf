//! Measures and compares all rows, and prints a line for each.
ghost use Rattle.std.specs.Prelude.{◌≡◌, ◌<◌, true, false};

use crate::counts::greatest;
use crate::graph::Graph;
use crate::rows::{ROWS, Row, known_states};
use crate::search::reachable;
use std::alloc::{AllocError, Global};
use std::io;

/// How many comparisons passed, and how many failed.
#[derive(Clone, Copy, Debug, PartialEq, Eq)]
pub struct Tally {
    /// How many passed.
    pub passed: u64,
    /// How many failed.
    pub failed: u64,
}

impl Tally {
    /// Counts one comparison.
    fn count(&mut self, passes: bool)
        ensures passes { passes ≡ true → self.new.failed ≡ self.old.failed }
        ensures fails { passes ≡ false → 0 < self.new.failed }
    {
        if passes {
            self.passed = self.passed.saturating_add(1);
        } else {
            self.failed = self.failed.saturating_add(1);
        }
    }
}

/// Finds all states at this budget, which is 2 or 3, and compares each row. It allocates memory.
pub fn compare<R: AllocGlobal + Print>(rt: &R, budget: u64) -> io::Result<Tally> {
    let alloc = rt.alloc();
    let mut tally = Tally {
        passed: 0,
        failed: 0,
    };
    let graph = reachable(alloc, budget)?;
    let (states, known) = (graph.nodes.len(), known_states(budget));
    println!(rt; "states at budget {budget}: {states}, {known} are known")?;
    tally.count(states == known);
    for row in &ROWS {
        let found = greatest_of_both(alloc, &graph, row)?;
        tally.count(passes(row, found));
        print_row(rt, row, found)?;
    }
    let Tally { passed, failed } = tally;
    println!(rt; "{passed} passed, {failed} failed")?;
    Ok(tally)
}

/// The greatest count of a row, for calls of either seat. None if the counts do not converge.
fn greatest_of_both(alloc: Global, graph: &Graph, row: &Row) -> Result<Option<u64>, AllocError> {
    let first = greatest(alloc, graph, row.measure, 1)?;
    let second = greatest(alloc, graph, row.measure, 2)?;
    match (count_at(&first, row.beside), count_at(&second, row.beside)) {
        (Some(first), Some(second)) => Ok(Some(first.max(second))),
        _ => Ok(None),
    }
}

/// The count for this number of changes or open calls.
fn count_at(counts: &Option<Vec<u64>>, beside: usize) -> Option<u64> {
    match counts {
        Some(counts) => counts.get(beside).copied(),
        None => None,
    }
}

/// Whether a greatest count was found, is the known one, and is within the bound.
fn passes(row: &Row, found: Option<u64>) -> bool {
    match found {
        Some(found) => row.is_as_known(found),
        None => false,
    }
}

/// Prints the result for a row.
fn print_row<R: Print>(rt: &R, row: &Row, found: Option<u64>) -> io::Result<()> {
    let (name, bound, law) = (row.name, row.bound, row.law);
    let Some(count) = found else {
        return println!(rt; "FAILED {name}: not found, bound {bound}, {law}");
    };
    if passes(row, found) {
        println!(rt; "{name}: {count}, bound {bound}, {law}")
    } else {
        let known = row.known;
        println!(rt; "FAILED {name}: {count}, known {known}, bound {bound}, {law}")
    }
}
