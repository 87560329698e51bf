//! A line of a table, as it is printed.

use crate::measure::figures::{Measure, Quartiles};
use std::alloc::{AllocError, Global};
use std::io;

/// A line of a table: a name, and cells to the right of it.
#[derive(Drop)]
pub struct Line {
    alloc: Global,
    text: String,
}

impl Line {
    /// A line with this name and no cells.
    pub fn new(alloc: Global, name: &str) -> Result<Line, AllocError> {
        let text = format!(in alloc; "{name:<32}")?;
        Ok(Line { alloc, text })
    }

    /// Adds a cell with this text.
    pub fn add(&mut self, cell: &str) -> Result<(), AllocError> {
        let cell = format!(in self.alloc; " {cell:>9}")?;
        self.text.push_str(&cell)
    }

    /// Adds the median of a measure. Hundredths are printed with two decimals. Times are printed with one decimal, rounded
    /// down: those of waits in microseconds, others in nanoseconds. `quartiles` is None if the peer was not measured.
    pub fn add_median(
        &mut self,
        measure: Measure,
        quartiles: Option<Quartiles>,
    ) -> Result<(), AllocError> {
        let Some(quartiles) = quartiles else {
            return self.add("-");
        };
        if matches!(measure, Measure::Fairness) {
            return self.add_hundredths(quartiles.median);
        }
        // the series has picoseconds, or nanoseconds for waits; a thousand of them are one unit of what is shown
        let (whole, tenths) = (quartiles.median / 1_000, quartiles.median % 1_000 / 100);
        let text = format!(in self.alloc; "{whole}.{tenths}")?;
        self.add(&text)
    }

    /// Adds the spread of figures, in percent. `quartiles` is None if the peer was not measured.
    pub fn add_spread(&mut self, quartiles: Option<Quartiles>) -> Result<(), AllocError> {
        let Some(quartiles) = quartiles else {
            return self.add("-");
        };
        let percent = format!(in self.alloc; "{}%", quartiles.spread())?;
        self.add(&percent)
    }

    /// Adds hundredths as a number with two decimals.
    pub fn add_hundredths(&mut self, hundredths: u64) -> Result<(), AllocError> {
        let text = format!(in self.alloc; "{}.{:02}", hundredths / 100, hundredths % 100)?;
        self.add(&text)
    }

    /// Prints the line.
    pub fn print<R: Print>(&self, rt: &R) -> io::Result<()> {
        let text = self.text.as_str();
        println!(rt; "{text}")
    }
}
