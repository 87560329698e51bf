//! The rows of a report, one for each worker.

use lfm_model::Refusal;

/// The row of one worker in a report.
#[derive(Clone, Copy, Debug, PartialEq, Eq)]
pub struct Row {
    /// The worker's number, from 1.
    pub worker: u64,
    /// How many numbers it added.
    pub count: u64,
    /// The sum of these.
    pub sum: u64,
    /// Why it was refused, if it was.
    pub refused: Option<Refusal>,
}
