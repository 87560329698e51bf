//! For each node, the greatest count of a measure with which it can be reached. A smaller count can't become greater than this
//! one from there on, so it is dropped. There is a separate greatest count for each number of changes of the push word by the
//! other seat, or of calls that were open at the start of the run.
ghost use Rattle.std.specs.Prelude.{◌≡◌};
ghost use Rattle.lfm_states.specs.Counts.{is_below};

use crate::graph::{Edge, Graph};
use crate::measures::{Effect, Measure};
use std::alloc::{AllocError, Global};

/// Counts are kept for 0, 1 and 2 such changes or calls.
pub const CLASSES: usize = 3;

/// The most passes over all edges. If counts still change in the last pass, they do not converge.
const MOST_PASSES: u64 = 1_000;

/// The counts of all nodes, and the greatest of all.
#[derive(Drop)]
pub struct Counts {
    /// For each node and each number of changes or calls, the greatest count. None if no count has reached the node with that
    /// number.
    at: Vec<Option<u64>>,
    /// For each number of changes or calls, the greatest count.
    greatest: Vec<u64>,
    /// Whether this pass has raised a count.
    raised: bool,
}

/// Whether a count is above the kept one.
fn is_below(kept: Option<u64>, count: u64) -> bool
    ensures { result ≡ is_below kept count }
{
    match kept {
        Some(kept) => kept < count,
        None => true,
    }
}

/// Where the count of a node is kept.
fn place(node: usize, beside: usize) -> usize {
    node.wrapping_mul(CLASSES).wrapping_add(beside)
}

impl Counts {
    /// Counts of this number of nodes, none of which a count has reached.
    fn new(alloc: Global, nodes: usize) -> Result<Counts, AllocError> {
        Ok(Counts {
            at: vec![in alloc; None; nodes.wrapping_mul(CLASSES)]?,
            greatest: vec![in alloc; 0; CLASSES]?,
            raised: false,
        })
    }

    /// The count that is kept.
    fn kept(&self, node: usize, beside: usize) -> Option<u64> {
        match self.at.get(place(node, beside)) {
            Some(kept) => *kept,
            None => None,
        }
    }

    /// Keeps this count among the greatest of all, if it is greater.
    fn note(&mut self, beside: usize, count: u64) {
        if let Some(greatest) = self.greatest.get_mut(beside) {
            if *greatest < count {
                *greatest = count;
            }
        }
    }

    /// Keeps this count at a node, if it is greater.
    fn raise(&mut self, node: usize, beside: usize, count: u64) {
        if beside >= CLASSES {
            return;
        }
        if let Some(kept) = self.at.get_mut(place(node, beside)) {
            if is_below(*kept, count) {
                *kept = Some(count);
                self.raised = true;
            }
        }
        self.note(beside, count);
    }

    /// Starts a count at each node at which a run may start.
    fn start(&mut self, graph: &Graph, measure: Measure) {
        for node in 0..graph.nodes.len() {
            if let Some(reading) = graph.nodes.get(node) {
                if measure.starts_at(reading) {
                    self.raise(node, measure.starts_beside(reading), 0);
                }
            }
        }
    }

    /// Carries the count of the node before an edge over to the node after it.
    fn relax(&mut self, edge: &Edge, beside: usize, effect: Effect) {
        if let Effect::Starts = effect {
            self.raise(edge.to, 0, 0);
            return;
        }
        let Some(count) = self.kept(edge.from, beside) else {
            return;
        };
        match effect {
            Effect::Starts | Effect::Stops => {}
            Effect::Stays => self.raise(edge.to, beside, count),
            Effect::Changes => self.raise(edge.to, beside.wrapping_add(1), count),
            Effect::Grows(by) => self.raise(edge.to, beside, count.saturating_add(by)),
            Effect::Ends(by) => self.note(beside, count.saturating_add(by)),
        }
    }

    /// Carries all counts over all edges, once.
    fn pass(&mut self, graph: &Graph, measure: Measure, seat: u64) {
        for edge in &graph.edges {
            let (before, after) = (graph.nodes.get(edge.from), graph.nodes.get(edge.to));
            if let (Some(before), Some(after)) = (before, after) {
                let effect = measure.effect(seat, edge.event, before, after);
                for beside in 0..CLASSES {
                    self.relax(edge, beside, effect);
                }
            }
        }
    }
}

/// The greatest counts of a measure in all runs, for calls of this seat, by the number of changes or open calls. None if they
/// do not converge. It allocates memory.
pub fn greatest(
    alloc: Global,
    graph: &Graph,
    measure: Measure,
    seat: u64,
) -> Result<Option<Vec<u64>>, AllocError> {
    let mut counts = Counts::new(alloc, graph.nodes.len())?;
    counts.start(graph, measure);
    'passes: for _ in 0..MOST_PASSES {
        counts.raised = false;
        counts.pass(graph, measure, seat);
        if !counts.raised {
            let Counts { greatest, .. } = counts;
            return Ok(Some(greatest));
        }
    }
    Ok(None)
}
