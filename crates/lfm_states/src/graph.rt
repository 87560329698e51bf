//! The states that were found, as a graph: a node for each, and an edge for each event that leads from one to the next.
use crate::events::Event;
use crate::readings::Reading;
use std::alloc::{AllocError, Global};
use std::collections::BTreeMap;

/// An event that leads from one node to another.
#[derive(Clone, Copy)]
pub struct Edge {
    /// The node before it.
    pub from: usize,
    /// The node after it.
    pub to: usize,
    /// The event.
    pub event: Event,
}

/// The nodes by their number, from 0, and the edges in the order in which they were found. Node 0 is the start.
#[derive(Drop)]
pub struct Graph {
    /// The reading of each node.
    pub nodes: Vec<Reading>,
    /// All edges.
    pub edges: Vec<Edge>,
    /// The nodes by the hash code of their reading.
    by_code: BTreeMap<u64, Vec<usize>>,
}

impl Graph {
    /// A graph that has only the start.
    pub fn new(alloc: Global, start: Reading) -> Result<Graph, AllocError> {
        let mut graph = Graph {
            nodes: Vec::new(alloc),
            edges: Vec::new(alloc),
            by_code: BTreeMap::new(alloc),
        };
        graph.add_node(start)?;
        Ok(graph)
    }

    /// The node with this reading. None if there is none yet.
    fn node_of(&self, reading: &Reading) -> Option<usize> {
        let bucket = self.by_code.get(&reading.code())?;
        for node in bucket {
            if let Some(found) = self.nodes.get(*node) {
                if *found == *reading {
                    return Some(*node);
                }
            }
        }
        None
    }

    /// Adds a node.
    fn add_node(&mut self, reading: Reading) -> Result<(), AllocError> {
        let node = self.nodes.len();
        let code = reading.code();
        self.nodes.push(reading)?;
        self.by_code.entry(code)?.or_default().push(node)?;
        Ok(())
    }

    /// Adds the edge by which this event leads from a node to this reading. Adds a node if the reading is new, and returns
    /// whether it is.
    pub fn add(&mut self, from: usize, event: Event, reading: Reading) -> Result<bool, AllocError> {
        let known = self.node_of(&reading);
        let to = match known {
            Some(node) => node,
            None => self.nodes.len(),
        };
        self.edges.push(Edge { from, to, event })?;
        if known.is_none() {
            self.add_node(reading)?;
        }
        Ok(known.is_none())
    }
}
