//! The search tries each event in each state that was found, until there is no new state.
use crate::events::{CALLS, Event, SEATS, is_left_out};
use crate::graph::Graph;
use crate::readings::Reading;
use crate::weights::is_open;
use lfm_core::{State, Turn};
use std::alloc::{AllocError, Global};
use std::collections::VecDeque;

/// More states than there are at either budget.
const MOST_STATES: usize = 4_000_000;

/// The data of a search.
#[derive(Drop)]
struct Search {
    alloc: Global,
    graph: Graph,
    /// The states that were found and not visited yet, in the order of their nodes.
    pending: VecDeque<State>,
}

/// All states of a mutex of two seats with this budget, and the events between them. It allocates memory.
pub fn reachable(alloc: Global, budget: u64) -> Result<Graph, AllocError> {
    let Ok(start) = State::new(alloc, SEATS, budget) else {
        return Err(AllocError);
    };
    let mut search = Search {
        alloc,
        graph: Graph::new(alloc, Reading::of(&start))?,
        pending: VecDeque::new(alloc),
    };
    search.pending.push_back(start)?;
    search.visit_all()?;
    let Search { graph, .. } = search;
    Ok(graph)
}

impl Search {
    /// Visits all nodes, those that are found meanwhile too.
    fn visit_all(&mut self) -> Result<(), AllocError> {
        'nodes: for node in 0..MOST_STATES {
            let Some(state) = self.pending.pop_front() else {
                break 'nodes;
            };
            self.visit(node, &state)?;
        }
        Ok(())
    }

    /// Tries each event of each seat at this node, whose state this is.
    fn visit(&mut self, node: usize, state: &State) -> Result<(), AllocError> {
        for seat in 1..SEATS + 1 {
            if is_open(state.point(seat)) {
                self.attempt(node, state, Event::Step(seat))?;
            } else {
                self.begin_calls(node, state, seat)?;
            }
        }
        Ok(())
    }

    /// Tries each call of a seat.
    fn begin_calls(&mut self, node: usize, state: &State, seat: u64) -> Result<(), AllocError> {
        for call in &CALLS {
            if !is_left_out(state, seat, *call) {
                self.attempt(node, state, Event::Begin(seat, *call))?;
            }
        }
        Ok(())
    }

    /// Tries one event in the state of this node. A state that is new is kept to be visited.
    fn attempt(&mut self, node: usize, state: &State, event: Event) -> Result<(), AllocError> {
        let mut next = state.copy(self.alloc)?;
        let turn = event.happen(&mut next);
        if let (Event::Begin(_, _), Turn::Refused(_)) = (event, turn) {
            return Ok(());
        }
        if self.graph.add(node, event, Reading::of(&next))? {
            self.pending.push_back(next)?;
        }
        Ok(())
    }
}
