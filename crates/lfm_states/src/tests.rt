//! Graphs have the known numbers of states and events, and no other arguments are accepted. scripts/draw/test_explorer compares
//! larger graphs with those of the pages, byte for byte.
use crate::arguments::{Request, graph_of, search_of};
use crate::graph::Graph;
use crate::points::PointNumbers;
use crate::printing::{Totals, print_graph};
use crate::readings::Reading;
use crate::search::reachable;
use lfm_core::points::Point;
use std::alloc::Global;
use std::process::Abort;
use std::test::Fail;

/// The words of a graph on the command line: seats, budget, depth and calls.
type Words = [&'static str; 4];

/// How many states and events the graph of these words has. None if it is refused or not printed.
fn totals_of(alloc: Global, words: Words) -> Option<Totals> {
    let [seats, budget, depth, calls] = words;
    let Request::Graph(request) = graph_of(seats, budget, depth, calls) else {
        return None;
    };
    let mut text = Vec::new(alloc);
    print_graph(alloc, request, &mut text).ok()
}

/// The graph of these words has these numbers of states and events.
fn has_totals<R: Abort + AllocGlobal>(rt: &R, words: Words, states: usize, events: u64) {
    let found = totals_of(rt.alloc(), words);
    assert_eq!(rt;
        found,
        Some(Totals { states, events }),
        "the states and events of {words:?}"
    );
}

#[test]
fn numbers_of_states_and_events(rt: HostRuntime) {
    has_totals(&rt, ["2", "1", "1", "lock,unlock,receive"], 261, 444);
    has_totals(&rt, ["2", "2", "1", "lock,unlock,receive"], 7_881, 14_636);
}

/// Whether the next step of a seat claims the seat itself, which no graph that is printed has.
fn sends_itself(reading: &Reading) -> bool {
    reading.seat_1.point == PointNumbers::of(&Point::SendWakeExchange(1))
        || reading.seat_2.point == PointNumbers::of(&Point::SendWakeExchange(2))
}

/// How many nodes have no seat whose next step claims itself.
fn nodes_without_own_sends(graph: &Graph) -> usize {
    let mut count = 0usize;
    for reading in &graph.nodes {
        if !sends_itself(reading) {
            count = count.saturating_add(1);
        }
    }
    count
}

#[test]
fn both_searches_find_the_same_number(rt: HostRuntime) -> Result<(), Fail> {
    let graph = reachable(rt.alloc(), 1)?;
    let printed = totals_of(rt.alloc(), ["2", "1", "2", "all"]);
    let states = printed.map(|totals| totals.states);
    assert_eq!(rt; states, Some(nodes_without_own_sends(&graph)));
    Ok(())
}

#[test]
fn arguments(rt: HostRuntime) {
    assert_eq!(rt; search_of("2"), Request::Search(2));
    assert_eq!(rt; search_of("4"), Request::Other);
    let wrong = [
        ["0", "1", "1", "all"],
        ["4096", "1", "1", "all"],
        ["2", "0", "1", "all"],
        ["2", "68719476737", "1", "all"],
        ["2", "1", "0", "all"],
        ["2", "1", "65536", "all"],
        ["2", "1", "x", "all"],
        ["2", "1", "1", "locks"],
        ["2", "1", "1", "lock,"],
    ];
    for [seats, budget, depth, calls] in wrong {
        let asked = graph_of(seats, budget, depth, calls);
        assert_eq!(rt; asked, Request::Other, "{seats} {budget} {depth} {calls}");
    }
}
