//! Graphs, which know who comes into which cell.
use crate::texts::graph_of_behind;
use depgraph::{Graph, OutOfMemory, Visit};
use grid::Cell;
use std::alloc::Global;

/// Who comes into the middle.
const INTO_MIDDLE: [Visit; 2] = [
    Visit {
        agent: 0,
        index: 0,
        time: 0,
    },
    Visit {
        agent: 1,
        index: 1,
        time: 1,
    },
];

/// Whether a graph has its cells in the order of their first visits.
fn has_cells(graph: &Graph) -> bool {
    let middle = Cell { x: 1, y: 0 };
    let first = graph.visits(0) == Some((middle, INTO_MIDDLE.as_slice()));
    let last = graph.visits(2).map(|(cell, _)| cell);
    let count = graph.cell_count() == 3 && graph.visits(3).is_none();
    first && last == Some(Cell { x: 2, y: 0 }) && count
}

/// Whether agent 1 waits for the move of agent 0.
fn has_need(graph: &Graph) -> bool {
    match graph.route(1) {
        Some(route) => route.need(0) == Some((0, 1)) && graph.moves(1) == Some(1),
        None => false,
    }
}

fn is_right(alloc: Global) -> Result<bool, OutOfMemory> {
    let graph = graph_of_behind(alloc)?;
    Ok(has_cells(&graph) && has_need(&graph))
}

#[test]
fn graph_of_a_plan(rt: HostRuntime) {
    let mut found = is_right(rt.alloc());
    if found.is_err() {
        found = is_right(rt.alloc());
    }
    assert!(rt; found == Ok(true));
}
