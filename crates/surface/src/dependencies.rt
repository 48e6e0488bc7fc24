//! The names of `depgraph`.
use depgraph::{Graph, OutOfMemory, Rotation, Visit};
use grid::Cell;
use plan::CheckedPlan;
use std::alloc::Global;

pub fn graph_of(alloc: Global, plan: &CheckedPlan) -> Result<Graph, OutOfMemory> {
    Graph::build(alloc, plan)
}

pub fn counts(graph: &Graph, agent: u32) -> (u32, u32, Option<u32>, u32) {
    (
        graph.number(),
        graph.agents(),
        graph.moves(agent),
        graph.cell_count(),
    )
}

/// A cell of an agent's path, and what its move with this number waits for.
pub fn need_of(
    graph: &Graph,
    agent: u32,
    number: u32,
) -> Option<(Option<Cell>, Option<(u16, u32)>)> {
    let route = graph.route(agent)?;
    Some((route.cell(number), route.need(number)))
}

pub fn visits_of(graph: &Graph, number: u32) -> Option<(Cell, &[Visit])> {
    graph.visits(number)
}

pub fn rotations_of(graph: &Graph) -> &[Rotation] {
    graph.rotations()
}
