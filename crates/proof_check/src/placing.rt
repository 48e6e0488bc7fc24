//! Whether a node may stand in a tree on a map.
ghost use Rattle.std.specs.Prelude.{◌<◌, Decides};
ghost use Rattle.proof_text.specs.ProofLines.{HasAgents, HasCells};

use grid::{Cell, Map};
use optimality::{Ends, Node};

/// Whether the agents that a node names are there.
pub(crate) fn has_agents(ends: &[Ends], node: Node) -> bool
    ensures { Decides result (HasAgents ends.now node) }
{
    match node {
        Node::Vertex(i, j, _, _) | Node::Swap(i, j, _, _, _) => {
            (i as usize) < ends.len() && (j as usize) < ends.len()
        }
        Node::At(i, _, _) | Node::Goes(i, _, _, _) | Node::Stays(i, _) => {
            (i as usize) < ends.len()
        }
    }
}

/// Whether the cells that it names are on the map.
pub(crate) fn has_cells(map: &Map, node: Node) -> bool
    ensures { Decides result (HasCells map.now node) }
{
    match node {
        Node::Vertex(_, _, _, c) | Node::At(_, _, c) => is_on(map, c),
        Node::Swap(_, _, _, u, v) | Node::Goes(_, _, u, v) => is_on(map, u) && is_on(map, v),
        Node::Stays(_, _) => true,
    }
}

fn is_on(map: &Map, cell: Cell) -> bool
    ensures { Decides result ((cell.x < map.now.width) × (cell.y < map.now.height)) }
{
    u32::from(cell.x) < map.width() && u32::from(cell.y) < map.height()
}
