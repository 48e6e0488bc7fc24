//! `mapf deps --cell`: says who comes into a cell of a plan, and in which order.
ghost use Rattle.ending.specs.Ending.{EndsAndTells, end_of};
ghost use Rattle.plan_commands.specs.CellVisitsText.{AreCellVisits};
ghost use Rattle.plan_commands.specs.PlanQueries.{AnswersDepsCell};

use crate::visits_text::write_visits;
use depgraph::{Graph, Visit};
use ending::{Ending, Status, conclude, finish};
use grid::Cell;
use planned::read_graph;
use std::alloc::Global;
use std::io::{Read, Write};
use text_io::Counted;

/// As `perform`, with a fault's line on `err`. The answer is the exit status, which stays where
/// `err` fails.
pub fn deps_cell_cmd<M: Read, P: Read, W: Write, E: Write>(
    alloc: Global,
    map: &mut Counted<M>,
    plan: &mut Counted<P>,
    cell: Cell,
    out: &mut Counted<W>,
    err: &mut Counted<E>,
) -> u8
    ensures { EndsAndTells
        (AnswersDepsCell M.remaining P.remaining W.contents cell map.old map.new plan.old plan.new
        out.old out.new)
        E.contents err.old err.new result }
{
    conclude(perform(alloc, map, plan, cell, out), err)
}

/// Reads a map from `map` and a plan from `plan`, checks the plan on the map, and writes the visits
/// of a cell to `out`, nothing where nobody comes into it.
pub fn perform<M: Read, P: Read, W: Write>(
    alloc: Global,
    map: &mut Counted<M>,
    plan: &mut Counted<P>,
    cell: Cell,
    out: &mut Counted<W>,
) -> Ending
    ensures { AnswersDepsCell M.remaining P.remaining W.contents cell map.old map.new plan.old
        plan.new out.old out.new (end_of result) }
{
    match read_graph(alloc, map, plan) {
        Ok(graph) => {
            let written = write_visits(visits_to(&graph, cell), out);
            finish(written, Ending::answered_with(Status::Done), out)
        }
        Err(fault) => Ending::gave_up(fault.words()),
    }
}

/// The visits of a cell, none where nobody comes into it.
fn visits_to(graph: &Graph, cell: Cell) -> &[Visit]
    ensures { AreCellVisits graph.now cell result.now }
{
    graph.visits_at(cell).unwrap_or(&[])
}
