//! The paths of the agents, and when they come into each cell.
ghost use Rattle.std.specs.Prelude.{◌≡◌, ◌+◌, ◌++◌, ◌<◌, ◌≤◌, ◌^◌, All, None, length, IfOk, OnOk};
ghost use Rattle.depgraph.specs.Code.Arrivals.{is_new, entered, entry_times};
ghost use Rattle.depgraph.specs.Code.Numbering.{IsNumbering, cells_in};
ghost use Rattle.depgraph.specs.Code.Numbers.{cells_by, AreNumbered};
ghost use Rattle.depgraph.specs.Code.Paths.{ArePaths};
ghost use Rattle.depgraph.specs.Code.Tiles.{IsCovered, IsSameMap};

use crate::numbering::Numbering;
use checker::{Cells, CheckedPlan};
use grid::Cell;
use std::alloc::{AllocError, Global};

/// The paths of all agents, one after another: the numbers of their cells, the time at which each
/// is entered, and where each agent's end; and the cell with each number.
#[derive(Drop)]
pub(crate) struct Paths {
    pub(crate) numbers: Vec<u32>,
    pub(crate) names: Vec<Cell>,
    pub(crate) times: Vec<u16>,
    pub(crate) ends: Vec<usize>,
}

/// The paths of a plan's agents.
pub(crate) fn paths_of(alloc: Global, plan: &CheckedPlan) -> Result<Paths, AllocError>
    ensures numbered { IfOk result
        (λ p. AreNumbered (cells_by p.names.items p.numbers.items) p.names.items p.numbers.items) }
    ensures paths { IfOk result
        (λ p. ArePaths plan.now.timetable.tracks (cells_by p.names.items p.numbers.items)
        p.times.items p.ends.items) }
{
    // An agent enters no more cells than it has steps before it rests, and its first.
    let room = (plan.sum_of_costs() as usize).saturating_add(plan.agents() as usize);
    let mut cells = Numbering::new(alloc, plan.width(), plan.height(), room)?;
    let mut times = Vec::with_capacity(alloc, room)?;
    let mut ends = Vec::with_capacity(alloc, plan.agents() as usize)?;
    for agent in 0..plan.agents() {
        follow(plan.cells(agent).unwrap(), &mut cells, &mut times)?;
        ends.push(cells.numbers.len())?;
    }
    let Numbering {
        tiles: _,
        numbers,
        names,
    } = cells;
    Ok(Paths {
        numbers,
        names,
        times,
        ends,
    })
}

/// Adds an agent's cells, each once while it stays, behind those of other agents, and the times at
/// which the agent comes into them.
fn follow(cells: Cells<'_>, path: &mut Numbering, times: &mut Vec<u16>) -> Result<(), AllocError>
    requires numbering { IsNumbering path.old }
    requires covered { All (IsCovered path.old.tiles) cells }
    requires few { length path.old.numbers.items + length cells < 2 ^ 32 }
    requires steps { length cells ≤ 2 ^ 16 }
    ensures numbering { OnOk result (IsNumbering path.new) }
    ensures map { OnOk result (IsSameMap path.old.tiles path.new.tiles) }
    ensures path { OnOk result (cells_in path.new ≡ cells_in path.old ++ entered None cells.entry) }
    ensures times { OnOk result
        (times.new.items ≡ times.old.items ++ entry_times None cells.entry 0) }
{
    let mut here = None;
    let mut time = 0u32;
    for cell in cells {
        if is_new(here, cell) {
            path.add(cell)?;
            times.push(time as u16)?;
        }
        here = Some(cell);
        time += 1;
    }
    Ok(())
}

/// Whether the cell isn't the one in which the agent is already.
fn is_new(here: Option<Cell>, cell: Cell) -> bool
    ensures { result ≡ is_new here cell }
{
    match here {
        Some(other) => other.x != cell.x || other.y != cell.y,
        None => true,
    }
}
