//! The dependency graph.
ghost use Rattle.std.specs.Prelude.{◌≡◌, List, length, None, slice_get};
ghost use Rattle.std.specs.Prelude.{option_map, IsSomeAnd, MatchOption, IfOk};
ghost use Rattle.model.specs.Timetable.{moves, track_of};
ghost use Rattle.depgraph.specs.AgentParts.{IsPartOf};
ghost use Rattle.depgraph.specs.Graphs.{IsGraphed};
ghost use Rattle.depgraph.specs.Rotations.{AreRotations, turns_of};
ghost use Rattle.depgraph.specs.Routes.{IsRouteOf};
ghost use Rattle.depgraph.specs.Visits.{Visited, IsVisitTo, AreVisitsTo, AreAllVisits};

use crate::cell_hash::CellHashing;
use crate::dependencies::{Dependencies, Route};
use crate::laying::{Laid, lay_out};
use crate::order::{numbered_cells, order_of};
use crate::part::Part;
use crate::placing::visits_of;
use checker::CheckedPlan;
use grid::Cell;
use indexmap::IndexMap;
use model::{Rotation, Visit};
use std::alloc::Global;
use std::marker::Model;
use text_io::OutOfMemory;

/// What a checked plan says of who waits for whom, and of who comes into each cell.
#[derive(Debug, Drop)]
pub struct Graph {
    dependencies: Dependencies,
    visits: Vec<Visit>,
    /// The visits of each cell stand together. Where those of the cell with each number end.
    visit_ends: Vec<u32>,
    /// The number of each visited cell, in order of first visit.
    cells: IndexMap<Cell, u32, CellHashing>,
}

impl Model for Graph {
    ghost use Rattle.model.specs.Timetable.{Timetable};
    ghost use Rattle.depgraph.specs.Code.Keeping.{HasVisits};

    ghost Value = { Timetable };

    ghost view = { λ g. g.dependencies };

    ghost invariant = { λ g. HasVisits g.dependencies g.visits.items g.visit_ends.items g.cells.entries };
}

impl Graph {
    /// The graph of a plan. It borrows nothing from the plan.
    pub fn build(alloc: Global, plan: &CheckedPlan) -> Result<Graph, OutOfMemory>
        ensures { IfOk result (λ g. g ≡ plan.now.timetable) }
    {
        let Laid {
            number,
            paths,
            needs,
            visits,
            visit_ends,
        } = lay_out(alloc, plan)?;
        let order = order_of(alloc, &visits, &visit_ends)?;
        let cells = numbered_cells(alloc, &paths.names, &order)?;
        let dependencies = Dependencies::of(alloc, plan, number, paths, needs)?;
        Ok(Graph {
            dependencies,
            visits,
            visit_ends,
            cells,
        })
    }

    /// The graph without its visits.
    pub fn dependencies(&self) -> &Dependencies
        ensures { result.now ≡ self.now }
    {
        &self.dependencies
    }

    /// The plan's number.
    pub fn number(&self) -> u32
        ensures number { result ≡ self.now.number }
        ensures within { IsGraphed self.now }
    {
        self.dependencies.number()
    }

    /// How many agents there are.
    pub fn agents(&self) -> u32
        ensures agents { result ≡ length self.now.tracks }
        ensures within { IsGraphed self.now }
    {
        self.dependencies.agents()
    }

    /// How many moves an agent makes; `None` where there is no such agent.
    pub fn moves(&self, agent: u32) -> Option<u32>
        ensures moves { result ≡ option_map moves (track_of self.now agent) }
        ensures within { IsGraphed self.now }
    {
        self.dependencies.moves(agent)
    }

    /// The path of an agent, and the steps and needs of its moves; `None` where there is no such
    /// agent.
    pub fn route(&self, agent: u32) -> Option<Route<'_>>
        ensures { MatchOption (track_of self.now agent) (result ≡ None)
            (λ track. IsSomeAnd result (λ route. IsRouteOf self.now agent track route)) }
    {
        self.dependencies.route(agent)
    }

    /// What an agent needs of the graph; `None` where there is no such agent.
    pub fn part(&self, agent: u16) -> Option<Part<'_>>
        ensures { MatchOption result (track_of self.now agent ≡ None)
            (λ part. IsPartOf self.now part × (part.agent ≡ agent)) }
    {
        self.dependencies.part(agent)
    }

    /// How many cells are visited.
    pub fn cell_count(&self) -> u32
        ensures { (cells : List Visited) × AreAllVisits self.now cells × (result ≡ length cells) }
    {
        self.cells.len() as u32
    }

    /// The n-th visited cell, in order of first visit by time and then by agent, and its visits by
    /// time; `None` past the last.
    pub fn visits(&self, n: u32) -> Option<(Cell, &[Visit])>
        ensures { (cells : List Visited) × AreAllVisits self.now cells
            × (option_map (λ at. record { cell = at.0; visits = at.1.now }) result
            ≡ slice_get cells n) }
    {
        let (cell, number) = self.cells.get_index(n as usize)?;
        let visits = visits_of(&self.visits, &self.visit_ends, *number);
        Some((*cell, visits))
    }

    /// The visits of a cell, as their times rise: who comes into it, in which order; `None` where
    /// nobody does.
    pub fn visits_at(&self, cell: Cell) -> Option<&[Visit]>
        ensures { MatchOption result ((v : Visit) → IsVisitTo self.now cell v → ⊥)
            (λ visits. AreVisitsTo self.now cell visits.now) }
    {
        let number = *self.cells.get(&cell)?;
        Some(visits_of(&self.visits, &self.visit_ends, number))
    }

    /// All rotations, by step and then by least agent.
    pub fn rotations(&self) -> &[Rotation]
        ensures { AreRotations self.now (turns_of result.now) }
    {
        self.dependencies.rotations()
    }
}
