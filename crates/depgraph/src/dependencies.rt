//! Who waits for whom: what a checked plan says of its moves.
ghost use Rattle.std.specs.Prelude.{◌≡◌, length, slice_get, option_map};
ghost use Rattle.std.specs.Prelude.{IsSomeAnd, MatchOption, IfOk};
ghost use Rattle.model.specs.Timetable.{moves, track_of};
ghost use Rattle.depgraph.specs.AgentParts.{IsPartOf};
ghost use Rattle.depgraph.specs.Graphs.{IsGraphed};
ghost use Rattle.depgraph.specs.Rotations.{AreRotations, turns_of};
ghost use Rattle.depgraph.specs.Routes.{IsRouteOf, need_at};
ghost use Rattle.depgraph.specs.Code.Keeping.{route_in};
ghost use Rattle.depgraph.specs.Code.Laying.{AreFound};

use crate::entries::{begin_in, entry_at};
use crate::laying::{Found, find};
use crate::numbering::cell_at;
use crate::part::{AllParts, Part};
use crate::paths::Paths;
use crate::rotations::find_rotations;
use crate::waiting::Wait;
use checker::CheckedPlan;
use grid::Cell;
use model::Rotation;
use std::alloc::{AllocError, Global};
use std::marker::Model;
use text_io::OutOfMemory;

/// What a checked plan says of who waits for whom. It keeps no visits, so it takes less time and
/// memory than a graph.
#[derive(Debug, Drop)]
pub struct Dependencies {
    number: u32,
    /// The numbers of the cells of all paths.
    numbers: Vec<u32>,
    /// The cell with each number.
    names: Vec<Cell>,
    /// When each cell of the paths is entered.
    times: Vec<u16>,
    ends: Vec<usize>,
    /// What the move into each waits for.
    needs: Vec<Wait>,
    rotations: Vec<Rotation>,
}

impl Model for Dependencies {
    ghost use Rattle.model.specs.Timetable.{Timetable};
    ghost use Rattle.depgraph.specs.Rotations.{AreRotations, turns_of};
    ghost use Rattle.depgraph.specs.Code.Keeping.{AreKept};
    ghost use Rattle.depgraph.specs.Code.Numbers.{cells_by, AreKnown};
    ghost use Rattle.depgraph.specs.Code.Tracks.{timetable_by};

    ghost Value = { Timetable };

    ghost view = { λ d. timetable_by d.number (cells_by d.names.items d.numbers.items) d.times.items
        d.ends.items };

    ghost invariant = { λ d. AreKept (timetable_by d.number (cells_by d.names.items d.numbers.items) d.times.items
        d.ends.items) (cells_by d.names.items d.numbers.items) d.times.items d.ends.items
        d.needs.items
        × AreRotations (timetable_by d.number (cells_by d.names.items d.numbers.items) d.times.items
        d.ends.items) (turns_of d.rotations.items)
        × AreKnown d.names.items d.numbers.items };
}

impl Dependencies {
    /// The dependencies of a plan. They borrow nothing from the plan.
    pub fn build(alloc: Global, plan: &CheckedPlan) -> Result<Dependencies, OutOfMemory>
        ensures { IfOk result (λ d. d ≡ plan.now.timetable) }
    {
        let Found {
            number,
            paths,
            needs,
        } = find(alloc, plan)?;
        Ok(Dependencies::of(alloc, plan, number, paths, needs)?)
    }

    /// The dependencies of a plan with these paths and needs: its rotations are what is left to
    /// find.
    pub(crate) fn of(
        alloc: Global,
        plan: &CheckedPlan,
        number: u32,
        paths: Paths,
        needs: Vec<Wait>,
    ) -> Result<Dependencies, AllocError>
        requires { AreFound plan.now.timetable number paths.names.items paths.numbers.items
            paths.times.items paths.ends.items needs.items }
        ensures { IfOk result (λ d. d ≡ plan.now.timetable) }
    {
        let Paths {
            numbers,
            names,
            times,
            ends,
        } = paths;
        let rotations = find_rotations(alloc, plan, &times, &ends, &needs)?;
        Ok(Dependencies {
            number,
            numbers,
            names,
            times,
            ends,
            needs,
            rotations,
        })
    }

    /// The plan's number.
    pub fn number(&self) -> u32
        ensures number { result ≡ self.now.number }
        ensures within { IsGraphed self.now }
    {
        self.number
    }

    /// How many agents there are.
    pub fn agents(&self) -> u32
        ensures agents { result ≡ length self.now.tracks }
        ensures within { IsGraphed self.now }
    {
        self.ends.len() as u32
    }

    /// How many moves an agent makes; `None` where there is no such agent.
    pub fn moves(&self, agent: u32) -> Option<u32>
        ensures moves { result ≡ option_map moves (track_of self.now agent) }
        ensures within { IsGraphed self.now }
    {
        let agent = agent as usize;
        if agent < self.ends.len() {
            Some((self.ends[agent] - begin_in(&self.ends, agent) - 1) as u32)
        } else {
            None
        }
    }

    /// The path of an agent, and the steps and needs of its moves; `None` where there is no such
    /// agent.
    pub fn route(&self, agent: u32) -> Option<Route<'_>>
        ensures { MatchOption (track_of self.now agent) (result ≡ None)
            (λ track. IsSomeAnd result (λ route. IsRouteOf self.now agent track route)) }
    {
        if (agent as usize) < self.ends.len() {
            Some(Route {
                dependencies: self,
                agent,
            })
        } else {
            None
        }
    }

    /// What an agent needs of the graph; `None` where there is no such agent.
    pub fn part(&self, agent: u16) -> Option<Part<'_>>
        ensures { MatchOption result (track_of self.now agent ≡ None)
            (λ part. IsPartOf self.now part × (part.agent ≡ agent)) }
    {
        if usize::from(agent) < self.ends.len() {
            let all = AllParts {
                number: self.number,
                names: &self.names,
                numbers: &self.numbers,
                needs: &self.needs,
                ends: &self.ends,
            };
            Some(Part::among(&all, agent))
        } else {
            None
        }
    }

    /// All rotations, by step and then by least agent.
    pub fn rotations(&self) -> &[Rotation]
        ensures { AreRotations self.now (turns_of result.now) }
    {
        &self.rotations
    }

    fn cell(&self, agent: u32, index: u32) -> Option<Cell>
        ensures { result ≡ slice_get (route_in self.now agent).cells index }
    {
        let entry = entry_at(&self.ends, agent, index as usize)?;
        Some(cell_at(&self.names, &self.numbers, entry))
    }

    fn step(&self, agent: u32, number: u32) -> Option<u32>
        ensures { result ≡ slice_get (route_in self.now agent).steps number }
    {
        let entry = entry_at(&self.ends, agent, number as usize + 1)?;
        Some(u32::from(self.times[entry]) - 1)
    }

    fn need(&self, agent: u32, number: u32) -> Option<(u16, u32)>
        ensures { result ≡ need_at (route_in self.now agent) number }
    {
        let entry = entry_at(&self.ends, agent, number as usize + 1)?;
        let wait = self.needs[entry];
        if wait.count == 0 {
            None
        } else {
            Some((wait.agent, u32::from(wait.count)))
        }
    }
}

/// An agent's path, and the planned step and the need of each of its moves.
#[derive(Debug, Drop)]
pub struct Route<'a> {
    dependencies: &'a Dependencies,
    agent: u32,
}

impl<'a> Model for Route<'a> {
    ghost use Rattle.std.specs.Prelude.{◌<◌, length};
    ghost use Rattle.depgraph.specs.Routes.{Route as model_route};
    ghost use Rattle.depgraph.specs.Code.Keeping.{route_in};

    ghost Value = { model_route };

    ghost view = { λ r. route_in r.dependencies.now r.agent };
}

impl<'a> Route<'a> {
    /// The n-th cell of the path; `None` past its end.
    pub fn cell(&self, n: u32) -> Option<Cell>
        ensures { result ≡ slice_get self.now.cells n }
    {
        self.dependencies.cell(self.agent, n)
    }

    /// The planned step of the move with this number, from 0 on; `None` past the last.
    pub fn step(&self, number: u32) -> Option<u32>
        ensures { result ≡ slice_get self.now.steps number }
    {
        self.dependencies.step(self.agent, number)
    }

    /// Which agent, and how many moves it must have finished before the move with this number may
    /// begin; `None` where the move waits for nobody, and past the last.
    pub fn need(&self, number: u32) -> Option<(u16, u32)>
        ensures { result ≡ need_at self.now number }
    {
        self.dependencies.need(self.agent, number)
    }
}
