//! What one agent needs of a graph, lent by the graph or kept without it.
ghost use Rattle.std.specs.Prelude.{◌≡◌, ◌<◌, ◌≤◌, ◌^◌, length, slice_get, IfOk};
ghost use Rattle.model.specs.Timetable.{Timetable, moves};
ghost use Rattle.depgraph.specs.AgentParts.{IsOfGraph, IsPartOf};
ghost use Rattle.depgraph.specs.Routes.{asked_by};
ghost use Rattle.depgraph.specs.Code.Numbers.{cells_by, AreKnown};
ghost use Rattle.depgraph.specs.Code.Shares.{part_by, entries_among, HasShare};

use crate::entries::begin_in;
use crate::numbering::cell_at;
use crate::waiting::Wait;
use grid::Cell;
use std::alloc::{AllocError, Global};
use std::marker::Model;
use text_io::OutOfMemory;

/// What all agents need of a graph, one agent's behind another's.
#[derive(Clone, Copy)]
pub(crate) struct AllParts<'g> {
    /// The plan's number.
    pub(crate) number: u32,
    /// The cell with each number.
    pub(crate) names: &'g [Cell],
    /// The numbers of the cells of all paths.
    pub(crate) numbers: &'g [u32],
    /// What the move into each of them waits for.
    pub(crate) needs: &'g [Wait],
    /// Where the path of each agent ends.
    pub(crate) ends: &'g [usize],
}

/// What one agent needs of a graph: its path, what its moves wait for, how many moves each agent
/// makes, and the plan's number.
#[derive(Debug, Drop)]
pub struct Part<'g> {
    number: u32,
    agent: u16,
    /// The cell with each number.
    names: &'g [Cell],
    /// The numbers of the cells of the agent's path.
    numbers: &'g [u32],
    /// What the move into each of them waits for.
    needs: &'g [Wait],
    /// Where the path of each agent ends, in a list of all.
    ends: &'g [usize],
}

impl<'g> Model for Part<'g> {
    ghost use Rattle.depgraph.specs.AgentParts.{AgentPart};
    ghost use Rattle.depgraph.specs.Code.Shares.{part_by, IsShare};

    ghost Value = { AgentPart };

    ghost view = { λ p. part_by p.number p.agent p.names.now p.numbers.now p.needs.now p.ends.now };

    ghost invariant = { λ p. IsShare p.number p.agent p.names.now p.numbers.now p.needs.now p.ends.now };
}

impl<'g> Part<'g> {
    /// The part of an agent among those of all.
    pub(crate) fn among(all: &AllParts<'g>, agent: u16) -> Part<'g>
        requires { HasShare all.now.number agent all.now.names.now all.now.numbers.now
            all.now.needs.now all.now.ends.now }
        ensures { result ≡ part_by all.now.number agent all.now.names.now
            (entries_among all.now.ends.now agent all.now.numbers.now)
            (entries_among all.now.ends.now agent all.now.needs.now) all.now.ends.now }
    {
        let begin = begin_in(all.ends, usize::from(agent));
        let end = all.ends[usize::from(agent)];
        Part {
            number: all.number,
            agent,
            names: all.names,
            numbers: &all.numbers[begin..end],
            needs: &all.needs[begin..end],
            ends: all.ends,
        }
    }

    /// The plan's number.
    pub fn number(&self) -> u32
        ensures number { result ≡ self.now.number }
        ensures within { IsOfGraph self.now }
    {
        self.number
    }

    /// Whose part it is.
    pub fn agent(&self) -> u16
        ensures agent { result ≡ self.now.agent }
        ensures within { IsOfGraph self.now }
    {
        self.agent
    }

    /// How many agents there are.
    pub fn agents(&self) -> u32
        ensures agents { result ≡ length self.now.moves }
        ensures within { IsOfGraph self.now }
    {
        self.ends.len() as u32
    }

    /// How many moves an agent makes; `None` where there is no such agent.
    pub fn moves(&self, agent: u32) -> Option<u32>
        ensures moves { result ≡ slice_get self.now.moves agent }
        ensures within { IsOfGraph self.now }
    {
        let agent = agent as usize;
        if agent < self.ends.len() {
            Some((self.ends[agent] - begin_in(self.ends, agent) - 1) as u32)
        } else {
            None
        }
    }

    /// How many moves the agent itself makes.
    pub fn own_moves(&self) -> u32
        ensures moves { (tt : Timetable) (is : IsPartOf tt self.now) → result ≡ moves is.track }
        ensures needs { result ≡ length self.now.needs }
        ensures few { result ≤ 65535 }
        ensures within { IsOfGraph self.now }
    {
        self.moves(u32::from(self.agent)).unwrap()
    }

    /// The n-th cell of the agent's path; `None` past its end.
    pub fn cell(&self, n: u32) -> Option<Cell>
        ensures cell { result ≡ slice_get self.now.cells n }
        ensures within { IsOfGraph self.now }
    {
        let index = n as usize;
        if index < self.numbers.len() {
            Some(cell_at(self.names, self.numbers, index))
        } else {
            None
        }
    }

    /// Which agent, and how many moves it must have finished before the move with this number may
    /// begin; `None` where the move waits for nobody, and past the last.
    pub fn need(&self, number: u32) -> Option<(u16, u32)>
        ensures need { result ≡ asked_by (slice_get self.now.needs number) }
        ensures within { IsOfGraph self.now }
    {
        let wait = *self.needs.get(number as usize + 1)?;
        if wait.count == 0 {
            None
        } else {
            Some((wait.agent, u32::from(wait.count)))
        }
    }
}

/// A part that borrows nothing.
#[derive(Debug, Drop)]
pub struct OwnPart {
    number: u32,
    agent: u16,
    /// The cells of the agent's path.
    names: Vec<Cell>,
    /// Their numbers: each has its own.
    numbers: Vec<u32>,
    needs: Vec<Wait>,
    ends: Vec<usize>,
}

impl Model for OwnPart {
    ghost use Rattle.depgraph.specs.AgentParts.{AgentPart};
    ghost use Rattle.depgraph.specs.Code.Shares.{part_by, IsShare};

    ghost Value = { AgentPart };

    ghost view = { λ p. part_by p.number p.agent p.names.items p.numbers.items p.needs.items
        p.ends.items };

    ghost invariant = { λ p. IsShare p.number p.agent p.names.items p.numbers.items p.needs.items p.ends.items };
}

impl OwnPart {
    /// The same part, without the graph.
    pub fn of(alloc: Global, part: &Part<'_>) -> Result<OwnPart, OutOfMemory>
        ensures { IfOk result (λ own. own ≡ part.now) }
    {
        let NumberedCells { names, numbers } = numbered_anew(alloc, part.names, part.numbers)?;
        Ok(OwnPart {
            number: part.number,
            agent: part.agent,
            names,
            numbers,
            needs: Vec::from_slice(alloc, part.needs)?,
            ends: Vec::from_slice(alloc, part.ends)?,
        })
    }

    /// The part, lent.
    pub fn part(&self) -> Part<'_>
        ensures { result ≡ self.now }
    {
        Part {
            number: self.number,
            agent: self.agent,
            names: &self.names,
            numbers: &self.numbers,
            needs: &self.needs,
            ends: &self.ends,
        }
    }
}

/// Cells, and the number of each.
#[derive(Drop)]
struct NumberedCells {
    names: Vec<Cell>,
    numbers: Vec<u32>,
}

/// The cells with these numbers, each with a number of its own: others take no room.
fn numbered_anew(
    alloc: Global,
    names: &[Cell],
    numbers: &[u32],
) -> Result<NumberedCells, AllocError>
    requires known { AreKnown names.now numbers.now }
    requires few { length numbers.now < 2 ^ 32 }
    ensures same { IfOk result (λ c. cells_by c.names.items c.numbers.items
        ≡ cells_by names.now numbers.now) }
    ensures known { IfOk result (λ c. AreKnown c.names.items c.numbers.items) }
{
    let mut cells = Vec::with_capacity(alloc, numbers.len())?;
    let mut own_numbers = Vec::with_capacity(alloc, numbers.len())?;
    for index in 0..numbers.len() {
        cells.push(cell_at(names, numbers, index))?;
        own_numbers.push(index as u32)?;
    }
    Ok(NumberedCells {
        names: cells,
        numbers: own_numbers,
    })
}
