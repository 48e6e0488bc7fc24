//! How many straight steps each cell of a map is from a goal, at least.
ghost use Rattle.std.specs.Prelude.{◌≡◌, IfOk};

use crate::goal_search::GoalSearch;
use crate::legal_steps::{LegalSteps, Ways};
use crate::sides::sides_of;
use grid::{Cell, Map};
use least_steps::StepFault;
use std::alloc::{AllocError, Global};
use std::marker::Model;

/// How many straight steps each cell of a map is from a goal, at least, found out as far as is
/// asked.
#[derive(Debug, Drop)]
pub struct GoalSteps<'a> {
    legal: &'a LegalSteps<'a>,
    search: GoalSearch,
}

impl<'a> Model for GoalSteps<'a> {
    ghost use Rattle.least_costs.specs.GoalView.{GoalView};
    ghost use Rattle.least_costs.specs.Code.GoalSearches.{IsGoalSearch};

    ghost Value = { GoalView };

    ghost view = { λ g. record { map = g.legal.now; goal = g.search.goal } };

    ghost invariant = { λ g. IsGoalSearch g.legal.now g.search };
}

impl<'a> GoalSteps<'a> {
    ghost use Rattle.least_costs.specs.Code.Tables.{IsEstimate};
    ghost use Rattle.least_costs.specs.Code.Ways.{AreWays};

    /// The steps to a goal, which are found out toward a start.
    pub fn new(
        alloc: Global,
        legal: &'a LegalSteps<'a>,
        start: Cell,
        goal: Cell,
    ) -> Result<GoalSteps<'a>, AllocError>
        ensures { IfOk result (λ s. s ≡ record { map = legal.now; goal = goal }) }
    {
        let search = GoalSearch::new(alloc, legal.map(), start, goal)?;
        Ok(GoalSteps { legal, search })
    }

    /// How many steps the cell is from the goal, at least.
    #[inline(always)]
    pub(crate) fn at_least(&self, cell: Cell) -> u32
        ensures { IsEstimate self.now cell result }
    {
        self.search.at_least(cell)
    }

    /// How many steps the cell is from the goal; the greatest number where none lead there.
    #[inline(always)]
    pub(crate) fn exactly(&mut self, cell: Cell) -> Result<u32, StepFault>
        ensures same { self.new ≡ self.old }
        ensures estimate { IfOk result (IsEstimate self.old cell) }
    {
        if let Some(steps) = self.search.settled(cell) {
            return Ok(steps);
        }
        self.search.seek(self.legal, cell)
    }

    /// Adds the cells of a shortest way from a cell to the goal, without that cell itself. They are
    /// tried, so no promise is made of them.
    pub(crate) fn follow(&self, from: Cell, walk: &mut Vec<Cell>) -> Result<(), AllocError> {
        let steps = self.at_least(from);
        let mut cell = from;
        for taken in 0..steps {
            let Some(next) = self.nearer(cell, steps - 1 - taken) else {
                break;
            };
            walk.push(next)?;
            cell = next;
        }
        Ok(())
    }

    /// A cell beside one from which so many steps lead to the goal.
    fn nearer(&self, cell: Cell, steps: u32) -> Option<Cell> {
        let ways = self.legal.from(cell);
        let sides = sides_of(cell);
        if ways.north && self.search.found(sides.north) == steps {
            Some(sides.north)
        } else if ways.south && self.search.found(sides.south) == steps {
            Some(sides.south)
        } else if ways.west && self.search.found(sides.west) == steps {
            Some(sides.west)
        } else if ways.east && self.search.found(sides.east) == steps {
            Some(sides.east)
        } else {
            None
        }
    }

    /// Where a straight step may lead from a cell.
    #[inline(always)]
    pub(crate) fn ways(&self, cell: Cell) -> Ways
        ensures { AreWays self.now.map cell result }
    {
        self.legal.from(cell)
    }

    #[inline(always)]
    pub(crate) fn legal(&self) -> &'a LegalSteps<'a>
        ensures { result.now ≡ self.now.map }
    {
        self.legal
    }

    #[inline(always)]
    pub(crate) fn map(&self) -> &'a Map
        ensures { result.now ≡ self.now.map }
    {
        self.legal.map()
    }

    #[inline(always)]
    pub(crate) fn goal(&self) -> Cell
        ensures { result ≡ self.now.goal }
    {
        self.search.goal()
    }
}
