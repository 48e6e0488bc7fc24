//! Judging the nodes of a tree.
ghost use Rattle.std.specs.Prelude.{◌≡◌, ◌<◌, ◌≤◌, ◌++◌, ◌∷◌, []};
ghost use Rattle.std.specs.Prelude.{IfOk, MatchOption, length, slice_get, take};
ghost use Rattle.grid.specs.Map.{Grid};
ghost use Rattle.optimality.specs.declared.constraint.Ends.{Ends as ends_type};
ghost use Rattle.optimality.specs.Constraints.{constraints_of};
ghost use Rattle.optimality.specs.Judging.{AreAtLeast, LeafIsLow, LeafStands};
ghost use Rattle.optimality.specs.Walkers.{CostsAtLeast, IsLeastCost};
ghost use Rattle.proof_check.specs.Code.Trails.{AreFoundLeast, AreTables, IsTimely};
ghost use Rattle.proof_check.specs.Code.Trails.{IsTrail, child_demands};

use crate::asking::{concerns, put_constraints};
use crate::totals::{limit_beside, total_below};
use crate::trail::{Child, Kept, Trail};
use least_costs::{CostSearch, GoalSteps, Known, Least, LegalSteps, meets};
use least_steps::StepFault;
use optimality::{Constraint, Demand, Ends, Objective};
use std::alloc::{AllocError, Global};

/// What a bound is of, and the bound.
#[derive(Clone, Copy)]
pub(crate) struct Aim {
    pub(crate) objective: Objective,
    pub(crate) bound: u32,
}

/// Judges the nodes of a tree, one after another.
#[derive(Drop)]
pub(crate) struct Judge<'a> {
    pub(crate) alloc: Global,
    pub(crate) ends: Vec<Ends>,
    pub(crate) tables: Vec<GoalSteps<'a>>,
    pub(crate) search: CostSearch,
    pub(crate) trail: Trail,
    /// What was asked of an agent when it was last looked for.
    pub(crate) asked: Vec<Constraint>,
}

impl<'a> Judge<'a> {
    /// Nothing is asked of the agents that go from these starts to these goals.
    pub(crate) fn new(
        alloc: Global,
        legal: &'a LegalSteps<'a>,
        ends: Vec<Ends>,
    ) -> Result<Judge<'a>, AllocError>
        ensures ends { IfOk result (λ j. j.ends ≡ ends) }
        ensures tables { IfOk result (λ j. AreTables legal.now ends.items j.tables.items) }
        ensures trail { IfOk result
            (λ j. IsTrail legal.now ends.items j.trail.demands.items j.trail.kept.items) }
        ensures demands { IfOk result (λ j. j.trail.demands.items ≡ []) }
    {
        let mut tables = Vec::new(alloc);
        for own in &ends {
            let table = GoalSteps::new(alloc, legal, own.start, own.goal)?;
            add_table(&mut tables, table)?;
        }
        let trail = Trail::new(alloc, ends.len())?;
        Ok(Judge {
            alloc,
            ends,
            tables,
            search: CostSearch::new(alloc),
            trail,
            asked: Vec::new(alloc),
        })
    }

    /// Goes to a child, by how many demands were made at its parent.
    pub(crate) fn go_to(&mut self, asked: usize, child: Child, aim: Aim) -> Result<(), StepFault>
        requires parent { asked ≤ length self.old.trail.demands.items }
        requires timely { IsTimely child }
        ensures ends { IfOk result (λ _. self.new.ends ≡ self.old.ends) }
        ensures tables { IfOk result (λ _. self.new.tables.items ≡ self.old.tables.items) }
        ensures demands { IfOk result
            (λ _. self.new.trail.demands.items ≡ take asked self.old.trail.demands.items
            ++ child_demands self.old.ends.items child) }
        ensures trail { (m : Grid) → AreTables m self.old.ends.items self.old.tables.items
            → IsTrail m self.old.ends.items self.old.trail.demands.items self.old.trail.kept.items
            → IfOk result (λ _. IsTrail m self.old.ends.items self.new.trail.demands.items
            self.new.trail.kept.items) }
    {
        self.trail.go_back(asked);
        self.trail.add(child, &self.ends)?;
        self.look_anew(asked, aim)
    }

    /// Looks for what agents cost of whom more is asked than at the parent, where that isn't known.
    fn look_anew(&mut self, asked: usize, aim: Aim) -> Result<(), StepFault>
        ensures ends { IfOk result (λ _. self.new.ends ≡ self.old.ends) }
        ensures tables { IfOk result (λ _. self.new.tables.items ≡ self.old.tables.items) }
        ensures demands { IfOk result (λ _. self.new.trail.demands ≡ self.old.trail.demands) }
        ensures trail { (m : Grid) → AreTables m self.old.ends.items self.old.tables.items
            → IsTrail m self.old.ends.items self.old.trail.demands.items self.old.trail.kept.items
            → IfOk result (λ _. IsTrail m self.old.ends.items self.new.trail.demands.items
            self.new.trail.kept.items) }
    {
        if let Some(agent) = self.trail.only_agent(asked) {
            return self.look_at(agent, asked, aim);
        }
        for agent in 0..self.ends.len() {
            self.look_at(agent, asked, aim)?;
        }
        Ok(())
    }

    /// Looks for what an agent costs, where that isn't known, unless all leaves below stand
    /// whatever it is.
    fn look_at(&mut self, agent: usize, asked: usize, aim: Aim) -> Result<(), StepFault>
        ensures ends { IfOk result (λ _. self.new.ends ≡ self.old.ends) }
        ensures tables { IfOk result (λ _. self.new.tables.items ≡ self.old.tables.items) }
        ensures demands { IfOk result (λ _. self.new.trail.demands ≡ self.old.trail.demands) }
        ensures trail { (m : Grid) → AreTables m self.old.ends.items self.old.tables.items
            → IsTrail m self.old.ends.items self.old.trail.demands.items self.old.trail.kept.items
            → IfOk result (λ _. IsTrail m self.old.ends.items self.new.trail.demands.items
            self.new.trail.kept.items) }
    {
        if self.is_as_before(agent, asked) {
            return Ok(());
        }
        let from = self.cost_of(agent);
        let limit = self.limit_of(agent, aim);
        if from >= limit {
            return Ok(());
        }
        let found = self.least(agent, from, limit)?;
        self.trail.keep(agent, found)?;
        Ok(())
    }

    /// What an agent is known to cost at least.
    fn cost_of(&self, agent: usize) -> u32
        ensures { (m : Grid) (own : ends_type)
            → IsTrail m self.now.ends.items self.now.trail.demands.items self.now.trail.kept.items
            → slice_get self.now.ends.items agent ≡ Some own
            → CostsAtLeast m own (constraints_of self.now.trail.demands.items agent) result }
    {
        match self.trail.known(agent) {
            Some(kept) => kept.cost,
            None => 0,
        }
    }

    /// From what cost of the agent on all leaves below stand, by what the others cost at least.
    fn limit_of(&self, agent: usize, aim: Aim) -> u32 {
        let mut limit = aim.bound;
        for other in 0..self.ends.len() {
            if other != agent {
                limit = limit_beside(aim.objective, limit, self.cost_of(other));
            }
        }
        limit
    }

    /// Whether the agent's walk is as the demands from a place on ask too.
    fn is_as_before(&self, agent: usize, asked: usize) -> bool {
        match self.trail.known(agent) {
            Some(kept) => {
                !kept.walk.is_empty() && is_as_asked(kept, self.trail.demands_from(asked), agent)
            }
            None => false,
        }
    }

    /// What an agent, which is known to cost `from` at least, costs at least under all that is
    /// asked of it, if that is below the bound.
    fn least(&mut self, agent: usize, from: u32, bound: u32) -> Result<Least, StepFault>
        ensures ends { IfOk result (λ _. self.new.ends ≡ self.old.ends) }
        ensures tables { IfOk result (λ _. self.new.tables.items ≡ self.old.tables.items) }
        ensures trail { IfOk result (λ _. self.new.trail ≡ self.old.trail) }
        ensures least { (m : Grid) (own : ends_type)
            → AreTables m self.old.ends.items self.old.tables.items
            → slice_get self.old.ends.items agent ≡ Some own
            → CostsAtLeast m own (constraints_of self.old.trail.demands.items agent) from
            → IfOk result (λ found. CostsAtLeast m own
            (constraints_of self.old.trail.demands.items agent) found.cost) }
        ensures costs { (m : Grid) (own : ends_type)
            → AreTables m self.old.ends.items self.old.tables.items
            → slice_get self.old.ends.items agent ≡ Some own
            → CostsAtLeast m own (constraints_of self.old.trail.demands.items agent) from
            → IfOk result (λ found. found.cost < bound
            → IsLeastCost m own (constraints_of self.old.trail.demands.items agent) found.cost) }
    {
        let Some(own) = self.ends.get(agent) else {
            return Err(StepFault::NotTight);
        };
        let start = own.start;
        put_constraints(&mut self.asked, &self.trail.demands, agent)?;
        if agent >= self.tables.len() {
            return Err(StepFault::NotTight);
        }
        let known = Known {
            cost: from,
            walk: self.trail.walk_of(agent),
        };
        let table = &mut self.tables[agent];
        let found = self.search.least(table, start, &self.asked, &known, bound)?;
        Ok(found)
    }

    /// What the agents cost at least together, if the leaf at hand is too low.
    pub(crate) fn judge_leaf(&mut self, aim: Aim) -> Result<Option<u32>, StepFault>
        ensures ends { IfOk result (λ _. self.new.ends ≡ self.old.ends) }
        ensures tables { IfOk result (λ _. self.new.tables.items ≡ self.old.tables.items) }
        ensures trail { IfOk result (λ _. self.new.trail ≡ self.old.trail) }
        ensures judged { (m : Grid) → AreTables m self.old.ends.items self.old.tables.items
            → IsTrail m self.old.ends.items self.old.trail.demands.items self.old.trail.kept.items
            → IfOk result (λ low. MatchOption low
            (LeafStands m self.old.ends.items aim.objective aim.bound self.old.trail.demands.items)
            (LeafIsLow m self.old.ends.items aim.objective aim.bound self.old.trail.demands.items)) }
    {
        let known = self.known_costs()?;
        match total_below(aim.objective, &known, aim.bound) {
            None => return Ok(None),
            Some(_) => {}
        }
        let least = self.least_costs(aim.bound)?;
        Ok(total_below(aim.objective, &least, aim.bound))
    }

    /// What each agent is known to cost at least.
    fn known_costs(&self) -> Result<Vec<u32>, AllocError>
        ensures { (m : Grid)
            → IsTrail m self.now.ends.items self.now.trail.demands.items self.now.trail.kept.items
            → IfOk result (λ numbers. AreAtLeast m self.now.ends.items self.now.trail.demands.items
            numbers.items) }
    {
        let mut numbers = Vec::new(self.alloc);
        numbers.reserve(self.ends.len())?;
        for agent in 0..self.ends.len() {
            add_number(&mut numbers, self.cost_of(agent))?;
        }
        Ok(numbers)
    }

    /// What each agent costs at least, looked for anew where it is below the bound.
    pub(crate) fn least_costs(&mut self, bound: u32) -> Result<Vec<u32>, StepFault>
        ensures ends { IfOk result (λ _. self.new.ends ≡ self.old.ends) }
        ensures tables { IfOk result (λ _. self.new.tables.items ≡ self.old.tables.items) }
        ensures trail { IfOk result (λ _. self.new.trail ≡ self.old.trail) }
        ensures found { (m : Grid) → AreTables m self.old.ends.items self.old.tables.items
            → IsTrail m self.old.ends.items self.old.trail.demands.items self.old.trail.kept.items
            → IfOk result (λ numbers. AreFoundLeast m self.old.ends.items
            self.old.trail.demands.items bound numbers.items) }
    {
        let mut numbers = Vec::new(self.alloc);
        numbers.reserve(self.ends.len())?;
        for agent in 0..self.ends.len() {
            let from = self.cost_of(agent);
            let found = self.least(agent, from, bound)?;
            add_number(&mut numbers, found.cost)?;
        }
        Ok(numbers)
    }
}

/// Whether the walk is as the demands ask of the agent.
fn is_as_asked(kept: &Kept, demands: &[Demand], agent: usize) -> bool {
    demands.iter().all(|d| !concerns(d.whom, agent) || meets(&kept.walk, d.constraint))
}

fn add_table<'a>(tables: &mut Vec<GoalSteps<'a>>, table: GoalSteps<'a>) -> Result<(), AllocError>
    ensures { IfOk result (λ _. tables.new.items ≡ tables.old.items ++ table.entry ∷ []) }
{
    tables.push(table)?;
    Ok(())
}

fn add_number(numbers: &mut Vec<u32>, number: u32) -> Result<(), AllocError>
    ensures { IfOk result (λ _. numbers.new.items ≡ numbers.old.items ++ number ∷ []) }
{
    numbers.push(number)?;
    Ok(())
}
