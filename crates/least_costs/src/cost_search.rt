//! What an agent costs at least.
ghost use Rattle.std.specs.Prelude.{◌≡◌, ◌+◌, ◌<◌, ◌≤◌, IfOk, [], length};
ghost use Rattle.optimality.specs.declared.constraint.Ends.{Ends as ends_type};
ghost use Rattle.optimality.specs.Walkers.{CostsAtLeast, IsLeastCost};

use crate::asked::{highest, lowest};
use crate::expand::Query;
use crate::frontier::Frontier;
use crate::goal_steps::GoalSteps;
use crate::legal_steps::LegalSteps;
use crate::rules::Rules;
use crate::seek::{Arrival, seek};
use crate::states::State;
use crate::way::{is_way, may_start};
use grid::Cell;
use least_steps::StepFault;
use optimality::{Constraint, Ends};
use std::alloc::{AllocError, Global};

/// What was found of an agent: no walk costs less than `cost`. Where `walk` has cells it costs just
/// that, a cell a time from 0 on.
#[derive(Debug, Drop)]
pub struct Least {
    pub cost: u32,
    pub walk: Vec<Cell>,
}

/// What is known of an agent beforehand: it costs so much at least, and perhaps a walk that was as
/// fewer things asked.
#[derive(Clone, Copy, Debug)]
pub struct Known<'a> {
    pub cost: u32,
    pub walk: &'a [Cell],
}

/// Searches, one after another: what one needed is kept for the next.
#[derive(Debug, Drop)]
pub struct CostSearch {
    alloc: Global,
    rules: Rules,
    front: Frontier,
}

impl CostSearch {
    /// Nothing is searched yet.
    pub fn new(alloc: Global) -> CostSearch {
        CostSearch {
            alloc,
            rules: Rules::new(alloc),
            front: Frontier::new(alloc),
        }
    }

    /// What an agent costs at least on its way from the start to the goal, if it walks as it is
    /// asked: a walk that costs so much, or that all cost as much as the limit.
    pub fn least(
        &mut self,
        goal: &mut GoalSteps<'_>,
        start: Cell,
        asked: &[Constraint],
        known: &Known<'_>,
        limit: u32,
    ) -> Result<Least, StepFault>
        ensures same { goal.new ≡ goal.old }
        ensures bound { CostsAtLeast goal.old.map (record { start = start; goal = goal.old.goal })
            asked.now known.now.cost
            → IfOk result (λ l. CostsAtLeast goal.old.map
            (record { start = start; goal = goal.old.goal }) asked.now l.cost) }
        ensures walk { CostsAtLeast goal.old.map (record { start = start; goal = goal.old.goal })
            asked.now known.now.cost
            → IfOk result (λ l. 0 < length l.walk.items
            → IsLeastCost goal.old.map (record { start = start; goal = goal.old.goal })
            asked.now l.cost) }
        ensures limit { IfOk result (λ l. length l.walk.items ≡ 0 → limit ≤ l.cost) }
    {
        let legal = goal.legal();
        let ends = Ends {
            start,
            goal: goal.goal(),
        };
        if !may_start(goal.map(), start, asked) {
            return Ok(unwalked(self.alloc, limit));
        }
        let steps = goal.exactly(start)?;
        let lowest = lowest(asked, ends.goal);
        let least = steps.max(lowest);
        if least.max(known.cost) >= limit {
            return Ok(unwalked(self.alloc, limit));
        }
        if least == 0 {
            return walked(legal, ends, asked, stay(self.alloc, start)?, 0);
        }
        let highest = highest(asked, limit);
        self.rules.take(asked)?;
        let query = Query {
            start,
            asked,
            rules: &self.rules,
            lowest,
            highest,
        };
        match seek(
            &query,
            goal,
            &mut self.front,
            known.walk,
            least.max(known.cost).min(highest),
        )? {
            Some(arrival) => {
                let closed = self.front.closed.as_slice();
                let walk = trace(self.alloc, goal, known.walk, closed, arrival)?;
                walked(legal, ends, asked, walk, arrival.time)
            }
            None => Ok(unwalked(self.alloc, limit)),
        }
    }
}

/// A walk that was found, if it leads from the start to the goal, is as it is asked and costs so
/// much.
fn walked(
    legal: &LegalSteps<'_>,
    ends: Ends,
    asked: &[Constraint],
    walk: Vec<Cell>,
    cost: u32,
) -> Result<Least, StepFault>
    ensures least { CostsAtLeast legal.now ends asked.now cost
        → IfOk result (λ l. IsLeastCost legal.now ends asked.now l.cost) }
    ensures walk { IfOk result (λ l. 0 < length l.walk.items) }
{
    let is_least = walk.len() == cost as usize + 1;
    if !is_least || !is_way(legal, ends, asked, &walk) {
        return Err(StepFault::NotTight);
    }
    Ok(Least { cost, walk })
}

/// The walk that stays in a cell.
fn stay(alloc: Global, cell: Cell) -> Result<Vec<Cell>, AllocError> {
    let mut walk = Vec::new(alloc);
    walk.push(cell)?;
    Ok(walk)
}

/// No walk costs less than the limit.
fn unwalked(alloc: Global, limit: u32) -> Least
    ensures cost { result.cost ≡ limit }
    ensures walk { result.walk.items ≡ [] }
{
    Least {
        cost: limit,
        walk: Vec::new(alloc),
    }
}

/// The cells of an arrival, from the start on. They are checked, so no promise is made of them.
fn trace(
    alloc: Global,
    goal: &GoalSteps<'_>,
    known: &[Cell],
    closed: &[State],
    arrival: Arrival,
) -> Result<Vec<Cell>, AllocError> {
    let mut walk = Vec::new(alloc);
    walk.reserve(arrival.time as usize + 1)?;
    let mut from = Some(arrival.from);
    let mut time = 0;
    for _ in 0..arrival.time {
        let Some(state) = from.and_then(|place| closed.get(place as usize)) else {
            break;
        };
        walk.push(state.cell)?;
        time = state.time as usize;
        from = state.from;
    }
    for cell in known.iter().take(time).rev() {
        walk.push(*cell)?;
    }
    walk.reverse();
    let last = walk.last().copied();
    if let Some(last) = last {
        goal.follow(last, &mut walk)?;
    }
    Ok(walk)
}
