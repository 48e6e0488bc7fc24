//! A search for a walk that costs least.
ghost use Rattle.std.specs.Prelude.{◌≡◌, ◌-◌, ◌^◌, ◌<◌, ◌≤◌, IfOk, [], MatchOption};
ghost use Rattle.least_costs.specs.Code.Searching.{AllCost, IsPosed, IsCostSearch, IsUnwalked};
ghost use Rattle.least_costs.specs.Code.Searching.{HasGoneOn, IsPutOff, wanted};

use crate::expand::{Query, Turn, expand};
use crate::frontier::Frontier;
use crate::goal_steps::GoalSteps;
use crate::states::State;
use crate::walk::steps_allowed;
use grid::Cell;
use least_steps::StepFault;
use std::alloc::AllocError;

/// That a walk comes to the goal at a time, and the place among the closed states of one from which
/// shortest steps lead there.
#[derive(Clone, Copy)]
pub(crate) struct Arrival {
    pub(crate) time: u32,
    pub(crate) from: u32,
}

/// What came of going on from a state.
#[derive(Clone, Copy)]
enum Advance {
    /// The search goes on.
    On,
    /// From the closed state at this place shortest steps lead to the goal.
    Arrived(u32),
    /// No state is left from which to go on at this cost.
    Exhausted,
}

/// The arrival of a walk of least cost, if there is one. It begins with walks that cost no more
/// than `first`.
pub(crate) fn seek(
    query: &Query<'_>,
    goal: &mut GoalSteps<'_>,
    front: &mut Frontier,
    known: &[Cell],
    first: u32,
) -> Result<Option<Arrival>, StepFault>
    requires ready { IsPosed goal.old query.now }
    requires first { first ≤ query.now.highest }
    ensures same { goal.new ≡ goal.old }
    ensures found { AllCost (wanted goal.old query.now) first → IfOk result (λ found.
        MatchOption found (IsUnwalked (wanted goal.old query.now))
        (λ arrival. (arrival.time ≤ query.now.highest)
        × AllCost (wanted goal.old query.now) arrival.time)) }
{
    front.begin(query.start, known, steps_kept(query, known))?;
    for budget in first..query.highest + 1 {
        if let Some(from) = exhaust(query, goal, front, budget)? {
            return Ok(Some(Arrival { time: budget, from }));
        }
        if !front.raise() {
            return Ok(None);
        }
    }
    Ok(None)
}

/// Goes on from all states through which a walk may cost no more than the budget, until one comes
/// to the goal.
fn exhaust(
    query: &Query<'_>,
    goal: &mut GoalSteps<'_>,
    front: &mut Frontier,
    budget: u32,
) -> Result<Option<u32>, StepFault>
    requires ready { IsPosed goal.old query.now }
    requires search { IsCostSearch (wanted goal.old query.now) budget front.old }
    requires budget { budget ≤ query.now.highest }
    ensures same { goal.new ≡ goal.old }
    ensures search { IfOk result (λ found. MatchOption found
        (IsCostSearch (wanted goal.old query.now) budget front.new × (front.new.waiting.items ≡ []))
        (λ _. Unit {0})) }
{
    for _ in 0..u64::MAX {
        match go_on(query, goal, front, budget)? {
            Advance::On => {}
            Advance::Arrived(from) => return Ok(Some(from)),
            Advance::Exhausted => return Ok(None),
        }
    }
    Err(StepFault::NotTight)
}

/// Goes on from the state that was put there last, if walks through it may cost no more than the
/// budget.
#[inline(always)]
fn go_on(
    query: &Query<'_>,
    goal: &mut GoalSteps<'_>,
    front: &mut Frontier,
    budget: u32,
) -> Result<Advance, StepFault>
    requires ready { IsPosed goal.old query.now }
    requires search { IsCostSearch (wanted goal.old query.now) budget front.old }
    requires budget { budget ≤ query.now.highest }
    ensures same { goal.new ≡ goal.old }
    ensures search { IfOk result (HasGoneOn (wanted goal.old query.now) budget front.new) }
{
    if front.waiting.is_empty() {
        return Ok(Advance::Exhausted);
    }
    let Some(state) = front.waiting.pop() else {
        return Err(StepFault::NotTight);
    };
    let steps = goal.exactly(state.cell)?;
    let through = u64::from(state.time) + u64::from(steps);
    if through > u64::from(budget) {
        put_off(query, front, state, through, budget)?;
        return Ok(Advance::On);
    }
    let place = u32::try_from(front.closed.count()).unwrap_or(u32::MAX);
    if !front.closed.add(state)? {
        return Ok(Advance::On);
    }
    if through == u64::from(budget) && steps > 0 && leads_on(query, state.time, budget) {
        return Ok(Advance::Arrived(place));
    }
    let moment = query.rules.moment(state.time.saturating_add(1));
    let turn = Turn {
        cell: state.cell,
        time: state.time,
        place,
        moment,
        is_free: query.rules.are_none(moment),
        budget,
    };
    if expand(query, goal, front, turn)? {
        Ok(Advance::Arrived(place))
    } else {
        Ok(Advance::On)
    }
}

/// Whether shortest steps from a time on lead to the goal at that cost, whatever is asked.
#[inline(always)]
fn leads_on(query: &Query<'_>, time: u32, cost: u32) -> bool {
    cost >= query.lowest && query.rules.are_over(time)
}

/// Puts a state back through which walks cost more than was known, unless they cost too much.
fn put_off(
    query: &Query<'_>,
    front: &mut Frontier,
    state: State,
    through: u64,
    budget: u32,
) -> Result<(), AllocError>
    ensures { IfOk result
        (λ _. IsPutOff front.old front.new state through budget query.now.highest) }
{
    if through <= u64::from(query.highest) {
        front.put(state, through, budget)?;
    }
    Ok(())
}

/// How many steps of a walk that was known are as it is asked, and leave the time to be where it
/// has to be.
fn steps_kept(query: &Query<'_>, known: &[Cell]) -> usize {
    let mut count = steps_allowed(known, query.asked);
    for _ in 0..count {
        let Some(cell) = known.get(count) else {
            break;
        };
        let time = u32::try_from(count).unwrap_or(u32::MAX);
        if query.rules.let_come(query.rules.moment(time), time, *cell) {
            break;
        }
        count = count.saturating_sub(1);
    }
    count
}
