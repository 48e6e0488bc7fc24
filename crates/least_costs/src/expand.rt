//! The steps from a state of a search.
ghost use Rattle.std.specs.Prelude.{◌≡◌, ◌+◌, ◌-◌, ◌^◌, ◌<◌, IfOk, false, true};
ghost use Rattle.model.specs.Timetable.{Track, cell_at};
ghost use Rattle.least_costs.specs.Code.Searching.{AllGoOn, IsLookedAt, IsOffered, IsPosed};
ghost use Rattle.least_costs.specs.Code.Searching.{IsWanted, HasComeOn, PassesOn, wanted};
ghost use Rattle.least_costs.specs.Code.Tables.{IsEstimate};
ghost use Rattle.least_costs.specs.GoalView.{GoalView};

use crate::frontier::Frontier;
use crate::goal_steps::GoalSteps;
use crate::rules::{Moment, Rules};
use crate::sides::sides_of;
use crate::states::State;
use grid::Cell;
use optimality::Constraint;
use std::alloc::AllocError;

/// What is looked for: a walk from the start to the goal that is as it is asked, rests no sooner
/// than `lowest`, and costs no more than `highest`.
#[derive(Clone, Copy)]
pub(crate) struct Query<'a> {
    pub(crate) start: Cell,
    pub(crate) asked: &'a [Constraint],
    pub(crate) rules: &'a Rules,
    pub(crate) lowest: u32,
    pub(crate) highest: u32,
}

/// The state from which steps are taken: its cell and time, its place among the closed ones, and
/// what is asked of who comes to a cell next, if anything. Walks are looked for that cost no more
/// than the budget.
#[derive(Clone, Copy)]
pub(crate) struct Turn {
    pub(crate) cell: Cell,
    pub(crate) time: u32,
    pub(crate) place: u32,
    pub(crate) moment: Moment,
    pub(crate) is_free: bool,
    pub(crate) budget: u32,
}

/// A cell to which a step may lead, and how many steps it is from the goal at least.
#[derive(Clone, Copy)]
pub(crate) struct Beside {
    pub(crate) cell: Cell,
    pub(crate) steps: u32,
}

/// Takes the steps from a state. The answer is whether one comes to the goal, to rest there.
#[inline(always)]
pub(crate) fn expand(
    query: &Query<'_>,
    goal: &GoalSteps<'_>,
    front: &mut Frontier,
    turn: Turn,
) -> Result<bool, AllocError>
    requires ready { IsPosed goal.now query.now }
    requires time { turn.time < 2 ^ 32 - 1 }
    ensures leads { IfOk result (λ found. found ≡ false
        → HasComeOn (wanted goal.now query.now) turn.budget front.old front.new) }
    ensures goes { IfOk result (λ found. found ≡ false
        → AllGoOn (wanted goal.now query.now) front.new turn.cell turn.time) }
{
    let ways = goal.ways(turn.cell);
    let sides = sides_of(turn.cell);
    let own = look(goal, true, turn.cell);
    let north = look(goal, ways.north, sides.north);
    let west = look(goal, ways.west, sides.west);
    let east = look(goal, ways.east, sides.east);
    let south = look(goal, ways.south, sides.south);
    if offer(query, goal, front, turn, own)? {
        return Ok(true);
    }
    if offer(query, goal, front, turn, north)? {
        return Ok(true);
    }
    if offer(query, goal, front, turn, west)? {
        return Ok(true);
    }
    if offer(query, goal, front, turn, east)? {
        return Ok(true);
    }
    let found = offer(query, goal, front, turn, south)?;
    Ok(found)
}

/// A cell to which a step may lead, and how many steps it is from the goal at least; the greatest
/// number where the way there isn't open.
#[inline(always)]
fn look(goal: &GoalSteps<'_>, is_open: bool, cell: Cell) -> Beside
    ensures cell { result.cell ≡ cell }
    ensures beside { IsLookedAt goal.now result }
    ensures steps { is_open ≡ true → IsEstimate goal.now cell result.steps }
{
    let steps = if is_open {
        goal.at_least(cell)
    } else {
        u32::MAX
    };
    Beside { cell, steps }
}

/// Takes a step, unless it leads too far or is forbidden. The answer is whether it comes to the
/// goal, to rest there.
#[inline(always)]
fn offer(
    query: &Query<'_>,
    goal: &GoalSteps<'_>,
    front: &mut Frontier,
    turn: Turn,
    to: Beside,
) -> Result<bool, AllocError>
    requires ready { IsPosed goal.now query.now }
    requires time { turn.time < 2 ^ 32 - 1 }
    requires beside { IsLookedAt goal.now to }
    ensures leads { IfOk result (λ found. found ≡ false
        → HasComeOn (wanted goal.now query.now) turn.budget front.old front.new) }
    ensures goes { IfOk result (λ found. found ≡ false → IsEstimate goal.now to.cell to.steps
        → IsOffered (wanted goal.now query.now) front.new turn.time turn.cell to.cell) }
{
    let time = turn.time + 1;
    let through = u64::from(to.steps) + u64::from(time);
    if through > u64::from(query.highest) {
        return Ok(false);
    }
    if !turn.is_free && is_ruled_out(query, turn, to.cell) {
        return Ok(false);
    }
    if rests(query, goal, turn, to.cell) {
        return Ok(true);
    }
    let state = State {
        cell: to.cell,
        time,
        from: Some(turn.place),
    };
    front.put(state, through, turn.budget)?;
    Ok(false)
}

/// Whether the step, or where it leads, is forbidden by what is asked.
#[inline(always)]
fn is_ruled_out(query: &Query<'_>, turn: Turn, to: Cell) -> bool
    requires { turn.time < 2 ^ 32 - 1 }
    ensures { result ≡ true → (g : GoalView) (track : Track) → IsPosed g query.now
        → IsWanted (wanted g query.now) track
        → cell_at track turn.time ≡ turn.cell → cell_at track (turn.time + 1) ≡ to → ⊥ }
{
    query.rules.forbid(turn.moment, turn.time, turn.cell, to)
        || !query.rules.let_come(turn.moment, turn.time + 1, to)
}

/// Whether a step comes to the goal, to rest there.
#[inline(always)]
fn rests(query: &Query<'_>, goal: &GoalSteps<'_>, turn: Turn, to: Cell) -> bool
    requires ready { IsPosed goal.now query.now }
    requires time { turn.time < 2 ^ 32 - 1 }
    ensures { result ≡ false → PassesOn (wanted goal.now query.now) turn.time turn.cell to }
{
    model::laws::costs();
    let end = goal.goal();
    if to != end || turn.cell == end {
        return false;
    }
    turn.time + 1 >= query.lowest
}
