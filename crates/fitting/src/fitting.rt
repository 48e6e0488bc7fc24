//! Whether a plan solves the first rows of a scenario.
ghost use Rattle.std.specs.Prelude.{◌≡◌, ◌<◌, ◌↔◌, IsTrue, Some, length};
ghost use Rattle.fitting.specs.Fitting.{AnswersFit, HasSize};
ghost use Rattle.fitting.specs.Code.Rows.{JudgesAgent};

use crate::fit_fault::FitFault;
use checker::CheckedPlan;
use grid::Cell;
use scenario::{Row, Scenario};

/// Whether the plan solves the first rows: each agent the row of its number, on a map of the row's
/// size.
pub fn fits(plan: &CheckedPlan, scenario: &Scenario, count: u32) -> Result<(), FitFault>
    ensures { AnswersFit plan.now scenario.now count result }
{
    model::laws::tasks();
    let rows = scenario.rows();
    if rows.len() < count as usize {
        return Err(FitFault::TooFewRows);
    }
    if plan.agents() != count {
        return Err(FitFault::AgentCount);
    }
    for agent in 0..count {
        fits_row(plan, agent, &rows[agent as usize])?;
    }
    Ok(())
}

/// Whether the agent of this number solves the row.
fn fits_row(plan: &CheckedPlan, agent: u32, row: &Row) -> Result<(), FitFault>
    requires { agent < length plan.now.timetable.tracks }
    ensures { JudgesAgent plan.now row.now agent result }
{
    if !has_size(plan, row) {
        return Err(FitFault::SizeDiffers(agent));
    }
    if !is_at(plan.position(agent, 0), row.start()) {
        return Err(FitFault::StartDiffers(agent));
    }
    if !is_at(plan.rest(agent), row.goal()) {
        return Err(FitFault::GoalDiffers(agent));
    }
    Ok(())
}

/// Whether the row is for a map of the plan's size.
fn has_size(plan: &CheckedPlan, row: &Row) -> bool
    ensures { IsTrue result ↔ HasSize plan.now row.now }
{
    row.width() == plan.width() && row.height() == plan.height()
}

fn is_at(position: Option<Cell>, cell: Cell) -> bool
    ensures { IsTrue result ↔ (position ≡ Some cell) }
{
    match position {
        Some(own) => own.x == cell.x && own.y == cell.y,
        None => false,
    }
}
