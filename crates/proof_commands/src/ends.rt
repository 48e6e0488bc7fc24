//! Where the agents of a plan start, and where they come to rest.
ghost use Rattle.std.specs.Prelude.{◌≡◌, ◌++◌, ◌∷◌, [], map, option_map, IfOk};
ghost use Rattle.model.specs.Timetable.{track_of};
ghost use Rattle.optimality.specs.Splitting.{ends_of};

use checker::CheckedPlan;
use optimality::Ends;
use std::alloc::{AllocError, Global};

/// The start and the last cell of each agent of the plan, agent 0 first.
pub(crate) fn ends_of_agents(alloc: Global, plan: &CheckedPlan) -> Result<Vec<Ends>, AllocError>
    ensures { IfOk result (λ ends. ends.items ≡ map ends_of plan.now.timetable.tracks) }
{
    let mut ends = Vec::new(alloc);
    for agent in 0..plan.agents() {
        let Some(own) = ends_of_agent(plan, agent) else {
            return Ok(ends);
        };
        add(&mut ends, own)?;
    }
    Ok(ends)
}

/// Those of one agent; `None` where there is no such agent.
fn ends_of_agent(plan: &CheckedPlan, agent: u32) -> Option<Ends>
    ensures { result ≡ option_map ends_of (track_of plan.now.timetable agent) }
{
    let start = plan.position(agent, 0)?;
    let cost = plan.cost(agent)?;
    let goal = plan.position(agent, cost)?;
    Some(Ends { start, goal })
}

fn add(ends: &mut Vec<Ends>, own: Ends) -> Result<(), AllocError>
    ensures { IfOk result (λ _. ends.new.items ≡ ends.old.items ++ own ∷ []) }
{
    ends.push(own)?;
    Ok(())
}
