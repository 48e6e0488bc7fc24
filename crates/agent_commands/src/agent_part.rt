//! What one agent needs of a plan.
ghost use Rattle.std.specs.Prelude.{IfOk};
ghost use Rattle.agent_commands.specs.Code.Plans.{IsOnTerms, ReadsPartAndTerms};
ghost use Rattle.agent_commands.specs.Code.Reading.{IsPartFor, ReadsPart};

use crate::terms::Terms;
use depgraph::{Dependencies, OwnPart};
use planned::{PlanAtHand, PlannedFault, read_at_hand, read_dependencies};
use std::alloc::Global;
use std::io::Read;
use tape_claim::TapeClaim;
use text_io::{Counted, OutOfMemory};

/// Reads a map and then a plan, checks the plan, and takes what an agent needs of it; `None` where
/// there is no such agent. The map, the plan and its dependencies, which are large, are gone then.
pub(crate) fn read_part<M: Read, P: Read>(
    alloc: Global,
    map: &mut Counted<M>,
    plan: &mut Counted<P>,
    id: u16,
) -> Result<Option<OwnPart>, PlannedFault>
    ensures { ReadsPart M.remaining P.remaining id map.old map.new plan.old plan.new result }
{
    let dependencies = read_dependencies(alloc, map, plan)?;
    Ok(own_part(alloc, &dependencies, id)?)
}

/// What an agent needs of the dependencies, kept alone.
fn own_part(
    alloc: Global,
    dependencies: &Dependencies,
    id: u16,
) -> Result<Option<OwnPart>, OutOfMemory>
    ensures { IfOk result (IsPartFor dependencies.now id) }
{
    match dependencies.part(id) {
        Some(part) => Ok(Some(OwnPart::of(alloc, &part)?)),
        None => Ok(None),
    }
}

/// What an agent needs of a plan, and on what terms its tape is taken.
#[derive(Drop)]
pub(crate) struct PartAndTerms {
    pub(crate) own: OwnPart,
    pub(crate) terms: Terms,
}

/// The same, with what is claimed of the agent's tape, and the plan where one is kept beside it;
/// only then the plan, which is large, is copied.
pub(crate) fn read_part_and_terms<M: Read, P: Read>(
    alloc: Global,
    map: &mut Counted<M>,
    plan: &mut Counted<P>,
    id: u16,
    claim: TapeClaim,
) -> Result<Option<PartAndTerms>, PlannedFault>
    ensures { ReadsPartAndTerms M.remaining P.remaining id claim map.old map.new plan.old
        plan.new result }
{
    if let TapeClaim::Any = claim {
        return Ok(on_terms(read_part(alloc, map, plan, id)?, Terms::Any));
    }
    let PlanAtHand {
        plan,
        dependencies,
        ..
    } = read_at_hand(alloc, map, plan)?;
    let own = own_part(alloc, &dependencies, id)?;
    Ok(on_terms(own, Terms::new(claim, plan)))
}

fn on_terms(own: Option<OwnPart>, terms: Terms) -> Option<PartAndTerms>
    ensures { IsOnTerms own terms result }
{
    match own {
        Some(own) => Some(PartAndTerms { own, terms }),
        None => None,
    }
}
