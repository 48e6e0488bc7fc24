//! Plans that are cut at a time.
ghost use Rattle.std.specs.Prelude.{◌≡◌, IfOk, IfErr, take};
ghost use Rattle.plan_text.specs.declared.plan.PushFault.TheVariants.{OutOfMemory};
ghost use Rattle.continuing.specs.Continuing.{cut_at};

use crate::departing::longest;
use model::Act;
use plan_text::{Plan, PushFault};
use std::alloc::Global;

/// The plan without what its agents do from the time on; the plan itself goes on from it. Only
/// memory can lack.
pub fn cut(alloc: Global, plan: &Plan, time: u32) -> Result<Plan, PushFault>
    ensures plan { IfOk result (λ kept. kept ≡ cut_at time plan.now) }
    ensures fault { IfErr result (λ fault. fault ≡ OutOfMemory) }
{
    let mut kept = Plan::new(alloc, plan.number());
    for course in plan.courses() {
        let acts = first_acts(alloc, course.acts(), time as usize)?;
        kept.push(course.start(), acts)?;
    }
    Ok(kept)
}

/// A copy of the plan: what is left of it where it is cut at its end.
pub fn copy(alloc: Global, plan: &Plan) -> Result<Plan, PushFault>
    ensures plan { IfOk result (λ copy. copy ≡ plan.now) }
    ensures fault { IfErr result (λ fault. fault ≡ OutOfMemory) }
{
    let end = longest(plan.courses());
    cut(alloc, plan, end as u32)
}

/// The first acts, so many, or all where there are no more.
fn first_acts(alloc: Global, acts: &[Act], count: usize) -> Result<Vec<Act>, PushFault>
    ensures acts { IfOk result (λ kept. kept.items ≡ take count acts.now) }
    ensures fault { IfErr result (λ fault. fault ≡ OutOfMemory) }
{
    match acts[..count.min(acts.len())].to_vec(alloc) {
        Ok(kept) => Ok(kept),
        Err(_) => Err(PushFault::OutOfMemory),
    }
}
