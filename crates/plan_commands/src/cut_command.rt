//! `mapf cut`: writes a plan without what its agents do from a time on.
ghost use Rattle.ending.specs.Ending.{EndsAndTells, end_of};
ghost use Rattle.plan_commands.specs.PlanQueries.{AnswersCut, ReadsCut};

use checker::check;
use continuing::cut;
use ending::{Ending, Status, conclude, finish};
use grid::read_map;
use plan_text::{Plan, read_plan, write_plan};
use planned::PlannedFault;
use std::alloc::Global;
use std::io::{Read, Write};
use text_io::Counted;

/// As `perform`, with a fault's line on `err`. The answer is the exit status, which stays where
/// `err` fails.
pub fn cut_cmd<M: Read, P: Read, W: Write, E: Write>(
    alloc: Global,
    map: &mut Counted<M>,
    plan: &mut Counted<P>,
    time: u32,
    out: &mut Counted<W>,
    err: &mut Counted<E>,
) -> u8
    ensures { EndsAndTells
        (AnswersCut M.remaining P.remaining W.contents time map.old map.new plan.old plan.new
        out.old out.new)
        E.contents err.old err.new result }
{
    conclude(perform(alloc, map, plan, time, out), err)
}

/// Reads a map from `map` and a plan from `plan`, checks the plan on the map, and writes it without
/// what its agents do from the time on to `out`.
pub fn perform<M: Read, P: Read, W: Write>(
    alloc: Global,
    map: &mut Counted<M>,
    plan: &mut Counted<P>,
    time: u32,
    out: &mut Counted<W>,
) -> Ending
    ensures { AnswersCut M.remaining P.remaining W.contents time map.old map.new plan.old plan.new
        out.old out.new (end_of result) }
{
    match read_cut(alloc, map, plan, time) {
        Ok(kept) => {
            let written = write_plan(&kept, out);
            finish(written, Ending::answered_with(Status::Done), out)
        }
        Err(fault) => Ending::gave_up(fault.words()),
    }
}

/// Reads the map and then the plan, checks the plan, and gives what is left of it.
fn read_cut<M: Read, P: Read>(
    alloc: Global,
    map: &mut Counted<M>,
    plan: &mut Counted<P>,
    time: u32,
) -> Result<Plan, PlannedFault>
    ensures { ReadsCut M.remaining P.remaining time map.old map.new plan.old plan.new result }
{
    let map = read_map(alloc, map)?;
    let plan = read_plan(alloc, plan)?;
    // Before the check, which takes the plan.
    let Ok(kept) = cut(alloc, &plan, time) else {
        return Err(PlannedFault::OutOfMemory);
    };
    check(alloc, &map, plan)?;
    Ok(kept)
}
