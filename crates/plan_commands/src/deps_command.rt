//! `mapf deps`: says which moves of a plan wait for which.
ghost use Rattle.ending.specs.Ending.{EndsAndTells, end_of};
ghost use Rattle.plan_commands.specs.PlanQueries.{AnswersDeps};

use crate::deps_text::write_deps;
use ending::{Ending, Status, conclude, finish};
use planned::read_dependencies;
use std::alloc::Global;
use std::io::{Read, Write};
use text_io::Counted;

/// As `perform`, with a fault's line on `err`. The answer is the exit status, which stays where
/// `err` fails.
pub fn deps_cmd<M: Read, P: Read, W: Write, E: Write>(
    alloc: Global,
    map: &mut Counted<M>,
    plan: &mut Counted<P>,
    out: &mut Counted<W>,
    err: &mut Counted<E>,
) -> u8
    ensures { EndsAndTells
        (AnswersDeps M.remaining P.remaining W.contents map.old map.new plan.old plan.new
        out.old out.new)
        E.contents err.old err.new result }
{
    conclude(perform(alloc, map, plan, out), err)
}

/// Reads a map from `map` and a plan from `plan`, checks the plan on the map, and writes what its
/// moves wait for and its rotations to `out`.
pub fn perform<M: Read, P: Read, W: Write>(
    alloc: Global,
    map: &mut Counted<M>,
    plan: &mut Counted<P>,
    out: &mut Counted<W>,
) -> Ending
    ensures { AnswersDeps M.remaining P.remaining W.contents map.old map.new plan.old plan.new
        out.old out.new (end_of result) }
{
    match read_dependencies(alloc, map, plan) {
        Ok(dependencies) => {
            let written = write_deps(&dependencies, out);
            finish(written, Ending::answered_with(Status::Done), out)
        }
        Err(fault) => Ending::gave_up(fault.words()),
    }
}
