//! `mapf bound`: says what a plan costs, and what such plans cost at least.
ghost use Rattle.ending.specs.Ending.{EndsAndTells, end_of};
ghost use Rattle.check_commands.specs.BoundCommand.{AnswersBound, EndsBounded};

use crate::bound_text::{BoundForm, write_bounds};
use crate::on_map::{OnMap, read_on_map};
use bounding::bounds_of;
use checker::CheckedPlan;
use ending::{Ending, Status, conclude, finish};
use grid::Map;
use std::alloc::Global;
use std::io::{Read, Write};
use text_io::Counted;

/// As `perform`, with a fault's line on `err`. The answer is the exit status, which stays where
/// `err` fails.
pub fn bound_cmd<M: Read, P: Read, W: Write, E: Write>(
    alloc: Global,
    map: &mut Counted<M>,
    plan: &mut Counted<P>,
    form: BoundForm,
    out: &mut Counted<W>,
    err: &mut Counted<E>,
) -> u8
    ensures { EndsAndTells
        (AnswersBound M.remaining P.remaining W.contents form.agents form.json map.old map.new
        plan.old plan.new out.old out.new)
        E.contents err.old err.new result }
{
    conclude(perform(alloc, map, plan, form, out), err)
}

/// Reads a map from `map` and a plan from `plan`, checks the plan on the map, and writes what it
/// costs, beside what plans with the same starts and ends cost at least, to `out`.
pub fn perform<M: Read, P: Read, W: Write>(
    alloc: Global,
    map: &mut Counted<M>,
    plan: &mut Counted<P>,
    form: BoundForm,
    out: &mut Counted<W>,
) -> Ending
    ensures { AnswersBound M.remaining P.remaining W.contents form.agents form.json map.old map.new
        plan.old plan.new out.old out.new (end_of result) }
{
    let OnMap { map, checked } = match read_on_map(alloc, map, plan) {
        Ok(on_map) => on_map,
        Err(fault) => return Ending::gave_up(fault.words()),
    };
    match checked {
        Ok(plan) => tell(alloc, &map, &plan, form, out),
        Err(rejected) => Ending::gave_up(rejected.fault.words()),
    }
}

/// Writes what a plan costs, and at least.
fn tell<W: Write>(
    alloc: Global,
    map: &Map,
    plan: &CheckedPlan,
    form: BoundForm,
    out: &mut Counted<W>,
) -> Ending
    ensures { EndsBounded W.contents form.agents form.json map.now plan.now out.old out.new
        (end_of result) }
{
    match bounds_of(alloc, map, plan) {
        Ok(bounds) => {
            let written = write_bounds(plan, &bounds, form, out);
            finish(written, Ending::answered_with(Status::Done), out)
        }
        Err(fault) => Ending::gave_up(fault.words()),
    }
}
