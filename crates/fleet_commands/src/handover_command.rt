//! `mapf handover`: writes a plan as far as its agents have begun it.
ghost use Rattle.ending.specs.Ending.{EndsAndTells, end_of};
ghost use Rattle.fleet_commands.specs.HandoverCommand.{AnswersHandover, EndsByPlan};
ghost use Rattle.fleet_commands.specs.HandoverCommand.{IsHandedOver, ReadsThen};

use crate::cut_time::cut_time;
use crate::handover_fault::HandoverFault;
use crate::known_tapes::read_known;
use agent_commands::ReadFiles;
use continuing::cut;
use ending::{Ending, Status, conclude, finish};
use plan_text::{Plan, write_plan};
use planned::{PlanAtHand, read_at_hand};
use std::io::{Read, Write};
use text_io::Counted;

/// As `perform`, with a fault's line on `err`. The answer is the exit status, which stays where
/// `err` fails.
pub fn handover_cmd<R: ReadFiles + AllocGlobal, M: Read, P: Read, W: Write, E: Write>(
    rt: &R,
    map: &mut Counted<M>,
    plan: &mut Counted<P>,
    tapes: &str,
    out: &mut Counted<W>,
    err: &mut Counted<E>,
) -> u8
    ensures { EndsAndTells
        (AnswersHandover M.remaining P.remaining R.was_done W.contents map.old map.new
        plan.old plan.new out.old out.new)
        E.contents err.old err.new result }
{
    conclude(perform(rt, map, plan, tapes, out), err)
}

/// Reads a map from `map` and a plan from `plan`, checks the plan on the map, and then reads the
/// tapes as
/// `mapf status` does, each of which has to be right. It writes the plan to `out` without what is
/// done from
/// the time on by which every move that was begun has ended: each agent may be opened on its tape
/// by that.
pub fn perform<R: ReadFiles + AllocGlobal, M: Read, P: Read, W: Write>(
    rt: &R,
    map: &mut Counted<M>,
    plan: &mut Counted<P>,
    tapes: &str,
    out: &mut Counted<W>,
) -> Ending
    ensures { AnswersHandover M.remaining P.remaining R.was_done W.contents map.old map.new
        plan.old plan.new out.old out.new (end_of result) }
{
    end_by(hand_over(rt, map, plan, tapes), out)
}

/// Reads all, and cuts the plan.
fn hand_over<R: ReadFiles + AllocGlobal, M: Read, P: Read>(
    rt: &R,
    map: &mut Counted<M>,
    plan: &mut Counted<P>,
    tapes: &str,
) -> Result<Plan, HandoverFault>
    ensures { ReadsThen M.remaining P.remaining map.old map.new plan.old plan.new
        (IsHandedOver R.was_done) result }
{
    let at_hand = read_at_hand(rt.alloc(), map, plan)?;
    cut_begun(rt, &at_hand, tapes)
}

/// Reads the tapes, and cuts the plan at the least time by which all is made that was begun.
fn cut_begun<R: ReadFiles + AllocGlobal>(
    rt: &R,
    at_hand: &PlanAtHand,
    tapes: &str,
) -> Result<Plan, HandoverFault>
    ensures { IsHandedOver R.was_done at_hand.now result }
{
    let found = read_known(rt, &at_hand.dependencies, tapes, None)?;
    let time = cut_time(&at_hand.dependencies, &found);
    Ok(cut(rt.alloc(), &at_hand.plan, time)?)
}

/// Writes the plan that came of it, or ends by the fault.
pub(crate) fn end_by<W: Write>(answer: Result<Plan, HandoverFault>, out: &mut Counted<W>) -> Ending
    ensures { EndsByPlan W.contents out.old out.new (end_of result) answer }
{
    match answer {
        Ok(plan) => {
            let written = write_plan(&plan, out);
            finish(written, Ending::answered_with(Status::Done), out)
        }
        Err(fault) => Ending::gave_up(fault.words()),
    }
}
