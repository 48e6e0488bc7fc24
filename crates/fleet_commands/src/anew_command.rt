//! `mapf anew`: writes what is left of a plan as a plan of its own.
ghost use Rattle.std.specs.Prelude.{◌≡◌};
ghost use Rattle.ending.specs.Ending.{EndsAndTells, end_of};
ghost use Rattle.fleet_commands.specs.HandoverCommand.{ReadsThen};
ghost use Rattle.fleet_commands.specs.AnewCommand.{AnswersAnew, IsBegunAnew, lacks_agent};
ghost use Rattle.fleet_commands.specs.Code.Reading.{IsJudgedSo, fault_of};

use crate::handover_command::end_by;
use crate::handover_fault::HandoverFault;
use crate::known_tapes::read_known;
use crate::left_plan::left_plan;
use agent_commands::ReadFiles;
use checker::check;
use continuing::copy;
use ending::{Ending, conclude};
use grid::Map;
use model::PlanFault;
use plan_text::Plan;
use planned::{PlanAtHand, read_at_hand};
use std::alloc::Global;
use std::io::{Read, Write};
use text_io::Counted;

/// The number of a new plan, and which agent is left out of it, if any.
#[derive(Clone, Copy, Debug, PartialEq, Eq)]
pub struct NewPlan {
    pub number: u32,
    pub without: Option<u16>,
}

/// As `perform`, with a fault's line on `err`. The answer is the exit status, which stays where
/// `err` fails.
pub fn anew_cmd<R: ReadFiles + AllocGlobal, M: Read, P: Read, W: Write, E: Write>(
    rt: &R,
    map: &mut Counted<M>,
    plan: &mut Counted<P>,
    tapes: &str,
    new: NewPlan,
    out: &mut Counted<W>,
    err: &mut Counted<E>,
) -> u8
    ensures { EndsAndTells
        (AnswersAnew M.remaining P.remaining R.was_done W.contents new.without new.number
        map.old map.new plan.old plan.new out.old out.new)
        E.contents err.old err.new result }
{
    conclude(perform(rt, map, plan, tapes, new, out), err)
}

/// Reads a map from `map` and a plan from `plan`, checks the plan on the map, and then reads the
/// tapes as
/// `mapf status` does, each of which has to be right, but for that of an agent that is left out. It
/// writes
/// a plan to `out` of the moves that aren't begun, each in its step, from where the others lead.
pub fn perform<R: ReadFiles + AllocGlobal, M: Read, P: Read, W: Write>(
    rt: &R,
    map: &mut Counted<M>,
    plan: &mut Counted<P>,
    tapes: &str,
    new: NewPlan,
    out: &mut Counted<W>,
) -> Ending
    ensures { AnswersAnew M.remaining P.remaining R.was_done W.contents new.without new.number
        map.old map.new plan.old plan.new out.old out.new (end_of result) }
{
    end_by(begin_anew(rt, map, plan, tapes, new), out)
}

/// Reads all, and makes the plan.
fn begin_anew<R: ReadFiles + AllocGlobal, M: Read, P: Read>(
    rt: &R,
    map: &mut Counted<M>,
    plan: &mut Counted<P>,
    tapes: &str,
    new: NewPlan,
) -> Result<Plan, HandoverFault>
    ensures { ReadsThen M.remaining P.remaining map.old map.new plan.old plan.new
        (IsBegunAnew R.was_done new.without new.number) result }
{
    let at_hand = read_at_hand(rt.alloc(), map, plan)?;
    leave(rt, &at_hand, tapes, new)
}

/// Reads the tapes, and makes the plan of what is left.
fn leave<R: ReadFiles + AllocGlobal>(
    rt: &R,
    at_hand: &PlanAtHand,
    tapes: &str,
    new: NewPlan,
) -> Result<Plan, HandoverFault>
    ensures { IsBegunAnew R.was_done new.without new.number at_hand.now result }
{
    if lacks_agent(at_hand, new.without) {
        return Err(HandoverFault::NoSuchAgent);
    }
    if new.number == at_hand.plan.number() {
        return Err(HandoverFault::SameNumber);
    }
    let found = read_known(rt, &at_hand.dependencies, tapes, new.without)?;
    let left = left_plan(rt.alloc(), at_hand, &found, new.without, new.number)?;
    checked(rt.alloc(), &at_hand.map, left)
}

/// Whether the agent that is to be left out is none of the plan.
fn lacks_agent(at_hand: &PlanAtHand, without: Option<u16>) -> bool
    ensures { result ≡ lacks_agent at_hand.now.dependencies without }
{
    match without {
        Some(agent) => u32::from(agent) >= at_hand.dependencies.agents(),
        None => false,
    }
}

/// The plan, if it is valid on the map.
fn checked(alloc: Global, map: &Map, left: Plan) -> Result<Plan, HandoverFault>
    ensures { IsJudgedSo map.now left result }
{
    // For the check, which takes it.
    let taken = copy(alloc, &left)?;
    match check(alloc, map, taken) {
        Ok(_) => Ok(left),
        Err(rejected) => Err(fault_of(rejected.fault)),
    }
}

/// Why a plan is not begun that has this fault.
fn fault_of(fault: PlanFault) -> HandoverFault
    ensures { result ≡ fault_of fault }
{
    match fault {
        PlanFault::OutOfMemory => HandoverFault::OutOfMemory,
        _ => HandoverFault::NotOneRun,
    }
}
