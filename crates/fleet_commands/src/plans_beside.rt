//! What the plans beside the tapes of a fleet come to together.
ghost use Rattle.std.specs.Prelude.{◌≡◌, ◌≤◌, ◌++◌, List, Option, IfOk};
ghost use Rattle.agent_commands.specs.KeptPlan.{IsFoundBeside};
ghost use Rattle.fleet_commands.specs.PlansBeside.{AreCompared, ComparesNext};
ghost use Rattle.fleet_commands.specs.PlansBeside.{GoesFurther, parting_time};
ghost use Rattle.fleet_commands.specs.declared.status_line.StatusLine.{StatusLine};

use crate::found_tapes::{name_of, unless_refused};
use crate::status_line::StatusLine;
use agent_commands::{AgentFault, ReadFiles, plan_beside};
use continuing::{ContinueFault, continues};
use plan_text::Plan;
use std::alloc::AllocError;

/// The plan that goes furthest so far, and beside whose tape it is.
#[derive(Drop)]
pub(crate) struct Foremost {
    pub(crate) agent: u16,
    pub(crate) plan: Plan,
}

/// Reads the plan beside the tape of each of so many agents, and adds a line for each that parts
/// from the one that goes furthest before it, and for each that can't be read.
pub(crate) fn push_plan_lines<R: ReadFiles + AllocGlobal>(
    rt: &R,
    lines: &mut Vec<StatusLine>,
    agents: u32,
    tapes: &str,
) -> Result<(), AllocError>
    requires { agents ≤ 65535 }
    ensures { IfOk result (λ _. (foremost : Option Foremost) × (more : List StatusLine)
        × AreCompared R.was_done agents foremost more
        × (lines.new.items ≡ lines.old.items ++ more)) }
{
    let mut foremost = None;
    for agent in 0..agents {
        let tape = name_of(rt.alloc(), tapes, agent)?;
        let found = unless_refused(plan_beside(rt, &tape))?;
        foremost = compare_next(lines, agent as u16, found, foremost)?;
    }
    Ok(())
}

/// Compares the plan of one more agent, if there is one, with the one that goes furthest so far.
fn compare_next(
    lines: &mut Vec<StatusLine>,
    agent: u16,
    found: Result<Option<Plan>, AgentFault>,
    foremost: Option<Foremost>,
) -> Result<Option<Foremost>, AllocError>
    ensures { IfOk result
        (λ after. ComparesNext agent found foremost after lines.old.items lines.new.items) }
{
    let plan = match found {
        Ok(Some(plan)) => plan,
        Ok(None) => return Ok(foremost),
        Err(fault) => {
            lines.push(StatusLine::BesideFault { agent, fault })?;
            return Ok(foremost);
        }
    };
    let next = Foremost { agent, plan };
    match foremost {
        Some(first) => Ok(Some(further_of(lines, first, next)?)),
        None => Ok(Some(next)),
    }
}

/// Which of two plans goes on from the other. Where they part a line is added, and the first one is
/// kept.
fn further_of(
    lines: &mut Vec<StatusLine>,
    first: Foremost,
    next: Foremost,
) -> Result<Foremost, AllocError>
    ensures { IfOk result
        (λ further. GoesFurther first next further lines.old.items lines.new.items) }
{
    let Err(fault) = continues(&first.plan, &next.plan) else {
        return Ok(next);
    };
    if continues(&next.plan, &first.plan).is_err() {
        lines.push(StatusLine::Parted {
            agent: first.agent,
            other: next.agent,
            time: parting_time(fault),
        })?;
    }
    Ok(first)
}

/// From which time on two plans differ of which neither goes on from the other.
fn parting_time(fault: ContinueFault) -> u32
    ensures { result ≡ parting_time fault }
{
    match fault {
        ContinueFault::OtherNumber | ContinueFault::OtherCount => 0,
        ContinueFault::Departs(_, time) => time,
    }
}
