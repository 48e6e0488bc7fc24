//! `mapf path`: writes where the agents of a plan are, time by time.
ghost use Rattle.std.specs.Prelude.{◌≡◌, IfOk, MatchOption, Some};
ghost use Rattle.ending.specs.Ending.{EndsAndTells, end_of};
ghost use Rattle.plan_commands.specs.PlanQueries.{AnswersPath, ReadsWalkable};
ghost use Rattle.plan_commands.specs.PathText.{AreAsked};
ghost use Rattle.checker.specs.Code.Walking.{start_cells};
ghost use Rattle.plan_commands.specs.Code.Numerals.{AreNumerals};
ghost use Rattle.plan_commands.specs.Code.Rows.{AllWalked, EndsByRows, IsNoAgent};
ghost use Rattle.plan_commands.specs.Code.Walks.{AreStretches};

use crate::numerals::{Numeral, numerals};
use crate::path_fault::PathFault;
use crate::path_text::write_rows;
use crate::straying::fault_of_one_agent;
use crate::walk::{first_stretches, starts};
use checker::Stretch;
use ending::{Ending, Status, conclude, finish};
use grid::{Cell, read_map};
use plan_text::{Course, Plan, read_plan};
use planned::PlannedFault;
use std::alloc::{AllocError, Global};
use std::io::{Read, Write};
use text_io::Counted;

/// As `perform`, with a fault's line on `err`. The answer is the exit status, which stays where
/// `err` fails.
pub fn path_cmd<M: Read, P: Read, W: Write, E: Write>(
    alloc: Global,
    map: &mut Counted<M>,
    plan: &mut Counted<P>,
    agent: Option<u16>,
    out: &mut Counted<W>,
    err: &mut Counted<E>,
) -> u8
    ensures { EndsAndTells
        (AnswersPath M.remaining P.remaining W.contents agent map.old map.new plan.old plan.new
        out.old out.new)
        E.contents err.old err.new result }
{
    conclude(perform(alloc, map, plan, agent, out), err)
}

/// Reads a map from `map` and a plan from `plan`, and writes where its agents are at each time to
/// `out`, or where one of them is. A bad start or move is a fault; agents may meet.
pub fn perform<M: Read, P: Read, W: Write>(
    alloc: Global,
    map: &mut Counted<M>,
    plan: &mut Counted<P>,
    agent: Option<u16>,
    out: &mut Counted<W>,
) -> Ending
    ensures { AnswersPath M.remaining P.remaining W.contents agent map.old map.new plan.old plan.new
        out.old out.new (end_of result) }
{
    match read_walkable(alloc, map, plan) {
        Ok(plan) => show(alloc, &plan, agent, out),
        Err(fault) => Ending::gave_up(PathFault::Planned(fault).words()),
    }
}

/// Reads the map and then the plan, each of whose agents may go its way.
fn read_walkable<M: Read, P: Read>(
    alloc: Global,
    map: &mut Counted<M>,
    plan: &mut Counted<P>,
) -> Result<Plan, PlannedFault>
    ensures reads { ReadsWalkable M.remaining P.remaining map.old map.new plan.old plan.new result }
    ensures walked { IfOk result (λ p. AllWalked p.courses) }
{
    let map = read_map(alloc, map)?;
    let plan = read_plan(alloc, plan)?;
    match fault_of_one_agent(alloc, &map, &plan) {
        None => Ok(plan),
        Some(fault) => Err(PlannedFault::Plan(fault)),
    }
}

/// Writes the rows of all agents, or those of one.
fn show<W: Write>(alloc: Global, plan: &Plan, agent: Option<u16>, out: &mut Counted<W>) -> Ending
    requires { AllWalked plan.now.courses }
    ensures { EndsByRows W.contents plan.now agent out.old out.new (end_of result) }
{
    let Some(courses) = asked(plan, agent) else {
        return Ending::gave_up(PathFault::NoSuchAgent.words());
    };
    match prepare(alloc, courses) {
        Ok(mut prepared) => {
            let written = write_rows(
                courses,
                &mut prepared.cells,
                &mut prepared.stretches,
                &prepared.numerals,
                out,
            );
            finish(written, Ending::answered_with(Status::Done), out)
        }
        Err(_) => Ending::gave_up(PathFault::OutOfMemory.words()),
    }
}

/// What is wanted of memory before the first line.
#[derive(Drop)]
struct Prepared {
    cells: Vec<Cell>,
    stretches: Vec<Stretch>,
    numerals: Vec<Numeral>,
}

/// The agents' starts, their first acts, and the numerals of numbers.
fn prepare(alloc: Global, courses: &[Course]) -> Result<Prepared, AllocError>
    ensures cells { IfOk result (λ p. p.cells.items ≡ start_cells courses.now) }
    ensures stretches { IfOk result (λ p. AreStretches courses.now 0 p.stretches.items) }
    ensures numerals { IfOk result (λ p. AreNumerals p.numerals.items) }
{
    Ok(Prepared {
        cells: starts(alloc, courses)?,
        stretches: first_stretches(alloc, courses)?,
        numerals: numerals(alloc)?,
    })
}

/// The courses of all agents, or that of one, if there is one with the number.
fn asked(plan: &Plan, agent: Option<u16>) -> Option<&[Course]>
    ensures { MatchOption result (IsNoAgent plan.now agent)
        (λ courses. AreAsked plan.now agent courses.now) }
{
    let courses = plan.courses();
    let Some(agent) = agent else {
        return Some(courses);
    };
    let index = usize::from(agent);
    if index < courses.len() {
        Some(&courses[index..index + 1])
    } else {
        None
    }
}
