//! `mapf check`: checks a plan on a map, and whether it has what is asked for.
ghost use Rattle.std.specs.Prelude.{◌≡◌, Err, MatchResult};
ghost use Rattle.ending.specs.Ending.{EndsAndTells, end_of};
ghost use Rattle.fitting.specs.declared.fit_fault.FitFault.TheVariants.{AgentCount};
ghost use Rattle.check_commands.specs.CheckCommand.{AnswersCheck, AnswersCheckFit};
ghost use Rattle.check_commands.specs.CheckCommand.{HasCount, ReadsAndFits};
ghost use Rattle.scenario.specs.ScenFault.{ReadsScen};

use crate::check_fault::CheckFault;
use crate::check_terms::CheckTerms;
use crate::on_map::{OnMap, read_on_map};
use crate::verdicts::{accept, differ, refuse};
use checker::CheckedPlan;
use ending::{Ending, conclude};
use fitting::{FitFault, fits};
use scenario::{ScenFault, read_scen};
use std::alloc::Global;
use std::io::{Read, Write};
use text_io::Counted;

/// As `perform`, with a fault's line on `err`. The answer is the exit status, which stays where
/// `err` fails.
pub fn check_cmd<M: Read, P: Read, W: Write, E: Write>(
    alloc: Global,
    map: &mut Counted<M>,
    plan: &mut Counted<P>,
    terms: &CheckTerms,
    out: &mut Counted<W>,
    err: &mut Counted<E>,
) -> u8
    ensures { EndsAndTells
        (AnswersCheck M.remaining P.remaining W.contents terms.now map.old map.new plan.old plan.new
        out.old out.new)
        E.contents err.old err.new result }
{
    conclude(perform(alloc, map, plan, terms, out), err)
}

/// As `perform_fit`, with a fault's line on `err`. The answer is the exit status, which stays where
/// `err` fails.
pub fn check_fit_cmd<M: Read, P: Read, S: Read, W: Write, E: Write>(
    alloc: Global,
    map: &mut Counted<M>,
    plan: &mut Counted<P>,
    scen: &mut Counted<S>,
    terms: &CheckTerms,
    out: &mut Counted<W>,
    err: &mut Counted<E>,
) -> u8
    ensures { EndsAndTells
        (AnswersCheckFit M.remaining P.remaining S.remaining W.contents terms.now map.old map.new
        plan.old plan.new scen.old scen.new out.old out.new)
        E.contents err.old err.new result }
{
    conclude(perform_fit(alloc, map, plan, scen, terms, out), err)
}

/// Reads a map from `map` and a plan from `plan`, and writes the verdict on the plan to `out`: it
/// is accepted only where it has what the terms ask for.
pub fn perform<M: Read, P: Read, W: Write>(
    alloc: Global,
    map: &mut Counted<M>,
    plan: &mut Counted<P>,
    terms: &CheckTerms,
    out: &mut Counted<W>,
) -> Ending
    ensures { AnswersCheck M.remaining P.remaining W.contents terms.now map.old map.new plan.old
        plan.new out.old out.new (end_of result) }
{
    let OnMap { map, checked } = match read_on_map(alloc, map, plan) {
        Ok(on_map) => on_map,
        Err(fault) => return Ending::gave_up(CheckFault::Planned(fault).words()),
    };
    let plan = match checked {
        Ok(plan) => plan,
        Err(rejected) => return refuse(alloc, &map, &rejected, terms, out),
    };
    match count(&plan, terms.due) {
        Ok(()) => accept(alloc, &map, &plan, terms, out),
        Err(fault) => differ(alloc, fault, terms, out),
    }
}

/// The same with a scenario, which is read only where the plan is valid: the plan is accepted only
/// where it also solves the first rows, as many as agents are due, or else as it has.
pub fn perform_fit<M: Read, P: Read, S: Read, W: Write>(
    alloc: Global,
    map: &mut Counted<M>,
    plan: &mut Counted<P>,
    scen: &mut Counted<S>,
    terms: &CheckTerms,
    out: &mut Counted<W>,
) -> Ending
    ensures { AnswersCheckFit M.remaining P.remaining S.remaining W.contents terms.now map.old
        map.new plan.old plan.new scen.old scen.new out.old out.new (end_of result) }
{
    let OnMap { map, checked } = match read_on_map(alloc, map, plan) {
        Ok(on_map) => on_map,
        Err(fault) => return Ending::gave_up(CheckFault::Planned(fault).words()),
    };
    let plan = match checked {
        Ok(plan) => plan,
        Err(rejected) => return refuse(alloc, &map, &rejected, terms, out),
    };
    match fit(alloc, &plan, scen, terms.due) {
        Ok(Ok(())) => accept(alloc, &map, &plan, terms, out),
        Ok(Err(fault)) => differ(alloc, fault, terms, out),
        Err(fault) => Ending::gave_up(CheckFault::Scen(fault).words()),
    }
}

/// Whether there are as many agents as are due.
fn count(plan: &CheckedPlan, due: Option<u16>) -> Result<(), FitFault>
    ensures { MatchResult result (λ _. HasCount due plan.now) (λ fault. (fault ≡ AgentCount)
        × (HasCount due plan.now → ⊥)) }
{
    match due {
        Some(count) if plan.agents() != u32::from(count) => Err(FitFault::AgentCount),
        _ => Ok(()),
    }
}

/// Reads the scenario and holds the plan against it.
fn fit<S: Read>(
    alloc: Global,
    plan: &CheckedPlan,
    scen: &mut Counted<S>,
    due: Option<u16>,
) -> Result<Result<(), FitFault>, ScenFault>
    ensures { MatchResult result (ReadsAndFits S.remaining scen.old scen.new plan.now due)
        (λ fault. ReadsScen S.remaining scen.old scen.new (Err fault)) }
{
    let scenario = read_scen(alloc, scen)?;
    let count = match due {
        Some(count) => u32::from(count),
        None => plan.agents(),
    };
    Ok(fits(plan, &scenario, count))
}
