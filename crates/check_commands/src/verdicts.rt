//! What is written of a plan that was checked.
ghost use Rattle.std.specs.Prelude.{◌≡◌, length, true};
ghost use Rattle.ending.specs.Ending.{end_of, rejected};
ghost use Rattle.ending.specs.Rewriting.{EndsByLine};
ghost use Rattle.text_io.specs.FaultWords.{words_text};
ghost use Rattle.depgraph.specs.Rotations.{turn_of};
ghost use Rattle.check_commands.specs.CheckCommand.{EndsAccepted, EndsByFaults, EndsByRefusal};
ghost use Rattle.check_commands.specs.CheckCommand.{EndsRejected, EndsValid, named_by};
ghost use Rattle.check_commands.specs.Code.Verdicts.{is_rejection, verdict_line};
ghost use Rattle.check_commands.specs.FaultWords.{check_fault_words, turn_words};
ghost use Rattle.check_commands.specs.FaultsText.{of_fit, of_turn};
ghost use Rattle.check_commands.specs.VerdictText.{IsPlain, rejected_line, turn_text};
ghost use Rattle.model.specs.FaultWords.{plan_fault_words};
ghost use Rattle.fitting.specs.FaultWords.{fit_fault_words};

use crate::bound_text::write_bounded;
use crate::check_fault::CheckFault;
use crate::check_terms::CheckTerms;
use crate::faults_text::{write_faults, write_only, write_turn};
use crate::told::Against;
use crate::verdict::{Verdict, verdict_line};
use bounding::bounds_of;
use checker::{CheckedPlan, Rejected, first_faults};
use depgraph::{Dependencies, Rotation};
use ending::{Ending, Status, finish, write_text};
use fitting::FitFault;
use grid::Map;
use model::PlanFault;
use planned::PlannedFault;
use std::alloc::Global;
use std::io::Write;
use text_io::{Counted, Failure, FaultName, FaultWords};

/// Answers for a plan that is refused.
pub(crate) fn refuse<W: Write>(
    alloc: Global,
    map: &Map,
    rejected: &Rejected,
    terms: &CheckTerms,
    out: &mut Counted<W>,
) -> Ending
    ensures { EndsByRefusal W.contents terms.now.all terms.now.json map.now rejected.now.plan
        rejected.now.fault out.old out.new (end_of result) }
{
    match (rejected.fault, terms.all) {
        (PlanFault::OutOfMemory, _) => Ending::gave_up(rejected.fault.words()),
        (fault, None) => {
            let fault = CheckFault::Planned(PlannedFault::Plan(fault));
            reject(alloc, fault, terms.json, out)
        }
        (_, Some(most)) => list(
            alloc,
            map,
            rejected,
            Listing {
                most,
                json: terms.json,
            },
            out,
        ),
    }
}

/// How many faults are listed at the most, and whether as JSON.
#[derive(Clone, Copy)]
struct Listing {
    most: u32,
    json: bool,
}

/// Writes the first faults of a plan.
fn list<W: Write>(
    alloc: Global,
    map: &Map,
    rejected: &Rejected,
    listing: Listing,
    out: &mut Counted<W>,
) -> Ending
    ensures { EndsByFaults W.contents listing.json map.now rejected.now.plan listing.most
        (plan_fault_words rejected.now.fault) out.old out.new (end_of result) }
{
    match first_faults(alloc, map, &rejected.plan, listing.most) {
        Ok(faults) => {
            let written = write_faults(&faults, listing.json, out);
            finish(written, Ending::rejected(rejected.fault.words()), out)
        }
        Err(_) => Ending::gave_up(Failure::OutOfMemory.words()),
    }
}

/// Answers for a valid plan that differs from what is asked for.
pub(crate) fn differ<W: Write>(
    alloc: Global,
    fault: FitFault,
    terms: &CheckTerms,
    out: &mut Counted<W>,
) -> Ending
    ensures { EndsRejected W.contents terms.now (fit_fault_words fault)
        (words_text (fit_fault_words fault)) (of_fit fault) (named_by fault) out.old out.new
        (end_of result) }
{
    match terms.all {
        None => reject(alloc, CheckFault::Unfit(fault), terms.json, out),
        Some(_) => {
            let written = write_only(Against::Fit(fault), named_by(fault), terms.json, out);
            finish(written, Ending::rejected(fault.words()), out)
        }
    }
}

/// How many agents a difference names.
fn named_by(fault: FitFault) -> u64
    ensures { result ≡ named_by fault }
{
    match fault {
        FitFault::TooFewRows | FitFault::AgentCount => 0,
        FitFault::StartDiffers(_) | FitFault::GoalDiffers(_) | FitFault::SizeDiffers(_) => 1,
    }
}

/// Answers for a valid plan that has what is asked for, but for a rotation, perhaps.
pub(crate) fn accept<W: Write>(
    alloc: Global,
    map: &Map,
    plan: &CheckedPlan,
    terms: &CheckTerms,
    out: &mut Counted<W>,
) -> Ending
    ensures { EndsValid W.contents terms.now.no_rotation terms.now map.now plan.now out.old out.new
        (end_of result) }
{
    if !terms.no_rotation {
        return tell_accepted(alloc, map, plan, terms, out);
    }
    let Ok(dependencies) = Dependencies::build(alloc, plan) else {
        return Ending::gave_up(Failure::OutOfMemory.words());
    };
    match dependencies.rotations().first() {
        Some(rotation) => turn_back(rotation, terms, out),
        None => tell_accepted(alloc, map, plan, terms, out),
    }
}

/// Answers for a plan with a rotation.
fn turn_back<W: Write>(rotation: &Rotation, terms: &CheckTerms, out: &mut Counted<W>) -> Ending
    ensures { EndsRejected W.contents terms.now (turn_words (turn_of rotation.now))
        (turn_text (turn_of rotation.now)) (of_turn (turn_of rotation.now))
        (length (turn_of rotation.now).agents) out.old out.new (end_of result) }
{
    let words = FaultWords::new(FaultName::Rotation, &[u64::from(rotation.step)]);
    let agents: &[u16] = &rotation.agents;
    let written = match terms.all {
        None => write_turn(rotation, terms.json, out),
        Some(_) => write_only(
            Against::Turn(rotation),
            agents.len() as u64,
            terms.json,
            out,
        ),
    };
    finish(written, Ending::rejected(words), out)
}

/// Writes that a plan is accepted, and what such plans cost at least, where that is asked for.
fn tell_accepted<W: Write>(
    alloc: Global,
    map: &Map,
    plan: &CheckedPlan,
    terms: &CheckTerms,
    out: &mut Counted<W>,
) -> Ending
    ensures { EndsAccepted W.contents terms.now.bound terms.now.json map.now plan.now out.old
        out.new (end_of result) }
{
    if !terms.bound {
        let verdict = Verdict::accepted(plan);
        let success = Ending::answered_with(Status::Done);
        return tell(alloc, &verdict, terms.json, success, out);
    }
    match bounds_of(alloc, map, plan) {
        Ok(bounds) => {
            let written = write_bounded(plan, &bounds, terms.json, out);
            finish(written, Ending::answered_with(Status::Done), out)
        }
        Err(fault) => Ending::gave_up(fault.words()),
    }
}

/// Writes the verdict on a plan that is rejected.
fn reject<W: Write>(alloc: Global, fault: CheckFault, json: bool, out: &mut Counted<W>) -> Ending
    requires { is_rejection fault ≡ true }
    ensures { EndsByLine W.contents out.old out.new (rejected (check_fault_words fault))
        (end_of result) (rejected_line json (words_text (check_fault_words fault))) }
{
    match fault.text(alloc) {
        Ok(text) => {
            let verdict = Verdict::Rejected(&text);
            tell(alloc, &verdict, json, Ending::rejected(fault.words()), out)
        }
        Err(_) => Ending::gave_up(Failure::OutOfMemory.words()),
    }
}

/// Writes the line of a verdict, which ends so.
fn tell<W: Write>(
    alloc: Global,
    verdict: &Verdict<'_>,
    json: bool,
    success: Ending,
    out: &mut Counted<W>,
) -> Ending
    requires { IsPlain verdict.now }
    ensures { EndsByLine W.contents out.old out.new (end_of success) (end_of result)
        (verdict_line json verdict.now) }
{
    match verdict_line(alloc, verdict, json) {
        Ok(line) => {
            let written = write_text(line.as_bytes(), out);
            finish(written, success, out)
        }
        Err(_) => Ending::gave_up(Failure::OutOfMemory.words()),
    }
}
