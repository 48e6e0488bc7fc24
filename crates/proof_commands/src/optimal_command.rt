//! `mapf optimal`: says what a proof shows of a plan.
ghost use Rattle.std.specs.Prelude.{◌≡◌, Err, IfOk, MatchResult};
ghost use Rattle.ending.specs.Ending.{EndsAndTells, answered_with, end_of};
ghost use Rattle.ending.specs.Rewriting.{EndsByLine};
ghost use Rattle.ending.specs.declared.status.Status.TheVariants.{Done};
ghost use Rattle.optimality.specs.Judging.{BoundHolds, objective_value};
ghost use Rattle.planned.specs.Planned.{ReadsChecked};
ghost use Rattle.proof_commands.specs.Code.Showing.{shown_line};
ghost use Rattle.proof_commands.specs.ShownText.{claim_line};
ghost use Rattle.proof_commands.specs.OptimalCommand.{AnswersByProof, AnswersOptimal, EndsUnproved};
ghost use Rattle.proof_commands.specs.OptimalCommand.{ReadsPlanOnMap, ReadsProofOn, ends_in};

use crate::ends::ends_of_agents;
use crate::shown::{Shown, shown_line};
use checker::{CheckedPlan, check};
use ending::{Ending, Status, conclude, finish, write_text};
use grid::{Map, read_map};
use optimality::Objective;
use plan_text::read_plan;
use planned::PlannedFault;
use proof_check::read_proof;
use proof_text::{ProofClaim, ProofFault};
use std::alloc::Global;
use std::io::{Read, Write};
use text_io::{Counted, Failure};

/// As `perform`, with a fault's line on `err`. The answer is the exit status, which stays where
/// `err` fails.
pub fn optimal_cmd<M: Read, P: Read, F: Read, W: Write, E: Write>(
    alloc: Global,
    map: &mut Counted<M>,
    plan: &mut Counted<P>,
    proof: &mut Counted<F>,
    json: bool,
    out: &mut Counted<W>,
    err: &mut Counted<E>,
) -> u8
    ensures { EndsAndTells
        (AnswersOptimal M.remaining P.remaining F.remaining W.contents json map.old map.new plan.old
        plan.new proof.old proof.new out.old out.new)
        E.contents err.old err.new result }
{
    conclude(perform(alloc, map, plan, proof, json, out), err)
}

/// Reads a map from `map` and a plan from `plan`, checks the plan on the map, reads a proof from
/// `proof` that such plans cost no less than a bound, and writes whether the plan costs just that
/// to `out`.
pub fn perform<M: Read, P: Read, F: Read, W: Write>(
    alloc: Global,
    map: &mut Counted<M>,
    plan: &mut Counted<P>,
    proof: &mut Counted<F>,
    json: bool,
    out: &mut Counted<W>,
) -> Ending
    ensures { AnswersOptimal M.remaining P.remaining F.remaining W.contents json map.old map.new
        plan.old plan.new proof.old proof.new
        out.old out.new (end_of result) }
{
    match read_on_map(alloc, map, plan) {
        Ok(on_map) => answer(alloc, &on_map, proof, json, out),
        Err(fault) => Ending::gave_up(fault.words()),
    }
}

/// A map, and a plan that is valid on it.
#[derive(Drop)]
pub(crate) struct PlanOnMap {
    pub(crate) map: Map,
    pub(crate) plan: CheckedPlan,
}

/// Reads the map and then the plan, and checks the plan.
pub(crate) fn read_on_map<M: Read, P: Read>(
    alloc: Global,
    map: &mut Counted<M>,
    plan: &mut Counted<P>,
) -> Result<PlanOnMap, PlannedFault>
    ensures { MatchResult result
        (λ on. ReadsPlanOnMap M.remaining P.remaining map.old map.new plan.old plan.new
        on.map on.plan)
        (λ fault. ReadsChecked M.remaining P.remaining map.old map.new plan.old plan.new
        (Err fault)) }
{
    let map = read_map(alloc, map)?;
    let plan = read_plan(alloc, plan)?;
    let plan = check(alloc, &map, plan)?;
    Ok(PlanOnMap { map, plan })
}

/// Reads the proof, and answers by it.
fn answer<F: Read, W: Write>(
    alloc: Global,
    on_map: &PlanOnMap,
    proof: &mut Counted<F>,
    json: bool,
    out: &mut Counted<W>,
) -> Ending
    ensures { AnswersByProof F.remaining W.contents json on_map.now.map on_map.now.plan proof.old
        proof.new out.old out.new (end_of result) }
{
    match read_claim(alloc, on_map, proof) {
        Ok(claim) => compare(alloc, &on_map.plan, claim, json, out),
        Err(fault) => refuse(alloc, fault, json, out),
    }
}

/// Reads the proof by where the plan's agents start and come to rest.
fn read_claim<F: Read>(
    alloc: Global,
    on_map: &PlanOnMap,
    proof: &mut Counted<F>,
) -> Result<ProofClaim, ProofFault>
    ensures reads { ReadsProofOn F.remaining proof.old proof.new on_map.now.map
        on_map.now.plan result }
    ensures holds { IfOk result
        (λ claim. BoundHolds on_map.now.map (ends_in on_map.now.plan) claim.objective claim.bound) }
{
    let ends = ends_of_agents(alloc, &on_map.plan)?;
    read_proof(alloc, &on_map.map, ends, proof)
}

/// Writes what the plan costs beside the bound that holds.
fn compare<W: Write>(
    alloc: Global,
    plan: &CheckedPlan,
    claim: ProofClaim,
    json: bool,
    out: &mut Counted<W>,
) -> Ending
    ensures { EndsByLine W.contents out.old out.new (answered_with Done) (end_of result)
        (claim_line json claim.objective (objective_value claim.objective plan.now.timetable)
        claim.bound claim.nodes) }
{
    let shown = Shown::Bounded {
        objective: claim.objective,
        value: value_of(plan, claim.objective),
        bound: claim.bound,
        nodes: claim.nodes,
    };
    let success = Ending::answered_with(Status::Done);
    tell(alloc, shown, json, success, out)
}

/// What the plan costs.
fn value_of(plan: &CheckedPlan, objective: Objective) -> u64
    ensures { result ≡ objective_value objective plan.now.timetable }
{
    match objective {
        Objective::Cost => plan.sum_of_costs(),
        Objective::Makespan => u64::from(plan.makespan()),
    }
}

/// Answers for a proof that was not read to its end, or that proves nothing.
fn refuse<W: Write>(alloc: Global, fault: ProofFault, json: bool, out: &mut Counted<W>) -> Ending
    ensures { EndsUnproved W.contents json out.old out.new (end_of result) fault }
{
    match fault {
        ProofFault::NoSuchAgent(_) | ProofFault::OffMap(_) | ProofFault::LeafTooLow(_, _) => {
            let success = Ending::rejected(fault.words());
            tell(alloc, Shown::Refused(fault), json, success, out)
        }
        _ => Ending::gave_up(fault.words()),
    }
}

/// Writes the line of what was shown, which ends so.
fn tell<W: Write>(
    alloc: Global,
    shown: Shown,
    json: bool,
    success: Ending,
    out: &mut Counted<W>,
) -> Ending
    ensures { EndsByLine W.contents out.old out.new (end_of success) (end_of result)
        (shown_line json shown) }
{
    match shown_line(alloc, shown, json) {
        Ok(line) => {
            let written = write_text(line.as_bytes(), out);
            finish(written, success, out)
        }
        Err(_) => Ending::gave_up(Failure::OutOfMemory.words()),
    }
}
