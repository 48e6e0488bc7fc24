//! Opening an agent over its tape file.
ghost use Rattle.std.specs.Prelude.{◌≡◌, ◌≤◌, ◌↔◌, length, is_some};
ghost use Rattle.std.specs.Prelude.{IfErr, IfOk, IsTrue, MatchResult, OnOk};
ghost use Rattle.model.specs.History.{record_length};
ghost use Rattle.model.specs.Plan.{Plan};
ghost use Rattle.model.specs.Timetable.{Timetable};
ghost use Rattle.depgraph.specs.AgentParts.{IsPartOf};
ghost use Rattle.agent_commands.specs.AgentCommand.{IsClaimed, IsNamed, IsNoTape};
ghost use Rattle.agent_commands.specs.AgentCommand.{IsNotOnTape, IsOnTape, IsTapeOf};
ghost use Rattle.agent_commands.specs.declared.agent_fault.AgentFault.TheVariants.{File};
ghost use Rattle.robot.specs.declared.file_tape.FileTapeFault.TheVariants.{TapeFailed};
ghost use Rattle.robot.specs.FileTape.{file_state};
ghost use Rattle.agent_commands.specs.FileDeeds.FileDeed.{keeps_name};
ghost use Rattle.agent_commands.specs.Code.Parts.{IsNotTaken, IsTakenTape, unguarded};
ghost use Rattle.agent_commands.specs.Code.Plans.{IsDueTask, IsTermsFor, MarksLater, claim_of};
ghost use Rattle.agent_commands.specs.Code.Plans.{is_still_unmarked};

use crate::agent_fault::AgentFault;
use crate::agent_files::{AgentFiles, HeldFile};
use crate::beside_name::BesideName;
use crate::kept_plan::{
    PlanTask, keep_plan, look_before_making, look_beside_kept, look_beside_new,
};
use crate::tape_guard::TapeGuard;
use crate::terms::Terms;
use agent::{Agent, RECORD_LENGTH, Tape};
use depgraph::Part;
use plan_text::Plan;
use robot::{FileTape, FileTapeFault, GuardedTape, SyncFile};
use std::alloc::AllocError;
use std::io::{Seek, Write};
use tape_claim::TapeClaim;

/// Opens an agent over its tape file, and keeps the plan at hand beside it.
pub(crate) fn open_agent<'a, 'g, R: AgentFiles + AllocGlobal>(
    rt: &'a R,
    part: Part<'g>,
    path: &'a str,
    terms: Terms,
) -> Result<Agent<'g, GuardedTape<R::Tape, TapeGuard<'a, R>>>, AgentFault>
    ensures part { IfOk result (λ agent. agent.part ≡ part.entry) }
    ensures opened { (p : Plan) → IsTermsFor (claim_of terms) p terms → (tt : Timetable)
        → IsPartOf tt part.entry → MatchResult result
        (λ agent. IsOnTape R.Tape.remaining R.was_done (claim_of terms) p tt part.entry.agent
        (unguarded agent))
        (IsNotOnTape R.Tape.remaining R.was_done (claim_of terms) p tt part.entry.agent) }
{
    let OpenTape { tape, task } = open_tape(rt, &part, path, &terms)?;
    match Agent::open_part(rt.alloc(), part, tape) {
        Ok(agent) => {
            let has_record = agent.tape().len() >= RECORD_LENGTH;
            keep_plan(rt, path, &terms, task, has_record)?;
            Ok(agent)
        }
        Err((fault, _)) => Err(AgentFault::Tape(fault)),
    }
}

/// A tape with its guard, and what is still to be done to the file beside it.
#[derive(Drop)]
struct OpenTape<'a, R: AgentFiles> {
    tape: GuardedTape<R::Tape, TapeGuard<'a, R>>,
    task: PlanTask,
}

/// Opens the tape file of an agent, with room for two records a move.
fn open_tape<'a, R: AgentFiles + AllocGlobal>(
    rt: &'a R,
    part: &Part<'_>,
    path: &'a str,
    terms: &Terms,
) -> Result<OpenTape<'a, R>, AgentFault>
    ensures opened { (p : Plan) → IsTermsFor (claim_of terms.now) p terms.now → (tt : Timetable)
        → IsPartOf tt part.now → MatchResult result
        (λ it. IsTapeOf R.Tape.remaining R.was_done tt part.now.agent it.tape.tape
        × IsClaimed R.was_done (claim_of terms.now) p it.tape.tape)
        (IsNoTape R.Tape.remaining R.was_done (claim_of terms.now) p tt part.now.agent) }
    ensures due { (p : Plan) → IsTermsFor (claim_of terms.now) p terms.now
        → IfOk result (λ it. IsDueTask R.was_done (claim_of terms.now) p it.tape.tape it.task) }
    ensures marks { IfOk result
        (λ it. MarksLater (claim_of terms.now) it.tape.tape it.tape.guard.unmarked) }
{
    let moves = part.own_moves();
    look_before_making(rt, path, terms)?;
    let HeldFile { file, id } = rt.open_tape(path, terms.claim())?;
    let opened = FileTape::open(rt.alloc(), file, 2 * RECORD_LENGTH * moves)?;
    let TakenTape { tape, task } = take_tape(rt, path, opened, terms)?;
    let unmarked = unmarked_plan(rt, path, terms, has_record(&tape))?;
    let guard = TapeGuard::new(rt, path, id, unmarked);
    Ok(OpenTape {
        tape: GuardedTape::new(tape, guard),
        task,
    })
}

/// The name of the file that is to be marked when the first record is stored.
fn unmarked_plan<R: AllocGlobal>(
    rt: &R,
    path: &str,
    terms: &Terms,
    has_record: bool,
) -> Result<Option<BesideName>, AllocError>
    ensures { IfOk result (λ name. is_some name ≡ is_still_unmarked terms.now has_record) }
{
    match terms {
        Terms::New(_) | Terms::Kept(_) if !has_record => {
            Ok(Some(BesideName::of(rt.alloc(), path)?))
        }
        _ => Ok(None),
    }
}

/// Whether the tape has a whole record.
fn has_record<F: Write + Seek + SyncFile>(tape: &FileTape<F>) -> bool
    ensures { IsTrue result ↔ (record_length ≤ length (file_state tape.now).contents) }
{
    tape.len() >= RECORD_LENGTH
}

/// A tape that is taken, and what is still to be done to the file beside it.
#[derive(Drop)]
struct TakenTape<F> {
    tape: FileTape<F>,
    task: PlanTask,
}

/// Takes the tape of a file that was opened, if what is claimed of it holds.
fn take_tape<R: AgentFiles + AllocGlobal>(
    rt: &R,
    path: &str,
    tape: FileTape<R::Tape>,
    terms: &Terms,
) -> Result<TakenTape<R::Tape>, AgentFault>
    ensures taken { (p : Plan) → IsTermsFor (claim_of terms.now) p terms.now → MatchResult result
        (λ taken. IsTakenTape R.was_done (claim_of terms.now) p tape taken.tape)
        (IsNotTaken R.was_done (claim_of terms.now) p tape) }
    ensures due { (p : Plan) → IsTermsFor (claim_of terms.now) p terms.now
        → IfOk result (λ taken. IsDueTask R.was_done (claim_of terms.now) p taken.tape taken.task) }
{
    match terms {
        Terms::Any => take_any_tape(rt, path, tape),
        Terms::New(_) => take_new_tape(rt, path, tape),
        Terms::Kept(plan) => take_kept_tape(rt, path, tape, plan),
    }
}

/// Takes a tape of which nothing is claimed.
fn take_any_tape<R: AgentFiles>(
    rt: &R,
    path: &str,
    tape: FileTape<R::Tape>,
) -> Result<TakenTape<R::Tape>, AgentFault>
    ensures ok { IfOk result (λ taken. taken.tape ≡ tape) }
    ensures named { OnOk result (IsNamed R.was_done tape) }
    ensures due { IfOk result (λ taken. taken.task ≡ PlanTask.Nothing) }
    ensures err { IfErr result (λ fault. fault ≡ File TapeFailed) }
{
    keep_made_name(rt, path, &tape)?;
    Ok(TakenTape {
        tape,
        task: PlanTask::Nothing,
    })
}

/// Takes a tape without a record, and syncs it and its folder.
fn take_new_tape<R: AgentFiles + AllocGlobal>(
    rt: &R,
    path: &str,
    mut tape: FileTape<R::Tape>,
) -> Result<TakenTape<R::Tape>, AgentFault>
    ensures taken { (p : Plan)
        → MatchResult result (λ taken. IsTakenTape R.was_done TapeClaim.New p tape taken.tape)
        (IsNotTaken R.was_done TapeClaim.New p tape) }
    ensures due { IfOk result (λ taken. taken.task ≡ PlanTask.Write) }
{
    if has_record(&tape) {
        return Err(AgentFault::TapeExists);
    }
    look_beside_new(rt, path)?;
    tape.sync()?;
    keep_name(rt, path)?;
    Ok(TakenTape {
        tape,
        task: PlanTask::Write,
    })
}

/// Takes a tape that belongs to the plan at hand.
fn take_kept_tape<R: AgentFiles + AllocGlobal>(
    rt: &R,
    path: &str,
    tape: FileTape<R::Tape>,
    plan: &Plan,
) -> Result<TakenTape<R::Tape>, AgentFault>
    ensures taken { MatchResult result
        (λ taken. IsTakenTape R.was_done TapeClaim.Kept plan.now tape taken.tape)
        (IsNotTaken R.was_done TapeClaim.Kept plan.now tape) }
    ensures due { IfOk result
        (λ taken. IsDueTask R.was_done TapeClaim.Kept plan.now taken.tape taken.task) }
{
    let task = look_beside_kept(rt, path, plan, has_record(&tape))?;
    keep_made_name(rt, path, &tape)?;
    Ok(TakenTape { tape, task })
}

/// Syncs the folder of a tape that has no record: the file may just have been made, and a power cut
/// could take away a name that isn't synced.
fn keep_made_name<R: AgentFiles>(
    rt: &R,
    path: &str,
    tape: &FileTape<R::Tape>,
) -> Result<(), FileTapeFault>
    ensures named { OnOk result (IsNamed R.was_done tape.now) }
    ensures err { IfErr result (λ fault. fault ≡ TapeFailed) }
{
    if !has_record(tape) {
        keep_name(rt, path)?;
    }
    Ok(())
}

/// Syncs the folder of a tape.
fn keep_name<R: AgentFiles>(rt: &R, path: &str) -> Result<(), FileTapeFault>
    ensures { MatchResult result (λ _. R.was_done keeps_name) (λ fault. fault ≡ TapeFailed) }
{
    rt.keep_name(path)?;
    Ok(())
}
