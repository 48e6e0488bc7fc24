//! Whether a tape belongs to the plan at hand, and what is to be done to the file that says so.
ghost use Rattle.std.specs.Prelude.{◌≡◌, ◌↔◌, IfErr, IfOk, IsTrue, MatchResult, OnErr};
ghost use Rattle.agent_commands.specs.KeptPlan.{IsAkin, IsFoundBeside, IsFreeBeside};
ghost use Rattle.agent_commands.specs.Code.Parts.{IsLost};
ghost use Rattle.agent_commands.specs.Code.Plans.{IsKeptTask, IsNoTaskFor, IsNotLetBy};
ghost use Rattle.agent_commands.specs.Code.Plans.{IsNotMadeAnew, IsTaskDone, IsTaskFor, claim_of};

use crate::agent_fault::AgentFault;
use crate::agent_files::AgentFiles;
use crate::beside_name::{BesideName, name_beside};
use crate::plan_file::{KeptPlan, read_kept, read_mark, write_kept};
use crate::read_files::ReadFiles;
use crate::terms::Terms;
use continuing::continues;
use plan_text::{Course, Plan};
use robot::FileTapeFault;
use tape_claim::TapeClaim;
use text_io::Counted;

/// What is still to be done to the file beside a tape before the first answer.
#[derive(Clone, Copy, PartialEq, Eq)]
pub(crate) enum PlanTask {
    /// The tape has no record, of which anybody could have heard.
    Nothing,
    /// It says what it has to, but perhaps not where the power fails.
    Sync,
    /// It says that no record was stored, and the tape has one.
    Mark,
    /// There is none, or it has another plan than that at hand.
    Write,
}

/// Looks beside a new tape before its file is made, if there is none: a tape that is refused for
/// what is beside it leaves no file.
pub(crate) fn look_before_making<R: AgentFiles + AllocGlobal>(
    rt: &R,
    tape: &str,
    terms: &Terms,
) -> Result<(), AgentFault>
    ensures new { OnErr result (claim_of terms.now ≡ TapeClaim.New) }
    ensures beside { IfErr result (IsNotMadeAnew R.was_done) }
{
    match terms {
        Terms::New(_) if rt.is_absent(tape) => look_beside_new(rt, tape),
        _ => Ok(()),
    }
}

/// Looks at the file beside a new tape, if there is one: it is written anew unless it says that a
/// record was stored, or is another file.
pub(crate) fn look_beside_new<R: AgentFiles + AllocGlobal>(
    rt: &R,
    tape: &str,
) -> Result<(), AgentFault>
    ensures { MatchResult result (λ _. IsFreeBeside R.was_done) (IsNotMadeAnew R.was_done) }
{
    let name = BesideName::of(rt.alloc(), tape)?;
    match rt.open_beside(&name) {
        Ok(file) => match read_mark(&mut Counted::new(file))? {
            Some(true) => Err(AgentFault::TapeEmptied),
            Some(false) => Ok(()),
            None => Err(AgentFault::PlanDamaged),
        },
        Err(AgentFault::NoTape) => Ok(()),
        Err(fault) => Err(fault),
    }
}

/// The plan beside a tape, if there is one. Its file is only read.
pub fn plan_beside<R: ReadFiles + AllocGlobal>(
    rt: &R,
    tape: &str,
) -> Result<Option<Plan>, AgentFault>
    ensures { IsFoundBeside R.was_done result }
{
    let name = name_beside(rt.alloc(), tape)?;
    match rt.open_to_read(&name) {
        Ok(file) => Ok(Some(read_kept(rt.alloc(), &mut Counted::new(file))?.plan)),
        Err(AgentFault::NoTape) => Ok(None),
        Err(fault) => Err(fault),
    }
}

/// Compares the plan beside a kept tape with that at hand.
pub(crate) fn look_beside_kept<R: AgentFiles + AllocGlobal>(
    rt: &R,
    tape: &str,
    plan: &Plan,
    has_record: bool,
) -> Result<PlanTask, AgentFault>
    ensures { MatchResult result (IsKeptTask R.was_done plan.now has_record)
        (IsNotLetBy R.was_done plan.now has_record) }
{
    let name = BesideName::of(rt.alloc(), tape)?;
    let file = rt.open_beside(&name)?;
    let kept = read_kept(rt.alloc(), &mut Counted::new(file))?;
    task_for(&kept, plan, has_record)
}

/// What is to be done to the file that has a kept plan, for the plan at hand.
fn task_for(kept: &KeptPlan, plan: &Plan, has_record: bool) -> Result<PlanTask, AgentFault>
    ensures { MatchResult result (IsTaskFor kept.now plan.now has_record)
        (IsNoTaskFor kept.now plan.now has_record) }
{
    if kept.is_marked && !has_record {
        return Err(AgentFault::TapeEmptied);
    }
    if is_same(&kept.plan, plan) {
        return Ok(match (has_record, kept.is_marked) {
            (false, _) => PlanTask::Nothing,
            (true, true) => PlanTask::Sync,
            (true, false) => PlanTask::Mark,
        });
    }
    match continues(&kept.plan, plan) {
        Ok(()) => Ok(PlanTask::Write),
        Err(_) if continues(plan, &kept.plan).is_ok() => Ok(PlanTask::Write),
        Err(apart) => Err(AgentFault::OtherPlan(apart)),
    }
}

/// Whether two plans are one.
fn is_same(one: &Plan, other: &Plan) -> bool
    ensures { IsTrue result ↔ (one.now ≡ other.now) }
{
    one.number() == other.number() && are_same(one.courses(), other.courses())
}

fn are_same(one: &[Course], other: &[Course]) -> bool
    ensures { IsTrue result ↔ (one.now ≡ other.now) }
{
    if one.len() != other.len() {
        return false;
    }
    for (i, course) in one.iter().enumerate() {
        if !is_same_course(course, &other[i]) {
            return false;
        }
    }
    true
}

fn is_same_course(one: &Course, other: &Course) -> bool
    ensures { IsTrue result ↔ (one.now ≡ other.now) }
{
    one.start() == other.start() && one.acts() == other.acts()
}

/// Does what is still to be done to the file beside a tape that has a record, or has none.
pub(crate) fn keep_plan<R: AgentFiles + AllocGlobal>(
    rt: &R,
    tape: &str,
    terms: &Terms,
    task: PlanTask,
    has_record: bool,
) -> Result<(), FileTapeFault>
    ensures { MatchResult result (λ _. IsTaskDone R.was_done terms.now has_record task) IsLost }
{
    if task == PlanTask::Nothing {
        return Ok(());
    }
    if let (PlanTask::Write, Terms::New(plan) | Terms::Kept(plan)) = (task, terms) {
        return write_kept(rt, tape, plan, has_record);
    }
    let name = BesideName::of(rt.alloc(), tape)?;
    if task == PlanTask::Mark {
        rt.set_mark(&name)?;
    } else {
        rt.sync_beside(&name)?;
    }
    rt.keep_name(tape)?;
    Ok(())
}
