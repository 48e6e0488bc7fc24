//! The file beside a tape: which plan the tape belongs to, and whether a record was ever stored on
//! it.
ghost use Rattle.std.specs.Prelude.{◌≡◌, IfErr, IfOk, MatchResult};
ghost use Rattle.std.specs.Io.KnownBytes.{Appends};
ghost use Rattle.text_io.specs.Counted.{counted_inner};
ghost use Rattle.agent_commands.specs.KeptPlan.{IsKeptIn, IsPlanPut, kept_text};
ghost use Rattle.agent_commands.specs.Code.Parts.{IsLost};
ghost use Rattle.agent_commands.specs.Code.Plans.{IsNotRead, ReadsMark, blame_of};

use crate::agent_fault::AgentFault;
use crate::agent_files::AgentFiles;
use crate::beside_name::{BesideName, DraftName};
use crate::tape_report::read_up_to;
use plan_text::{Plan, PlanTextFault, read_plan, write_plan};
use robot::FileTapeFault;
use std::alloc::Global;
use std::io::{Read, Write};
use text_io::Counted;

/// The first line where a record was stored, and where none was. They differ in one byte.
const MARKED: [u8; 14] = *b"mapf-tape 1 +\n";

const UNMARKED: [u8; 14] = *b"mapf-tape 1 -\n";

/// The plan of a tape, and whether a record was ever stored on that.
#[derive(Drop)]
pub(crate) struct KeptPlan {
    pub(crate) plan: Plan,
    pub(crate) is_marked: bool,
}

/// Reads the whole file.
pub(crate) fn read_kept<F: Read>(
    alloc: Global,
    file: &mut Counted<F>,
) -> Result<KeptPlan, AgentFault>
    ensures { MatchResult result
        (λ kept. IsKeptIn (F.remaining (counted_inner file.old)) kept.is_marked kept.plan)
        (IsNotRead (F.remaining (counted_inner file.old))) }
{
    plan_text::laws::one_reading();
    let Some(is_marked) = read_mark(file)? else {
        return Err(AgentFault::PlanDamaged);
    };
    match read_plan(alloc, file) {
        Ok(plan) => Ok(KeptPlan { plan, is_marked }),
        Err(fault) => Err(blame_of(fault)),
    }
}

/// What is told where the plan behind the first line can't be read.
fn blame_of(fault: PlanTextFault) -> AgentFault
    ensures { result ≡ blame_of fault }
{
    match fault {
        PlanTextFault::BadHeader(_)
        | PlanTextFault::BadNumber(_)
        | PlanTextFault::TooMany(_)
        | PlanTextFault::BadAgent(_)
        | PlanTextFault::BadAct(..)
        | PlanTextFault::Unfinished(_)
        | PlanTextFault::TextAfter(_) => AgentFault::PlanDamaged,
        PlanTextFault::ReadFailed => AgentFault::File(FileTapeFault::TapeFailed),
        PlanTextFault::OutOfMemory => AgentFault::File(FileTapeFault::OutOfMemory),
    }
}

/// Reads whether the first line is marked; `None` where there is no such line.
pub(crate) fn read_mark<F: Read>(file: &mut Counted<F>) -> Result<Option<bool>, FileTapeFault>
    ensures ok { IfOk result
        (ReadsMark (F.remaining (counted_inner file.old)) (F.remaining (counted_inner file.new))) }
    ensures err { IfErr result (λ fault. fault ≡ FileTapeFault.TapeFailed) }
{
    let mut line = [0; 14];
    let len = read_up_to(file, &mut line)?;
    if len < line.len() {
        return Ok(None);
    }
    Ok(if line == MARKED {
        Some(true)
    } else if line == UNMARKED {
        Some(false)
    } else {
        None
    })
}

/// Writes the file whole under another name, syncs it, and gives it its own. What an earlier
/// program left under the other name is gone then.
pub(crate) fn write_kept<R: AgentFiles + AllocGlobal>(
    rt: &R,
    tape: &str,
    plan: &Plan,
    is_marked: bool,
) -> Result<(), FileTapeFault>
    ensures { MatchResult result (λ _. IsPlanPut R.was_done plan.now is_marked) IsLost }
{
    let name = BesideName::of(rt.alloc(), tape)?;
    let draft = DraftName::of(rt.alloc(), tape)?;
    let mut file = Counted::new(rt.make_draft(&draft)?);
    put_kept(&mut file, plan, is_marked)?;
    rt.put_draft(file, &draft, &name)?;
    rt.keep_name(tape)?;
    Ok(())
}

/// Writes the first line and the plan.
fn put_kept<F: Write>(
    file: &mut Counted<F>,
    plan: &Plan,
    is_marked: bool,
) -> Result<(), FileTapeFault>
    ensures { MatchResult result
        (λ _. Appends (F.contents (counted_inner file.old)) (F.contents (counted_inner file.new))
        (kept_text is_marked plan.now)) IsLost }
{
    file.write_all(if is_marked { &MARKED } else { &UNMARKED })?;
    match write_plan(plan, file) {
        Ok(()) => Ok(()),
        Err(_) => Err(FileTapeFault::TapeFailed),
    }
}
