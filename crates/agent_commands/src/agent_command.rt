//! `mapf agent`: answers for one agent of a plan, by its tape.
ghost use Rattle.std.specs.Prelude.{◌≡◌, is_some, IfSome};
ghost use Rattle.model.specs.Plan.{Plan};
ghost use Rattle.model.specs.Timetable.{Timetable};
ghost use Rattle.depgraph.specs.AgentParts.{IsPartOf};
ghost use Rattle.ending.specs.Ending.{EndsAndTells, end_of};
ghost use Rattle.agent_commands.specs.AgentCommand.{AnswersAgent, Converses, Serves, heeds};
ghost use Rattle.agent_commands.specs.Code.Plans.{IsTermsFor, claim_of};

use crate::agent_fault::AgentFault;
use crate::agent_files::AgentFiles;
use crate::agent_part::{PartAndTerms, read_part_and_terms};
use crate::opening::open_agent;
use agent::OpenFault;
use depgraph::{OwnPart, Part};
use ending::{Ending, Status, conclude};
use robot::{TalkFault, Talker, talk};
use std::io::{Read, Write};
use tape_claim::TapeClaim;
use text_io::Counted;

/// As `perform` on any tape, with a fault's line on `err`. The answer is the exit status, which
/// stays where `err` fails.
pub fn agent_cmd<R: AgentFiles + AllocGlobal, M: Read, P: Read, I: Read, W: Write, E: Write>(
    rt: &R,
    map: &mut Counted<M>,
    plan: &mut Counted<P>,
    id: u16,
    path: &str,
    input: &mut Counted<I>,
    out: &mut Counted<W>,
    err: &mut Counted<E>,
) -> u8
    ensures { EndsAndTells
        (AnswersAgent R.Tape.remaining R.was_done M.remaining P.remaining I.remaining W.contents
        TapeClaim.Any id map.old map.new plan.old plan.new
        input.old input.new out.old out.new) E.contents err.old err.new result }
{
    let seat = Seat {
        id,
        path,
        claim: TapeClaim::Any,
    };
    conclude(perform(rt, map, plan, seat, input, out), err)
}

/// An agent by its number, with the path of its tape's file and what is claimed of that.
#[derive(Clone, Copy, Debug)]
pub struct Seat<'a> {
    pub id: u16,
    pub path: &'a str,
    pub claim: TapeClaim,
}

/// Reads a map from `map` and a plan from `plan`, checks the plan on the map, and opens the tape
/// file of the agent. Then it answers the lines of `input` on `out`, each before the next is waited
/// for. The tape file is not touched before the plan is known to have the agent. It is held until
/// the end, and no other process may hold it. A new one was made, and synced with its folder,
/// before the first answer is out; a file that has a whole record is refused. Of one that was kept
/// no file is made. Beside a new one, and one that was kept, a file has the plan at hand by then; a
/// kept one is refused where the plan that was kept neither is it, nor goes on from it or before
/// it.
pub fn perform<R: AgentFiles + AllocGlobal, M: Read, P: Read, I: Read, W: Write>(
    rt: &R,
    map: &mut Counted<M>,
    plan: &mut Counted<P>,
    seat: Seat<'_>,
    input: &mut Counted<I>,
    out: &mut Counted<W>,
) -> Ending
    ensures { AnswersAgent R.Tape.remaining R.was_done M.remaining P.remaining I.remaining
        W.contents
        seat.entry.claim seat.entry.id map.old map.new
        plan.old plan.new input.old input.new out.old out.new (end_of result) }
{
    match serve(rt, map, plan, seat, input, out) {
        Ok(()) => Ending::answered_with(Status::Done),
        // The last answer said it.
        Err(AgentFault::Dialogue(TalkFault::StoreFailed | TalkFault::StaleTape)) => {
            Ending::answered_with(Status::Failure)
        }
        Err(fault) => Ending::gave_up(fault.words()).because(fault.cause()),
    }
}

/// Reads the map and the plan, and answers for the agent, by its part of the plan alone.
fn serve<R: AgentFiles + AllocGlobal, M: Read, P: Read, I: Read, W: Write>(
    rt: &R,
    map: &mut Counted<M>,
    plan: &mut Counted<P>,
    seat: Seat<'_>,
    input: &mut Counted<I>,
    out: &mut Counted<W>,
) -> Result<(), AgentFault>
    ensures { Serves R.Tape.remaining R.was_done M.remaining P.remaining I.remaining W.contents
        seat.entry.claim seat.entry.id map.old map.new plan.old plan.new input.old input.new
        out.old out.new
        result }
{
    let Some(found) = read_part_and_terms(rt.alloc(), map, plan, seat.id, seat.claim)? else {
        return Err(AgentFault::Tape(OpenFault::NoSuchAgent));
    };
    converse(rt, found, seat.path, input, out)
}

/// Answers for an agent. The plan at hand is gone before the first answer.
fn converse<R: AgentFiles + AllocGlobal, I: Read, W: Write>(
    rt: &R,
    found: PartAndTerms,
    path: &str,
    input: &mut Counted<I>,
    out: &mut Counted<W>,
) -> Result<(), AgentFault>
    ensures { (p : Plan) → IsTermsFor (claim_of found.terms) p found.terms → (tt : Timetable)
        → IsPartOf tt found.own
        → Converses R.Tape.remaining R.was_done I.remaining W.contents (claim_of found.terms) p tt
        found.own.agent input.old input.new out.old out.new result }
{
    let PartAndTerms { own, terms } = found;
    let heeded = heeded_part(&own, terms.claim());
    let agent = open_agent(rt, own.part(), path, terms)?;
    talk(rt.alloc(), &mut Talker { agent, heeded }, input, out)?;
    Ok(())
}

/// The part of an agent whose tape was kept: what others say of it is heeded.
fn heeded_part<'g>(own: &'g OwnPart, claim: TapeClaim) -> Option<Part<'g>>
    ensures part { IfSome result (λ part. part ≡ own.now) }
    ensures heeds { is_some result ≡ heeds claim }
{
    match claim {
        TapeClaim::Kept => Some(own.part()),
        TapeClaim::Any | TapeClaim::New => None,
    }
}
