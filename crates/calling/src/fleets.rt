//! Calling `fleet_commands`: how far a plan may be cut, by the tapes of a fleet.
ghost use Rattle.ending.specs.Ending.{end_of};
ghost use Rattle.fleet_commands.specs.HandoverCommand.{AnswersHandover};

use ending::Ending;
use fleet_commands::handover_command;
use mapf_cmd::ReadFiles;
use std::io::{Read, Write};
use text_io::Counted;

/// Writes the plan as far as its agents have begun it, by the tapes `0.tape`, `1.tape` and so on.
pub fn cut_as_begun<R: ReadFiles + AllocGlobal, M: Read, P: Read, W: Write>(
    rt: &R,
    map: &mut Counted<M>,
    plan: &mut Counted<P>,
    out: &mut Counted<W>,
) -> Ending
    ensures { AnswersHandover M.remaining P.remaining R.was_done W.contents map.old map.new
        plan.old plan.new out.old out.new (end_of result) }
{
    handover_command::perform(rt, map, plan, "%.tape", out)
}
