//! Tapes each of which has to be right.
ghost use Rattle.std.specs.Prelude.{◌≡◌, ◌≤◌, [], length, IfErr, IfOk, MatchOption};
ghost use Rattle.fleet_commands.specs.FoundTapes.{AreWithinMoves};
ghost use Rattle.fleet_commands.specs.HandoverCommand.{AreAllKnown, AreReadAs};
ghost use Rattle.fleet_commands.specs.HandoverCommand.{IsFirstUnknown, is_unknown};
ghost use Rattle.fleet_commands.specs.LeftPlan.{is_left_out};
ghost use Rattle.fleet_commands.specs.Code.Reading.{IsHeldToOneRun, IsNotKnownBy};

use crate::found_tapes::{is_known, read_tapes};
use crate::handover_fault::HandoverFault;
use crate::one_run::push_run_lines;
use agent_commands::{AgentFault, ReadFiles};
use depgraph::Dependencies;
use std::alloc::Global;

/// Reads the tapes of all agents. But for that of an agent that is left out each has to be right,
/// and nothing may show that they are not those of one run.
pub(crate) fn read_known<R: ReadFiles + AllocGlobal>(
    rt: &R,
    dependencies: &Dependencies,
    tapes: &str,
    without: Option<u16>,
) -> Result<Vec<Result<u32, AgentFault>>, HandoverFault>
    ensures known { IfOk result
        (λ found. AreReadAs R.was_done dependencies.now without found.items []) }
    ensures fault { IfErr result (IsNotKnownBy R.was_done dependencies.now without) }
    ensures within { IfOk result (λ found. AreWithinMoves dependencies.now found.items) }
{
    let found = read_tapes(rt, dependencies, tapes)?;
    // There are few enough for their numbers.
    let _agents = dependencies.agents();
    if let Some(agent) = first_unknown(&found, without) {
        return Err(HandoverFault::BadTape(agent));
    }
    hold_one_run(rt.alloc(), dependencies, &found, without)?;
    Ok(found)
}

/// Refuses tapes of which something shows that they are not those of one run, but for that of an
/// agent that is left out.
pub(crate) fn hold_one_run(
    alloc: Global,
    dependencies: &Dependencies,
    found: &[Result<u32, AgentFault>],
    without: Option<u16>,
) -> Result<(), HandoverFault>
    requires { AreWithinMoves dependencies.now found.now }
    ensures { IsHeldToOneRun dependencies.now without found.now result }
{
    let rotations = dependencies.rotations();
    let mut lines = Vec::new(alloc);
    push_run_lines(&mut lines, dependencies, rotations, found, without)?;
    if lines.is_empty() {
        Ok(())
    } else {
        Err(HandoverFault::NotOneRun)
    }
}

/// The first agent that is not opened on its tape, but for one that is left out.
fn first_unknown(found: &[Result<u32, AgentFault>], without: Option<u16>) -> Option<u16>
    requires { length found.now ≤ 65535 }
    ensures { MatchOption result (AreAllKnown without found.now)
        (IsFirstUnknown without found.now) }
{
    for agent in 0..found.len() {
        if is_unknown(found, without, agent as u16) {
            return Some(agent as u16);
        }
    }
    None
}

fn is_unknown(found: &[Result<u32, AgentFault>], without: Option<u16>, agent: u16) -> bool
    ensures { result ≡ is_unknown without found.now agent }
{
    !is_left_out(without, agent) && !is_known(found, agent)
}

/// Whether an agent is left out.
pub(crate) fn is_left_out(without: Option<u16>, agent: u16) -> bool
    ensures { result ≡ is_left_out without agent }
{
    without == Some(agent)
}
