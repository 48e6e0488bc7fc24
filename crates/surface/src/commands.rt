//! The names of `mapf_cmd`.
ghost use Rattle.std.specs.Prelude.{◌≡◌, IfSome};

use agent::Tape;
use grid::Counted;
use mapf_cmd::{
    Asked, LineFault, TalkFault, Talker, Verdict, deps_cmd, line, map_cmd, scen_cmd, talk,
    verdict_json,
};
use std::alloc::{AllocError, Global};
use std::io::{Read, Write};

// These take more arguments than a function of ours should have.
pub use mapf_cmd::{agent_cmd, check_cmd, check_fit_cmd, row_cmd, run_cmd};

pub fn line_of(alloc: Global, words: &[String]) -> Result<Asked, LineFault> {
    line(alloc, words)
}

pub fn verdict_text(
    alloc: Global,
    agents: u32,
    cost: u64,
    makespan: u32,
) -> Result<String, AllocError> {
    let verdict = Verdict::Accepted {
        agents,
        cost,
        makespan,
    };
    verdict_json(alloc, &verdict)
}

pub fn dialogue<R: Read, W: Write, T: Tape>(
    alloc: Global,
    talker: &mut Talker<'_, T>,
    input: &mut Counted<R>,
    output: &mut Counted<W>,
) -> Result<(), TalkFault>
    requires { IfSome talker.old.heeded (λ p. p ≡ talker.old.agent.part) }
{
    talk(alloc, talker, input, output)
}

pub fn map_status<R: Read, W: Write, E: Write>(
    alloc: Global,
    map: &mut Counted<R>,
    out: &mut Counted<W>,
    err: &mut Counted<E>,
) -> u8 {
    map_cmd(alloc, map, out, err)
}

pub fn scen_status<R: Read, W: Write, E: Write>(
    alloc: Global,
    scen: &mut Counted<R>,
    out: &mut Counted<W>,
    err: &mut Counted<E>,
) -> u8 {
    scen_cmd(alloc, scen, out, err)
}

pub fn deps_status<M: Read, P: Read, W: Write, E: Write>(
    alloc: Global,
    map: &mut Counted<M>,
    plan: &mut Counted<P>,
    out: &mut Counted<W>,
    err: &mut Counted<E>,
) -> u8 {
    deps_cmd(alloc, map, plan, out, err)
}
