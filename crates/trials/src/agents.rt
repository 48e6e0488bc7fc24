//! Agents over tapes in memory.
ghost use Rattle.std.specs.Prelude.{◌≡◌, None};

use crate::texts::graph_of_behind;
use agent::{Agent, HearFault, Held, MemTape, Refusal, Tape};
use depgraph::{Graph, OutOfMemory};
use grid::Cell;
use robot::{TalkFault, Talker, talk};
use runner::SimTape;
use std::alloc::Global;
use text_io::Counted;

const RIGHT: Cell = Cell { x: 2, y: 0 };

/// Whether an agent whose first record is torn makes its move when it has opened its tape again.
fn moves(agent: &mut Agent<'_, SimTape>) -> bool {
    agent.arm(Some(4));
    let is_torn = agent.start() == Err(Refusal::StoreFailed) && agent.is_broken();
    let is_open = is_torn
        && agent.restart().is_ok()
        && agent.held() == Held::At(Cell { x: 1, y: 0 });
    is_open && agent.start() == Ok(RIGHT) && agent.finish() == Ok(RIGHT) && agent.done() == 1
}

/// The same of agent 0 over a tape in memory, and whether the tape has two records then.
fn is_torn_and_moves(alloc: Global, graph: &Graph) -> Result<bool, OutOfMemory> {
    let tape = SimTape::new(alloc, 20)?;
    let Ok(mut agent) = Agent::open(alloc, graph, 0, tape) else {
        return Ok(false);
    };
    let has_moved = moves(&mut agent);
    let tape = agent.into_tape();
    Ok(has_moved && tape.len() == 20 && tape.failures() == 1)
}

/// What agent 1 is asked, and its answers.
const ASKED: &[u8] = b"start\nfinish\nsay\n";

const ANSWERED: &[u8] = b"at 0 0 done 0\nmoving 1 0\narrived 1 0\nsaid 460100010000000700000001\n";

/// Whether a dialogue with an agent writes these answers.
fn answers(
    alloc: Global,
    talker: &mut Talker<'_, MemTape>,
    out: &mut Vec<u8>,
) -> Result<bool, TalkFault>
    requires { talker.old.heeded ≡ None }
{
    talk(
        alloc,
        talker,
        &mut Counted::new(ASKED),
        &mut Counted::new(&mut *out),
    )?;
    Ok(out.as_slice() == ANSWERED)
}

/// Whether agent 1 answers so over a tape in memory, behind a message of agent 0.
fn hears_and_answers(alloc: Global, graph: &Graph) -> Result<bool, OutOfMemory> {
    let mut out = Vec::with_capacity(alloc, 512)?;
    let tape = MemTape::new(alloc, 20)?;
    let Ok(mut agent) = Agent::open(alloc, graph, 1, tape) else {
        return Ok(false);
    };
    let heard = agent.hear(&[0x46, 1, 0, 0, 0, 0, 0, 7, 0, 0, 0, 1]);
    if heard == Err(HearFault::OutOfMemory) {
        return Err(OutOfMemory);
    }
    let mut talker = Talker {
        agent,
        heeded: None,
    };
    match answers(alloc, &mut talker, &mut out) {
        Err(TalkFault::OutOfMemory) => Err(OutOfMemory),
        answered => Ok(heard == Ok((0, 1)) && answered == Ok(true)),
    }
}

fn are_right(alloc: Global) -> Result<bool, OutOfMemory> {
    let graph = graph_of_behind(alloc)?;
    Ok(is_torn_and_moves(alloc, &graph)? && hears_and_answers(alloc, &graph)?)
}

#[test]
fn agents_over_tapes_in_memory(rt: HostRuntime) {
    let mut found = are_right(rt.alloc());
    if found.is_err() {
        found = are_right(rt.alloc());
    }
    assert!(rt; found == Ok(true));
}
