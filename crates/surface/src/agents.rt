//! The names of `agent`.
ghost use Rattle.std.specs.Prelude.{◌≤◌, IfSome};

use agent::{
    Agent, Finished, HearFault, Held, MemTape, MsgFault, OpenFault, Refusal, Scripted, Tape,
    TapeMakeFault, decode, encode,
};
use depgraph::{Graph, OutOfMemory};
use grid::Cell;
use std::alloc::Global;

/// The bytes of a message, and what they are read as.
pub fn letter(from: u16, plan: u32, done: u32) -> Result<Finished, MsgFault> {
    decode(&encode(Finished { from, plan, done }))
}

pub fn tape_of(alloc: Global, room: u32) -> Result<MemTape, OutOfMemory> {
    MemTape::new(alloc, room)
}

pub fn tape_with(alloc: Global, bytes: &[u8], room: u32) -> Result<MemTape, TapeMakeFault> {
    MemTape::from_bytes(alloc, bytes, room)
}

pub fn opened<T: Tape>(
    alloc: Global,
    graph: &Graph,
    id: u16,
    tape: T,
) -> Result<Agent<'_, T>, (OpenFault, T)> {
    Agent::open(alloc, graph, id, tape)
}

pub fn requests<T: Tape>(
    agent: &mut Agent<'_, T>,
) -> (Result<Cell, Refusal>, Result<Cell, Refusal>) {
    (agent.start(), agent.finish())
}

pub fn heard_by<T: Tape>(
    agent: &mut Agent<'_, T>,
    bytes: &[u8],
) -> (Result<(u16, u32), HearFault>, Result<[u8; 12], Refusal>) {
    (agent.hear(bytes), agent.say())
}

pub fn answers_of<T: Tape>(agent: &Agent<'_, T>, other: u16) -> (Option<u32>, Held, u32) {
    (agent.known(other), agent.held(), agent.done())
}

pub fn arms<T: Scripted>(agent: &mut Agent<'_, T>, tear: Option<u8>)
    requires { IfSome tear (λ n. n ≤ 10) }
{
    agent.arm(tear);
}

pub fn taken_back<T: Tape>(agent: Agent<'_, T>) -> T {
    agent.into_tape()
}
