//! The names of `runner`.
use agent::Held;
use depgraph::{Graph, OutOfMemory};
use grid::{Counted, WriteFault};
use runner::{
    CompleteFault, Event, EventFault, Reply, RunFault, Runner, SimTape, Version, read_events,
    read_events_any, run, run_text, write_replies,
};
use std::alloc::Global;
use std::io::{Read, Write};

pub fn begun<'g>(alloc: Global, graph: &'g Graph) -> Result<Runner<'g>, OutOfMemory> {
    Runner::new(alloc, graph)
}

pub fn stepped(runner: &mut Runner<'_>, event: Event) -> Result<Reply, OutOfMemory> {
    runner.step(event)
}

pub fn held_by(runner: &Runner<'_>, agent: u32) -> Option<Held> {
    runner.held(agent)
}

pub fn completed(runner: &Runner<'_>) -> Result<Vec<Event>, CompleteFault> {
    runner.complete()
}

pub fn simulated_tape(alloc: Global, room: u32) -> Result<SimTape, OutOfMemory> {
    SimTape::new(alloc, room)
}

pub fn all_replies(
    alloc: Global,
    graph: &Graph,
    events: &[Event],
) -> Result<Vec<Reply>, OutOfMemory> {
    run(alloc, graph, events)
}

pub fn events_of<R: Read>(
    alloc: Global,
    reader: &mut Counted<R>,
) -> Result<Vec<Event>, EventFault> {
    read_events(alloc, reader)
}

pub fn version_and_events<R: Read>(
    alloc: Global,
    reader: &mut Counted<R>,
) -> Result<(Version, Vec<Event>), EventFault> {
    read_events_any(alloc, reader)
}

pub fn write_all<W: Write>(replies: &[Reply], writer: &mut Counted<W>) -> Result<(), WriteFault> {
    write_replies(replies, writer)
}

pub fn replies_of_texts<M: Read, P: Read, E: Read, W: Write>(
    alloc: Global,
    map: &mut Counted<M>,
    plan: &mut Counted<P>,
    events: &mut Counted<E>,
    out: &mut Counted<W>,
) -> Result<(), RunFault> {
    run_text(alloc, map, plan, events, out)
}
