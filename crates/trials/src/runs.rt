//! Runs whose events are values.
use crate::texts::{EVENTS, REPLIES, graph_of_behind};
use depgraph::{Graph, OutOfMemory};
use event_text::EventReader;
use grid::Cell;
use model::Held;
use runner::{
    CompleteFault, Event, Reply, Runner, Version, read_events, read_events_any, run, run_with,
    write_replies,
};
use std::alloc::Global;
use text_io::{Counted, Source};

/// Whether this is the text of these replies.
fn have_text(alloc: Global, replies: &[Reply], text: &str) -> Result<bool, OutOfMemory> {
    let mut out = Vec::with_capacity(alloc, 512)?;
    let is_written = write_replies(replies, &mut Counted::new(&mut out)).is_ok();
    Ok(is_written && out.as_slice() == text.as_bytes())
}

/// The same events at version 2: agent 0 tells what it knows.
const TOLD: &str =
    "moving 2 0\narrived 2 0\nsaid 0 46020000000000070001000000000001\nheard 0 1\nmoving 1 0\n";

/// Whether events are answered so at both versions.
fn are_answered(alloc: Global, graph: &Graph, events: &[Event]) -> Result<bool, OutOfMemory> {
    let replies = run(alloc, graph, events)?;
    let told = run_with(alloc, graph, Version::Two, events)?;
    Ok(have_text(alloc, &replies, REPLIES)? && have_text(alloc, &told, TOLD)?)
}

/// Whether agent 1 holds both cells behind all events, and only has to end its move then.
fn is_to_finish(alloc: Global, graph: &Graph, events: &[Event]) -> Result<bool, OutOfMemory> {
    let mut runner = Runner::new(alloc, graph)?;
    for event in events {
        let _ = runner.step(*event)?;
    }
    let held = Held::Between(Cell { x: 0, y: 0 }, Cell { x: 1, y: 0 });
    match runner.complete() {
        Err(CompleteFault::OutOfMemory) => Err(OutOfMemory),
        Err(_) => Ok(false),
        Ok(rest) => Ok(
            runner.held(1) == Some(held) && rest.as_slice() == [Event::Finish(1)].as_slice(),
        ),
    }
}

/// Whether the first event of a text is this one, read by itself.
fn begins_with(text: &str, event: Event) -> bool {
    let mut reader = Counted::new(text.as_bytes());
    let mut source = Source::new(&mut reader);
    EventReader::new().next_event(&mut source) == Ok(Some(event))
}

fn events_of(alloc: Global, text: &str) -> Result<Vec<Event>, OutOfMemory> {
    read_events(alloc, &mut Counted::new(text.as_bytes())).map_err(|_| OutOfMemory)
}

/// Whether these are the events of a text of either version.
fn are_same(alloc: Global, text: &str, events: &[Event]) -> Result<bool, OutOfMemory> {
    match read_events_any(alloc, &mut Counted::new(text.as_bytes())) {
        Ok((version, same)) => Ok(version == Version::One && same.as_slice() == events),
        Err(_) => Err(OutOfMemory),
    }
}

fn are_right(alloc: Global) -> Result<bool, OutOfMemory> {
    let graph = graph_of_behind(alloc)?;
    let events = events_of(alloc, EVENTS)?;
    let are_read = are_same(alloc, EVENTS, &events)? && begins_with(EVENTS, Event::Start(0));
    let are_run = are_answered(alloc, &graph, &events)? && is_to_finish(alloc, &graph, &events)?;
    Ok(are_read && are_run)
}

#[test]
fn runs_of_events(rt: HostRuntime) {
    let mut found = are_right(rt.alloc());
    if found.is_err() {
        found = are_right(rt.alloc());
    }
    assert!(rt; found == Ok(true));
}
