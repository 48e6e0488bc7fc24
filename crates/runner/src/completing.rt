//! Replaying runs that are given as texts, and saying how they end.
ghost use Rattle.std.specs.Prelude.{◌≡◌, [], ◌∷◌, ◌++◌, OnOk, OnErr};
ghost use Rattle.text_io.specs.Lines.{HasTaken};
ghost use Rattle.text_io.specs.Sink.{held_back, sink_writer, Puts, Breaks};
ghost use Rattle.text_io.specs.Source.{source_reader};
ghost use Rattle.text_io.specs.Text.{line_feed};
ghost use Rattle.model.specs.History.{History};
ghost use Rattle.executor.specs.Standing.{StandsAt};
ghost use Rattle.runner.specs.Completing.{numbered_line, completion_text, blocked_text};
ghost use Rattle.runner.specs.Completing.{CompletesEvents, Completes, CompletesText};
ghost use Rattle.runner.specs.Code.Ending.{PutsEnding};

use crate::replaying::{hand_on, run_events};
use crate::{Completion, RunFault};
use depgraph::Dependencies;
use event_text::put_event;
use executor::{CompleteFault, Runner};
use model::Event;
use planned::read_dependencies;
use std::alloc::Global;
use std::io::{Read, Write};
use text_io::{Counted, PIECE, Sink, Source, WriteFault};

/// Does what `run_text` does, and where that comes to the end of the events then says how their run
/// ends: it puts into the output how many events bring every agent to its end and the line of each,
/// or the number of the rotation that keeps agents from their ends. At a fault nothing of this is
/// put, unless it is the writer's. The output is not flushed.
pub fn complete_text<M: Read, P: Read, E: Read, W: Write>(
    alloc: Global,
    map: &mut Counted<M>,
    plan: &mut Counted<P>,
    events: &mut Counted<E>,
    out: &mut Counted<W>,
) -> Result<Completion, RunFault>
    ensures { CompletesText M.remaining P.remaining E.remaining W.contents map.old map.new plan.old
        plan.new events.old events.new out.old out.new result }
{
    let graph = read_dependencies(alloc, map, plan)?;
    complete(alloc, &graph, events, out)
}

/// Answers the events on the graph, and says how their run ends.
// Compiled by itself, for its room on the stack.
#[inline(never)]
fn complete<E: Read, W: Write>(
    alloc: Global,
    graph: &Dependencies,
    events: &mut Counted<E>,
    out: &mut Counted<W>,
) -> Result<Completion, RunFault>
    ensures { Completes E.remaining W.contents graph.now events.old events.new out.old
        out.new result }
{
    let mut source = Source::new(events);
    let mut sink = Sink::new(out);
    complete_all(alloc, graph, &mut source, &mut sink)
}

/// Answers the events, says how their run ends, and hands on all of it.
fn complete_all<E: Read, W: Write>(
    alloc: Global,
    graph: &Dependencies,
    source: &mut Source<'_, E, PIECE>,
    sink: &mut Sink<'_, W>,
) -> Result<Completion, RunFault>
    requires none_taken { HasTaken E.remaining (source_reader source.old) source.old [] }
    requires none_held { held_back sink.old ≡ [] }
    ensures same_reader { source.new.reader.ghost_name ≡ source.old.reader.ghost_name }
    ensures same_writer { sink.new.writer.ghost_name ≡ sink.old.writer.ghost_name }
    ensures completes { Completes E.remaining W.contents graph.now (source_reader source.old)
        (source_reader source.new) (sink_writer sink.old) (sink_writer sink.new) result }
{
    let answer = complete_events(alloc, graph, source, sink);
    hand_on(answer, sink)
}

/// Answers one event after another, by the version of their header, and then says how their run
/// ends.
fn complete_events<E: Read, W: Write>(
    alloc: Global,
    graph: &Dependencies,
    source: &mut Source<'_, E, PIECE>,
    sink: &mut Sink<'_, W>,
) -> Result<Completion, RunFault>
    requires { HasTaken E.remaining (source_reader source.old) source.old [] }
    ensures same_reader { source.new.reader.ghost_name ≡ source.old.reader.ghost_name }
    ensures same_writer { sink.new.writer.ghost_name ≡ sink.old.writer.ghost_name }
    ensures completes { CompletesEvents E.remaining graph.now (source_reader source.old)
        (source_reader source.new)
        (Puts W.contents sink.old sink.new) (Breaks W.contents sink.old sink.new) result }
{
    let runner = run_events(alloc, graph, source, sink)?;
    put_ending(sink, &runner)
}

/// Puts how the runner's run ends.
fn put_ending<W: Write>(sink: &mut Sink<'_, W>, runner: &Runner<'_>) -> Result<Completion, RunFault>
    ensures same_writer { sink.new.writer.ghost_name ≡ sink.old.writer.ghost_name }
    ensures ending { (h : History) → StandsAt runner.now h
        → PutsEnding runner.now.version runner.now.timetable h
        (Puts W.contents sink.old sink.new) (Breaks W.contents sink.old sink.new) result }
{
    match runner.complete() {
        Ok(events) => {
            put_completion(sink, &events)?;
            Ok(Completion::Ends)
        }
        Err(CompleteFault::Rotation(number)) => {
            put_blocked(sink, number)?;
            Ok(Completion::Blocked(number))
        }
        Err(CompleteFault::OutOfMemory) => Err(RunFault::OutOfMemory),
    }
}

/// Puts how many events there are, and the line of each.
fn put_completion<W: Write>(sink: &mut Sink<'_, W>, events: &[Event]) -> Result<(), WriteFault>
    ensures ok { OnOk result (Puts W.contents sink.old sink.new (completion_text events.now)) }
    ensures err { OnErr result (Breaks W.contents sink.old sink.new (completion_text events.now)) }
{
    put_numbered(sink, b"complete", events.len() as u64)?;
    for event in events {
        put_event(sink, event)?;
    }
    Ok(())
}

/// Puts the number of a rotation.
fn put_blocked<W: Write>(sink: &mut Sink<'_, W>, number: u32) -> Result<(), WriteFault>
    ensures ok { OnOk result (Puts W.contents sink.old sink.new (blocked_text number)) }
    ensures err { OnErr result (Breaks W.contents sink.old sink.new (blocked_text number)) }
{
    put_numbered(sink, b"blocked", u64::from(number))
}

/// Puts the line of a word and a number, and its LF.
fn put_numbered<W: Write>(
    sink: &mut Sink<'_, W>,
    word: &[u8],
    number: u64,
) -> Result<(), WriteFault>
    ensures ok { OnOk result
        (Puts W.contents sink.old sink.new (numbered_line word.now number ++ line_feed ∷ [])) }
    ensures err { OnErr result
        (Breaks W.contents sink.old sink.new (numbered_line word.now number ++ line_feed ∷ [])) }
{
    sink.put(word)?;
    sink.put_number_after(b' ', number)?;
    sink.put_byte(b'\n')
}
