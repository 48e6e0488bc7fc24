//! Replaying runs that are given as texts.
ghost use Rattle.std.specs.Prelude.{◌≡◌, []};
ghost use Rattle.text_io.specs.Lines.{HasTaken};
ghost use Rattle.text_io.specs.Sink.{held_back, sink_writer, Puts, Breaks};
ghost use Rattle.text_io.specs.Source.{source_reader};
ghost use Rattle.runner.specs.Replaying.{AnswersEvents, Replays, RunsText, was_written};
ghost use Rattle.runner.specs.Code.HandingOn.{IsHandedOn};
ghost use Rattle.runner.specs.Code.Standing.{AnswersBy};

use crate::RunFault;
use depgraph::Dependencies;
use event_text::{EventReader, put_reply};
use executor::Runner;
use planned::read_dependencies;
use std::alloc::Global;
use std::io::{Read, Write};
use text_io::{Counted, PIECE, Sink, Source};

/// Reads a map and then a plan, checks the plan on the map, and then answers one event after
/// another, by the version of the events' header: the reply to each is put into the output before
/// the next line of the events is looked at. All replies so far are in the output when a fault is
/// answered. The output is not flushed.
pub fn run_text<M: Read, P: Read, E: Read, W: Write>(
    alloc: Global,
    map: &mut Counted<M>,
    plan: &mut Counted<P>,
    events: &mut Counted<E>,
    out: &mut Counted<W>,
) -> Result<(), RunFault>
    ensures { RunsText M.remaining P.remaining E.remaining W.contents map.old map.new plan.old
        plan.new events.old events.new out.old out.new result }
{
    let graph = read_dependencies(alloc, map, plan)?;
    replay(alloc, &graph, events, out)
}

/// Answers the events on the graph.
// Compiled by itself, for its room on the stack.
#[inline(never)]
fn replay<E: Read, W: Write>(
    alloc: Global,
    graph: &Dependencies,
    events: &mut Counted<E>,
    out: &mut Counted<W>,
) -> Result<(), RunFault>
    ensures { Replays E.remaining W.contents graph.now events.old events.new out.old
        out.new result }
{
    let mut source = Source::new(events);
    let mut sink = Sink::new(out);
    answer_all(alloc, graph, &mut source, &mut sink)
}

/// Answers the events, and hands on all replies.
fn answer_all<E: Read, W: Write>(
    alloc: Global,
    graph: &Dependencies,
    source: &mut Source<'_, E, PIECE>,
    sink: &mut Sink<'_, W>,
) -> Result<(), RunFault>
    requires none_taken { HasTaken E.remaining (source_reader source.old) source.old [] }
    requires none_held { held_back sink.old ≡ [] }
    ensures same_reader { source.new.reader.ghost_name ≡ source.old.reader.ghost_name }
    ensures same_writer { sink.new.writer.ghost_name ≡ sink.old.writer.ghost_name }
    ensures answers { Replays E.remaining W.contents graph.now (source_reader source.old)
        (source_reader source.new) (sink_writer sink.old) (sink_writer sink.new) result }
{
    let answer = answer_events(alloc, graph, source, sink);
    hand_on(answer, sink)
}

/// Hands on what was put, unless it could not be written before.
pub(crate) fn hand_on<T: Copy, W: Write>(
    answer: Result<T, RunFault>,
    sink: &mut Sink<'_, W>,
) -> Result<T, RunFault>
    ensures same_writer { sink.new.writer.ghost_name ≡ sink.old.writer.ghost_name }
    ensures handed { IsHandedOn W.contents (was_written answer) sink.old sink.new answer result }
{
    if was_written(&answer) {
        sink.hand_on()?;
    }
    answer
}

/// Whether no write failed.
pub fn was_written<T>(answer: &Result<T, RunFault>) -> bool
    ensures { result ≡ was_written answer.now }
{
    !matches!(answer, Err(RunFault::WriteFailed))
}

/// Answers one event after another, by the version of their header.
fn answer_events<E: Read, W: Write>(
    alloc: Global,
    graph: &Dependencies,
    source: &mut Source<'_, E, PIECE>,
    sink: &mut Sink<'_, W>,
) -> Result<(), RunFault>
    requires { HasTaken E.remaining (source_reader source.old) source.old [] }
    ensures same_reader { source.new.reader.ghost_name ≡ source.old.reader.ghost_name }
    ensures same_writer { sink.new.writer.ghost_name ≡ sink.old.writer.ghost_name }
    ensures answers { AnswersEvents E.remaining graph.now (source_reader source.old)
        (source_reader source.new)
        (Puts W.contents sink.old sink.new) (Breaks W.contents sink.old sink.new) result }
{
    let _runner = run_events(alloc, graph, source, sink)?;
    Ok(())
}

/// Answers one event after another, and gives back the runner that answered all.
pub(crate) fn run_events<'g, E: Read, W: Write>(
    alloc: Global,
    graph: &'g Dependencies,
    source: &mut Source<'_, E, PIECE>,
    sink: &mut Sink<'_, W>,
) -> Result<Runner<'g>, RunFault>
    requires { HasTaken E.remaining (source_reader source.old) source.old [] }
    ensures same_reader { source.new.reader.ghost_name ≡ source.old.reader.ghost_name }
    ensures same_writer { sink.new.writer.ghost_name ≡ sink.old.writer.ghost_name }
    ensures answers { AnswersBy E.remaining graph.now (source_reader source.old)
        (source_reader source.new)
        (Puts W.contents sink.old sink.new) (Breaks W.contents sink.old sink.new) result }
{
    model::laws::every_run_is_safe();
    model::laws::rotations_never_begin();
    event_text::laws::none_read::<E, PIECE>();
    let mut reader = EventReader::any();
    let version = reader.version(source)?;
    let mut runner = Runner::over(alloc, graph, version)?;
    'events: while let Some(event) = reader.next_event(source)? {
        let reply = runner.step(event)?;
        put_reply(sink, &reply)?;
        runner.take_back(reply);
    }
    Ok(runner)
}
