//! The dialogue with an agent.
ghost use Rattle.std.specs.Prelude.{◌≡◌, ◌≤◌, ◌*◌, ◌++◌, ℕ, List, []};
ghost use Rattle.std.specs.Prelude.{◌∷◌, Some, length, is_some, IfOk, IfSome};
ghost use Rattle.text_io.specs.Lines.{HasTaken};
ghost use Rattle.text_io.specs.Sink.{held_back, sink_writer};
ghost use Rattle.text_io.specs.Source.{source_reader};
ghost use Rattle.model.specs.Timetable.{Track, Timetable, track_of};
ghost use Rattle.depgraph.specs.AgentParts.{IsPartOf, IsOfGraph};
ghost use Rattle.agent.specs.Agents.{state_of};
ghost use Rattle.robot.specs.Requests.{longest_request};
ghost use Rattle.robot.specs.Dialogue.{BlamesTape, Leads, Talks};
ghost use Rattle.robot.specs.Code.Answering.{IsSameAgent, SaysState, Replies};
ghost use Rattle.robot.specs.Code.Reading.{IsLineKept};

use crate::TalkFault;
use crate::answering::{answer_kept, state_answer};
use crate::input_lines::{NextLine, next_line};
use crate::line_answer::send_answer;
use crate::request::LONGEST_LINE;
use agent::{Agent, Tape};
use depgraph::Part;
use std::alloc::{AllocError, Global};
use std::io::{Read, Write};
use text_io::{Counted, PIECE, Sink, Source, WriteFault};

/// An agent in a dialogue.
#[derive(Drop)]
pub struct Talker<'g, T: Tape> {
    pub agent: Agent<'g, T>,
    /// The agent's part, where its tape was kept: what others say of it is heeded.
    pub heeded: Option<Part<'g>>,
}

/// Leads a dialogue: first the line of the agent's state is written, and then each input line is
/// answered by one. Each of these lines has left the writer, flushed, before the next input line is
/// read. The dialogue ends with the input, or after the answer that a store failed, or that the
/// tape is an older one. Memory is taken before anything is read or written, and then only to hear
/// of agents not heard of before, and for what is told. What was answered is the agent's part of
/// what its fleet did: `fleet::laws` say what follows.
pub fn talk<R: Read, W: Write, T: Tape>(
    alloc: Global,
    talker: &mut Talker<'_, T>,
    input: &mut Counted<R>,
    output: &mut Counted<W>,
) -> Result<(), TalkFault>
    requires { IfSome talker.old.heeded (λ p. p ≡ talker.old.agent.part) }
    ensures heeded { talker.new.heeded ≡ talker.old.heeded }
    ensures talks { (tt : Timetable) → IsPartOf tt talker.old.agent.part
        → Talks R.remaining W.contents T.state (is_some talker.old.heeded) tt input.old input.new
        output.old output.new talker.old.agent talker.new.agent result }
{
    let mut line = room(alloc, LONGEST_LINE)?;
    let mut message = room(alloc, LONGEST_LINE / 2)?;
    talk_with_room(talker, input, output, &mut line, &mut message)
}

/// Room for so many bytes.
fn room(alloc: Global, count: usize) -> Result<Vec<u8>, AllocError>
    ensures { IfOk result (λ bytes. length bytes.items ≡ count) }
{
    vec![in alloc; 0u8; count]
}

/// Leads a dialogue, with room for a line and for a message.
// Compiled by itself, for its room on the stack.
#[inline(never)]
fn talk_with_room<R: Read, W: Write, T: Tape>(
    talker: &mut Talker<'_, T>,
    input: &mut Counted<R>,
    output: &mut Counted<W>,
    line: &mut [u8],
    message: &mut [u8],
) -> Result<(), TalkFault>
    requires long { length line.old ≡ longest_request }
    requires has_room { longest_request ≤ 2 * length message.old }
    requires own { IfSome talker.old.heeded (λ p. p ≡ talker.old.agent.part) }
    ensures heeded { talker.new.heeded ≡ talker.old.heeded }
    ensures leads { (tt : Timetable) → IsPartOf tt talker.old.agent.part
        → Leads R.remaining W.contents T.state (is_some talker.old.heeded) tt input.old input.new
        output.old output.new talker.old.agent talker.new.agent result }
{
    let mut source = Source::new(input);
    let mut sink = Sink::new(output);
    lead(talker, &mut source, &mut sink, line, message)
}

/// Leads a dialogue over a source and a sink of which nothing was taken or put.
fn lead<R: Read, W: Write, T: Tape>(
    talker: &mut Talker<'_, T>,
    source: &mut Source<'_, R, PIECE>,
    sink: &mut Sink<'_, W>,
    line: &mut [u8],
    message: &mut [u8],
) -> Result<(), TalkFault>
    requires none_taken { HasTaken R.remaining (source_reader source.old) source.old [] }
    requires none_held { held_back sink.old ≡ [] }
    requires long { length line.old ≡ longest_request }
    requires has_room { longest_request ≤ 2 * length message.old }
    requires own { IfSome talker.old.heeded (λ p. p ≡ talker.old.agent.part) }
    ensures heeded { talker.new.heeded ≡ talker.old.heeded }
    ensures same_reader { source.new.reader.ghost_name ≡ source.old.reader.ghost_name }
    ensures same_writer { sink.new.writer.ghost_name ≡ sink.old.writer.ghost_name }
    ensures leads { (tt : Timetable) → IsPartOf tt talker.old.agent.part
        → Leads R.remaining W.contents T.state (is_some talker.old.heeded) tt
        (source_reader source.old) (source_reader source.new) (sink_writer sink.old)
        (sink_writer sink.new) talker.old.agent talker.new.agent result }
{
    say_state(&talker.agent, sink)?;
    'lines: loop {
        match next_line(source, line) {
            NextLine::Line(kept) => reply(talker, sink, line, kept, message)?,
            NextLine::LastLine(kept) => return reply(talker, sink, line, kept, message),
            NextLine::End => return Ok(()),
            NextLine::Failed => return Err(TalkFault::ReadFailed),
        }
    }
}

/// Sends the line of the agent's state.
fn say_state<W: Write, T: Tape>(
    agent: &Agent<'_, T>,
    sink: &mut Sink<'_, W>,
) -> Result<(), WriteFault>
    ensures says { (tt : Timetable) → IsPartOf tt agent.now.part
        → SaysState W.contents T.state tt agent.now sink.old sink.new result }
    ensures within { IsOfGraph agent.now.part }
{
    send_answer(sink, &state_answer(agent))
}

/// Answers a line that was kept in a room, or was too long for it, and sends the answer.
fn reply<W: Write, T: Tape>(
    talker: &mut Talker<'_, T>,
    sink: &mut Sink<'_, W>,
    line: &[u8],
    kept: Option<usize>,
    message: &mut [u8],
) -> Result<(), TalkFault>
    requires long { length line.now ≡ longest_request }
    requires has_room { longest_request ≤ 2 * length message.old }
    requires within { IfSome kept (λ count. count ≤ length line.now) }
    requires own { IfSome talker.old.heeded (λ p. p ≡ talker.old.agent.part) }
    ensures same { IsSameAgent talker.old.agent talker.new.agent }
    ensures heeded { talker.new.heeded ≡ talker.old.heeded }
    ensures blames { BlamesTape result (T.state talker.old.agent.tape).failures
        (T.state talker.new.agent.tape).failures }
    ensures replies { (tt : Timetable) → IsPartOf tt talker.old.agent.part
        → (track : Track) (text : List ℕ) → track_of tt talker.old.agent.part.agent ≡ Some track
        → IsLineKept text line.now kept
        → Replies W.contents (is_some talker.old.heeded) tt talker.old.agent.part.agent track text
        (state_of T.state talker.old.agent) (state_of T.state talker.new.agent) sink.old
        sink.new result }
{
    let answer = answer_kept(&mut talker.agent, &talker.heeded, line, kept, message);
    send_answer(sink, &answer)?;
    if answer.says_store_failed() {
        return Err(TalkFault::StoreFailed);
    }
    if answer.says_stale() {
        return Err(TalkFault::StaleTape);
    }
    Ok(())
}
