//! The answers to input lines, and writing them.
ghost use Rattle.std.specs.Prelude.{◌≡◌, ◌++◌, [], ◌∷◌, ◌↔◌, IsTrue, OnOk, OnErr, Ok};
ghost use Rattle.text_io.specs.Text.{line_feed};
ghost use Rattle.text_io.specs.Sink.{held_back, Puts, Breaks};
ghost use Rattle.robot.specs.Turns.{said_line, free_line, stale_tape, store_failed};
ghost use Rattle.robot.specs.Code.Answering.{answer_line, says_stale, says_store_failed};

use crate::stale::StaleWord;
use event_text::{put_hexadecimal, put_reply};
use model::{Reply, Why};
use std::io::Write;
use text_io::{Sink, WriteFault};

/// The answer to an input line.
#[derive(Drop)]
pub(crate) enum LineAnswer {
    Reply(Reply),
    /// The message of version 1 that was said.
    Said([u8; 12]),
    /// The message of version 2.
    Told(Vec<u8>),
    /// How many moves are free ahead.
    Free(u32),
    /// The tape is an older one, as a message shows.
    StaleTape(StaleWord),
    /// Memory is wanting for what was heard, or for what is to be told.
    OutOfMemory,
    /// The line is not understood.
    BadLine,
}

impl LineAnswer {
    /// Whether it says that a store failed.
    pub(crate) fn says_store_failed(&self) -> bool
        ensures line { IsTrue result ↔ (answer_line self.now ≡ store_failed) }
        ensures says { result ≡ says_store_failed self.now }
    {
        matches!(self, LineAnswer::Reply(Reply::Refused(Why::StoreFailed)))
    }

    /// Whether it says that the tape is an older one.
    pub(crate) fn says_stale(&self) -> bool
        ensures { result ≡ says_stale self.now }
    {
        matches!(self, LineAnswer::StaleTape(_))
    }
}

/// Puts the line of an answer, and sees that it leaves the writer.
pub(crate) fn send_answer<W: Write>(
    sink: &mut Sink<'_, W>,
    answer: &LineAnswer,
) -> Result<(), WriteFault>
    ensures ok { OnOk result
        (Puts W.contents sink.old sink.new (answer_line answer.now ++ line_feed ∷ [])) }
    ensures none_held { OnOk result (held_back sink.new ≡ []) }
    ensures err { OnErr result
        (Breaks W.contents sink.old sink.new (answer_line answer.now ++ line_feed ∷ [])) }
{
    put_answer(sink, answer)?;
    sink.flush()
}

fn put_answer<W: Write>(sink: &mut Sink<'_, W>, answer: &LineAnswer) -> Result<(), WriteFault>
    ensures ok { OnOk result
        (Puts W.contents sink.old sink.new (answer_line answer.now ++ line_feed ∷ [])) }
    ensures err { OnErr result
        (Breaks W.contents sink.old sink.new (answer_line answer.now ++ line_feed ∷ [])) }
{
    match answer {
        LineAnswer::Reply(reply) => put_reply(sink, reply),
        LineAnswer::Said(message) => put_said(sink, message),
        LineAnswer::Told(message) => put_said(sink, message),
        LineAnswer::Free(count) => put_free(sink, *count),
        LineAnswer::StaleTape(word) => put_stale(sink, *word),
        LineAnswer::OutOfMemory => sink.put(b"refused OutOfMemory\n"),
        LineAnswer::BadLine => sink.put(b"refused BadLine\n"),
    }
}

/// Puts how many moves are free ahead.
fn put_free<W: Write>(sink: &mut Sink<'_, W>, count: u32) -> Result<(), WriteFault>
    ensures ok { OnOk result
        (Puts W.contents sink.old sink.new (free_line count ++ line_feed ∷ [])) }
    ensures err { OnErr result
        (Breaks W.contents sink.old sink.new (free_line count ++ line_feed ∷ [])) }
{
    sink.put_numbers(b"may", b' ', &[u64::from(count)])?;
    sink.put(b"\n")
}

/// Puts who says that the agent has finished how many moves.
fn put_stale<W: Write>(sink: &mut Sink<'_, W>, word: StaleWord) -> Result<(), WriteFault>
    ensures ok { OnOk result
        (Puts W.contents sink.old sink.new (stale_tape word.sender word.number ++ line_feed ∷ [])) }
    ensures err { OnErr result
        (Breaks W.contents sink.old sink.new (stale_tape word.sender word.number ++ line_feed ∷ [])) }
{
    let numbers = [u64::from(word.sender), u64::from(word.number)];
    sink.put_numbers(b"refused StaleTape", b' ', &numbers)?;
    sink.put(b"\n")
}

fn put_said<W: Write>(sink: &mut Sink<'_, W>, message: &[u8]) -> Result<(), WriteFault>
    ensures ok { OnOk result
        (Puts W.contents sink.old sink.new (said_line (Ok message.now) ++ line_feed ∷ [])) }
    ensures err { OnErr result
        (Breaks W.contents sink.old sink.new (said_line (Ok message.now) ++ line_feed ∷ [])) }
{
    sink.put(b"said ")?;
    put_hexadecimal(sink, message)?;
    sink.put(b"\n")
}
