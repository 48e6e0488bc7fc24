//! What a row of a scenario comes to, and its line.
ghost use Rattle.std.specs.Prelude.{◌≡◌, [], ◌∷◌, ◌++◌, is_ok, OnOk, OnErr};
ghost use Rattle.text_io.specs.Counted.{counted_inner, failures_of};
ghost use Rattle.text_io.specs.Text.{space};
ghost use Rattle.text_io.specs.Sink.{held_back, Puts, Breaks};
ghost use Rattle.text_io.specs.Writing.{WritesText};
ghost use Rattle.text_commands.specs.RowStatus.{row_verdict_status};
ghost use Rattle.text_commands.specs.RowCommand.{shortest_text, row_verdict_text, IsRowVerdictOn};

use ending::Status;
use itoa::Buffer;
use scenario::{Length, Listed, agrees, put_listed};
use std::io::Write;
use text_io::{Counted, Sink, WriteFault};

/// What a row comes to.
#[derive(Clone, Copy, PartialEq, Eq)]
pub(crate) enum RowVerdict {
    /// The shortest walks have this length, and the listed one agrees with it or doesn't.
    Shortest {
        length: Length,
        listed: Listed,
        agrees: bool,
    },
    /// No walk leads from the start to the goal.
    Unreachable,
}

impl RowVerdict {
    /// The verdict on a listed length, by the length of the shortest walks.
    pub(crate) fn new(shortest: Option<Length>, listed: Listed) -> RowVerdict
        ensures { IsRowVerdictOn listed.n listed.d shortest result }
    {
        match shortest {
            Some(length) => RowVerdict::Shortest {
                length,
                listed,
                agrees: agrees(listed, length),
            },
            None => RowVerdict::Unreachable,
        }
    }

    /// The status that it ends with: well only where the listed length agrees.
    pub(crate) fn status(self) -> Status
        ensures { result ≡ row_verdict_status self }
    {
        match self {
            RowVerdict::Shortest { agrees, .. } if agrees => Status::Done,
            _ => Status::Fault,
        }
    }
}

/// Writes the line of a verdict. The writer is not flushed.
// Compiled by itself, for its room on the stack.
#[inline(never)]
pub(crate) fn write_row_verdict<W: Write>(
    verdict: RowVerdict,
    writer: &mut Counted<W>,
) -> Result<(), WriteFault>
    ensures { WritesText (is_ok result) (W.contents (counted_inner writer.old))
        (W.contents (counted_inner writer.new)) (failures_of writer.old) (failures_of writer.new)
        (row_verdict_text verdict) }
{
    let mut sink = Sink::new(writer);
    put_line(&mut sink, verdict)
}

/// Puts the line, and hands it on.
fn put_line<W: Write>(sink: &mut Sink<'_, W>, verdict: RowVerdict) -> Result<(), WriteFault>
    ensures ok { OnOk result (Puts W.contents sink.old sink.new (row_verdict_text verdict)) }
    ensures none_held { OnOk result (held_back sink.new ≡ []) }
    ensures err { OnErr result (Breaks W.contents sink.old sink.new (row_verdict_text verdict)) }
{
    put_row_verdict(sink, verdict)?;
    sink.hand_on()
}

pub(crate) fn put_row_verdict<W: Write>(
    sink: &mut Sink<'_, W>,
    verdict: RowVerdict,
) -> Result<(), WriteFault>
    ensures ok { OnOk result (Puts W.contents sink.old sink.new (row_verdict_text verdict)) }
    ensures err { OnErr result (Breaks W.contents sink.old sink.new (row_verdict_text verdict)) }
{
    match verdict {
        RowVerdict::Shortest {
            length,
            listed,
            agrees,
        } => put_shortest(sink, length, listed, agrees),
        RowVerdict::Unreachable => sink.put(b"unreachable\n"),
    }
}

/// Puts the line of a shortest length, and how the listed one stands to it.
fn put_shortest<W: Write>(
    sink: &mut Sink<'_, W>,
    length: Length,
    listed: Listed,
    agrees: bool,
) -> Result<(), WriteFault>
    ensures ok { OnOk result
        (Puts W.contents sink.old sink.new (shortest_text length listed agrees)) }
    ensures err { OnErr result
        (Breaks W.contents sink.old sink.new (shortest_text length listed agrees)) }
{
    put_word(sink, b"shortest")?;
    put_word(sink, Buffer::new().format(length.straight).as_bytes())?;
    put_word(sink, Buffer::new().format(length.diagonal).as_bytes())?;
    put_word(sink, b"listed")?;
    put_listed(sink, listed)?;
    sink.put(if agrees { b" agrees\n" } else { b" differs\n" })
}

/// Puts a word that another one follows.
pub(crate) fn put_word<W: Write>(sink: &mut Sink<'_, W>, word: &[u8]) -> Result<(), WriteFault>
    ensures ok { OnOk result (Puts W.contents sink.old sink.new (word.now ++ space ∷ [])) }
    ensures err { OnErr result (Breaks W.contents sink.old sink.new (word.now ++ space ∷ [])) }
{
    sink.put(word)?;
    sink.put(b" ")
}
