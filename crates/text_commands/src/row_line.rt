//! What a row comes to among others, and its line.
ghost use Rattle.std.specs.Prelude.{◌∷◌, ◌++◌, [], decimal, OnOk, OnErr};
ghost use Rattle.text_io.specs.Sink.{held_back, Puts, Breaks};
ghost use Rattle.text_io.specs.Text.{space};
ghost use Rattle.text_commands.specs.RowsCommand.{row_line_text};
ghost use Rattle.std.specs.Prelude.{◌≡◌, Some};

use crate::row_verdict::{RowVerdict, put_row_verdict, put_word};
use ending::put_number;
use itoa::Buffer;
use std::io::Write;
use text_io::{Sink, WriteFault};

/// What a row of a scenario comes to where more than one is judged.
#[derive(Clone, Copy, PartialEq, Eq)]
pub(crate) enum RowLine {
    /// The verdict on its listed length.
    Judged(RowVerdict),
    /// The least number of straight steps from its start to its goal, if any lead there.
    Stepped(Option<u32>),
    /// It is for a map of another size.
    OtherSize,
}

impl RowLine {
    ghost use Rattle.text_commands.specs.RowsCommand.{has_other_size, is_agreed, is_otherwise};
    ghost use Rattle.text_commands.specs.RowsCommand.{is_unreached, steps_of};

    /// Whether the listed length is right.
    pub(crate) fn is_agreed(&self) -> bool
        ensures { result ≡ is_agreed self.now }
    {
        match *self {
            RowLine::Judged(RowVerdict::Shortest { agrees, .. }) => agrees,
            _ => false,
        }
    }

    /// Whether the shortest walks have another length than the listed one.
    pub(crate) fn is_otherwise(&self) -> bool
        ensures { result ≡ is_otherwise self.now }
    {
        match *self {
            RowLine::Judged(RowVerdict::Shortest { agrees, .. }) => !agrees,
            _ => false,
        }
    }

    /// Whether nothing leads from the start to the goal.
    pub(crate) fn is_unreached(&self) -> bool
        ensures { result ≡ is_unreached self.now }
    {
        matches!(
            *self,
            RowLine::Judged(RowVerdict::Unreachable) | RowLine::Stepped(None)
        )
    }

    /// Whether it is for a map of another size.
    pub(crate) fn has_other_size(&self) -> bool
        ensures { result ≡ has_other_size self.now }
    {
        matches!(*self, RowLine::OtherSize)
    }

    /// The least number of straight steps, or 0 where there is none.
    pub(crate) fn steps(&self) -> u32
        ensures { result ≡ steps_of self.now }
    {
        match *self {
            RowLine::Stepped(Some(steps)) => steps,
            _ => 0,
        }
    }
}

/// Puts the line of the row with this number, and sees that it leaves the writer.
pub(crate) fn send_row_line<W: Write>(
    sink: &mut Sink<'_, W>,
    number: u128,
    line: &RowLine,
) -> Result<(), WriteFault>
    ensures ok { OnOk result
        (Puts W.contents sink.old sink.new (decimal number ++ (space ∷ row_line_text line.now))) }
    ensures none_held { OnOk result (held_back sink.new ≡ []) }
    ensures err { OnErr result
        (Breaks W.contents sink.old sink.new (decimal number ++ (space ∷ row_line_text line.now))) }
{
    put_word(sink, Buffer::new().format(number).as_bytes())?;
    put_row_line(sink, line)?;
    sink.flush()
}

fn put_row_line<W: Write>(sink: &mut Sink<'_, W>, line: &RowLine) -> Result<(), WriteFault>
    ensures ok { OnOk result (Puts W.contents sink.old sink.new (row_line_text line.now)) }
    ensures err { OnErr result (Breaks W.contents sink.old sink.new (row_line_text line.now)) }
{
    match line {
        RowLine::Judged(verdict) => put_row_verdict(sink, *verdict),
        RowLine::Stepped(Some(steps)) => put_least(sink, *steps),
        RowLine::Stepped(None) => sink.put(b"unreachable\n"),
        RowLine::OtherSize => sink.put(b"SizeDiffers\n"),
    }
}

fn put_least<W: Write>(sink: &mut Sink<'_, W>, steps: u32) -> Result<(), WriteFault>
    ensures ok { OnOk result
        (Puts W.contents sink.old sink.new (row_line_text (RowLine.Stepped (Some steps)))) }
    ensures err { OnErr result
        (Breaks W.contents sink.old sink.new (row_line_text (RowLine.Stepped (Some steps)))) }
{
    put_number(sink, b"least", u64::from(steps))?;
    sink.put(b"\n")
}
