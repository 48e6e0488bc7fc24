//! Writing a text.
ghost use Rattle.std.specs.Prelude.{◌≡◌, [], ◌++◌, codes, decimal, is_ok, OnOk, OnErr};
ghost use Rattle.text_io.specs.Counted.{counted_inner, failures_of};
ghost use Rattle.text_io.specs.Sink.{held_back, Puts, Breaks};
ghost use Rattle.text_io.specs.Writing.{WritesText};

use std::io::Write;
use text_io::{Counted, Sink, WriteFault};

/// Writes a text. The writer is not flushed.
// Compiled by itself: what it reads and writes has room on the stack, for which a caller would pay
// at each of its calls.
#[inline(never)]
pub fn write_text<W: Write>(text: &[u8], writer: &mut Counted<W>) -> Result<(), WriteFault>
    ensures { WritesText (is_ok result) (W.contents (counted_inner writer.old))
        (W.contents (counted_inner writer.new)) (failures_of writer.old)
        (failures_of writer.new) text.now }
{
    let mut sink = Sink::new(writer);
    put_text(&mut sink, text)
}

/// Puts the text, and hands it on.
fn put_text<W: Write>(sink: &mut Sink<'_, W>, text: &[u8]) -> Result<(), WriteFault>
    ensures ok { OnOk result (Puts W.contents sink.old sink.new text.now) }
    ensures none_held { OnOk result (held_back sink.new ≡ []) }
    ensures err { OnErr result (Breaks W.contents sink.old sink.new text.now) }
{
    sink.put(text)?;
    sink.hand_on()
}

/// Puts a word, and a number behind a space.
#[inline(always)]
pub fn put_number<W: Write>(
    sink: &mut Sink<'_, W>,
    word: &[u8],
    number: u64,
) -> Result<(), WriteFault>
    ensures ok { OnOk result
        (Puts W.contents sink.old sink.new (word.now ++ codes " " ++ decimal number)) }
    ensures err { OnErr result
        (Breaks W.contents sink.old sink.new (word.now ++ codes " " ++ decimal number)) }
{
    sink.put(word)?;
    sink.put_number_after(b' ', number)
}
