//! The line that says why a command ends as it does.
ghost use Rattle.std.specs.Prelude.{◌≡◌, [], ◌++◌, Some, is_ok, OnOk, OnErr};
ghost use Rattle.text_io.specs.Text.{spaced_numbers};
ghost use Rattle.text_io.specs.Counted.{counted_inner, failures_of};
ghost use Rattle.text_io.specs.FaultWords.{words_of};
ghost use Rattle.text_io.specs.Sink.{held_back, Puts, Breaks};
ghost use Rattle.text_io.specs.Writing.{WritesText};
ghost use Rattle.ending.specs.Telling.{Tells, enclosed_words, fault_line, headed_line};

use std::io::Write;
use text_io::{Counted, FaultWords, Sink, WriteFault};

/// Writes the line of a fault, as `mapf: ShortRow 6`, by one write where the writer takes it whole.
// Compiled by itself, for its room on the stack.
#[inline(never)]
pub(crate) fn report<E: Write>(err: &mut Counted<E>, words: FaultWords)
    ensures { Tells E.contents err.old err.new (Some (words_of words)) }
{
    let _ = write_line(err, words);
}

fn write_line<E: Write>(err: &mut Counted<E>, words: FaultWords) -> Result<(), WriteFault>
    ensures { WritesText (is_ok result) (E.contents (counted_inner err.old))
        (E.contents (counted_inner err.new)) (failures_of err.old) (failures_of err.new)
        (fault_line (words_of words)) }
{
    let mut sink = Sink::new(err);
    put_line(&mut sink, words)
}

/// Puts the line, and hands it on.
fn put_line<E: Write>(sink: &mut Sink<'_, E>, words: FaultWords) -> Result<(), WriteFault>
    ensures ok { OnOk result (Puts E.contents sink.old sink.new (fault_line (words_of words))) }
    ensures none_held { OnOk result (held_back sink.new ≡ []) }
    ensures err { OnErr result (Breaks E.contents sink.old sink.new (fault_line (words_of words))) }
{
    put_fault_line(sink, b"mapf: ", words)?;
    sink.hand_on()
}

/// Puts the line of a fault behind what stands at its head.
pub fn put_fault_line<W: Write>(
    sink: &mut Sink<'_, W>,
    head: &[u8],
    words: FaultWords,
) -> Result<(), WriteFault>
    ensures ok { OnOk result
        (Puts W.contents sink.old sink.new (headed_line head.now (words_of words))) }
    ensures err { OnErr result
        (Breaks W.contents sink.old sink.new (headed_line head.now (words_of words))) }
{
    put_fault_words(sink, head, words, b"\n")
}

/// Puts the words of a fault between two texts.
pub fn put_fault_words<W: Write>(
    sink: &mut Sink<'_, W>,
    head: &[u8],
    words: FaultWords,
    end: &[u8],
) -> Result<(), WriteFault>
    ensures ok { OnOk result
        (Puts W.contents sink.old sink.new (enclosed_words head.now (words_of words) end.now)) }
    ensures err { OnErr result
        (Breaks W.contents sink.old sink.new (enclosed_words head.now (words_of words) end.now)) }
{
    sink.put(head)?;
    sink.put(words.name().as_bytes())?;
    put_numbers(sink, words.numbers())?;
    sink.put(end)
}

/// Puts each number behind a space.
fn put_numbers<E: Write>(sink: &mut Sink<'_, E>, numbers: &[u64]) -> Result<(), WriteFault>
    ensures ok { OnOk result (Puts E.contents sink.old sink.new (spaced_numbers numbers.now)) }
    ensures err { OnErr result (Breaks E.contents sink.old sink.new (spaced_numbers numbers.now)) }
{
    for number in numbers {
        sink.put_number_after(b' ', *number)?;
    }
    Ok(())
}
