//! Calling `text_io`: a text is written through a `Sink`, and a fault is told by its words.
ghost use Rattle.std.specs.Prelude.{◌≡◌, [], OnOk};
ghost use Rattle.text_io.specs.FaultWords.{words_of};
ghost use Rattle.text_io.specs.Sink.{held_back};

use std::io::Write;
use text_io::{FaultWords, Sink, WriteFault};

/// Puts a line, and hands on all that is held back.
pub fn write_line<W: Write>(sink: &mut Sink<'_, W>, line: &[u8]) -> Result<(), WriteFault>
    ensures { OnOk result (held_back sink.new ≡ []) }
{
    sink.put(line)?;
    sink.put_byte(b'\n')?;
    sink.hand_on()
}

/// Whether a device or memory failed, and no text is at fault.
pub fn is_device(words: FaultWords) -> bool
    ensures { result ≡ (words_of words).is_failure }
{
    words.is_failure()
}
