//! Writing a map as text.
ghost use Rattle.std.specs.Prelude.{◌≡◌, ◌*◌, [], ◌∷◌, ◌++◌, length, decimal, OnOk, OnErr, is_ok};
ghost use Rattle.text_io.specs.Counted.{counted_inner, failures_of};
ghost use Rattle.text_io.specs.Text.{line_feed, ended};
ghost use Rattle.text_io.specs.Sink.{held_back, Puts, Breaks};
ghost use Rattle.text_io.specs.Writing.{WritesText};
ghost use Rattle.grid.specs.MapText.{rows_of, header_lines, canonical_map_text};

use crate::Map;
use itoa::Buffer;
use std::io::Write;
use text_io::{Counted, Sink, WriteFault};

/// Writes a map in canonical form: one space between words, no leading zero, an LF after each line,
/// nothing after the last. The writer is not flushed.
pub fn write_map<W: Write>(map: &Map, writer: &mut Counted<W>) -> Result<(), WriteFault>
    ensures { WritesText (is_ok result) (W.contents (counted_inner writer.old))
        (W.contents (counted_inner writer.new)) (failures_of writer.old) (failures_of writer.new)
        (canonical_map_text map.now) }
{
    let mut sink = Sink::new(writer);
    put_map(&mut sink, map)
}

/// Puts the whole text, and hands it on.
fn put_map<W: Write>(sink: &mut Sink<'_, W>, map: &Map) -> Result<(), WriteFault>
    ensures ok { OnOk result (Puts W.contents sink.old sink.new (canonical_map_text map.now)) }
    ensures none_held { OnOk result (held_back sink.new ≡ []) }
    ensures err { OnErr result (Breaks W.contents sink.old sink.new (canonical_map_text map.now)) }
{
    put_header(sink, map.width(), map.height())?;
    put_rows(sink, map.width(), map.height(), map.characters())?;
    sink.hand_on()
}

fn put_header<W: Write>(sink: &mut Sink<'_, W>, width: u32, height: u32) -> Result<(), WriteFault>
    ensures ok { OnOk result
        (Puts W.contents sink.old sink.new (ended (header_lines width height))) }
    ensures err { OnErr result
        (Breaks W.contents sink.old sink.new (ended (header_lines width height))) }
{
    put_line(sink, b"type octile")?;
    put_size(sink, b"height ", height)?;
    put_size(sink, b"width ", width)?;
    put_line(sink, b"map")
}

fn put_rows<W: Write>(
    sink: &mut Sink<'_, W>,
    width: u32,
    height: u32,
    characters: &[u8],
) -> Result<(), WriteFault>
    requires { length characters.now ≡ width * height }
    ensures ok { OnOk result
        (Puts W.contents sink.old sink.new (ended (rows_of height width characters.now))) }
    ensures err { OnErr result
        (Breaks W.contents sink.old sink.new (ended (rows_of height width characters.now))) }
{
    let mut rest = characters;
    for _row in 0..height {
        let (row, after) = rest.split_at(width as usize);
        put_line(sink, row)?;
        rest = after;
    }
    Ok(())
}

/// Puts a word and a number as a line.
fn put_size<W: Write>(sink: &mut Sink<'_, W>, word: &[u8], size: u32) -> Result<(), WriteFault>
    ensures ok { OnOk result
        (Puts W.contents sink.old sink.new ((word.now ++ decimal size) ++ line_feed ∷ [])) }
    ensures err { OnErr result
        (Breaks W.contents sink.old sink.new ((word.now ++ decimal size) ++ line_feed ∷ [])) }
{
    sink.put(word)?;
    put_line(sink, Buffer::new().format(size).as_bytes())
}

fn put_line<W: Write>(sink: &mut Sink<'_, W>, line: &[u8]) -> Result<(), WriteFault>
    ensures ok { OnOk result (Puts W.contents sink.old sink.new (line.now ++ line_feed ∷ [])) }
    ensures err { OnErr result (Breaks W.contents sink.old sink.new (line.now ++ line_feed ∷ [])) }
{
    sink.put(line)?;
    sink.put(b"\n")
}
