//! The text of a cell's visits.
ghost use Rattle.std.specs.Prelude.{◌≡◌, [], ◌∷◌, ◌++◌, map, is_ok, OnOk, OnErr};
ghost use Rattle.text_io.specs.Text.{line_feed, ended};
ghost use Rattle.text_io.specs.Counted.{counted_inner, failures_of};
ghost use Rattle.text_io.specs.Sink.{held_back, Puts, Breaks};
ghost use Rattle.text_io.specs.Writing.{WritesText};
ghost use Rattle.plan_commands.specs.CellVisitsText.{visit_line, visits_text};

use depgraph::Visit;
use std::io::Write;
use text_io::{Counted, Sink, WriteFault};

/// Writes a line for each visit. The writer is not flushed.
// Compiled by itself, for its room on the stack.
#[inline(never)]
pub(crate) fn write_visits<W: Write>(
    visits: &[Visit],
    writer: &mut Counted<W>,
) -> Result<(), WriteFault>
    ensures { WritesText (is_ok result) (W.contents (counted_inner writer.old))
        (W.contents (counted_inner writer.new)) (failures_of writer.old) (failures_of writer.new)
        (visits_text visits.now) }
{
    let mut sink = Sink::new(writer);
    put_visits(&mut sink, visits)
}

/// Puts the whole text, and hands it on.
fn put_visits<W: Write>(sink: &mut Sink<'_, W>, visits: &[Visit]) -> Result<(), WriteFault>
    ensures ok { OnOk result (Puts W.contents sink.old sink.new (visits_text visits.now)) }
    ensures none_held { OnOk result (held_back sink.new ≡ []) }
    ensures err { OnErr result (Breaks W.contents sink.old sink.new (visits_text visits.now)) }
{
    for visit in visits {
        put_visit(sink, *visit)?;
    }
    sink.hand_on()
}

/// Puts the line of a visit: the agent, the index of the cell in its path, and the time.
fn put_visit<W: Write>(sink: &mut Sink<'_, W>, visit: Visit) -> Result<(), WriteFault>
    ensures ok { OnOk result
        (Puts W.contents sink.old sink.new (visit_line visit ++ line_feed ∷ [])) }
    ensures err { OnErr result
        (Breaks W.contents sink.old sink.new (visit_line visit ++ line_feed ∷ [])) }
{
    let numbers = [visit.agent as u64, visit.index as u64, visit.time as u64];
    sink.put_numbers(b"visit", b' ', &numbers)?;
    sink.put_byte(b'\n')
}
