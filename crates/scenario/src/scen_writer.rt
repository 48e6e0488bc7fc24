//! Writing a scenario as text.
ghost use Rattle.std.specs.Prelude.{◌≡◌, ◌≤◌, [], ◌∷◌, ◌++◌, length};
ghost use Rattle.std.specs.Prelude.{map, decimal, OnOk, OnErr, is_ok};
ghost use Rattle.std.specs.List.{flat_map};
ghost use Rattle.text_io.specs.Counted.{counted_inner, failures_of};
ghost use Rattle.text_io.specs.Text.{tab, line_feed, ended};
ghost use Rattle.text_io.specs.Sink.{held_back, Puts, Breaks};
ghost use Rattle.text_io.specs.Writing.{WritesText};
ghost use Rattle.scenario.specs.Query.{listed_text, row_line, canonical_scen_text};

use crate::{Listed, Row, Scenario};
use itoa::Buffer;
use std::io::Write;
use text_io::{Counted, Sink, WriteFault};

/// Writes a scenario in canonical form: `version 1`, and for each row its nine fields with one tab
/// between each two, no leading zeros, an LF after each line. The writer is not flushed.
pub fn write_scen<W: Write>(scenario: &Scenario, writer: &mut Counted<W>) -> Result<(), WriteFault>
    ensures { WritesText (is_ok result) (W.contents (counted_inner writer.old))
        (W.contents (counted_inner writer.new)) (failures_of writer.old) (failures_of writer.new)
        (canonical_scen_text scenario.now) }
{
    let mut sink = Sink::new(writer);
    put_scenario(&mut sink, scenario)
}

/// Puts the whole text, and hands it on.
fn put_scenario<W: Write>(sink: &mut Sink<'_, W>, scenario: &Scenario) -> Result<(), WriteFault>
    ensures ok { OnOk result
        (Puts W.contents sink.old sink.new (canonical_scen_text scenario.now)) }
    ensures none_held { OnOk result (held_back sink.new ≡ []) }
    ensures err { OnErr result
        (Breaks W.contents sink.old sink.new (canonical_scen_text scenario.now)) }
{
    sink.put(b"version 1\n")?;
    put_rows(sink, scenario.rows())?;
    sink.hand_on()
}

fn put_rows<W: Write>(sink: &mut Sink<'_, W>, rows: &[Row]) -> Result<(), WriteFault>
    ensures ok { OnOk result (Puts W.contents sink.old sink.new (ended (map row_line rows.now))) }
    ensures err { OnErr result
        (Breaks W.contents sink.old sink.new (ended (map row_line rows.now))) }
{
    for row in rows {
        put_row(sink, row)?;
    }
    Ok(())
}

/// Puts a row as a line.
fn put_row<W: Write>(sink: &mut Sink<'_, W>, row: &Row) -> Result<(), WriteFault>
    ensures ok { OnOk result
        (Puts W.contents sink.old sink.new (row_line row.now ++ line_feed ∷ [])) }
    ensures err { OnErr result
        (Breaks W.contents sink.old sink.new (row_line row.now ++ line_feed ∷ [])) }
{
    let start = row.start();
    let goal = row.goal();
    sink.put(Buffer::new().format(row.bucket()).as_bytes())?;
    sink.put_after(b'\t', row.name())?;
    put_numbers(
        sink,
        &[
            u64::from(row.width()),
            u64::from(row.height()),
            u64::from(start.x),
            u64::from(start.y),
            u64::from(goal.x),
            u64::from(goal.y),
        ],
    )?;
    sink.put_byte(b'\t')?;
    put_listed(sink, row.listed())?;
    sink.put_byte(b'\n')
}

/// Puts each number behind a tab. The sink tests only once whether there is room for the first
/// four, and once for the others.
#[inline(always)]
fn put_numbers<W: Write>(sink: &mut Sink<'_, W>, numbers: &[u64]) -> Result<(), WriteFault>
    requires { 4 ≤ length numbers.now }
    ensures ok { OnOk result
        (Puts W.contents sink.old sink.new (flat_map (λ n. tab ∷ decimal n) numbers.now)) }
    ensures err { OnErr result
        (Breaks W.contents sink.old sink.new (flat_map (λ n. tab ∷ decimal n) numbers.now)) }
{
    sink.put_numbers(b"", b'\t', &numbers[..4])?;
    sink.put_numbers(b"", b'\t', &numbers[4..])
}

/// Puts a listed length with as many decimals as it has.
pub fn put_listed<W: Write>(sink: &mut Sink<'_, W>, listed: Listed) -> Result<(), WriteFault>
    ensures ok { OnOk result (Puts W.contents sink.old sink.new (listed_text listed.n listed.d)) }
    ensures err { OnErr result
        (Breaks W.contents sink.old sink.new (listed_text listed.n listed.d)) }
{
    let scale = 10u64.pow(u32::from(listed.d));
    let mut buffer = Buffer::new();
    sink.put(buffer.format(listed.n / scale).as_bytes())?;
    if listed.d == 0 {
        return Ok(());
    }
    // the 1 in front keeps the zeros that the decimals may begin with
    let decimals = buffer.format(scale + listed.n % scale).as_bytes();
    sink.put_after(b'.', &decimals[1..])
}
