//! The text of where agents are, time by time.
ghost use Rattle.std.specs.Prelude.{◌≡◌, [], ◌∷◌, ◌++◌, is_ok, OnOk, OnErr};
ghost use Rattle.text_io.specs.Text.{line_feed};
ghost use Rattle.text_io.specs.Counted.{counted_inner, failures_of};
ghost use Rattle.text_io.specs.Sink.{held_back, Puts, Breaks};
ghost use Rattle.text_io.specs.Writing.{WritesText};
ghost use Rattle.checker.specs.Code.Walking.{start_cells};
ghost use Rattle.plan_commands.specs.PathText.{count_of_times, path_line, path_text};
ghost use Rattle.plan_commands.specs.Code.Numerals.{AreNumerals};
ghost use Rattle.plan_commands.specs.Code.Rows.{AllWalked, rows_of_courses};
ghost use Rattle.plan_commands.specs.Code.Walks.{AreStretches};

use crate::cell_text::put_cells;
use crate::numerals::Numeral;
use crate::walk::go_on;
use checker::Stretch;
use grid::Cell;
use itoa::Buffer;
use plan_text::Course;
use std::io::Write;
use text_io::{Counted, Sink, WriteFault};

/// Writes the line of each time, from the starts on, and leaves the agents behind the last of them.
/// The writer is not flushed.
// Compiled by itself, for its room on the stack.
#[inline(never)]
pub(crate) fn write_rows<W: Write>(
    courses: &[Course],
    cells: &mut [Cell],
    stretches: &mut [Stretch],
    numerals: &[Numeral],
    writer: &mut Counted<W>,
) -> Result<(), WriteFault>
    requires starts { cells.old ≡ start_cells courses.now }
    requires stretches { AreStretches courses.now 0 stretches.old }
    requires walked { AllWalked courses.now }
    requires numerals { AreNumerals numerals.now }
    ensures { WritesText (is_ok result) (W.contents (counted_inner writer.old))
        (W.contents (counted_inner writer.new)) (failures_of writer.old) (failures_of writer.new)
        (path_text (rows_of_courses courses.now)) }
{
    let mut sink = Sink::new(writer);
    put_rows(&mut sink, courses, cells, stretches, numerals)
}

/// Puts the whole text, and hands it on.
fn put_rows<W: Write>(
    sink: &mut Sink<'_, W>,
    courses: &[Course],
    cells: &mut [Cell],
    stretches: &mut [Stretch],
    numerals: &[Numeral],
) -> Result<(), WriteFault>
    requires starts { cells.old ≡ start_cells courses.now }
    requires stretches { AreStretches courses.now 0 stretches.old }
    requires walked { AllWalked courses.now }
    requires numerals { AreNumerals numerals.now }
    ensures ok { OnOk result
        (Puts W.contents sink.old sink.new (path_text (rows_of_courses courses.now))) }
    ensures none_held { OnOk result (held_back sink.new ≡ []) }
    ensures err { OnErr result
        (Breaks W.contents sink.old sink.new (path_text (rows_of_courses courses.now))) }
{
    for time in 0..count_of_times(courses) {
        put_row(sink, time, cells, numerals)?;
        go_on(courses, time, cells, stretches);
    }
    sink.hand_on()
}

/// How many times there are, from 0 to the most acts of an agent; none without agents.
fn count_of_times(courses: &[Course]) -> usize
    requires { AllWalked courses.now }
    ensures { result ≡ count_of_times courses.now }
{
    if courses.is_empty() {
        return 0;
    }
    let mut most = 0;
    for course in courses {
        most = most.max(course.acts().len());
    }
    most + 1
}

/// Puts the line of a time.
fn put_row<W: Write>(
    sink: &mut Sink<'_, W>,
    time: usize,
    cells: &[Cell],
    numerals: &[Numeral],
) -> Result<(), WriteFault>
    requires { AreNumerals numerals.now }
    ensures ok { OnOk result
        (Puts W.contents sink.old sink.new (path_line time cells.now ++ line_feed ∷ [])) }
    ensures err { OnErr result
        (Breaks W.contents sink.old sink.new (path_line time cells.now ++ line_feed ∷ [])) }
{
    sink.put(Buffer::new().format(time).as_bytes())?;
    put_cells(sink, cells, numerals)?;
    sink.put_byte(b'\n')
}
