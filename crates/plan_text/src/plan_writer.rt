//! Writing a plan as text.
ghost use Rattle.std.specs.Prelude.{◌≡◌, ◌≤◌, [], ◌∷◌, ◌++◌, length};
ghost use Rattle.std.specs.Prelude.{map, decimal, OnOk, OnErr, is_ok};
ghost use Rattle.text_io.specs.Counted.{counted_inner, failures_of};
ghost use Rattle.text_io.specs.Text.{space, line_feed, ended};
ghost use Rattle.text_io.specs.Sink.{held_back, Puts, Breaks};
ghost use Rattle.text_io.specs.Writing.{WritesText};
ghost use Rattle.plan_text.specs.PlanText.{act_character, acts_text};
ghost use Rattle.plan_text.specs.PlanText.{course_line, canonical_plan_text};

use crate::Plan;
use crate::plan::Course;
use itoa::Buffer;
use model::Act;
use std::io::Write;
use text_io::{Counted, Sink, WriteFault};

/// So many acts are put at a time.
const PIECE: usize = 4096;

/// Writes a plan: a header, the plan's number, how many agents there are, and a line for each,
/// without leading zeros, an LF after each line. The writer is not flushed.
pub fn write_plan<W: Write>(plan: &Plan, writer: &mut Counted<W>) -> Result<(), WriteFault>
    ensures { WritesText (is_ok result) (W.contents (counted_inner writer.old))
        (W.contents (counted_inner writer.new)) (failures_of writer.old) (failures_of writer.new)
        (canonical_plan_text plan.now) }
{
    let mut sink = Sink::new(writer);
    put_plan(&mut sink, plan)
}

/// Puts the whole text, and hands it on.
fn put_plan<W: Write>(sink: &mut Sink<'_, W>, plan: &Plan) -> Result<(), WriteFault>
    ensures ok { OnOk result (Puts W.contents sink.old sink.new (canonical_plan_text plan.now)) }
    ensures none_held { OnOk result (held_back sink.new ≡ []) }
    ensures err { OnErr result
        (Breaks W.contents sink.old sink.new (canonical_plan_text plan.now)) }
{
    sink.put(b"mapf-plan 1\n")?;
    put_number(sink, b"number ", plan.number(), b"\n")?;
    put_number(sink, b"agents ", plan.agents(), b"\n")?;
    put_courses(sink, plan.courses())?;
    sink.hand_on()
}

/// Puts a number between a word and what follows it.
fn put_number<W: Write>(
    sink: &mut Sink<'_, W>,
    word: &[u8],
    number: u32,
    end: &[u8],
) -> Result<(), WriteFault>
    ensures ok { OnOk result
        (Puts W.contents sink.old sink.new (word.now ++ decimal number ++ end.now)) }
    ensures err { OnErr result
        (Breaks W.contents sink.old sink.new (word.now ++ decimal number ++ end.now)) }
{
    sink.put(word)?;
    sink.put(Buffer::new().format(number).as_bytes())?;
    sink.put(end)
}

fn put_courses<W: Write>(sink: &mut Sink<'_, W>, courses: &[Course]) -> Result<(), WriteFault>
    ensures ok { OnOk result
        (Puts W.contents sink.old sink.new (ended (map course_line courses.now))) }
    ensures err { OnErr result
        (Breaks W.contents sink.old sink.new (ended (map course_line courses.now))) }
{
    for course in courses {
        put_course(sink, course)?;
    }
    Ok(())
}

/// Puts the line of an agent.
fn put_course<W: Write>(sink: &mut Sink<'_, W>, course: &Course) -> Result<(), WriteFault>
    ensures ok { OnOk result
        (Puts W.contents sink.old sink.new (course_line course.now ++ line_feed ∷ [])) }
    ensures err { OnErr result
        (Breaks W.contents sink.old sink.new (course_line course.now ++ line_feed ∷ [])) }
{
    let start = course.start();
    put_number(sink, b"agent ", u32::from(start.x), b" ")?;
    put_number(sink, b"", u32::from(start.y), b" ")?;
    put_acts(sink, course.acts())?;
    sink.put(b"\n")
}

/// Puts a character for each act, or `=` for none.
fn put_acts<W: Write>(sink: &mut Sink<'_, W>, acts: &[Act]) -> Result<(), WriteFault>
    ensures ok { OnOk result (Puts W.contents sink.old sink.new (acts_text acts.now)) }
    ensures err { OnErr result (Breaks W.contents sink.old sink.new (acts_text acts.now)) }
{
    if acts.is_empty() {
        return sink.put(b"=");
    }
    let mut rest = acts;
    while !rest.is_empty() {
        let count = rest.len().min(PIECE);
        put_characters(sink, &rest[..count])?;
        rest = &rest[count..];
    }
    Ok(())
}

/// Puts the characters of a few acts.
fn put_characters<W: Write>(sink: &mut Sink<'_, W>, acts: &[Act]) -> Result<(), WriteFault>
    requires { length acts.now ≤ PIECE }
    ensures ok { OnOk result (Puts W.contents sink.old sink.new (map act_character acts.now)) }
    ensures err { OnErr result (Breaks W.contents sink.old sink.new (map act_character acts.now)) }
{
    let mut piece = [0; PIECE];
    for (i, act) in acts.iter().enumerate() {
        piece[i] = act_character(*act);
    }
    sink.put(&piece[..acts.len()])
}

fn act_character(act: Act) -> u8
    ensures { result ≡ act_character act }
{
    match act {
        Act::N => b'n',
        Act::E => b'e',
        Act::S => b's',
        Act::W => b'w',
        Act::Wait => b'-',
    }
}
