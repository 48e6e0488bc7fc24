//! The text of all that a plan has against it.
ghost use Rattle.std.specs.Prelude.{◌≡◌, [], ◌∷◌, codes, if◌then◌else◌};
ghost use Rattle.std.specs.Prelude.{map, is_ok, OnOk, OnErr, false};
ghost use Rattle.text_io.specs.Counted.{counted_inner, failures_of};
ghost use Rattle.text_io.specs.Sink.{held_back, Puts, Breaks};
ghost use Rattle.text_io.specs.Writing.{WritesText};
ghost use Rattle.depgraph.specs.Rotations.{turn_of};
ghost use Rattle.check_commands.specs.Code.Listing.{end_text, head_text, items_text};
ghost use Rattle.check_commands.specs.Code.Listing.{other_text, others_text, told_against};
ghost use Rattle.check_commands.specs.VerdictText.{rejected_line, turn_text};
ghost use Rattle.check_commands.specs.FaultsText.{comma, faults_text, of_plan};

use crate::told::{Against, put_told, put_turn};
use checker::Faults;
use depgraph::Rotation;
use ending::{Piece, put_ended};
use model::PlanFault;
use std::io::Write;
use text_io::{Counted, Sink, WriteFault};

/// How many faults were listed, how many different agents are named in them, and whether there are
/// more.
#[derive(Clone, Copy)]
struct Ends {
    listed: usize,
    agents: u64,
    more: bool,
}

/// Writes faults, how many they are, and how many agents are named. The writer is not flushed.
// Compiled by itself, for its room on the stack.
#[inline(never)]
pub(crate) fn write_faults<W: Write>(
    faults: &Faults,
    json: bool,
    writer: &mut Counted<W>,
) -> Result<(), WriteFault>
    ensures { WritesText (is_ok result) (W.contents (counted_inner writer.old))
        (W.contents (counted_inner writer.new)) (failures_of writer.old) (failures_of writer.new)
        (faults_text json (map of_plan faults.now.listed.items) faults.now.agents faults.now.more) }
{
    let mut sink = Sink::new(writer);
    put_faults(&mut sink, json, faults)
}

fn put_faults<W: Write>(
    sink: &mut Sink<'_, W>,
    json: bool,
    faults: &Faults,
) -> Result<(), WriteFault>
    ensures ok { OnOk result
        (Puts W.contents sink.old sink.new
        (faults_text json (map of_plan faults.now.listed.items) faults.now.agents faults.now.more)) }
    ensures none_held { OnOk result (held_back sink.new ≡ []) }
    ensures err { OnErr result
        (Breaks W.contents sink.old sink.new
        (faults_text json (map of_plan faults.now.listed.items) faults.now.agents faults.now.more)) }
{
    let ends = Ends {
        listed: faults.listed.len(),
        agents: u64::from(faults.agents),
        more: faults.more,
    };
    put_head(sink, json)?;
    put_items(sink, json, &faults.listed)?;
    put_end(sink, json, &ends)?;
    sink.hand_on()
}

/// Writes the one thing that a plan has against it, in which so many agents are named. The writer
/// is not flushed.
// Compiled by itself, for its room on the stack.
#[inline(never)]
pub(crate) fn write_only<W: Write>(
    told: Against<'_>,
    agents: u64,
    json: bool,
    writer: &mut Counted<W>,
) -> Result<(), WriteFault>
    ensures { WritesText (is_ok result) (W.contents (counted_inner writer.old))
        (W.contents (counted_inner writer.new)) (failures_of writer.old) (failures_of writer.new)
        (faults_text json (told_against told.entry ∷ []) agents false) }
{
    let mut sink = Sink::new(writer);
    put_only(&mut sink, told, agents, json)
}

fn put_only<W: Write>(
    sink: &mut Sink<'_, W>,
    told: Against<'_>,
    agents: u64,
    json: bool,
) -> Result<(), WriteFault>
    ensures ok { OnOk result
        (Puts W.contents sink.old sink.new
        (faults_text json (told_against told.entry ∷ []) agents false)) }
    ensures none_held { OnOk result (held_back sink.new ≡ []) }
    ensures err { OnErr result
        (Breaks W.contents sink.old sink.new
        (faults_text json (told_against told.entry ∷ []) agents false)) }
{
    let ends = Ends {
        listed: 1,
        agents,
        more: false,
    };
    put_head(sink, json)?;
    put_told(sink, json, told)?;
    put_end(sink, json, &ends)?;
    sink.hand_on()
}

/// Writes the line of a plan that is rejected for a rotation. The writer is not flushed.
// Compiled by itself, for its room on the stack.
#[inline(never)]
pub(crate) fn write_turn<W: Write>(
    rotation: &Rotation,
    json: bool,
    writer: &mut Counted<W>,
) -> Result<(), WriteFault>
    ensures { WritesText (is_ok result) (W.contents (counted_inner writer.old))
        (W.contents (counted_inner writer.new)) (failures_of writer.old) (failures_of writer.new)
        (rejected_line json (turn_text (turn_of rotation.now))) }
{
    let mut sink = Sink::new(writer);
    put_turn_line(&mut sink, rotation, json)
}

fn put_turn_line<W: Write>(
    sink: &mut Sink<'_, W>,
    rotation: &Rotation,
    json: bool,
) -> Result<(), WriteFault>
    ensures ok { OnOk result
        (Puts W.contents sink.old sink.new (rejected_line json (turn_text (turn_of rotation.now)))) }
    ensures none_held { OnOk result (held_back sink.new ≡ []) }
    ensures err { OnErr result
        (Breaks W.contents sink.old sink.new
        (rejected_line json (turn_text (turn_of rotation.now)))) }
{
    put_turn(sink, turn_head(json), rotation, turn_end(json))?;
    sink.hand_on()
}

/// What the step of a rotation follows.
fn turn_head(json: bool) -> &'static [u8]
    ensures { result.now
        ≡ (if json then codes "{\"accepted\":false,\"fault\":\"Rotation" else codes
        "rejected Rotation") }
{
    if json {
        b"{\"accepted\":false,\"fault\":\"Rotation"
    } else {
        b"rejected Rotation"
    }
}

fn turn_end(json: bool) -> &'static [u8]
    ensures { result.now ≡ (if json then codes "\"}\n" else codes "\n") }
{
    if json { b"\"}\n" } else { b"\n" }
}

fn put_head<W: Write>(sink: &mut Sink<'_, W>, json: bool) -> Result<(), WriteFault>
    ensures ok { OnOk result (Puts W.contents sink.old sink.new (head_text json)) }
    ensures err { OnErr result (Breaks W.contents sink.old sink.new (head_text json)) }
{
    if json {
        sink.put(b"{\"accepted\":false,\"faults\":[")
    } else {
        Ok(())
    }
}

/// Puts faults; as JSON with a comma between each two.
fn put_items<W: Write>(
    sink: &mut Sink<'_, W>,
    json: bool,
    faults: &[PlanFault],
) -> Result<(), WriteFault>
    ensures ok { OnOk result
        (Puts W.contents sink.old sink.new (items_text json (map of_plan faults.now))) }
    ensures err { OnErr result
        (Breaks W.contents sink.old sink.new (items_text json (map of_plan faults.now))) }
{
    let Some((first, others)) = faults.split_first() else {
        return Ok(());
    };
    put_told(sink, json, Against::Plan(*first))?;
    put_others(sink, json, others)
}

/// Puts further ones.
fn put_others<W: Write>(
    sink: &mut Sink<'_, W>,
    json: bool,
    faults: &[PlanFault],
) -> Result<(), WriteFault>
    ensures ok { OnOk result
        (Puts W.contents sink.old sink.new (others_text json (map of_plan faults.now))) }
    ensures err { OnErr result
        (Breaks W.contents sink.old sink.new (others_text json (map of_plan faults.now))) }
{
    for fault in faults {
        put_other(sink, json, *fault)?;
    }
    Ok(())
}

fn put_other<W: Write>(
    sink: &mut Sink<'_, W>,
    json: bool,
    fault: PlanFault,
) -> Result<(), WriteFault>
    ensures ok { OnOk result (Puts W.contents sink.old sink.new (other_text json (of_plan fault))) }
    ensures err { OnErr result
        (Breaks W.contents sink.old sink.new (other_text json (of_plan fault))) }
{
    sink.put(separator(json))?;
    put_told(sink, json, Against::Plan(fault))
}

/// What stands between two faults.
fn separator(json: bool) -> &'static [u8]
    ensures { result.now ≡ (if json then comma ∷ [] else []) }
{
    if json { b"," } else { b"" }
}

fn put_end<W: Write>(sink: &mut Sink<'_, W>, json: bool, ends: &Ends) -> Result<(), WriteFault>
    ensures ok { OnOk result
        (Puts W.contents sink.old sink.new
        (end_text json ends.now.listed ends.now.agents ends.now.more)) }
    ensures err { OnErr result
        (Breaks W.contents sink.old sink.new
        (end_text json ends.now.listed ends.now.agents ends.now.more)) }
{
    if json {
        let agents = Piece::new(b"],\"agents\":", u128::from(ends.agents));
        return put_ended(sink, &[agents], json_end(ends.more));
    }
    let listed = Piece::new(b"faults ", ends.listed as u128);
    let agents = Piece::new(b" agents ", u128::from(ends.agents));
    put_ended(sink, &[listed, agents], line_end(ends.more))
}

fn json_end(more: bool) -> &'static [u8]
    ensures { result.now
        ≡ (if more then codes ",\"more\":true}\n" else codes ",\"more\":false}\n") }
{
    if more {
        b",\"more\":true}\n"
    } else {
        b",\"more\":false}\n"
    }
}

fn line_end(more: bool) -> &'static [u8]
    ensures { result.now ≡ (if more then codes " more\n" else codes "\n") }
{
    if more { b" more\n" } else { b"\n" }
}
