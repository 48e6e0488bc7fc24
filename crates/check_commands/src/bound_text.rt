//! The texts of what plans cost, and at least.
ghost use Rattle.std.specs.Prelude.{◌≡◌, ◌++◌, [], length, false, true, sum, is_ok, OnOk, OnErr};
ghost use Rattle.text_io.specs.Counted.{counted_inner, failures_of};
ghost use Rattle.text_io.specs.Sink.{held_back, Puts, Breaks};
ghost use Rattle.text_io.specs.Writing.{WritesText};
ghost use Rattle.bounding.specs.Bounding.{greatest_bound};
ghost use Rattle.model.specs.Costs.{makespan, sum_of_costs};
ghost use Rattle.check_commands.specs.BoundCommand.{agent_bound_line, agent_bound_lines};
ghost use Rattle.check_commands.specs.BoundCommand.{agent_bounds_json, bound_text};
ghost use Rattle.check_commands.specs.BoundCommand.{costs_and_bounds, sums_json};
ghost use Rattle.check_commands.specs.BoundCommand.{sums_line};
ghost use Rattle.check_commands.specs.Code.Bounds.{comma_if, object_text};
ghost use Rattle.check_commands.specs.VerdictText.{bounded_line};

use crate::totals::{greatest_of, sum_of};
use checker::CheckedPlan;
use ending::{Piece, put_ended};
use std::io::Write;
use text_io::{Counted, Sink, WriteFault};

/// Writes that a plan is accepted, and what such plans cost at least. The writer is not flushed.
// Compiled by itself, for its room on the stack.
#[inline(never)]
pub(crate) fn write_bounded<W: Write>(
    plan: &CheckedPlan,
    bounds: &[u32],
    json: bool,
    writer: &mut Counted<W>,
) -> Result<(), WriteFault>
    ensures { WritesText (is_ok result) (W.contents (counted_inner writer.old))
        (W.contents (counted_inner writer.new)) (failures_of writer.old) (failures_of writer.new)
        (bounded_line json (length plan.now.timetable.tracks) (sum_of_costs plan.now.timetable)
        (makespan plan.now.timetable) (sum bounds.now) (greatest_bound bounds.now)) }
{
    let mut sink = Sink::new(writer);
    put_bounded(&mut sink, plan, bounds, json)
}

fn put_bounded<W: Write>(
    sink: &mut Sink<'_, W>,
    plan: &CheckedPlan,
    bounds: &[u32],
    json: bool,
) -> Result<(), WriteFault>
    ensures ok { OnOk result
        (Puts W.contents sink.old sink.new
        (bounded_line json (length plan.now.timetable.tracks) (sum_of_costs plan.now.timetable)
        (makespan plan.now.timetable) (sum bounds.now) (greatest_bound bounds.now))) }
    ensures none_held { OnOk result (held_back sink.new ≡ []) }
    ensures err { OnErr result
        (Breaks W.contents sink.old sink.new
        (bounded_line json (length plan.now.timetable.tracks) (sum_of_costs plan.now.timetable)
        (makespan plan.now.timetable) (sum bounds.now) (greatest_bound bounds.now))) }
{
    put_bounded_line(sink, plan, bounds, json)?;
    sink.hand_on()
}

fn put_bounded_line<W: Write>(
    sink: &mut Sink<'_, W>,
    plan: &CheckedPlan,
    bounds: &[u32],
    json: bool,
) -> Result<(), WriteFault>
    ensures ok { OnOk result
        (Puts W.contents sink.old sink.new
        (bounded_line json (length plan.now.timetable.tracks) (sum_of_costs plan.now.timetable)
        (makespan plan.now.timetable) (sum bounds.now) (greatest_bound bounds.now))) }
    ensures err { OnErr result
        (Breaks W.contents sink.old sink.new
        (bounded_line json (length plan.now.timetable.tracks) (sum_of_costs plan.now.timetable)
        (makespan plan.now.timetable) (sum bounds.now) (greatest_bound bounds.now))) }
{
    if json {
        put_bounded_json(sink, plan, bounds)
    } else {
        put_bounded_words(sink, plan, bounds)
    }
}

fn put_bounded_json<W: Write>(
    sink: &mut Sink<'_, W>,
    plan: &CheckedPlan,
    bounds: &[u32],
) -> Result<(), WriteFault>
    ensures ok { OnOk result
        (Puts W.contents sink.old sink.new
        (bounded_line true (length plan.now.timetable.tracks) (sum_of_costs plan.now.timetable)
        (makespan plan.now.timetable) (sum bounds.now) (greatest_bound bounds.now))) }
    ensures err { OnErr result
        (Breaks W.contents sink.old sink.new
        (bounded_line true (length plan.now.timetable.tracks) (sum_of_costs plan.now.timetable)
        (makespan plan.now.timetable) (sum bounds.now) (greatest_bound bounds.now))) }
{
    let pieces = [
        Piece::new(b"{\"accepted\":true,\"agents\":", u128::from(plan.agents())),
        Piece::new(b",\"cost\":", u128::from(plan.sum_of_costs())),
        Piece::new(b",\"makespan\":", u128::from(plan.makespan())),
        Piece::new(b",\"cost_bound\":", sum_of(bounds)),
        Piece::new(b",\"makespan_bound\":", u128::from(greatest_of(bounds))),
    ];
    put_ended(sink, &pieces, b"}\n")
}

fn put_bounded_words<W: Write>(
    sink: &mut Sink<'_, W>,
    plan: &CheckedPlan,
    bounds: &[u32],
) -> Result<(), WriteFault>
    ensures ok { OnOk result
        (Puts W.contents sink.old sink.new
        (bounded_line false (length plan.now.timetable.tracks) (sum_of_costs plan.now.timetable)
        (makespan plan.now.timetable) (sum bounds.now) (greatest_bound bounds.now))) }
    ensures err { OnErr result
        (Breaks W.contents sink.old sink.new
        (bounded_line false (length plan.now.timetable.tracks) (sum_of_costs plan.now.timetable)
        (makespan plan.now.timetable) (sum bounds.now) (greatest_bound bounds.now))) }
{
    let pieces = [
        Piece::new(b"accepted agents ", u128::from(plan.agents())),
        Piece::new(b" cost ", u128::from(plan.sum_of_costs())),
        Piece::new(b" of ", sum_of(bounds)),
        Piece::new(b" makespan ", u128::from(plan.makespan())),
        Piece::new(b" of ", u128::from(greatest_of(bounds))),
    ];
    put_ended(sink, &pieces, b"\n")
}

/// What is told of a plan: each agent by itself too, or not, and as JSON, or not.
#[derive(Clone, Copy, Debug)]
pub struct BoundForm {
    pub agents: bool,
    pub json: bool,
}

/// Writes what a plan costs, and at least. The writer is not flushed.
// Compiled by itself, for its room on the stack.
#[inline(never)]
pub(crate) fn write_bounds<W: Write>(
    plan: &CheckedPlan,
    bounds: &[u32],
    form: BoundForm,
    writer: &mut Counted<W>,
) -> Result<(), WriteFault>
    ensures { WritesText (is_ok result) (W.contents (counted_inner writer.old))
        (W.contents (counted_inner writer.new)) (failures_of writer.old) (failures_of writer.new)
        (bound_text form.agents form.json (costs_and_bounds plan.now.timetable.tracks bounds.now)
        (sum_of_costs plan.now.timetable) (sum bounds.now) (makespan plan.now.timetable)
        (greatest_bound bounds.now)) }
{
    let mut sink = Sink::new(writer);
    put_bounds(&mut sink, plan, bounds, form)
}

fn put_bounds<W: Write>(
    sink: &mut Sink<'_, W>,
    plan: &CheckedPlan,
    bounds: &[u32],
    form: BoundForm,
) -> Result<(), WriteFault>
    ensures ok { OnOk result
        (Puts W.contents sink.old sink.new
        (bound_text form.agents form.json (costs_and_bounds plan.now.timetable.tracks bounds.now)
        (sum_of_costs plan.now.timetable) (sum bounds.now) (makespan plan.now.timetable)
        (greatest_bound bounds.now))) }
    ensures none_held { OnOk result (held_back sink.new ≡ []) }
    ensures err { OnErr result
        (Breaks W.contents sink.old sink.new
        (bound_text form.agents form.json (costs_and_bounds plan.now.timetable.tracks bounds.now)
        (sum_of_costs plan.now.timetable) (sum bounds.now) (makespan plan.now.timetable)
        (greatest_bound bounds.now))) }
{
    put_bound_text(sink, plan, bounds, form)?;
    sink.hand_on()
}

fn put_bound_text<W: Write>(
    sink: &mut Sink<'_, W>,
    plan: &CheckedPlan,
    bounds: &[u32],
    form: BoundForm,
) -> Result<(), WriteFault>
    ensures ok { OnOk result
        (Puts W.contents sink.old sink.new
        (bound_text form.agents form.json (costs_and_bounds plan.now.timetable.tracks bounds.now)
        (sum_of_costs plan.now.timetable) (sum bounds.now) (makespan plan.now.timetable)
        (greatest_bound bounds.now))) }
    ensures err { OnErr result
        (Breaks W.contents sink.old sink.new
        (bound_text form.agents form.json (costs_and_bounds plan.now.timetable.tracks bounds.now)
        (sum_of_costs plan.now.timetable) (sum bounds.now) (makespan plan.now.timetable)
        (greatest_bound bounds.now))) }
{
    match (form.json, form.agents) {
        (false, false) => put_sums(sink, plan, bounds),
        (false, true) => put_lines(sink, plan, bounds),
        (true, false) => put_sums_json(sink, plan, bounds, b"}\n"),
        (true, true) => put_all_json(sink, plan, bounds),
    }
}

/// Puts a line for each agent, and the last line.
fn put_lines<W: Write>(
    sink: &mut Sink<'_, W>,
    plan: &CheckedPlan,
    bounds: &[u32],
) -> Result<(), WriteFault>
    ensures ok { OnOk result
        (Puts W.contents sink.old sink.new
        (bound_text true false (costs_and_bounds plan.now.timetable.tracks bounds.now)
        (sum_of_costs plan.now.timetable) (sum bounds.now) (makespan plan.now.timetable)
        (greatest_bound bounds.now))) }
    ensures err { OnErr result
        (Breaks W.contents sink.old sink.new
        (bound_text true false (costs_and_bounds plan.now.timetable.tracks bounds.now)
        (sum_of_costs plan.now.timetable) (sum bounds.now) (makespan plan.now.timetable)
        (greatest_bound bounds.now))) }
{
    put_agent_lines(sink, plan, bounds)?;
    put_sums(sink, plan, bounds)
}

/// Puts the whole object, with the agents.
fn put_all_json<W: Write>(
    sink: &mut Sink<'_, W>,
    plan: &CheckedPlan,
    bounds: &[u32],
) -> Result<(), WriteFault>
    ensures ok { OnOk result
        (Puts W.contents sink.old sink.new
        (bound_text true true (costs_and_bounds plan.now.timetable.tracks bounds.now)
        (sum_of_costs plan.now.timetable) (sum bounds.now) (makespan plan.now.timetable)
        (greatest_bound bounds.now))) }
    ensures err { OnErr result
        (Breaks W.contents sink.old sink.new
        (bound_text true true (costs_and_bounds plan.now.timetable.tracks bounds.now)
        (sum_of_costs plan.now.timetable) (sum bounds.now) (makespan plan.now.timetable)
        (greatest_bound bounds.now))) }
{
    put_sums_json(sink, plan, bounds, b",\"agents\":[")?;
    put_objects(sink, plan, bounds)?;
    sink.put(b"]}\n")
}

/// Puts the last line in words.
fn put_sums<W: Write>(
    sink: &mut Sink<'_, W>,
    plan: &CheckedPlan,
    bounds: &[u32],
) -> Result<(), WriteFault>
    ensures ok { OnOk result
        (Puts W.contents sink.old sink.new
        (sums_line (sum_of_costs plan.now.timetable) (sum bounds.now) (makespan plan.now.timetable)
        (greatest_bound bounds.now))) }
    ensures err { OnErr result
        (Breaks W.contents sink.old sink.new
        (sums_line (sum_of_costs plan.now.timetable) (sum bounds.now) (makespan plan.now.timetable)
        (greatest_bound bounds.now))) }
{
    let pieces = [
        Piece::new(b"cost ", u128::from(plan.sum_of_costs())),
        Piece::new(b" of ", sum_of(bounds)),
        Piece::new(b" makespan ", u128::from(plan.makespan())),
        Piece::new(b" of ", u128::from(greatest_of(bounds))),
    ];
    put_ended(sink, &pieces, b"\n")
}

/// Puts the same as JSON, with what ends it.
fn put_sums_json<W: Write>(
    sink: &mut Sink<'_, W>,
    plan: &CheckedPlan,
    bounds: &[u32],
    end: &[u8],
) -> Result<(), WriteFault>
    ensures ok { OnOk result
        (Puts W.contents sink.old sink.new
        (sums_json (sum_of_costs plan.now.timetable) (sum bounds.now) (makespan plan.now.timetable)
        (greatest_bound bounds.now) ++ end.now)) }
    ensures err { OnErr result
        (Breaks W.contents sink.old sink.new
        (sums_json (sum_of_costs plan.now.timetable) (sum bounds.now) (makespan plan.now.timetable)
        (greatest_bound bounds.now) ++ end.now)) }
{
    let pieces = [
        Piece::new(b"{\"cost\":", u128::from(plan.sum_of_costs())),
        Piece::new(b",\"cost_bound\":", sum_of(bounds)),
        Piece::new(b",\"makespan\":", u128::from(plan.makespan())),
        Piece::new(b",\"makespan_bound\":", u128::from(greatest_of(bounds))),
    ];
    put_ended(sink, &pieces, end)
}

/// Puts the lines of the agents.
fn put_agent_lines<W: Write>(
    sink: &mut Sink<'_, W>,
    plan: &CheckedPlan,
    bounds: &[u32],
) -> Result<(), WriteFault>
    ensures ok { OnOk result
        (Puts W.contents sink.old sink.new
        (agent_bound_lines 0 (costs_and_bounds plan.now.timetable.tracks bounds.now))) }
    ensures err { OnErr result
        (Breaks W.contents sink.old sink.new
        (agent_bound_lines 0 (costs_and_bounds plan.now.timetable.tracks bounds.now))) }
{
    for agent in 0..plan.agents() {
        let Some(cost) = plan.cost(agent) else {
            return Ok(());
        };
        let Some(bound) = bounds.get(agent as usize) else {
            return Ok(());
        };
        put_agent_line(sink, agent, cost, *bound)?;
    }
    Ok(())
}

fn put_agent_line<W: Write>(
    sink: &mut Sink<'_, W>,
    agent: u32,
    cost: u32,
    bound: u32,
) -> Result<(), WriteFault>
    ensures ok { OnOk result
        (Puts W.contents sink.old sink.new (agent_bound_line agent (cost, bound))) }
    ensures err { OnErr result
        (Breaks W.contents sink.old sink.new (agent_bound_line agent (cost, bound))) }
{
    let pieces = [
        Piece::new(b"agent ", u128::from(agent)),
        Piece::new(b" cost ", u128::from(cost)),
        Piece::new(b" of ", u128::from(bound)),
    ];
    put_ended(sink, &pieces, b"\n")
}

/// Puts an object for each agent, with a comma between each two.
fn put_objects<W: Write>(
    sink: &mut Sink<'_, W>,
    plan: &CheckedPlan,
    bounds: &[u32],
) -> Result<(), WriteFault>
    ensures ok { OnOk result
        (Puts W.contents sink.old sink.new
        (agent_bounds_json (costs_and_bounds plan.now.timetable.tracks bounds.now))) }
    ensures err { OnErr result
        (Breaks W.contents sink.old sink.new
        (agent_bounds_json (costs_and_bounds plan.now.timetable.tracks bounds.now))) }
{
    for agent in 0..plan.agents() {
        let Some(cost) = plan.cost(agent) else {
            return Ok(());
        };
        let Some(bound) = bounds.get(agent as usize) else {
            return Ok(());
        };
        put_object(sink, agent > 0, cost, *bound)?;
    }
    Ok(())
}

/// Puts the object of an agent, behind a comma where it follows another one.
fn put_object<W: Write>(
    sink: &mut Sink<'_, W>,
    follows: bool,
    cost: u32,
    bound: u32,
) -> Result<(), WriteFault>
    ensures ok { OnOk result
        (Puts W.contents sink.old sink.new (object_text follows (cost, bound))) }
    ensures err { OnErr result
        (Breaks W.contents sink.old sink.new (object_text follows (cost, bound))) }
{
    sink.put(separator(follows))?;
    let pieces = [
        Piece::new(b"{\"cost\":", u128::from(cost)),
        Piece::new(b",\"bound\":", u128::from(bound)),
    ];
    put_ended(sink, &pieces, b"}")
}

fn separator(follows: bool) -> &'static [u8]
    ensures { result.now ≡ comma_if follows }
{
    if follows { b"," } else { b"" }
}
