//! The text of a plan's dependencies.
ghost use Rattle.std.specs.Prelude.{◌≡◌, ◌<◌, [], ◌∷◌, ◌++◌, codes, decimal, List, Some};
ghost use Rattle.std.specs.Prelude.{length, map, sum_by, count_by, is_some, is_ok, OnOk, OnErr};
ghost use Rattle.text_io.specs.Text.{line_feed, ended, spaced_numbers};
ghost use Rattle.text_io.specs.Counted.{counted_inner, failures_of};
ghost use Rattle.text_io.specs.Sink.{held_back, Puts, Breaks};
ghost use Rattle.text_io.specs.Writing.{WritesText};
ghost use Rattle.model.specs.Timetable.{Track, moves, track_of};
ghost use Rattle.depgraph.specs.Rotations.{Turn, AreRotations, turns_of};
ghost use Rattle.plan_commands.specs.DepsText.{need_lines, all_need_lines, rotation_line};
ghost use Rattle.plan_commands.specs.DepsText.{counts_line, deps_text};
ghost use Rattle.plan_commands.specs.Code.Dependencies.{HasNeedsOf, need_text};

use depgraph::{Dependencies, Part, Rotation};
use ending::put_number;
use std::io::Write;
use text_io::{Counted, Sink, WriteFault};

/// Writes what the moves of a plan wait for, and its rotations. The writer is not flushed.
pub(crate) fn write_deps<W: Write>(
    graph: &Dependencies,
    writer: &mut Counted<W>,
) -> Result<(), WriteFault>
    ensures { (turns : List Turn) × AreRotations graph.now turns
        × WritesText (is_ok result) (W.contents (counted_inner writer.old))
        (W.contents (counted_inner writer.new)) (failures_of writer.old) (failures_of writer.new)
        (deps_text graph.now turns) }
{
    let rotations = graph.rotations();
    write_with_rotations(graph, rotations, writer)
}

/// Writes it with these rotations.
// Compiled by itself, for its room on the stack.
#[inline(never)]
fn write_with_rotations<W: Write>(
    graph: &Dependencies,
    rotations: &[Rotation],
    writer: &mut Counted<W>,
) -> Result<(), WriteFault>
    ensures { WritesText (is_ok result) (W.contents (counted_inner writer.old))
        (W.contents (counted_inner writer.new)) (failures_of writer.old) (failures_of writer.new)
        (deps_text graph.now (turns_of rotations.now)) }
{
    let mut sink = Sink::new(writer);
    put_deps(&mut sink, graph, rotations)
}

/// Puts the whole text, and hands it on.
fn put_deps<W: Write>(
    sink: &mut Sink<'_, W>,
    graph: &Dependencies,
    rotations: &[Rotation],
) -> Result<(), WriteFault>
    ensures ok { OnOk result
        (Puts W.contents sink.old sink.new (deps_text graph.now (turns_of rotations.now))) }
    ensures none_held { OnOk result (held_back sink.new ≡ []) }
    ensures err { OnErr result
        (Breaks W.contents sink.old sink.new (deps_text graph.now (turns_of rotations.now))) }
{
    put_counts(sink, graph.agents(), &count(graph), rotations.len())?;
    put_all_needs(sink, graph)?;
    put_rotations(sink, rotations)?;
    sink.hand_on()
}

/// How many moves the agents make, and how many of them have a need.
#[derive(Clone, Copy)]
struct Counts {
    moves: u32,
    needs: u32,
}

/// Counts the moves, and those that have a need.
fn count(graph: &Dependencies) -> Counts
    ensures moves { result.moves ≡ sum_by moves graph.now.tracks }
    ensures needs { result.needs ≡ length (all_need_lines graph.now 0 graph.now.tracks) }
{
    let mut moves = 0;
    let mut needs = 0;
    for agent in 0..graph.agents() {
        let own_moves = moves_of(graph, agent);
        moves += own_moves;
        needs += count_needs(&part_of(graph, agent), own_moves);
    }
    Counts { moves, needs }
}

/// How many of so many moves of an agent have a need.
fn count_needs(part: &Part<'_>, moves: u32) -> u32
    requires { length part.now.needs ≡ moves }
    ensures { result ≡ count_by is_some part.now.needs }
{
    let mut count = 0;
    for k in 0..moves {
        if part.need(k).is_some() {
            count += 1;
        }
    }
    count
}

/// What an agent has of the dependencies.
fn part_of(graph: &Dependencies, agent: u32) -> Part<'_>
    requires { agent < length graph.now.tracks }
    ensures { HasNeedsOf graph.now agent result }
{
    // There are few enough for their numbers.
    let _agents = graph.agents();
    graph.part(agent as u16).unwrap()
}

/// How many moves an agent makes.
fn moves_of(graph: &Dependencies, agent: u32) -> u32
    requires { agent < length graph.now.tracks }
    ensures { (track : Track) → track_of graph.now agent ≡ Some track → result ≡ moves track }
{
    graph.moves(agent).unwrap()
}

/// Puts the first line.
fn put_counts<W: Write>(
    sink: &mut Sink<'_, W>,
    agents: u32,
    counts: &Counts,
    rotations: usize,
) -> Result<(), WriteFault>
    ensures ok { OnOk result
        (Puts W.contents sink.old sink.new
        (counts_line agents counts.now.moves counts.now.needs rotations ++ line_feed ∷ [])) }
    ensures err { OnErr result
        (Breaks W.contents sink.old sink.new
        (counts_line agents counts.now.moves counts.now.needs rotations ++ line_feed ∷ [])) }
{
    put_number(sink, b"agents", agents as u64)?;
    put_number(sink, b" moves", counts.moves as u64)?;
    put_number(sink, b" needs", counts.needs as u64)?;
    put_number(sink, b" rotations", rotations as u64)?;
    sink.put_byte(b'\n')
}

/// Puts a line for each move that has a need, of all agents.
fn put_all_needs<W: Write>(sink: &mut Sink<'_, W>, graph: &Dependencies) -> Result<(), WriteFault>
    ensures ok { OnOk result
        (Puts W.contents sink.old sink.new (ended (all_need_lines graph.now 0 graph.now.tracks))) }
    ensures err { OnErr result
        (Breaks W.contents sink.old sink.new (ended (all_need_lines graph.now 0 graph.now.tracks))) }
{
    for agent in 0..graph.agents() {
        put_needs(sink, agent, &part_of(graph, agent), moves_of(graph, agent))?;
    }
    Ok(())
}

/// Puts those of an agent, which makes so many moves.
fn put_needs<W: Write>(
    sink: &mut Sink<'_, W>,
    agent: u32,
    part: &Part<'_>,
    moves: u32,
) -> Result<(), WriteFault>
    requires { length part.now.needs ≡ moves }
    ensures ok { OnOk result
        (Puts W.contents sink.old sink.new (ended (need_lines agent 0 part.now.needs))) }
    ensures err { OnErr result
        (Breaks W.contents sink.old sink.new (ended (need_lines agent 0 part.now.needs))) }
{
    for k in 0..moves {
        put_need(sink, agent, k, part.need(k))?;
    }
    Ok(())
}

/// Puts the line of a move's need, if it has one: another agent, and how many moves that one must
/// have finished.
fn put_need<W: Write>(
    sink: &mut Sink<'_, W>,
    agent: u32,
    k: u32,
    need: Option<(u16, u32)>,
) -> Result<(), WriteFault>
    ensures ok { OnOk result (Puts W.contents sink.old sink.new (need_text agent k need)) }
    ensures err { OnErr result (Breaks W.contents sink.old sink.new (need_text agent k need)) }
{
    let Some((other, count)) = need else {
        return Ok(());
    };
    let numbers = [agent as u64, k as u64, other as u64, count as u64];
    sink.put_numbers(b"need", b' ', &numbers)?;
    sink.put_byte(b'\n')
}

/// Puts a line for each rotation.
fn put_rotations<W: Write>(sink: &mut Sink<'_, W>, rotations: &[Rotation]) -> Result<(), WriteFault>
    ensures ok { OnOk result
        (Puts W.contents sink.old sink.new (ended (map rotation_line (turns_of rotations.now)))) }
    ensures err { OnErr result
        (Breaks W.contents sink.old sink.new (ended (map rotation_line (turns_of rotations.now)))) }
{
    for rotation in rotations {
        put_rotation(sink, rotation.step, &rotation.agents)?;
    }
    Ok(())
}

/// Puts the line of a rotation: its step and its agents.
fn put_rotation<W: Write>(
    sink: &mut Sink<'_, W>,
    step: u32,
    agents: &[u16],
) -> Result<(), WriteFault>
    ensures ok { OnOk result
        (Puts W.contents sink.old sink.new
        (rotation_line (record { step = step; agents = agents.now }) ++ line_feed ∷ [])) }
    ensures err { OnErr result
        (Breaks W.contents sink.old sink.new
        (rotation_line (record { step = step; agents = agents.now }) ++ line_feed ∷ [])) }
{
    put_number(sink, b"rotation", step as u64)?;
    put_agents(sink, agents)?;
    sink.put_byte(b'\n')
}

/// Puts each agent behind a space.
fn put_agents<W: Write>(sink: &mut Sink<'_, W>, agents: &[u16]) -> Result<(), WriteFault>
    ensures ok { OnOk result (Puts W.contents sink.old sink.new (spaced_numbers agents.now)) }
    ensures err { OnErr result (Breaks W.contents sink.old sink.new (spaced_numbers agents.now)) }
{
    for agent in agents {
        sink.put_number_after(b' ', *agent as u64)?;
    }
    Ok(())
}
