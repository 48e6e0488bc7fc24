//! `mapf lost`: says in which cells a robot may be that is lost.
ghost use Rattle.std.specs.Prelude.{◌≡◌, ◌+◌, ◌<◌, ◌≤◌, [], length, Some, None};
ghost use Rattle.std.specs.Prelude.{is_ok, OnErr, OnOk};
ghost use Rattle.text_io.specs.Counted.{counted_inner, failures_of};
ghost use Rattle.text_io.specs.Sink.{held_back, Breaks, Puts};
ghost use Rattle.text_io.specs.Writing.{WritesText};
ghost use Rattle.model.specs.History.{at};
ghost use Rattle.model.specs.Replies.{answer_of};
ghost use Rattle.model.specs.Rules.{path_cell};
ghost use Rattle.model.specs.Timetable.{Track, Timetable, track_of};
ghost use Rattle.depgraph.specs.AgentParts.{IsPartOf};
ghost use Rattle.ending.specs.Ending.{EndsAndTells, end_of};
ghost use Rattle.fleet_commands.specs.FoundTapes.{begun_by};
ghost use Rattle.fleet_commands.specs.LostPlaces.{IsFurthest, places_text};
ghost use Rattle.fleet_commands.specs.LostCommand.{AnswersLost, AreLostPlaces, EndsByTrack};

use crate::found_tapes::{begun_by, finished_by, read_tapes};
use crate::handover_fault::HandoverFault;
use crate::keeping::kept_by_need;
use crate::known_tapes::hold_one_run;
use crate::one_run::unmet_by;
use agent_commands::{AgentFault, ReadFiles};
use depgraph::{Dependencies, Part};
use ending::{Ending, Status, conclude, finish};
use event_text::put_reply;
use model::Reply;
use planned::read_dependencies;
use std::io::{Read, Write};
use text_io::{Counted, Sink, WriteFault};

/// The first and the last place on an agent's path in which its robot may be, each by how many
/// moves lead there.
#[derive(Clone, Copy)]
pub(crate) struct LostPlaces {
    pub(crate) first: u32,
    pub(crate) last: u32,
}

/// As `perform`, with a fault's line on `err`. The answer is the exit status, which stays where
/// `err` fails.
pub fn lost_cmd<R: ReadFiles + AllocGlobal, M: Read, P: Read, W: Write, E: Write>(
    rt: &R,
    map: &mut Counted<M>,
    plan: &mut Counted<P>,
    tapes: &str,
    agent: u16,
    out: &mut Counted<W>,
    err: &mut Counted<E>,
) -> u8
    ensures { EndsAndTells
        (AnswersLost M.remaining P.remaining R.was_done W.contents agent map.old map.new
        plan.old plan.new out.old out.new)
        E.contents err.old err.new result }
{
    conclude(perform(rt, map, plan, tapes, agent, out), err)
}

/// Reads a map from `map` and a plan from `plan`, checks the plan on the map, and then reads the
/// tape of each agent as `mapf status` does, of which each may have a fault. It writes to `out`
/// each place on the path of one agent in which its robot may be.
pub fn perform<R: ReadFiles + AllocGlobal, M: Read, P: Read, W: Write>(
    rt: &R,
    map: &mut Counted<M>,
    plan: &mut Counted<P>,
    tapes: &str,
    agent: u16,
    out: &mut Counted<W>,
) -> Ending
    ensures { AnswersLost M.remaining P.remaining R.was_done W.contents agent map.old map.new
        plan.old plan.new out.old out.new (end_of result) }
{
    match read_dependencies(rt.alloc(), map, plan) {
        Ok(dependencies) => tell(rt, &dependencies, tapes, agent, out),
        Err(fault) => Ending::gave_up(fault.words()),
    }
}

/// Tells the places of an agent, if the plan has it.
fn tell<R: ReadFiles + AllocGlobal, W: Write>(
    rt: &R,
    dependencies: &Dependencies,
    tapes: &str,
    agent: u16,
    out: &mut Counted<W>,
) -> Ending
    ensures { EndsByTrack R.was_done W.contents dependencies.now agent out.old out.new
        (end_of result) (track_of dependencies.now agent) }
{
    match dependencies.part(agent) {
        Some(part) => tell_places(rt, dependencies, &part, tapes, out),
        None => Ending::gave_up(HandoverFault::NoSuchAgent.words()),
    }
}

/// Tells the places of the agent whose part this is.
fn tell_places<R: ReadFiles + AllocGlobal, W: Write>(
    rt: &R,
    dependencies: &Dependencies,
    part: &Part<'_>,
    tapes: &str,
    out: &mut Counted<W>,
) -> Ending
    requires { IsPartOf dependencies.now part.now }
    ensures { EndsByTrack R.was_done W.contents dependencies.now part.now.agent out.old
        out.new (end_of result) (track_of dependencies.now part.now.agent) }
{
    match lost_places(rt, dependencies, part, tapes) {
        Ok(places) => {
            let written = write_places(part, places, out);
            finish(written, Ending::answered_with(Status::Done), out)
        }
        Err(fault) => Ending::gave_up(fault.words()),
    }
}

/// Reads the tapes, and finds the places of the agent whose part this is.
fn lost_places<R: ReadFiles + AllocGlobal>(
    rt: &R,
    dependencies: &Dependencies,
    part: &Part<'_>,
    tapes: &str,
) -> Result<LostPlaces, HandoverFault>
    requires { IsPartOf dependencies.now part.now }
    ensures { (track : Track) → track_of dependencies.now part.now.agent ≡ Some track
        → AreLostPlaces R.was_done dependencies.now part.now.agent track result }
{
    let found = read_tapes(rt, dependencies, tapes)?;
    hold_one_run(rt.alloc(), dependencies, &found, None)?;
    Ok(LostPlaces {
        first: finished_by(&found, part.agent()),
        last: furthest(part, &found),
    })
}

/// How many moves the agent's drive may have begun.
fn furthest(part: &Part<'_>, found: &[Result<u32, AgentFault>]) -> u32
    requires { begun_by found.now part.now.agent ≤ length part.now.needs }
    ensures { (tt : Timetable) (is : IsPartOf tt part.now)
        → IsFurthest tt found.now part.now.agent is.track result }
{
    let moves = part.own_moves();
    for number in begun_by(found, part.agent())..moves {
        if unmet_by(found, None, kept_by_need(part, found, number)).is_some() {
            return number;
        }
    }
    moves
}

/// Writes the places of an agent. The writer is not flushed.
// Compiled by itself, for its room on the stack.
#[inline(never)]
fn write_places<W: Write>(
    part: &Part<'_>,
    places: LostPlaces,
    writer: &mut Counted<W>,
) -> Result<(), WriteFault>
    requires { places.last ≤ length part.now.needs }
    ensures { (tt : Timetable) (is : IsPartOf tt part.now)
        → WritesText (is_ok result) (W.contents (counted_inner writer.old))
        (W.contents (counted_inner writer.new)) (failures_of writer.old) (failures_of writer.new)
        (places_text is.track places.first places.last) }
{
    let mut sink = Sink::new(writer);
    put_places(&mut sink, part, places)
}

/// Puts the places, and hands them on.
fn put_places<W: Write>(
    sink: &mut Sink<'_, W>,
    part: &Part<'_>,
    places: LostPlaces,
) -> Result<(), WriteFault>
    requires { places.last ≤ length part.now.needs }
    ensures ok { (tt : Timetable) (is : IsPartOf tt part.now) → OnOk result
        (Puts W.contents sink.old sink.new (places_text is.track places.first places.last)) }
    ensures none_held { OnOk result (held_back sink.new ≡ []) }
    ensures err { (tt : Timetable) (is : IsPartOf tt part.now) → OnErr result
        (Breaks W.contents sink.old sink.new (places_text is.track places.first places.last)) }
{
    put_all_places(sink, part, places)?;
    sink.hand_on()
}

/// Puts one place after another.
fn put_all_places<W: Write>(
    sink: &mut Sink<'_, W>,
    part: &Part<'_>,
    places: LostPlaces,
) -> Result<(), WriteFault>
    requires { places.last ≤ length part.now.needs }
    ensures ok { (tt : Timetable) (is : IsPartOf tt part.now) → OnOk result
        (Puts W.contents sink.old sink.new (places_text is.track places.first places.last)) }
    ensures err { (tt : Timetable) (is : IsPartOf tt part.now) → OnErr result
        (Breaks W.contents sink.old sink.new (places_text is.track places.first places.last)) }
{
    // There are few enough for their numbers.
    let _moves = part.own_moves();
    for number in places.first..places.last + 1 {
        put_reply(sink, &place(part, number))?;
    }
    Ok(())
}

/// A place on the agent's path: its cell, and how many moves lead there.
fn place(part: &Part<'_>, number: u32) -> Reply
    requires { number ≤ length part.now.needs }
    ensures { (tt : Timetable) (is : IsPartOf tt part.now)
        → answer_of result ≡ at (path_cell is.track number) number }
{
    Reply::At(part.cell(number).unwrap(), number)
}
