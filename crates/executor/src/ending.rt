//! Events that bring every agent of a run to its end.
ghost use Rattle.std.specs.Prelude.{◌≡◌, ◌<◌, ◌≤◌, ◌+◌, ◌^◌, [], ◌∷◌, ◌++◌};
ghost use Rattle.std.specs.Prelude.{length, None, Some, IfSome, IfNone, IfOk, OnOk, slice_get};
ghost use Rattle.model.specs.Ready.{rest_events};
ghost use Rattle.executor.specs.Code.Leading.{is_opened_anew};
ghost use Rattle.executor.specs.Code.Waiting.{HasNoRotation, CompletesFrom};

use crate::arrival::have_arrived;
use agent::{Agent, CountedTape};
use depgraph::{Dependencies, Route};
use model::Event;
use std::alloc::{AllocError, Global};
use std::marker::Model;

/// How far an agent is by the events.
#[derive(Clone, Copy, Debug)]
pub struct Standing {
    /// How many moves it has finished.
    pub done: u32,
    /// The number of the message that it said last, and how many moves that one tells; before the
    /// first none.
    pub message: u64,
    pub told: u32,
    /// Where the place is kept of what its next move needs.
    pub next: usize,
}

/// How many moves of another an agent has heard to be finished by the events.
#[derive(Clone, Copy, Debug)]
pub struct Heard {
    pub agent: u16,
    pub of: u16,
    pub number: u32,
}

/// For whom the needs of another agent's moves were seen last, and the place for it.
#[derive(Clone, Copy)]
struct Seen {
    agent: Option<u16>,
    place: u32,
}

/// Events after a run, and where they lead.
#[derive(Drop)]
pub struct Ending<'r, 'g> {
    graph: &'g Dependencies,
    agents: &'r [Agent<'g, CountedTape>],
    events: Vec<Event>,
    messages: u64,
    standings: Vec<Standing>,
    /// For each move that was left, agent after agent, where in `heard` that stands of which its
    /// need asks.
    places: Vec<u32>,
    heard: Vec<Heard>,
}

impl<'r, 'g> Model for Ending<'r, 'g> {
    ghost use Rattle.std.specs.Prelude.{◌≡◌, ◌≤◌, ◌*◌, ◌+◌, ◌^◌, length};
    ghost use Rattle.executor.specs.Code.Leading.{EndingState};

    ghost Value = { EndingState };

    ghost view = { λ e. record {
      timetable = e.graph.now;
      agents = e.agents.now;
      events = e.events.items;
      messages = e.messages;
      standings = e.standings.items;
      heard =
          e.heard.items;
    } };

    ghost invariant = { λ e. (length e.agents.now ≡ length e.graph.now.tracks)
        × (e.messages ≤ 2 ^ 63 + length e.events.items) };
}

impl<'r, 'g> Ending<'r, 'g> {
    ghost use Rattle.model.specs.Dependency.{IsRotation};
    ghost use Rattle.model.specs.Timetable.{Track, moves, track_of};
    ghost use Rattle.executor.specs.Code.Waiting.{HasNoRotation, IsWaiting, last_of, HaveRisen};
    ghost use Rattle.executor.specs.Code.Waiting.{HasEndedMoves, way_left, GoesNearer};
    ghost use Rattle.executor.specs.Code.Leading.{finished_in, told_in, LeadsOn, IsOf};
    ghost use Rattle.executor.specs.Code.Leading.{HasStayed, Knows, Teaches, TeachesNeed};
    ghost use Rattle.executor.specs.Code.Leading.{LeadsOnceKnown, NeedsNext, HasLeft, Awaits};
    ghost use Rattle.executor.specs.Code.Leading.{HasMoved, AreUnheard, HasSameStandings};

    /// Opens an agent anew that is broken or whose next write would fail, and finishes the move
    /// that it makes.
    fn rest(&mut self, id: u32) -> Result<(), AllocError>
        requires next { id ≡ length self.old.standings }
        requires there { id < length self.old.agents }
        requires none_heard { AreUnheard self.old.heard }
        ensures same { IsOf self.old self.new }
        ensures leads { OnOk result (LeadsOn self.old self.new) }
        ensures count { OnOk result (length self.new.standings ≡ length self.old.standings + 1) }
        ensures heard { self.new.heard ≡ self.old.heard }
    {
        let agent = &self.agents[id as usize];
        let moving = agent.is_moving();
        let done = agent.done() + u32::from(moving);
        push_rest(&mut self.events, is_opened_anew(agent), moving, id)?;
        self.standings.push(Standing {
            done,
            message: 0,
            told: 0,
            next: self.places.len(),
        })?;
        Ok(())
    }

    /// Adds places for the needs of all moves that an agent has left, one for each agent of whom
    /// they ask.
    fn add_places(&mut self, agent: u16, seen: &mut [Seen]) -> Result<(), AllocError>
        requires none_heard { AreUnheard self.old.heard }
        ensures same { OnOk result (HasSameStandings self.old self.new) }
        ensures none_heard { OnOk result (AreUnheard self.new.heard) }
    {
        let (Some(route), Some(standing)) = (
            self.graph.route(u32::from(agent)),
            self.standings.get(usize::from(agent)),
        ) else {
            return Ok(());
        };
        let moves = self.graph.moves(u32::from(agent)).unwrap_or(0);
        'moves: for number in standing.done..moves {
            self.add_place(agent, route.need(number), seen)?;
        }
        Ok(())
    }

    /// Adds the place for a need of an agent's move.
    fn add_place(
        &mut self,
        agent: u16,
        need: Option<(u16, u32)>,
        seen: &mut [Seen],
    ) -> Result<(), AllocError>
        requires none_heard { AreUnheard self.old.heard }
        ensures same { OnOk result (HasSameStandings self.old self.new) }
        ensures none_heard { OnOk result (AreUnheard self.new.heard) }
    {
        match need {
            Some((other, _)) => {
                let place = self.place_of(agent, other, seen)?;
                self.places.push(place)?;
            }
            None => self.places.push(0)?,
        }
        Ok(())
    }

    /// The place for what an agent hears of another.
    fn place_of(&mut self, agent: u16, other: u16, seen: &mut [Seen]) -> Result<u32, AllocError>
        requires none_heard { AreUnheard self.old.heard }
        ensures same { OnOk result (HasSameStandings self.old self.new) }
        ensures none_heard { OnOk result (AreUnheard self.new.heard) }
    {
        let index = usize::from(other);
        if index < seen.len() && seen[index].agent == Some(agent) {
            return Ok(seen[index].place);
        }
        let place = u32::try_from(self.heard.len()).unwrap_or(0);
        self.heard.push(Heard {
            agent,
            of: other,
            number: 0,
        })?;
        if index < seen.len() {
            seen[index] = Seen {
                agent: Some(agent),
                place,
            };
        }
        Ok(place)
    }

    /// How many moves of another an agent knows to be finished, by what it knew before all events
    /// and by what the events told it.
    fn known(&self, agent: u16, other: u16) -> u32
        requires there { agent < length self.now.agents }
        requires all { length self.now.standings ≡ length self.now.agents }
        ensures { Knows self.now agent other result }
    {
        let first = &self.agents[usize::from(agent)];
        let before = if is_opened_anew(first) {
            0
        } else {
            first.known(other).unwrap_or(0)
        };
        before.max(self.heard_since(agent, other))
    }

    /// The same by what the events told it.
    fn heard_since(&self, agent: u16, other: u16) -> u32
        requires there { agent < length self.now.agents }
        requires all { length self.now.standings ≡ length self.now.agents }
        ensures { Knows self.now agent other result }
    {
        match self.heard.get(self.slot(agent)) {
            Some(heard) if heard.agent == agent && heard.of == other => heard.number,
            _ => 0,
        }
    }

    /// Where that stands of which the next move of an agent asks.
    fn slot(&self, agent: u16) -> usize
        requires there { agent < length self.now.agents }
        requires all { length self.now.standings ≡ length self.now.agents }
    {
        match self.places.get(self.standings[usize::from(agent)].next) {
            Some(place) => *place as usize,
            None => 0,
        }
    }

    /// Lets an agent say how far it is, unless its last message tells so many moves.
    fn say_at_least(&mut self, agent: u16, count: u32) -> Result<(), AllocError>
        requires there { agent < length self.old.agents }
        requires all { length self.old.standings ≡ length self.old.agents }
        requires so_many { count ≤ finished_in self.old.standings agent }
        ensures stayed { OnOk result (HasStayed self.old self.new) }
        ensures leads { OnOk result (LeadsOn self.old self.new) }
        ensures told { OnOk result (count ≤ told_in self.new.standings agent) }
    {
        let index = usize::from(agent);
        if self.standings[index].told >= count {
            return Ok(());
        }
        self.events.push(Event::Say(u32::from(agent)))?;
        let standing = &mut self.standings[index];
        standing.message = self.messages;
        standing.told = standing.done;
        self.messages += 1;
        Ok(())
    }

    /// Delivers what an agent said last.
    fn deliver(&mut self, from: u16, to: u16) -> Result<(), AllocError>
        requires from_there { from < length self.old.agents }
        requires to_there { to < length self.old.agents }
        requires all { length self.old.standings ≡ length self.old.agents }
        requires said { 0 < told_in self.old.standings from }
        ensures stayed { OnOk result (HasStayed self.old self.new) }
        ensures leads { OnOk result (LeadsOn self.old self.new) }
        ensures teaches { OnOk result
            (Teaches self.old self.new to from (told_in self.old.standings from)) }
    {
        let Standing { message, told, .. } = self.standings[usize::from(from)];
        let slot = self.slot(to);
        self.events.push(Event::Deliver(u32::from(to), message))?;
        if slot < self.heard.len() {
            self.heard[slot] = Heard {
                agent: to,
                of: from,
                number: told,
            };
        }
        Ok(())
    }

    /// Tells an agent that another has finished so many moves, unless it knows.
    fn tell(&mut self, agent: u16, other: u16, count: u32) -> Result<(), AllocError>
        requires there { agent < length self.old.agents }
        requires other_there { other < length self.old.agents }
        requires all { length self.old.standings ≡ length self.old.agents }
        requires some { 0 < count }
        requires so_many { count ≤ finished_in self.old.standings other }
        ensures stayed { OnOk result (HasStayed self.old self.new) }
        ensures leads { OnOk result (LeadsOn self.old self.new) }
        ensures teaches { OnOk result (Teaches self.old self.new agent other count) }
    {
        if self.known(agent, other) >= count {
            return Ok(());
        }
        self.say_at_least(other, count)?;
        self.deliver(other, agent)
    }

    /// Tells an agent that this need of its next move is met, unless it knows.
    fn tell_need(&mut self, agent: u16, need: Option<(u16, u32)>) -> Result<(), AllocError>
        requires there { agent < length self.old.agents }
        requires all { length self.old.standings ≡ length self.old.agents }
        requires need { NeedsNext self.old agent need }
        requires other { IfSome need (λ asked. (asked.0 < length self.old.agents) × (0 < asked.1)) }
        requires met { Awaits self.old agent None }
        ensures stayed { OnOk result (HasStayed self.old self.new) }
        ensures leads { OnOk result (LeadsOn self.old self.new) }
        ensures teaches { OnOk result (TeachesNeed self.old self.new agent) }
    {
        match need {
            Some((other, count)) => self.tell(agent, other, count),
            None => Ok(()),
        }
    }

    /// Lets an agent make its next move, which has this need, once it knows that it may.
    fn move_on(&mut self, agent: u16, need: Option<(u16, u32)>) -> Result<(), AllocError>
        requires there { agent < length self.old.agents }
        requires all { length self.old.standings ≡ length self.old.agents }
        requires left { HasLeft self.old agent }
        requires need { NeedsNext self.old agent need }
        requires other { IfSome need (λ asked. (asked.0 < length self.old.agents) × (0 < asked.1)) }
        requires met { Awaits self.old agent None }
        ensures same { OnOk result (IsOf self.old self.new) }
        ensures leads { OnOk result (LeadsOn self.old self.new) }
        ensures moved { OnOk result (HasMoved agent self.old.standings self.new.standings) }
    {
        self.tell_need(agent, need)?;
        self.make_move(agent)
    }

    /// Lets an agent make its next move.
    fn make_move(&mut self, agent: u16) -> Result<(), AllocError>
        requires there { agent < length self.old.agents }
        requires all { length self.old.standings ≡ length self.old.agents }
        requires left { HasLeft self.old agent }
        ensures same { OnOk result (IsOf self.old self.new) }
        ensures leads { OnOk result (LeadsOnceKnown self.old self.new agent) }
        ensures moved { OnOk result (HasMoved agent self.old.standings self.new.standings) }
    {
        let moves = self.graph.moves(u32::from(agent)).unwrap();
        prove!(self.standings[usize::from(agent)].done < moves);
        self.events.push(Event::Start(u32::from(agent)))?;
        self.events.push(Event::Finish(u32::from(agent)))?;
        let standing = &mut self.standings[usize::from(agent)];
        standing.done += 1;
        standing.next = standing.next.wrapping_add(1);
        Ok(())
    }

    /// What an agent's next move needs: of whom, and how many moves.
    fn need(&self, agent: u16) -> Option<(u16, u32)>
        requires there { agent < length self.now.agents }
        requires all { length self.now.standings ≡ length self.now.agents }
        requires left { HasLeft self.now agent }
        ensures need { NeedsNext self.now agent result }
        ensures there { IfSome result (λ asked. (asked.0 < length self.now.agents)
            × (0 < asked.1)) }
    {
        let need = self.need_of(agent, self.standings[usize::from(agent)].done);
        // A graph has no vertex conflicts, so whoever is waited for is one of its agents.
        prove!(self.graph.agents() <= 10_000);
        need
    }

    /// What a move needs.
    fn need_of(&self, agent: u16, number: u32) -> Option<(u16, u32)>
        requires there { agent < length self.now.agents }
        requires number { number ≡ finished_in self.now.standings agent }
        requires left { HasLeft self.now agent }
        ensures { NeedsNext self.now agent result }
    {
        self.graph.route(u32::from(agent)).unwrap().need(number)
    }

    /// Lets an agent make all its moves, and others before it whatever those wait for. The list is
    /// empty before and after.
    fn bring_to_end(&mut self, agent: u16, waiting: &mut Vec<u16>) -> Result<(), AllocError>
        requires there { agent < length self.old.agents }
        requires all { length self.old.standings ≡ length self.old.agents }
        requires still { HasNoRotation self.old.timetable }
        requires none { waiting.old.items ≡ [] }
        ensures same { OnOk result (IsOf self.old self.new) }
        ensures count { OnOk result (length self.new.standings ≡ length self.old.standings) }
        ensures leads { OnOk result (LeadsOn self.old self.new) }
        ensures risen { OnOk result (HaveRisen self.old self.new) }
        ensures done { OnOk result (HasEndedMoves self.new agent) }
        ensures none { OnOk result (waiting.new.items ≡ []) }
    {
        'moves: while let Some(now) = self.up_next(agent, waiting) {
            self.go_on(agent, now, waiting)?;
        }
        Ok(())
    }

    /// The next step to that: whoever is waited for waits for another, or moves.
    fn go_on(&mut self, agent: u16, now: u16, waiting: &mut Vec<u16>) -> Result<(), AllocError>
        requires there { agent < length self.old.agents }
        requires all { length self.old.standings ≡ length self.old.agents }
        requires still { HasNoRotation self.old.timetable }
        requires chain { IsWaiting self.old agent waiting.old.items }
        requires next { now ≡ last_of agent waiting.old.items }
        requires left { HasLeft self.old now }
        ensures { OnOk result
            (GoesNearer agent self.old self.new waiting.old.items waiting.new.items) }
    {
        // Without vertex conflicts, swaps and rotations nobody waits for itself, not even through
        // others.
        prove!(self.graph.agents() <= 10_000);
        let need = self.need(now);
        match self.awaited(now, need) {
            Some(other) => {
                waiting.push(other)?;
                Ok(())
            }
            None => {
                self.move_on(now, need)?;
                let _last = waiting.pop();
                Ok(())
            }
        }
    }

    /// Who goes on while an agent is brought to its end: the last of those who are waited for, or
    /// the agent while it has moves left.
    fn up_next(&self, agent: u16, waiting: &[u16]) -> Option<u16>
        requires there { agent < length self.now.agents }
        requires all { length self.now.standings ≡ length self.now.agents }
        requires chain { IsWaiting self.now agent waiting.now }
        ensures next { IfSome result (λ now. (now ≡ last_of agent waiting.now)
            × HasLeft self.now now) }
        ensures none { IfNone result ((waiting.now ≡ []) × HasEndedMoves self.now agent) }
    {
        if let Some(last) = waiting.last() {
            return Some(*last);
        }
        if self.standings[usize::from(agent)].done < self.moves(agent) {
            Some(agent)
        } else {
            None
        }
    }

    /// How many moves an agent has.
    fn moves(&self, agent: u16) -> u32
        requires there { agent < length self.now.agents }
        ensures { (track : Track) × (track_of self.now.timetable agent ≡ Some track)
            × (result ≡ moves track) }
    {
        self.graph.moves(u32::from(agent)).unwrap()
    }

    /// Whom an agent's next move waits for, by what it needs.
    fn awaited(&self, agent: u16, need: Option<(u16, u32)>) -> Option<u16>
        requires all { length self.now.standings ≡ length self.now.agents }
        requires need { NeedsNext self.now agent need }
        requires other { IfSome need (λ asked. (asked.0 < length self.now.agents) × (0 < asked.1)) }
        ensures { Awaits self.now agent result }
    {
        let (other, count) = need?;
        if self.standings[usize::from(other)].done < count {
            Some(other)
        } else {
            None
        }
    }
}

/// Puts the events behind the others by which an agent comes to rest.
fn push_rest(events: &mut Vec<Event>, opened: bool, moving: bool, id: u32) -> Result<(), AllocError>
    ensures put { OnOk result
        (events.new.items ≡ events.old.items ++ rest_events opened moving id) }
    ensures more { length events.old.items ≤ length events.new.items }
{
    if opened {
        events.push(Event::Restart(id))?;
    }
    if moving {
        events.push(Event::Finish(id))?;
    }
    Ok(())
}

/// Whether an agent has to be opened anew before it can go on.
fn is_opened_anew(agent: &Agent<'_, CountedTape>) -> bool
    ensures { result ≡ is_opened_anew agent.now }
{
    agent.is_broken() || agent.tape().armed().is_some()
}

/// Events that bring all agents of a graph to their ends, from where a run left them after so many
/// messages.
pub(crate) fn bring_all_to_ends(
    alloc: Global,
    graph: &Dependencies,
    agents: &[Agent<'_, CountedTape>],
    messages: u64,
) -> Result<Vec<Event>, AllocError>
    requires count { length agents.now ≡ length graph.now.tracks }
    requires few { length agents.now ≤ 10000 }
    requires messages { messages < 2 ^ 63 }
    requires still { HasNoRotation graph.now }
    ensures { IfOk result (λ events. CompletesFrom graph.now agents.now messages events.items) }
{
    if have_arrived(graph, agents) {
        return Ok(Vec::new(alloc));
    }
    let mut ending = Ending {
        graph,
        agents,
        events: Vec::new(alloc),
        messages,
        standings: Vec::with_capacity(alloc, agents.len())?,
        places: Vec::new(alloc),
        heard: Vec::new(alloc),
    };
    let count = agents.len() as u32;
    let mut seen = Vec::from_elem(
        alloc,
        Seen {
            agent: None,
            place: 0,
        },
        agents.len(),
    )?;
    'rest: for id in 0..count {
        ending.rest(id)?;
        ending.add_places(id as u16, &mut seen)?;
    }
    let mut waiting = Vec::new(alloc);
    'ends: for id in 0..count {
        ending.bring_to_end(id as u16, &mut waiting)?;
    }
    Ok(ending.events)
}
