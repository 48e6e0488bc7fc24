//! An agent: what it may do next, by its tape and by what it has heard.
ghost use Rattle.std.specs.Prelude.{◌≡◌, ◌+◌, ◌*◌, ◌<◌, ◌≤◌, []};
ghost use Rattle.std.specs.Prelude.{◌++◌, true, false, length, option_map, IfSome};
ghost use Rattle.std.specs.Prelude.{IfOk, IfErr, OnOk, OnErr, MatchOption};
ghost use Rattle.model.specs.History.{record_length};
ghost use Rattle.model.specs.Timetable.{Timetable, track_of};
ghost use Rattle.depgraph.specs.AgentParts.{IsPartOf, IsOfGraph};
ghost use Rattle.agent.specs.Code.Listing.{entries_of};

use crate::counted_tape::CountedTape;
use crate::counters::Counters;
use crate::entries::Entries;
use crate::finished::{Finished, encode};
use crate::hearing::refusal_of;
use crate::message::{Message, read_message};
use crate::opening::read_records;
use crate::record::due_record;
use crate::records::Records;
use crate::refusal::{HearFault, OpenFault, Refusal, TellFault};
use crate::tape::{RECORD_LENGTH, Scripted, Tape};
use crate::telling::{put_told, tell};
use depgraph::{Graph, Part};
use grid::Cell;
use model::{Entry, Held, MsgFault};
use std::alloc::{AllocError, Global};
use std::marker::Model;

/// An agent of a graph, of which it needs its part, over its tape.
#[derive(Drop)]
pub struct Agent<'g, T: Tape> {
    part: Part<'g>,
    tape: T,
    counters: Counters,
    broken: bool,
}

impl<'g, T: Tape> Model for Agent<'g, T> {
    ghost use Rattle.agent.specs.Agents.{AgentOn};
    ghost use Rattle.agent.specs.Owning.{IsSound};

    ghost Value = { AgentOn T };

    ghost view = { λ a. record {
      part = a.part;
      tape = a.tape;
      heard = a.counters;
      broken = a.broken;
    } };

    ghost invariant = { λ a. IsSound a.part (T.state a.tape) a.counters };
}

impl<'g, T: Tape> Agent<'g, T> {
    ghost use Rattle.std.specs.Prelude.{None};
    ghost use Rattle.model.specs.Messages.{own_message, whole_message, AreRising};
    ghost use Rattle.agent.specs.Agents.{AgentOn, state_of, Moves, Starts, Finishes, Hears};
    ghost use Rattle.agent.specs.Agents.{HearsOf, HearsFrom, IsHolding, Says, bytes_told, TellsAll};
    ghost use Rattle.model.specs.Dependency.{need};
    ghost use Rattle.agent.specs.Ahead.{LooksAhead};
    ghost use Rattle.agent.specs.Counters.{known_in};
    ghost use Rattle.agent.specs.Opening.{IsOpened, IsRefused, Restarts};
    ghost use Rattle.agent.specs.Owning.{IsOwn};
    ghost use Rattle.agent.specs.States.{finished_moves, begun_moves, is_on_the_way};
    ghost use Rattle.agent.specs.States.{start_refusal, finish_refusal, waits_for};
    ghost use Rattle.agent.specs.Tape.{IsKept, whole_records};
    ghost use Rattle.agent.specs.Code.Listing.{entries_of};
    ghost use Rattle.agent.specs.Code.Taking.{TakesTelling};

    /// Opens the tape of an agent, which has then heard nothing. A tape that is refused comes back
    /// with what it had.
    pub fn open(
        alloc: Global,
        graph: &'g Graph,
        id: u16,
        tape: T,
    ) -> Result<Agent<'g, T>, (OpenFault, T)>
        ensures opened { IfOk result (IsOpened T.state T.may_read graph.now id tape) }
        ensures refused { IfErr result
            (λ e. IsRefused T.state T.may_read graph.now id tape e.1 e.0) }
        ensures kept { IfErr result (λ e. IsKept (T.state tape) (T.state e.1)) }
    {
        match graph.part(id) {
            Some(part) => Agent::open_part(alloc, part, tape),
            None => Err((OpenFault::NoSuchAgent, tape)),
        }
    }

    /// The same by the agent's part of a graph, which may be gone.
    pub fn open_part(alloc: Global, part: Part<'g>, tape: T) -> Result<Agent<'g, T>, (OpenFault, T)>
        ensures part { IfOk result (λ a. a.part ≡ part.entry) }
        ensures opened { IfOk result (λ a. (tt : Timetable) → IsPartOf tt part.entry
            → IsOpened T.state T.may_read tt part.entry.agent tape a) }
        ensures refused { IfErr result (λ e. (tt : Timetable) → IsPartOf tt part.entry
            → IsRefused T.state T.may_read tt part.entry.agent tape e.1 e.0) }
        ensures kept { IfErr result (λ e. IsKept (T.state tape) (T.state e.1)) }
    {
        let moves = part.own_moves();
        if tape.room() < 2 * RECORD_LENGTH * moves {
            return Err((OpenFault::NoRoom, tape));
        }
        let records = tape.len() / RECORD_LENGTH;
        if records > 2 * moves {
            return Err((OpenFault::TooLong, tape));
        }
        let mut tape = tape;
        if let Err(fault) = read_records(&mut tape, part.number(), part.agent(), records) {
            return Err((fault, tape));
        }
        Ok(Agent {
            part,
            tape,
            counters: Counters::new(alloc),
            broken: false,
        })
    }

    /// Opens the agent's own tape again, as after a restart. A tape that is refused leaves the
    /// agent as it was.
    pub fn restart(&mut self) -> Result<(), OpenFault>
        ensures { Restarts T.state T.may_read self.old self.new result }
    {
        let records = self.records().count;
        let plan = self.part.number();
        read_records(&mut self.tape, plan, self.part.agent(), records)?;
        self.forget();
        Ok(())
    }

    /// Forgets what was heard, and that a write failed.
    fn forget(&mut self)
        ensures { self.new ≡ record self.old { heard = []; broken = false } }
    {
        self.counters.clear();
        self.broken = false;
    }

    /// Which agent of the graph it is.
    pub fn id(&self) -> u16
        ensures { result ≡ self.now.part.agent }
    {
        self.part.agent()
    }

    /// Begins the next move, and answers the cell that the agent enters.
    #[inline(always)]
    pub fn start(&mut self) -> Result<Cell, Refusal>
        ensures starts { (tt : Timetable) → IsPartOf tt self.old.part
            → Starts T.state T.may_write tt self.old self.new result }
        ensures within { IsOfGraph self.old.part }
    {
        match self.start_refusal() {
            Some(why) => Err(why),
            None => self.store(),
        }
    }

    /// Ends the move that was begun, and answers the cell that the agent reached.
    #[inline(always)]
    pub fn finish(&mut self) -> Result<Cell, Refusal>
        ensures finishes { (tt : Timetable) → IsPartOf tt self.old.part
            → Finishes T.state T.may_write tt self.old self.new result }
        ensures within { IsOfGraph self.old.part }
    {
        if self.broken {
            return Err(Refusal::Broken);
        }
        if !self.is_moving() {
            return Err(Refusal::NotMoving);
        }
        self.store()
    }

    /// The message that says how many moves are stored as finished.
    pub fn say(&self) -> Result<[u8; 12], Refusal>
        ensures says { (tt : Timetable) → IsPartOf tt self.now.part
            → Says T.state tt self.now result }
        ensures within { IsOfGraph self.now.part }
    {
        if self.broken {
            return Err(Refusal::Broken);
        }
        Ok(encode(Finished {
            from: self.id(),
            plan: self.part.number(),
            done: self.done(),
        }))
    }

    /// The message of version 2 with all that the agent knows: how many of its own moves are stored
    /// as finished, and what it has heard of others. It takes memory for its bytes alone.
    pub fn tell(&self) -> Result<Vec<u8>, TellFault>
        ensures tells { (tt : Timetable) → IsPartOf tt self.now.part
            → TellsAll T.state tt self.now (bytes_told result) }
        ensures within { IsOfGraph self.now.part }
    {
        if self.broken {
            return Err(TellFault::Broken);
        }
        let plan = self.part.number();
        let alloc = self.counters.alloc();
        Ok(tell(alloc, plan, self.id(), self.done(), &self.counters)?)
    }

    /// Puts the entries of what `tell` says behind a list, which is as it was where memory is
    /// refused.
    pub fn put_entries(&self, entries: &mut Vec<Entry>) -> Result<(), AllocError>
        ensures put { OnOk result
            (entries.new.items ≡ entries.old.items
            ++ (whole_message (length self.now.part.moves) self.now.part.agent
            (finished_moves (state_of T.state self.now)) (known_in self.now.heard)).entries) }
        ensures few { OnOk result (length entries.new.items ≤ length entries.old.items + 10000) }
        ensures err { OnErr result (entries.new.items ≡ entries.old.items) }
    {
        // There are no more entries than agents.
        prove!(self.part.agents() <= 10_000);
        put_told(entries, self.id(), self.done(), &self.counters)
    }

    /// Hears a message of either version: answers its sender, and how many moves of that one are
    /// known to be finished now. It takes memory only for agents not heard of before.
    pub fn hear(&mut self, bytes: &[u8]) -> Result<(u16, u32), HearFault>
        ensures hears { (tt : Timetable) → IsPartOf tt self.old.part
            → Hears T.state tt self.old self.new bytes.now result }
        ensures within { IsOfGraph self.old.part }
    {
        if self.broken {
            return Err(HearFault::Broken);
        }
        match read_message(bytes) {
            Ok(Message::One(finished)) => self.take_own(finished),
            Ok(Message::Two(told)) => self.take_all(told.plan(), told.from(), told.entries()),
            Err(fault) => Err(HearFault::Message(fault)),
        }
    }

    /// Hears what a message of version 1 says, as `hear` does.
    #[inline(always)]
    pub fn hear_finished(&mut self, finished: Finished) -> Result<(u16, u32), HearFault>
        ensures hears { (tt : Timetable) → IsPartOf tt self.old.part
            → HearsFrom T.state tt self.old self.new finished result }
        ensures within { IsOfGraph self.old.part }
    {
        if self.broken {
            return Err(HearFault::Broken);
        }
        self.take_own(finished)
    }

    /// Hears what a message of version 2 of the agent's plan says, by its sender and its entries,
    /// as `hear` does.
    pub fn hear_entries(&mut self, from: u16, entries: &[Entry]) -> Result<(u16, u32), HearFault>
        ensures hears { (tt : Timetable) → IsPartOf tt self.old.part
            → HearsOf T.state tt self.old self.new
            (record { sender = from; entries = entries.now }) result }
        ensures within { IsOfGraph self.old.part }
    {
        if self.broken {
            return Err(HearFault::Broken);
        }
        let plan = self.part.number();
        let entries = Entries::Listed(entries);
        match entries.first_wrong() {
            Some(number) => Err(HearFault::Message(MsgFault::BadEntry(number))),
            None => self.take_all(plan, from, entries),
        }
    }

    /// Takes what the sender of a message says of itself.
    #[inline(always)]
    fn take_own(&mut self, finished: Finished) -> Result<(u16, u32), HearFault>
        ensures { (tt : Timetable) → IsPartOf tt self.old.part
            → TakesTelling T.state tt self.old self.new
            (record { plan = finished.plan; message = own_message finished.from finished.done })
            result }
    {
        if finished.plan != self.part.number() {
            return Err(HearFault::WrongPlan);
        }
        let Some(moves) = self.part.moves(u32::from(finished.from)) else {
            return Err(HearFault::NoSuchAgent);
        };
        if finished.done > moves {
            return Err(HearFault::TooMany);
        }
        let kept = self.counters.raise(finished.from, finished.done)?;
        Ok((finished.from, kept))
    }

    /// Takes all that the entries of a message say, or nothing.
    fn take_all(
        &mut self,
        plan: u32,
        from: u16,
        entries: Entries<'_>,
    ) -> Result<(u16, u32), HearFault>
        requires { AreRising 0 (entries_of entries) }
        ensures { (tt : Timetable) → IsPartOf tt self.old.part
            → TakesTelling T.state tt self.old self.new
            (record {
              plan = plan;
              message = record { sender = from; entries = entries_of entries.entry };
            }) result }
    {
        if plan != self.part.number() {
            return Err(HearFault::WrongPlan);
        }
        if let Some(fault) = refusal_of(&self.part, from, entries) {
            return Err(fault);
        }
        self.counters.raise_all(entries)?;
        Ok((from, self.counters.known(from)))
    }

    /// How many moves of an agent are known to be finished; `None` where there is no such agent.
    pub fn known(&self, agent: u16) -> Option<u32>
        ensures known { (tt : Timetable) → IsPartOf tt self.now.part
            → result ≡ option_map (λ _. known_in self.now.heard agent) (track_of tt agent) }
        ensures within { IsOfGraph self.now.part }
    {
        if u32::from(agent) < self.part.agents() {
            Some(self.counters.known(agent))
        } else {
            None
        }
    }

    /// The cells that the agent holds, by its whole records.
    pub fn held(&self) -> Held
        ensures holds { (tt : Timetable) → IsPartOf tt self.now.part
            → IsHolding T.state tt self.now result }
        ensures within { IsOfGraph self.now.part }
    {
        self.records().held(&self.part)
    }

    /// How many moves are finished, by the whole records.
    pub fn done(&self) -> u32
        ensures finished_moves { result ≡ finished_moves (state_of T.state self.now) }
        ensures within { IsOwn self.now.part (T.state self.now.tape) }
    {
        self.records().done()
    }

    /// Whether it has begun a move and not finished it, by the whole records.
    pub fn is_moving(&self) -> bool
        ensures { result ≡ is_on_the_way (state_of T.state self.now) }
    {
        self.records().is_moving()
    }

    /// How many of the moves behind those that it has begun, so many at the most, the agent would
    /// begin one after the other by what it knows now. Nothing is stored, and what is free stays
    /// so: a drive may make these moves before they are asked for, as `fleet::laws::ahead_of_tapes`
    /// says.
    pub fn ahead(&self, most: u32) -> u32
        ensures looks { (tt : Timetable) → IsPartOf tt self.now.part
            → LooksAhead T.state tt self.now most result }
        ensures within { IsOfGraph self.now.part }
    {
        if self.broken {
            return 0;
        }
        let begun = self.begun();
        let left = (self.moves() - begun).min(most);
        'moves: for count in 0..left {
            if self.waits(begun + count).is_some() {
                return count;
            }
        }
        left
    }

    /// How many moves are begun, by the whole records.
    fn begun(&self) -> u32
        ensures begun { result ≡ begun_moves (state_of T.state self.now) }
        ensures within { IsOwn self.now.part (T.state self.now.tape) }
    {
        self.records().begun()
    }

    /// Whether a write has failed since the tape was opened.
    pub fn is_broken(&self) -> bool
        ensures { result ≡ self.now.broken }
    {
        self.broken
    }

    /// The tape.
    pub fn tape(&self) -> &T
        ensures { result.now ≡ self.now.tape }
    {
        &self.tape
    }

    /// The tape, taken from the agent.
    pub fn into_tape(self) -> T
        ensures { result ≡ self.entry.tape }
    {
        self.tape
    }

    /// Why the next move may not begin now.
    #[inline(always)]
    fn start_refusal(&self) -> Option<Refusal>
        ensures within { IsOwn self.now.part (T.state self.now.tape) }
        ensures refusal { (tt : Timetable) (is : IsPartOf tt self.now.part)
            → result ≡ start_refusal tt self.now.part.agent is.track (state_of T.state self.now) }
        ensures of_graph { IsOfGraph self.now.part }
        ensures room { MatchOption result
            (whole_records (T.state self.now.tape) < 2 * length self.now.part.needs)
            (λ _. Unit {0}) }
    {
        if self.broken {
            return Some(Refusal::Broken);
        }
        if self.is_moving() {
            return Some(Refusal::AlreadyMoving);
        }
        let done = self.done();
        if done == self.moves() {
            return Some(Refusal::AtEnd);
        }
        self.waits(done)
    }

    /// For whom a move waits, by what was heard.
    #[inline(always)]
    fn waits(&self, number: u32) -> Option<Refusal>
        requires { number < length self.now.part.needs }
        ensures { (tt : Timetable) (is : IsPartOf tt self.now.part)
            → result ≡ waits_for self.now.heard (need tt self.now.part.agent is.track number) }
    {
        match self.part.need(number) {
            Some((agent, count)) if self.counters.known(agent) < count => {
                Some(Refusal::Waits { agent, count })
            }
            _ => None,
        }
    }

    /// Stores the due record, and answers the cell of the move at hand.
    #[inline(always)]
    fn store(&mut self) -> Result<Cell, Refusal>
        requires { whole_records (T.state self.old.tape) < 2 * length self.old.part.needs }
        ensures { (tt : Timetable) (is : IsPartOf tt self.old.part)
            → Moves T.state T.may_write tt is.track None self.old self.new result }
    {
        let records = self.records();
        let cell = records.next_cell(&self.part);
        let number = records.count;
        let record = due_record(self.part.number(), self.id(), number);
        if self.tape.write_at(RECORD_LENGTH * number, &record).is_err() {
            self.broken = true;
            return Err(Refusal::StoreFailed);
        }
        Ok(cell)
    }

    /// How many whole records there are.
    fn records(&self) -> Records
        ensures records { result.count ≡ whole_records (T.state self.now.tape) }
        ensures within { IsOwn self.now.part (T.state self.now.tape) }
    {
        Records {
            count: self.tape.len() / RECORD_LENGTH,
        }
    }

    fn moves(&self) -> u32
        ensures { result ≡ length self.now.part.needs }
    {
        self.part.own_moves()
    }
}

impl<'g, T: Scripted> Agent<'g, T> {
    /// Arms the tape: the next write stores so many bytes and fails, or it succeeds.
    pub fn arm(&mut self, tear: Option<u8>)
        requires { IfSome tear (λ n. n ≤ record_length) }
        ensures armed { T.armed self.new.tape ≡ tear }
        ensures state { T.state self.new.tape ≡ T.state self.old.tape }
        ensures same { self.new ≡ record self.old { tape = self.new.tape } }
    {
        self.tape.arm(tear);
    }
}

impl<'g> Agent<'g, CountedTape> {
    ghost use Rattle.std.specs.Prelude.{None, Some};
    ghost use Rattle.agent.specs.CountedTape.{counted_state, counted_armed, CountsFor};

    /// The next write of the tape stores so many bytes of its record and fails.
    pub fn tear(&mut self, stored: u8)
        requires { stored ≤ record_length }
        ensures armed { counted_armed self.new.tape ≡ Some stored }
        ensures state { counted_state self.new.tape ≡ counted_state self.old.tape }
        ensures whose { CountsFor self.old.tape.plan self.old.tape.agent self.new.tape }
        ensures same { self.new ≡ record self.old { tape = self.new.tape } }
    {
        self.tape.arm(Some(stored));
    }

    /// Opens the agent's own tape again, as `restart` does, without a read: its records are those
    /// that are due. Nothing is armed then.
    pub fn reopen(&mut self)
        ensures armed { counted_armed self.new.tape ≡ None }
        ensures state { counted_state self.new.tape ≡ counted_state self.old.tape }
        ensures whose { CountsFor self.old.tape.plan self.old.tape.agent self.new.tape }
        ensures opened { self.new ≡ record self.old {
          tape = self.new.tape;
          heard = [];
          broken = false;
        } }
    {
        self.forget();
        self.tape.arm(None);
    }
}
