//! All agents of a graph, and every message that was said.
ghost use Rattle.std.specs.Prelude.{◌≡◌, ◌<◌, [], length, IfOk, OnErr};
ghost use Rattle.model.specs.Timetable.{track_of};
ghost use Rattle.model.specs.History.{History};
ghost use Rattle.model.specs.declared.event.Event.TheVariants as event;
ghost use Rattle.model.specs.declared.version.Version.{Version};
ghost use Rattle.model.specs.declared.version.Version.TheVariants.{One, Two};
ghost use Rattle.model.specs.Replies.{answer_of};
ghost use Rattle.executor.specs.Standing.{IsMember};
ghost use Rattle.executor.specs.Code.Reopening.{Reopens};

use crate::CompleteFault;
use crate::ending::bring_all_to_ends;
use crate::replies::{reply_to_delivery, reply_to_finish, reply_to_start};
use crate::said::Said;
use agent::replies::{reply_to_restart, why_of};
use agent::{Agent, CountedTape, Finished, RECORD_LENGTH, TellFault};
use depgraph::{Dependencies, Graph};
use model::{Entry, Event, Held, Reply, Version, Why};
use std::alloc::{AllocError, Global};
use std::marker::Model;
use std::mem;
use text_io::OutOfMemory;

/// All agents of a graph, each over a tape that counts its records and tears where it is told to,
/// and every message that was said.
#[derive(Drop)]
pub struct Runner<'g> {
    alloc: Global,
    graph: &'g Dependencies,
    agents: Vec<Agent<'g, CountedTape>>,
    said: Said,
    /// Memory for the bytes of a message.
    spare: Vec<u8>,
}

impl<'g> Model for Runner<'g> {
    ghost use Rattle.executor.specs.Standing.{RunnerState};
    ghost use Rattle.std.specs.Prelude.{◌≡◌, ◌≤◌, ◌*◌, length};

    ghost Value = { RunnerState };

    ghost view = { λ r. record {
      timetable = r.graph.now;
      version = r.said.version;
      agents = r.agents.items;
      messages = r.said.messages;
    } };

    ghost invariant = { λ r. (length r.agents.items ≡ length r.graph.now.tracks)
        × (length r.agents.items ≤ 10000) };
}

impl<'g> Runner<'g> {
    ghost use Rattle.std.specs.Prelude.{[], option_map};
    ghost use Rattle.model.specs.Safety.{held};
    ghost use Rattle.executor.specs.Endings.{IsEnding};
    ghost use Rattle.executor.specs.SafeRuns.{IsSafeRun};
    ghost use Rattle.executor.specs.Standing.{RunnerState, StandsAt, GoesOnWith, WantsMemory};

    /// All agents of a graph, none of which has begun a move, that say messages of version 1.
    pub fn new(alloc: Global, graph: &'g Graph) -> Result<Runner<'g>, OutOfMemory>
        ensures timetable { IfOk result (λ r. r.timetable ≡ graph.now) }
        ensures version { IfOk result (λ r. r.version ≡ One) }
        ensures stands { IfOk result (λ r. StandsAt r []) }
        ensures safe { IsSafeRun One graph.now [] }
    {
        Runner::with_version(alloc, graph, Version::One)
    }

    /// The same with messages of a version.
    pub fn with_version(
        alloc: Global,
        graph: &'g Graph,
        version: Version,
    ) -> Result<Runner<'g>, OutOfMemory>
        ensures timetable { IfOk result (λ r. r.timetable ≡ graph.now) }
        ensures version { IfOk result (λ r. r.version ≡ version) }
        ensures stands { IfOk result (λ r. StandsAt r []) }
        ensures safe { IsSafeRun version graph.now [] }
    {
        Runner::over(alloc, graph.dependencies(), version)
    }

    /// The same by a plan's dependencies alone: a run needs no visits.
    pub fn over(
        alloc: Global,
        graph: &'g Dependencies,
        version: Version,
    ) -> Result<Runner<'g>, OutOfMemory>
        ensures timetable { IfOk result (λ r. r.timetable ≡ graph.now) }
        ensures version { IfOk result (λ r. r.version ≡ version) }
        ensures stands { IfOk result (λ r. StandsAt r []) }
        ensures safe { IsSafeRun version graph.now [] }
    {
        model::laws::every_run_is_safe();
        model::laws::rotations_never_begin();
        let count = graph.agents();
        let mut agents = Vec::with_capacity(alloc, count as usize)?;
        'agents: for id in 0..count {
            let agent = new_agent(alloc, graph, id as u16);
            let Ok(()) = agents.push(agent) else {
                return Err(OutOfMemory);
            };
        }
        Ok(Runner {
            alloc,
            graph,
            agents,
            said: Said::new(alloc, version),
            spare: Vec::new(alloc),
        })
    }

    /// Answers an event. Memory is taken only where an agent says a message, and where one is
    /// delivered with an entry of an agent that was not heard of since the last restart.
    #[inline(always)]
    pub fn step(&mut self, event: Event) -> Result<Reply, OutOfMemory>
        ensures answered { IfOk result
            (λ reply. GoesOnWith self.old self.new event (answer_of reply)) }
        ensures refused { OnErr result (self.new ≡ self.old) }
        ensures memory { OnErr result (WantsMemory self.old event) }
        ensures same_graph { self.new.timetable ≡ self.old.timetable }
        ensures same_version { self.new.version ≡ self.old.version }
        ensures safe { (h : History) → StandsAt self.new h
            → IsSafeRun self.new.version self.new.timetable h }
    {
        model::laws::every_run_is_safe();
        model::laws::rotations_never_begin();
        match event {
            Event::Start(agent) => Ok(self.start(agent)),
            Event::Finish(agent) => Ok(self.finish(agent)),
            Event::Say(agent) => Ok(self.say(agent)?),
            Event::Deliver(agent, message) => Ok(self.deliver(agent, message)?),
            Event::Restart(agent) => Ok(self.restart(agent)),
            Event::Tear(agent, stored) => Ok(self.tear(agent, stored)),
        }
    }

    /// The cells that an agent holds; `None` where there is no such agent.
    pub fn held(&self, agent: u32) -> Option<Held>
        ensures held { (h : History) → StandsAt self.now h
            → result ≡ option_map (λ track. held track h agent)
            (track_of self.now.timetable agent) }
        ensures safe { (h : History) → StandsAt self.now h
            → IsSafeRun self.now.version self.now.timetable h }
    {
        model::laws::every_run_is_safe();
        model::laws::rotations_never_begin();
        Some(self.agents.get(agent as usize)?.held())
    }

    /// Events that bring every agent to its end, answered after those before without a refusal, and
    /// none where all are there; or the rotation that no events get out of.
    pub fn complete(&self) -> Result<Vec<Event>, CompleteFault>
        ensures { (h : History) → StandsAt self.now h
            → IsEnding self.now.version self.now.timetable h result }
    {
        let is_free = self.graph.rotations().is_empty();
        if !is_free {
            return Err(CompleteFault::Rotation(0));
        }
        let messages = self.said.count();
        Ok(bring_all_to_ends(self.alloc, self.graph, &self.agents, messages)?)
    }

    /// Takes a reply back that isn't needed any more: the memory of its bytes serves the next
    /// message.
    pub fn take_back(&mut self, reply: Reply)
        ensures { self.new ≡ self.old }
    {
        if let Reply::Said(_, bytes) = reply {
            self.spare = bytes;
        }
    }

    #[inline(always)]
    fn start(&mut self, agent: u32) -> Reply
        ensures goes { GoesOnWith self.old self.new (event.Start agent) (answer_of result) }
        ensures same_graph { self.new.timetable ≡ self.old.timetable }
        ensures same_version { self.new.version ≡ self.old.version }
    {
        let index = agent as usize;
        if index >= self.agents.len() {
            return Reply::Refused(Why::NoSuchAgent);
        }
        reply_to_start(self.agents[index].start())
    }

    #[inline(always)]
    fn finish(&mut self, agent: u32) -> Reply
        ensures goes { GoesOnWith self.old self.new (event.Finish agent) (answer_of result) }
        ensures same_graph { self.new.timetable ≡ self.old.timetable }
        ensures same_version { self.new.version ≡ self.old.version }
    {
        let index = agent as usize;
        if index >= self.agents.len() {
            return Reply::Refused(Why::NoSuchAgent);
        }
        reply_to_finish(self.agents[index].finish())
    }

    #[inline(always)]
    fn say(&mut self, agent: u32) -> Result<Reply, AllocError>
        ensures said { IfOk result
            (λ reply. GoesOnWith self.old self.new (event.Say agent) (answer_of reply)) }
        ensures same_graph { self.new.timetable ≡ self.old.timetable }
        ensures same_version { self.new.version ≡ self.old.version }
        ensures err { OnErr result (self.new ≡ self.old) }
        ensures memory { OnErr result (WantsMemory self.old (event.Say agent)) }
    {
        if agent as usize >= self.agents.len() {
            return Ok(Reply::Refused(Why::NoSuchAgent));
        }
        match self.said.version() {
            Version::One => self.say_own(agent),
            Version::Two => self.tell(agent),
        }
    }

    /// Says a message of version 1.
    #[inline(always)]
    fn say_own(&mut self, agent: u32) -> Result<Reply, AllocError>
        requires there { agent < length self.old.agents }
        requires version { self.old.version ≡ One }
        ensures said { IfOk result
            (λ reply. GoesOnWith self.old self.new (event.Say agent) (answer_of reply)) }
        ensures same_graph { self.new.timetable ≡ self.old.timetable }
        ensures same_version { self.new.version ≡ self.old.version }
        ensures err { OnErr result (self.new ≡ self.old) }
        ensures memory { OnErr result (WantsMemory self.old (event.Say agent)) }
    {
        let sender = &self.agents[agent as usize];
        let done = sender.done();
        let message = match sender.say() {
            Ok(message) => message,
            Err(refusal) => return Ok(Reply::Refused(why_of(refusal))),
        };
        let bytes = bytes_in(&mut self.spare, &message)?;
        let number = self.said.count();
        self.said.keep_own(Entry {
            agent: agent as u16,
            done,
        })?;
        Ok(Reply::Said(number, bytes))
    }

    /// Says a message of version 2.
    #[inline(never)]
    fn tell(&mut self, agent: u32) -> Result<Reply, AllocError>
        requires there { agent < length self.old.agents }
        requires version { self.old.version ≡ Two }
        ensures said { IfOk result
            (λ reply. GoesOnWith self.old self.new (event.Say agent) (answer_of reply)) }
        ensures same_graph { self.new.timetable ≡ self.old.timetable }
        ensures same_version { self.new.version ≡ self.old.version }
        ensures err { OnErr result (self.new ≡ self.old) }
        ensures memory { OnErr result (WantsMemory self.old (event.Say agent)) }
    {
        let sender = &self.agents[agent as usize];
        let bytes = match sender.tell() {
            Ok(bytes) => bytes,
            Err(TellFault::Broken) => return Ok(Reply::Refused(Why::Broken)),
            Err(TellFault::OutOfMemory) => return Err(AllocError),
        };
        let number = self.said.count();
        self.said.keep_told(sender)?;
        Ok(Reply::Said(number, bytes))
    }

    #[inline(always)]
    fn deliver(&mut self, agent: u32, message: u64) -> Result<Reply, AllocError>
        ensures heard { IfOk result
            (λ reply. GoesOnWith self.old self.new (event.Deliver agent message) (answer_of reply)) }
        ensures same_graph { self.new.timetable ≡ self.old.timetable }
        ensures same_version { self.new.version ≡ self.old.version }
        ensures err { OnErr result (self.new ≡ self.old) }
        ensures memory { OnErr result (WantsMemory self.old (event.Deliver agent message)) }
    {
        if agent as usize >= self.agents.len() {
            return Ok(Reply::Refused(Why::NoSuchAgent));
        }
        if message >= self.said.count() {
            return Ok(Reply::Refused(Why::NoSuchMessage));
        }
        match self.said.version() {
            Version::One => self.deliver_own(agent, message),
            Version::Two => self.deliver_told(agent, message),
        }
    }

    /// Delivers a message of version 1.
    #[inline(always)]
    fn deliver_own(&mut self, agent: u32, message: u64) -> Result<Reply, AllocError>
        requires there { agent < length self.old.agents }
        requires said { message < length self.old.messages }
        requires version { self.old.version ≡ One }
        ensures heard { IfOk result
            (λ reply. GoesOnWith self.old self.new (event.Deliver agent message) (answer_of reply)) }
        ensures same_graph { self.new.timetable ≡ self.old.timetable }
        ensures same_version { self.new.version ≡ self.old.version }
        ensures err { OnErr result (self.new ≡ self.old) }
        ensures memory { OnErr result (WantsMemory self.old (event.Deliver agent message)) }
    {
        model::laws::messages_of_runs();
        let entry = self.said.own(message);
        let finished = Finished {
            from: entry.agent,
            plan: self.graph.number(),
            done: entry.done,
        };
        reply_to_delivery(self.agents[agent as usize].hear_finished(finished))
    }

    /// Delivers a message of version 2, whose bytes are not made again.
    #[inline(never)]
    fn deliver_told(&mut self, agent: u32, message: u64) -> Result<Reply, AllocError>
        requires there { agent < length self.old.agents }
        requires said { message < length self.old.messages }
        requires version { self.old.version ≡ Two }
        ensures heard { IfOk result
            (λ reply. GoesOnWith self.old self.new (event.Deliver agent message) (answer_of reply)) }
        ensures same_graph { self.new.timetable ≡ self.old.timetable }
        ensures same_version { self.new.version ≡ self.old.version }
        ensures err { OnErr result (self.new ≡ self.old) }
        ensures memory { OnErr result (WantsMemory self.old (event.Deliver agent message)) }
    {
        model::laws::messages_of_runs();
        model::laws::entries_of_agents();
        agent::laws::whole_messages();
        let (sender, entries) = self.said.told(message);
        reply_to_delivery(self.agents[agent as usize].hear_entries(sender, entries))
    }

    #[inline(never)]
    fn tear(&mut self, agent: u32, stored: u32) -> Reply
        ensures goes { GoesOnWith self.old self.new (event.Tear agent stored) (answer_of result) }
        ensures same_graph { self.new.timetable ≡ self.old.timetable }
        ensures same_version { self.new.version ≡ self.old.version }
    {
        let index = agent as usize;
        if index >= self.agents.len() {
            return Reply::Refused(Why::NoSuchAgent);
        }
        if stored > RECORD_LENGTH {
            return Reply::Refused(Why::BadTear);
        }
        self.agents[index].tear(stored as u8);
        Reply::Armed
    }

    #[inline(never)]
    fn restart(&mut self, agent: u32) -> Reply
        ensures goes { GoesOnWith self.old self.new (event.Restart agent) (answer_of result) }
        ensures same_graph { self.new.timetable ≡ self.old.timetable }
        ensures same_version { self.new.version ≡ self.old.version }
    {
        let index = agent as usize;
        if index >= self.agents.len() {
            return Reply::Refused(Why::NoSuchAgent);
        }
        let agent = &mut self.agents[index];
        reopen(agent);
        reply_to_restart(agent.held(), agent.done())
    }
}

/// These bytes, in the memory that is spare where there is enough.
fn bytes_in(spare: &mut Vec<u8>, bytes: &[u8]) -> Result<Vec<u8>, AllocError>
    ensures { IfOk result (λ own. own.items ≡ bytes.now) }
{
    let alloc = *spare.allocator();
    let mut own = mem::replace(spare, Vec::new(alloc));
    own.clear();
    own.extend_from_slice(bytes)?;
    Ok(own)
}

/// An agent over an empty tape with room for two records a move.
fn new_agent(alloc: Global, graph: &Dependencies, id: u16) -> Agent<'_, CountedTape>
    requires { id < length graph.now.tracks }
    ensures { (version : Version) → IsMember version graph.now [] id result }
{
    let moves = graph.moves(u32::from(id)).unwrap();
    let tape = CountedTape::new(graph.number(), id, moves);
    let part = graph.part(id).unwrap();
    match Agent::open_part(alloc, part, tape) {
        Ok(agent) => agent,
        Err(_) => unreachable!(),
    }
}

/// Opens an agent's own tape again. However many records it has, that takes no more time.
fn reopen(agent: &mut Agent<'_, CountedTape>)
    ensures { Reopens agent.old agent.new }
{
    agent.reopen();
}
