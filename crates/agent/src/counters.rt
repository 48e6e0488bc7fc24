//! What an agent has heard of others.
ghost use Rattle.std.specs.Prelude.{◌≡◌, ◌+◌, ◌≤◌, ◌^◌, false, [], length};
ghost use Rattle.std.specs.Prelude.{max, nat_lt, IfOk, IfErr, OnOk, OnErr};
ghost use Rattle.std.specs.List.{prefix_len};
ghost use Rattle.model.specs.Messages.{AreRising};
ghost use Rattle.agent.specs.Counters.{known_in, is_heard_of, SetsOnly};
ghost use Rattle.agent.specs.Counters.{Raises, TellsOfNew, IsRising};
ghost use Rattle.agent.specs.Code.Listing.{entries_of};
ghost use Rattle.agent.specs.Code.Merging.{merged, AreParted};
ghost use Rattle.agent.specs.Code.Places.{IsCounterAt, IsGapFor, AreAround};

use crate::entries::Entries;
use model::Entry;
use std::alloc::{AllocError, Global};
use std::marker::Model;

/// How many moves an agent is known to have finished.
#[derive(Clone, Copy, Debug)]
pub struct Counter {
    pub agent: u16,
    pub done: u32,
}

/// Counters that rise strictly by agent.
#[derive(Debug, Drop)]
pub struct Counters {
    list: Vec<Counter>,
}

impl Model for Counters {
    ghost use Rattle.std.specs.Prelude.{List};
    ghost use Rattle.agent.specs.declared.counters.Counter.{Counter as model_counter};

    ghost Value = { List model_counter };

    ghost use Rattle.agent.specs.Counters.{IsRising};

    ghost view = { λ c. c.list.items };

    ghost invariant = { λ c. IsRising c.list.items };
}

impl Counters {
    /// Nothing is heard yet.
    pub fn new(alloc: Global) -> Counters
        ensures { result ≡ [] }
    {
        Counters {
            list: Vec::new(alloc),
        }
    }

    /// What takes memory for them.
    pub(crate) fn alloc(&self) -> Global {
        *self.list.allocator()
    }

    /// Forgets all that was heard. The room stays.
    pub fn clear(&mut self)
        ensures { self.new ≡ [] }
    {
        self.list.clear();
    }

    /// How many moves of an agent are known to be finished; 0 where it was not heard of.
    pub fn known(&self, agent: u16) -> u32
        ensures { result ≡ known_in self.now agent }
    {
        match self.search(agent) {
            Ok(at) => self.list[at].done,
            Err(_) => 0,
        }
    }

    /// Keeps the greater of the old and the new number of an agent, and answers it. It takes memory
    /// only for an agent that was not heard of before.
    pub fn raise(&mut self, agent: u16, done: u32) -> Result<u32, AllocError>
        ensures kept { IfOk result (λ n. n ≡ max (known_in self.old agent) done) }
        ensures raised { OnOk result
            (SetsOnly self.old self.new agent (max (known_in self.old agent) done)) }
        ensures err { OnErr result (self.new ≡ self.old) }
        ensures known_succeeds { OnErr result (is_heard_of self.old agent ≡ false) }
    {
        match self.search(agent) {
            Ok(at) => {
                let greater = self.list[at].done.max(done);
                self.list[at] = Counter {
                    agent,
                    done: greater,
                };
                Ok(greater)
            }
            Err(at) => {
                self.list.insert(at, Counter { agent, done })?;
                Ok(done)
            }
        }
    }

    /// Raises the counter of each entry's agent. It takes memory only where some entry is of an
    /// agent that was not heard of before, and then in one growth, before anything is changed.
    pub(crate) fn raise_all(&mut self, entries: Entries<'_>) -> Result<(), AllocError>
        requires { AreRising 0 (entries_of entries) }
        ensures raised { OnOk result (Raises self.old self.new (entries_of entries.entry)) }
        ensures err { OnErr result (self.new ≡ self.old) }
        ensures known_succeeds { OnErr result (TellsOfNew self.old (entries_of entries.entry)) }
    {
        let new = count_new(&self.list, entries);
        if new == 0 {
            raise_known(&mut self.list, entries);
        } else {
            let room = self.list.len() + new;
            self.list = merge(*self.list.allocator(), room, &self.list, entries)?;
        }
        Ok(())
    }

    /// The counters of the agents below one, and of those above it.
    pub(crate) fn around(&self, agent: u16) -> (&[Counter], &[Counter])
        ensures { AreAround agent self.now result.0.now result.1.now }
    {
        match self.search(agent) {
            Ok(at) => (&self.list[..at], &self.list[at + 1..]),
            Err(at) => (&self.list[..at], &self.list[at..]),
        }
    }

    /// Where the agent's counter is, or where it would go.
    fn search(&self, agent: u16) -> Result<usize, usize>
        ensures found { IfOk result (IsCounterAt self.now agent) }
        ensures absent { IfErr result (IsGapFor self.now agent) }
    {
        self.list
            .binary_search_by_key(&agent, |counter| counter.agent)
    }
}

/// How many entries are of agents without a counter.
fn count_new(counters: &[Counter], entries: Entries<'_>) -> usize
    requires { AreRising 0 (entries_of entries) }
    ensures count { length (merged (entries_of entries.entry) counters.now)
        ≡ length counters.now + result }
    ensures few { result ≤ 2 ^ 16 }
{
    let mut rest = counters;
    let mut new = 0;
    for number in 0..entries.count() {
        let (_, own, others) = part(rest, entries.entry(number).agent);
        if own.is_none() {
            new += 1;
        }
        rest = others;
    }
    new
}

/// Raises the counters of the entries' agents, which all have one.
fn raise_known(list: &mut Vec<Counter>, entries: Entries<'_>)
    requires { length (merged (entries_of entries) list.old.items) ≡ length list.old.items }
    ensures { list.new.items ≡ merged (entries_of entries.entry) list.old.items }
{
    let mut next = 0;
    for number in 0..entries.count() {
        let Entry { agent, done } = entries.entry(number);
        let (lesser, own, _) = part(&list[next..], agent);
        if let Some(old) = own {
            let at = next + lesser.len();
            list[at] = Counter {
                agent,
                done: old.max(done),
            };
            next = at + 1;
        }
    }
}

/// The counters raised by the entries, in memory of their own that has room for so many.
fn merge(
    alloc: Global,
    room: usize,
    counters: &[Counter],
    entries: Entries<'_>,
) -> Result<Vec<Counter>, AllocError>
    ensures { IfOk result (λ all. all.items ≡ merged (entries_of entries.entry) counters.now) }
{
    let mut all = Vec::with_capacity(alloc, room)?;
    let mut rest = counters;
    for number in 0..entries.count() {
        let Entry { agent, done } = entries.entry(number);
        let (lesser, own, others) = part(rest, agent);
        all.extend_from_slice(lesser)?;
        all.push(Counter {
            agent,
            done: own.unwrap_or(0).max(done),
        })?;
        rest = others;
    }
    all.extend_from_slice(rest)?;
    Ok(all)
}

/// The first counters as far as they are of agents below one, the number of its own counter if that
/// comes next, and the other counters.
fn part(counters: &[Counter], agent: u16) -> (&[Counter], Option<u32>, &[Counter])
    ensures { AreParted agent counters.now result.0.now result.1 result.2.now }
{
    let at = lesser_count(counters, agent);
    if at < counters.len() && counters[at].agent == agent {
        (
            &counters[..at],
            Some(counters[at].done),
            &counters[at + 1..],
        )
    } else {
        (&counters[..at], None, &counters[at..])
    }
}

/// How many first counters are of agents below one.
fn lesser_count(counters: &[Counter], agent: u16) -> usize
    ensures count { result ≡ prefix_len (λ c. nat_lt c.agent agent) counters.now }
    ensures within { result ≤ length counters.now }
{
    counters
        .iter()
        .take_while(|counter| counter.agent < agent)
        .count()
}
