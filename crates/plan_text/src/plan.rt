//! Plans: a number, and for each agent a start and its acts.
ghost use Rattle.std.specs.Prelude.{◌≡◌, ◌+◌, ◌<◌, ◌⊎◌, ◌↔◌, [], ◌∷◌};
ghost use Rattle.std.specs.Prelude.{◌++◌, length, take, Err, OnOk, OnErr, Some};
ghost use Rattle.plan_text.specs.declared.plan.PushFault.TheVariants.{OutOfMemory as out_of_memory};
ghost use Rattle.text_io.specs.FaultWords.{words_of, words_text};
ghost use Rattle.plan_text.specs.FaultWords.{push_fault_words};

use grid::Cell;
use model::Act;
use std::alloc::{AllocFailed, Global};
use std::fmt;
use std::marker::Model;
use text_io::{Failure, FaultName, FaultWords};
use thiserror::Error;

/// A plan has no more agents.
pub(crate) const MOST_AGENTS: usize = 10_000;

/// An agent has no more acts.
const MOST_ACTS: usize = 65_535;

/// All agents together have no more acts.
const MOST_ACTS_IN_ALL: usize = 16_777_216;

/// Why an agent was not added to a plan.
#[derive(Clone, Copy, Debug, PartialEq, Eq, Error)]
pub enum PushFault {
    /// The plan would pass its limits: 10,000 agents, 65,535 acts of an agent, 16,777,216 acts in
    /// all.
    TooMany,
    OutOfMemory,
}

impl PushFault {
    /// The words in which it is told.
    pub fn words(self) -> FaultWords
        ensures { words_of result ≡ push_fault_words self }
    {
        match self {
            PushFault::TooMany => FaultWords::new(FaultName::TooMany, &[]),
            PushFault::OutOfMemory => Failure::OutOfMemory.words(),
        }
    }
}

impl fmt::Display for PushFault {
    ghost output = { λ fault. Some (words_text (push_fault_words fault)) };

    fn fmt<W: fmt::Write>(&self, f: &mut fmt::Formatter<W>) -> fmt::Result {
        self.words().fmt(f)
    }
}

impl<T: Drop> From<AllocFailed<T>> for PushFault {
    ghost from_gives = { λ _ e. e ≡ out_of_memory };

    fn from(_e: AllocFailed<T>) -> PushFault {
        PushFault::OutOfMemory
    }
}

/// An agent's start and its acts.
#[derive(Debug, Drop)]
pub struct Course {
    start: Cell,
    acts: Vec<Act>,
}

impl Model for Course {
    ghost use Rattle.model.specs.Plan.{Course as model_course};

    ghost Value = { model_course };

    ghost view = { λ c. record { start = c.start; acts = c.acts.items } };
}

impl Course {
    /// The course from this start with these acts.
    pub fn new(start: Cell, acts: Vec<Act>) -> Course
        ensures { result ≡ record { start = start; acts = acts.items } }
    {
        Course { start, acts }
    }

    /// The cell in which the agent starts.
    pub fn start(&self) -> Cell
        ensures { result ≡ self.now.start }
    {
        self.start
    }

    /// What the agent does, from its start on.
    pub fn acts(&self) -> &[Act]
        ensures { result.now ≡ self.now.acts }
    {
        self.acts.as_slice()
    }

    /// Keeps the first acts alone, so many, or all where there are no more.
    pub fn truncate(&mut self, count: usize)
        ensures start { self.new.start ≡ self.old.start }
        ensures acts { self.new.acts ≡ take count self.old.acts }
    {
        self.acts.truncate(count);
    }
}

/// A plan within its limits: its number, and for each agent, agent 0 first, a start and the acts, a
/// byte each.
#[derive(Debug, Drop)]
pub struct Plan {
    number: u32,
    courses: Vec<Course>,
    acts_in_all: usize,
}

impl Model for Plan {
    ghost use Rattle.std.specs.Prelude.{◌≡◌};
    ghost use Rattle.model.specs.Plan.{Plan as model_plan};
    ghost use Rattle.plan_text.specs.Limits.{acts_in, IsPlan};

    ghost Value = { model_plan };

    ghost view = { λ p. record { number = p.number; courses = p.courses.items } };

    ghost invariant = { λ p. IsPlan (record { number = p.number; courses = p.courses.items })
        × (p.acts_in_all ≡ acts_in p.courses.items) };
}

impl Plan {
    ghost use Rattle.plan_text.specs.Limits.{most_agents, most_acts, most_acts_in_all};
    ghost use Rattle.plan_text.specs.Limits.{acts_in, IsPlan};

    /// The plan with this number and no agent.
    pub fn new(alloc: Global, number: u32) -> Plan
        ensures number { result.number ≡ number }
        ensures courses { result.courses ≡ [] }
    {
        Plan {
            number,
            courses: Vec::new(alloc),
            acts_in_all: 0,
        }
    }

    /// Adds an agent, behind those there are.
    pub fn push(&mut self, start: Cell, acts: Vec<Act>) -> Result<(), PushFault>
        ensures ok { OnOk result
            (self.new ≡ record self.old
            { courses = self.old.courses ++ record { start = start; acts = acts.items } ∷ [] }) }
        ensures too_many { (result ≡ Err PushFault.TooMany)
            ↔ (length self.old.courses ≡ most_agents ⊎ ((most_acts < length acts.items)
            ⊎ (most_acts_in_all < acts_in self.old.courses + length acts.items))) }
        ensures err { OnErr result (self.new ≡ self.old) }
    {
        let count = acts.len();
        if self.courses.len() == MOST_AGENTS
            || count > MOST_ACTS
            || count > MOST_ACTS_IN_ALL - self.acts_in_all
        {
            return Err(PushFault::TooMany);
        }
        self.courses.push(Course::new(start, acts))?;
        self.acts_in_all += count;
        Ok(())
    }

    /// The plan's number.
    pub fn number(&self) -> u32
        ensures number { result ≡ self.now.number }
        ensures within { IsPlan self.now }
    {
        self.number
    }

    /// How many agents there are.
    pub fn agents(&self) -> u32
        ensures agents { result ≡ length self.now.courses }
        ensures within { IsPlan self.now }
    {
        self.courses.len() as u32
    }

    /// The plan's courses alone.
    pub fn into_courses(self) -> Vec<Course>
        ensures { result.items ≡ self.courses }
    {
        self.courses
    }

    /// The agents' courses, agent 0 first.
    pub fn courses(&self) -> &[Course]
        ensures courses { result.now ≡ self.now.courses }
        ensures within { IsPlan self.now }
    {
        self.courses.as_slice()
    }
}
