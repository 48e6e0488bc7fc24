//! Where the agents of a plan are, judged by nothing.
use crate::lines::Line;
use crate::plan_words::FIRST_AGENT;
use crate::spans::{Parts, number};
use std::rt::Files;

/// A column and a row, which may be off the map.
#[derive(Clone, Copy, PartialEq, Eq)]
pub(crate) struct Place {
    pub(crate) x: i64,
    pub(crate) y: i64,
}

/// An agent's start and its acts, as its line has them.
#[derive(Clone, Copy)]
pub(crate) struct Course<'a> {
    start: Place,
    acts: &'a [u8],
}

/// Reads the line of an agent.
pub(crate) fn find_agent<R: Files>(rt: &R, path: &str, agent: u64, line: &mut Line) {
    line.find(rt, path, agent.saturating_add(FIRST_AGENT));
}

impl<'a> Course<'a> {
    /// The course in the line of an agent.
    pub(crate) fn read(line: &'a Line) -> Option<Course<'a>> {
        let bytes = line.bytes();
        let parts = Parts::at_spaces(bytes);
        let x = number(parts.get(1)?.of(bytes))?;
        let y = number(parts.get(2)?.of(bytes))?;
        let acts = parts.get(3)?.of(bytes);
        Some(Course {
            start: Place {
                x: i64::try_from(x).ok()?,
                y: i64::try_from(y).ok()?,
            },
            acts: if acts == b"=".as_slice() { &[] } else { acts },
        })
    }

    /// How many acts there are.
    pub(crate) fn len(&self) -> u64 {
        u64::try_from(self.acts.len()).unwrap_or(u64::MAX)
    }

    /// What the agent does from this time on; it waits behind its last act.
    pub(crate) fn act(&self, time: u64) -> u8 {
        let place = usize::try_from(time).unwrap_or(usize::MAX);
        self.acts.get(place).copied().unwrap_or(b'-')
    }

    /// Where the agent is at this time.
    pub(crate) fn place(&self, time: u64) -> Place {
        let count = usize::try_from(time).unwrap_or(usize::MAX);
        let mut place = self.start;
        for act in self.acts.iter().take(count) {
            place = place.after(*act);
        }
        place
    }
}

impl Place {
    /// Where an act leads.
    fn after(self, act: u8) -> Place {
        let Place { x, y } = self;
        match act {
            b'n' => Place {
                x,
                y: y.saturating_sub(1),
            },
            b's' => Place {
                x,
                y: y.saturating_add(1),
            },
            b'w' => Place {
                x: x.saturating_sub(1),
                y,
            },
            b'e' => Place {
                x: x.saturating_add(1),
                y,
            },
            _ => self,
        }
    }
}
