//! What is asked of a walk, by the times at which it forbids something.
ghost use Rattle.std.specs.Prelude.{◌≡◌, ◌+◌, IfOk, List, Some, true, false};
ghost use Rattle.grid.specs.declared.cell.Cell.{Cell};
ghost use Rattle.grid.specs.Map.{Grid};
ghost use Rattle.model.specs.Timetable.{Track, cell_at};
ghost use Rattle.optimality.specs.declared.constraint.Constraint.{Constraint};
ghost use Rattle.optimality.specs.declared.constraint.Ends.{Ends as ends_type};
ghost use Rattle.optimality.specs.Constraints.{Meets, MeetsAll};
ghost use Rattle.optimality.specs.Walkers.{IsAgentWalk};
ghost use Rattle.least_costs.specs.Code.Ruling.{AreRules, IsImplied};

use crate::asked::{forbids, is_forbidden};
use crate::sides::steps_between;
use grid::Cell;
use optimality::Constraint;
use std::alloc::{AllocError, Global};

/// Something that is asked of who comes to a cell at a time, and the place of what is asked at the
/// same time beside.
#[derive(Clone, Copy, Debug)]
pub(crate) struct Timed {
    pub(crate) constraint: Constraint,
    pub(crate) beside: Option<u32>,
}

/// What is asked at a time: the place of the first of it, and that of the next cell where the agent
/// has to be, at this time or later.
#[derive(Clone, Copy, Debug)]
pub(crate) struct Moment {
    pub(crate) first: Option<u32>,
    pub(crate) due: Option<u32>,
}

const NOTHING: Moment = Moment {
    first: None,
    due: None,
};

/// What is asked of a walk, made ready for a search.
#[derive(Debug, Drop)]
pub(crate) struct Rules {
    pub(crate) timed: Vec<Timed>,
    pub(crate) moments: Vec<Moment>,
    pub(crate) lasting: Vec<Constraint>,
}

impl Rules {
    pub(crate) fn new(alloc: Global) -> Rules {
        Rules {
            timed: Vec::new(alloc),
            moments: Vec::new(alloc),
            lasting: Vec::new(alloc),
        }
    }

    /// Takes what is asked, in place of what was.
    pub(crate) fn take(&mut self, asked: &[Constraint]) -> Result<(), AllocError>
        ensures { IfOk result (λ _. AreRules asked.now self.new) }
    {
        self.timed.clear();
        self.moments.clear();
        self.lasting.clear();
        for constraint in asked {
            self.add(*constraint)?;
        }
        self.note_dues();
        Ok(())
    }

    fn add(&mut self, constraint: Constraint) -> Result<(), AllocError>
        ensures { (asked : List Constraint) → IsImplied asked constraint → AreRules asked self.old
            → IfOk result (λ _. AreRules asked self.new) }
    {
        match arrival_of(constraint) {
            Some(time) => self.add_timed(time, constraint),
            None => {
                if let Constraint::AwayFrom(_, _) = constraint {
                    self.lasting.push(constraint)?;
                }
                Ok(())
            }
        }
    }

    fn add_timed(&mut self, time: usize, constraint: Constraint) -> Result<(), AllocError>
        ensures { (asked : List Constraint) → IsImplied asked constraint → AreRules asked self.old
            → IfOk result (λ _. AreRules asked self.new) }
    {
        self.make_moment(time)?;
        let place = u32::try_from(self.timed.len()).ok();
        let mut beside = None;
        if time < self.moments.len() {
            beside = self.moments[time].first;
            self.moments[time].first = place;
        }
        self.timed.push(Timed { constraint, beside })?;
        Ok(())
    }

    /// Makes moments up to a time, at which nothing is asked yet.
    fn make_moment(&mut self, time: usize) -> Result<(), AllocError>
        ensures timed { IfOk result (λ _. self.new.timed ≡ self.old.timed) }
        ensures lasting { IfOk result (λ _. self.new.lasting ≡ self.old.lasting) }
    {
        if time >= self.moments.len() {
            self.moments.resize(time.saturating_add(1), NOTHING)?;
        }
        Ok(())
    }

    /// Notes for each time where the agent has to be next.
    fn note_dues(&mut self)
        ensures timed { self.new.timed ≡ self.old.timed }
        ensures lasting { self.new.lasting ≡ self.old.lasting }
    {
        let mut due = None;
        let count = self.moments.len();
        for back in 0..count {
            let time = count - 1 - back;
            due = self.place_there(self.moments[time].first).or(due);
            self.moments[time].due = due;
        }
    }

    /// Where it stands that the agent has to be somewhere, among what is asked at a time.
    fn place_there(&self, first: Option<u32>) -> Option<u32> {
        let mut next = first;
        for _ in 0..self.timed.len() {
            let place = next?;
            let timed = self.timed.get(place as usize)?;
            if let Constraint::There(_, _) = timed.constraint {
                return next;
            }
            next = timed.beside;
        }
        None
    }

    /// Whether nothing is asked that has its time behind this one, nor anything that lasts.
    #[inline(always)]
    pub(crate) fn are_over(&self, time: u32) -> bool {
        time as usize + 1 >= self.moments.len() && self.lasting.is_empty()
    }

    /// What is asked of who comes to a cell at the time.
    #[inline(always)]
    pub(crate) fn moment(&self, time: u32) -> Moment {
        match self.moments.get(time as usize) {
            Some(moment) => *moment,
            None => NOTHING,
        }
    }

    /// Whether nothing is asked then, and nothing lasts.
    #[inline(always)]
    pub(crate) fn are_none(&self, moment: Moment) -> bool {
        moment.first.is_none() && moment.due.is_none() && self.lasting.is_empty()
    }

    /// Whether the step from the time on, or the cell to which it leads, is forbidden.
    #[inline(always)]
    pub(crate) fn forbid(&self, moment: Moment, time: u32, from: Cell, to: Cell) -> bool
        ensures { result ≡ true → (asked : List Constraint) (track : Track)
            → AreRules asked self.now → MeetsAll asked track
            → cell_at track time ≡ from → cell_at track (time + 1) ≡ to → ⊥ }
    {
        if moment.first.is_some() && self.forbid_now(moment.first, time, from, to) {
            return true;
        }
        is_forbidden(&self.lasting, time, from, to)
    }

    #[inline(never)]
    fn forbid_now(&self, first: Option<u32>, time: u32, from: Cell, to: Cell) -> bool
        ensures { result ≡ true → (asked : List Constraint) (track : Track)
            → AreRules asked self.now → MeetsAll asked track
            → cell_at track time ≡ from → cell_at track (time + 1) ≡ to → ⊥ }
    {
        let mut next = first;
        for _ in 0..self.timed.len() {
            let Some(place) = next else {
                break;
            };
            let Some(timed) = self.timed.get(place as usize) else {
                break;
            };
            if forbids(timed.constraint, time, from, to) {
                return true;
            }
            next = timed.beside;
        }
        false
    }

    /// Whether a walk that is in the cell at the time can be in time where it has to be next.
    #[inline(always)]
    pub(crate) fn let_come(&self, moment: Moment, time: u32, cell: Cell) -> bool
        ensures { result ≡ false → (asked : List Constraint) (m : Grid) (ends : ends_type)
            (track : Track) → AreRules asked self.now
            → IsAgentWalk m ends track → MeetsAll asked track → cell_at track time ≡ cell → ⊥ }
    {
        match moment.due {
            Some(place) => self.let_come_to(place, time, cell),
            None => true,
        }
    }

    #[inline(always)]
    fn let_come_to(&self, place: u32, time: u32, cell: Cell) -> bool
        ensures { result ≡ false → (asked : List Constraint) (m : Grid) (ends : ends_type)
            (track : Track) → AreRules asked self.now
            → IsAgentWalk m ends track → MeetsAll asked track → cell_at track time ≡ cell → ⊥ }
    {
        match self.timed.get(place as usize) {
            Some(timed) => lets_come(timed.constraint, time, cell),
            None => true,
        }
    }
}

/// Whether a walk that is in the cell at the time can be in time where it has to be.
#[inline(always)]
fn lets_come(rule: Constraint, time: u32, cell: Cell) -> bool
    ensures { result ≡ false → (m : Grid) (ends : ends_type) (track : Track)
        → IsAgentWalk m ends track → Meets track rule → cell_at track time ≡ cell → ⊥ }
{
    match rule {
        Constraint::There(at, there) if at >= time => steps_between(cell, there) <= at - time,
        _ => true,
    }
}

/// The time at which a walk comes to where it must not or has to be, if there is one alone.
fn arrival_of(constraint: Constraint) -> Option<usize> {
    match constraint {
        Constraint::Away(time, _) | Constraint::There(time, _) => Some(time as usize),
        Constraint::NotTaken(time, _, _) => Some(time as usize + 1),
        Constraint::AwayFrom(_, _) | Constraint::Above(_) | Constraint::Within(_) => None,
    }
}
