//! The search, toward the goal first, and else in all directions.
ghost use Rattle.std.specs.Prelude.{◌≡◌, ◌↔◌, IfOk, IsTrue};
ghost use Rattle.walks.specs.Certificate.{AreOn, IsLeast};
ghost use Rattle.walks.specs.Walk.{IsOn};
ghost use Rattle.least_steps.specs.LeastSteps.{IsLeastSteps};
ghost use Rattle.least_steps.specs.Code.Exploring.{Advances};
ghost use Rattle.least_steps.specs.Code.Reaching.{IsLeastNumber};
ghost use Rattle.least_steps.specs.Code.Waiting.{AreSound, IsSearch, IsSearchFrom};

use crate::answer::{answer, is_far, is_shortest};
use crate::expand::expand;
use crate::joining::number_of;
use crate::open_list::{Course, Open, OpenList};
use crate::parts::{length_of, steps_of};
use crate::reached::Reached;
use crate::step_fault::StepFault;
use crate::steps::NONE;
use grid::{Cell, Map};
use scenario::Length;
use std::alloc::{AllocError, Global};
use std::marker::Model;
use walks::STRAIGHT;

/// Far more turns than a search on a map takes.
const MOST_TURNS: u64 = 1 << 40;

/// Where a walk begins and ends.
#[derive(Clone, Copy)]
struct Ends {
    start: Cell,
    goal: Cell,
}

/// Searches on one map, one after another: what one needed is kept for the next, and nothing of the
/// map's size is cleared between them.
#[derive(Debug, Drop)]
pub struct StepSearch<'a> {
    reached: Reached<'a>,
    open: OpenList,
    wave: Vec<Open>,
}

impl<'a> Model for StepSearch<'a> {
    ghost use Rattle.grid.specs.Map.{Grid};

    ghost Value = { Grid };

    ghost view = { λ s. s.reached.map };
}

impl StepSearch<'_> {
    /// Nothing is searched yet.
    pub fn on<'a>(alloc: Global, map: &'a Map) -> Result<StepSearch<'a>, AllocError>
        ensures { IfOk result (λ s. s ≡ map.now) }
    {
        Ok(StepSearch {
            reached: Reached::new(alloc, map)?,
            open: OpenList::new(alloc),
            wave: Vec::new(alloc),
        })
    }

    /// The least number of straight steps from one cell to another; `None` where none lead there,
    /// and off the map.
    pub fn least(&mut self, start: Cell, goal: Cell) -> Result<Option<u32>, StepFault>
        ensures map { self.new ≡ self.old }
        ensures answer { IfOk result (IsLeastSteps self.old start goal) }
    {
        match self.search(start, goal, false)? {
            Some(number) => Ok(Some(steps_of(number)?)),
            None => Ok(None),
        }
    }

    /// The shortest length of a walk of straight and diagonal steps from one cell to another;
    /// `None` where none leads there, and off the map.
    pub fn shortest(&mut self, start: Cell, goal: Cell) -> Result<Option<Length>, StepFault>
        ensures map { self.new ≡ self.old }
        ensures answer { IfOk result (IsLeast self.old start goal) }
    {
        match self.search(start, goal, true)? {
            Some(number) => Ok(Some(length_of(number)?)),
            None => Ok(None),
        }
    }

    /// The least number of a walk, with diagonal steps or without.
    fn search(&mut self, start: Cell, goal: Cell, aslant: bool) -> Result<Option<u64>, StepFault>
        ensures map { self.new ≡ self.old }
        ensures answer { IfOk result (IsLeastNumber self.old aslant start goal) }
    {
        if !are_on(self.reached.map(), start, goal) {
            return Ok(None);
        }
        let reached = &mut self.reached;
        let waiting = &mut self.open;
        let ends = Ends { start, goal };
        begin(reached, waiting, ends, aslant, Course::Toward)?;
        if !approach(reached, waiting, start, goal)? {
            begin(reached, waiting, ends, aslant, Course::Around)?;
            spread(reached, waiting, &mut self.wave, goal)?;
        }
        answer(reached, waiting, start, goal)
    }
}

/// Whether both cells are on the map.
fn are_on(map: &Map, start: Cell, goal: Cell) -> bool
    ensures { IsTrue result ↔ AreOn map.now start goal }
{
    map.terrain(start).is_some() && map.terrain(goal).is_some()
}

/// Begins at a start.
fn begin(
    reached: &mut Reached,
    waiting: &mut OpenList,
    ends: Ends,
    aslant: bool,
    course: Course,
) -> Result<(), StepFault>
    requires { IsOn reached.old.map ends.start }
    ensures map { reached.new.map ≡ reached.old.map }
    ensures start { reached.new.start ≡ ends.start }
    ensures aslant { reached.new.aslant ≡ aslant }
    ensures search { IfOk result (λ _. IsSearch reached.new waiting.new ends.goal) }
{
    reached.begin(ends.start, aslant);
    waiting.begin(ends.start, ends.goal, aslant);
    let place = Open {
        number: STRAIGHT,
        cell: ends.start,
        by: NONE,
    };
    waiting.push(place, course)?;
    let at = number_of(reached.map(), ends.start);
    reached.lower(at, ends.start, STRAIGHT);
    Ok(())
}

/// Goes toward the goal until it is reached by the least number, or all is. The answer is whether
/// that was worth it.
#[inline(never)]
fn approach(
    reached: &mut Reached,
    waiting: &mut OpenList,
    start: Cell,
    goal: Cell,
) -> Result<bool, StepFault>
    requires goal { IsOn reached.old.map goal }
    requires search { IsSearch reached.old waiting.old goal }
    ensures advances { Advances reached.old reached.new }
    ensures search { IfOk result (λ _. IsSearch reached.new waiting.new goal) }
{
    for _ in 0..MOST_TURNS {
        let found = reached.number(goal);
        match waiting.pop() {
            Some(place) => {
                if !reached.has(place) {
                    continue;
                }
                if is_far(reached, place, goal, found) {
                    if is_shortest(reached, start, goal, found) {
                        return Ok(true);
                    }
                    continue;
                }
                expand(reached, waiting, place, Course::Toward)?;
            }
            None => {
                if !waiting.next_bucket(found) {
                    return Ok(true);
                }
                if waiting.is_astray(start) {
                    return Ok(false);
                }
            }
        }
    }
    Ok(true)
}

/// Goes in all directions until the goal is reached by the least number, or all is.
#[inline(never)]
fn spread(
    reached: &mut Reached,
    waiting: &mut OpenList,
    wave: &mut Vec<Open>,
    goal: Cell,
) -> Result<(), StepFault>
    requires goal { IsOn reached.old.map goal }
    requires search { IsSearch reached.old waiting.old goal }
    ensures advances { Advances reached.old reached.new }
    ensures search { IfOk result (λ _. IsSearch reached.new waiting.new goal) }
{
    for _ in 0..MOST_TURNS {
        waiting.next_wave(wave);
        settle(reached, waiting, wave, goal)?;
        if !waiting.has_waves(reached.number(goal)) {
            return Ok(());
        }
    }
    Ok(())
}

/// Takes the steps from the places of a wave.
#[inline(always)]
fn settle(
    reached: &mut Reached,
    waiting: &mut OpenList,
    wave: &[Open],
    goal: Cell,
) -> Result<(), StepFault>
    requires sound { AreSound reached.old wave.now }
    requires search { IsSearchFrom reached.old waiting.old 0 wave.now goal }
    ensures advances { Advances reached.old reached.new }
    ensures search { IfOk result (λ _. IsSearch reached.new waiting.new goal) }
{
    for place in wave {
        if reached.has(*place) {
            expand(reached, waiting, *place, Course::Around)?;
        }
    }
    Ok(())
}
