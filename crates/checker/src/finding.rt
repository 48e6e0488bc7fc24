//! The first faults of a plan, or of a time.
ghost use Rattle.std.specs.Prelude.{◌≡◌, ◌+◌, ◌<◌, ◌≤◌, ◌^◌, length, IfOk, OnOk, MatchOption};
ghost use Rattle.model.specs.Plan.{longest_of, IsLeastFault};
ghost use Rattle.checker.specs.AllFaults.{AreFirstFaults};
ghost use Rattle.checker.specs.Moving.{ArePassable};
ghost use Rattle.checker.specs.Code.Places.{AreSteps};
ghost use Rattle.checker.specs.Code.Links.{AreLinked};
ghost use Rattle.checker.specs.Code.Known.{key_with, IsListedTo};
ghost use Rattle.checker.specs.Code.Rows.{key_in, IsConflictRow};
ghost use Rattle.checker.specs.Code.Watching.{IsClean};

use crate::bad_move::is_bad_move;
use crate::conflict::Conflict;
use crate::links::Links;
use crate::listing::Listing;
use crate::naming::count_named;
use crate::places::{Step, arrived, standing_after, steps_after};
use grid::Map;
use model::PlanFault;
use plan_text::{Course, Plan};
use std::alloc::{AllocError, Global};

/// The first faults of a plan, whether there are more, and how many different agents they name.
#[derive(Debug, Drop)]
pub struct Faults {
    pub listed: Vec<PlanFault>,
    pub more: bool,
    pub agents: u32,
}

/// The first faults, so many at the most, by time, then kind (a start or a move, a cell, a swap),
/// then first and second agent. It takes time by the agents and by what it lists, not by all pairs
/// of agents, and ends at the time at which it has found one fault more than are wanted.
pub fn first_faults(alloc: Global, map: &Map, plan: &Plan, most: u32) -> Result<Faults, AllocError>
    ensures { IfOk result
        (λ f. AreFirstFaults map.now plan.now most f.listed.items f.more f.agents) }
{
    let mut listing = Listing::new(alloc, most);
    let finder = Finder { alloc, map, plan };
    finder.list_all(&mut listing)?;
    let more = listing.is_full();
    let mut listed = listing.into_faults();
    listed.truncate(most as usize);
    let agents = count_named(alloc, plan.agents() as usize, &listed)?;
    Ok(Faults {
        listed,
        more,
        agents,
    })
}

/// The least fault of a time, if the plan has one then. It has none before.
pub(crate) fn fault_at(
    alloc: Global,
    map: &Map,
    plan: &Plan,
    time: u32,
) -> Result<Option<PlanFault>, AllocError>
    requires starts { ArePassable map.now plan.now.courses }
    requires clean { IsClean map.now plan.now time }
    ensures { IfOk result (λ fault. MatchOption fault (IsClean map.now plan.now (time + 1))
        (IsLeastFault map.now plan.now)) }
{
    // So its columns and rows are those that a cell has.
    let _width = map.width();
    let mut listing = Listing::new(alloc, 0);
    let finder = Finder { alloc, map, plan };
    finder.list_time(time, &mut listing)?;
    Ok(listing.into_faults().first().copied())
}

/// A plan, its map, and where what is needed to find its faults is allocated.
#[derive(Clone, Copy)]
struct Finder<'a> {
    alloc: Global,
    map: &'a Map,
    plan: &'a Plan,
}

impl Finder<'_> {
    /// Lists the faults of all times.
    fn list_all(&self, listing: &mut Listing) -> Result<(), AllocError>
        requires { IsListedTo self.now.map.now self.now.plan.now (key_with 0 0 0 0) listing.old }
        ensures most { OnOk result (listing.new.most ≡ listing.old.most) }
        ensures listed { OnOk result
            (IsListedTo self.now.map.now self.now.plan.now
            (key_with (longest_of self.now.plan.now.courses + 1) 0 0 0) listing.new) }
    {
        let mut standing = self.list_starts(listing)?;
        let end = longest(self.plan.courses());
        for number in 0..end {
            if listing.is_full() {
                return Ok(());
            }
            standing = self.list_step(number, &standing, listing)?;
        }
        Ok(())
    }

    /// Lists the faults of a time.
    fn list_time(&self, time: u32, listing: &mut Listing) -> Result<(), AllocError>
        requires { IsListedTo self.now.map.now self.now.plan.now (key_with time 0 0 0) listing.old }
        ensures most { OnOk result (listing.new.most ≡ listing.old.most) }
        ensures listed { OnOk result
            (IsListedTo self.now.map.now self.now.plan.now (key_with (time + 1) 0 0 0)
            listing.new) }
    {
        if time == 0 {
            let _standing = self.list_starts(listing)?;
            return Ok(());
        }
        let courses = self.plan.courses();
        // Later nobody moves, and what is wrong was so before.
        if time > longest(courses) {
            return Ok(());
        }
        let standing = standing_after(self.alloc, courses, time - 1)?;
        let _standing = self.list_step(time - 1, &standing, listing)?;
        Ok(())
    }

    /// Lists the faults of the starts, and answers where the agents are.
    fn list_starts(&self, listing: &mut Listing) -> Result<Vec<Step>, AllocError>
        requires { IsListedTo self.now.map.now self.now.plan.now (key_with 0 0 0 0) listing.old }
        ensures standing { IfOk result
            (λ standing. AreSteps self.now.plan.now.courses 0 0 standing.items) }
        ensures most { OnOk result (listing.new.most ≡ listing.old.most) }
        ensures listed { OnOk result
            (IsListedTo self.now.map.now self.now.plan.now (key_with 1 0 0 0) listing.new) }
    {
        self.list_bad_starts(listing)?;
        let standing = standing_after(self.alloc, self.plan.courses(), 0)?;
        self.list_vertices(0, &standing, listing)?;
        Ok(standing)
    }

    /// Lists the faults of a step, and answers where the agents are after it.
    fn list_step(
        &self,
        number: u32,
        standing: &[Step],
        listing: &mut Listing,
    ) -> Result<Vec<Step>, AllocError>
        requires within { number < longest_of self.now.plan.now.courses }
        requires standing { AreSteps self.now.plan.now.courses number number standing.now }
        requires listed { IsListedTo self.now.map.now self.now.plan.now
            (key_with (number + 1) 0 0 0) listing.old }
        ensures standing { IfOk result
            (λ after. AreSteps self.now.plan.now.courses (number + 1) (number + 1) after.items) }
        ensures most { OnOk result (listing.new.most ≡ listing.old.most) }
        ensures listed { OnOk result
            (IsListedTo self.now.map.now self.now.plan.now (key_with (number + 2) 0 0 0)
            listing.new) }
    {
        let steps = steps_after(self.alloc, self.plan.courses(), number, standing)?;
        self.list_bad_moves(number, &steps, listing)?;
        let standing = arrived(self.alloc, &steps)?;
        self.list_vertices(number + 1, &standing, listing)?;
        self.list_swaps(number, &steps, listing)?;
        Ok(standing)
    }

    fn list_bad_starts(&self, listing: &mut Listing) -> Result<(), AllocError>
        requires { IsListedTo self.now.map.now self.now.plan.now (key_with 0 0 0 0) listing.old }
        ensures most { OnOk result (listing.new.most ≡ listing.old.most) }
        ensures listed { OnOk result
            (IsListedTo self.now.map.now self.now.plan.now (key_with 0 1 0 0) listing.new) }
    {
        let courses = self.plan.courses();
        for agent in 0..courses.len() {
            if !self.map.is_passable(courses[agent].start()) {
                listing.push(PlanFault::BadStart(agent as u32))?;
            }
        }
        Ok(())
    }

    fn list_bad_moves(
        &self,
        number: u32,
        steps: &[Step],
        listing: &mut Listing,
    ) -> Result<(), AllocError>
        requires steps { AreSteps self.now.plan.now.courses number (number + 1) steps.now }
        requires listed { IsListedTo self.now.map.now self.now.plan.now
            (key_with (number + 1) 0 0 0) listing.old }
        ensures most { OnOk result (listing.new.most ≡ listing.old.most) }
        ensures listed { OnOk result
            (IsListedTo self.now.map.now self.now.plan.now (key_with (number + 1) 1 0 0)
            listing.new) }
    {
        let courses = self.plan.courses();
        for agent in 0..courses.len() {
            if is_bad_move(self.map, &courses[agent], number, steps[agent]) {
                listing.push(PlanFault::BadMove(agent as u32, number))?;
            }
        }
        Ok(())
    }

    /// Lists the vertex conflicts of a time at which the agents stay where they are.
    fn list_vertices(
        &self,
        time: u32,
        standing: &[Step],
        listing: &mut Listing,
    ) -> Result<(), AllocError>
        requires within { time ≤ longest_of self.now.plan.now.courses }
        requires standing { AreSteps self.now.plan.now.courses time time standing.now }
        requires listed { IsListedTo self.now.map.now self.now.plan.now (key_with time 1 0 0)
            listing.old }
        ensures most { OnOk result (listing.new.most ≡ listing.old.most) }
        ensures listed { OnOk result
            (IsListedTo self.now.map.now self.now.plan.now (key_with time 2 0 0) listing.new) }
    {
        let agents = self.plan.agents();
        let links = Links::of(self.alloc, standing)?;
        for agent in 0..agents {
            if let Some(cell) = standing[agent as usize].from.cell() {
                self.follow(&links, agent, Conflict::Vertex(time, cell), listing)?;
            }
        }
        Ok(())
    }

    fn list_swaps(
        &self,
        number: u32,
        steps: &[Step],
        listing: &mut Listing,
    ) -> Result<(), AllocError>
        requires within { number < longest_of self.now.plan.now.courses }
        requires steps { AreSteps self.now.plan.now.courses number (number + 1) steps.now }
        requires listed { IsListedTo self.now.map.now self.now.plan.now
            (key_with (number + 1) 2 0 0) listing.old }
        ensures most { OnOk result (listing.new.most ≡ listing.old.most) }
        ensures listed { OnOk result
            (IsListedTo self.now.map.now self.now.plan.now (key_with (number + 1) 3 0 0)
            listing.new) }
    {
        let agents = self.plan.agents();
        let links = Links::of(self.alloc, steps)?;
        for agent in 0..agents {
            let step = steps[agent as usize];
            if step.from != step.to {
                self.follow(&links, agent, Conflict::Swap(number), listing)?;
            }
        }
        Ok(())
    }

    /// Lists the conflicts of an agent with those after it that take the opposite step.
    fn follow(
        &self,
        links: &Links<'_>,
        first: u32,
        conflict: Conflict,
        listing: &mut Listing,
    ) -> Result<(), AllocError>
        requires linked { AreLinked links.now.steps.now 0 links.now.links.items }
        requires first { first < length links.now.steps.now }
        requires row { IsConflictRow self.now.map.now self.now.plan.now links.now.steps.now
            conflict first }
        requires listed { IsListedTo self.now.map.now self.now.plan.now (key_in conflict first 0)
            listing.old }
        ensures most { OnOk result (listing.new.most ≡ listing.old.most) }
        ensures listed { OnOk result
            (IsListedTo self.now.map.now self.now.plan.now (key_in conflict (first + 1) 0)
            listing.new) }
    {
        let mut next = links.links[first as usize].opposite;
        while let Some(second) = next {
            if listing.is_full() {
                return Ok(());
            }
            listing.push(conflict.between(first, second))?;
            next = links.links[second as usize].same;
        }
        Ok(())
    }
}

/// The greatest number of acts.
fn longest(courses: &[Course]) -> u32
    requires { longest_of courses.now < 2 ^ 32 }
    ensures { result ≡ longest_of courses.now }
{
    let mut longest = 0;
    for course in courses {
        longest = longest.max(course.acts().len());
    }
    longest as u32
}
