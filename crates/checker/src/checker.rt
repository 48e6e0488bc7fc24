//! Checks a plan: goes through the times in order, with a board of one byte a cell.
ghost use Rattle.std.specs.Prelude.{◌≡◌, ◌+◌, ◌^◌, ◌<◌, ◌≤◌, ℕ, length, IfOk, MatchResult};
ghost use Rattle.model.specs.declared.act.Act.TheVariants.{Wait as wait};
ghost use Rattle.checker.specs.Checking.{IsCheckOf, IsRefusedFor};
ghost use Rattle.checker.specs.Code.Walking.{ArePassable};
ghost use Rattle.checker.specs.Code.Squares.{AreUnmarked, IsBoard};
ghost use Rattle.checker.specs.Code.Crowd.{act_at, first_mark};
ghost use Rattle.checker.specs.Code.UnderWay.{AreWalkers, AreAllAgents, AreActs};
ghost use Rattle.checker.specs.Code.Blocks.{block_steps, row_of_step, AreActRows, AreBlockActs};
ghost use Rattle.checker.specs.Code.Watching.{IsVerdict, IsSeen, IsSeenAt, AreSameAgents};

use crate::act_row::ActRow;
use crate::block::{hold, line_up, rows, turn};
use crate::board::{Square, board};
use crate::checked_plan::CheckedPlan;
use crate::crowd::{Turns, Walker, take_step};
use crate::finding::fault_at;
use crate::moving::bad_start;
use crate::resting::timetable_of;
use crate::stretch::BLOCK;
use crate::under_way::walkers;
use grid::Map;
use model::{Act, PlanFault};
use plan_text::Plan;
use std::alloc::{AllocError, Global};

/// A plan that was not accepted, and why.
#[derive(Debug, Drop)]
pub struct Rejected {
    /// The least fault by time, then kind (a start or a move, a cell, a swap), then first and
    /// second agent.
    pub fault: PlanFault,
    pub plan: Plan,
}

/// Checks the plan on the map. It compares no pairs of agents, and an agent whose acts are over
/// takes no more time.
pub fn check(alloc: Global, map: &Map, plan: Plan) -> Result<CheckedPlan, Rejected>
    ensures { MatchResult result (λ c. IsCheckOf map.now plan c) (λ r. (r.plan ≡ plan)
        × IsRefusedFor map.now plan r.fault) }
{
    match find_fault(alloc, map, &plan) {
        Ok(None) => Ok(timetable_of(map, plan)),
        Ok(Some(fault)) => Err(Rejected { fault, plan }),
        Err(_) => Err(Rejected {
            fault: PlanFault::OutOfMemory,
            plan,
        }),
    }
}

/// The least fault of the plan, if it has one.
fn find_fault(alloc: Global, map: &Map, plan: &Plan) -> Result<Option<PlanFault>, AllocError>
    ensures { IfOk result (IsVerdict map.now plan.now) }
{
    let courses = plan.courses();
    if let Some(agent) = bad_start(map, courses) {
        return Ok(Some(PlanFault::BadStart(agent)));
    }
    let mut squares = board(alloc, map)?;
    let mut walkers = walkers(alloc, map, courses)?;
    let mut rows = rows(alloc, courses.len())?;
    let checker = Checker { alloc, map, plan };
    checker.look_through(&mut rows, &mut walkers, &mut squares)
}

/// A plan that is checked, its map, and where what the check needs is allocated.
#[derive(Clone, Copy)]
struct Checker<'a> {
    alloc: Global,
    map: &'a Map,
    plan: &'a Plan,
}

impl Checker<'_> {
    /// The least fault of the plan but for a bad start, if it has one.
    fn look_through(
        &self,
        rows: &mut [ActRow],
        walkers: &mut Vec<Walker>,
        squares: &mut [Square],
    ) -> Result<Option<PlanFault>, AllocError>
        requires starts { ArePassable self.now.map.now self.now.plan.now.courses }
        requires board { IsBoard self.now.map.now squares.old }
        requires unmarked { AreUnmarked squares.old }
        requires walkers { AreWalkers self.now.map.now self.now.plan.now.courses 0
            walkers.old.items }
        requires agents { AreAllAgents (length self.now.plan.now.courses) walkers.old.items }
        requires rows { AreActRows (length self.now.plan.now.courses) rows.old }
        requires waits { (k : ℕ) → k < length self.now.plan.now.courses
            → act_at (row_of_step rows.old 0) k ≡ wait }
        ensures { IfOk result (IsVerdict self.now.map.now self.now.plan.now) }
    {
        let fault = self.take_starts(rows[0].acts(), walkers, squares)?;
        if fault.is_some() {
            return Ok(fault);
        }
        self.watch(rows, walkers, squares)
    }

    /// Goes on, block by block, until all acts are over.
    fn watch(
        &self,
        rows: &mut [ActRow],
        walkers: &mut Vec<Walker>,
        squares: &mut [Square],
    ) -> Result<Option<PlanFault>, AllocError>
        requires starts { ArePassable self.now.map.now self.now.plan.now.courses }
        requires seen { IsSeen self.now.map.now self.now.plan.now 0 walkers.old.items squares.old }
        requires rows { AreActRows (length self.now.plan.now.courses) rows.old }
        requires room { length walkers.old.items ≤ length self.now.plan.now.courses }
        ensures { IfOk result (IsVerdict self.now.map.now self.now.plan.now) }
    {
        let courses = self.plan.courses();
        let mut step = 0;
        while !walkers.is_empty() {
            hold(courses, step, walkers, squares);
            line_up(courses, step, walkers);
            turn(courses, step, walkers, rows);
            let fault = self.take_block(step, rows, walkers, squares)?;
            if fault.is_some() {
                return Ok(fault);
            }
            step += BLOCK as u32;
        }
        Ok(None)
    }

    /// Takes the agents through a block, and answers the least fault of its steps.
    fn take_block(
        &self,
        step: u32,
        rows: &[ActRow],
        walkers: &mut [Walker],
        squares: &mut [Square],
    ) -> Result<Option<PlanFault>, AllocError>
        requires step { step < 2 ^ 31 }
        requires starts { ArePassable self.now.map.now self.now.plan.now.courses }
        requires seen { IsSeen self.now.map.now self.now.plan.now step walkers.old squares.old }
        requires rows { AreActRows (length self.now.plan.now.courses) rows.now }
        requires room { length walkers.old ≤ length self.now.plan.now.courses }
        requires acts { AreBlockActs self.now.plan.now.courses step walkers.old rows.now }
        ensures seen { IfOk result
            (IsSeenAt self.now.map.now self.now.plan.now (step + block_steps) walkers.new
            squares.new) }
        ensures agents { AreSameAgents walkers.old walkers.new }
    {
        for taken in 0..BLOCK {
            let fault = self.take_one(step + taken as u32, rows[taken].acts(), walkers, squares)?;
            if fault.is_some() {
                return Ok(fault);
            }
        }
        Ok(None)
    }

    /// Takes the agents one step on, and answers the least fault of the step. It is looked for only
    /// where there may be one.
    fn take_one(
        &self,
        step: u32,
        acts: &[Act],
        walkers: &mut [Walker],
        squares: &mut [Square],
    ) -> Result<Option<PlanFault>, AllocError>
        requires step { step + 1 < 2 ^ 32 }
        requires starts { ArePassable self.now.map.now self.now.plan.now.courses }
        requires seen { IsSeen self.now.map.now self.now.plan.now step walkers.old squares.old }
        requires room { length walkers.old ≤ length acts.now }
        requires acts { AreActs self.now.plan.now.courses step walkers.old acts.now }
        ensures seen { IfOk result
            (IsSeenAt self.now.map.now self.now.plan.now (step + 1) walkers.new squares.new) }
        ensures agents { AreSameAgents walkers.old walkers.new }
    {
        let turns = Turns::new(self.map.width() + 2, first_mark(step));
        if take_step(&turns, acts, walkers, squares) {
            fault_at(self.alloc, self.map, self.plan, step + 1)
        } else {
            Ok(None)
        }
    }

    /// Lets all agents wait at their starts, so that two that share one are seen as any that come
    /// to one square.
    fn take_starts(
        &self,
        waits: &[Act],
        walkers: &mut [Walker],
        squares: &mut [Square],
    ) -> Result<Option<PlanFault>, AllocError>
        requires starts { ArePassable self.now.map.now self.now.plan.now.courses }
        requires board { IsBoard self.now.map.now squares.old }
        requires unmarked { AreUnmarked squares.old }
        requires walkers { AreWalkers self.now.map.now self.now.plan.now.courses 0 walkers.old }
        requires agents { AreAllAgents (length self.now.plan.now.courses) walkers.old }
        requires room { length walkers.old ≤ length waits.now }
        requires waits { (k : ℕ) → k < length walkers.old → act_at waits.now k ≡ wait }
        ensures seen { IfOk result
            (IsSeenAt self.now.map.now self.now.plan.now 0 walkers.new squares.new) }
        ensures count { length walkers.new ≡ length walkers.old }
    {
        let turns = Turns::new(self.map.width() + 2, first_mark(1));
        if take_step(&turns, waits, walkers, squares) {
            fault_at(self.alloc, self.map, self.plan, 0)
        } else {
            Ok(None)
        }
    }
}

/// The least mark of a step. Those of two steps one after another differ.
fn first_mark(step: u32) -> u8
    ensures { result ≡ first_mark step }
{
    if step % 2 == 0 { 1 } else { 6 }
}
