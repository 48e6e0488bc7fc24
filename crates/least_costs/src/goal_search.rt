//! A search from a goal toward a start, which goes on when it is asked for more.
ghost use Rattle.std.specs.Prelude.{◌≡◌, ℕ, ◌+◌, ◌-◌, ◌≤◌, IfOk, IfSome, [], true};
ghost use Rattle.grid.specs.Map.{Grid};
ghost use Rattle.least_costs.specs.Code.GoalSearches.{AreBeyond, HasSpread, IsGoalSearch};
ghost use Rattle.least_costs.specs.Code.GoalSearches.{IsPending, LowersMarks};
ghost use Rattle.least_costs.specs.Code.Places.{between};
ghost use Rattle.least_costs.specs.Code.Marks.{mark_at};
ghost use Rattle.least_costs.specs.Code.Tables.{IsEstimate};

use crate::legal_steps::LegalSteps;
use crate::marks::Marks;
use crate::sides::{sides_of, steps_between};
use grid::{Cell, Map};
use least_steps::StepFault;
use std::alloc::{AllocError, Global};
use std::mem;
use walks::put_last;

/// So many times a search goes on before it is seen how far it came.
const TURNS: u32 = 16;

/// A cell from which to go on, and how many steps lead from it to the goal.
#[derive(Clone, Copy, Debug)]
pub(crate) struct Waiting {
    cell: Cell,
    steps: u32,
}

/// A search from a goal toward a start, as far as it has come. A way through a cell of `next` takes
/// `through` steps at least, one through a cell of `later` two more: no other numbers come up at
/// once, since each step leads nearer to the start or farther from it by one.
#[derive(Debug, Drop)]
pub(crate) struct GoalSearch {
    start: Cell,
    goal: Cell,
    marks: Marks,
    next: Vec<Waiting>,
    later: Vec<Waiting>,
    through: u32,
}

impl GoalSearch {
    /// Nothing but the goal is reached.
    pub(crate) fn new(
        alloc: Global,
        map: &Map,
        start: Cell,
        goal: Cell,
    ) -> Result<GoalSearch, AllocError>
        ensures search { IfOk result (IsGoalSearch map.now) }
        ensures goal { IfOk result (λ s. s.goal ≡ goal) }
    {
        let mut marks = Marks::new(alloc, map.width());
        marks.put(goal, 0)?;
        let mut next = Vec::new(alloc);
        put_last(
            &mut next,
            Waiting {
                cell: goal,
                steps: 0,
            },
        )?;
        Ok(GoalSearch {
            start,
            goal,
            marks,
            next,
            later: Vec::new(alloc),
            through: steps_between(goal, start),
        })
    }

    #[inline(always)]
    pub(crate) fn goal(&self) -> Cell
        ensures { result ≡ self.now.goal }
    {
        self.goal
    }

    /// How many steps lead from the cell to the goal on the best way found.
    #[inline(always)]
    pub(crate) fn found(&self, cell: Cell) -> u32 {
        self.marks.at(cell)
    }

    /// How many steps the cell is from the goal, if that is settled.
    #[inline(always)]
    pub(crate) fn settled(&self, cell: Cell) -> Option<u32>
        ensures { IfSome result (λ n. (m : Grid) → IsGoalSearch m self.now
            → IsEstimate (record { map = m; goal = self.now.goal }) cell n) }
    {
        model::laws::costs();
        let mark = self.marks.at(cell);
        if mark <= self.found_within(cell) {
            Some(mark)
        } else {
            None
        }
    }

    /// How many steps the cell is from the goal, at least.
    #[inline(always)]
    pub(crate) fn at_least(&self, cell: Cell) -> u32
        ensures { (m : Grid) → IsGoalSearch m self.now
            → IsEstimate (record { map = m; goal = self.now.goal }) cell result }
    {
        model::laws::costs();
        self.marks.at(cell).min(self.found_within(cell))
    }

    /// Each way from the cell to the goal of so few steps is found.
    #[inline(always)]
    fn found_within(&self, cell: Cell) -> u32
        ensures { result ≡ self.now.through - between cell self.now.start }
    {
        self.through.saturating_sub(steps_between(cell, self.start))
    }

    /// How many steps the cell is from the goal: goes on until that is settled. The greatest number
    /// where no steps lead there.
    #[inline(never)]
    pub(crate) fn seek(&mut self, legal: &LegalSteps<'_>, cell: Cell) -> Result<u32, StepFault>
        requires { IsGoalSearch legal.now self.old }
        ensures search { IsGoalSearch legal.now self.new }
        ensures goal { self.new.goal ≡ self.old.goal }
        ensures estimate { IfOk result
            (IsEstimate (record { map = legal.now; goal = self.old.goal }) cell) }
    {
        model::laws::costs();
        for _ in 0..u64::MAX {
            if let Some(steps) = self.settled(cell) {
                return Ok(steps);
            }
            if self.next.is_empty() && self.later.is_empty() {
                return Ok(self.marks.at(cell));
            }
            self.go_far(legal)?;
        }
        Err(StepFault::NotTight)
    }

    /// Goes on some times, as far as anything waits.
    #[inline(always)]
    fn go_far(&mut self, legal: &LegalSteps<'_>) -> Result<(), StepFault>
        requires { IsGoalSearch legal.now self.old }
        ensures search { IsGoalSearch legal.now self.new }
        ensures goal { self.new.goal ≡ self.old.goal }
    {
        for _ in 0..TURNS {
            self.go_on(legal)?;
        }
        Ok(())
    }

    #[inline(always)]
    fn go_on(&mut self, legal: &LegalSteps<'_>) -> Result<(), StepFault>
        requires { IsGoalSearch legal.now self.old }
        ensures search { IsGoalSearch legal.now self.new }
        ensures goal { self.new.goal ≡ self.old.goal }
    {
        let count = self.next.len();
        if count == 0 {
            return self.turn();
        }
        let waiting = self.next[count - 1];
        if self.marks.at(waiting.cell) == waiting.steps {
            self.spread(legal, waiting)?;
        }
        let _ = self.next.swap_remove(count - 1);
        Ok(())
    }

    /// Goes on to what waits for later.
    fn turn(&mut self) -> Result<(), StepFault>
        requires { self.old.next.items ≡ [] }
        ensures search { (m : Grid) → IsGoalSearch m self.old → IsGoalSearch m self.new }
        ensures goal { self.new.goal ≡ self.old.goal }
    {
        let Some(through) = self.through.checked_add(2) else {
            return Err(StepFault::NotTight);
        };
        mem::swap(&mut self.next, &mut self.later);
        self.through = through;
        Ok(())
    }

    /// Reaches the cells beside one, which waits on until all are reached: memory may run out in
    /// between.
    #[inline(always)]
    fn spread(&mut self, legal: &LegalSteps<'_>, waiting: Waiting) -> Result<(), StepFault>
        requires search { IsGoalSearch legal.now self.old }
        requires mark { mark_at self.old.marks waiting.cell ≡ waiting.steps }
        ensures search { IsGoalSearch legal.now self.new }
        ensures beyond { AreBeyond self.old self.new }
        ensures spread { IfOk result (λ _. HasSpread legal.now self.new.marks waiting.cell) }
    {
        let ways = legal.from(waiting.cell);
        let sides = sides_of(waiting.cell);
        let steps = waiting.steps.saturating_add(1);
        self.reach(ways.north, sides.north, steps)?;
        self.reach(ways.south, sides.south, steps)?;
        self.reach(ways.west, sides.west, steps)?;
        self.reach(ways.east, sides.east, steps)?;
        Ok(())
    }

    /// Reaches a cell if a step leads there, unless a way is known that is as short.
    #[inline(always)]
    fn reach(&mut self, is_step: bool, cell: Cell, steps: u32) -> Result<(), StepFault>
        ensures search { (m : Grid) → IsGoalSearch m self.old → IsGoalSearch m self.new }
        ensures beyond { AreBeyond self.old self.new }
        ensures lowers { LowersMarks steps self.old.marks self.new.marks }
        ensures reached { IfOk result (λ _. is_step ≡ true → mark_at self.new.marks cell ≤ steps) }
    {
        if !is_step || self.marks.at(cell) <= steps {
            return Ok(());
        }
        self.wait(Waiting { cell, steps })?;
        self.marks.put(cell, steps)?;
        Ok(())
    }

    /// Puts a cell among those that wait.
    #[inline(always)]
    fn wait(&mut self, waiting: Waiting) -> Result<(), StepFault>
        ensures search { (m : Grid) → IsGoalSearch m self.old → IsGoalSearch m self.new }
        ensures beyond { AreBeyond self.old self.new }
        ensures marks { self.new.marks ≡ self.old.marks }
        ensures waits { IfOk result (λ _. IsPending self.new waiting.cell waiting.steps) }
    {
        let through = u64::from(waiting.steps) + u64::from(steps_between(waiting.cell, self.start));
        if through == u64::from(self.through) {
            put_last(&mut self.next, waiting)?;
            return Ok(());
        }
        if through == u64::from(self.through) + 2 {
            put_last(&mut self.later, waiting)?;
            return Ok(());
        }
        Err(StepFault::NotTight)
    }
}
