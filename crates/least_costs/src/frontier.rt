//! How far a search has come.
ghost use Rattle.std.specs.Prelude.{◌≡◌, ℕ, [], IfOk};
ghost use Rattle.grid.specs.declared.cell.Cell.{Cell as cell_type};
ghost use Rattle.least_costs.specs.Code.Searching.{HasPut, IsRaised};
ghost use Rattle.least_costs.specs.Code.States.{HasState};

use crate::states::{ClosedStates, State};
use grid::Cell;
use std::alloc::{AllocError, Global};
use std::mem;
use walks::put_last;

/// The states that a search has reached: those from which it went on, and those that wait by what
/// walks through them cost at least, which is as much as is looked for, or less, or one more, or
/// still more. Of each the last is taken first, so that the search goes straight on where nothing
/// is in the way.
#[derive(Debug, Drop)]
pub(crate) struct Frontier {
    pub(crate) closed: ClosedStates,
    pub(crate) waiting: Vec<State>,
    pub(crate) next: Vec<State>,
    pub(crate) after: Vec<State>,
}

impl Frontier {
    pub(crate) fn new(alloc: Global) -> Frontier {
        Frontier {
            closed: ClosedStates::new(alloc),
            waiting: Vec::new(alloc),
            next: Vec::new(alloc),
            after: Vec::new(alloc),
        }
    }

    /// Begins at a cell, or with the first so many steps from there of a walk that was known.
    pub(crate) fn begin(
        &mut self,
        start: Cell,
        known: &[Cell],
        count: usize,
    ) -> Result<(), AllocError>
        ensures closed { IfOk result (λ _. self.new.closed ≡ []) }
        ensures waiting { IfOk result (λ _. HasState self.new.waiting.items start 0) }
        ensures next { IfOk result (λ _. self.new.next.items ≡ []) }
        ensures after { IfOk result (λ _. self.new.after.items ≡ []) }
    {
        self.closed.clear()?;
        self.next.clear();
        self.after.clear();
        self.waiting.clear();
        self.put_known(start, 0)?;
        let mut time = 0u32;
        for cell in known.iter().skip(1).take(count) {
            time = time.saturating_add(1);
            self.put_known(*cell, time)?;
        }
        Ok(())
    }

    fn put_known(&mut self, cell: Cell, time: u32) -> Result<(), AllocError>
        ensures closed { self.new.closed ≡ self.old.closed }
        ensures waiting { IfOk result (λ _. HasState self.new.waiting.items cell time) }
        ensures keeps { (c : cell_type) (t : ℕ) → HasState self.old.waiting.items c t
            → HasState self.new.waiting.items c t }
        ensures next { self.new.next ≡ self.old.next }
        ensures after { self.new.after ≡ self.old.after }
    {
        put_last(
            &mut self.waiting,
            State {
                cell,
                time,
                from: None,
            },
        )
    }

    /// Puts a state where it waits by what walks through it cost at least.
    #[inline(always)]
    pub(crate) fn put(&mut self, state: State, through: u64, budget: u32) -> Result<(), AllocError>
        ensures { IfOk result (λ _. HasPut self.old self.new state through budget) }
    {
        let over = through.saturating_sub(u64::from(budget));
        if over == 0 {
            put_last(&mut self.waiting, state)
        } else if over == 1 {
            put_last(&mut self.next, state)
        } else {
            put_last(&mut self.after, state)
        }
    }

    /// Goes on to walks that cost one more. The answer is whether any state waits. What was put
    /// first comes up first: the search began where the walk that was known went furthest.
    pub(crate) fn raise(&mut self) -> bool
        requires { self.old.waiting.items ≡ [] }
        ensures { IsRaised self.old self.new result }
    {
        mem::swap(&mut self.waiting, &mut self.next);
        mem::swap(&mut self.next, &mut self.after);
        let is_any = !self.waiting.is_empty() || !self.next.is_empty();
        self.waiting.reverse();
        is_any
    }
}
