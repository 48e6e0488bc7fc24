//! The cells of an agent, one after another.
ghost use Rattle.std.specs.Prelude.{◌≡◌, ◌<◌};
ghost use Rattle.std.specs.Iterator.{YieldsFirst, item_count};
ghost use Rattle.model.specs.Timetable.{cell_after};
ghost use Rattle.checker.specs.Code.Tracks.{cells_along, StaysInRange};

use crate::moving::next_cell;
use grid::Cell;
use model::Act;
use std::marker::Model;

/// An agent's cells, one for each time up to that at which it comes to rest.
#[derive(Debug, Drop)]
pub struct Cells<'a> {
    next: Option<Cell>,
    acts: &'a [Act],
}

impl<'a> Model for Cells<'a> {
    ghost use Rattle.std.specs.Prelude.{List};
    ghost use Rattle.grid.specs.declared.cell.Cell.{Cell as model_cell};
    ghost use Rattle.checker.specs.Code.Tracks.{cells_from, MayGoOn};

    ghost Value = { List model_cell };

    ghost view = { λ c. cells_from c.next c.acts.now };

    ghost invariant = { λ c. MayGoOn c.next c.acts.now };
}

impl<'a> Cells<'a> {
    ghost use Rattle.std.specs.Prelude.{◌∷◌};

    /// The cells from the start on.
    pub(crate) fn new(start: Cell, acts: &'a [Act]) -> Cells<'a>
        requires { StaysInRange start acts.now }
        ensures { result ≡ start ∷ cells_along start acts.now }
    {
        Cells {
            next: Some(start),
            acts,
        }
    }
}

impl<'a> Iterator for Cells<'a> {
    type Item = Cell;

    ghost next_gives = { YieldsFirst (λ c. c) };

    ghost remaining = { item_count (λ c. c) };

    fn next(&mut self) -> Option<Cell> {
        let cell = self.next?;
        match self.acts.split_first() {
            Some((act, others)) => {
                self.next = Some(next_cell(cell, *act));
                self.acts = others;
            }
            None => self.next = None,
        }
        Some(cell)
    }
}

/// The cell in which the agent is at a time.
pub(crate) fn cell_after(start: Cell, acts: &[Act], time: u32) -> Cell
    requires { StaysInRange start acts.now }
    ensures { result ≡ cell_after start (cells_along start acts.now) time }
{
    let mut cell = start;
    for step in 0..acts.len().min(time as usize) {
        cell = next_cell(cell, acts[step]);
    }
    cell
}
