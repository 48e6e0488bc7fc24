//! How far each cell is from a goal, as far as a search has found.
ghost use Rattle.std.specs.Prelude.{◌≡◌, ◌<◌, ◌≤◌, IfOk, IfErr, length};
ghost use Rattle.grid.specs.declared.cell.Cell.{Cell};
ghost use Rattle.least_costs.specs.Code.Marks.{mark_at, IsPut, HasMarkRoom, AreSameMarks};

use grid::Cell;
use std::alloc::{AllocError, Global};

/// The mark of a cell to which no way was found.
const UNREACHED: u32 = u32::MAX;

/// The marks of a row, from the west.
#[derive(Debug, Drop)]
pub(crate) struct MarkRow {
    marks: Vec<u32>,
}

/// A mark for each cell, row by row: how many steps lead from it to the goal on the best way found.
/// A row takes memory once a cell of it is reached.
#[derive(Debug, Drop)]
pub(crate) struct Marks {
    alloc: Global,
    rows: Vec<MarkRow>,
    width: u32,
}

impl Marks {
    /// No cell is reached. The width is that of a row at first.
    pub(crate) fn new(alloc: Global, width: u32) -> Marks
        ensures { (c : Cell) → mark_at result c ≡ 4294967295 }
    {
        Marks {
            alloc,
            rows: Vec::new(alloc),
            width,
        }
    }

    #[inline(always)]
    pub(crate) fn at(&self, cell: Cell) -> u32
        ensures mark { result ≡ mark_at self.now cell }
        ensures limit { result ≤ 4294967295 }
    {
        let (row, column) = (usize::from(cell.y), usize::from(cell.x));
        if row < self.rows.len() && column < self.rows[row].marks.len() {
            self.rows[row].marks[column]
        } else {
            UNREACHED
        }
    }

    #[inline(always)]
    pub(crate) fn put(&mut self, cell: Cell, mark: u32) -> Result<(), AllocError>
        ensures put { IfOk result (λ _. IsPut self.old cell mark self.new) }
        ensures none { IfErr result (λ _. AreSameMarks self.old self.new) }
    {
        let (row, column) = (usize::from(cell.y), usize::from(cell.x));
        if row >= self.rows.len() || column >= self.rows[row].marks.len() {
            self.make_room(row, column)?;
        }
        self.rows[row].marks[column] = mark;
        Ok(())
    }

    /// Makes room for the mark of a place.
    #[cold]
    #[inline(never)]
    fn make_room(&mut self, row: usize, column: usize) -> Result<(), AllocError>
        requires row { row < 65536 }
        requires column { column < 65536 }
        ensures same { AreSameMarks self.old self.new }
        ensures room { IfOk result (λ _. HasMarkRoom self.new row column) }
    {
        self.make_row(row)?;
        if column < self.rows[row].marks.len() {
            return Ok(());
        }
        let width = (self.width as usize).max(column + 1);
        self.rows[row].marks.resize(width, UNREACHED)?;
        Ok(())
    }

    /// Makes rows up to one, which have no marks yet.
    fn make_row(&mut self, row: usize) -> Result<(), AllocError>
        requires { row < 65536 }
        ensures same { AreSameMarks self.old self.new }
        ensures row { IfOk result (λ _. row < length self.new.rows.items) }
    {
        for _at in self.rows.len()..row + 1 {
            self.rows.push(MarkRow {
                marks: Vec::new(self.alloc),
            })?;
        }
        Ok(())
    }
}
