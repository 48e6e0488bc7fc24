//! Numbers the cells of the paths: those that are the same have the same number.
ghost use Rattle.std.specs.Prelude.{◌≡◌, ◌+◌, ◌<◌, ◌^◌, [], ◌∷◌, ◌++◌, length, get_or, IfOk, OnOk};
ghost use Rattle.grid.specs.declared.cell.Cell.{Cell};
ghost use Rattle.depgraph.specs.Code.Numbering.{IsNumbering, cells_in};
ghost use Rattle.depgraph.specs.Code.Numbers.{no_cell, cells_by, AreKnown};
ghost use Rattle.depgraph.specs.Code.Tiles.{IsCovered, IsSameMap};

use crate::tiles::Tiles;
use grid::Cell;
use std::alloc::{AllocError, Global};

/// Cells, one after another, each kept as a number.
#[derive(Drop)]
pub(crate) struct Numbering {
    pub(crate) tiles: Tiles,
    /// For each cell its number.
    pub(crate) numbers: Vec<u32>,
    /// For each number its cell.
    pub(crate) names: Vec<Cell>,
}

impl Numbering {
    /// No cell yet, and room for so many, of a map of this size.
    pub(crate) fn new(
        alloc: Global,
        width: u32,
        height: u32,
        room: usize,
    ) -> Result<Numbering, AllocError>
        requires width { width < 2 ^ 16 }
        requires height { height < 2 ^ 16 }
        ensures numbering { IfOk result (λ n. IsNumbering n) }
        ensures none { IfOk result (λ n. n.numbers.items ≡ []) }
        ensures covered { IfOk result (λ n. (cell : Cell) → cell.x < width → cell.y < height
            → IsCovered n.tiles cell) }
    {
        Ok(Numbering {
            tiles: Tiles::new(alloc, width, height)?,
            numbers: Vec::with_capacity(alloc, room)?,
            names: Vec::new(alloc),
        })
    }

    /// Adds a cell, whose number is the next one if the cell comes for the first time.
    pub(crate) fn add(&mut self, cell: Cell) -> Result<(), AllocError>
        requires numbering { IsNumbering self.old }
        requires covered { IsCovered self.old.tiles cell }
        requires few { length self.old.numbers.items + 1 < 2 ^ 32 }
        ensures numbering { OnOk result (IsNumbering self.new) }
        ensures map { OnOk result (IsSameMap self.old.tiles self.new.tiles) }
        ensures count { OnOk result
            (length self.new.numbers.items ≡ length self.old.numbers.items + 1) }
        ensures cells { OnOk result (cells_in self.new ≡ cells_in self.old ++ cell ∷ []) }
    {
        let next = self.names.len() as u32;
        let number = self.tiles.number_of(cell, next)?;
        if number == next {
            self.names.push(cell)?;
        }
        self.numbers.push(number)?;
        Ok(())
    }
}

/// The cell that was added with this index.
pub(crate) fn cell_at(names: &[Cell], numbers: &[u32], index: usize) -> Cell
    requires known { AreKnown names.now numbers.now }
    requires index { index < length numbers.now }
    ensures { result ≡ get_or (cells_by names.now numbers.now) index no_cell }
{
    names[numbers[index] as usize]
}
