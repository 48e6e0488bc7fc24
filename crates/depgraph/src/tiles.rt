//! Where the numbers of cells stand: those of a tile, 16 x 16 cells, side by side, so that the
//! numbers along a path lie close.
ghost use Rattle.std.specs.Prelude.{◌≡◌, ◌≢◌, ◌+◌, ◌/◌, ◌<◌, ◌≤◌};
ghost use Rattle.std.specs.Prelude.{◌^◌, ℕ, length, get_or, IfOk, OnOk};
ghost use Rattle.grid.specs.declared.cell.Cell.{Cell};
ghost use Rattle.depgraph.specs.Code.Tiles.{tile_of, offset_of, tile_part, place_of, number_held};
ghost use Rattle.depgraph.specs.Code.Tiles.{AreTiles, IsCovered, IsSameMap, HasRoom, IsNumbered};

use grid::Cell;
use std::alloc::{AllocError, Global};

/// So many cells of a tile lie side by side, and so many one below another.
const SIDE: usize = 16;
/// So many cells a tile has.
const TILE: usize = SIDE * SIDE;

/// The numbers of a map's cells. Only tiles of which a cell came have room for theirs.
#[derive(Drop)]
pub(crate) struct Tiles {
    /// So many tiles lie side by side.
    across: usize,
    /// For each tile, row after row, which part of `numbers` it has. The first part stands for all
    /// that have none yet.
    parts: Vec<u32>,
    /// For each cell of each part one more than its number, and 0 where it has none yet.
    numbers: Vec<u32>,
}

impl Tiles {
    /// Tiles for the cells of a map of this size, none of which has a number yet.
    pub(crate) fn new(alloc: Global, width: u32, height: u32) -> Result<Tiles, AllocError>
        requires width { width < 2 ^ 16 }
        requires height { height < 2 ^ 16 }
        ensures tiles { IfOk result (λ t. AreTiles t) }
        ensures covered { IfOk result (λ t. (c : Cell) → c.x < width → c.y < height
            → IsCovered t c) }
        ensures none { IfOk result (λ t. (c : Cell) → number_held t c ≡ 0) }
        ensures size { IfOk result (λ t. length t.numbers.items ≡ 256) }
    {
        let across = width as usize / SIDE + 1;
        let down = height as usize / SIDE + 1;
        Ok(Tiles {
            across,
            parts: vec![in alloc; 0u32; across * down]?,
            numbers: vec![in alloc; 0u32; TILE]?,
        })
    }

    /// The cell's number, which is the next one if the cell has none yet.
    pub(crate) fn number_of(&mut self, cell: Cell, next: u32) -> Result<u32, AllocError>
        requires tiles { AreTiles self.old }
        requires covered { IsCovered self.old cell }
        requires size { length self.old.numbers.items < 2 ^ 40 }
        requires next { next + 1 < 2 ^ 32 }
        ensures tiles { OnOk result (AreTiles self.new) }
        ensures map { OnOk result (IsSameMap self.old self.new) }
        ensures number { IfOk result (λ n. IsNumbered self.old self.new cell next n) }
        ensures others { OnOk result ((c : Cell) → IsCovered self.old c → c ≢ cell
            → number_held self.new c ≡ number_held self.old c) }
        ensures size { OnOk result
            (length self.new.numbers.items ≤ length self.old.numbers.items + 256) }
    {
        let place = self.place_of(cell)?;
        let known = self.numbers[place];
        if known == 0 {
            self.numbers[place] = next + 1;
            Ok(next)
        } else {
            Ok(known - 1)
        }
    }

    /// Where the cell's number stands. There is room for its tile afterwards.
    fn place_of(&mut self, cell: Cell) -> Result<usize, AllocError>
        requires tiles { AreTiles self.old }
        requires covered { IsCovered self.old cell }
        requires size { length self.old.numbers.items < 2 ^ 40 }
        ensures place { IfOk result (λ p. p ≡ place_of self.new cell) }
        ensures room { OnOk result (HasRoom self.old self.new cell) }
    {
        let tile = tile_of(self.across, cell);
        if self.parts[tile] == 0 {
            self.make_room(cell)?;
        }
        Ok(self.parts[tile] as usize * TILE + offset_of(cell))
    }

    /// Makes room for the tile of a cell, which has none. It is rare, so it is compiled by itself:
    /// the loop over all paths keeps its registers.
    #[inline(never)]
    fn make_room(&mut self, cell: Cell) -> Result<(), AllocError>
        requires tiles { AreTiles self.old }
        requires covered { IsCovered self.old cell }
        requires none { tile_part self.old cell ≡ 0 }
        requires size { length self.old.numbers.items < 2 ^ 40 }
        ensures { OnOk result (HasRoom self.old self.new cell) }
    {
        let end = self.numbers.len();
        self.numbers.resize(end + TILE, 0)?;
        self.parts[tile_of(self.across, cell)] = (end / TILE) as u32;
        Ok(())
    }
}

/// The tile of a cell.
fn tile_of(across: usize, cell: Cell) -> usize
    requires { tile_of across cell < 2 ^ 64 }
    ensures { result ≡ tile_of across cell }
{
    usize::from(cell.y) / SIDE * across + usize::from(cell.x) / SIDE
}

/// Where the cell stands in its tile.
fn offset_of(cell: Cell) -> usize
    ensures { result ≡ offset_of cell }
{
    usize::from(cell.y) % SIDE * SIDE + usize::from(cell.x) % SIDE
}
