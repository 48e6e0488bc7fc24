//! The map as the checker looks at it: a square for each cell, and a rim of blocked squares around
//! them, so that no step leads off it.
ghost use Rattle.std.specs.Prelude.{◌≡◌, ◌+◌, ◌*◌, ◌<◌, ◌↔◌, IsTrue, IfOk};
ghost use Rattle.checker.specs.Code.Standing.{IsOnGrid};
ghost use Rattle.checker.specs.Code.Squares.{ground_in, mark_in, ground_by, most_marks};
ghost use Rattle.checker.specs.Code.Squares.{place_on, HasGround, IsLaid, IsOfStep};

use grid::{Cell, Map, is_land};
use std::alloc::{AllocError, Global};

/// No agent may come there.
pub(crate) const BLOCKED: u8 = 0;

pub(crate) const LAND: u8 = 1;

pub(crate) const WATER: u8 = 2;
/// An agent stays there for ever.
pub(crate) const HELD: u8 = 3;

/// Nobody came lately.
pub(crate) const NOBODY: u8 = 0;

/// A cell, or a part of the rim: its ground, one of the four above, and the mark of who came last.
/// It is one byte, since the pace of the checker is that of the memory which it touches.
#[derive(Clone, Copy)]
pub(crate) struct Square {
    code: u8,
}

impl Square {
    pub(crate) fn new(ground: u8, mark: u8) -> Square
        requires ground { ground < 4 }
        requires mark { mark < most_marks }
        ensures ground { ground_in result ≡ ground }
        ensures mark { mark_in result ≡ mark }
    {
        Square {
            code: mark * 4 + ground,
        }
    }

    pub(crate) fn ground(self) -> u8
        ensures ground { result ≡ ground_in self }
        ensures less { result < 4 }
    {
        self.code % 4
    }

    pub(crate) fn mark(self) -> u8
        ensures mark { result ≡ mark_in self }
        ensures less { result < most_marks }
    {
        self.code / 4
    }

    /// Whether the mark is one of the five of a step, the first of which is given.
    pub(crate) fn is_of_step(self, first: u8) -> bool
        requires { first < 50 }
        ensures { IsTrue result ↔ IsOfStep first (mark_in self) }
    {
        // The mark isn't taken out of the code first. One comparison: a lesser code wraps, and is
        // then far above.
        self.code.wrapping_sub(first * 4) < 20
    }
}

/// The ground of the terrain that a character stands for.
pub(crate) fn ground_by(character: u8) -> u8
    ensures { result ≡ ground_by character }
{
    let mut ground = BLOCKED;
    if is_land(character) {
        ground = LAND;
    }
    if character == b'W' {
        ground = WATER;
    }
    ground
}

/// The board of the map, on which nobody is yet.
pub(crate) fn board(alloc: Global, map: &Map) -> Result<Vec<Square>, AllocError>
    ensures { IfOk result
        (λ squares. IsLaid map.now squares.items (map.now.height * map.now.width)) }
{
    let count = (map.height() as usize + 2) * (map.width() as usize + 2);
    let mut squares = vec![in alloc; Square::new(BLOCKED, NOBODY); count]?;
    for row in 0..map.height() {
        lay_row(map, row, &mut squares);
    }
    Ok(squares)
}

/// Lays the squares of a row of cells.
fn lay_row(map: &Map, row: u32, squares: &mut [Square])
    requires row { row < map.now.height }
    requires laid { IsLaid map.now squares.old (row * map.now.width) }
    ensures { IsLaid map.now squares.new ((row + 1) * map.now.width) }
{
    let width = map.width() as usize;
    let characters = map.characters();
    let from = row as usize * width;
    let to = row as usize * (width + 2) + width + 3;
    for column in 0..width {
        squares[to + column] = Square::new(ground_by(characters[from + column]), NOBODY);
    }
}

/// The place of a cell's square.
pub(crate) fn place_on(map: &Map, cell: Cell) -> u32
    requires { IsOnGrid map.now cell }
    ensures { result ≡ place_on map.now cell }
{
    let wide = map.width() + 2;
    u32::from(cell.y) * wide + u32::from(cell.x) + wide + 1
}

/// The ground of a cell.
pub(crate) fn ground_at(map: &Map, cell: Cell) -> u8
    requires { IsOnGrid map.now cell }
    ensures { HasGround map.now cell result }
{
    let width = map.width() as usize;
    ground_by(map.characters()[usize::from(cell.y) * width + usize::from(cell.x)])
}
