//! Legal steps, by the characters of a map.
ghost use Rattle.std.specs.Prelude.{◌≡◌, ◌*◌, ◌<◌, ◌↔◌, IsTrue};
ghost use Rattle.grid.specs.Map.{IsStraightStep, ShareSide};
ghost use Rattle.walks.specs.Walk.{IsOn};
ghost use Rattle.least_steps.specs.Code.Reaching.{number_in};

use grid::{Cell, Map, are_joined};

/// The number of a cell, row by row.
#[inline(always)]
pub(crate) fn number_of(map: &Map, cell: Cell) -> usize
    requires { (cell.x < map.now.width) × (cell.y < map.now.height) }
    ensures number { result ≡ number_in map.now cell }
    ensures within { result < map.now.width * map.now.height }
{
    usize::from(cell.y) * map.width() as usize + usize::from(cell.x)
}

/// Whether a legal straight step leads from the one cell to the other. `step4` says the same, and
/// makes a terrain of each character first, which takes a third of the time of a search.
#[inline(always)]
pub(crate) fn is_step(map: &Map, from: Cell, to: Cell) -> bool
    requires { IsOn map.now from }
    ensures { IsTrue result ↔ IsStraightStep map.now from to }
{
    share_side(from, to) && are_joined(map, from, to)
}

#[inline(always)]
fn share_side(from: Cell, to: Cell) -> bool
    ensures { IsTrue result ↔ ShareSide from to }
{
    (from.x == to.x && from.y.abs_diff(to.y) == 1) || (from.y == to.y && from.x.abs_diff(to.x) == 1)
}
