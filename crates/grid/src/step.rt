//! Legal steps between cells.
ghost use Rattle.std.specs.Prelude.{◌≡◌, ◌⊎◌, ◌↔◌, IsTrue};
ghost use Rattle.grid.specs.Map.{AreNext, ShareSide, AreJoined, IsStraightStep, IsDiagonalStep};

use crate::{Cell, Map, Terrain};

/// Whether a legal straight step leads from the one cell to the other (MovingAI, map format). Off
/// the map there is none.
pub fn step4(map: &Map, from: Cell, to: Cell) -> bool
    ensures { IsTrue result ↔ IsStraightStep map.now from to }
{
    share_side(from, to) && join(map.terrain(from), map.terrain(to))
}

/// Whether a legal straight or diagonal step leads from the one cell to the other (MovingAI,
/// scenario format): a diagonal one cuts no corner.
pub fn step8(map: &Map, from: Cell, to: Cell) -> bool
    ensures { IsTrue result ↔ (IsStraightStep map.now from to ⊎ IsDiagonalStep map.now from to) }
{
    step4(map, from, to) || is_diagonal(map, from, to)
}

fn is_diagonal(map: &Map, from: Cell, to: Cell) -> bool
    ensures { IsTrue result ↔ IsDiagonalStep map.now from to }
{
    let below = Cell { x: from.x, y: to.y };
    let beside = Cell { x: to.x, y: from.y };
    share_corner(from, to)
        && leads_round(map, from, below, to)
        && leads_round(map, from, beside, to)
}

fn share_corner(from: Cell, to: Cell) -> bool
    ensures { IsTrue result ↔ (AreNext from.x to.x × AreNext from.y to.y) }
{
    are_next(from.x, to.x) && are_next(from.y, to.y)
}

/// Whether straight steps lead by way of the middle cell.
fn leads_round(map: &Map, from: Cell, middle: Cell, to: Cell) -> bool
    ensures { IsTrue result
        ↔ (IsStraightStep map.now from middle × IsStraightStep map.now middle to) }
{
    step4(map, from, middle) && step4(map, middle, to)
}

fn share_side(from: Cell, to: Cell) -> bool
    ensures { IsTrue result ↔ ShareSide from to }
{
    (from.x == to.x && are_next(from.y, to.y)) || (from.y == to.y && are_next(from.x, to.x))
}

/// Whether the numbers differ by one.
fn are_next(a: u16, b: u16) -> bool
    ensures { IsTrue result ↔ AreNext a b }
{
    a.abs_diff(b) == 1
}

/// Whether a straight step may lead from the one terrain to the other; `None` stands for a cell off
/// the map.
fn join(from: Option<Terrain>, to: Option<Terrain>) -> bool
    ensures { IsTrue result ↔ AreJoined from to }
{
    match from {
        Some(Terrain::Floor | Terrain::Grass | Terrain::Swamp) => {
            matches!(to, Some(Terrain::Floor | Terrain::Grass | Terrain::Swamp))
        }
        Some(Terrain::Water) => matches!(to, Some(Terrain::Water)),
        _ => false,
    }
}
