//! Where the numbers of cells stand, and which cells are beside one.
ghost use Rattle.std.specs.Prelude.{◌≡◌, ◌+◌, ◌-◌, ◌*◌, ◌<◌, ◌≤◌, MatchOption};
ghost use Rattle.least_costs.specs.Code.Places.{between};

use grid::Cell;

/// The cells beside one: at the edge of all numbers, the cell itself in place of one beyond.
#[derive(Clone, Copy)]
pub(crate) struct Sides {
    pub(crate) north: Cell,
    pub(crate) south: Cell,
    pub(crate) west: Cell,
    pub(crate) east: Cell,
}

/// No straight step leads elsewhere.
#[inline(always)]
pub(crate) fn sides_of(cell: Cell) -> Sides
    ensures north { result.north ≡ record { x = cell.x; y = cell.y - 1 } }
    ensures west { result.west ≡ record { x = cell.x - 1; y = cell.y } }
    ensures south { cell.y < 65535 → result.south ≡ record { x = cell.x; y = cell.y + 1 } }
    ensures east { cell.x < 65535 → result.east ≡ record { x = cell.x + 1; y = cell.y } }
{
    let Cell { x, y } = cell;
    Sides {
        north: Cell {
            x,
            y: y.saturating_sub(1),
        },
        south: Cell {
            x,
            y: y.saturating_add(1),
        },
        west: Cell {
            x: x.saturating_sub(1),
            y,
        },
        east: Cell {
            x: x.saturating_add(1),
            y,
        },
    }
}

/// Where the number of a cell stands in a list row by row, if it has one.
#[inline(always)]
pub(crate) fn place_of(width: u32, count: usize, cell: Cell) -> Option<usize>
    ensures { MatchOption result (cell.x < width → count ≤ cell.y * width + cell.x)
        (λ place. (place ≡ cell.y * width + cell.x) × (cell.x < width) × (place < count)) }
{
    let place = usize::from(cell.y) * width as usize + usize::from(cell.x);
    if u32::from(cell.x) < width && place < count {
        Some(place)
    } else {
        None
    }
}

/// How many steps lead from the one cell to the other where no cell is blocked.
#[inline(always)]
pub(crate) fn steps_between(one: Cell, other: Cell) -> u32
    ensures value { result ≡ between one other }
    ensures limit { result ≤ 131070 }
{
    u32::from(one.x.abs_diff(other.x)) + u32::from(one.y.abs_diff(other.y))
}
