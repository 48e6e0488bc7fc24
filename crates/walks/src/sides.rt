//! The cells that share a side with one. Where there is none on the map the numbers wrap: no map
//! has a column or a row of the greatest number.
use grid::Cell;

#[inline(always)]
pub(crate) fn north_of(cell: Cell) -> Cell {
    Cell {
        x: cell.x,
        y: cell.y.wrapping_sub(1),
    }
}

#[inline(always)]
pub(crate) fn west_of(cell: Cell) -> Cell {
    Cell {
        x: cell.x.wrapping_sub(1),
        y: cell.y,
    }
}

#[inline(always)]
pub(crate) fn east_of(cell: Cell) -> Cell {
    Cell {
        x: cell.x.wrapping_add(1),
        y: cell.y,
    }
}

#[inline(always)]
pub(crate) fn south_of(cell: Cell) -> Cell {
    Cell {
        x: cell.x,
        y: cell.y.wrapping_add(1),
    }
}
