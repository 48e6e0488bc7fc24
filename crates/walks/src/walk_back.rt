//! A shortest walk, found from its end.
use crate::field::Field;
use crate::keys::{DIAGONAL, Key, STRAIGHT};
use crate::sides::{east_of, north_of, south_of, west_of};
use grid::Cell;
use std::alloc::{AllocError, Global};

/// The walk to a cell, once the keys are those of shortest walks; empty where none leads there.
pub(crate) fn walk_back(
    alloc: Global,
    field: &Field,
    goal: Cell,
    most: usize,
) -> Result<Vec<Cell>, AllocError> {
    let mut walk = Vec::new(alloc);
    let mut next = reached(field, goal);
    for _ in 0..most {
        let Some(cell) = next else {
            break;
        };
        walk.push(cell).map_err(AllocError::from)?;
        next = cell_before(field, cell);
    }
    walk.reverse();
    Ok(walk)
}

/// The cell, if some walk leads there.
fn reached(field: &Field, cell: Cell) -> Option<Cell> {
    let key = field.key(cell)?;
    key.length().map(|_| cell)
}

/// A cell from which one step more makes a shortest walk to this one; none at the start.
fn cell_before(field: &Field, cell: Cell) -> Option<Cell> {
    let key = field.key(cell)?;
    let (north, south) = (north_of(cell), south_of(cell));
    let (west, east) = (west_of(cell), east_of(cell));
    for side in [north, west, east, south] {
        if is_step(field, side, STRAIGHT, key) {
            return Some(side);
        }
    }
    for (corner, row, column) in [
        (west_of(north), north, west),
        (east_of(north), north, east),
        (west_of(south), south, west),
        (east_of(south), south, east),
    ] {
        let is_free = is_open(field, row) && is_open(field, column);
        if is_free && is_step(field, corner, DIAGONAL, key) {
            return Some(corner);
        }
    }
    None
}

fn is_open(field: &Field, cell: Cell) -> bool {
    field.key(cell).is_some_and(|key| !key.is_closed())
}

/// Whether a shortest walk to a cell and a step make one of this key.
fn is_step(field: &Field, from: Cell, step: u64, key: Key) -> bool {
    field
        .key(from)
        .is_some_and(|before| before.is_step_before(step, key))
}
