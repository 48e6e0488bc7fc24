//! What a search does with the cells whose keys fell.
use crate::keys::{Key, Steps};
use grid::Cell;
use std::alloc::AllocError;

/// The cells that a search goes on from.
pub(crate) trait Front {
    /// Takes a cell whose key fell from one to another.
    fn push(&mut self, cell: Cell, old: Key, new: Key) -> Result<(), AllocError>;
}

/// Gives a cell the key of a straight step to it, where that is less. The answer is whether a
/// diagonal step past it may be best.
#[inline(always)]
pub(crate) fn step_straight<F: Front>(
    front: &mut F,
    key: &mut Key,
    cell: Cell,
    steps: Steps,
) -> Result<bool, AllocError> {
    let old = *key;
    if steps.straight.is_less(old) {
        *key = steps.straight;
        front.push(cell, old, steps.straight)?;
    }
    Ok(old.is_passed(steps.diagonal))
}

/// Gives a cell the key of a diagonal step to it, where that is less.
#[inline(always)]
pub(crate) fn step_diagonal<F: Front>(
    front: &mut F,
    key: &mut Key,
    cell: Cell,
    steps: Steps,
) -> Result<(), AllocError> {
    let old = *key;
    if steps.diagonal.is_less(old) {
        *key = steps.diagonal;
        front.push(cell, old, steps.diagonal)?;
    }
    Ok(())
}
