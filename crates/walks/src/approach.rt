//! The lengths of the shortest walks from a cell, of those through which a walk to the goal may be
//! shortest.
use crate::field::Field;
use crate::heading::{Heading, Open, least_through};
use crate::keys::Key;
use grid::Cell;
use std::alloc::{AllocError, Global};

/// Far more turns than a search on a map takes.
const MOST_TURNS: u64 = 1 << 40;

/// Lowers the keys from the start on, toward the goal first (A* by the octile distance), until that
/// of the goal is the key of a shortest walk: then each cell through which a walk as long as that
/// may lead has its least key. The answer is whether this was done: where walks are longer by a
/// quarter than the distance, as in a maze, the distance tells nothing, and a search in all
/// directions is quicker. It is compiled by itself, as `flood` is.
#[inline(never)]
pub(crate) fn approach(
    alloc: Global,
    field: &mut Field,
    start: Cell,
    goal: Cell,
) -> Result<bool, AllocError> {
    let first = Open {
        key: Key::start(),
        cell: start,
    };
    let least = least_through(start, first.key, goal);
    let most = least.saturating_add(least / 4);
    let mut heading = Heading::from_start(alloc, first, goal)?;
    for _ in 0..MOST_TURNS {
        let best = field.number(goal);
        match heading.pop() {
            Some(open) => {
                if least_through(open.cell, open.key, goal) < best {
                    field.settle(open, &mut heading)?;
                }
            }
            None => {
                if heading.is_past(best) {
                    return Ok(true);
                }
                if heading.advance() > most {
                    return Ok(false);
                }
            }
        }
    }
    Ok(false)
}
