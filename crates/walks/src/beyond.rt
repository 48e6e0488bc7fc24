//! What a table says of the cells that a search didn't settle.
ghost use Rattle.std.specs.Prelude.{◌*◌, ◌<◌, ◌≤◌};
ghost use Rattle.walks.specs.Code.KeyParts.{IsKey};

use crate::keys::{Key, MOST_STEPPED};
use grid::Cell;

/// The length of a shortest walk to the goal. No cell needs a greater entry; and where the search
/// went by the distance to the goal, none needs one that is greater than that length less the
/// distance.
#[derive(Clone, Copy, Debug)]
pub(crate) struct Beyond {
    pub(crate) number: u64,
    pub(crate) goal: Option<Cell>,
    ghost some: { 0 < number },
    ghost limit: { number ≤ 4194304 * 6625109 },
    ghost of_length: { IsKey number },
}

impl Beyond {
    /// Of the length of a key, if it is one that a shortest walk can have. The goal is given where
    /// the search went by the distance to it.
    pub(crate) fn from_key(key: Key, goal: Option<Cell>) -> Option<Beyond> {
        let number = key.number()?;
        if number > MOST_STEPPED {
            return None;
        }
        Some(Beyond { number, goal })
    }
}
