//! How far apart two cells are on a map without obstacles.
ghost use Rattle.std.specs.Prelude.{◌≡◌, ℕ, ◌^◌, ◌<◌, ◌≤◌, IsSome, MatchOption};
ghost use Rattle.walks.specs.Code.Distances.{distance, beyond_number};

use crate::beyond::Beyond;
use crate::keys::{DIAGONAL, NO_LENGTH, STRAIGHT};
use grid::Cell;

/// By so much a diagonal step is longer than a straight one.
const SLANT: u64 = DIAGONAL - STRAIGHT;

/// The number of the octile distance between two cells, to which nothing is added for the start.
#[inline(always)]
pub fn octile_distance(goal: Cell, x: u64, y: u64) -> u64
    requires column { x < 2 ^ 17 }
    requires row { y < 2 ^ 17 }
    ensures value { result ≡ distance goal x y }
    ensures limit { result < 2 ^ 42 }
{
    let columns = u64::from(goal.x).abs_diff(x);
    let rows = u64::from(goal.y).abs_diff(y);
    (columns * STRAIGHT + rows * SLANT).max(columns * SLANT + rows * STRAIGHT)
}

/// The number of a cell that was not settled.
#[inline(always)]
pub(crate) fn number_beyond(beyond: Option<Beyond>, x: usize, y: usize) -> u64
    requires column { x < 2 ^ 17 }
    requires row { y < 2 ^ 17 }
    ensures value { result ≡ beyond_number beyond x y }
    ensures limit { result ≤ 2 ^ 62 }
{
    let Some(beyond) = beyond else {
        return NO_LENGTH;
    };
    match beyond.goal {
        None => beyond.number,
        Some(goal) => beyond
            .number
            .saturating_sub(octile_distance(goal, x as u64, y as u64))
            .max(STRAIGHT),
    }
}

/// The number of each cell that was not settled, where it is one and the same; none where it goes
/// by the distance to a goal.
#[inline(always)]
pub(crate) fn flat_number(beyond: Option<Beyond>) -> Option<u64>
    ensures { MatchOption result (MatchOption beyond ⊥ (λ b. IsSome b.goal)) (λ n. (x y : ℕ)
        → beyond_number beyond x y ≡ n) }
{
    let Some(beyond) = beyond else {
        return Some(NO_LENGTH);
    };
    match beyond.goal {
        None => Some(beyond.number),
        Some(_) => None,
    }
}
