//! What a walk takes at least.
ghost use Rattle.std.specs.Prelude.{◌≡◌, ◌^◌, ◌<◌};
ghost use Rattle.least_steps.specs.Code.Estimate.{least_number};

use grid::Cell;
use walks::{STRAIGHT, octile_distance};

/// The number of a walk between two cells on a map without obstacles.
#[inline(always)]
pub(crate) fn distance(aslant: bool, goal: Cell, cell: Cell) -> u64
    ensures value { result ≡ least_number aslant goal cell }
    ensures limit { result < 2 ^ 42 }
{
    if aslant {
        return octile_distance(goal, u64::from(cell.x), u64::from(cell.y));
    }
    let columns = u64::from(goal.x.abs_diff(cell.x));
    let rows = u64::from(goal.y.abs_diff(cell.y));
    (columns + rows) * STRAIGHT
}
