//! Calling `scen`, which passes `rows` on: any search proposes a length, and `certify` proves it.
ghost use Rattle.std.specs.Prelude.{IfSome};
ghost use Rattle.walks.specs.Certificate.{IsLeast};

use grid::{Cell, Map};
use scen::{Length, certify, search};
use std::alloc::Global;

/// The shortest length between two cells, `None` within where no walk leads there. There is no
/// answer where a cell is off the map, memory was refused, or the search was wrong.
pub fn certified_length(alloc: Global, map: &Map, start: Cell, goal: Cell) -> Option<Option<Length>>
    ensures { IfSome result (IsLeast map.now start goal) }
{
    let proposal = search(alloc, map, start, goal).ok()?;
    certify(map, start, goal, &proposal).ok()
}
