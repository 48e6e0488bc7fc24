//! Whether agents may start where they do, and where acts lead.
ghost use Rattle.std.specs.Prelude.{◌≡◌, ◌<◌, ◌≤◌, ◌↔◌, length, IsTrue, MatchOption};
ghost use Rattle.plan_text.specs.Limits.{most_agents};
ghost use Rattle.checker.specs.Moving.{IsOnGrid, IsFirst, ArePassable};
ghost use Rattle.checker.specs.Moving.{HasBadStart, IsMoved, cell_by};
ghost use Rattle.checker.specs.Code.Walking.{LeadsBeside};

use grid::{Cell, Map, are_joined};
use model::Act;
use plan_text::Course;

/// The first agent whose start is off the map or blocked.
pub fn bad_start(map: &Map, courses: &[Course]) -> Option<u32>
    requires { length courses.now ≤ most_agents }
    ensures { MatchOption result (ArePassable map.now courses.now)
        (IsFirst (HasBadStart map.now courses.now)) }
{
    for agent in 0..courses.len() {
        if !map.is_passable(courses[agent].start()) {
            return Some(agent as u32);
        }
    }
    None
}

/// The cell to which the act leads, if it is a wait or a legal step.
pub fn moved(map: &Map, from: Cell, act: Act) -> Option<Cell>
    requires { IsOnGrid map.now from }
    ensures { IsMoved map.now from act result }
{
    // A map is narrow enough for one cell more.
    let _width = map.width();
    let to = beside(from, act);
    // The terrain first: it mostly joins, also where an agent waits, and then nobody asks which act
    // it is.
    if are_joined(map, from, to) {
        return Some(to);
    }
    match act {
        Act::Wait => Some(to),
        _ => None,
    }
}

/// The cell to which the act leads; beyond the north and the west there is none, and the answer is
/// a cell that is on no map. It asks for each act by itself: which one comes can't be foreseen, and
/// a choice between all of them would become a jump.
fn beside(from: Cell, act: Act) -> Cell
    requires column { from.x < 65535 }
    requires row { from.y < 65535 }
    ensures { LeadsBeside from act result }
{
    let mut to = from;
    if matches!(act, Act::N) {
        to.y = from.y.wrapping_sub(1);
    }
    if matches!(act, Act::E) {
        to.x = from.x + 1;
    }
    if matches!(act, Act::S) {
        to.y = from.y + 1;
    }
    if matches!(act, Act::W) {
        to.x = from.x.wrapping_sub(1);
    }
    to
}

/// The cell to which an act leads, on a map that is large enough. It adds and takes away, and asks
/// for no act, since which one comes can't be foreseen.
pub fn next_cell(cell: Cell, act: Act) -> Cell
    requires column { (cell_by act cell).x < 65536 }
    requires row { (cell_by act cell).y < 65536 }
    ensures { result ≡ cell_by act cell }
{
    let north = u16::from(matches!(act, Act::N));
    let east = u16::from(matches!(act, Act::E));
    let south = u16::from(matches!(act, Act::S));
    let west = u16::from(matches!(act, Act::W));
    Cell {
        x: (cell.x + east).saturating_sub(west),
        y: (cell.y + south).saturating_sub(north),
    }
}
