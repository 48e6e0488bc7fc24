//! Where straight steps lead, by the characters of a map. `step4` says the same of any cells, and
//! makes a terrain of each character first, which takes a third of the time of a search.
ghost use Rattle.std.specs.Prelude.{◌≡◌, ◌+◌, ◌*◌, ◌<◌, ◌↔◌, IsTrue};
ghost use Rattle.grid.specs.Map.{AreJoined, terrain_at};
ghost use Rattle.grid.specs.Code.Joining.{is_land_character, joins_by};

use crate::{Cell, Map};

/// Whether a step may lead from the terrain of a cell of the map to that of the other cell, if
/// there is such a cell.
#[inline(always)]
pub fn are_joined(map: &Map, from: Cell, to: Cell) -> bool
    requires { (from.x < map.now.width) × (from.y < map.now.height) }
    ensures { IsTrue result ↔ AreJoined (terrain_at map.now from) (terrain_at map.now to) }
{
    if u32::from(to.x) >= map.width() || u32::from(to.y) >= map.height() {
        return false;
    }
    let characters = map.characters();
    joins(
        characters[place_of(map, from)],
        characters[place_of(map, to)],
    )
}

/// Whether the character is that of a terrain on which agents stand, but for water.
#[inline(always)]
pub fn is_land(character: u8) -> bool
    ensures { result ≡ is_land_character character }
{
    matches!(character, b'.' | b'G' | b'S')
}

/// The place of a cell among the characters, row by row.
#[inline(always)]
fn place_of(map: &Map, cell: Cell) -> usize
    requires { (cell.x < map.now.width) × (cell.y < map.now.height) }
    ensures place { result ≡ cell.y * map.now.width + cell.x }
    ensures within { result < map.now.width * map.now.height }
{
    usize::from(cell.y) * map.width() as usize + usize::from(cell.x)
}

/// Whether a step may lead from the terrain of the one character to that of the other.
#[inline(always)]
fn joins(from: u8, to: u8) -> bool
    ensures { result ≡ joins_by from to }
{
    (is_land(from) && is_land(to)) || (from == b'W' && to == b'W')
}
