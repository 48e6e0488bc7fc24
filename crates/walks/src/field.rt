//! The cells of a map with the keys of a search, which are made where it comes near.
ghost use Rattle.std.specs.Prelude.{◌≡◌, ◌*◌, ◌%◌, ◌^◌, ◌<◌, ◌≤◌, false};

use crate::beyond::Beyond;
use crate::front::{Front, step_diagonal, step_straight};
use crate::heading::Open;
use crate::keys::{Key, NO_LENGTH, STRAIGHT, Steps};
use crate::length_table::LengthTable;
use crate::sides::{east_of, north_of, south_of, west_of};
use crate::tiles::{TILE_SIDE, Tiles, place_in_tile};
use grid::{Cell, Map, Terrain};
use std::alloc::{AllocError, Global};

/// A key for each cell that a search came near.
#[derive(Drop)]
pub(crate) struct Field<'a> {
    alloc: Global,
    map: &'a Map,
    first_keys: [Key; 256],
    tiles: Tiles,
}

impl Field<'_> {
    /// The field of a search from a cell on.
    pub(crate) fn around<'a>(
        alloc: Global,
        map: &'a Map,
        start: Cell,
    ) -> Result<Field<'a>, AllocError> {
        let mut field = Field {
            alloc,
            map,
            first_keys: first_keys(map.terrain(start)),
            tiles: Tiles::bare(alloc, map.width() as usize, map.height() as usize)?,
        };
        if let Some(key) = field.reach(start)? {
            *key = Key::start();
        }
        Ok(field)
    }

    /// The key of a cell, if the search came near it.
    #[inline(always)]
    pub(crate) fn key(&self, cell: Cell) -> Option<Key> {
        self.tiles.key(cell)
    }

    /// The number of the length of a cell so far.
    #[inline(always)]
    pub(crate) fn number(&self, cell: Cell) -> u64 {
        match self.key(cell) {
            Some(key) => key.number_within(NO_LENGTH),
            None => NO_LENGTH,
        }
    }

    /// The table of the keys. No step improves the lesser of two lengths that none improves, so no
    /// key counts that is greater than the goal's; nor, where the search had a heading, one that is
    /// greater than the goal's less the distance to it.
    pub(crate) fn into_table(self, goal: Cell, heading: Option<Cell>) -> LengthTable {
        let beyond = self
            .key(goal)
            .and_then(|key| Beyond::from_key(key, heading));
        let Field { tiles, .. } = self;
        LengthTable::from_tiles(tiles.with_beyond(beyond))
    }

    /// Takes each step from a cell whose key is within a straight step above a number.
    #[inline(always)]
    pub(crate) fn settle_from<F: Front>(
        &mut self,
        cell: Cell,
        from: u64,
        front: &mut F,
    ) -> Result<(), AllocError>
        requires { from ≤ 4194303 * 6625109 }
    {
        match self.key(cell) {
            Some(key) if key.is_from(from) && !key.is_from(from + STRAIGHT) => {
                self.step_from(cell, key, front)
            }
            _ => Ok(()),
        }
    }

    /// Takes each step from a cell whose key is still the one that it had.
    #[inline(always)]
    pub(crate) fn settle<F: Front>(&mut self, open: Open, front: &mut F) -> Result<(), AllocError> {
        match self.key(open.cell) {
            Some(key) if key.is_same(open.key) => self.step_from(open.cell, key, front),
            _ => Ok(()),
        }
    }

    /// Takes each step from a cell of this key.
    #[inline(always)]
    fn step_from<F: Front>(
        &mut self,
        cell: Cell,
        key: Key,
        front: &mut F,
    ) -> Result<(), AllocError> {
        let Some(steps) = key.steps() else {
            return Ok(());
        };
        let at = place_in_tile(usize::from(cell.x), usize::from(cell.y));
        let Some(tile) = self.tiles.tile_mut(cell) else {
            return Ok(());
        };
        let keys = tile.keys.as_mut_slice();
        if is_at_edge(cell) || keys.len() <= at + TILE_SIDE + 1 {
            return self.step_from_edge(cell, steps, front);
        }
        let north = step_straight(front, &mut keys[at - TILE_SIDE], north_of(cell), steps)?;
        let west = step_straight(front, &mut keys[at - 1], west_of(cell), steps)?;
        let east = step_straight(front, &mut keys[at + 1], east_of(cell), steps)?;
        let south = step_straight(front, &mut keys[at + TILE_SIDE], south_of(cell), steps)?;
        if north && west {
            let corner = west_of(north_of(cell));
            step_diagonal(front, &mut keys[at - TILE_SIDE - 1], corner, steps)?;
        }
        if north && east {
            let corner = east_of(north_of(cell));
            step_diagonal(front, &mut keys[at - TILE_SIDE + 1], corner, steps)?;
        }
        if south && west {
            let corner = west_of(south_of(cell));
            step_diagonal(front, &mut keys[at + TILE_SIDE - 1], corner, steps)?;
        }
        if south && east {
            let corner = east_of(south_of(cell));
            step_diagonal(front, &mut keys[at + TILE_SIDE + 1], corner, steps)?;
        }
        Ok(())
    }

    /// The same for a cell that hasn't all its neighbours in its tile. Few are such cells, so it is
    /// compiled by itself.
    #[inline(never)]
    fn step_from_edge<F: Front>(
        &mut self,
        cell: Cell,
        steps: Steps,
        front: &mut F,
    ) -> Result<(), AllocError> {
        let north = self.step_straight(north_of(cell), steps, front)?;
        let west = self.step_straight(west_of(cell), steps, front)?;
        let east = self.step_straight(east_of(cell), steps, front)?;
        let south = self.step_straight(south_of(cell), steps, front)?;
        if north && west {
            self.step_diagonal(west_of(north_of(cell)), steps, front)?;
        }
        if north && east {
            self.step_diagonal(east_of(north_of(cell)), steps, front)?;
        }
        if south && west {
            self.step_diagonal(west_of(south_of(cell)), steps, front)?;
        }
        if south && east {
            self.step_diagonal(east_of(south_of(cell)), steps, front)?;
        }
        Ok(())
    }

    #[inline(always)]
    fn step_straight<F: Front>(
        &mut self,
        cell: Cell,
        steps: Steps,
        front: &mut F,
    ) -> Result<bool, AllocError> {
        match self.reach(cell)? {
            Some(key) => step_straight(front, key, cell, steps),
            None => Ok(false),
        }
    }

    fn step_diagonal<F: Front>(
        &mut self,
        cell: Cell,
        steps: Steps,
        front: &mut F,
    ) -> Result<(), AllocError> {
        match self.reach(cell)? {
            Some(key) => step_diagonal(front, key, cell, steps),
            None => Ok(()),
        }
    }

    /// The key of a cell of the map; its tile is filled if need be.
    #[inline(always)]
    fn reach(&mut self, cell: Cell) -> Result<Option<&mut Key>, AllocError> {
        let (alloc, map) = (self.alloc, self.map);
        let Some(tile) = self.tiles.tile_mut(cell) else {
            return Ok(None);
        };
        if tile.keys.is_empty() {
            tile.keys = first_tile(alloc, map, &self.first_keys, cell)?;
        }
        Ok(
            tile.keys
                .get_mut(place_in_tile(usize::from(cell.x), usize::from(cell.y))),
        )
    }
}

/// Whether a cell hasn't all its neighbours in its tile.
#[inline(always)]
fn is_at_edge(cell: Cell) -> bool
    ensures { result ≡ false → (0 < cell.x % 64) × (0 < cell.y % 64) }
{
    let x = (usize::from(cell.x) + 1) % TILE_SIDE;
    let y = (usize::from(cell.y) + 1) % TILE_SIDE;
    x < 2 || y < 2
}

/// The keys of a cell's tile before the first step; off the map they are closed.
#[cold]
#[inline(never)]
fn first_tile(
    alloc: Global,
    map: &Map,
    first_keys: &[Key; 256],
    cell: Cell,
) -> Result<Vec<Key>, AllocError> {
    let left = usize::from(cell.x) / TILE_SIDE * TILE_SIDE;
    let top = usize::from(cell.y) / TILE_SIDE * TILE_SIDE;
    // All rows are fetched before the first of them is read. One after another, each would wait for
    // memory by itself.
    let mut characters = [b'@'; TILE_SIDE * TILE_SIDE];
    for (y, row) in characters.chunks_mut(TILE_SIDE).enumerate() {
        put_characters(row, row_from(map, left, top + y));
    }
    let mut keys = vec![in alloc; Key::closed(); TILE_SIDE * TILE_SIDE]?;
    for (key, character) in keys.iter_mut().zip(&characters) {
        *key = first_keys[usize::from(*character)];
    }
    Ok(keys)
}

/// The characters of a row from a column on; none below the last row.
fn row_from(map: &Map, x: usize, y: usize) -> &[u8]
    requires { y < 2 ^ 17 }
{
    let width = map.width() as usize;
    let characters = map.characters();
    let end = ((y + 1) * width).min(characters.len());
    let first = (y * width + x.min(width)).min(end);
    &characters[first..end]
}

/// Writes as many of the characters as there is room for.
fn put_characters(row: &mut [u8], characters: &[u8]) {
    let count = characters.len().min(row.len());
    row[..count].copy_from_slice(&characters[..count]);
}

/// The first key of each terrain character: closed where no walk from such a start can pass. A
/// table takes no branch, which no one could foresee.
fn first_keys(start: Option<Terrain>) -> [Key; 256] {
    let open = match start {
        Some(Terrain::Floor | Terrain::Grass | Terrain::Swamp) => b".GS".as_slice(),
        Some(Terrain::Water) => b"W".as_slice(),
        _ => b"".as_slice(),
    };
    let mut keys = [Key::closed(); 256];
    for character in open {
        if let Some(key) = keys.get_mut(usize::from(*character)) {
            *key = Key::unreached();
        }
    }
    keys
}
