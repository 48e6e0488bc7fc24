//! The keys of a map's cells in tiles, and the numbers of all cells.
ghost use Rattle.std.specs.Prelude.{◌≡◌, ℕ, ◌+◌, ◌-◌, ◌*◌, ◌%◌, ◌^◌};
ghost use Rattle.std.specs.Prelude.{◌<◌, ◌≤◌, IsTrue, None, length, slice_get, slice_index};

use crate::beyond::Beyond;
use crate::distance::{flat_number, number_beyond};
use crate::keys::{Key, NO_LENGTH, length_of};
use crate::rounding::rounded;
use grid::Cell;
use scenario::Length;
use std::alloc::{AllocError, Global};

/// A tile has so many rows of so many cells.
pub(crate) const TILE_SIDE: usize = 64;

/// The keys of a tile's cells, row by row; of none where no search came near.
#[derive(Debug, Drop)]
pub(crate) struct Tile {
    pub(crate) keys: Vec<Key>,
}

/// The tiles of a map, row by row, and what stands for the keys that a search didn't find.
#[derive(Debug, Drop)]
pub(crate) struct Tiles {
    all: Vec<Tile>,
    across: usize,
    width: usize,
    height: usize,
    beyond: Option<Beyond>,
    ghost some: { 0 < width },
    ghost columns: { width < 2 ^ 16 },
    ghost rows: { height < 2 ^ 16 },
    ghost tiles_across: { across < 2 ^ 16 },
}

impl Tiles {
    ghost use Rattle.walks.specs.Code.TileKeys.{key_at, keys_in, tile_number};
    ghost use Rattle.walks.specs.Code.TileKeys.{number_by, number_at, place_entry};

    /// Tiles without keys, of a map of this size.
    pub(crate) fn bare(alloc: Global, width: usize, height: usize) -> Result<Tiles, AllocError>
        requires some { 0 < width }
        requires columns { width < 2 ^ 16 }
        requires rows { height < 2 ^ 16 }
    {
        let across = width.div_ceil(TILE_SIDE);
        let mut all = Vec::new(alloc);
        for _ in 0..across * height.div_ceil(TILE_SIDE) {
            all.push(Tile {
                keys: Vec::new(alloc),
            })
            .map_err(AllocError::from)?;
        }
        Ok(Tiles {
            all,
            across,
            width,
            height,
            beyond: None,
        })
    }

    /// The same tiles, with what stands for the keys that were not found.
    pub(crate) fn with_beyond(self, beyond: Option<Beyond>) -> Tiles {
        let Tiles {
            all,
            across,
            width,
            height,
            ..
        } = self;
        Tiles {
            all,
            across,
            width,
            height,
            beyond,
        }
    }

    pub(crate) fn width(&self) -> usize
        ensures value { result ≡ self.now.width }
        ensures some { 0 < result }
        ensures limit { result < 2 ^ 16 }
    {
        self.width
    }

    /// How many cells the map has.
    pub(crate) fn len(&self) -> usize
        ensures value { result ≡ self.now.width * self.now.height }
        ensures limit { result < 2 ^ 32 }
    {
        self.width * self.height
    }

    /// The key of a cell, if it is on the map and the search came near it.
    #[inline(always)]
    pub(crate) fn key(&self, cell: Cell) -> Option<Key> {
        if usize::from(cell.x) >= self.width {
            return None;
        }
        self.key_at(usize::from(cell.x), usize::from(cell.y))
    }

    /// The tile of a cell, if it is on the map.
    #[inline(always)]
    pub(crate) fn tile_mut(&mut self, cell: Cell) -> Option<&mut Tile> {
        if usize::from(cell.x) >= self.width {
            return None;
        }
        let number = self.tile_of(usize::from(cell.x), usize::from(cell.y));
        self.all.get_mut(number)
    }

    /// The number of a cell by its column and its row.
    pub(crate) fn number_at(&self, x: usize, y: usize) -> u64
        requires column { x < 2 ^ 17 }
        requires row { y < 2 ^ 17 }
        ensures { result ≡ number_at self.now x y }
    {
        Tiles::lesser(number_beyond(self.beyond, x, y), self.key_at(x, y))
    }

    /// Writes the numbers of so many cells of a row, from a column on.
    pub(crate) fn put_numbers(&self, x: usize, y: usize, count: usize, numbers: &mut [u64])
        requires room { count ≤ length numbers.old }
        requires columns { x + count < 2 ^ 17 }
        requires row { y < 2 ^ 17 }
        ensures told { (i : ℕ) → i < count
            → slice_index numbers.new i ≡ number_at self.now (x + i) y }
    {
        let in_tile = count.min(TILE_SIDE - x % TILE_SIDE);
        self.put_in_tile(x, y, in_tile, numbers);
        for i in in_tile..count {
            numbers[i] = self.number_at(x + i, y);
        }
    }

    /// The same for cells of one tile.
    fn put_in_tile(&self, x: usize, y: usize, count: usize, numbers: &mut [u64])
        requires room { count ≤ length numbers.old }
        requires columns { x + count < 2 ^ 17 }
        requires row { y < 2 ^ 17 }
        requires tile { count ≤ 64 - x % 64 }
        ensures told { (i : ℕ) → i < count
            → slice_index numbers.new i ≡ number_at self.now (x + i) y }
    {
        let beyond = self.beyond;
        let keys = self.keys_from(x, y);
        match flat_number(beyond) {
            Some(number) if count <= keys.len() => Tiles::put_within(number, keys, count, numbers),
            _ => {
                for i in 0..count {
                    let number = number_beyond(beyond, x + i, y);
                    numbers[i] = Tiles::lesser(number, keys.get(i).copied());
                }
            }
        }
    }

    /// Writes the numbers of so many keys that are less than one number, and else that number.
    fn put_within(beyond: u64, keys: &[Key], count: usize, numbers: &mut [u64])
        requires keys { count ≤ length keys.now }
        requires room { count ≤ length numbers.old }
        ensures told { (i : ℕ) → i < count
            → slice_index numbers.new i ≡ number_by beyond (slice_get keys.now i) }
    {
        for i in 0..count {
            numbers[i] = keys[i].number_within(beyond);
        }
    }

    /// The entry of a place of the map.
    pub(crate) fn entry(&self, place: usize) -> Option<Length>
        requires { place < self.now.width * self.now.height }
        ensures { result ≡ place_entry self.now place }
    {
        let number = self.number_at(place % self.width, place / self.width);
        if number < NO_LENGTH {
            length_of(rounded(number))
        } else {
            None
        }
    }

    /// Whether no cell of a row has a key, from one column to another that is at most a tile's side
    /// behind it.
    pub(crate) fn is_bare(&self, left: usize, right: usize, y: usize) -> bool
        requires left { left ≤ right }
        requires near { right ≤ left + 64 }
        requires columns { right < 2 ^ 17 }
        requires row { y < 2 ^ 17 }
        ensures { IsTrue result → (x : ℕ) → left ≤ x → x ≤ right → key_at self.now x y ≡ None }
    {
        self.keys_of(left, y).is_empty() && self.keys_of(right, y).is_empty()
    }

    /// The keys of the tile in a row from a column on, where it has any.
    fn keys_from(&self, x: usize, y: usize) -> &[Key]
        requires column { x < 2 ^ 17 }
        requires row { y < 2 ^ 17 }
        ensures { (i : ℕ) → i < 64 - x % 64 → slice_get result.now i ≡ key_at self.now (x + i) y }
    {
        let keys = self.keys_of(x, y);
        let at = place_in_tile(x, y).min(keys.len());
        &keys[at..]
    }

    /// The key in a column and a row.
    #[inline(always)]
    fn key_at(&self, x: usize, y: usize) -> Option<Key>
        requires column { x < 2 ^ 17 }
        requires row { y < 2 ^ 17 }
        ensures { result ≡ key_at self.now x y }
    {
        self.keys_of(x, y).get(place_in_tile(x, y)).copied()
    }

    /// The keys of the tile that a column and a row are in.
    #[inline(always)]
    fn keys_of(&self, x: usize, y: usize) -> &[Key]
        requires column { x < 2 ^ 17 }
        requires row { y < 2 ^ 17 }
        ensures { result.now
            ≡ keys_in (slice_get self.now.all.items (tile_number self.now.across x y)) }
    {
        match self.all.get(self.tile_of(x, y)) {
            Some(tile) => tile.keys.as_slice(),
            None => &[],
        }
    }

    #[inline(always)]
    fn tile_of(&self, x: usize, y: usize) -> usize
        requires column { x < 2 ^ 17 }
        requires row { y < 2 ^ 17 }
        ensures { result ≡ tile_number self.now.across x y }
    {
        y / TILE_SIDE * self.across + x / TILE_SIDE
    }

    /// The number of a key, where it is less than another.
    #[inline(always)]
    fn lesser(beyond: u64, key: Option<Key>) -> u64
        ensures { result ≡ number_by beyond key }
    {
        match key {
            Some(key) => key.number_within(beyond),
            None => beyond,
        }
    }
}

/// Where the key of a cell stands in its tile.
#[inline(always)]
pub(crate) fn place_in_tile(x: usize, y: usize) -> usize
    ensures value { result ≡ y % 64 * 64 + x % 64 }
    ensures limit { result < 4096 }
{
    y % TILE_SIDE * TILE_SIDE + x % TILE_SIDE
}
