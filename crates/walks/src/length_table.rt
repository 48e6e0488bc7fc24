//! Tables of lengths: an entry for each cell of a map.
ghost use Rattle.std.specs.Prelude.{◌≡◌, ℕ, ◌+◌, ◌*◌, ◌<◌};
ghost use Rattle.std.specs.Prelude.{◌≤◌, ◌^◌, IfOk, IsTrue, ◌↔◌};
ghost use Rattle.std.specs.Prelude.{MatchOption, None, length, slice_index, slice_index_or};
ghost use Rattle.walks.specs.Certificate.{IsTight};
ghost use Rattle.walks.specs.Code.KeyParts.{number_of_entry};
ghost use Rattle.walks.specs.Code.TableEntries.{table_entries, entry_number, number_on, IsBeyond};
ghost use Rattle.walks.specs.Code.TileKeys.{number_at};

use crate::keys::{Key, NO_LENGTH, number_of};
use crate::tightness::is_tight;
use crate::tiles::Tiles;
use grid::Map;
use scenario::Length;
use std::alloc::{AllocError, Global};
use std::marker::Model;

/// For each cell of a map, row by row, a length, or none. A search's table takes memory where the
/// search came near alone.
#[derive(Debug, Drop)]
pub struct LengthTable {
    entries: Entries,
}

/// The keys of all places, or those that a search found.
#[derive(Debug, Drop)]
pub(crate) enum Entries {
    Listed(Vec<Key>),
    Found(Tiles),
}

impl Model for LengthTable {
    ghost use Rattle.std.specs.Prelude.{List, Option};
    ghost use Rattle.scenario.specs.declared.length.Length.{Length};

    ghost Value = { List (Option Length) };

    ghost use Rattle.walks.specs.Code.TableEntries.{table_entries};

    ghost view = { λ t. table_entries t.entries };
}

impl LengthTable {
    /// The table with these entries, row by row.
    pub fn from_entries(
        alloc: Global,
        entries: &[Option<Length>],
    ) -> Result<LengthTable, AllocError>
        ensures { IfOk result (λ table. table ≡ entries.now) }
    {
        let mut keys = Vec::with_capacity(alloc, entries.len())?;
        for entry in entries {
            keys.push(Key::of(*entry))?;
        }
        Ok(LengthTable {
            entries: Entries::Listed(keys),
        })
    }

    /// The table of what a search found.
    pub(crate) fn from_tiles(tiles: Tiles) -> LengthTable {
        LengthTable {
            entries: Entries::Found(tiles),
        }
    }

    /// How many entries there are.
    pub fn len(&self) -> usize
        ensures { result ≡ length self.now }
    {
        self.entries.len()
    }

    /// The entry at a place; none behind the last one.
    pub fn entry(&self, place: usize) -> Option<Length>
        ensures { result ≡ slice_index_or self.now place None }
    {
        self.entries.entry(place)
    }

    /// Whether no legal step improves the table.
    pub(crate) fn is_tight(&self, map: &Map) -> bool
        requires cells { length self.now ≡ map.now.width * map.now.height }
        ensures { IsTrue result ↔ IsTight map.now self.now }
    {
        is_tight(map, &self.entries)
    }
}

impl Entries {
    fn len(&self) -> usize
        ensures { result ≡ length (table_entries self.now) }
    {
        match self {
            Entries::Listed(keys) => keys.as_slice().len(),
            Entries::Found(tiles) => tiles.len(),
        }
    }

    /// The entry at a place; none behind the last one.
    fn entry(&self, place: usize) -> Option<Length>
        ensures { result ≡ slice_index_or (table_entries self.now) place None }
    {
        match self {
            Entries::Listed(keys) => match keys.get(place) {
                Some(key) => key.length(),
                None => None,
            },
            Entries::Found(tiles) => {
                if place < tiles.len() {
                    tiles.entry(place)
                } else {
                    None
                }
            }
        }
    }

    /// The number of the entry at a place.
    fn number(&self, place: usize) -> u64
        ensures { result ≡ number_of_entry (slice_index_or (table_entries self.now) place None) }
    {
        match self {
            Entries::Listed(keys) => match keys.get(place) {
                Some(key) => key.number_within(NO_LENGTH),
                None => NO_LENGTH,
            },
            Entries::Found(_) => number_of(self.entry(place)),
        }
    }

    /// Writes the numbers of so many cells of a row of a map, from a column on.
    pub(crate) fn put_numbers(
        &self,
        width: usize,
        x: usize,
        y: usize,
        count: usize,
        numbers: &mut [u64],
    )
        requires room { count ≤ length numbers.old }
        requires width { width < 2 ^ 16 }
        requires columns { x + count < 2 ^ 17 }
        requires row { y < 2 ^ 16 }
        ensures told { (i : ℕ) → i < count
            → slice_index numbers.new i ≡ number_on self.now width (x + i) y }
    {
        match self.tiles_of(width) {
            Some(tiles) => tiles.put_numbers(x, y, count, numbers),
            None => {
                for i in 0..count {
                    numbers[i] = self.number(y * width + (x + i));
                }
            }
        }
    }

    /// Whether the search came near no cell of a row of a map and of the row below it, from one
    /// column to another.
    pub(crate) fn is_beyond(&self, width: usize, left: usize, right: usize, y: usize) -> bool
        requires left { left ≤ right }
        requires near { right ≤ left + 64 }
        requires columns { right < 2 ^ 17 }
        requires row { y < 2 ^ 16 }
        ensures { IsTrue result → IsBeyond self.now width left right y }
    {
        match self.tiles_of(width) {
            Some(tiles) => tiles.is_bare(left, right, y) && tiles.is_bare(left, right, y + 1),
            None => false,
        }
    }

    /// The tiles, if they are those of a map of this width.
    fn tiles_of(&self, width: usize) -> Option<&Tiles>
        ensures { MatchOption result ((x y : ℕ)
            → number_on self.now width x y ≡ entry_number (table_entries self.now) width x y)
            (λ t. (x y : ℕ) → number_on self.now width x y ≡ number_at t.now x y) }
    {
        match self {
            Entries::Found(tiles) if tiles.width() == width => Some(tiles),
            _ => None,
        }
    }
}
