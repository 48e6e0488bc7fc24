//! Whether a table of lengths is tight: no legal step improves it.
ghost use Rattle.std.specs.Prelude.{◌≡◌, ◌+◌, ◌*◌, ◌<◌, ◌≤◌, ◌↔◌, IsTrue, length, ℕ, slice_index};
ghost use Rattle.grid.specs.Terrain.{terrain_of};
ghost use Rattle.walks.specs.Certificate.{IsTight};
ghost use Rattle.walks.specs.Code.TableEntries.{table_entries, number_on};
ghost use Rattle.walks.specs.Code.Tightness.{ground_of, number_of, is_land, is_water};
ghost use Rattle.walks.specs.Code.Tightness.{AreSame, AreWithinStep, KeepsSide, KeepsDiagonals};
ghost use Rattle.walks.specs.Code.Tightness.{KeepsBlock, KeepsRows, IsStrip, AreCorners};
ghost use Rattle.walks.specs.Code.Tightness.{KeepsPatch, KeepsBand};

use crate::keys::{DIAGONAL, STRAIGHT};
use crate::length_table::Entries;
use grid::Map;

/// What the map and the table say of a cell. Land and water have a bit each of its grounds, since a
/// branch on them could not be foreseen.
#[derive(Clone, Copy)]
pub(crate) struct Corner {
    grounds: u64,
    key: u64,
}

/// So many columns make a strip.
const STRIP: u32 = 64;

/// So many rows make a band.
const BAND: u32 = 64;

/// What the cells of one row say in a strip, and in the column behind it.
#[derive(Clone, Copy)]
pub(crate) struct Corners {
    grounds: [u64; STRIP as usize + 1],
    keys: [u64; STRIP as usize + 1],
}

impl Corners {
    ghost use Rattle.walks.specs.Code.Tightness.{corner_in};

    fn blocked() -> Corners
        ensures { (i : ℕ) → slice_index result.grounds i ≡ 0 }
    {
        Corners {
            grounds: [0; STRIP as usize + 1],
            keys: [0; STRIP as usize + 1],
        }
    }

    fn at(&self, i: usize) -> Corner
        requires { i < 65 }
        ensures { result ≡ corner_in self.now i }
    {
        Corner {
            grounds: self.grounds[i],
            key: self.keys[i],
        }
    }
}

/// Whether no legal step improves the table. It goes over the map patch by patch, band below band,
/// so that what is read of a row is near what was read before. In a patch it holds two rows, so
/// that it looks up each cell once.
pub(crate) fn is_tight(map: &Map, entries: &Entries) -> bool
    requires cells { length (table_entries entries.now) ≡ map.now.width * map.now.height }
    ensures { IsTrue result ↔ IsTight map.now (table_entries entries.now) }
{
    for band in 0..map.height().div_ceil(BAND) {
        if !keeps_band(map, entries, band * BAND) {
            return false;
        }
    }
    true
}

/// Tests each step of the rows of a band, and each to the row below them.
fn keeps_band(map: &Map, entries: &Entries, top: u32) -> bool
    requires cells { length (table_entries entries.now) ≡ map.now.width * map.now.height }
    requires row { top < 65536 }
    ensures { IsTrue result ↔ KeepsBand map.now (number_on entries.now map.now.width) top }
{
    let width = map.width();
    for strip in 0..width.div_ceil(STRIP) {
        let left = strip * STRIP;
        if !keeps_patch(map, entries, left, width.min(left + STRIP), top) {
            return false;
        }
    }
    true
}

/// Tests each step of the columns from one to before another in a band, and each to the column
/// behind them and the row below.
fn keeps_patch(map: &Map, entries: &Entries, left: u32, right: u32, top: u32) -> bool
    requires cells { length (table_entries entries.now) ≡ map.now.width * map.now.height }
    requires strip { IsStrip map.now left right }
    requires row { top < 65536 }
    ensures { IsTrue result
        ↔ KeepsPatch map.now (number_on entries.now map.now.width) left right top }
{
    let width = map.width() as usize;
    let bottom = map.height().min(top + BAND);
    let mut upper = Corners::blocked();
    let mut is_held = false;
    for y in top..bottom {
        // what stands for the keys that were not found is tight by itself
        if entries.is_beyond(width, left as usize, right as usize, y as usize) {
            is_held = false;
            continue;
        }
        if !is_held {
            upper = corners_of(map, entries, left, right, y);
        }
        let lower = corners_of(map, entries, left, right, y + 1);
        if !keeps_row(&upper, &lower, (right - left) as usize) {
            return false;
        }
        upper = lower;
        is_held = true;
    }
    true
}

/// What the cells of a row say; off the map they are blocked, and no key is told.
fn corners_of(map: &Map, entries: &Entries, left: u32, right: u32, y: u32) -> Corners
    requires cells { length (table_entries entries.now) ≡ map.now.width * map.now.height }
    requires strip { IsStrip map.now left right }
    requires row { y < 65536 }
    ensures { AreCorners map.now (number_on entries.now map.now.width) left right y result }
{
    let mut corners = Corners::blocked();
    let (width, height) = (map.width(), map.height());
    if y < height {
        let characters = map.characters();
        let (x, y, width) = (left as usize, y as usize, width as usize);
        let first = y * width + x;
        let count = width.min(right as usize + 1) - x;
        for i in 0..count {
            corners.grounds[i] = grounds_of(characters[first + i]);
        }
        entries.put_numbers(width, x, y, count, &mut corners.keys);
    }
    corners
}

/// Tests each step of a row and each to the row below it.
fn keeps_row(upper: &Corners, lower: &Corners, count: usize) -> bool
    requires { count ≤ 64 }
    ensures { IsTrue result ↔ KeepsRows count upper.now lower.now }
{
    let mut keeps = true;
    for i in 0..count {
        // no branch, so that many blocks can be tested at once
        keeps &= keeps_block(upper.at(i), upper.at(i + 1), lower.at(i), lower.at(i + 1));
    }
    keeps
}

fn grounds_of(character: u8) -> u64
    ensures { result ≡ number_of (ground_of (terrain_of character)) }
{
    u64::from(is_land(character)) + 2 * u64::from(is_water(character))
}

fn is_land(character: u8) -> bool
    ensures { result ≡ is_land (ground_of (terrain_of character)) }
{
    (character == b'.') | (character == b'G') | (character == b'S')
}

fn is_water(character: u8) -> bool
    ensures { result ≡ is_water (ground_of (terrain_of character)) }
{
    character == b'W'
}

/// Tests, of four cells that share a corner, the steps from the upper left one and the two diagonal
/// ones.
fn keeps_block(a: Corner, b: Corner, c: Corner, d: Corner) -> bool
    ensures { IsTrue result ↔ KeepsBlock a b c d }
{
    // no branch, since on mixed ground none could be foreseen
    keeps_side(a, b) & keeps_side(a, c) & keeps_diagonals(a, b, c, d)
}

/// Tests the straight step between two cells that share a side, both ways.
fn keeps_side(p: Corner, q: Corner) -> bool
    ensures { IsTrue result ↔ KeepsSide p q }
{
    !are_same(p, q) | are_within(p.key, q.key, STRAIGHT)
}

/// Tests the diagonal steps of four cells that share a corner, both ways.
fn keeps_diagonals(a: Corner, b: Corner, c: Corner, d: Corner) -> bool
    ensures { IsTrue result ↔ KeepsDiagonals a b c d }
{
    !(are_same(a, b) & are_same(a, c) & are_same(a, d))
        | (are_within(a.key, d.key, DIAGONAL) & are_within(b.key, c.key, DIAGONAL))
}

/// Whether a straight step leads from the one cell to the other where they share a side.
fn are_same(p: Corner, q: Corner) -> bool
    ensures { IsTrue result ↔ AreSame p q }
{
    p.grounds & q.grounds != 0
}

/// Whether neither of two keys is more than the other and a step.
fn are_within(p: u64, q: u64, step: u64) -> bool
    ensures { IsTrue result ↔ AreWithinStep step p q }
{
    p.abs_diff(q) <= step
}
