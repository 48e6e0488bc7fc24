//! The eight steps from a cell by their numbers, and sets of them.
ghost use Rattle.std.specs.Prelude.{◌≡◌, ◌^◌, ◌<◌, ◌↔◌, IsTrue, false, true};
ghost use Rattle.grid.specs.Map.{IsDiagonalStep, IsMap};
ghost use Rattle.walks.specs.Walk.{IsOn};
ghost use Rattle.std.specs.Int.Bits.{bit_and, bit_xor};
ghost use Rattle.least_steps.specs.Code.Steps.{AreLegal, IsAlongColumn, IsAlongRow, HasStep};
ghost use Rattle.least_steps.specs.Code.Steps.{IsLegalStep, cell_behind, lead, not_back};
ghost use Rattle.least_steps.specs.Code.Steps.{onward_of, set_with, side_of, turn_behind};
ghost use Rattle.least_steps.specs.Code.Steps.{weight};

use crate::joining::is_step;
use grid::{Cell, Map, are_joined};
use walks::{DIAGONAL, STRAIGHT};

/// No step led to a start.
pub(crate) const NONE: u32 = 8;

/// Adding it takes one away, since a sum wraps.
const BACK: u16 = u16::MAX;

const NORTH: u8 = 1;

const WEST: u8 = 2;

const EAST: u8 = 4;

const SOUTH: u8 = 8;

const NORTHWEST: u8 = 16;

const NORTHEAST: u8 = 32;

const SOUTHWEST: u8 = 64;

const SOUTHEAST: u8 = 128;

/// By how much a step changes a column and a row. Their sums wrap.
#[derive(Clone, Copy)]
struct Lead {
    column: u16,
    row: u16,
}

/// The steps that go on behind one: those that always do, and to each side those that do so only
/// where a third one is not legal.
#[derive(Clone, Copy)]
struct Turn {
    always: u8,
    first_unless: u8,
    first: u8,
    second_unless: u8,
    second: u8,
}

/// The cell to which a legal step leads.
#[inline(always)]
pub(crate) fn cell_after(map: &Map, cell: Cell, step: u32) -> Cell
    requires step { step < 8 }
    requires map { IsMap map.now }
    requires legal { IsLegalStep map.now cell step }
    ensures { result ≡ cell_behind step cell }
{
    let lead = lead_of(step);
    Cell {
        x: cell.x.wrapping_add(lead.column),
        y: cell.y.wrapping_add(lead.row),
    }
}

#[inline(always)]
fn lead_of(step: u32) -> Lead
    ensures column { result.column ≡ (lead step).column }
    ensures row { result.row ≡ (lead step).row }
{
    match step {
        0 => Lead {
            column: 0,
            row: BACK,
        },
        1 => Lead {
            column: BACK,
            row: 0,
        },
        2 => Lead { column: 1, row: 0 },
        3 => Lead { column: 0, row: 1 },
        4 => Lead {
            column: BACK,
            row: BACK,
        },
        5 => Lead {
            column: 1,
            row: BACK,
        },
        6 => Lead {
            column: BACK,
            row: 1,
        },
        _ => Lead { column: 1, row: 1 },
    }
}

/// How much longer a step makes a walk.
#[inline(always)]
pub(crate) fn weight_of(step: u32) -> u64
    ensures { result ≡ weight step }
{
    if step < 4 { STRAIGHT } else { DIAGONAL }
}

/// The legal steps from a cell.
#[inline(never)]
pub(crate) fn legal_steps(map: &Map, cell: Cell) -> u8
    requires map { IsMap map.now }
    requires on { IsOn map.now cell }
    ensures { AreLegal map.now cell result }
{
    let Cell { x, y } = cell;
    let west = x.saturating_sub(1);
    let east = x.saturating_add(1);
    let north = y.saturating_sub(1);
    let south = y.saturating_add(1);
    let to_north = is_step(map, cell, Cell { x, y: north });
    let to_west = is_step(map, cell, Cell { x: west, y });
    let to_east = is_step(map, cell, Cell { x: east, y });
    let to_south = is_step(map, cell, Cell { x, y: south });
    let northwest = leads_aslant(map, cell, Cell { x: west, y: north }, to_west, to_north);
    let northeast = leads_aslant(map, cell, Cell { x: east, y: north }, to_east, to_north);
    let southwest = leads_aslant(map, cell, Cell { x: west, y: south }, to_west, to_south);
    let southeast = leads_aslant(map, cell, Cell { x: east, y: south }, to_east, to_south);
    let straight = set_of(to_north, to_west, to_east, to_south);
    let diagonal = set_of(northwest, northeast, southwest, southeast);
    diagonal * 16 + straight
}

/// Whether a legal diagonal step leads from the one cell to the other, by whether straight ones
/// lead into the same row, and into the same column.
fn leads_aslant(map: &Map, from: Cell, to: Cell, row: bool, column: bool) -> bool
    requires on { IsOn map.now from }
    requires row { IsAlongRow map.now from to row }
    requires column { IsAlongColumn map.now from to column }
    ensures { IsTrue result ↔ IsDiagonalStep map.now from to }
{
    row && column && are_joined(map, from, to)
}

fn set_of(first: bool, second: bool, third: bool, fourth: bool) -> u8
    ensures { result ≡ set_with first second third fourth }
{
    u8::from(first) + 2 * u8::from(second) + 4 * u8::from(third) + 8 * u8::from(fourth)
}

/// Of the legal steps from a cell those that are to be taken where this step led there: the cell
/// before leads as soon to where the others do.
#[inline(always)]
pub(crate) fn onward(by: u32, legal: u8, aslant: bool) -> u8
    ensures aslant { aslant ≡ true → result ≡ onward_of by legal }
    ensures straight { aslant ≡ false → result ≡ bit_and legal (not_back by) }
{
    if aslant {
        aslant_onward(by, legal)
    } else {
        straight_onward(by, legal)
    }
}

/// The first step of a set that has some.
#[inline(always)]
pub(crate) fn first_of(steps: u8) -> u32
    requires { 0 < steps }
    ensures few { result < 8 }
    ensures there { HasStep steps result }
{
    steps.trailing_zeros()
}

/// A set of steps without one that it has.
#[inline(always)]
pub(crate) fn without(steps: u8, step: u32) -> u8
    requires { step < 8 }
    ensures { result ≡ bit_xor steps (2 ^ step) }
{
    steps ^ (1 << step)
}

#[inline(always)]
fn aslant_onward(by: u32, legal: u8) -> u8
    ensures { result ≡ onward_of by legal }
{
    let turn = turn_behind(by);
    let first = side_of(legal, turn.first_unless, turn.first);
    let second = side_of(legal, turn.second_unless, turn.second);
    legal & (turn.always | first | second)
}

#[inline(always)]
fn side_of(legal: u8, unless: u8, side: u8) -> u8
    ensures { result ≡ side_of legal unless side }
{
    if legal & unless == 0 { side } else { 0 }
}

/// Where straight steps alone are taken, all but the one that leads back.
#[inline(always)]
fn straight_onward(by: u32, legal: u8) -> u8
    ensures { result ≡ bit_and legal (not_back by) }
{
    let onward = match by {
        0 => NORTH | WEST | EAST,
        1 => NORTH | WEST | SOUTH,
        2 => NORTH | EAST | SOUTH,
        3 => WEST | EAST | SOUTH,
        _ => NORTH | WEST | EAST | SOUTH,
    };
    legal & onward
}

#[inline(always)]
fn turn_behind(by: u32) -> Turn
    ensures always { result.always ≡ (turn_behind by).always }
    ensures first_unless { result.first_unless ≡ (turn_behind by).first_unless }
    ensures first { result.first ≡ (turn_behind by).first }
    ensures second_unless { result.second_unless ≡ (turn_behind by).second_unless }
    ensures second { result.second ≡ (turn_behind by).second }
{
    match by {
        0 => straight_turn(
            NORTH,
            SOUTHWEST,
            WEST | NORTHWEST,
            SOUTHEAST,
            EAST | NORTHEAST,
        ),
        1 => straight_turn(
            WEST,
            NORTHEAST,
            NORTH | NORTHWEST,
            SOUTHEAST,
            SOUTH | SOUTHWEST,
        ),
        2 => straight_turn(
            EAST,
            NORTHWEST,
            NORTH | NORTHEAST,
            SOUTHWEST,
            SOUTH | SOUTHEAST,
        ),
        3 => straight_turn(
            SOUTH,
            NORTHWEST,
            WEST | SOUTHWEST,
            NORTHEAST,
            EAST | SOUTHEAST,
        ),
        4 => always(NORTHWEST | NORTH | WEST),
        5 => always(NORTHEAST | NORTH | EAST),
        6 => always(SOUTHWEST | SOUTH | WEST),
        7 => always(SOUTHEAST | SOUTH | EAST),
        _ => always(u8::MAX),
    }
}

#[inline(always)]
fn straight_turn(always: u8, first_unless: u8, first: u8, second_unless: u8, second: u8) -> Turn
    ensures always { result.always ≡ always }
    ensures first_unless { result.first_unless ≡ first_unless }
    ensures first { result.first ≡ first }
    ensures second_unless { result.second_unless ≡ second_unless }
    ensures second { result.second ≡ second }
{
    Turn {
        always,
        first_unless,
        first,
        second_unless,
        second,
    }
}

#[inline(always)]
fn always(steps: u8) -> Turn
    ensures always { result.always ≡ steps }
    ensures first_unless { result.first_unless ≡ 0 }
    ensures first { result.first ≡ 0 }
    ensures second_unless { result.second_unless ≡ 0 }
    ensures second { result.second ≡ 0 }
{
    straight_turn(steps, 0, 0, 0, 0)
}
