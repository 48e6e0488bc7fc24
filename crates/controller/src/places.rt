//! Places on an agent's path, numbered from 0 on.
ghost use Rattle.std.specs.Prelude.{◌≡◌, ◌↔◌, ◌≤◌, ℕ, IsTrue, MatchOption, Some, slice_get};
ghost use Rattle.controller.specs.Places.{FitsAt, IsFurthestNew, IsNew};

use carrier_text::Report;
use depgraph::Part;
use grid::Cell;

/// The place in which a drive is that reports this: one of those from `from` to `to`. A drive
/// between two cells is in the place of the first.
pub(crate) fn place_of(part: &Part<'_>, report: Report, from: u32, to: u32) -> Option<u32>
    ensures { MatchOption result ((place : ℕ) → FitsAt part.now.cells from to report place → ⊥)
        (FitsAt part.now.cells from to report) }
{
    'places: for place in from..to {
        if fits_at(part, report, to, place) {
            return Some(place);
        }
    }
    if from <= to && fits_at(part, report, to, to) {
        Some(to)
    } else {
        None
    }
}

/// Whether a drive is in a place that reports this, with no part of itself behind a last one.
fn fits_at(part: &Part<'_>, report: Report, to: u32, place: u32) -> bool
    requires { place ≤ to }
    ensures { IsTrue result ↔ FitsAt part.now.cells place to report place }
{
    match report {
        Report::Stands(cell) => has_cell(part, place, cell),
        Report::Between(from, into) => {
            place < to && has_cell(part, place, from) && has_cell(part, place + 1, into)
        }
        Report::Unclear => false,
    }
}

/// Whether the path has this cell at a place.
fn has_cell(part: &Part<'_>, place: u32, cell: Cell) -> bool
    ensures { IsTrue result ↔ (slice_get part.now.cells place ≡ Some cell) }
{
    part.cell(place) == Some(cell)
}

/// The furthest place, up to a last one, up to which no cell of the path stands twice from `from`
/// on.
pub(crate) fn furthest(part: &Part<'_>, from: u32, last: u32) -> u32
    ensures { IsFurthestNew part.now.cells from last result }
{
    'places: for place in from..last {
        if !is_new(part, from, place + 1) {
            return place;
        }
    }
    last.max(from)
}

/// Whether the path has a cell at a place, and another one at each place before it from `from` on.
fn is_new(part: &Part<'_>, from: u32, place: u32) -> bool
    ensures { IsTrue result ↔ IsNew part.now.cells from place }
{
    let Some(cell) = part.cell(place) else {
        return false;
    };
    'each: for before in from..place {
        if has_cell(part, before, cell) {
            return false;
        }
    }
    true
}
