//! Which straight steps are legal from each cell of a map.
ghost use Rattle.std.specs.Prelude.{◌≡◌, ◌+◌, ◌*◌, ◌<◌, IfOk, length, true};
ghost use Rattle.grid.specs.Map.{IsStraightStep};
ghost use Rattle.least_costs.specs.Code.Ways.{AreAllWays, AreWays};

use crate::sides::{place_of, sides_of};
use grid::{Cell, Map, step4};
use std::alloc::{AllocError, Global};
use std::marker::Model;

/// To which of the cells beside a cell a straight step may lead; to the others none does.
#[derive(Clone, Copy, Debug)]
pub(crate) struct Ways {
    pub(crate) north: bool,
    pub(crate) south: bool,
    pub(crate) west: bool,
    pub(crate) east: bool,
}

/// No step leads from a cell off the map.
const NO_WAYS: Ways = Ways {
    north: false,
    south: false,
    west: false,
    east: false,
};

/// Which straight steps are legal from each cell of a map.
#[derive(Debug, Drop)]
pub struct LegalSteps<'a> {
    map: &'a Map,
    ways: Vec<Ways>,
    width: u32,
}

impl<'a> Model for LegalSteps<'a> {
    ghost use Rattle.grid.specs.Map.{Grid};
    ghost use Rattle.least_costs.specs.Code.Ways.{HasAllWays};

    ghost Value = { Grid };

    ghost view = { λ l. l.map.now };

    ghost invariant = { λ l. HasAllWays l.map.now l.width l.ways.items };
}

impl<'a> LegalSteps<'a> {
    /// The steps of a map.
    pub fn of(alloc: Global, map: &'a Map) -> Result<LegalSteps<'a>, AllocError>
        ensures { IfOk result (λ l. l ≡ map.now) }
    {
        let (width, height) = (map.width(), map.height());
        let mut ways = Vec::new(alloc);
        ways.reserve(width as usize * height as usize)?;
        for row in 0..height {
            put_row(map, &mut ways, row as u16)?;
        }
        Ok(LegalSteps { map, ways, width })
    }

    #[inline(always)]
    pub(crate) fn map(&self) -> &'a Map
        ensures { result.now ≡ self.now }
    {
        self.map
    }

    /// Whether a straight step leads from the one cell to the other.
    #[inline(always)]
    pub(crate) fn is_step(&self, from: Cell, to: Cell) -> bool
        ensures { result ≡ true → IsStraightStep self.now from to }
    {
        let ways = self.from(from);
        let sides = sides_of(from);
        if to == sides.north {
            ways.north
        } else if to == sides.south {
            ways.south
        } else if to == sides.west {
            ways.west
        } else {
            ways.east && to == sides.east
        }
    }

    /// Where a straight step may lead from a cell.
    #[inline(always)]
    pub(crate) fn from(&self, cell: Cell) -> Ways
        ensures { AreWays self.now cell result }
    {
        match place_of(self.width, self.ways.len(), cell) {
            Some(place) => self.ways[place],
            None => NO_WAYS,
        }
    }
}

fn put_row(map: &Map, ways: &mut Vec<Ways>, row: u16) -> Result<(), AllocError>
    requires before { length ways.old.items ≡ row * map.now.width }
    requires legal { AreAllWays map.now ways.old.items }
    ensures after { IfOk result (λ _. length ways.new.items ≡ (row + 1) * map.now.width) }
    ensures legal { IfOk result (λ _. AreAllWays map.now ways.new.items) }
{
    for column in 0..map.width() {
        let cell = Cell {
            x: column as u16,
            y: row,
        };
        ways.push(ways_of(map, cell))?;
    }
    Ok(())
}

#[inline(always)]
fn ways_of(map: &Map, cell: Cell) -> Ways
    ensures { AreWays map.now cell result }
{
    let _height = map.height();
    let sides = sides_of(cell);
    Ways {
        north: step4(map, cell, sides.north),
        south: step4(map, cell, sides.south),
        west: step4(map, cell, sides.west),
        east: step4(map, cell, sides.east),
    }
}
