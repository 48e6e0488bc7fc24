//! A map: a terrain for every cell.
ghost use Rattle.std.specs.Prelude.{◌≡◌, ◌*◌, ◌↔◌, IsTrue, vec_len, map};
ghost use Rattle.std.specs.List.{list_all};
ghost use Rattle.grid.specs.Terrain.{is_terrain, kind_of, character_of};
ghost use Rattle.grid.specs.Map.{Grid, IsSize, IsMap};

use crate::{Cell, Terrain};
use std::marker::Model;

/// A terrain for every cell, row by row from the north, within the limits of a map text.
#[derive(Debug, Drop)]
pub struct Map {
    width: u32,
    height: u32,
    characters: Vec<u8>,
}

impl Model for Map {
    ghost Value = { Grid };

    ghost view = { λ m. record {
      width = m.width;
      height = m.height;
      terrain = map kind_of m.characters.items;
    } };

    ghost invariant = { λ m. IsSize m.width m.height × (vec_len m.characters ≡ m.width * m.height)
        × IsTrue (list_all is_terrain m.characters.items) };
}

impl Map {
    ghost use Rattle.grid.specs.Map.{IsPassable, terrain_at, with_blocked};

    /// How many cells a row has.
    pub fn width(&self) -> u32
        ensures width { result ≡ self.now.width }
        ensures map { IsMap self.now }
    {
        self.width
    }

    /// How many rows there are.
    pub fn height(&self) -> u32
        ensures height { result ≡ self.now.height }
        ensures map { IsMap self.now }
    {
        self.height
    }

    /// The terrain of a cell; `None` off the map.
    pub fn terrain(&self, cell: Cell) -> Option<Terrain>
        ensures { result ≡ terrain_at self.now cell }
    {
        let (x, y) = (u32::from(cell.x), u32::from(cell.y));
        if x < self.width && y < self.height {
            let at = y as usize * self.width as usize + x as usize;
            Terrain::from_character(self.characters[at])
        } else {
            None
        }
    }

    /// Whether the cell is on the map and isn't blocked.
    pub fn is_passable(&self, cell: Cell) -> bool
        ensures { IsTrue result ↔ IsPassable self.now cell }
    {
        matches!(
            self.terrain(cell),
            Some(Terrain::Floor | Terrain::Grass | Terrain::Swamp | Terrain::Water)
        )
    }

    /// The map with this cell out of bounds (`@`), so that nobody may enter it; `None` where the
    /// cell is off the map.
    pub fn with_blocked(mut self, cell: Cell) -> Option<Map>
        ensures { result ≡ with_blocked self cell }
    {
        let (x, y) = (u32::from(cell.x), u32::from(cell.y));
        if x < self.width && y < self.height {
            let at = y as usize * self.width as usize + x as usize;
            self.characters[at] = Terrain::Void.character();
            Some(self)
        } else {
            None
        }
    }

    /// The map with these characters, row by row.
    pub(crate) fn from_characters(width: u32, height: u32, characters: Vec<u8>) -> Map
        requires size { IsSize width height }
        requires count { vec_len characters ≡ width * height }
        requires terrain { IsTrue (list_all is_terrain characters.items) }
        ensures { result ≡ record {
          width = width;
          height = height;
          terrain = map kind_of characters.items;
        } }
    {
        Map {
            width,
            height,
            characters,
        }
    }

    /// The characters, row by row.
    pub fn characters(&self) -> &[u8]
        ensures { result.now ≡ map character_of self.now.terrain }
    {
        self.characters.as_slice()
    }
}
