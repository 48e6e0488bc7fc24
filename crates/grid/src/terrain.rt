//! Terrain, one kind for each character of a map text.
ghost use Rattle.std.specs.Prelude.{◌≡◌};
ghost use Rattle.grid.specs.Terrain.{character_of, terrain_of};

/// What a cell is made of (MovingAI, map format).
#[derive(Clone, Copy, Debug, PartialEq, Eq, Hash)]
pub enum Terrain {
    /// `.`: passable.
    Floor,
    /// `G`: passable.
    Grass,
    /// `@`: out of bounds.
    Void,
    /// `O`: out of bounds.
    OutOfBounds,
    /// `T`: trees, not passable.
    Trees,
    /// `S`: swamp, passable from regular terrain.
    Swamp,
    /// `W`: water, traversable but not passable from terrain.
    Water,
}

impl Terrain {
    /// The terrain of a character, if it has one.
    pub fn from_character(character: u8) -> Option<Terrain>
        ensures { result ≡ terrain_of character }
    {
        match character {
            b'.' => Some(Terrain::Floor),
            b'G' => Some(Terrain::Grass),
            b'@' => Some(Terrain::Void),
            b'O' => Some(Terrain::OutOfBounds),
            b'T' => Some(Terrain::Trees),
            b'S' => Some(Terrain::Swamp),
            b'W' => Some(Terrain::Water),
            _ => None,
        }
    }

    /// The character of the terrain.
    pub fn character(self) -> u8
        ensures { result ≡ character_of self }
    {
        match self {
            Terrain::Floor => b'.',
            Terrain::Grass => b'G',
            Terrain::Void => b'@',
            Terrain::OutOfBounds => b'O',
            Terrain::Trees => b'T',
            Terrain::Swamp => b'S',
            Terrain::Water => b'W',
        }
    }
}
