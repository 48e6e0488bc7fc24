//! A hash of cells that keeps neighbours together.
ghost use Rattle.std.specs.Prelude.{◌≡◌, ◌<◌, ◌^◌};
ghost use Rattle.depgraph.specs.Code.CellHashes.{finished};

use std::hash::{BuildHasher, Hasher};

/// Odd, and 2^64 by the golden ratio, so that the uppermost bits of its multiples lie far apart.
const SCATTER: u64 = 0x9E37_79B9_7F4A_7C15;

/// A table's group holds twelve entries and nine at most on average, so cells share one by tiles of
/// 4 x 2: agents that go on to cells beside theirs find the groups that they found before in the
/// processor's caches. Tiles are scattered, since plans have patterns.
#[derive(Clone, Copy)]
pub(crate) struct CellHashing;

impl BuildHasher for CellHashing {
    ghost use Rattle.depgraph.specs.Code.CellHashes.{new_hasher};

    type Hasher = CellHasher;

    ghost build_hasher = { new_hasher };

    fn build_hasher(&self) -> CellHasher {
        CellHasher { x: 0, y: 0 }
    }
}

/// The last two numbers that it was given are a cell's.
#[derive(Clone, Copy)]
pub(crate) struct CellHasher {
    x: u16,
    y: u16,
}

impl Hasher for CellHasher {
    ghost use Rattle.depgraph.specs.Code.CellHashes.{written, finished};

    ghost write = { written };

    ghost finish = { finished };

    /// The lower 24 of 32 bits choose a group. By the upper 8 a group tells its entries apart: the
    /// place in the tile, and some of the tile.
    fn finish(&self) -> u64 {
        let tile = u64::from(self.y / 2) * 65_536 + u64::from(self.x / 4);
        let place = u64::from(self.y % 2 * 4 + self.x % 4);
        let scattered = tile.wrapping_mul(SCATTER);
        scattered / (1 << 40) + scattered / (1 << 32) % 32 * (1 << 24) + place * (1 << 29)
    }

    fn write(&mut self, bytes: &[u8]) {
        if let [low, high] = bytes {
            self.x = self.y;
            self.y = u16::from(*low) + 256 * u16::from(*high);
        }
    }
}
