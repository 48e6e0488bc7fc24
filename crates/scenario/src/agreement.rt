//! Listed lengths against exact ones.
ghost use Rattle.std.specs.Prelude.{◌≡◌, ◌*◌, ◌^◌, ◌<◌, ◌≤◌, ◌↔◌, IsTrue};
ghost use Rattle.scenario.specs.Length.{Agrees};

use crate::length::Length;
use crate::listed::Listed;
use crate::order::is_at_most;

/// Whether a listed number is a length, to within one unit of its last digit.
pub fn agrees(listed: Listed, length: Length) -> bool
    ensures { IsTrue result ↔ Agrees listed.n listed.d length.straight length.diagonal }
{
    let straight = scaled(length.straight, listed.d);
    let diagonal = scaled(length.diagonal, listed.d);
    is_at_most(listed.n, 0, straight + 1, diagonal)
        && is_at_most(straight, diagonal, listed.n + 1, 0)
}

// A part of a length, counted in units of the last of so many decimals.
fn scaled(part: u32, decimals: u8) -> u64
    requires part_limit { part ≤ 4194304 }
    requires decimals_limit { decimals ≤ 12 }
    ensures value { result ≡ 10 ^ decimals * part }
    ensures fits { result < 2 ^ 62 }
{
    10u64.pow(u32::from(decimals)) * u64::from(part)
}
