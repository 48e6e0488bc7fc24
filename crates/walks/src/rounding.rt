//! The least length that is not below a number.
ghost use Rattle.std.specs.Prelude.{◌≡◌, ◌+◌, ◌*◌, ◌^◌, ◌<◌, ◌≤◌};
ghost use Rattle.walks.specs.Code.Rounding.{least_with, rounded};

use crate::keys::{DIAGONAL, STRAIGHT};

/// The least number of a length that is not below another number.
pub(crate) fn rounded(number: u64) -> u64
    requires { number < 2 ^ 62 }
    ensures { result ≡ rounded number }
{
    let mut least = least_with(number, 0);
    for diagonal in 1..number / DIAGONAL + 2 {
        least = least.min(least_with(number, diagonal));
    }
    least
}

/// That of a length with so many diagonal steps.
fn least_with(number: u64, diagonal: u64) -> u64
    requires number { number < 2 ^ 62 }
    requires diagonal { diagonal * 9369319 ≤ number + 9369319 }
    ensures { result ≡ least_with number diagonal }
{
    let rest = number.saturating_sub(diagonal * DIAGONAL);
    diagonal * DIAGONAL + rest.div_ceil(STRAIGHT).max(1) * STRAIGHT
}
