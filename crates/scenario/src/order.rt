//! The order of numbers `straight + diagonal * √2`, decided by whole numbers alone.
ghost use Rattle.std.specs.Prelude.{◌≡◌, ◌*◌, ◌^◌, ◌<◌, ◌↔◌, IsTrue};
ghost use Rattle.scenario.specs.Length.{IsAtMost};

/// Whether one such number is at most another.
pub(crate) fn is_at_most(
    straight: u64,
    diagonal: u64,
    other_straight: u64,
    other_diagonal: u64,
) -> bool
    requires diagonal_fits { diagonal < 2 ^ 63 }
    requires other_diagonal_fits { other_diagonal < 2 ^ 63 }
    ensures { IsTrue result ↔ IsAtMost straight diagonal other_straight other_diagonal }
{
    if straight <= other_straight {
        diagonal <= other_diagonal
            || 2 * square(diagonal - other_diagonal) < square(other_straight - straight)
    } else {
        diagonal < other_diagonal
            && square(straight - other_straight) < 2 * square(other_diagonal - diagonal)
    }
}

// Twice the square of a number below 2^63 still fits.
fn square(n: u64) -> u128
    ensures { result ≡ n * n }
{
    u128::from(n) * u128::from(n)
}
