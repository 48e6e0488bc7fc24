//! The sum and the greatest of bounds.
ghost use Rattle.std.specs.Prelude.{◌≡◌, sum};
ghost use Rattle.bounding.specs.Bounding.{greatest_bound};

pub(crate) fn sum_of(bounds: &[u32]) -> u128
    ensures { result ≡ sum bounds.now }
{
    let mut total = 0;
    for bound in bounds {
        total += u128::from(*bound);
    }
    total
}

/// The greatest bound; 0 where there is none.
pub(crate) fn greatest_of(bounds: &[u32]) -> u32
    ensures { result ≡ greatest_bound bounds.now }
{
    let mut greatest = 0;
    for bound in bounds {
        greatest = (*bound).max(greatest);
    }
    greatest
}
