//! Lengths as scenarios list them: decimal numbers.
ghost use Rattle.std.specs.Prelude.{◌≡◌, ◌+◌, ◌^◌, ◌<◌, ◌≤◌, ◌⊎◌, MatchOption};

const DECIMALS_LIMIT: u8 = 12;

/// The number `n / 10^d`: up to seven digits before the point, and `d` after it.
#[derive(Clone, Copy, Debug, PartialEq, Eq, Hash)]
pub struct Listed {
    pub n: u64,
    pub d: u8,
    ghost decimals_limit: { d ≤ 12 },
    ghost digits_limit: { n < 10 ^ (7 + d) },
}

impl Listed {
    /// `None` where there are too many digits.
    pub fn new(n: u64, d: u8) -> Option<Listed>
        ensures { MatchOption result ((12 < d) ⊎ (10 ^ (7 + d) ≤ n)) (λ listed. (listed.n ≡ n)
            × (listed.d ≡ d)) }
    {
        if d <= DECIMALS_LIMIT && n < 10u64.pow(7 + u32::from(d)) {
            Some(Listed { n, d })
        } else {
            None
        }
    }
}
