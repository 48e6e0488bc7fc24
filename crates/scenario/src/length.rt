//! Lengths of walks: so many straight steps and so many diagonal ones.
ghost use Rattle.std.specs.Prelude.{◌≡◌, ◌<◌, ◌≤◌, ◌⊎◌, ◌↔◌, MatchOption, Some, refl};
ghost use Rattle.std.specs.Cmp.{partial_order_from_agreeing_total};
ghost use Rattle.scenario.specs.Length.{IsLess};
ghost use Rattle.scenario.specs.Code.Comparison.{parts_cmp};
ghost use Rattle.scenario.specs.Code.ComparisonLaws.{parts_cmp-ties, parts_cmp-total};

use crate::order::is_at_most;
use std::cmp::Ordering;

const PART_LIMIT: u32 = 4_194_304;

/// `straight + diagonal * √2`, with parts of at most 4,194,304.
#[derive(Clone, Copy, Debug, PartialEq, Eq, Hash)]
pub struct Length {
    pub straight: u32,
    pub diagonal: u32,
    ghost straight_limit: { straight ≤ 4194304 },
    ghost diagonal_limit: { diagonal ≤ 4194304 },
}

impl Length {
    /// `None` where a part is too large.
    pub fn new(straight: u32, diagonal: u32) -> Option<Length>
        ensures { MatchOption result ((4194304 < straight) ⊎ (4194304 < diagonal))
            (λ length. (length.straight ≡ straight) × (length.diagonal ≡ diagonal)) }
    {
        if straight <= PART_LIMIT && diagonal <= PART_LIMIT {
            Some(Length { straight, diagonal })
        } else {
            None
        }
    }
}

impl Ord for Length {
    ghost cmp = { λ x y. parts_cmp x.straight x.diagonal y.straight y.diagonal };

    ghost total = { parts_cmp-total (λ x. x.straight) (λ x. x.diagonal) };

    ghost matches_partial_cmp = { λ x y. refl };

    ghost matches_eq = { λ x y. parts_cmp-ties x.straight x.diagonal y.straight y.diagonal };

    /// Compares `straight + diagonal * √2` as real numbers.
    fn cmp(&self, other: &Length) -> Ordering
        ensures value { result ≡ parts_cmp self.now.straight self.now.diagonal other.now.straight
            other.now.diagonal }
        ensures less { (result ≡ Ordering.Less)
            ↔ IsLess self.now.straight self.now.diagonal other.now.straight other.now.diagonal }
        ensures equal { (result ≡ Ordering.Equal)
            ↔ ((self.now.straight ≡ other.now.straight)
            × (self.now.diagonal ≡ other.now.diagonal)) }
        ensures greater { (result ≡ Ordering.Greater)
            ↔ IsLess other.now.straight other.now.diagonal self.now.straight self.now.diagonal }
    {
        if self == other {
            Ordering::Equal
        } else if is_at_most(
            self.straight.into(),
            self.diagonal.into(),
            other.straight.into(),
            other.diagonal.into(),
        ) {
            Ordering::Less
        } else {
            Ordering::Greater
        }
    }
}

impl PartialOrd for Length {
    ghost partial_cmp = { λ x y. Some (parts_cmp x.straight x.diagonal y.straight y.diagonal) };

    ghost laws = { partial_order_from_agreeing_total
        (λ x y. parts_cmp x.straight x.diagonal y.straight y.diagonal)
        (parts_cmp-total (λ x. x.straight) (λ x. x.diagonal)) (λ x y. refl)
        (λ x y. parts_cmp-ties x.straight x.diagonal y.straight y.diagonal) };

    fn partial_cmp(&self, other: &Length) -> Option<Ordering> {
        Some(self.cmp(other))
    }
}
