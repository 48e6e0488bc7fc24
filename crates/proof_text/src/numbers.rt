//! The numbers behind a node's word.
ghost use Rattle.std.specs.Prelude.{◌≡◌, ℕ, ◌≤◌, ◌<◌, ◌==◌, ◌⊎◌};
ghost use Rattle.std.specs.Prelude.{◌∷◌, ◌++◌, [], List, length, MatchOption};
ghost use Rattle.std.specs.List.{AllByRecursion, slice_split};
ghost use Rattle.text_io.specs.Numerals.{IsNumeral};
ghost use Rattle.text_io.specs.Text.{space};
ghost use Rattle.plan_text.specs.PlanTextFault.{IsCoordinate};

use crate::form::MOST_NUMBERS;
use memchr::memchr;
use text_io::saturated_numeral;

/// So many parts of a line, none of them empty, and the numbers that they are.
#[derive(Clone, Copy)]
pub(crate) struct Numbers {
    pub(crate) values: [u16; MOST_NUMBERS],
    pub(crate) count: usize,
    /// Whether each part is a number, of those that may be one; else the values say nothing.
    pub(crate) are_numbers: bool,
    ghost few: { count ≤ 7 },
}

impl Numbers {
    ghost use Rattle.proof_text.specs.Code.NodeParts.{AreRead};

    /// Those between the spaces, if they are few enough and none is empty.
    pub(crate) fn from_bytes(bytes: &[u8]) -> Option<Numbers>
        ensures { MatchOption result
            (AllByRecursion (λ part. 0 < length part) (slice_split (λ b. b == space) bytes.now)
            → length (slice_split (λ b. b == space) bytes.now) ≤ 7 → ⊥)
            (λ numbers. AreRead numbers (slice_split (λ b. b == space) bytes.now)) }
    {
        let mut numbers = Numbers {
            values: [0; MOST_NUMBERS],
            count: 0,
            are_numbers: true,
        };
        let mut rest = bytes;
        'parts: loop {
            let (part, behind) = first_part(rest);
            if part.is_empty() || numbers.count == MOST_NUMBERS {
                return None;
            }
            numbers.add(part);
            match behind {
                Some(more) => rest = more,
                None => return Some(numbers),
            }
        }
    }

    /// Adds a part.
    fn add(&mut self, part: &[u8])
        requires some { 0 < length part.now }
        requires room { self.old.count < 7 }
        ensures { (parts : List (List ℕ)) → AreRead self.old parts
            → AreRead self.new (parts ++ part.now ∷ []) }
    {
        let place = self.count;
        self.count += 1;
        match coordinate(part) {
            Some(value) => self.values[place] = value,
            None => self.are_numbers = false,
        }
    }
}

/// What stands before the first space, and what stands behind it, if there is one.
pub(crate) fn first_part(bytes: &[u8]) -> (&[u8], Option<&[u8]>)
    ensures { MatchOption result.1 (slice_split (λ b. b == space) bytes.now ≡ result.0.now ∷ [])
        (λ rest. slice_split (λ b. b == space) bytes.now ≡ result.0.now ∷ slice_split
        (λ b. b == space) rest.now) }
{
    match memchr(b' ', bytes) {
        Some(place) => (&bytes[..place], Some(&bytes[place + 1..])),
        None => (bytes, None),
    }
}

/// A number that a node may have.
fn coordinate(digits: &[u8]) -> Option<u16>
    ensures { MatchOption result (IsCoordinate digits.now → ⊥) (λ n. IsNumeral n digits.now
        × (n < 65536)) }
{
    match saturated_numeral(digits) {
        Some(value) if value <= 65_535 => Some(value as u16),
        _ => None,
    }
}
