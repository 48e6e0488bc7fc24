//! Lengths of a search as single whole numbers.
ghost use Rattle.std.specs.Prelude.{◌≡◌, ◌+◌, ◌*◌, ◌^◌, ◌<◌, ◌≤◌, ◌⊎◌, MatchOption};
ghost use Rattle.walks.specs.Code.KeyParts.{IsKey, number_of_entry};
ghost use Rattle.walks.specs.Code.KeyParts.{number_within, length_of_number};

use scenario::Length;

/// The number of a straight step. `DIAGONAL / STRAIGHT` is so near to the root of two that the
/// numbers of lengths compare as the lengths do.
pub const STRAIGHT: u64 = 6_625_109;

/// The number of a diagonal step.
pub const DIAGONAL: u64 = 9_369_319;

/// Times `DIAGONAL` this is 1 above a multiple of `STRAIGHT`, so it reads the diagonal steps back
/// from a key.
const DIAGONAL_INVERSE: u64 = 3_880_899;

/// The number of the cells that no step may enter. That of the start is one straight step, so that
/// no length has this one.
const CLOSED: u64 = 0;

/// The number of no length, far above those of all lengths.
pub(crate) const NO_LENGTH: u64 = 1 << 62;

/// No shortest walk on a map has a number as great: for each diagonal step it leaves out two cells
/// of its own.
pub(crate) const MOST_STEPPED: u64 = 4_194_304 * STRAIGHT;

/// A length as one whole number, in the exact order of lengths; or that there is none: a cell is
/// closed, or no walk has reached it.
#[derive(Clone, Copy, Debug)]
pub(crate) struct Key {
    value: u64,
    ghost limit: { value ≤ 2 ^ 62 },
    ghost of_length: { 0 < value → value < 2 ^ 62 → IsKey value },
}

/// The keys of one straight and of one diagonal step more than another.
#[derive(Clone, Copy)]
pub(crate) struct Steps {
    pub(crate) straight: Key,
    pub(crate) diagonal: Key,
}

impl Key {
    /// No step may enter the cell.
    pub(crate) fn closed() -> Key {
        Key { value: CLOSED }
    }

    /// No walk has reached the cell yet.
    pub(crate) fn unreached() -> Key {
        Key { value: NO_LENGTH }
    }

    /// The length of no step.
    pub(crate) fn start() -> Key {
        Key { value: STRAIGHT }
    }

    /// The key of a length, or that no walk has reached the cell.
    pub(crate) fn of(entry: Option<Length>) -> Key
        ensures { result.value ≡ number_of_entry entry }
    {
        Key {
            value: number_of(entry),
        }
    }

    /// The length, if there is one.
    pub(crate) fn length(self) -> Option<Length>
        ensures { result ≡ length_of_number self.value }
    {
        match self.number() {
            Some(number) => length_of(number),
            None => None,
        }
    }

    /// Whether no step may enter the cell.
    #[inline(always)]
    pub(crate) fn is_closed(self) -> bool {
        self.value == CLOSED
    }

    #[inline(always)]
    pub(crate) fn is_unreached(self) -> bool {
        self.value == NO_LENGTH
    }

    #[inline(always)]
    pub(crate) fn is_less(self, other: Key) -> bool {
        self.value < other.value
    }

    /// Whether the key is at least a number.
    #[inline(always)]
    pub(crate) fn is_from(self, number: u64) -> bool {
        self.value >= number
    }

    #[inline(always)]
    pub(crate) fn is_same(self, other: Key) -> bool {
        self.value == other.value
    }

    /// The number with a distance added.
    #[inline(always)]
    pub(crate) fn number_after(self, distance: u64) -> u64
        requires { distance < 2 ^ 42 }
        ensures { result < 2 ^ 63 }
    {
        self.value + distance
    }

    /// Whether a diagonal step past the cell may be best: it isn't closed, and a straight step on
    /// from it is longer.
    #[inline(always)]
    pub(crate) fn is_passed(self, diagonal: Key) -> bool {
        self.value + STRAIGHT > diagonal.value
    }

    /// The number of the length, if it is less than another.
    #[inline(always)]
    pub(crate) fn number_within(self, beyond: u64) -> u64
        ensures { result ≡ number_within beyond self.value }
    {
        if self.value != CLOSED && self.value < beyond {
            self.value
        } else {
            beyond
        }
    }

    /// The number, if it is that of a length.
    #[inline(always)]
    pub(crate) fn number(self) -> Option<u64>
        ensures { MatchOption result ((self.value ≡ 0) ⊎ (self.value ≡ 2 ^ 62))
            (λ n. (n ≡ self.value) × (0 < n) × (n < 2 ^ 62) × IsKey n) }
    {
        if self.value == CLOSED || self.value == NO_LENGTH {
            None
        } else {
            Some(self.value)
        }
    }

    /// The keys of one step more, if a walk may have reached the cell.
    #[inline(always)]
    pub(crate) fn steps(self) -> Option<Steps> {
        if self.value == CLOSED || self.value >= MOST_STEPPED {
            return None;
        }
        let straight = Key {
            value: self.value + STRAIGHT,
        };
        let diagonal = Key {
            value: self.value + DIAGONAL,
        };
        Some(Steps { straight, diagonal })
    }

    /// Whether the other key is that of one step more, of this number.
    pub(crate) fn is_step_before(self, step: u64, other: Key) -> bool {
        self.value != CLOSED && self.value.checked_add(step) == Some(other.value)
    }
}

/// An entry of a table as a number. Those of lengths are ordered as the lengths are.
pub(crate) fn number_of(entry: Option<Length>) -> u64
    ensures { result ≡ number_of_entry entry }
{
    match entry {
        Some(length) => {
            (u64::from(length.straight) + 1) * STRAIGHT + u64::from(length.diagonal) * DIAGONAL
        }
        None => NO_LENGTH,
    }
}

/// The length of a number.
pub(crate) fn length_of(number: u64) -> Option<Length>
    requires some { 0 < number }
    requires limit { number < 2 ^ 62 }
    requires of_length { IsKey number }
    ensures { result ≡ length_of_number number }
{
    let diagonal = number % STRAIGHT * DIAGONAL_INVERSE % STRAIGHT;
    let straight = (number - diagonal * DIAGONAL) / STRAIGHT - 1;
    Length::new(straight as u32, diagonal as u32)
}
