//! The numbers of cells as they are written: each with a space before it.
ghost use Rattle.std.specs.Prelude.{◌≡◌, ◌≤◌, ◌+◌, ◌++◌, length, take, IfOk};
ghost use Rattle.plan_commands.specs.Code.Numerals.{AreNumerals, spaced};

use itoa::Buffer;
use std::alloc::{AllocError, Global};
use std::marker::Model;

/// The numbers below this are kept as numerals: they are those of the cells of most maps.
const KEPT: u16 = 4096;

/// A numeral is written into so many bytes.
pub(crate) const MOST_BYTES: usize = 7;

/// A number with a space before it: the first bytes, so many. All bytes are copied at once, which
/// takes no call.
#[derive(Drop)]
pub(crate) struct Numeral {
    bytes: [u8; MOST_BYTES],
    len: u8,
}

impl Model for Numeral {
    ghost use Rattle.std.specs.Prelude.{List, ℕ, ◌≤◌, take};

    ghost Value = { List ℕ };

    ghost view = { λ n. take n.len n.bytes };

    ghost invariant = { λ n. n.len ≤ 6 };
}

impl Numeral {
    /// The numeral of a number.
    fn of(number: u16) -> Numeral
        ensures { result ≡ spaced number }
    {
        let mut buffer = Buffer::new();
        let digits = buffer.format(number).as_bytes();
        let mut bytes = [b' '; MOST_BYTES];
        bytes[1..1 + digits.len()].copy_from_slice(digits);
        Numeral {
            bytes,
            len: 1 + digits.len() as u8,
        }
    }

    /// Writes the numeral from a place on, and answers where it ends. What stands behind that is
    /// overwritten too.
    pub(crate) fn write(&self, at: usize, bytes: &mut [u8]) -> usize
        requires { at + 7 ≤ length bytes.old }
        ensures count { length bytes.new ≡ length bytes.old }
        ensures text { take result bytes.new ≡ take at bytes.old ++ self.now }
        ensures end { result ≤ at + 7 }
    {
        bytes[at..at + MOST_BYTES].copy_from_slice(&self.bytes);
        at + usize::from(self.len)
    }
}

/// The numerals of the first numbers.
pub(crate) fn numerals(alloc: Global) -> Result<Vec<Numeral>, AllocError>
    ensures { IfOk result (λ numerals. AreNumerals numerals.items) }
{
    let mut numerals = Vec::with_capacity(alloc, usize::from(KEPT))?;
    for number in 0..KEPT {
        numerals.push(Numeral::of(number))?;
    }
    Ok(numerals)
}
