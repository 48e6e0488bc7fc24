//! The whole numbers of a row.
ghost use Rattle.std.specs.Prelude.{◌≡◌, ◌+◌, ◌*◌, ◌^◌, ◌<◌};
ghost use Rattle.std.specs.Prelude.{min, true, false, length, Some};
ghost use Rattle.std.specs.Prelude.{None, MatchOption, MatchResult, if◌then◌else◌};
ghost use Rattle.scenario.specs.ScenFault.{value_of, is_bucket, is_size, wrong_number, is_in_grid};
ghost use Rattle.scenario.specs.Code.Parsing.{most_told, fields_seen, spelled, spelled_after};
ghost use Rattle.scenario.specs.Code.Parsing.{HasNumbers, are_in_grid, whole_of, after_of};
ghost use Rattle.scenario.specs.Code.Parsing.{is_listed_form, is_listed, listed_value};

use crate::Listed;
use crate::fields::FieldBytes;
use grid::Cell;

/// The numbers of a row, within their limits. A coordinate may still lie past the row's size.
#[derive(Clone, Copy)]
pub(crate) struct Numbers {
    pub(crate) bucket: u32,
    pub(crate) width: u32,
    pub(crate) height: u32,
    pub(crate) start_x: u64,
    pub(crate) start_y: u64,
    pub(crate) goal_x: u64,
    pub(crate) goal_y: u64,
}

impl Numbers {
    /// The numbers that the fields spell, or the first field that spells none within its limits.
    pub(crate) fn from_fields(fields: &FieldBytes<'_>) -> Result<Numbers, u32>
        ensures { MatchResult result (λ n. (wrong_number (fields_seen fields.now) ≡ None)
            × HasNumbers (fields_seen fields.now) n)
            (λ field. wrong_number (fields_seen fields.now) ≡ Some field) }
    {
        let bucket = bucket_of(fields.bucket).ok_or(1u32)?;
        let width = size_of(fields.width).ok_or(3u32)?;
        let height = size_of(fields.height).ok_or(4u32)?;
        let start_x = spelled(fields.start_x).ok_or(5u32)?;
        let start_y = spelled(fields.start_y).ok_or(6u32)?;
        let goal_x = spelled(fields.goal_x).ok_or(7u32)?;
        let goal_y = spelled(fields.goal_y).ok_or(8u32)?;
        Ok(Numbers {
            bucket,
            width,
            height,
            start_x,
            start_y,
            goal_x,
            goal_y,
        })
    }

    /// Whether start and goal lie within the row's own size.
    pub(crate) fn is_in_grid(&self) -> bool
        ensures { result ≡ are_in_grid self.now }
    {
        self.start_x < u64::from(self.width)
            && self.start_y < u64::from(self.height)
            && self.goal_x < u64::from(self.width)
            && self.goal_y < u64::from(self.height)
    }

    pub(crate) fn start(&self) -> Cell
        requires column { self.now.start_x < 2 ^ 16 }
        requires row { self.now.start_y < 2 ^ 16 }
        ensures { result ≡ record { x = self.now.start_x; y = self.now.start_y } }
    {
        Cell {
            x: self.start_x as u16,
            y: self.start_y as u16,
        }
    }

    pub(crate) fn goal(&self) -> Cell
        requires column { self.now.goal_x < 2 ^ 16 }
        requires row { self.now.goal_y < 2 ^ 16 }
        ensures { result ≡ record { x = self.now.goal_x; y = self.now.goal_y } }
    {
        Cell {
            x: self.goal_x as u16,
            y: self.goal_y as u16,
        }
    }
}

fn bucket_of(bytes: &[u8]) -> Option<u32>
    ensures { result ≡ (if is_bucket bytes.now then Some (value_of bytes.now) else None) }
{
    match spelled(bytes) {
        Some(value) if value < 4_294_967_296 => Some(value as u32),
        _ => None,
    }
}

/// A width or a height.
fn size_of(bytes: &[u8]) -> Option<u32>
    ensures { result ≡ (if is_size bytes.now then Some (value_of bytes.now) else None) }
{
    match spelled(bytes) {
        Some(value) if 0 < value && value < 65_536 => Some(value as u32),
        _ => None,
    }
}

/// The value that digits spell, if the bytes are digits alone. A greater one than a `u64` holds is
/// `u64::MAX`.
fn spelled(bytes: &[u8]) -> Option<u64>
    ensures { result ≡ spelled bytes.now }
{
    if bytes.is_empty() {
        return None;
    }
    spelled_after(0, bytes)
}

/// The value of a number with more digits behind it.
pub(crate) fn spelled_after(start: u64, bytes: &[u8]) -> Option<u64>
    ensures { result ≡ spelled_after start bytes.now }
{
    let mut value = start;
    for &b in bytes {
        if !b.is_ascii_digit() {
            return None;
        }
        value = with_digit(value, u64::from(b - b'0'));
    }
    Some(value)
}

/// A number with one more digit. Numbers are short, so the branch is foreseen, and is quicker than
/// to test product and sum.
fn with_digit(value: u64, digit: u64) -> u64
    requires { digit < 10 }
    ensures { result ≡ min (value * 10 + digit) most_told }
{
    if value < u64::MAX / 10 {
        value * 10 + digit
    } else {
        value.saturating_mul(10).saturating_add(digit)
    }
}

/// The listed length that a field spells, if it spells one.
pub(crate) fn listed_of(bytes: &[u8]) -> Option<Listed>
    ensures { MatchOption result (is_listed bytes.now ≡ false)
        (λ l. (is_listed bytes.now ≡ true) × (l.n ≡ listed_value bytes.now)
        × (l.d ≡ length (after_of bytes.now))) }
{
    let (whole, after) = around_point(bytes);
    if !is_listed_form(bytes, whole, after) {
        return None;
    }
    let value = spelled_after(spelled_after(0, whole)?, after)?;
    Some(Listed {
        n: value,
        d: after.len() as u8,
    })
}

/// The bytes before the first point, and those behind it.
fn around_point(bytes: &[u8]) -> (&[u8], &[u8])
    ensures whole { result.0.now ≡ whole_of bytes.now }
    ensures after { result.1.now ≡ after_of bytes.now }
{
    for (i, &b) in bytes.iter().enumerate() {
        if b == b'.' {
            return (&bytes[..i], &bytes[i + 1..]);
        }
    }
    (bytes, &[])
}

/// One to seven bytes before the point, and one to twelve behind it, or no point.
fn is_listed_form(bytes: &[u8], whole: &[u8], after: &[u8]) -> bool
    requires whole { whole.now ≡ whole_of bytes.now }
    requires after { after.now ≡ after_of bytes.now }
    ensures { result ≡ is_listed_form bytes.now }
{
    0 < whole.len()
        && whole.len() < 8
        && after.len() < 13
        && (0 < after.len() || whole.len() == bytes.len())
}
