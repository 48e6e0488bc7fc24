//! The fields of a line as most rows have them: short numbers, each with a tab behind it. They are
//! cut and spelled in one pass.
ghost use Rattle.std.specs.Prelude.{◌≡◌, ◌∷◌, ◌<◌, ◌↔◌, IsTrue, None, IfSome};
ghost use Rattle.text_io.specs.Text.{tab};
ghost use Rattle.scenario.specs.Fields.{fields_between, fields_in_content};
ghost use Rattle.scenario.specs.ScenFault.{all_fields, wrong_number};
ghost use Rattle.scenario.specs.Code.Parsing.{fields_seen, HasNumbers, IsShortNumber};

use crate::fields::{FieldBytes, first_field};
use crate::numbers::Numbers;

/// A number with one more digit is short up to here.
const SHORT: u32 = 100_000_000;

/// The digits before a tab, the number that they spell, and what stands behind the tab.
#[derive(Clone, Copy)]
pub(crate) struct ShortNumber<'a> {
    digits: &'a [u8],
    value: u32,
    rest: &'a [u8],
}

/// The nine fields of a line's content, and the numbers that they spell, if each number is short
/// and has a tab behind it, and they are within their limits. A coordinate may still lie past the
/// row's size. Where there are none, the line may be right all the same.
pub(crate) fn usual_fields(content: &[u8]) -> Option<(FieldBytes<'_>, Numbers)>
    ensures { IfSome result (λ p. (fields_in_content content.now ≡ all_fields (fields_seen p.0))
        × (wrong_number (fields_seen p.0) ≡ None) × HasNumbers (fields_seen p.0) p.1) }
{
    let bucket = short_number(content)?;
    let (name, rest) = first_field(bucket.rest, b'\t')?;
    let width = short_number(behind_tab(rest)?)?;
    let height = short_number(width.rest)?;
    let start_x = short_number(height.rest)?;
    let start_y = short_number(start_x.rest)?;
    let goal_x = short_number(start_y.rest)?;
    let goal_y = short_number(goal_x.rest)?;
    let (listed, rest) = first_field(goal_y.rest, b'\t')?;
    if !rest.is_empty() || !is_size(width.value) || !is_size(height.value) {
        return None;
    }
    let fields = FieldBytes {
        bucket: bucket.digits,
        name,
        width: width.digits,
        height: height.digits,
        start_x: start_x.digits,
        start_y: start_y.digits,
        goal_x: goal_x.digits,
        goal_y: goal_y.digits,
        listed,
    };
    let numbers = Numbers {
        bucket: bucket.value,
        width: width.value,
        height: height.value,
        start_x: u64::from(start_x.value),
        start_y: u64::from(start_y.value),
        goal_x: u64::from(goal_x.value),
        goal_y: u64::from(goal_y.value),
    };
    Some((fields, numbers))
}

fn is_size(value: u32) -> bool
    ensures { IsTrue result ↔ ((0 < value) × (value < 65536)) }
{
    0 < value && value < 65_536
}

/// What stands behind a tab, if the bytes begin with one.
fn behind_tab(bytes: &[u8]) -> Option<&[u8]>
    ensures { IfSome result (λ rest. bytes.now ≡ tab ∷ rest.now) }
{
    match bytes {
        [first, rest @ ..] if *first == b'\t' => Some(rest),
        _ => None,
    }
}

/// The short number at the front of the bytes, if there is one with a tab behind it.
#[inline(always)]
fn short_number(bytes: &[u8]) -> Option<ShortNumber<'_>>
    ensures { IfSome result (λ n. IsShortNumber bytes.now n.digits.now n.value n.rest.now) }
{
    let mut value = 0u32;
    for (i, &b) in bytes.iter().enumerate() {
        if b == b'\t' {
            if i == 0 {
                return None;
            }
            return Some(ShortNumber {
                digits: &bytes[..i],
                value,
                rest: &bytes[i + 1..],
            });
        }
        if !b.is_ascii_digit() || value >= SHORT {
            return None;
        }
        value = value * 10 + u32::from(b - b'0');
    }
    None
}
