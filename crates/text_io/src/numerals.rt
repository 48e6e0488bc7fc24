//! Numbers as they are written, in digits without a leading zero.
ghost use Rattle.std.specs.Prelude.{◌≡◌, ◌-◌, ◌^◌, ◌<◌, ◌≤◌, ◌⊎◌, length};
ghost use Rattle.std.specs.Prelude.{min, take, true, false, IfSome, MatchOption};
ghost use Rattle.std.specs.List.{list_all};
ghost use Rattle.std.specs.Char.{is_ascii_digit};
ghost use Rattle.text_io.specs.Numerals.{has_leading_zero, is_numeral, numeral_value};
ghost use Rattle.text_io.specs.Numerals.{numeral_below, BeginsWithNumber};

/// No sum overflows with so many digits.
const MOST_DIGITS: usize = 19;

/// The number that digits without a leading zero spell, if it is below 2^32.
pub fn small_numeral(bytes: &[u8]) -> Option<u32>
    ensures { result ≡ numeral_below (2 ^ 32) bytes.now }
{
    match numeral(bytes) {
        Some(value) if value <= 4_294_967_295 => Some(value as u32),
        _ => None,
    }
}

/// The number that digits without a leading zero spell, if a `u64` holds it.
#[inline]
pub fn numeral(bytes: &[u8]) -> Option<u64>
    ensures { result ≡ numeral_below (2 ^ 64) bytes.now }
{
    if bytes.is_empty() || has_leading_zero(bytes) {
        return None;
    }
    spelled(bytes)
}

/// The same, but a greater one than a `u64` holds is `u64::MAX`.
pub fn saturated_numeral(bytes: &[u8]) -> Option<u64>
    ensures { MatchOption result (is_numeral bytes.now ≡ false) (λ n. (is_numeral bytes.now ≡ true)
        × (n ≡ min (numeral_value bytes.now) (2 ^ 64 - 1))) }
{
    match numeral(bytes) {
        Some(value) => Some(value),
        None if is_numeral(bytes) => Some(u64::MAX),
        None => None,
    }
}

fn is_numeral(bytes: &[u8]) -> bool
    ensures { result ≡ is_numeral bytes.now }
{
    !bytes.is_empty() && are_digits(bytes) && !has_leading_zero(bytes)
}

fn are_digits(bytes: &[u8]) -> bool
    ensures { result ≡ list_all is_ascii_digit bytes.now }
{
    bytes.iter().all(|b| b.is_ascii_digit())
}

/// The number that stands before a byte, if it is below 2^32, and what stands behind that byte.
/// `None` says nothing of the bytes.
#[inline(always)]
pub fn small_number_before(ending: u8, bytes: &[u8]) -> Option<(u32, &[u8])>
    ensures { IfSome result
        (λ found. BeginsWithNumber (2 ^ 32) found.0 ending bytes.now found.1.now) }
{
    let (value, rest) = number_before(ending, bytes)?;
    if value <= 4_294_967_295 {
        Some((value as u32, rest))
    } else {
        None
    }
}

/// The number that stands before a byte, and what stands behind that byte. `None` says nothing of
/// the bytes: the number may only be long.
#[inline(always)]
pub fn number_before(ending: u8, bytes: &[u8]) -> Option<(u64, &[u8])>
    ensures { IfSome result
        (λ found. BeginsWithNumber (2 ^ 64) found.0 ending bytes.now found.1.now) }
{
    let (value, count) = leading_digits(bytes);
    let digits = &bytes[..count];
    if digits.is_empty() || has_leading_zero(digits) {
        return None;
    }
    if count < bytes.len() && bytes[count] == ending {
        Some((value, &bytes[count + 1..]))
    } else {
        None
    }
}

/// The number that the digits at the front spell, and how many they are, of so many at the most
/// that no sum overflows.
#[inline(always)]
fn leading_digits(bytes: &[u8]) -> (u64, usize)
    ensures within { result.1 ≤ length bytes.now }
    ensures digits { list_all is_ascii_digit (take result.1 bytes.now) ≡ true }
    ensures value { result.0 ≡ numeral_value (take result.1 bytes.now) }
{
    let most = bytes.len().min(MOST_DIGITS);
    let mut value = 0u64;
    for count in 0..most {
        let b = bytes[count];
        if !b.is_ascii_digit() {
            return (value, count);
        }
        value = value * 10 + u64::from(b - b'0');
    }
    (value, most)
}

/// The number that the bytes spell, if each is a digit and a `u64` holds it.
fn spelled(bytes: &[u8]) -> Option<u64>
    ensures { MatchOption result ((list_all is_ascii_digit bytes.now ≡ false)
        ⊎ (2 ^ 64 ≤ numeral_value bytes.now))
        (λ n. (list_all is_ascii_digit bytes.now ≡ true) × (n ≡ numeral_value bytes.now)) }
{
    let mut value = 0u64;
    for &b in bytes {
        if !b.is_ascii_digit() {
            return None;
        }
        value = value.checked_mul(10)?.checked_add(u64::from(b - b'0'))?;
    }
    Some(value)
}

fn has_leading_zero(bytes: &[u8]) -> bool
    ensures { result ≡ has_leading_zero bytes.now }
{
    bytes.len() > 1 && bytes[0] == b'0'
}
