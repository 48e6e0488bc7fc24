//! The digits of numbers, written where they are to stand. A function says where they end, so that
//! nothing is kept in memory meanwhile.
ghost use Rattle.std.specs.Prelude.{◌≡◌, ◌+◌, ◌/◌, ◌%◌, ◌<◌, ◌≤◌};
ghost use Rattle.std.specs.Prelude.{[], ◌∷◌, ◌++◌, decimal, length, take};

use itoa::write_digits;

/// The two digits of each number below 100, one behind the other.
static PAIRS: [u8; 200] =
    *b"00010203040506070809101112131415161718192021222324252627282930313233343536373839404142434445464748495051525354555657585960616263646566676869707172737475767778798081828384858687888990919293949596979899";

/// Writes a number, of which most are written at once, without counting their digits.
#[inline(always)]
pub(crate) fn write_number(bytes: &mut [u8], at: usize, number: u64) -> usize
    requires { at + 20 ≤ length bytes.old }
    ensures within { result ≤ at + 20 }
    ensures written { take result bytes.new ≡ take at bytes.old ++ decimal number }
{
    if number < 10_000 {
        write_few(bytes, at, number)
    } else if number < 100_000_000 {
        let front = write_few(bytes, at, number / 10_000);
        let pair = write_pair(bytes, front, number % 10_000 / 100);
        write_pair(bytes, pair, number % 10_000 % 100)
    } else {
        write_long(bytes, at, number)
    }
}

/// Any number.
#[cold]
fn write_long(bytes: &mut [u8], at: usize, number: u64) -> usize
    requires { at + 20 ≤ length bytes.old }
    ensures within { result ≤ at + 20 }
    ensures written { take result bytes.new ≡ take at bytes.old ++ decimal number }
{
    let count = count_of_digits(number);
    let end = at + count;
    write_digits(number, &mut bytes[at..end], count);
    end
}

/// A number of at most four digits.
#[inline(always)]
fn write_few(bytes: &mut [u8], at: usize, number: u64) -> usize
    requires room { at + 4 ≤ length bytes.old }
    requires few { number < 10000 }
    ensures within { result ≤ at + 4 }
    ensures written { take result bytes.new ≡ take at bytes.old ++ decimal number }
{
    if number < 100 {
        write_short(bytes, at, number)
    } else {
        let front = write_short(bytes, at, number / 100);
        write_pair(bytes, front, number % 100)
    }
}

/// A number of at most two digits.
#[inline(always)]
fn write_short(bytes: &mut [u8], at: usize, number: u64) -> usize
    requires room { at + 2 ≤ length bytes.old }
    requires short { number < 100 }
    ensures within { result ≤ at + 2 }
    ensures written { take result bytes.new ≡ take at bytes.old ++ decimal number }
{
    if number < 10 {
        write_digit(bytes, at, number)
    } else {
        write_pair(bytes, at, number)
    }
}

/// Two digits.
#[inline(always)]
fn write_pair(bytes: &mut [u8], at: usize, number: u64) -> usize
    requires room { at + 2 ≤ length bytes.old }
    requires pair { number < 100 }
    ensures end { result ≡ at + 2 }
    ensures written { take result bytes.new ≡ take at bytes.old
        ++ (48 + number / 10) ∷ (48 + number % 10) ∷ [] }
{
    let from = number as usize * 2;
    let (tens, ones) = (PAIRS[from], PAIRS[from + 1]);
    let next = write_byte(bytes, at, tens);
    write_byte(bytes, next, ones)
}

#[inline(always)]
fn write_digit(bytes: &mut [u8], at: usize, digit: u64) -> usize
    requires room { at < length bytes.old }
    requires digit { digit < 10 }
    ensures end { result ≡ at + 1 }
    ensures written { take result bytes.new ≡ take at bytes.old ++ (48 + digit) ∷ [] }
{
    write_byte(bytes, at, b'0' + digit as u8)
}

#[inline(always)]
fn write_byte(bytes: &mut [u8], at: usize, byte: u8) -> usize
    requires { at < length bytes.old }
    ensures end { result ≡ at + 1 }
    ensures written { take result bytes.new ≡ take at bytes.old ++ byte ∷ [] }
{
    bytes[at] = byte;
    at + 1
}

/// With how many digits a number is written.
fn count_of_digits(number: u64) -> usize
    ensures { result ≡ length (decimal number) }
{
    let mut count = 0;
    let mut left = number;
    while left >= 10_000 {
        left /= 10_000;
        count += 4;
    }
    count + count_of_few(left)
}

/// The same of a number of at most four digits.
fn count_of_few(number: u64) -> usize
    requires { number < 10000 }
    ensures { result ≡ length (decimal number) }
{
    if number < 10 {
        1
    } else if number < 100 {
        2
    } else if number < 1000 {
        3
    } else {
        4
    }
}
