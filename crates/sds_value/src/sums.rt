// Numbers from their decimal digits, and decimal digits of numbers.
ghost use Rattle.std.specs.Prelude.{◌≡◌, ◌+◌, ◌-◌, ◌*◌, ◌^◌, ◌<◌, ◌≤◌, ◌++◌, true, IsTrue, IfOk, length};
ghost use Rattle.std.specs.Option.{SomeIff};
ghost use Rattle.std.specs.List.{list_all};
ghost use Rattle.std.specs.Char.{is_ascii_digit};
ghost use Rattle.sds_value.specs.Digits.{digits_value, is_digit_text, without_sign, has_minus, signed, is_in_range, padded, filled};

use sds_base::NoMemory;
use std::alloc::Global;

/// Whether it is one decimal digit or more.
pub(crate) fn is_digits(bytes: &[u8]) -> bool
    ensures { result ≡ is_digit_text bytes.now }
{
    !bytes.is_empty() && all_digits(bytes)
}

fn all_digits(bytes: &[u8]) -> bool
    ensures { result ≡ list_all is_ascii_digit bytes.now }
{
    bytes.iter().all(|byte| byte.is_ascii_digit())
}

/// What stands behind one `+` or `-` in front.
pub(crate) fn behind_sign(bytes: &[u8]) -> &[u8]
    ensures { result.now ≡ without_sign bytes.now }
{
    match bytes {
        [b'+' | b'-', digits @ ..] => digits,
        digits => digits,
    }
}

/// Whether the first byte is `-`.
pub(crate) fn begins_with_minus(bytes: &[u8]) -> bool
    ensures { result ≡ has_minus bytes.now }
{
    match bytes {
        [first, ..] => *first == b'-',
        [] => false,
    }
}

/// The number with this digit behind its own, and none where that is 2^64 or more.
fn add_digit(number: u64, digit: u8) -> Option<u64>
    ensures { SomeIff result (number * 10 + (digit - 48) < 2 ^ 64) (number * 10 + (digit - 48)) }
{
    number
        .checked_mul(10)?
        .checked_add(digit.saturating_sub(b'0') as u64)
}

/// The number with these digits behind its own, and none where that is 2^64 or more.
pub(crate) fn add_digits(number: u64, digits: &[u8]) -> Option<u64>
    ensures { SomeIff result (number * 10 ^ length digits.now + digits_value digits.now < 2 ^ 64) (number * 10 ^ length digits.now + digits_value digits.now) }
{
    let mut sum = number;
    for digit in digits {
        let Some(next) = add_digit(sum, *digit) else {
            return None;
        };
        sum = next;
    }
    Some(sum)
}

/// The number that at most 9 digits write.
pub(crate) fn sum_digits(digits: &[u8]) -> u64
    requires few { length digits.now ≤ 9 }
    requires digits { list_all is_ascii_digit digits.now ≡ true }
    ensures value { result ≡ digits_value digits.now }
    ensures bound { result < 10 ^ length digits.now }
{
    add_digits(0, digits).unwrap()
}

/// The number with so many zeros behind its own digits, and none where that is 2^64 or more.
fn add_zeros(number: u64, count: usize) -> Option<u64>
    ensures { SomeIff result (number * 10 ^ count < 2 ^ 64) (number * 10 ^ count) }
{
    let mut sum = number;
    for _ in 0..count {
        let Some(next) = sum.checked_mul(10) else {
            return None;
        };
        sum = next;
    }
    Some(sum)
}

/// The number with the first so many digits of a fraction behind its own, zeros standing in for those that the
/// fraction lacks, and none where that is 2^64 or more.
pub(crate) fn add_fraction(number: u64, fraction: &[u8], count: usize) -> Option<u64>
    ensures { SomeIff result (number * 10 ^ count + digits_value (filled count fraction.now) < 2 ^ 64) (number * 10 ^ count + digits_value (filled count fraction.now)) }
{
    if count <= fraction.len() {
        return add_digits(number, &fraction[..count]);
    }
    let Some(sum) = add_digits(number, fraction) else {
        return None;
    };
    add_zeros(sum, count - fraction.len())
}

/// The number of this size with its sign, and none where it lies outside the range of 64 bits.
pub(crate) fn with_sign(minus: bool, size: u64) -> Option<i64>
    ensures { SomeIff result (IsTrue (is_in_range (signed minus size))) (signed minus size) }
{
    if !minus {
        return i64::try_from(size).ok();
    }
    if size == 1 << 63 {
        return Some(i64::MIN);
    }
    Some(-i64::try_from(size).ok()?)
}

/// The digits of a number, with zeros in front up to so many digits.
pub(crate) fn pad(alloc: Global, number: u64, width: usize) -> Result<Vec<u8>, NoMemory>
    ensures { IfOk result (λ text. text.items ≡ padded width number) }
{
    let digits = number.to_string(alloc)?;
    let mut text = Vec::new(alloc);
    text.resize(width.saturating_sub(digits.len()), b'0')?;
    text.extend_from_slice(digits.as_bytes())?;
    Ok(text)
}
