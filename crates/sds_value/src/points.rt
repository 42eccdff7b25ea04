// The texts of numbers with a fixed number of digits behind the point.
ghost use Rattle.std.specs.Prelude.{◌≡◌, ◌==◌, ◌<◌, ◌^◌, ◌++◌, IfOk, OnOk, MatchOption, length, drop, true, false};
ghost use Rattle.std.specs.Option.{SomeIff};
ghost use Rattle.std.specs.List.{list_all, position};
ghost use Rattle.std.specs.Str.{chars};
ghost use Rattle.sds_value.specs.Digits.{digits_value, filled};
ghost use Rattle.sds_value.specs.Decimals.{is_point, whole_part, fraction_part, is_fraction, is_decimal_text, with_point, decimal_text};
ghost use Rattle.sds_value.specs.Values.{decimal_of};

use crate::sums::{
    add_digits, add_fraction, begins_with_minus, behind_sign, is_digits, pad, with_sign,
};
use crate::{Value, ValueRefusal};
use sds_base::NoMemory;
use std::alloc::Global;

/// The number that a text reads as under DECIMAL of this scale.
pub(crate) fn read_decimal(text: &str, scale: u8) -> Result<Value, ValueRefusal>
    ensures { result ≡ decimal_of scale (chars text.now) }
{
    read_units(text.as_bytes(), scale)
}

fn read_units(bytes: &[u8], scale: u8) -> Result<Value, ValueRefusal>
    ensures { result ≡ decimal_of scale bytes.now }
{
    let Some((whole, fraction)) = parts(bytes, scale) else {
        return Err(ValueRefusal::BadText);
    };
    let Some(size) = count_units(whole, fraction, scale) else {
        return Err(ValueRefusal::OutOfRange);
    };
    match with_sign(begins_with_minus(bytes), size) {
        Some(units) => Ok(Value::Decimal(units)),
        None => Err(ValueRefusal::OutOfRange),
    }
}

/// The digits before the point and those behind it, and none where the bytes are not of the form.
fn parts(bytes: &[u8], scale: u8) -> Option<(&[u8], &[u8])>
    ensures { MatchOption result (is_decimal_text scale bytes.now ≡ false) (λ parts. (is_decimal_text scale bytes.now ≡ true) × (parts.0.now ≡ whole_part bytes.now) × (parts.1.now ≡ fraction_part bytes.now)) }
{
    let unsigned = behind_sign(bytes);
    let Some(point) = find_point(unsigned) else {
        return if is_digits(unsigned) {
            Some((unsigned, &[]))
        } else {
            None
        };
    };
    let whole = &unsigned[..point];
    let fraction = &unsigned[point + 1..];
    if is_digits(whole) && is_fraction(fraction, scale) {
        Some((whole, fraction))
    } else {
        None
    }
}

/// The place of the first point.
fn find_point(bytes: &[u8]) -> Option<usize>
    ensures { result ≡ position is_point bytes.now }
{
    bytes.iter().position(|byte| *byte == b'.')
}

fn is_fraction(bytes: &[u8], scale: u8) -> bool
    ensures { result ≡ is_fraction scale bytes.now }
{
    is_digits(bytes) && (bytes.len() <= scale as usize || all_zeros(&bytes[scale as usize..]))
}

fn all_zeros(bytes: &[u8]) -> bool
    ensures { result ≡ list_all (λ c. c == 48) bytes.now }
{
    bytes.iter().all(|byte| *byte == b'0')
}

/// The number of units of the scale's last digit, and none where it is 2^64 or more.
fn count_units(whole: &[u8], fraction: &[u8], scale: u8) -> Option<u64>
    ensures { SomeIff result (digits_value (whole.now ++ filled scale fraction.now) < 2 ^ 64) (digits_value (whole.now ++ filled scale fraction.now)) }
{
    let Some(sum) = add_digits(0, whole) else {
        return None;
    };
    add_fraction(sum, fraction, scale as usize)
}

/// The printed text of a number of units of the scale's last digit.
pub(crate) fn print_decimal(alloc: Global, units: i64, scale: u8) -> Result<Vec<u8>, NoMemory>
    ensures { IfOk result (λ text. text.items ≡ decimal_text scale units) }
{
    let digits = pad(alloc, units.unsigned_abs(), scale as usize + 1)?;
    let mut text = Vec::new(alloc);
    if units < 0 {
        text.push(b'-')?;
    }
    put_pointed(&digits, scale as usize, &mut text)?;
    Ok(text)
}

/// Puts digits behind `out`, with a point before the last so many of them.
fn put_pointed(digits: &[u8], scale: usize, out: &mut Vec<u8>) -> Result<(), NoMemory>
    requires { scale < length digits.now }
    ensures { OnOk result (out.new.items ≡ out.old.items ++ with_point scale digits.now) }
{
    if scale == 0 {
        out.extend_from_slice(digits)?;
        return Ok(());
    }
    let (whole, fraction) = digits.split_at(digits.len() - scale);
    out.extend_from_slice(whole)?;
    out.push(b'.')?;
    out.extend_from_slice(fraction)?;
    Ok(())
}
