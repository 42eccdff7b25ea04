// The texts of days and times of day.
ghost use Rattle.std.specs.Prelude.{◌≡◌, ◌+◌, ◌*◌, ◌^◌, ◌<◌, ◌≤◌, IfOk, IsTrue, MatchOption, length, take, drop, pos, string_bytes, true, false};
ghost use Rattle.std.specs.List.{list_all};
ghost use Rattle.std.specs.Char.{is_ascii_digit};
ghost use Rattle.std.specs.Str.{chars};
ghost use Rattle.jiff_core.specs.Date.{epoch_day};
ghost use Rattle.sds_value.specs.Digits.{digits_value, filled};
ghost use Rattle.sds_value.specs.Stamps.{begins_like, is_like, is_subsecond, has_stamp_form, number_at, is_date, is_time, day_value, nano_value, year_in, month_in, day_in, hour_in, minute_in, second_in, is_stamp, date_text, time_text, subsecond_text, stamp_text};
ghost use Rattle.sds_value.specs.Values.{stamp_of};

use crate::sums::{add_fraction, is_digits, sum_digits};
use crate::{Value, ValueRefusal};
use jiff_core::civil::Date;
use sds_base::NoMemory;
use std::alloc::Global;

/// The day and the time that a text reads as.
pub(crate) fn read_stamp(text: &str) -> Result<Value, ValueRefusal>
    ensures { result ≡ stamp_of (chars text.now) }
{
    read_day_and_time(text.as_bytes())
}

fn read_day_and_time(bytes: &[u8]) -> Result<Value, ValueRefusal>
    ensures { result ≡ stamp_of bytes.now }
{
    if !has_stamp_form(bytes) {
        return Err(ValueRefusal::BadText);
    }
    let Some(date) = find_date(bytes) else {
        return Err(ValueRefusal::BadText);
    };
    let Some(nano) = find_time(bytes) else {
        return Err(ValueRefusal::BadText);
    };
    if date.year < 1 {
        return Err(ValueRefusal::OutOfRange);
    }
    let day = date.to_unix_epoch_day();
    Ok(Value::Stamp { day, nano })
}

/// Whether it is of the form, whatever its numbers.
fn has_stamp_form(bytes: &[u8]) -> bool
    ensures { result ≡ has_stamp_form bytes.now }
{
    let is_front = begins_like(bytes, b"0000-00-00 00:00:00")
        || begins_like(bytes, b"0000-00-00T00:00:00");
    is_front && is_subsecond(behind(bytes, 19))
}

/// Whether the bytes begin with a digit where the pattern has `0`, and with the pattern's own byte elsewhere.
fn begins_like(bytes: &[u8], pattern: &[u8]) -> bool
    ensures { result ≡ begins_like pattern.now bytes.now }
{
    for (i, mark) in pattern.iter().enumerate() {
        let Some(byte) = bytes.get(i) else {
            return false;
        };
        if !is_like(*byte, *mark) {
            return false;
        }
    }
    true
}

fn is_like(byte: u8, mark: u8) -> bool
    ensures { result ≡ is_like mark byte }
{
    if mark == b'0' {
        byte.is_ascii_digit()
    } else {
        byte == mark
    }
}

/// Whether it is nothing, or a point and 1 to 9 digits.
fn is_subsecond(bytes: &[u8]) -> bool
    ensures { result ≡ is_subsecond bytes.now }
{
    match bytes {
        [] => true,
        [point, digits @ ..] => *point == b'.' && digits.len() <= 9 && is_digits(digits),
    }
}

/// What stands from this place on.
fn behind(bytes: &[u8], place: usize) -> &[u8]
    ensures { result.now ≡ drop place bytes.now }
{
    if place < bytes.len() {
        &bytes[place..]
    } else {
        &[]
    }
}

/// The number that so many digits write from this place on.
fn number_at(bytes: &[u8], place: usize, count: usize) -> u64
    requires few { count ≤ 9 }
    requires within { place + count ≤ length bytes.now }
    requires digits { list_all is_ascii_digit (take count (drop place bytes.now)) ≡ true }
    ensures value { result ≡ number_at place count bytes.now }
    ensures bound { result < 10 ^ count }
{
    sum_digits(&bytes[place..place + count])
}

/// The day that the calendar has of that year, month and day.
fn find_date(bytes: &[u8]) -> Option<Date>
    requires { IsTrue (has_stamp_form bytes.now) }
    ensures { MatchOption result (is_date (year_in bytes.now) (month_in bytes.now) (day_in bytes.now) ≡ false) (λ date. (is_date (year_in bytes.now) (month_in bytes.now) (day_in bytes.now) ≡ true) × (date.year ≡ pos (year_in bytes.now)) × (epoch_day date ≡ day_value bytes.now)) }
{
    let year = number_at(bytes, 0, 4);
    let month = number_at(bytes, 5, 2);
    let day = number_at(bytes, 8, 2);
    make_date(year, month, day)
}

fn make_date(year: u64, month: u64, day: u64) -> Option<Date>
    requires year { year < 10000 }
    requires month { month < 100 }
    requires day { day < 100 }
    ensures { MatchOption result (is_date year month day ≡ false) (λ date. (is_date year month day ≡ true) × (date.year ≡ pos year) × (date.month ≡ month) × (date.day ≡ day)) }
{
    match Date::new(year as i16, month as i8, day as i8) {
        Ok(date) => Some(date),
        Err(_) => None,
    }
}

/// The nanosecond of the day, where the clock has that hour, minute and second.
fn find_time(bytes: &[u8]) -> Option<u64>
    requires { IsTrue (has_stamp_form bytes.now) }
    ensures { MatchOption result (is_time (hour_in bytes.now) (minute_in bytes.now) (second_in bytes.now) ≡ false) (λ nano. (is_time (hour_in bytes.now) (minute_in bytes.now) (second_in bytes.now) ≡ true) × (nano ≡ nano_value bytes.now)) }
{
    let hour = number_at(bytes, 11, 2);
    let minute = number_at(bytes, 14, 2);
    let second = number_at(bytes, 17, 2);
    if hour >= 24 || minute >= 60 || second >= 60 {
        return None;
    }
    let nano = find_subsecond(behind(bytes, 20));
    Some(((hour * 60 + minute) * 60 + second) * 1_000_000_000 + nano)
}

/// The nanoseconds that a fraction of a second writes.
fn find_subsecond(fraction: &[u8]) -> u64
    requires { list_all is_ascii_digit fraction.now ≡ true }
    ensures value { result ≡ digits_value (filled 9 fraction.now) }
    ensures bound { result < 1000000000 }
{
    add_fraction(0, fraction, 9).unwrap()
}

/// The printed text of a day and a nanosecond of the day.
pub(crate) fn print_stamp(alloc: Global, day: i32, nano: u64) -> Result<String, NoMemory>
    requires { IsTrue (is_stamp day nano) }
    ensures { IfOk result (λ text. string_bytes text ≡ stamp_text day nano) }
{
    let date = print_date(alloc, day)?;
    let time = print_time(alloc, nano)?;
    let fraction = print_subsecond(alloc, nano)?;
    let (date, time, fraction) = (date.as_str(), time.as_str(), fraction.as_str());
    Ok(format!(in alloc; "{date} {time}.{fraction}")?)
}

fn print_date(alloc: Global, day: i32) -> Result<String, NoMemory>
    requires { IsTrue (is_stamp day 0) }
    ensures { IfOk result (λ text. string_bytes text ≡ date_text day) }
{
    let date = Date::from_unix_epoch_day(day as i64).unwrap();
    let year = date.year.unsigned_abs();
    let (month, day) = (date.month, date.day);
    Ok(format!(in alloc; "{year:04}-{month:02}-{day:02}")?)
}

fn print_time(alloc: Global, nano: u64) -> Result<String, NoMemory>
    ensures { IfOk result (λ text. string_bytes text ≡ time_text nano) }
{
    let hour = nano / 3_600_000_000_000;
    let minute = nano / 60_000_000_000 % 60;
    let second = nano / 1_000_000_000 % 60;
    Ok(format!(in alloc; "{hour:02}:{minute:02}:{second:02}")?)
}

/// The fewest of 3, 6 or 9 digits that write the fraction of the second.
fn print_subsecond(alloc: Global, nano: u64) -> Result<String, NoMemory>
    ensures { IfOk result (λ text. string_bytes text ≡ subsecond_text nano) }
{
    let fraction = nano % 1_000_000_000;
    if nano % 1_000_000 == 0 {
        let milli = fraction / 1_000_000;
        return Ok(format!(in alloc; "{milli:03}")?);
    }
    if nano % 1_000 == 0 {
        let micro = fraction / 1_000;
        return Ok(format!(in alloc; "{micro:06}")?);
    }
    Ok(format!(in alloc; "{fraction:09}")?)
}
