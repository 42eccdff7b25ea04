ghost use Rattle.std.specs.Prelude.{◌≡◌, ◌≢◌, ◌++◌, IfOk, IsTrue, MatchOption, OnOk, OnErr, length, false, true};
ghost use Rattle.std.specs.List.{list_all};
ghost use Rattle.std.specs.Char.{is_ascii_digit};
ghost use Rattle.std.specs.Str.{chars};
ghost use Rattle.sds_value.specs.Values.{value_of, integer_of, varchar_of, is_integer_text, without_sign, has_zero, printed, is_printable, form_place, value_order};

use crate::coded::{encode, read_binary};
use crate::points::{print_decimal, read_decimal};
use crate::stamps::{print_stamp, read_stamp};
use crate::sums::{behind_sign, is_digits};
use crate::{Binary, Kind, Txt, Value, ValueRefusal};
use sds_base::NoMemory;
use std::alloc::Global;
use std::cmp::Ordering;

impl Value {
    /// The value that a text reads as. No text reads as null. The form settles how bytes are written and means nothing
    /// to the other kinds. The kinds, their texts and their limits are symds' own, base64 is that of RFC 4648.
    ///
    /// - INTEGER: a sign or none, and one decimal digit or more; leading zeros read, and `-0` is 0.
    /// - DECIMAL(s): as INTEGER, with a point and one digit or more behind it, or neither; digits behind the sth are zeros.
    /// - VARCHAR(n): at most n characters, none of them U+0000.
    /// - TIMESTAMP: `YYYY-MM-DD hh:mm:ss`, or with `T` for the space, and a point with 1 to 9 digits or neither; a day
    ///   that the calendar has and a time that the clock has.
    /// - VARBINARY(n): at most n bytes in padded base64, or as hexadecimal digits in either case; no text in the plain form.
    ///
    /// `TooLong` is a text or bytes that a larger n would read. `OutOfRange` is a number outside the range of 64 bits, and
    /// a day of the year 0. Any other text is `BadText`. `NoMemory` comes of want of memory alone.
    pub fn read(alloc: Global, kind: Kind, text: &str, form: Binary) -> Result<Value, ValueRefusal>
        ensures value { result ≢ Err ValueRefusal.NoMemory → result ≡ value_of kind form (chars text.now) }
        ensures printable { IfOk result (λ value. IsTrue (is_printable kind value)) }
    {
        match kind {
            Kind::Integer => read_integer(text),
            Kind::Decimal(scale) => read_decimal(text, scale),
            Kind::Varchar(most) => read_varchar(alloc, text, most),
            Kind::Timestamp => read_stamp(text),
            Kind::Varbinary(most) => read_binary(alloc, form, text, most),
        }
    }

    /// Puts the printed text of the value behind `out`.
    ///
    /// - INTEGER: `-` where it is negative, and its digits without leading zeros.
    /// - DECIMAL(s): the same, with a point before the last s digits where s is not 0.
    /// - VARCHAR(n): the text itself, in UTF-8.
    /// - TIMESTAMP: `YYYY-MM-DD hh:mm:ss.` and the fewest of 3, 6 or 9 digits that write the fraction.
    /// - VARBINARY(n): padded base64, or lower-case hexadecimal digits; nothing in the plain form.
    ///
    /// The value is one of the kind, and a time is one of the years 1 to 9999. Where memory is wanting, `out` stays as it was.
    pub fn put(&self, kind: Kind, form: Binary, out: &mut Vec<u8>) -> Result<(), NoMemory>
        requires { IsTrue (is_printable kind self.now) }
        ensures ok { OnOk result (out.new.items ≡ out.old.items ++ printed kind form self.now) }
        ensures err { OnErr result (out.new.items ≡ out.old.items) }
    {
        match (kind, self) {
            (Kind::Integer, Value::Integer(number)) => {
                let digits = number.to_string(*out.allocator())?;
                out.extend_from_slice(digits.as_bytes())?;
            }
            (Kind::Decimal(scale), Value::Decimal(units)) => {
                let text = print_decimal(*out.allocator(), *units, scale)?;
                out.extend_from_slice(&text)?;
            }
            (Kind::Varchar(_), Value::Text(text)) => {
                out.extend_from_slice(text.as_str().as_bytes())?;
            }
            (Kind::Timestamp, Value::Stamp { day, nano }) => {
                let text = print_stamp(*out.allocator(), *day, *nano)?;
                out.extend_from_slice(text.as_bytes())?;
            }
            (Kind::Varbinary(_), Value::Bin(bytes)) => {
                let text = encode(*out.allocator(), form, bytes.inner())?;
                out.extend_from_slice(text.as_bytes())?;
            }
            _ => {}
        }
        Ok(())
    }

    /// The order of two values: null below every value, numbers by value, texts by their bytes in UTF-8, times by
    /// day and then by nanosecond, bytes as lists. Values of two kinds have a fixed order too.
    pub fn order(&self, other: &Value) -> Ordering
        ensures { result ≡ value_order self.now other.now }
    {
        match (self, other) {
            (Value::Integer(a), Value::Integer(b)) => a.cmp(b),
            (Value::Decimal(a), Value::Decimal(b)) => a.cmp(b),
            (Value::Text(a), Value::Text(b)) => a.as_str().cmp(b.as_str()),
            (Value::Stamp { day, nano }, Value::Stamp { day: d, nano: n }) => {
                day.cmp(d).then(nano.cmp(n))
            }
            (Value::Bin(a), Value::Bin(b)) => a.inner().as_slice().cmp(b.inner().as_slice()),
            _ => form_place(self).cmp(&form_place(other)),
        }
    }
}

fn form_place(value: &Value) -> u8
    ensures { result ≡ form_place value.now }
{
    match value {
        Value::Null => 0,
        Value::Integer(_) => 1,
        Value::Decimal(_) => 2,
        Value::Text(_) => 3,
        Value::Stamp { .. } => 4,
        Value::Bin(_) => 5,
    }
}

fn read_integer(text: &str) -> Result<Value, ValueRefusal>
    ensures { result ≡ integer_of (chars text.now) }
{
    if !is_integer(text.as_bytes()) {
        return Err(ValueRefusal::BadText);
    }
    match text.parse::<i64>() {
        Ok(number) => Ok(Value::Integer(number)),
        Err(_) => Err(ValueRefusal::OutOfRange),
    }
}

fn is_integer(bytes: &[u8]) -> bool
    ensures { result ≡ is_integer_text bytes.now }
{
    is_digits(behind_sign(bytes))
}

fn read_varchar(alloc: Global, text: &str, most: u16) -> Result<Value, ValueRefusal>
    ensures { result ≢ Err ValueRefusal.NoMemory → result ≡ varchar_of most (chars text.now) }
{
    match count_characters(text) {
        None => Err(ValueRefusal::BadText),
        Some(count) if count <= most as usize => Ok(Value::Text(Txt::copied(alloc, text)?)),
        Some(_) => Err(ValueRefusal::TooLong),
    }
}

/// The number of the characters, and none where one of them is U+0000.
fn count_characters(text: &str) -> Option<usize>
    ensures { MatchOption result (has_zero (chars text.now) ≡ true) (λ count. (has_zero (chars text.now) ≡ false) × (count ≡ length (chars text.now))) }
{
    let mut count = 0;
    for character in text.chars() {
        if character == '\0' {
            return None;
        }
        count += 1;
    }
    Some(count)
}
