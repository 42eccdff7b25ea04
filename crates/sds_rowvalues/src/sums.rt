//! What a row of a batch adds to the numbers that stand.
ghost use Rattle.std.specs.Prelude.{◌≡◌, ◌==◌, ◌+ℤ◌, IsTrue};
ghost use Rattle.std.specs.List.{find};
ghost use Rattle.std.specs.Option.{SomeIff};
ghost use Rattle.sds_value.specs.Digits.{is_in_range};
ghost use Rattle.sds_trade.specs.rules.LoadRows as read;
ghost use Rattle.sds_trade.specs.rules.RowValues as put;

use sds_types::{Addend, LoadRow};
use sds_value::{Kind, Value};

/// Whether the row adds to a column.
pub(crate) fn is_added(row: &LoadRow, column: usize) -> bool
    ensures { result ≡ put.is_added row.now column }
{
    row.adds
        .inner()
        .iter()
        .any(|addend| addend.column as usize == column)
}

/// The first addend of a column.
fn addend_for(row: &LoadRow, column: usize) -> Option<Addend>
    ensures { result ≡ find (λ (addend : Addend). addend.column == column) row.now.adds }
{
    for addend in row.adds.inner() {
        if addend.column as usize == column {
            return Some(*addend);
        }
    }
    None
}

/// What the row adds to a column, in units of its last digit.
fn addition_to(row: &LoadRow, column: usize) -> i128
    ensures { result ≡ put.addition_to row.now column }
{
    match addend_for(row, column) {
        None => 0,
        Some(addend) => addend.add.unwrap_or(0),
    }
}

/// A number in units of its column's last digit; null counts as 0.
pub fn units_of(value: &Value) -> i64
    ensures { result ≡ read.units_of value.now }
{
    match value {
        Value::Integer(number) => *number,
        Value::Decimal(units) => *units,
        _ => 0,
    }
}

/// The sum, where it has 64 bits with a sign.
fn sum_of(units: i64, addition: i128) -> Option<i64>
    ensures { SomeIff result (IsTrue (is_in_range (units +ℤ addition))) (units +ℤ addition) }
{
    match addition.checked_add(units as i128) {
        None => None,
        Some(sum) => i64::try_from(sum).ok(),
    }
}

/// The value at a column with what the row adds to it, where that has 64 bits with a sign.
pub(crate) fn sum_at(row: &LoadRow, column: usize, kept: &Value) -> Option<i64>
    ensures { SomeIff result (IsTrue (is_in_range (put.sum_at row.now column kept.now)))
        (put.sum_at row.now column kept.now) }
{
    sum_of(units_of(kept), addition_to(row, column))
}
