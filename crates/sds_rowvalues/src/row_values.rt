//! The values that a row of a batch or of an own write gives, and the row that it makes of the one
//! that stands.
ghost use Rattle.std.specs.Prelude.{◌≡◌, true, IsTrue, IfOk, option_copied};
ghost use Rattle.std.specs.List.{zip};
ghost use Rattle.sds_rowvalues.specs.Found.{or_null};
ghost use Rattle.sds_value.specs.Digits.{is_in_range};
ghost use Rattle.sds_value.specs.Values.{value_order};
ghost use Rattle.sds_trade.specs.rules.LoadRows as read;
ghost use Rattle.sds_trade.specs.rules.RowValues as put;
ghost use Rattle.sds_trade.specs.rules.Tables as tables;

use crate::places::{columns_at, key_places};
use crate::sums::{is_added, sum_at};
use sds_base::{List, NoMemory, Twin};
use sds_types::{Key, LoadRow, Row};
use sds_value::{ColumnDef, Kind, TableDef, Value};
use std::alloc::Global;
use std::cmp::Ordering;

/// The order of two values that are looked up, null where there is none.
pub fn order_of(a: Option<&Value>, b: Option<&Value>) -> Ordering
    ensures { result ≡ value_order (or_null (option_copied a.entry))
        (or_null (option_copied b.entry)) }
{
    let null = Value::Null;
    match (a, b) {
        (Some(a), Some(b)) => a.order(b),
        (Some(a), None) => a.order(&null),
        (None, Some(b)) => null.order(b),
        (None, None) => Ordering::Equal,
    }
}

/// Whether two values are one.
pub fn same_value(a: Option<&Value>, b: Option<&Value>) -> bool
    ensures { result ≡ tables.same_value (or_null (option_copied a.entry))
        (or_null (option_copied b.entry)) }
{
    order_of(a, b) == Ordering::Equal
}

/// A copy of a value that is looked up, null where there is none.
pub fn copy_of(alloc: Global, value: Option<&Value>) -> Result<Value, NoMemory>
    ensures { IfOk result (λ copy. copy ≡ or_null (option_copied value.entry)) }
{
    match value {
        None => Ok(Value::Null),
        Some(value) => value.twin(alloc),
    }
}

/// The value at a place, which is null where there is none.
pub fn value_at(values: &[Value], place: usize) -> Option<&Value>
    ensures { or_null (option_copied result) ≡ tables.value_at values.now place }
{
    values.get(place)
}

/// The value that stands beside a place, which is null where none does.
pub fn value_for<'a>(places: &[u32], values: &'a [Value], place: usize) -> Option<&'a Value>
    ensures { or_null (option_copied result) ≡ read.value_for (zip places.now values.now) place }
{
    for (at, other) in places.iter().enumerate() {
        if *other as usize == place {
            return value_at(values, at);
        }
    }
    None
}

/// Whether the row lists a column.
fn lists(row: &LoadRow, column: usize) -> bool
    ensures { result ≡ put.lists row.now column }
{
    row.columns
        .inner()
        .iter()
        .any(|place| *place as usize == column)
}

/// Whether the row gives a column: it lists it and adds nothing to it.
pub fn gives(row: &LoadRow, column: usize) -> bool
    ensures { result ≡ put.gives row.now column }
{
    lists(row, column) && !is_added(row, column)
}

/// The new value that the row lists for a column.
pub fn new_value(row: &LoadRow, column: usize) -> Option<&Value>
    ensures { or_null (option_copied result) ≡ put.new_value row.now column }
{
    value_for(
        row.columns.inner().as_slice(),
        row.new.inner().as_slice(),
        column,
    )
}

/// The value that the row lists for a column among its old ones.
pub fn old_value<'a>(row: &LoadRow, old: &'a List<Value>, column: usize) -> Option<&'a Value>
    ensures { or_null (option_copied result) ≡ put.old_value row.now old.now column }
{
    value_for(
        row.columns.inner().as_slice(),
        old.inner().as_slice(),
        column,
    )
}

/// The sum of the value that stands at a column and what the row adds to it.
fn summed(row: &LoadRow, column: usize, kind: Kind, kept: &Value) -> Value
    requires { IsTrue (is_in_range (put.sum_at row.now column kept.now)) }
    ensures { result ≡ put.sum_value kind (put.sum_at row.now column kept.now) }
{
    let sum = sum_at(row, column, kept).unwrap();
    match kind {
        Kind::Decimal(_) => Value::Decimal(sum),
        _ => Value::Integer(sum),
    }
}

/// The value at a column where a value stands: the given one, the sum, or the one that stands.
fn put_value(
    alloc: Global,
    row: &LoadRow,
    place: usize,
    column: &ColumnDef,
    kept: &Value,
) -> Result<Value, NoMemory>
    requires { put.is_added row.now place ≡ true
        → IsTrue (is_in_range (put.sum_at row.now place kept.now)) }
    ensures { IfOk result (λ made. made ≡ put.put_value row.now (place, column.now) kept.now) }
{
    if gives(row, place) {
        return copy_of(alloc, new_value(row, place));
    }
    if is_added(row, place) {
        return Ok(summed(row, place, column.kind, kept));
    }
    kept.twin(alloc)
}

/// Whether the sum on the value that stands at a column has 64 bits with a sign.
fn sum_fits(row: &LoadRow, column: usize, kept: Option<&Value>) -> bool
    ensures { result ≡ is_in_range
        (put.sum_at row.now column (or_null (option_copied kept.entry))) }
{
    match kept {
        None => sum_at(row, column, &Value::Null).is_some(),
        Some(kept) => sum_at(row, column, kept).is_some(),
    }
}

/// Whether each sum on these values has 64 bits with a sign.
pub fn sums_fit(row: &LoadRow, values: &[Value]) -> bool
    ensures { result ≡ put.sums_fit row.now values.now }
{
    for addend in row.adds.inner() {
        let column = addend.column as usize;
        if !sum_fits(row, column, value_at(values, column)) {
            return false;
        }
    }
    true
}

/// The row that stands with these values, as the row of the batch makes it.
pub fn put_values(
    alloc: Global,
    defs: &[TableDef],
    row: &LoadRow,
    values: &[Value],
) -> Result<Row, NoMemory>
    requires { put.sums_fit row.now values.now ≡ true }
    ensures { IfOk result (λ made. made ≡ put.put_values defs.now row.now values.now) }
{
    let columns = columns_at(defs, row.table as usize);
    let mut made = Vec::new(alloc);
    for (place, column) in columns.iter().enumerate() {
        let Some(kept) = values.get(place) else {
            return Ok(Row(List::of(made)));
        };
        made.push(put_value(alloc, row, place, column, kept)?)?;
    }
    Ok(Row(List::of(made)))
}

/// The value that the row gives a key column, or else its old one.
fn given_or(alloc: Global, row: &LoadRow, place: usize, old: &Value) -> Result<Value, NoMemory>
    ensures { IfOk result (λ value. value ≡ put.given_or row.now (place, old.now)) }
{
    if gives(row, place) {
        return copy_of(alloc, new_value(row, place));
    }
    old.twin(alloc)
}

/// The key after the step: a key column that the row doesn't give keeps its old value.
pub fn new_key(alloc: Global, defs: &[TableDef], row: &LoadRow) -> Result<Key, NoMemory>
    ensures { IfOk result (λ key. key ≡ put.new_key defs.now row.now) }
{
    let places = key_places(defs, row.table as usize);
    let old = row.key.0.inner().as_slice();
    let mut key = Vec::new(alloc);
    for (at, place) in places.iter().enumerate() {
        let Some(value) = old.get(at) else {
            return Ok(Key(List::of(key)));
        };
        key.push(given_or(alloc, row, *place as usize, value)?)?;
    }
    Ok(Key(List::of(key)))
}

/// The values that an insert begins with: null but for its key.
pub fn key_alone(alloc: Global, defs: &[TableDef], row: &LoadRow) -> Result<Vec<Value>, NoMemory>
    ensures { IfOk result (λ values. values.items ≡ put.key_alone defs.now row.now) }
{
    let key = new_key(alloc, defs, row)?;
    let places = key_places(defs, row.table as usize);
    let columns = columns_at(defs, row.table as usize);
    let mut values = Vec::new(alloc);
    for (place, _) in columns.iter().enumerate() {
        values.push(copy_of(alloc, value_for(places, key.0.inner().as_slice(), place))?)?;
    }
    Ok(values)
}
