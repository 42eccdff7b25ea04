// The rows of the one table: a number and a text.
ghost use Rattle.std.specs.Prelude.{◌≡◌, ◌<◌, ◌≤◌, ◌||◌, ◌∷◌, [], IfOk, MatchOption, Some, None, false, length, take, drop};
ghost use Rattle.sds_first_spec.specs.Capture.{field_value, row_values};
ghost use Rattle.sds_first_spec.specs.One.{one};
ghost use Rattle.sds_first_spec.specs.Places.{columns_of};
ghost use Rattle.sds_first_spec.specs.Tables.{same_value, value_at, key_of, is_at, stands};
ghost use Rattle.sds_first_node.specs.Loaded.{IsNoRow, IsRowAt};

use crate::find::same_value;
use sds_base::{List, NoMemory};
use sds_types::{Row, TableRow};
use sds_value::{Binary, Field, Kind, Value, ValueRefusal};
use std::alloc::Global;

/// The place of the one table.
pub(crate) const TABLE: u32 = 0;

/// The kind of the texts.
const TEXT: Kind = Kind::Varchar(40);

/// The value of a field under the kind of its column.
fn read_field(alloc: Global, kind: Kind, field: &Field) -> Result<Value, NoMemory>
    ensures { IfOk result (λ value. value ≡ field_value kind field.now) }
{
    match field {
        Field::Null => Ok(Value::Null),
        Field::Text(text) => match Value::read(alloc, kind, text.as_str(), Binary::Base64) {
            Ok(value) => Ok(value),
            Err(ValueRefusal::NoMemory) => Err(NoMemory),
            Err(_) => Ok(Value::Null),
        },
    }
}

/// The row of these fields.
pub(crate) fn read_row(alloc: Global, fields: &[Field]) -> Result<Row, NoMemory>
    ensures { IfOk result (λ row. row.0 ≡ row_values (columns_of one 0) fields.now) }
{
    let mut values = Vec::new(alloc);
    if let [id, ..] = fields {
        values.push(read_field(alloc, Kind::Integer, id)?)?;
    }
    if let [_, text, ..] = fields {
        values.push(read_field(alloc, TEXT, text)?)?;
    }
    Ok(Row(List::of(values)))
}

/// Whether this is the row of the one table with that key.
fn is_row(kept: &TableRow, key: &Value) -> bool
    ensures { result ≡ is_at one 0 (key.now ∷ []) kept.now }
{
    kept.table == TABLE && is_keyed(&kept.row, key)
}

/// Whether a row's first value is this; a row without values has none there.
fn is_keyed(row: &Row, key: &Value) -> bool
    ensures { result ≡ same_value (value_at row.now.0 0) key.now }
{
    match row.0.inner().first() {
        Some(value) => same_value(value, key),
        None => same_value(&Value::Null, key),
    }
}

/// Whether a row with that key stands.
fn is_key_in(rows: &[TableRow], key: &Value) -> bool
    ensures { result ≡ stands one 0 (key.now ∷ []) rows.now }
{
    for kept in rows {
        if is_row(kept, key) {
            return true;
        }
    }
    false
}

/// Whether the key of a row stands among rows.
pub(crate) fn is_in(rows: &[TableRow], row: &Row) -> bool
    ensures { result ≡ stands one 0 (key_of one 0 row.now) rows.now }
{
    match row.0.inner().first() {
        Some(key) => is_key_in(rows, key),
        None => is_key_in(rows, &Value::Null),
    }
}

/// The place of the row of that key.
fn key_place(rows: &[TableRow], key: &Value) -> Option<usize>
    ensures { MatchOption result (IsNoRow (key.now ∷ []) rows.now) (IsRowAt (key.now ∷ []) rows.now) }
{
    for (place, kept) in rows.iter().enumerate() {
        if is_row(kept, key) {
            return Some(place);
        }
    }
    None
}

/// The place of the row with the key of a row.
pub(crate) fn row_place(rows: &[TableRow], row: &Row) -> Option<usize>
    ensures { MatchOption result (IsNoRow (key_of one 0 row.now) rows.now) (IsRowAt (key_of one 0 row.now) rows.now) }
{
    match row.0.inner().first() {
        Some(key) => key_place(rows, key),
        None => key_place(rows, &Value::Null),
    }
}
