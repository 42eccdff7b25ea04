//! Fields read as values of their columns' kinds.
ghost use Rattle.std.specs.Prelude.{◌≡◌, ◌||◌, IfOk, OnOk, map};
ghost use Rattle.std.specs.List.{list_any, zip};
ghost use Rattle.sds_trade.specs.rules.LoadRows as read;
ghost use Rattle.sds_trade.specs.rules.TextRules as text;
ghost use Rattle.sds_rowtexts.specs.Placed.{is_one, is_refused, placed_value};

use sds_base::{List, NoMemory};
use sds_value::{Binary, ColumnDef, Field, Value, ValueRefusal};
use std::alloc::Global;

/// Why texts of a row don't read.
#[derive(Debug, Drop)]
pub(crate) struct Refused {
    /// One isn't of its kind's form, or out of the kind's range.
    pub(crate) bad: bool,
    /// One is longer than its column takes.
    pub(crate) long: bool,
}

/// The values of fields beside the places of their columns: null where a text doesn't read, and
/// then it is told why.
pub(crate) fn read_fields(
    alloc: Global,
    form: Binary,
    columns: &[ColumnDef],
    places: &[u32],
    fields: &[Field],
    refused: &mut Refused,
) -> Result<List<Value>, NoMemory>
    ensures values { IfOk result (λ values. values
        ≡ map (placed_value form columns.now) (zip places.now fields.now)) }
    ensures bad { OnOk result (refused.new.bad ≡ (refused.old.bad
        || list_any (is_refused text.is_bad form columns.now) (zip places.now fields.now))) }
    ensures long { OnOk result (refused.new.long ≡ (refused.old.long
        || list_any (is_refused text.is_too_long form columns.now) (zip places.now fields.now))) }
{
    let mut values = Vec::with_capacity(alloc, fields.len())?;
    for (at, place) in places.iter().enumerate() {
        let Some(field) = fields.get(at) else {
            break;
        };
        values.push(read_at(alloc, form, columns, *place, field, refused)?)?;
    }
    Ok(List::of(values))
}

/// The value of a field of the column at a place.
fn read_at(
    alloc: Global,
    form: Binary,
    columns: &[ColumnDef],
    place: u32,
    field: &Field,
    refused: &mut Refused,
) -> Result<Value, NoMemory>
    ensures value { IfOk result (λ value.
        value ≡ placed_value form columns.now (place, field.now)) }
    ensures bad { OnOk result (refused.new.bad ≡ (refused.old.bad
        || is_refused text.is_bad form columns.now (place, field.now))) }
    ensures long { OnOk result (refused.new.long ≡ (refused.old.long
        || is_refused text.is_too_long form columns.now (place, field.now))) }
{
    match columns.get(place as usize) {
        None => Ok(Value::Null),
        Some(column) => read_field(alloc, form, column, field, refused),
    }
}

/// The value of a field of a column.
fn read_field(
    alloc: Global,
    form: Binary,
    column: &ColumnDef,
    field: &Field,
    refused: &mut Refused,
) -> Result<Value, NoMemory>
    ensures value { IfOk result (λ value. value ≡ read.value_in form column.now field.now) }
    ensures bad { OnOk result (refused.new.bad ≡ (refused.old.bad
        || is_one text.is_bad (text.text_refusal form column.now field.now))) }
    ensures long { OnOk result (refused.new.long ≡ (refused.old.long
        || is_one text.is_too_long (text.text_refusal form column.now field.now))) }
{
    let Field::Text(text) = field else {
        return Ok(Value::Null);
    };
    match Value::read(alloc, column.kind, text.as_str(), form) {
        Ok(value) => Ok(value),
        Err(ValueRefusal::NoMemory) => Err(NoMemory),
        Err(ValueRefusal::TooLong) => {
            refused.long = true;
            Ok(Value::Null)
        }
        Err(ValueRefusal::BadText | ValueRefusal::OutOfRange) => {
            refused.bad = true;
            Ok(Value::Null)
        }
    }
}
