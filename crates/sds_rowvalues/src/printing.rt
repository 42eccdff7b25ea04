//! Values as they are printed: as texts, and as the fields of a row.
ghost use Rattle.std.specs.Prelude.{◌≡◌, ◌||◌, IfOk, IsTrue, map};
ghost use Rattle.std.specs.List.{zip};
ghost use Rattle.std.specs.Str.{chars};
ghost use Rattle.sds_value.specs.declared.kind.Binary.TheVariants.{Base64};
ghost use Rattle.sds_value.specs.declared.kind.Value.{Value};
ghost use Rattle.sds_value.specs.declared.table.ColumnDef.{ColumnDef};
ghost use Rattle.sds_value.specs.Values.{fits, printed};
ghost use Rattle.sds_trade.specs.rules.Fitting.{FitColumns};
ghost use Rattle.sds_trade.specs.rules.RoutedValues as routed;
ghost use Rattle.sds_trade.specs.rules.Sides as sides;
ghost use Rattle.sds_trade.specs.rules.Tables.{is_null};

use sds_base::{List, NoMemory, Txt};
use sds_types::Row;
use sds_value::{Binary, ColumnDef, Field, Kind, Value};
use std::alloc::Global;

/// The printed text of a value that fits its kind.
fn printed(alloc: Global, kind: Kind, value: &Value) -> Result<Txt, NoMemory>
    requires { IsTrue (fits kind value.now) }
    ensures { IfOk result (λ text. text ≡ chars (printed kind Base64 value.now)) }
{
    let mut bytes = Vec::new(alloc);
    value.put(kind, Binary::Base64, &mut bytes)?;
    Ok(Txt::of(String::from_utf8(bytes).unwrap()))
}

/// The printed text of a value of a kind, bytes in base64; null has none.
pub fn text_of(alloc: Global, kind: Kind, value: &Value) -> Result<Option<Txt>, NoMemory>
    requires { IsTrue (is_null value.now || fits kind value.now) }
    ensures { IfOk result (λ text. text ≡ routed.text_of kind value.now) }
{
    if let Value::Null = value {
        return Ok(None);
    }
    Ok(Some(printed(alloc, kind, value)?))
}

/// The field that a value of a kind is written as: its printed text, or null.
pub fn field_of(alloc: Global, kind: Kind, value: &Value) -> Result<Field, NoMemory>
    requires { IsTrue (is_null value.now || fits kind value.now) }
    ensures { IfOk result (λ field. field ≡ routed.field_of kind value.now) }
{
    match text_of(alloc, kind, value)? {
        Some(text) => Ok(Field::Text(text)),
        None => Ok(Field::Null),
    }
}

/// The field of each column that has a value.
fn fields_of_values(
    alloc: Global,
    columns: &[ColumnDef],
    values: &[Value],
) -> Result<List<Field>, NoMemory>
    requires { FitColumns columns.now values.now }
    ensures { IfOk result (λ fields. fields
        ≡ map (λ (at : ColumnDef × Value). routed.field_of at.0.kind at.1)
        (zip columns.now values.now)) }
{
    let mut fields = List::new(alloc);
    for (place, column) in columns.iter().enumerate() {
        let Some(value) = values.get(place) else {
            return Ok(fields);
        };
        fields.push(field_of(alloc, column.kind, value)?)?;
    }
    Ok(fields)
}

/// The fields that a row is written as, one for each column.
pub fn fields_of(alloc: Global, columns: &[ColumnDef], row: &Row) -> Result<List<Field>, NoMemory>
    requires { FitColumns columns.now row.now.0 }
    ensures { IfOk result (λ fields. fields ≡ sides.fields_of columns.now row.now) }
{
    fields_of_values(alloc, columns, row.0.inner().as_slice())
}
