//! The row of a change, as texts.
ghost use Rattle.std.specs.Prelude.{◌≡◌, IfOk, IfSome};
ghost use Rattle.sds_trade.specs.rules.Fitting.{FitColumns, FitsRow};
ghost use Rattle.sds_trade.specs.rules.Sides as sides;
ghost use Rattle.sds_transform.specs.Keys.{key_fields_at};

use sds_base::{List, NoMemory, Twin};
use sds_rowvalues::{column_names, columns_at, fields_of, key_names, key_places, table_name};
use sds_types::{Change, Row};
use sds_value::{ColumnDef, DocRow, Field, TableDef};
use std::alloc::Global;

/// The row of a change without transforms: the table's key, all columns in order, and the old
/// values of each update and delete.
pub(crate) fn row_of_change(
    alloc: Global,
    defs: &[TableDef],
    change: &Change,
) -> Result<DocRow, NoMemory>
    requires new { IfSome change.now.new (FitsRow defs.now change.now.table) }
    requires old { IfSome change.now.old (FitsRow defs.now change.now.table) }
    ensures { IfOk result (λ row. row ≡ sides.doc_of_change defs.now change.now) }
{
    let table = change.table as usize;
    let columns = columns_at(defs, table);
    let new = fields_or_none(alloc, columns, &change.new)?;
    let old = match &change.old {
        None => None,
        Some(row) => Some(fields_of(alloc, columns, row)?),
    };
    Ok(DocRow {
        event: change.event,
        table: table_name(alloc, defs, table)?,
        keys: key_names(alloc, defs, table)?,
        columns: column_names(alloc, columns)?,
        new,
        key: key_fields(alloc, key_places(defs, table), &old)?,
        old,
    })
}

/// The fields of a row, of which there are none where there is no row.
fn fields_or_none(
    alloc: Global,
    columns: &[ColumnDef],
    row: &Option<Row>,
) -> Result<List<Field>, NoMemory>
    requires { IfSome row.now (λ row. FitColumns columns.now row.0) }
    ensures { IfOk result (λ fields. fields ≡ sides.fields_or_none columns.now row.now) }
{
    match row {
        None => Ok(List::new(alloc)),
        Some(row) => fields_of(alloc, columns, row),
    }
}

/// The fields at the key's places, of which there are none where there are no fields.
fn key_fields(
    alloc: Global,
    places: &[u32],
    fields: &Option<List<Field>>,
) -> Result<List<Field>, NoMemory>
    ensures { IfOk result (λ key. key ≡ key_fields_at places.now fields.now) }
{
    let mut key = List::new(alloc);
    let Some(fields) = fields else {
        return Ok(key);
    };
    for place in places {
        key.push(field_at(alloc, fields, *place as usize)?)?;
    }
    Ok(key)
}

/// The field at a place, which is null where there is none.
fn field_at(alloc: Global, fields: &List<Field>, place: usize) -> Result<Field, NoMemory>
    ensures { IfOk result (λ field. field ≡ sides.field_at fields.now place) }
{
    match fields.inner().get(place) {
        None => Ok(Field::Null),
        Some(field) => field.twin(alloc),
    }
}
