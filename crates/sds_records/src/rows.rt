//! The records of rows and of changes: the key of a row, and values as fields.
ghost use Rattle.std.specs.Prelude.{◌≡◌, ◌++◌, ◌∷◌, [], ℕ, List, IfOk, IfSome, OnOk, codes, map};
ghost use Rattle.std.specs.Option.{option_map_or};
ghost use Rattle.std.specs.Str.{encode_utf8_all};
ghost use Rattle.sds_line.specs.Written.{written_line};
ghost use Rattle.sds_value.specs.declared.row.Field.TheVariants as field;
ghost use Rattle.sds_types.specs.declared.row.Row.{Row};
ghost use Rattle.sds_trade.specs.rules.Fitting.{FitColumns, FitsRow};
ghost use Rattle.sds_trade.specs.rules.Places as place;
ghost use Rattle.sds_trade.specs.rules.Sides as sides;
ghost use Rattle.sds_trade.specs.rules.Tables as tables;
ghost use Rattle.sds_history.specs.history.Lanes as lanes;
ghost use Rattle.sds_history.specs.history.Records as records;
ghost use Rattle.sds_history.specs.history.RowRecords as stated;
ghost use Rattle.sds_records.specs.Parts.{FitsSide, HasKey, table_row};

use crate::fields::{number_field, word_field};
use crate::names::channel_name;
use sds_base::{Bytes, List, NoMemory, Twin, Txt};
use sds_line::put_fields;
use sds_rowvalues::{columns_at, fields_of, key_places, table_name};
use sds_types::{Change, Config, Row};
use sds_value::{ColumnDef, Event, Field, TableDef};
use std::alloc::Global;

/// The field at a place, which is null where there is none.
fn field_at(alloc: Global, fields: &[Field], place: u32) -> Result<Field, NoMemory>
    ensures { IfOk result (λ made. made ≡ sides.field_at fields.now place) }
{
    match fields.get(place as usize) {
        None => Ok(Field::Null),
        Some(field) => field.twin(alloc),
    }
}

/// The fields at these places.
fn fields_at(alloc: Global, fields: &[Field], places: &[u32]) -> Result<List<Field>, NoMemory>
    ensures { IfOk result (λ made. made ≡ map (sides.field_at fields.now) places.now) }
{
    let mut made = List::new(alloc);
    for place in places {
        made.push(field_at(alloc, fields, *place)?)?;
    }
    Ok(made)
}

/// The fields of a row's key.
#[tactic(auto, using(crate::proofs::RowKeys::key_as_fields))]
fn key_fields(
    alloc: Global,
    defs: &[TableDef],
    table: u32,
    row: &Row,
) -> Result<List<Field>, NoMemory>
    requires row { FitsRow defs.now table row.now }
    requires key { HasKey defs.now table }
    ensures { IfOk result (λ made. made ≡ stated.row_fields
        (stated.key_columns (place.columns_at defs.now table) (place.key_places defs.now table))
        (tables.key_of defs.now table row.now).0) }
{
    let table = table as usize;
    let fields = fields_of(alloc, columns_at(defs, table), row)?;
    fields_at(alloc, fields.inner(), key_places(defs, table))
}

/// The bytes with which the keys of a table's rows begin.
fn key_start(alloc: Global, defs: &[TableDef], table: u32) -> Result<Vec<u8>, NoMemory>
    ensures { IfOk result (λ start. start.items ≡ codes "t/"
        ++ (encode_utf8_all (place.table_name defs.now table) ++ codes "/")) }
{
    let name = table_name(alloc, defs, table as usize)?;
    let name = name.as_str();
    Ok(format!(in alloc; "t/{name}/")?.into_bytes())
}

/// The key of a row of the table at a place.
pub(crate) fn row_key(
    alloc: Global,
    config: &Config,
    table: u32,
    row: &Row,
) -> Result<Bytes, NoMemory>
    requires row { FitsRow config.now.tables table row.now }
    requires key { HasKey config.now.tables table }
    ensures { IfOk result (λ key. key
        ≡ (stated.row_record config.now (table_row table row.now)).key) }
{
    let defs = config.tables.inner().as_slice();
    let fields = key_fields(alloc, defs, table, row)?;
    let mut key = key_start(alloc, defs, table)?;
    put_fields(fields.inner(), &mut key)?;
    Ok(Bytes::of(key))
}

/// The fields of a row of the table at a place.
pub(crate) fn row_fields(
    alloc: Global,
    config: &Config,
    table: u32,
    row: &Row,
) -> Result<Vec<Field>, NoMemory>
    requires { FitsRow config.now.tables table row.now }
    ensures { IfOk result (λ made. written_line made.items
        ≡ (stated.row_record config.now (table_row table row.now)).body) }
{
    let columns = columns_at(config.tables.inner(), table as usize);
    Ok(fields_of(alloc, columns, row)?.into_inner())
}

/// The field of what happened to a row.
fn event_field(alloc: Global, event: Event) -> Result<Field, NoMemory>
    ensures { IfOk result (λ made. made ≡ field.Text (stated.event_word event)) }
{
    match event {
        Event::Insert => word_field(alloc, "I"),
        Event::Update => word_field(alloc, "U"),
        Event::Delete => word_field(alloc, "D"),
    }
}

/// The field of the node whose batch brought a change, which is null for an own write.
fn source_field(alloc: Global, source: &Option<Txt>) -> Result<Field, NoMemory>
    ensures { IfOk result (λ made. made
        ≡ option_map_or (λ (node : List ℕ). field.Text node) source.now field.Null) }
{
    match source {
        None => Ok(Field::Null),
        Some(node) => Ok(Field::Text(node.twin(alloc)?)),
    }
}

/// The fields of a change before its values.
fn change_head(alloc: Global, config: &Config, change: &Change) -> Result<Vec<Field>, NoMemory>
    ensures { IfOk result (λ made. made.items ≡ records.number_field change.now.tx
        ∷ (field.Text (place.table_name config.now.tables change.now.table)
        ∷ (field.Text (stated.event_word change.now.event)
        ∷ (field.Text (lanes.channel_name config.now change.now.channel)
        ∷ (option_map_or (λ (node : List ℕ). field.Text node) change.now.source field.Null
        ∷ []))))) }
{
    let tx = number_field(alloc, change.tx)?;
    let table = table_name(alloc, config.tables.inner(), change.table as usize)?;
    let event = event_field(alloc, change.event)?;
    let channel = Txt::copied(alloc, channel_name(config, change.channel))?;
    let source = source_field(alloc, &change.source)?;
    Ok(vec![in alloc; tx, Field::Text(table), event, Field::Text(channel), source]?)
}

/// Puts the values of a side of a change, where it has that side.
fn put_side(
    alloc: Global,
    columns: &[ColumnDef],
    side: &Option<Row>,
    out: &mut Vec<Field>,
) -> Result<(), NoMemory>
    requires { IfSome side.now (λ (row : Row). FitColumns columns.now row.0) }
    ensures { OnOk result (out.new.items
        ≡ out.old.items ++ stated.side_fields columns.now side.now) }
{
    if let Some(row) = side {
        let mut fields = fields_of(alloc, columns, row)?.into_inner();
        out.append(&mut fields)?;
    }
    Ok(())
}

/// The fields of a change.
pub(crate) fn change_fields(
    alloc: Global,
    config: &Config,
    change: &Change,
) -> Result<Vec<Field>, NoMemory>
    requires new { FitsSide config.now.tables change.now.table change.now.new }
    requires old { FitsSide config.now.tables change.now.table change.now.old }
    ensures { IfOk result (λ made. written_line made.items
        ≡ (stated.change_record config.now change.now).body) }
{
    let mut fields = change_head(alloc, config, change)?;
    let columns = columns_at(config.tables.inner(), change.table as usize);
    put_side(alloc, columns, &change.new, &mut fields)?;
    put_side(alloc, columns, &change.old, &mut fields)?;
    Ok(fields)
}
