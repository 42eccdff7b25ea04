//! The rows and the changes that records tell.
ghost use Rattle.std.specs.Prelude.{◌≡◌, ◌++◌, ◌∷◌, ℕ, List, Option, Some};
ghost use Rattle.std.specs.Prelude.{IfOk, IfSome, IsTrue};
ghost use Rattle.std.specs.Option.{option_map_or};
ghost use Rattle.std.specs.Str.{chars, encode_utf8_all};
ghost use Rattle.sds_value.specs.Values.{fits, printed};
ghost use Rattle.sds_value.specs.declared.kind.Binary.TheVariants.{Base64};
ghost use Rattle.sds_value.specs.declared.kind.Value.{Value};
ghost use Rattle.sds_value.specs.declared.row.Event.{Event};
ghost use Rattle.sds_value.specs.declared.row.Field.TheVariants as field;
ghost use Rattle.sds_types.specs.declared.row.Change.{Change};
ghost use Rattle.sds_types.specs.declared.row.Row.{Row};
ghost use Rattle.sds_types.specs.declared.row.TableRow.{TableRow};
ghost use Rattle.sds_trade.specs.rules.Fitting.{FitColumns, FitsRow, HasRows, Suits};
ghost use Rattle.sds_trade.specs.rules.Places.{columns_at, table_name, table_place};
ghost use Rattle.sds_trade.specs.rules.RoutedValues as values;
ghost use Rattle.sds_history.specs.history.Lanes as lanes;
ghost use Rattle.sds_history.specs.history.Records as records;
ghost use Rattle.sds_history.specs.history.RowRecords as stated;
ghost use Rattle.sds_records.specs.Fields as written;
ghost use Rattle.sds_records.specs.Parts.{FitsSide};
ghost use Rattle.sds_records.specs.Headings.{heading_of};
ghost use Rattle.sds_records.specs.Told as told;
ghost use Rattle.sds_records.specs.Told.{HasChannel, HasTable};

use crate::pieces::{divided, name_of, narrow, number_in, number_of_key};
use crate::tellings::channel_of;
use sds_base::{List, NoMemory, Twin, Txt};
use sds_rowvalues::{columns_at, table_place};
use sds_types::{Change, Config, Row, TableRow};
use sds_value::{
    Binary, ColumnDef, Event, Field, Kind, TableDef, Value, ValueRefusal, printed_reads_back,
    read_value_fits,
};
use std::alloc::Global;

/// The value that a text is read as, where it is one of the kind.
fn read_value(alloc: Global, kind: Kind, text: &str) -> Result<Option<Value>, NoMemory>
    ensures fits { IfOk result (λ found. IfSome found (λ value. IsTrue (fits kind value))) }
    ensures found { (value : Value) → IsTrue (fits kind value)
        → chars text.now ≡ chars (printed kind Base64 value)
        → IfOk result (λ found. found ≡ Some value) }
{
    read_value_fits();
    printed_reads_back();
    match Value::read(alloc, kind, text, Binary::Base64) {
        Ok(value) => Ok(Some(value)),
        Err(ValueRefusal::NoMemory) => Err(NoMemory),
        Err(ValueRefusal::TooLong | ValueRefusal::BadText | ValueRefusal::OutOfRange) => Ok(None),
    }
}

/// The value that a field tells for a column.
fn told_value(alloc: Global, column: &ColumnDef, field: &Field) -> Result<Option<Value>, NoMemory>
    ensures suits { IfOk result (λ found. IfSome found (λ value. Suits (column.now, value))) }
    ensures found { (value : Value) → Suits (column.now, value)
        → field.now ≡ values.field_of column.now.kind value
        → IfOk result (λ found. found ≡ Some value) }
{
    match field {
        Field::Null => Ok(Some(Value::Null)),
        Field::Text(text) => read_value(alloc, column.kind, text.as_str()),
    }
}

/// The row whose values these fields tell, one for each column.
fn told_values(
    alloc: Global,
    columns: &[ColumnDef],
    fields: &[Field],
) -> Result<Option<Row>, NoMemory>
    ensures fit { IfOk result (λ found. IfSome found (λ row. FitColumns columns.now row.0)) }
    ensures found { (row : Row) → FitColumns columns.now row.0
        → fields.now ≡ stated.row_fields columns.now row.0
        → IfOk result (λ found. found ≡ Some row) }
{
    if columns.len() != fields.len() {
        return Ok(None);
    }
    let mut values = List::new(alloc);
    for place in 0..columns.len() {
        let Some(value) = told_value(alloc, &columns[place], &fields[place])? else {
            return Ok(None);
        };
        values.push(value)?;
    }
    Ok(Some(Row(values)))
}

/// The place of the table of a name.
fn table_of(defs: &[TableDef], name: &Txt) -> Option<u32>
    ensures { (place : ℕ) → told.IsNarrow place → table_place defs.now name.now ≡ Some place
        → result ≡ Some place }
{
    match table_place(defs, name) {
        Some(place) => narrow(place),
        None => None,
    }
}

/// The row of the table that a key begins with, whose values these fields tell.
pub(crate) fn told_row(
    alloc: Global,
    config: &Config,
    place: &[u8],
    fields: &[Field],
) -> Result<Option<TableRow>, NoMemory>
    ensures fit { IfOk result (λ found. IfSome found (λ row.
        FitsRow config.now.tables row.table row.row)) }
    ensures found { (row : TableRow) → told.IsNarrow row.table → HasTable config.now row.table
        → FitsRow config.now.tables row.table row.row → (key : List ℕ)
        → place.now ≡ encode_utf8_all (table_name config.now.tables row.table) ++ 47 ∷ key
        → fields.now ≡ stated.row_fields (columns_at config.now.tables row.table) row.row.0
        → IfOk result (λ found. found ≡ Some row) }
{
    let Some((name, _)) = divided(place) else {
        return Ok(None);
    };
    let Some(name) = name_of(alloc, name)? else {
        return Ok(None);
    };
    let defs = config.tables.inner().as_slice();
    let Some(table) = table_of(defs, &name) else {
        return Ok(None);
    };
    match told_values(alloc, columns_at(defs, table as usize), fields)? {
        Some(row) => Ok(Some(TableRow { table, row })),
        None => Ok(None),
    }
}

/// The event of a change, by its word.
fn event_of(word: &Txt) -> Event
    ensures { (event : Event) → word.now ≡ stated.event_word event → result ≡ event }
{
    if word.is("I") {
        return Event::Insert;
    }
    if word.is("U") {
        return Event::Update;
    }
    Event::Delete
}

/// The node that a change came from, where it came from one.
fn told_source(alloc: Global, source: &Field) -> Result<Option<Txt>, NoMemory>
    ensures { (node : Option (List ℕ))
        → source.now ≡ option_map_or (λ (node : List ℕ). field.Text node) node field.Null
        → IfOk result (λ found. found ≡ node) }
{
    match source {
        Field::Null => Ok(None),
        Field::Text(node) => Ok(Some(node.twin(alloc)?)),
    }
}

/// The two sides of a change.
#[derive(Debug, Drop)]
struct Sides {
    new: Option<Row>,
    old: Option<Row>,
}

/// The sides of an update, each of which its fields tell.
fn told_both(
    alloc: Global,
    columns: &[ColumnDef],
    new: &[Field],
    old: &[Field],
) -> Result<Option<Sides>, NoMemory>
    ensures fit { IfOk result (λ found. IfSome found (λ sides.
        IfSome sides.new (λ row. FitColumns columns.now row.0)
        × IfSome sides.old (λ row. FitColumns columns.now row.0))) }
    ensures found { (left took : Row) → FitColumns columns.now left.0
        → FitColumns columns.now took.0 → new.now ≡ stated.row_fields columns.now left.0
        → old.now ≡ stated.row_fields columns.now took.0
        → IfOk result (λ found. found ≡ Some (record { new = Some left; old = Some took })) }
{
    let Some(new) = told_values(alloc, columns, new)? else {
        return Ok(None);
    };
    let Some(old) = told_values(alloc, columns, old)? else {
        return Ok(None);
    };
    Ok(Some(Sides {
        new: Some(new),
        old: Some(old),
    }))
}

/// The sides that the fields of a change tell: the new values, and then the old ones, as its event
/// has them.
fn told_sides(
    alloc: Global,
    columns: &[ColumnDef],
    event: Event,
    fields: &[Field],
) -> Result<Option<Sides>, NoMemory>
    ensures fit { IfOk result (λ found. IfSome found (λ sides.
        IfSome sides.new (λ row. FitColumns columns.now row.0)
        × IfSome sides.old (λ row. FitColumns columns.now row.0))) }
    ensures found { (new old : Option Row) → HasRows event new old
        → IfSome new (λ row. FitColumns columns.now row.0)
        → IfSome old (λ row. FitColumns columns.now row.0)
        → fields.now ≡ stated.side_fields columns.now new ++ stated.side_fields columns.now old
        → IfOk result (λ found. found ≡ Some (record { new = new; old = old })) }
{
    match event {
        Event::Insert => match told_values(alloc, columns, fields)? {
            Some(new) => Ok(Some(Sides {
                new: Some(new),
                old: None,
            })),
            None => Ok(None),
        },
        Event::Delete => match told_values(alloc, columns, fields)? {
            Some(old) => Ok(Some(Sides {
                new: None,
                old: Some(old),
            })),
            None => Ok(None),
        },
        Event::Update => {
            if fields.len() < columns.len() {
                return Ok(None);
            }
            let (new, old) = fields.split_at(columns.len());
            told_both(alloc, columns, new, old)
        }
    }
}

/// What the first fields of a change tell.
#[derive(Debug, Drop)]
struct Heading {
    tx: u64,
    table: u32,
    event: Event,
    channel: u32,
    source: Option<Txt>,
}

/// The heading of these fields.
fn told_heading(
    alloc: Global,
    config: &Config,
    tx: &Field,
    table: &Txt,
    event: &Txt,
    channel: &Txt,
    source: &Field,
) -> Result<Option<Heading>, NoMemory>
    ensures { (change : Change) → told.IsHeldChange change → HasTable config.now change.table
        → HasChannel config.now change.channel → tx.now ≡ records.number_field change.tx
        → table.now ≡ table_name config.now.tables change.table
        → event.now ≡ stated.event_word change.event
        → channel.now ≡ lanes.channel_name config.now change.channel
        → source.now ≡ option_map_or (λ (node : List ℕ). field.Text node) change.source field.Null
        → IfOk result (λ found. found ≡ Some (heading_of change)) }
{
    let (Some(tx), Some(table), Some(channel)) = (
        number_in(tx),
        table_of(config.tables.inner(), table),
        channel_of(config, channel),
    ) else {
        return Ok(None);
    };
    Ok(Some(Heading {
        tx,
        table,
        event: event_of(event),
        channel,
        source: told_source(alloc, source)?,
    }))
}

/// The change of this number and this heading, whose sides these fields tell.
fn change_by(
    alloc: Global,
    config: &Config,
    id: u64,
    heading: Heading,
    fields: &[Field],
) -> Result<Option<Change>, NoMemory>
    ensures fit { IfOk result (λ found. IfSome found (λ change.
        FitsSide config.now.tables change.table change.new
        × FitsSide config.now.tables change.table change.old)) }
    ensures found { (change : Change) → change.id ≡ id → heading ≡ heading_of change
        → HasRows change.event change.new change.old
        → FitsSide config.now.tables change.table change.new
        → FitsSide config.now.tables change.table change.old
        → fields.now ≡ stated.side_fields (columns_at config.now.tables change.table) change.new
        ++ stated.side_fields (columns_at config.now.tables change.table) change.old
        → IfOk result (λ found. found ≡ Some change) }
{
    let columns = columns_at(config.tables.inner(), heading.table as usize);
    match told_sides(alloc, columns, heading.event, fields)? {
        Some(sides) => Ok(Some(Change {
            id,
            tx: heading.tx,
            table: heading.table,
            event: heading.event,
            new: sides.new,
            old: sides.old,
            channel: heading.channel,
            source: heading.source,
        })),
        None => Ok(None),
    }
}

/// The change of this number.
fn change_of(
    alloc: Global,
    config: &Config,
    id: u64,
    fields: &[Field],
) -> Result<Option<Change>, NoMemory>
    ensures fit { IfOk result (λ found. IfSome found (λ change.
        FitsSide config.now.tables change.table change.new
        × FitsSide config.now.tables change.table change.old)) }
    ensures found { (change : Change) → change.id ≡ id → told.IsHeldChange change
        → HasTable config.now change.table → HasChannel config.now change.channel
        → HasRows change.event change.new change.old
        → FitsSide config.now.tables change.table change.new
        → FitsSide config.now.tables change.table change.old
        → fields.now ≡ written.change_fields config.now change
        → IfOk result (λ found. found ≡ Some change) }
{
    match fields {
        [
            tx,
            Field::Text(table),
            Field::Text(event),
            Field::Text(channel),
            source,
            sides @ ..,
        ] => match told_heading(alloc, config, tx, table, event, channel, source)? {
            Some(heading) => change_by(alloc, config, id, heading, sides),
            None => Ok(None),
        },
        _ => Ok(None),
    }
}

/// The change of the number that a key ends with.
pub(crate) fn told_change(
    alloc: Global,
    config: &Config,
    id: &[u8],
    fields: &[Field],
) -> Result<Option<Change>, NoMemory>
    ensures fit { IfOk result (λ found. IfSome found (λ change.
        FitsSide config.now.tables change.table change.new
        × FitsSide config.now.tables change.table change.old)) }
    ensures found { (change : Change) → told.IsHeldChange change
        → HasTable config.now change.table → HasChannel config.now change.channel
        → HasRows change.event change.new change.old
        → FitsSide config.now.tables change.table change.new
        → FitsSide config.now.tables change.table change.old
        → id.now ≡ records.id_text change.id
        → fields.now ≡ written.change_fields config.now change
        → IfOk result (λ found. found ≡ Some change) }
{
    match number_of_key(alloc, id)? {
        Some(id) => change_of(alloc, config, id, fields),
        None => Ok(None),
    }
}
