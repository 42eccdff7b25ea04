//! Own rows as rows of texts.
ghost use Rattle.std.specs.Prelude.{◌≡◌, IfOk, [], drop, length, map, take, unwrap_or};
ghost use Rattle.sds_value.specs.declared.row.Event.TheVariants.{Insert, Update, Delete};
ghost use Rattle.sds_trade.specs.rules.OwnWrites as own;
ghost use Rattle.sds_trade.specs.rules.Places as place;

use sds_base::{List, NoMemory, Twin, Txt};
use sds_rowvalues::{column_names, columns_at, key_names, no_name, table_place};
use sds_types::TxRow;
use sds_value::{DocRow, Event, Field, TableDef};
use std::alloc::Global;

/// The place of the table of a name, or that after the last one.
fn table_or_end(defs: &[TableDef], name: &Txt) -> usize
    ensures { result ≡ unwrap_or (place.table_place defs.now name.now) (length defs.now) }
{
    table_place(defs, name).unwrap_or(defs.len())
}

/// The first so many fields and the others.
fn split_fields(fields: &[Field], count: usize) -> (&[Field], &[Field])
    ensures { (result.0.now ≡ take count fields.now) × (result.1.now ≡ drop count fields.now) }
{
    if count >= fields.len() {
        return (fields, &[]);
    }
    fields.split_at(count)
}

/// Copies of fields.
fn copies_of(alloc: Global, fields: &[Field]) -> Result<List<Field>, NoMemory>
    ensures { IfOk result (λ copies. copies ≡ fields.now) }
{
    let mut copies = Vec::new(alloc);
    for field in fields {
        copies.push(field.twin(alloc)?)?;
    }
    Ok(List::of(copies))
}

/// The fields but the first one.
fn without_first(fields: &[Field]) -> &[Field]
    ensures { result.now ≡ drop 1 fields.now }
{
    match fields {
        [] => &[],
        [_, others @ ..] => others,
    }
}

/// Copies of the fields at even places.
fn every_other(alloc: Global, fields: &[Field]) -> Result<Vec<Field>, NoMemory>
    ensures { IfOk result (λ found. found.items ≡ own.every_other fields.now) }
{
    let mut rest = fields;
    let mut found = Vec::new(alloc);
    while let [field, others @ ..] = rest {
        found.push(field.twin(alloc)?)?;
        rest = without_first(others);
    }
    Ok(found)
}

/// A field as the name of a column; null names none.
fn name_in(alloc: Global, field: &Field) -> Result<Txt, NoMemory>
    ensures { IfOk result (λ name. name ≡ own.name_in field.now) }
{
    match field {
        Field::Null => Ok(no_name(alloc)),
        Field::Text(text) => text.twin(alloc),
    }
}

/// Fields as names of columns.
fn names_in(alloc: Global, fields: &[Field]) -> Result<List<Txt>, NoMemory>
    ensures { IfOk result (λ names. names ≡ map own.name_in fields.now) }
{
    let mut names = Vec::new(alloc);
    for field in fields {
        names.push(name_in(alloc, field)?)?;
    }
    Ok(List::of(names))
}

/// An own insert: a field for each column of the table.
fn insert_doc(
    alloc: Global,
    columns: List<Txt>,
    keys: List<Txt>,
    row: &TxRow,
) -> Result<DocRow, NoMemory>
    ensures { IfOk result (λ doc. doc ≡ own.own_doc columns keys row.now Insert) }
{
    Ok(DocRow {
        event: Event::Insert,
        table: row.table.twin(alloc)?,
        keys,
        columns,
        new: row.fields.twin(alloc)?,
        key: List::new(alloc),
        old: None,
    })
}

/// An own update: a field for each column of the key, then pairs of a column's name and a value.
fn update_doc(alloc: Global, keys: List<Txt>, row: &TxRow) -> Result<DocRow, NoMemory>
    ensures { IfOk result (λ doc. doc ≡ own.own_doc [] keys row.now Update) }
{
    let (key, pairs) = split_fields(row.fields.inner(), keys.inner().len());
    let names = every_other(alloc, pairs)?;
    let new = every_other(alloc, without_first(pairs))?;
    Ok(DocRow {
        event: Event::Update,
        table: row.table.twin(alloc)?,
        keys,
        columns: names_in(alloc, &names)?,
        new: List::of(new),
        key: copies_of(alloc, key)?,
        old: None,
    })
}

/// An own delete: the key alone.
fn delete_doc(alloc: Global, keys: List<Txt>, row: &TxRow) -> Result<DocRow, NoMemory>
    ensures { IfOk result (λ doc. doc ≡ own.own_doc [] keys row.now Delete) }
{
    Ok(DocRow {
        event: Event::Delete,
        table: row.table.twin(alloc)?,
        keys,
        columns: List::new(alloc),
        new: List::new(alloc),
        key: row.fields.twin(alloc)?,
        old: None,
    })
}

/// An own row as a row of texts for its table.
pub(crate) fn doc_of(alloc: Global, defs: &[TableDef], row: &TxRow) -> Result<DocRow, NoMemory>
    ensures { IfOk result (λ doc. doc ≡ own.doc_of defs.now row.now) }
{
    let table = table_or_end(defs, &row.table);
    let keys = key_names(alloc, defs, table)?;
    match row.event {
        Event::Insert => {
            let columns = column_names(alloc, columns_at(defs, table))?;
            insert_doc(alloc, columns, keys, row)
        }
        Event::Update => update_doc(alloc, keys, row),
        Event::Delete => delete_doc(alloc, keys, row),
    }
}
