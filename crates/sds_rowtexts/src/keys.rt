//! The key that a row tells: whether it names the columns of its table's key and gives each of them
//! a value, and these values in the key's order.
ghost use Rattle.std.specs.Prelude.{◌≡◌, IfOk, List, ℕ, map, not, option_copied, slice_get};
ghost use Rattle.std.specs.List.{list_all, zip};
ghost use Rattle.std.specs.Str.{chars};
ghost use Rattle.sds_trade.specs.rules.DocRows as doc;
ghost use Rattle.sds_trade.specs.rules.Places as place;
ghost use Rattle.sds_rowtexts.specs.Named.{key_names_of, value_named};
ghost use Rattle.sds_rowvalues.specs.Found.{or_null};

use sds_base::{List, NoMemory, Txt};
use sds_rowvalues::copy_of;
use sds_value::{ColumnDef, DocRow, Event, Field, TableDef, Value};
use std::alloc::Global;

/// The column at a place.
fn column_at(columns: &[ColumnDef], at: u32) -> Option<&ColumnDef>
    ensures { option_copied result ≡ slice_get columns.now at }
{
    columns.get(at as usize)
}

/// The name of the column at a place, which is empty where there is none.
fn column_name(columns: &[ColumnDef], at: u32) -> &str
    ensures { chars result.now ≡ place.column_name columns.now at }
{
    match column_at(columns, at) {
        None => "",
        Some(column) => column.name.as_str(),
    }
}

/// Whether a row names the columns of its table's key, in whatever order, and gives each of them a
/// value.
pub(crate) fn tells_key(def: &TableDef, row: &DocRow) -> bool
    ensures { result ≡ doc.tells_key (key_names_of def.now) row.now }
{
    row.keys.inner().len() == def.key.inner().len() && names_key(def, row) && gives_key(def, row)
}

/// Whether each column of the key is among the key names of a row.
fn names_key(def: &TableDef, row: &DocRow) -> bool
    ensures { result ≡ list_all (λ (name : List ℕ). place.is_among row.now.keys name)
        (key_names_of def.now) }
{
    for place in def.key.inner() {
        if !is_named(row.keys.inner(), column_name(def.columns.inner(), *place)) {
            return false;
        }
    }
    true
}

/// Whether each column of the key has a value in a row.
fn gives_key(def: &TableDef, row: &DocRow) -> bool
    ensures { result ≡ list_all
        (λ (name : List ℕ). not (doc.is_null_field (doc.field_in (doc.key_fields row.now) name)))
        (key_names_of def.now) }
{
    for place in def.key.inner() {
        if !gives(row, column_name(def.columns.inner(), *place)) {
            return false;
        }
    }
    true
}

/// Whether one of these names is this one.
fn is_named(names: &[Txt], name: &str) -> bool
    ensures { result ≡ place.is_among names.now (chars name.now) }
{
    names.iter().any(|other| other.is(name))
}

/// Whether a row gives a column of the key a value: an insert among the new ones, else among the
/// old key's.
fn gives(row: &DocRow, name: &str) -> bool
    ensures { result ≡ not (doc.is_null_field
        (doc.field_in (doc.key_fields row.now) (chars name.now))) }
{
    match row.event {
        Event::Insert => is_given(row.columns.inner(), row.new.inner(), name),
        Event::Update | Event::Delete => is_given(row.keys.inner(), row.key.inner(), name),
    }
}

/// Whether the first of these fields that has a name is a text.
fn is_given(names: &[Txt], fields: &[Field], name: &str) -> bool
    ensures { result ≡ not (doc.is_null_field
        (doc.field_in (zip names.now fields.now) (chars name.now))) }
{
    for (at, other) in names.iter().enumerate() {
        let Some(field) = fields.get(at) else {
            return false;
        };
        if other.is(name) {
            return is_text(field);
        }
    }
    false
}

/// Whether a field is a text.
fn is_text(field: &Field) -> bool
    ensures { result ≡ not (doc.is_null_field field.now) }
{
    match field {
        Field::Null => false,
        Field::Text(_) => true,
    }
}

/// The key that values beside these names tell, in the order of the table's key.
pub(crate) fn told_key(
    alloc: Global,
    def: &TableDef,
    names: &[Txt],
    values: &[Value],
) -> Result<List<Value>, NoMemory>
    ensures { IfOk result (λ key. key
        ≡ map (value_named (zip names.now values.now)) (key_names_of def.now)) }
{
    let places = def.key.inner();
    let mut key = Vec::with_capacity(alloc, places.len())?;
    for place in places {
        let name = column_name(def.columns.inner(), *place);
        key.push(copy_of(alloc, value_named(names, values, name))?)?;
    }
    Ok(List::of(key))
}

/// The first of these values that has a name, which is null where none has it.
fn value_named<'a>(names: &[Txt], values: &'a [Value], name: &str) -> Option<&'a Value>
    ensures { or_null (option_copied result)
        ≡ value_named (zip names.now values.now) (chars name.now) }
{
    for (at, other) in names.iter().enumerate() {
        let Some(value) = values.get(at) else {
            return None;
        };
        if other.is(name) {
            return Some(value);
        }
    }
    None
}
