//! The texts of a row, read for its table.
ghost use Rattle.std.specs.Prelude.{◌≡◌, ◌||◌, List, [], true, false, map, option_map};
ghost use Rattle.std.specs.Prelude.{IfOk, OnOk, MatchOption};
ghost use Rattle.std.specs.List.{filter_map, list_any, zip};
ghost use Rattle.std.specs.Option.{option_map_or};
ghost use Rattle.sds_value.specs.declared.row.Field.{Field};
ghost use Rattle.sds_trade.specs.rules.DocRows.{are_columns};
ghost use Rattle.sds_trade.specs.rules.LoadRows.{values_in};
ghost use Rattle.sds_trade.specs.rules.Places.{column_place};
ghost use Rattle.sds_trade.specs.rules.TextRules as text;
ghost use Rattle.sds_rowtexts.specs.Named.{key_names_of, key_values, value_named};
ghost use Rattle.sds_rowtexts.specs.Placed.{is_refused, placed_value};
ghost use Rattle.sds_rowtexts.specs.Texts.{names_are, read_texts, texts_or_rule};

use crate::keys::{tells_key, told_key};
use crate::names::{counts_fit, places_of};
use crate::values::{Refused, read_fields};
use sds_base::{List, NoMemory};
use sds_types::Rule;
use sds_value::{Binary, ColumnDef, DocRow, Event, TableDef, Value};
use std::alloc::Global;

/// The texts of a row as values.
#[derive(Debug, Drop)]
pub(crate) struct Texts {
    /// The key that the row tells, in the order of the table's key.
    pub(crate) key: List<Value>,
    /// The places of its columns.
    pub(crate) columns: List<u32>,
    pub(crate) new: List<Value>,
    pub(crate) old: Option<List<Value>>,
}

/// The places of the columns that a row names.
#[derive(Debug, Drop)]
struct Names {
    keys: List<u32>,
    columns: List<u32>,
}

/// All texts of a row as values, null where one doesn't read.
#[derive(Debug, Drop)]
struct Readings {
    /// The values beside the key's names.
    key: List<Value>,
    new: List<Value>,
    old: Option<List<Value>>,
    refused: Refused,
}

/// The texts of a row, read for its table, or the first rule that they break: of the names, of the
/// key, of the texts' form and range, of their lengths.
pub(crate) fn read_texts(
    alloc: Global,
    def: &TableDef,
    form: Binary,
    row: &DocRow,
) -> Result<Result<Texts, Rule>, NoMemory>
    ensures { IfOk result (λ read. read ≡ texts_or_rule def.now form row.now) }
{
    let Some(names) = names_of(alloc, def, row)? else {
        return Ok(Err(Rule::UnknownColumn));
    };
    if !tells_key(def, row) {
        return Ok(Err(Rule::MissingKey));
    }
    read_named(alloc, def, form, row, names)
}

/// The places of the columns that a row names; none where a name is no column's or stands twice in
/// its list, or the row hasn't as many fields as names.
fn names_of(alloc: Global, def: &TableDef, row: &DocRow) -> Result<Option<Names>, NoMemory>
    ensures { IfOk result (λ found. MatchOption found
        (names_are def.now.columns row.now ≡ false)
        (λ names. (names_are def.now.columns row.now ≡ true)
        × (names.keys ≡ filter_map (column_place def.now.columns) row.now.keys)
        × (names.columns ≡ filter_map (column_place def.now.columns) row.now.columns))) }
{
    let columns = def.columns.inner().as_slice();
    let Some(keys) = places_of(alloc, columns, row.keys.inner())? else {
        return Ok(None);
    };
    let Some(columns) = places_of(alloc, columns, row.columns.inner())? else {
        return Ok(None);
    };
    if !counts_fit(row) {
        return Ok(None);
    }
    Ok(Some(Names { keys, columns }))
}

/// The texts of a row whose columns stand at these places, or the first rule on texts' forms and
/// lengths that they break.
fn read_named(
    alloc: Global,
    def: &TableDef,
    form: Binary,
    row: &DocRow,
    names: Names,
) -> Result<Result<Texts, Rule>, NoMemory>
    requires keys { are_columns def.now.columns row.now.keys ≡ true }
    requires columns { are_columns def.now.columns row.now.columns ≡ true }
    requires key_places { names.keys ≡ filter_map (column_place def.now.columns) row.now.keys }
    requires places { names.columns ≡ filter_map (column_place def.now.columns) row.now.columns }
    ensures { IfOk result (λ read. read ≡ read_texts def.now form row.now) }
{
    let read = read_all(alloc, form, def.columns.inner(), &names, row)?;
    if read.refused.bad {
        return Ok(Err(Rule::BadValue));
    }
    if read.refused.long {
        return Ok(Err(Rule::TooLong));
    }
    let key = key_of(alloc, def, row, &read.key, &read.new)?;
    Ok(Ok(Texts {
        key,
        columns: names.columns,
        new: read.new,
        old: read.old,
    }))
}

/// All texts of a row whose columns stand at these places.
fn read_all(
    alloc: Global,
    form: Binary,
    columns: &[ColumnDef],
    names: &Names,
    row: &DocRow,
) -> Result<Readings, NoMemory>
    requires keys { are_columns columns.now row.now.keys ≡ true }
    requires columns { are_columns columns.now row.now.columns ≡ true }
    requires key_places { names.now.keys ≡ filter_map (column_place columns.now) row.now.keys }
    requires places { names.now.columns ≡ filter_map (column_place columns.now) row.now.columns }
    ensures values { IfOk result (λ read.
        (read.key ≡ values_in form columns.now row.now.keys row.now.key)
        × (read.new ≡ values_in form columns.now row.now.columns row.now.new)
        × (read.old ≡ option_map (values_in form columns.now row.now.columns) row.now.old)) }
    ensures bad { IfOk result (λ read. read.refused.bad
        ≡ list_any text.is_bad (text.refusals_in form columns.now row.now)) }
    ensures long { IfOk result (λ read. read.refused.long
        ≡ list_any text.is_too_long (text.refusals_in form columns.now row.now)) }
{
    let mut refused = Refused {
        bad: false,
        long: false,
    };
    let keys = names.keys.inner();
    let places = names.columns.inner();
    let key = read_fields(alloc, form, columns, keys, row.key.inner(), &mut refused)?;
    let new = read_fields(alloc, form, columns, places, row.new.inner(), &mut refused)?;
    let old = read_old(alloc, form, columns, places, row, &mut refused)?;
    Ok(Readings {
        key,
        new,
        old,
        refused,
    })
}

/// The old values of a row, where they are given.
fn read_old(
    alloc: Global,
    form: Binary,
    columns: &[ColumnDef],
    places: &[u32],
    row: &DocRow,
    refused: &mut Refused,
) -> Result<Option<List<Value>>, NoMemory>
    ensures values { IfOk result (λ values. values ≡ option_map
        (λ (old : List Field). map (placed_value form columns.now) (zip places.now old))
        row.now.old) }
    ensures bad { OnOk result (refused.new.bad ≡ (refused.old.bad
        || list_any (is_refused text.is_bad form columns.now)
        (option_map_or (zip places.now) row.now.old []))) }
    ensures long { OnOk result (refused.new.long ≡ (refused.old.long
        || list_any (is_refused text.is_too_long form columns.now)
        (option_map_or (zip places.now) row.now.old []))) }
{
    match &row.old {
        None => Ok(None),
        Some(old) => Ok(Some(read_fields(alloc, form, columns, places, old.inner(), refused)?)),
    }
}

/// The key that a row tells by its key's values or, of an insert, by its new ones.
fn key_of(
    alloc: Global,
    def: &TableDef,
    row: &DocRow,
    key: &List<Value>,
    new: &List<Value>,
) -> Result<List<Value>, NoMemory>
    ensures { IfOk result (λ told. told
        ≡ map (value_named (key_values row.now key.now new.now)) (key_names_of def.now)) }
{
    match row.event {
        Event::Insert => told_key(alloc, def, row.columns.inner(), new.inner()),
        Event::Update | Event::Delete => told_key(alloc, def, row.keys.inner(), key.inner()),
    }
}
