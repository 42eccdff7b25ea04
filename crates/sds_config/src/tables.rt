//! The section `table`.
ghost use Rattle.std.specs.Prelude.{◌≡◌, ◌≤◌, [], IfOk, MatchResult, option_map, nat_le, length, map};
ghost use Rattle.std.specs.List.{list_any, list_all};
ghost use Rattle.std.specs.Str.{bytes_eq};
ghost use Rattle.toml.specs.View.{items_view, table_view};
ghost use Rattle.sds_config.specs.Refusals.{Answers, Refuses};
ghost use Rattle.sds_config.specs.TableEntries as wanted;

use crate::columns::{ColumnText, columns_of};
use crate::fields::{field, field_path, id_at, only_keys};
use crate::named::place_of;
use crate::sections::Entry;
use crate::{Config, ConfigRefusal};
use sds_base::{List, NoMemory, Twin, Txt};
use sds_value::{ColumnDef, Kind, TableDef};
use std::alloc::Global;
use toml::{Table, Value};

impl Entry for TableDef {
    ghost use Rattle.sds_config.specs.TableEntries.{table_of};

    ghost entry_of = { table_of };

    fn read(
        alloc: Global,
        _config: &Config,
        earlier: &[TableDef],
        table: &Table,
        at: &str,
    ) -> Result<TableDef, ConfigRefusal> {
        only_keys(alloc, table, at, &["id", "columns"])?;
        let id = id_at(alloc, table, at, "id", earlier)?;
        let texts = texts_at(alloc, table, at, "columns")?;
        match columns_of(alloc, texts.as_slice())? {
            None => Err(ConfigRefusal::BadSetting(Txt::copied(alloc, at)?)),
            Some(columns) => whole_table(alloc, earlier, at, id, columns),
        }
    }
}

/// An array of texts.
fn texts_at<'a>(
    alloc: Global,
    table: &'a Table,
    at: &str,
    key: &str,
) -> Result<Vec<&'a str>, ConfigRefusal>
    ensures { MatchResult result (λ texts. wanted.texts_at (table_view table.now) at.now key.now ≡ Ok (map (λ t. t.now) texts.items)) (Refuses (wanted.texts_at (table_view table.now) at.now key.now)) }
{
    match field(table, key) {
        None => Err(ConfigRefusal::MissingEntry(field_path(alloc, at, key)?)),
        Some(value) => match value.as_array() {
            None => Err(ConfigRefusal::WrongType(field_path(alloc, at, key)?)),
            Some(items) => match texts_of(alloc, items.as_slice())? {
                None => Err(ConfigRefusal::WrongType(field_path(alloc, at, key)?)),
                Some(texts) => Ok(texts),
            },
        },
    }
}

fn texts_of<'a>(alloc: Global, items: &'a [Value]) -> Result<Option<Vec<&'a str>>, NoMemory>
    ensures { IfOk result (λ texts. option_map (λ t. map (λ s. s.now) t.items) texts ≡ wanted.texts_from [] (items_view items.now)) }
{
    let mut texts = Vec::new(alloc);
    for item in items {
        match item.as_str() {
            None => return Ok(None),
            Some(text) => texts.push(text)?,
        }
    }
    Ok(Some(texts))
}

/// The table as a whole.
fn whole_table(
    alloc: Global,
    earlier: &[TableDef],
    at: &str,
    id: Txt,
    columns: Vec<ColumnText>,
) -> Result<TableDef, ConfigRefusal>
    requires { length earlier.now ≤ 1024 }
    ensures { Answers result (wanted.whole_table earlier.now at.now id (Some columns.items)) }
{
    let texts = columns.as_slice();
    if !are_sound(earlier, &id, texts) {
        return Err(ConfigRefusal::BadSetting(Txt::copied(alloc, at)?));
    }
    if texts.len() > 64 {
        return Err(ConfigRefusal::TooMany(Txt::copied(alloc, at)?));
    }
    let key = key_places(alloc, texts)?;
    let columns = column_defs(alloc, earlier, texts)?;
    Ok(TableDef {
        name: id,
        columns: List::of(columns),
        key: List::of(key),
    })
}

fn are_sound(earlier: &[TableDef], id: &Txt, columns: &[ColumnText]) -> bool
    ensures { result ≡ wanted.are_sound earlier.now id.now columns.now }
{
    has_key(columns)
        && fits_widths(columns)
        && are_distinct(columns)
        && refer_well(earlier, id, columns)
}

fn has_key(columns: &[ColumnText]) -> bool
    ensures { result ≡ wanted.has_key columns.now }
{
    columns.iter().any(|column| column.key)
}

fn width(kind: Kind) -> u32
    ensures { result ≡ wanted.width kind }
{
    match kind {
        Kind::Integer => 20,
        Kind::Decimal(_) => 21,
        Kind::Varchar(most) => 4 * most as u32,
        Kind::Timestamp => 29,
        Kind::Varbinary(most) => most as u32,
    }
}

/// Whether the widths are at most 16,000 in all.
fn fits_widths(columns: &[ColumnText]) -> bool
    ensures { result ≡ nat_le (wanted.widths columns.now) 16000 }
{
    let mut room = 16_000;
    for column in columns {
        let width = width(column.kind);
        if width > room {
            return false;
        }
        room -= width;
    }
    true
}

fn are_distinct(columns: &[ColumnText]) -> bool
    ensures { result ≡ wanted.are_distinct columns.now }
{
    for (place, column) in columns.iter().enumerate() {
        if has_name(&columns[place + 1..], &column.name) {
            return false;
        }
    }
    true
}

fn has_name(columns: &[ColumnText], name: &Txt) -> bool
    ensures { result ≡ list_any (λ other. bytes_eq other.name name.now) columns.now }
{
    columns.iter().any(|other| other.name == *name)
}

fn refer_well(earlier: &[TableDef], id: &Txt, columns: &[ColumnText]) -> bool
    ensures { result ≡ list_all (wanted.refers_well earlier.now id.now columns.now) columns.now }
{
    columns
        .iter()
        .all(|column| refers_well(earlier, id, columns, column))
}

fn refers_well(earlier: &[TableDef], id: &Txt, columns: &[ColumnText], column: &ColumnText) -> bool
    ensures { result ≡ wanted.refers_well earlier.now id.now columns.now column.now }
{
    match &column.reference {
        None => true,
        Some(name) => match referred_kind(earlier, id, columns, name) {
            None => false,
            Some(kind) => same_kind(column.kind, kind),
        },
    }
}

fn referred_kind(earlier: &[TableDef], id: &Txt, columns: &[ColumnText], name: &Txt) -> Option<Kind>
    ensures { result ≡ wanted.referred_kind earlier.now id.now columns.now name.now }
{
    match place_of(earlier, name.as_str()) {
        Some(place) => match earlier.get(place) {
            Some(table) => table_key_kind(table),
            None => None,
        },
        None if *id == *name => key_kind(columns),
        None => None,
    }
}

/// The kind of the only key column of a table, where there is only one.
fn table_key_kind(table: &TableDef) -> Option<Kind>
    ensures { result ≡ wanted.table_key_kind table.now }
{
    match table.key.inner().as_slice() {
        [place] => match table.columns.inner().as_slice().get(*place as usize) {
            Some(column) => Some(column.kind),
            None => None,
        },
        _ => None,
    }
}

/// The kind of the only key column, where there is only one.
fn key_kind(columns: &[ColumnText]) -> Option<Kind>
    ensures { result ≡ wanted.key_kind columns.now }
{
    for (place, column) in columns.iter().enumerate() {
        if column.key {
            if has_key(&columns[place + 1..]) {
                return None;
            }
            return Some(column.kind);
        }
    }
    None
}

/// Whether two kinds are one.
pub fn same_kind(first: Kind, second: Kind) -> bool
    ensures { result ≡ wanted.same_kind first second }
{
    match (first, second) {
        (Kind::Integer, Kind::Integer) | (Kind::Timestamp, Kind::Timestamp) => true,
        (Kind::Decimal(a), Kind::Decimal(b)) => a == b,
        (Kind::Varchar(a), Kind::Varchar(b)) => a == b,
        (Kind::Varbinary(a), Kind::Varbinary(b)) => a == b,
        _ => false,
    }
}

fn key_places(alloc: Global, columns: &[ColumnText]) -> Result<Vec<u32>, NoMemory>
    requires { length columns.now ≤ 64 }
    ensures { IfOk result (λ places. places.items ≡ wanted.key_places 0 columns.now) }
{
    let mut places = Vec::new(alloc);
    for (place, column) in columns.iter().enumerate() {
        if column.key {
            places.push(place as u32)?;
        }
    }
    Ok(places)
}

fn column_defs(
    alloc: Global,
    earlier: &[TableDef],
    texts: &[ColumnText],
) -> Result<Vec<ColumnDef>, NoMemory>
    requires { length earlier.now ≤ 1024 }
    ensures { IfOk result (λ columns. columns.items ≡ map (wanted.column_of earlier.now) texts.now) }
{
    let mut columns = Vec::new(alloc);
    for text in texts {
        columns.push(column_def(alloc, earlier, text)?)?;
    }
    Ok(columns)
}

fn column_def(alloc: Global, earlier: &[TableDef], text: &ColumnText) -> Result<ColumnDef, NoMemory>
    requires { length earlier.now ≤ 1024 }
    ensures { IfOk result (λ column. column ≡ wanted.column_of earlier.now text.now) }
{
    Ok(ColumnDef {
        name: text.name.twin(alloc)?,
        kind: text.kind,
        not_null: text.not_null,
        parent: parent_of(earlier, &text.reference),
    })
}

fn parent_of(earlier: &[TableDef], reference: &Option<Txt>) -> Option<u32>
    requires { length earlier.now ≤ 1024 }
    ensures { result ≡ wanted.parent_of earlier.now reference.now }
{
    match reference {
        None => None,
        Some(name) => Some(parent_place(earlier, name)),
    }
}

fn parent_place(earlier: &[TableDef], name: &Txt) -> u32
    requires { length earlier.now ≤ 1024 }
    ensures { result ≡ wanted.parent_place earlier.now name.now }
{
    match place_of(earlier, name.as_str()) {
        Some(place) => place as u32,
        None => earlier.len() as u32,
    }
}
