//! The rules on a transform's columns.
ghost use Rattle.std.specs.Prelude.{◌≡◌, ◌==◌, nat_le, length, count_by};
ghost use Rattle.std.specs.List.{list_any, list_all};
ghost use Rattle.std.specs.Str.{chars};
ghost use Rattle.sds_config.specs.Transforms as wanted;

use crate::formulas::ColumnEntry;
use crate::named::place_of;
use crate::{ColumnKind, ColumnPolicy, Point};
use sds_base::Txt;
use sds_value::{Kind, TableDef};

/// Whether the columns that are named of the configuration's table are its columns.
pub fn is_known(point: Point, table: &TableDef, columns: &[ColumnEntry]) -> bool
    ensures { result ≡ list_all (wanted.is_known point table.now) columns.now }
{
    columns
        .iter()
        .all(|column| is_column_known(point, table, column))
}

fn is_column_known(point: Point, table: &TableDef, column: &ColumnEntry) -> bool
    ensures { result ≡ wanted.is_known point table.now column.now }
{
    match point {
        Point::Extract => is_empty(&column.source) || has_column(table, &column.source),
        Point::Load => is_remove(column.kind) || has_column(table, &column.target),
    }
}

fn is_empty(text: &Txt) -> bool
    ensures { result ≡ nat_le (length text.now) 0 }
{
    text.is_empty()
}

/// Whether the table has a column of this name.
pub fn has_column(table: &TableDef, name: &Txt) -> bool
    ensures { result ≡ wanted.has_column table.now name.now }
{
    table
        .columns
        .inner()
        .iter()
        .any(|column| column.name == *name)
}

/// Whether the columns of a transform keep the rules on columns, but for the forms of their expressions.
pub fn is_sound(
    point: Point,
    policy: ColumnPolicy,
    table: &TableDef,
    columns: &[ColumnEntry],
) -> bool
    ensures { result ≡ wanted.is_sound point policy table.now columns.now }
{
    are_columns_sound(point, policy, table, columns)
        && are_keys_few(columns)
        && has_keys(point, policy, table, columns)
        && are_apart(columns)
        && are_few_for_keys(point, policy, table, columns)
}

fn are_columns_sound(
    point: Point,
    policy: ColumnPolicy,
    table: &TableDef,
    columns: &[ColumnEntry],
) -> bool
    ensures { result ≡ list_all (wanted.is_column_sound point policy table.now) columns.now }
{
    columns
        .iter()
        .all(|column| is_column_sound(point, policy, table, column))
}

fn are_keys_few(columns: &[ColumnEntry]) -> bool
    ensures { result ≡ nat_le (count_by (λ column. column.pk) columns.now) 32 }
{
    columns.iter().filter(|column| column.pk).count() <= 32
}

fn is_column_sound(
    point: Point,
    policy: ColumnPolicy,
    table: &TableDef,
    column: &ColumnEntry,
) -> bool
    ensures { result ≡ wanted.is_column_sound point policy table.now column.now }
{
    are_events(column.include_on.as_str().as_bytes())
        && suits_key(column)
        && is_short(&column.expression)
        && (!is_remove(column.kind) || is_implied(policy))
        && (!is_additive(column.kind) || adds_well(point, table, column))
}

fn suits_key(column: &ColumnEntry) -> bool
    ensures { result ≡ wanted.suits_key column.now }
{
    !column.pk || (is_star(column.include_on.as_str().as_bytes()) && !is_remove(column.kind))
}

/// Whether a text has at most 2,000 characters.
fn is_short(text: &Txt) -> bool
    ensures { result ≡ nat_le (length text.now) 2000 }
{
    count_characters(text.as_str()) <= 2_000
}

fn count_characters(text: &str) -> usize
    ensures { result ≡ length (chars text.now) }
{
    text.chars().count()
}

fn is_remove(kind: ColumnKind) -> bool
    ensures { result ≡ wanted.is_remove kind }
{
    matches!(kind, ColumnKind::Remove)
}

fn is_additive(kind: ColumnKind) -> bool
    ensures { result ≡ wanted.is_additive kind }
{
    matches!(kind, ColumnKind::Additive)
}

fn is_implied(policy: ColumnPolicy) -> bool
    ensures { result ≡ wanted.is_implied policy }
{
    matches!(policy, ColumnPolicy::Implied)
}

fn is_load(point: Point) -> bool
    ensures { result ≡ wanted.is_load point }
{
    matches!(point, Point::Load)
}

fn adds_well(point: Point, table: &TableDef, column: &ColumnEntry) -> bool
    ensures { result ≡ wanted.adds_well point table.now column.now }
{
    is_load(point) && !column.pk && takes_sums(table, &column.target)
}

fn takes_sums(table: &TableDef, name: &Txt) -> bool
    ensures { result ≡ wanted.takes_sums table.now name.now }
{
    let columns = table.columns.inner().as_slice();
    match place_of(columns, name.as_str()) {
        None => false,
        Some(place) => match columns.get(place) {
            None => false,
            Some(column) => is_number(column.kind) && !is_key(table, place),
        },
    }
}

fn is_number(kind: Kind) -> bool
    ensures { result ≡ wanted.is_number kind }
{
    matches!(kind, Kind::Integer | Kind::Decimal(_))
}

fn is_key(table: &TableDef, place: usize) -> bool
    ensures { result ≡ list_any (λ key. key == place) table.now.key }
{
    table.key.inner().iter().any(|key| *key as usize == place)
}

fn has_keys(point: Point, policy: ColumnPolicy, table: &TableDef, columns: &[ColumnEntry]) -> bool
    ensures { result ≡ wanted.has_keys point policy table.now columns.now }
{
    match point {
        Point::Load => true,
        Point::Extract => has_pk(columns) || (is_implied(policy) && keeps_key(table, columns)),
    }
}

fn has_pk(columns: &[ColumnEntry]) -> bool
    ensures { result ≡ list_any (λ column. column.pk) columns.now }
{
    columns.iter().any(|column| column.pk)
}

fn keeps_key(table: &TableDef, columns: &[ColumnEntry]) -> bool
    ensures { result ≡ list_any (wanted.key_stays table.now columns.now) table.now.key }
{
    table
        .key
        .inner()
        .iter()
        .any(|place| key_stays(table, columns, *place))
}

fn key_stays(table: &TableDef, columns: &[ColumnEntry], place: u32) -> bool
    ensures { result ≡ wanted.key_stays table.now columns.now place }
{
    match table.columns.inner().as_slice().get(place as usize) {
        None => false,
        Some(key) => !is_removed(columns, &key.name),
    }
}

fn is_removed(columns: &[ColumnEntry], name: &Txt) -> bool
    ensures { result ≡ wanted.is_removed columns.now name.now }
{
    columns
        .iter()
        .any(|column| is_remove(column.kind) && column.target == *name)
}

/// Whether so few columns are for keys that a line of a batch has room for them.
fn are_few_for_keys(
    point: Point,
    policy: ColumnPolicy,
    table: &TableDef,
    columns: &[ColumnEntry],
) -> bool
    ensures { result ≡ wanted.are_few_for_keys point policy table.now columns.now }
{
    match point {
        Point::Load => true,
        Point::Extract => !is_implied(policy) || count_for_keys(table, columns) <= 61,
    }
}

fn count_for_keys(table: &TableDef, columns: &[ColumnEntry]) -> usize
    ensures { result ≡ count_by (wanted.is_for_key table.now) columns.now }
{
    columns
        .iter()
        .filter(|column| is_for_key(table, column))
        .count()
}

/// Whether a column is a key of the made row, or made in place of a key column of the source.
fn is_for_key(table: &TableDef, column: &ColumnEntry) -> bool
    ensures { result ≡ wanted.is_for_key table.now column.now }
{
    column.pk || has_key_named(table, &column.target)
}

fn has_key_named(table: &TableDef, name: &Txt) -> bool
    ensures { result ≡ list_any (wanted.is_key_named table.now name.now) table.now.key }
{
    table
        .key
        .inner()
        .iter()
        .any(|place| is_key_named(table, name, *place))
}

fn is_key_named(table: &TableDef, name: &Txt, place: u32) -> bool
    ensures { result ≡ wanted.is_key_named table.now name.now place }
{
    match table.columns.inner().as_slice().get(place as usize) {
        None => false,
        Some(key) => key.name == *name,
    }
}

fn are_apart(columns: &[ColumnEntry]) -> bool
    ensures { result ≡ wanted.are_apart columns.now }
{
    for (place, column) in columns.iter().enumerate() {
        if clashes(column, &columns[place + 1..]) {
            return false;
        }
    }
    true
}

fn clashes(column: &ColumnEntry, others: &[ColumnEntry]) -> bool
    ensures { result ≡ list_any (wanted.clash column.now) others.now }
{
    others.iter().any(|other| clash(column, other))
}

fn clash(column: &ColumnEntry, other: &ColumnEntry) -> bool
    ensures { result ≡ wanted.clash column.now other.now }
{
    other.target == column.target
        && share_event(
            column.include_on.as_str().as_bytes(),
            other.include_on.as_str().as_bytes(),
        )
}

fn share_event(first: &[u8], second: &[u8]) -> bool
    ensures { result ≡ wanted.share_event first.now second.now }
{
    is_star(first) || is_star(second) || have_common(first, second)
}

fn have_common(first: &[u8], second: &[u8]) -> bool
    ensures { result ≡ list_any (wanted.has_event second.now) first.now }
{
    first.iter().any(|event| has_event(second, *event))
}

fn is_star(events: &[u8]) -> bool
    ensures { result ≡ wanted.is_star events.now }
{
    events == b"*".as_slice()
}

fn has_event(events: &[u8], event: u8) -> bool
    ensures { result ≡ wanted.has_event events.now event }
{
    events.iter().any(|other| *other == event)
}

/// Whether the events are `*`, or one or more of the letters I, U and D, each once.
fn are_events(events: &[u8]) -> bool
    ensures { result ≡ wanted.are_events events.now }
{
    !events.is_empty() && (is_star(events) || are_letters(events))
}

fn are_letters(events: &[u8]) -> bool
    ensures { result ≡ wanted.are_letters events.now }
{
    for (place, event) in events.iter().enumerate() {
        if !has_event(b"IUD", *event) || has_event(&events[place + 1..], *event) {
            return false;
        }
    }
    true
}
