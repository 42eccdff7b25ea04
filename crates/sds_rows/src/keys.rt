//! Keys of rows: the order of a row's key beside another.
ghost use Rattle.std.specs.Prelude.{◌≡◌, map};
ghost use Rattle.std.specs.Cmp.Lexicographic.{slice_cmp};
ghost use Rattle.sds_value.specs.Values.{value_order};
ghost use Rattle.sds_trade.specs.rules.Tables as stand;
ghost use Rattle.sds_rows.specs.Searches.{place_order};

use sds_rowvalues::key_places;
use sds_types::{Row, TableRow};
use sds_value::{TableDef, Value};
use std::cmp::Ordering;

/// The order of the value at a place of a row, which is null past its end, beside another value.
fn order_at(values: &[Value], place: u32, wanted: &Value) -> Ordering
    ensures { result ≡ value_order (stand.value_at values.now place) wanted.now }
{
    match values.get(place as usize) {
        Some(value) => value.order(wanted),
        None => {
            let null = Value::Null;
            null.order(wanted)
        }
    }
}

/// The order of the values at a place of two rows.
fn order_between(a: &[Value], b: &[Value], place: u32) -> Ordering
    ensures { result ≡ value_order (stand.value_at a.now place) (stand.value_at b.now place) }
{
    match b.get(place as usize) {
        Some(wanted) => order_at(a, place, wanted),
        None => {
            let null = Value::Null;
            order_at(a, place, &null)
        }
    }
}

/// The order of the key at these places of a row beside another key.
fn order_of_key(places: &[u32], values: &[Value], key: &[Value]) -> Ordering
    ensures { result ≡ slice_cmp value_order
        (map (stand.value_at values.now) places.now) key.now }
{
    for (i, place) in places.iter().enumerate() {
        if i >= key.len() {
            return Ordering::Greater;
        }
        let order = order_at(values, *place, &key[i]);
        if order.is_ne() {
            return order;
        }
    }
    if places.len() < key.len() {
        return Ordering::Less;
    }
    Ordering::Equal
}

/// The order of the keys at these places of two rows.
fn order_of_keys(places: &[u32], a: &[Value], b: &[Value]) -> Ordering
    ensures { result ≡ slice_cmp value_order
        (map (stand.value_at a.now) places.now) (map (stand.value_at b.now) places.now) }
{
    for place in places {
        let order = order_between(a, b, *place);
        if order.is_ne() {
            return order;
        }
    }
    Ordering::Equal
}

/// The order of a row beside the row of a table with a key.
pub(crate) fn order_by_key(
    defs: &[TableDef],
    other: &TableRow,
    table: u32,
    key: &[Value],
) -> Ordering
    ensures { result ≡ place_order defs.now table (record { 0 = key.now }) other.now }
{
    let order = other.table.cmp(&table);
    if order.is_ne() {
        return order;
    }
    let places = key_places(defs, other.table as usize);
    order_of_key(places, other.row.0.inner().as_slice(), key)
}

/// The order of a row beside another.
pub(crate) fn order_by_row(defs: &[TableDef], other: &TableRow, table: u32, row: &Row) -> Ordering
    ensures { result ≡ place_order defs.now table (stand.key_of defs.now table row.now) other.now }
{
    let order = other.table.cmp(&table);
    if order.is_ne() {
        return order;
    }
    let places = key_places(defs, table as usize);
    order_of_keys(
        places,
        other.row.0.inner().as_slice(),
        row.0.inner().as_slice(),
    )
}

/// Whether a row of a table has a key.
pub(crate) fn has_own_key(defs: &[TableDef], table: u32, row: &Row, key: &[Value]) -> bool
    ensures { result
        ≡ stand.same_key (stand.key_of defs.now table row.now) (record { 0 = key.now }) }
{
    order_of_key(
        key_places(defs, table as usize),
        row.0.inner().as_slice(),
        key,
    )
    .is_eq()
}
