//! What a row adds to the numbers that stand.
ghost use Rattle.std.specs.Prelude.{◌≡◌, ◌*ℤ◌, ◌-ℤ◌, IfOk, map};
ghost use Rattle.std.specs.List.{zip};
ghost use Rattle.sds_trade.specs.rules.LoadRows as read;

use sds_base::{List, NoMemory};
use sds_rowvalues::{units_of, value_for};
use sds_types::{Add, Addend, LoadRow};
use sds_value::{Event, Value};
use std::alloc::Global;

/// What a row adds to these columns: so many times its new number less its old one, which is 0 for
/// an insert, and none where the old values aren't given.
pub(crate) fn addends_of(
    alloc: Global,
    row: &LoadRow,
    adds: &[Add],
) -> Result<List<Addend>, NoMemory>
    ensures { IfOk result (λ made. made ≡ map (read.addend_of row.now) adds.now) }
{
    let mut made = Vec::with_capacity(alloc, adds.len())?;
    for add in adds {
        made.push(addend_of(row, *add))?;
    }
    Ok(List::of(made))
}

/// What a row adds to a column.
fn addend_of(row: &LoadRow, add: Add) -> Addend
    ensures { result ≡ read.addend_of row.now add }
{
    Addend {
        column: add.column,
        add: addition_of(row, add),
    }
}

fn addition_of(row: &LoadRow, add: Add) -> Option<i128>
    ensures { result ≡ (read.addend_of row.now add).add }
{
    match (row.event, &row.old) {
        (Event::Insert, _) => Some(product(add.multiplier, new_units(row, add.column), 0)),
        (Event::Update | Event::Delete, None) => None,
        (Event::Update | Event::Delete, Some(old)) => Some(product(
            add.multiplier,
            new_units(row, add.column),
            units_for(row.columns.inner(), old.inner(), add.column),
        )),
    }
}

/// The new number of a column.
fn new_units(row: &LoadRow, column: u32) -> i64
    ensures { result ≡ read.units_of (read.value_for (zip row.now.columns row.now.new) column) }
{
    units_for(row.columns.inner(), row.new.inner(), column)
}

/// So many times a new number less an old one.
fn product(multiplier: i64, new: i64, old: i64) -> i128
    ensures { result ≡ multiplier *ℤ (new -ℤ old) }
{
    (multiplier as i128) * (new as i128 - old as i128)
}

/// The number beside the place of a column, in units of its last digit; 0 where there is none.
fn units_for(places: &[u32], values: &[Value], column: u32) -> i64
    ensures { result ≡ read.units_of (read.value_for (zip places.now values.now) column) }
{
    match value_for(places, values, column as usize) {
        Some(value) => units_of(value),
        None => 0,
    }
}
