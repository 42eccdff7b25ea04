//! References of rows: the rows that they refer to, and the rows that refer to a key.
ghost use Rattle.std.specs.Prelude.{◌≡◌, ◌==◌, ◌<◌, ◌&&◌, [], ◌∷◌, length};
ghost use Rattle.std.specs.List.{list_any};
ghost use Rattle.std.specs.List.Sorted.{IsNonDecreasingBy};
ghost use Rattle.sds_types.specs.declared.row.TableRow.{TableRow};
ghost use Rattle.sds_trade.specs.rules.Steps.{rows_after, without_row};
ghost use Rattle.sds_trade.specs.rules.Tables as stand;
ghost use Rattle.sds_rows.specs.Searches.{is_reference_to, rows_of_table};

use crate::keys::{has_own_key, order_by_key};
use crate::search::{has_key, rows_of_table};
use sds_rowvalues::columns_at;
use sds_types::{Key, Row, RowStep, TableRow};
use sds_value::{ColumnDef, TableDef, Value};
use std::slice;

/// Whether a value is null.
pub(crate) fn is_null(value: &Value) -> bool
    ensures { result ≡ stand.is_null value.now }
{
    matches!(value, Value::Null)
}

/// Whether a key is of this one value.
fn is_key(value: &Value, key: &[Value]) -> bool
    ensures { result ≡ stand.same_key (record { 0 = value.now ∷ [] }) (record { 0 = key.now }) }
{
    match key {
        [only] => value.order(only).is_eq(),
        _ => false,
    }
}

/// Whether a row of a table is the one of another table with a key.
fn is_at(defs: &[TableDef], table: u32, row: &Row, parent: u32, key: &[Value]) -> bool
    ensures { result ≡ stand.is_at defs.now parent (record { 0 = key.now })
        (record { table = table; row = row.now }) }
{
    table == parent && has_own_key(defs, parent, row, key)
}

/// Whether a row of a parent whose key is this one value is the one of a table with an old key.
fn is_old(table: u32, old: &Key, parent: u32, value: &Value) -> bool
    ensures { result ≡ (parent == table
        && stand.same_key (record { 0 = value.now ∷ [] }) old.now) }
{
    parent == table && is_key(value, old.0.inner().as_slice())
}

/// Whether a row whose key is this one value stands beside the one of a table with an old key.
fn has_other(
    defs: &[TableDef],
    rows: &[TableRow],
    table: u32,
    old: &Key,
    parent: u32,
    value: &Value,
) -> bool
    requires { stand.Ascend defs.now rows.now }
    ensures { result ≡ stand.has_row defs.now (without_row defs.now rows.now table old.now) parent
        (record { 0 = value.now ∷ [] }) }
{
    if is_old(table, old, parent, value) {
        return false;
    }
    has_key(defs, rows, parent, slice::from_ref(value))
}

/// Whether a row whose key is this one value stands after a step.
fn stands_after(
    defs: &[TableDef],
    rows: &[TableRow],
    step: &RowStep,
    parent: u32,
    value: &Value,
) -> bool
    requires { stand.Ascend defs.now rows.now }
    ensures { result ≡ stand.has_row defs.now (rows_after defs.now rows.now step.now) parent
        (record { 0 = value.now ∷ [] }) }
{
    let wanted = slice::from_ref(value);
    match step {
        RowStep::Insert { table, row } => {
            is_at(defs, *table, row, parent, wanted) || has_key(defs, rows, parent, wanted)
        }
        RowStep::Update { table, key, row } => {
            is_at(defs, *table, row, parent, wanted)
                || has_other(defs, rows, *table, key, parent, value)
        }
        RowStep::Delete { table, key } => has_other(defs, rows, *table, key, parent, value),
    }
}

/// Whether each reference of a row of a table is the key of a row that stands after a step.
pub(crate) fn finds_parents(
    defs: &[TableDef],
    rows: &[TableRow],
    step: &RowStep,
    table: u32,
    row: &Row,
) -> bool
    requires { stand.Ascend defs.now rows.now }
    ensures { result ≡ stand.finds_parents defs.now
        (rows_after defs.now rows.now step.now) table row.now }
{
    let columns = columns_at(defs, table as usize);
    let values = row.0.inner().as_slice();
    for (place, column) in columns.iter().enumerate() {
        let Some(value) = values.get(place) else {
            return true;
        };
        if let Some(parent) = column.parent
            && !is_null(value)
            && !stands_after(defs, rows, step, parent, value)
        {
            return false;
        }
    }
    true
}

/// Whether a row refers to the row of a table with a key.
fn refers_to(defs: &[TableDef], table: u32, key: &[Value], row: &TableRow) -> bool
    ensures { result ≡ stand.refers_to defs.now table (record { 0 = key.now }) row.now }
{
    let columns = columns_at(defs, row.table as usize);
    let values = row.row.0.inner().as_slice();
    for (place, column) in columns.iter().enumerate() {
        let Some(value) = values.get(place) else {
            return false;
        };
        if column.parent == Some(table) && !is_null(value) && is_key(value, key) {
            return true;
        }
    }
    false
}

/// Whether one of these rows refers to a key, but for the row of a table that has that key.
fn some_refers(defs: &[TableDef], rows: &[TableRow], table: u32, key: &[Value]) -> bool
    ensures { result ≡ list_any (stand.refers_to defs.now table (record { 0 = key.now }))
        (without_row defs.now rows.now table (record { 0 = key.now })) }
{
    for row in rows {
        if refers_to(defs, table, key, row) && order_by_key(defs, row, table, key).is_ne() {
            return true;
        }
    }
    false
}

/// Whether one of these columns refers to a table.
fn has_parent(columns: &[ColumnDef], table: u32) -> bool
    ensures { result ≡ list_any (is_reference_to table) columns.now }
{
    for column in columns {
        if column.parent == Some(table) {
            return true;
        }
    }
    false
}

/// Whether a row of the table at a place refers to a key of another table, but for the row that has
/// that key.
fn child_refers(
    defs: &[TableDef],
    rows: &[TableRow],
    child: usize,
    table: u32,
    key: &[Value],
) -> bool
    requires known { child < length defs.now }
    requires ordered { IsNonDecreasingBy (λ (row : TableRow). row.table) rows.now }
    ensures { result ≡ list_any (stand.refers_to defs.now table (record { 0 = key.now }))
        (without_row defs.now (rows_of_table child rows.now) table (record { 0 = key.now })) }
{
    has_parent(columns_at(defs, child), table)
        && some_refers(defs, rows_of_table(rows, child), table, key)
}

/// Whether a row but the one of a table with a key refers to that key. Only the rows of tables with
/// a column that refers to the table are looked at.
pub(crate) fn others_refer(defs: &[TableDef], rows: &[TableRow], table: u32, key: &[Value]) -> bool
    requires { stand.Ascend defs.now rows.now }
    ensures { result ≡ list_any (stand.refers_to defs.now table (record { 0 = key.now }))
        (without_row defs.now rows.now table (record { 0 = key.now })) }
{
    for (child, _) in defs.iter().enumerate() {
        if child_refers(defs, rows, child, table, key) {
            return true;
        }
    }
    false
}
