//! What own rows ask for where certain rows stand.
ghost use Rattle.std.specs.Prelude.{◌≡◌, [], IfOk};
ghost use Rattle.std.specs.List.{enumerate_from, list_any};
ghost use Rattle.sds_value.specs.declared.row.Event.TheVariants.{Update};
ghost use Rattle.sds_trade.specs.rules.OwnWrites as own;
ghost use Rattle.sds_trade.specs.rules.RowValues as put;
ghost use Rattle.sds_trade.specs.rules.Tables.{has_row};

use sds_base::{NoMemory, Twin};
use sds_rows::Tables;
use sds_rowvalues::{columns_at, gives, key_alone, new_key, new_value, put_values};
use sds_types::{Key, LoadRow, Resolution, Row, RowStep, Rule};
use sds_value::{ColumnDef, Event, TableDef, Value};
use std::alloc::Global;

/// The row that is inserted: null but for its key, with the values that the own row gives.
fn inserted_row(alloc: Global, defs: &[TableDef], row: &LoadRow) -> Result<Row, NoMemory>
    requires { row.now.adds ≡ [] }
    ensures { IfOk result (λ made. made ≡ put.inserted_row defs.now row.now) }
{
    let values = key_alone(alloc, defs, row)?;
    put_values(alloc, defs, row, values.as_slice())
}

/// The row that stands, with the values that the own row gives.
fn updated_row(alloc: Global, defs: &[TableDef], row: &LoadRow, kept: &Row) -> Result<Row, NoMemory>
    requires { row.now.adds ≡ [] }
    ensures { IfOk result (λ made. made ≡ put.updated_row defs.now row.now kept.now) }
{
    put_values(alloc, defs, row, kept.0.inner().as_slice())
}

/// Whether the own row gives a null to the column at a place, which doesn't allow it.
fn gives_null_at(row: &LoadRow, place: usize, column: &ColumnDef) -> bool
    ensures { result ≡ own.gives_null row.now (place, column.now) }
{
    column.not_null
        && gives(row, place)
        && matches!(new_value(row, place), None | Some(Value::Null))
}

/// Whether the own row gives a null to a column that doesn't allow it.
fn gives_null(columns: &[ColumnDef], row: &LoadRow) -> bool
    ensures { result ≡ list_any (own.gives_null row.now) (enumerate_from 0 columns.now) }
{
    for (place, column) in columns.iter().enumerate() {
        if gives_null_at(row, place, column) {
            return true;
        }
    }
    false
}

/// Whether a row of a table with a key stands.
fn has_row(tables: &Tables, table: u32, key: &Key) -> bool
    ensures { result ≡ has_row tables.now.defs tables.now.rows table key.now }
{
    match tables.row(table, key) {
        Some(_) => true,
        None => false,
    }
}

/// The rule that an update breaks that names no row: by a null that it gives to a column that
/// doesn't allow it, else by a new key that a row has, else in that its row is missing.
fn unseen_update(alloc: Global, tables: &Tables, row: &LoadRow) -> Result<Rule, NoMemory>
    ensures { IfOk result (λ rule. rule
        ≡ own.unseen_update tables.now.defs tables.now.rows row.now) }
{
    let defs = tables.defs().inner().as_slice();
    if gives_null(columns_at(defs, row.table as usize), row) {
        return Ok(Rule::NullNotAllowed);
    }
    let key = new_key(alloc, defs, row)?;
    if has_row(tables, row.table, &key) {
        return Ok(Rule::DuplicateKey);
    }
    Ok(Rule::RowMissing)
}

/// What the update of a row that stands, or that doesn't, asks for.
fn own_update(alloc: Global, tables: &Tables, row: &LoadRow) -> Result<Resolution, NoMemory>
    requires { row.now.adds ≡ [] }
    ensures { IfOk result (λ asks. asks ≡ own.own_step tables.now.defs tables.now.rows row.now
        Update) }
{
    let Some(kept) = tables.row(row.table, &row.key) else {
        return Ok(Resolution::Broken(unseen_update(alloc, tables, row)?));
    };
    Ok(Resolution::Apply(RowStep::Update {
        table: row.table,
        key: Key(row.key.0.twin(alloc)?),
        row: updated_row(alloc, tables.defs().inner(), row, kept)?,
    }))
}

/// What an own row asks for where these tables stand.
pub(crate) fn own_step(
    alloc: Global,
    tables: &Tables,
    row: &LoadRow,
) -> Result<Resolution, NoMemory>
    requires { row.now.adds ≡ [] }
    ensures { IfOk result (λ asks. asks ≡ own.own_step tables.now.defs tables.now.rows row.now
        row.now.event) }
{
    match row.event {
        Event::Insert => Ok(Resolution::Apply(RowStep::Insert {
            table: row.table,
            row: inserted_row(alloc, tables.defs().inner(), row)?,
        })),
        Event::Update => own_update(alloc, tables, row),
        Event::Delete => Ok(Resolution::Apply(RowStep::Delete {
            table: row.table,
            key: Key(row.key.0.twin(alloc)?),
        })),
    }
}
