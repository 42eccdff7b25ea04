//! Copies of steps, and of the rows that stand before them.
ghost use Rattle.std.specs.Prelude.{◌≡◌, IfOk, option_and_then};
ghost use Rattle.sds_trade.specs.rules.Steps as stepped;
ghost use Rattle.sds_trade.specs.rules.Tables.{row_at};

use crate::Tables;
use sds_base::{NoMemory, Twin};
use sds_types::{Key, Row, RowStep};
use std::alloc::Global;

/// A copy of a key.
fn copy_of_key(alloc: Global, key: &Key) -> Result<Key, NoMemory>
    ensures { IfOk result (λ copy. copy ≡ key.now) }
{
    Ok(Key(key.0.twin(alloc)?))
}

/// A copy of a step.
pub(crate) fn copy_of_step(alloc: Global, step: &RowStep) -> Result<RowStep, NoMemory>
    ensures { IfOk result (λ copy. copy ≡ step.now) }
{
    match step {
        RowStep::Insert { table, row } => Ok(RowStep::Insert {
            table: *table,
            row: row.twin(alloc)?,
        }),
        RowStep::Update { table, key, row } => Ok(RowStep::Update {
            table: *table,
            key: copy_of_key(alloc, key)?,
            row: row.twin(alloc)?,
        }),
        RowStep::Delete { table, key } => Ok(RowStep::Delete {
            table: *table,
            key: copy_of_key(alloc, key)?,
        }),
    }
}

/// A copy of the row of a table with a key, where it stands.
fn copy_at(alloc: Global, tables: &Tables, table: u32, key: &Key) -> Result<Option<Row>, NoMemory>
    ensures { IfOk result (λ copy. copy ≡ row_at tables.now.defs tables.now.rows table key.now) }
{
    match tables.row(table, key) {
        None => Ok(None),
        Some(row) => Ok(Some(row.twin(alloc)?)),
    }
}

/// A copy of the row that stands before a step.
pub(crate) fn old_row(
    alloc: Global,
    tables: &Tables,
    step: &RowStep,
) -> Result<Option<Row>, NoMemory>
    ensures { IfOk result (λ old. old ≡ option_and_then
        (row_at tables.now.defs tables.now.rows (stepped.table_of step.now))
        (stepped.old_key step.now)) }
{
    match step {
        RowStep::Insert { .. } => Ok(None),
        RowStep::Update { table, key, .. } => copy_at(alloc, tables, *table, key),
        RowStep::Delete { table, key } => copy_at(alloc, tables, *table, key),
    }
}
