//! The names of tables and of columns that stand at a place; where none stands, the name is empty.
ghost use Rattle.std.specs.Prelude.{◌≡◌, [], IfOk, map};
ghost use Rattle.sds_value.specs.declared.table.ColumnDef.{ColumnDef};
ghost use Rattle.sds_trade.specs.rules.Places as place;

use crate::places::{columns_at, key_places};
use sds_base::{List, NoMemory, Twin, Txt};
use sds_value::{ColumnDef, TableDef};
use std::alloc::Global;

/// The name of what stands nowhere: the text without characters.
pub fn no_name(alloc: Global) -> Txt
    ensures { result ≡ [] }
{
    Txt::of(String::new(alloc))
}

/// The name of the table at a place.
pub fn table_name(alloc: Global, defs: &[TableDef], table: usize) -> Result<Txt, NoMemory>
    ensures { IfOk result (λ name. name ≡ place.table_name defs.now table) }
{
    match defs.get(table) {
        Some(def) => def.name.twin(alloc),
        None => Ok(no_name(alloc)),
    }
}

/// The name of the column at a place.
fn column_name(alloc: Global, columns: &[ColumnDef], column: usize) -> Result<Txt, NoMemory>
    ensures { IfOk result (λ name. name ≡ place.column_name columns.now column) }
{
    match columns.get(column) {
        Some(column) => column.name.twin(alloc),
        None => Ok(no_name(alloc)),
    }
}

/// The names of columns, in their order.
pub fn column_names(alloc: Global, columns: &[ColumnDef]) -> Result<List<Txt>, NoMemory>
    ensures { IfOk result (λ names. names
        ≡ map (λ (column : ColumnDef). column.name) columns.now) }
{
    let mut names = Vec::new(alloc);
    for column in columns {
        names.push(column.name.twin(alloc)?)?;
    }
    Ok(List::of(names))
}

/// The names of the key columns of the table at a place, in the key's order.
pub fn key_names(alloc: Global, defs: &[TableDef], table: usize) -> Result<List<Txt>, NoMemory>
    ensures { IfOk result (λ names. names ≡ place.key_names defs.now table) }
{
    let columns = columns_at(defs, table);
    let mut names = Vec::new(alloc);
    for at in key_places(defs, table) {
        names.push(column_name(alloc, columns, *at as usize)?)?;
    }
    Ok(List::of(names))
}
