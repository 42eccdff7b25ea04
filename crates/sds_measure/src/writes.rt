//! The own write that is measured: sales of one item, each of which refers to it.
ghost use Rattle.std.specs.Prelude.{◌≡◌, IfOk};

use sds_base::{List, NoMemory, Txt};
use sds_capture::{TxRow, run_write};
use sds_rows::Tables;
use sds_types::Config;
use sds_types::limits::MOST_WRITE_ROWS;
use sds_value::{ColumnDef, Event, Field, Kind, TableDef};
use std::alloc::Global;

fn column(
    alloc: Global,
    name: &str,
    kind: Kind,
    parent: Option<u32>,
) -> Result<ColumnDef, NoMemory> {
    Ok(ColumnDef {
        name: Txt::copied(alloc, name)?,
        kind,
        not_null: true,
        parent,
    })
}

fn table(alloc: Global, name: &str, columns: List<ColumnDef>) -> Result<TableDef, NoMemory> {
    let mut key = List::new(alloc);
    key.push(0)?;
    Ok(TableDef {
        name: Txt::copied(alloc, name)?,
        columns,
        key,
    })
}

/// A configuration of items, and of sales that refer to one.
pub(crate) fn config(alloc: Global) -> Result<Config, NoMemory> {
    let mut item = List::new(alloc);
    item.push(column(alloc, "id", Kind::Integer, None)?)?;
    let mut sale = List::new(alloc);
    sale.push(column(alloc, "id", Kind::Varchar(20), None)?)?;
    sale.push(column(alloc, "item_id", Kind::Integer, Some(0))?)?;
    sale.push(column(alloc, "qty", Kind::Integer, None)?)?;
    let mut tables = List::new(alloc);
    tables.push(table(alloc, "item", item)?)?;
    tables.push(table(alloc, "sale", sale)?)?;
    Ok(Config {
        groups: List::new(alloc),
        links: List::new(alloc),
        channels: List::new(alloc),
        tables,
        triggers: List::new(alloc),
        routers: List::new(alloc),
        trigger_routers: List::new(alloc),
        transforms: List::new(alloc),
        conflicts: List::new(alloc),
    })
}

fn insert(alloc: Global, table: &str, values: &[&str]) -> Result<TxRow, NoMemory> {
    let mut fields = List::new(alloc);
    for value in values {
        fields.push(Field::Text(Txt::copied(alloc, value)?))?;
    }
    Ok(TxRow {
        event: Event::Insert,
        table: Txt::copied(alloc, table)?,
        fields,
    })
}

/// Inserts of so many sales of the item 1.
fn sales(alloc: Global, count: u32) -> Result<Vec<TxRow>, NoMemory> {
    let mut tx = Vec::new(alloc);
    for number in 0..count {
        let id = format!(in alloc; "s1-{number}")?;
        tx.push(insert(alloc, "sale", &[id.as_str(), "1", "2"])?)?;
    }
    Ok(tx)
}

/// Inserts an item, and then so many sales of it as one transaction, and tells how many of these
/// stand after it.
pub(crate) fn write_rows(alloc: Global, count: u32) -> Result<u32, NoMemory> {
    let config = config(alloc)?;
    let mut tables = Tables::new(alloc, &config.tables)?;
    let item = [insert(alloc, "item", &["1"])?];
    let _ = run_write(alloc, &config, "store", &mut tables, &item, 0);
    let tx = sales(alloc, count)?;
    if tx.len() > MOST_WRITE_ROWS {
        return Ok(0);
    }
    let _ = run_write(alloc, &config, "store", &mut tables, tx.as_slice(), 0);
    Ok(tables.count().saturating_sub(1))
}
