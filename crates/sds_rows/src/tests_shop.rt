//! A shop's tables for tests: items, and sales that refer to an item and to another sale.
use crate::Tables;
use sds_base::{List, NoMemory, Txt};
use sds_types::{Key, Row, RowStep};
use sds_value::{ColumnDef, Kind, TableDef, Value};
use std::alloc::Global;

/// A step in short. An empty text is null.
#[derive(Debug, Drop)]
pub(crate) enum Act {
    Item(i64, &'static str),
    MoveItem(i64, i64, &'static str),
    DropItem(i64),
    Sale(&'static str, i64, &'static str),
    MoveSale(&'static str, &'static str, i64, &'static str),
    DropSale(&'static str),
}

fn column(
    alloc: Global,
    name: &str,
    kind: Kind,
    not_null: bool,
    parent: Option<u32>,
) -> Result<ColumnDef, NoMemory> {
    Ok(ColumnDef {
        name: Txt::copied(alloc, name)?,
        kind,
        not_null,
        parent,
    })
}

fn table(alloc: Global, name: &str, columns: List<ColumnDef>) -> Result<TableDef, NoMemory> {
    let mut key = List::new(alloc);
    key.push(0)?;
    Ok(TableDef {
        name: Txt::copied(alloc, name)?,
        columns,
        key,
    })
}

/// The tables item and sale, without rows.
pub(crate) fn shop_tables(alloc: Global) -> Result<Tables, NoMemory> {
    let mut item = List::new(alloc);
    item.push(column(alloc, "id", Kind::Integer, true, None)?)?;
    item.push(column(alloc, "name", Kind::Varchar(50), true, None)?)?;
    let mut sale = List::new(alloc);
    sale.push(column(alloc, "id", Kind::Varchar(20), true, None)?)?;
    sale.push(column(alloc, "item", Kind::Integer, true, Some(0))?)?;
    sale.push(column(alloc, "follows", Kind::Varchar(20), false, Some(1))?)?;
    let mut defs = List::new(alloc);
    defs.push(table(alloc, "item", item)?)?;
    defs.push(table(alloc, "sale", sale)?)?;
    Tables::new(alloc, &defs)
}

fn text(alloc: Global, text: &str) -> Result<Value, NoMemory> {
    if text.is_empty() {
        return Ok(Value::Null);
    }
    Ok(Value::Text(Txt::copied(alloc, text)?))
}

fn item(alloc: Global, id: i64, name: &str) -> Result<Row, NoMemory> {
    let mut values = List::new(alloc);
    values.push(Value::Integer(id))?;
    values.push(text(alloc, name)?)?;
    Ok(Row(values))
}

fn sale(alloc: Global, id: &str, item: i64, follows: &str) -> Result<Row, NoMemory> {
    let mut values = List::new(alloc);
    values.push(text(alloc, id)?)?;
    values.push(Value::Integer(item))?;
    values.push(text(alloc, follows)?)?;
    Ok(Row(values))
}

/// The key of one value.
pub(crate) fn key(alloc: Global, value: Value) -> Result<Key, NoMemory> {
    let mut values = List::new(alloc);
    values.push(value)?;
    Ok(Key(values))
}

/// The step that is meant.
pub(crate) fn step_of(alloc: Global, act: &Act) -> Result<RowStep, NoMemory> {
    match act {
        Act::Item(id, name) => Ok(RowStep::Insert {
            table: 0,
            row: item(alloc, *id, name)?,
        }),
        Act::MoveItem(old, id, name) => Ok(RowStep::Update {
            table: 0,
            key: key(alloc, Value::Integer(*old))?,
            row: item(alloc, *id, name)?,
        }),
        Act::DropItem(id) => Ok(RowStep::Delete {
            table: 0,
            key: key(alloc, Value::Integer(*id))?,
        }),
        Act::Sale(id, item, follows) => Ok(RowStep::Insert {
            table: 1,
            row: sale(alloc, id, *item, follows)?,
        }),
        Act::MoveSale(old, id, item, follows) => Ok(RowStep::Update {
            table: 1,
            key: key(alloc, text(alloc, old)?)?,
            row: sale(alloc, id, *item, follows)?,
        }),
        Act::DropSale(id) => Ok(RowStep::Delete {
            table: 1,
            key: key(alloc, text(alloc, id)?)?,
        }),
    }
}

/// The values of all rows, in their order.
pub(crate) fn dump(alloc: Global, tables: &Tables) -> Result<String, NoMemory> {
    let mut out = String::new(alloc);
    for table in 0..2 {
        for row in tables.rows(alloc, table)? {
            out.push_str(&format!(in alloc; "{row:?}\n")?)?;
        }
    }
    Ok(out)
}
