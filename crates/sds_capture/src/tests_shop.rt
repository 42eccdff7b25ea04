//! A shop for tests: items, the sales of them, and lots; own writes in words, and their answers.
ghost use Rattle.std.specs.Prelude.{◌≡◌, IfOk};

use crate::{Broken, Done, TxRow, run_write};
use sds_base::{List, NoMemory, Txt};
use sds_rows::Tables;
use sds_types::{
    Config, RouterDef, RouterExpression, RouterKind, Row, RowStep, TriggerDef, TriggerRouterDef,
};
use sds_value::{ColumnDef, Event, Field, Kind, TableDef, Value};
use std::alloc::Global;

fn column(
    alloc: Global,
    name: &str,
    kind: Kind,
    not_null: bool,
    parent: Option<u32>,
) -> Result<ColumnDef, NoMemory> {
    Ok(ColumnDef {
        name: Txt::copied(alloc, name)?,
        kind,
        not_null,
        parent,
    })
}

fn table(
    alloc: Global,
    name: &str,
    columns: List<ColumnDef>,
    places: &[u32],
) -> Result<TableDef, NoMemory> {
    let mut key = List::new(alloc);
    for place in places {
        key.push(*place)?;
    }
    Ok(TableDef {
        name: Txt::copied(alloc, name)?,
        columns,
        key,
    })
}

/// Items by id, sales by id with their item and the sale that they follow, and lots by item and
/// number, whose columns stand in the other order.
fn tables(alloc: Global) -> Result<List<TableDef>, NoMemory> {
    let mut item = List::new(alloc);
    item.push(column(alloc, "id", Kind::Integer, true, None)?)?;
    item.push(column(alloc, "name", Kind::Varchar(5), true, None)?)?;
    item.push(column(alloc, "price", Kind::Decimal(2), false, None)?)?;
    let mut sale = List::new(alloc);
    sale.push(column(alloc, "id", Kind::Varchar(5), true, None)?)?;
    sale.push(column(alloc, "item", Kind::Integer, true, Some(0))?)?;
    sale.push(column(alloc, "follows", Kind::Varchar(5), false, Some(1))?)?;
    let mut lot = List::new(alloc);
    lot.push(column(alloc, "no", Kind::Integer, true, None)?)?;
    lot.push(column(alloc, "item", Kind::Integer, true, Some(0))?)?;
    lot.push(column(alloc, "note", Kind::Varchar(5), false, None)?)?;
    let mut defs = List::new(alloc);
    defs.push(table(alloc, "item", item, &[0])?)?;
    defs.push(table(alloc, "sale", sale, &[0])?)?;
    defs.push(table(alloc, "lot", lot, &[1, 0])?)?;
    Ok(defs)
}

/// The trigger on items, which captures inserts and updates.
fn trigger(alloc: Global) -> Result<TriggerDef, NoMemory> {
    Ok(TriggerDef {
        id: Txt::copied(alloc, "item")?,
        source_table: 0,
        channel: 0,
        sync_on_insert: true,
        sync_on_update: true,
        sync_on_delete: false,
        sync_on_incoming_batch: false,
    })
}

fn router(alloc: Global) -> Result<RouterDef, NoMemory> {
    Ok(RouterDef {
        id: Txt::copied(alloc, "down")?,
        source_group: 0,
        target_group: 1,
        kind: RouterKind::Default,
        expression: Txt::copied(alloc, "")?,
        parsed: RouterExpression::Everything,
    })
}

/// The shop: at the group corp, inserts and updates of items are captured.
pub(crate) fn shop(alloc: Global) -> Result<Config, NoMemory> {
    let mut groups = List::new(alloc);
    groups.push(Txt::copied(alloc, "corp")?)?;
    groups.push(Txt::copied(alloc, "store")?)?;
    let mut triggers = List::new(alloc);
    triggers.push(trigger(alloc)?)?;
    let mut routers = List::new(alloc);
    routers.push(router(alloc)?)?;
    let mut joins = List::new(alloc);
    joins.push(TriggerRouterDef {
        trigger: 0,
        router: 0,
        enabled: true,
        ping_back_enabled: false,
    })?;
    Ok(Config {
        groups,
        links: List::new(alloc),
        channels: List::new(alloc),
        tables: tables(alloc)?,
        triggers,
        routers,
        trigger_routers: joins,
        transforms: List::new(alloc),
        conflicts: List::new(alloc),
    })
}

fn event_of(word: &str) -> Event {
    match word {
        "insert" => Event::Insert,
        "update" => Event::Update,
        _ => Event::Delete,
    }
}

/// A row of a write: its event, its table and its fields, of which an empty one is null.
fn row_of(alloc: Global, text: &str) -> Result<TxRow, NoMemory> {
    let mut event = Event::Delete;
    let mut table = Txt::copied(alloc, "")?;
    let mut fields = List::new(alloc);
    for (place, word) in text.split(',').enumerate() {
        match place {
            0 => event = event_of(word),
            1 => table = Txt::copied(alloc, word)?,
            _ if word.is_empty() => fields.push(Field::Null)?,
            _ => fields.push(Field::Text(Txt::copied(alloc, word)?))?,
        }
    }
    Ok(TxRow {
        event,
        table,
        fields,
    })
}

/// The rows of a write, each after a slash.
pub(crate) fn rows_of(alloc: Global, text: &str) -> Result<Vec<TxRow>, NoMemory> {
    let mut rows = Vec::new(alloc);
    for (place, row) in text.split('/').enumerate() {
        if place > 0 {
            rows.push(row_of(alloc, row)?)?;
        }
    }
    Ok(rows)
}

fn put_value(alloc: Global, out: &mut String, value: &Value) -> Result<(), NoMemory> {
    match value {
        Value::Integer(number) => out.push_str(number.to_string(alloc)?.as_str())?,
        Value::Decimal(units) => out.push_str(units.to_string(alloc)?.as_str())?,
        Value::Text(text) => out.push_str(text.as_str())?,
        _ => out.push('-')?,
    }
    Ok(())
}

/// Adds a row's values, a decimal as its units.
pub(crate) fn put_row(alloc: Global, out: &mut String, row: &Row) -> Result<(), NoMemory> {
    for value in row.0.inner() {
        out.push(' ')?;
        put_value(alloc, out, value)?;
    }
    Ok(())
}

/// Adds a step that was made, with the row that stood before it.
fn put_done(alloc: Global, out: &mut String, done: &Done) -> Result<(), NoMemory> {
    out.push_str(match done.step {
        RowStep::Insert { .. } => ", insert",
        RowStep::Update { .. } => ", update",
        RowStep::Delete { .. } => ", delete",
    })?;
    match &done.step {
        RowStep::Insert { row, .. } | RowStep::Update { row, .. } => put_row(alloc, out, row)?,
        RowStep::Delete { .. } => {}
    }
    if let Some(old) = &done.old {
        out.push_str(" for")?;
        put_row(alloc, out, old)?;
    }
    Ok(())
}

/// How a write at corp ends, where so many changes wait.
fn answer(
    alloc: Global,
    config: &Config,
    tables: &mut Tables,
    waiting: u32,
    write: &str,
) -> Result<String, NoMemory>
    requires { tables.old.defs ≡ config.now.tables }
    ensures { tables.new.defs ≡ config.now.tables }
{
    let tx = rows_of(alloc, write)?;
    if tx.len() > 10_000 {
        return Err(NoMemory);
    }
    let mut out = String::new(alloc);
    match run_write(alloc, config, "corp", tables, &tx, waiting) {
        Ok(dones) => {
            out.push_str("done")?;
            for done in dones.inner() {
                put_done(alloc, &mut out, done)?;
            }
        }
        Err(Broken::Rule { row, rule }) => {
            out.push_str(row.to_string(alloc)?.as_str())?;
            out.push(' ')?;
            out.push_str(rule.name())?;
        }
        Err(Broken::NoMemory) => return Err(NoMemory),
    }
    Ok(out)
}

/// Adds a line: a write, an arrow, and how it really ends.
fn tell(
    alloc: Global,
    out: &mut String,
    config: &Config,
    tables: &mut Tables,
    waiting: u32,
    line: &str,
) -> Result<(), NoMemory>
    requires { tables.old.defs ≡ config.now.tables }
    ensures { tables.new.defs ≡ config.now.tables }
{
    let write = match line.split_once(" -> ") {
        Some((write, _)) => write,
        None => line,
    };
    let ends = answer(alloc, config, tables, waiting, write)?;
    out.push_str(write)?;
    out.push_str(" -> ")?;
    out.push_str(ends.as_str())?;
    out.push('\n')?;
    Ok(())
}

/// The lines where each write is followed by how it really ends, one write after another.
pub(crate) fn told(
    alloc: Global,
    config: &Config,
    tables: &mut Tables,
    waiting: u32,
    lines: &[&str],
) -> Result<String, NoMemory>
    requires { tables.old.defs ≡ config.now.tables }
    ensures { tables.new.defs ≡ config.now.tables }
{
    let mut out = String::new(alloc);
    for line in lines {
        tell(alloc, &mut out, config, tables, waiting, line)?;
    }
    Ok(out)
}

/// The lines as they stand.
pub(crate) fn due(alloc: Global, lines: &[&str]) -> Result<String, NoMemory> {
    let mut out = String::new(alloc);
    for line in lines {
        out.push_str(line)?;
        out.push('\n')?;
    }
    Ok(out)
}
