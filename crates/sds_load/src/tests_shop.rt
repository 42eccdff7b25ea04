//! A shop for tests of loading: its tables, its conflict settings, its triggers and transforms.

use sds_base::{List, NoMemory, Txt};
use sds_types::{
    Algorithm, ChannelDef, ColumnExpression, ColumnKind, ColumnPolicy, Config, ConflictDef,
    DeleteAction, DetectType, MapPair, Point, ResolveType, RouterDef, RouterExpression, RouterKind,
    Substring, TransformColumn, TransformDef, TriggerDef, TriggerRouterDef,
};
use sds_value::{ColumnDef, Kind, TableDef};
use std::alloc::Global;

/// The columns `id`, which is the key, and others, each of which is optional.
fn columns(
    alloc: Global,
    id: Kind,
    parent: Option<u32>,
    others: &[(&str, Kind)],
) -> Result<List<ColumnDef>, NoMemory> {
    let mut columns = List::new(alloc);
    columns.push(ColumnDef {
        name: Txt::copied(alloc, "id")?,
        kind: id,
        not_null: true,
        parent,
    })?;
    for (name, kind) in others {
        columns.push(ColumnDef {
            name: Txt::copied(alloc, name)?,
            kind: *kind,
            not_null: false,
            parent: None,
        })?;
    }
    Ok(columns)
}

fn table(alloc: Global, name: &str, columns: List<ColumnDef>) -> Result<TableDef, NoMemory> {
    let mut key = List::new(alloc);
    key.push(0)?;
    Ok(TableDef {
        name: Txt::copied(alloc, name)?,
        columns,
        key,
    })
}

/// Sales by id, each with its item.
fn sale(alloc: Global) -> Result<TableDef, NoMemory> {
    let mut sale = columns(alloc, Kind::Varchar(5), None, &[])?;
    sale.push(ColumnDef {
        name: Txt::copied(alloc, "item")?,
        kind: Kind::Integer,
        not_null: true,
        parent: Some(0),
    })?;
    table(alloc, "sale", sale)
}

/// Items with their names and prices, sales and stocks of them, losses, a table for each
/// resolution of conflicts, and pieces of texts.
fn tables(alloc: Global) -> Result<List<TableDef>, NoMemory> {
    let mut item = columns(alloc, Kind::Integer, None, &[])?;
    item.push(ColumnDef {
        name: Txt::copied(alloc, "name")?,
        kind: Kind::Varchar(5),
        not_null: true,
        parent: None,
    })?;
    item.push(ColumnDef {
        name: Txt::copied(alloc, "price")?,
        kind: Kind::Decimal(2),
        not_null: false,
        parent: None,
    })?;
    let count = ("qty", Kind::Integer);
    let stock = columns(alloc, Kind::Integer, Some(0), &[count])?;
    let loss = columns(alloc, Kind::Integer, None, &[count])?;
    let mut defs = List::new(alloc);
    defs.push(table(alloc, "item", item)?)?;
    defs.push(sale(alloc)?)?;
    defs.push(table(alloc, "stock", stock)?)?;
    defs.push(table(alloc, "loss", loss)?)?;
    let named = [("name", Kind::Varchar(5)), ("set", Kind::Timestamp)];
    for name in ["skips", "drops", "asks", "newer"] {
        let columns = columns(alloc, Kind::Integer, None, &named)?;
        defs.push(table(alloc, name, columns)?)?;
    }
    let text = Kind::Varchar(6);
    let texts = [
        ("a", text),
        ("b", text),
        ("c", text),
        ("d", text),
        ("e", text),
        ("f", text),
    ];
    let piece = columns(alloc, Kind::Integer, None, &texts)?;
    defs.push(table(alloc, "piece", piece)?)?;
    Ok(defs)
}

/// The setting of the table at a place, for what comes from a store.
fn conflict(table: u32, resolve_type: ResolveType, resolve_row_only: bool) -> ConflictDef {
    let by_time = resolve_type == ResolveType::NewerWins;
    ConflictDef {
        source_group: 1,
        target_group: 0,
        target_table: table,
        detect_type: if by_time {
            DetectType::UseTimestamp
        } else {
            DetectType::UsePkData
        },
        detect_expression: if by_time { Some(2) } else { None },
        resolve_type,
        resolve_row_only,
    }
}

fn conflicts(alloc: Global) -> Result<List<ConflictDef>, NoMemory> {
    let mut conflicts = List::new(alloc);
    conflicts.push(conflict(4, ResolveType::Ignore, true))?;
    conflicts.push(conflict(5, ResolveType::Ignore, false))?;
    conflicts.push(conflict(6, ResolveType::Manual, false))?;
    conflicts.push(conflict(7, ResolveType::NewerWins, false))?;
    Ok(conflicts)
}

/// The trigger on a table, which captures inserts and updates.
fn trigger(
    alloc: Global,
    id: &str,
    table: u32,
    sync_on_incoming_batch: bool,
) -> Result<TriggerDef, NoMemory> {
    Ok(TriggerDef {
        id: Txt::copied(alloc, id)?,
        source_table: table,
        channel: 0,
        sync_on_insert: true,
        sync_on_update: true,
        sync_on_delete: false,
        sync_on_incoming_batch,
    })
}

/// Items are captured where a batch brings them too, sales are not.
fn triggers(alloc: Global) -> Result<List<TriggerDef>, NoMemory> {
    let mut triggers = List::new(alloc);
    triggers.push(trigger(alloc, "item", 0, true)?)?;
    triggers.push(trigger(alloc, "sale", 1, false)?)?;
    Ok(triggers)
}

fn joins(alloc: Global) -> Result<List<TriggerRouterDef>, NoMemory> {
    let mut joins = List::new(alloc);
    for trigger in [0, 1] {
        joins.push(TriggerRouterDef {
            trigger,
            router: 0,
            enabled: true,
            ping_back_enabled: false,
        })?;
    }
    Ok(joins)
}

fn routers(alloc: Global) -> Result<List<RouterDef>, NoMemory> {
    let mut routers = List::new(alloc);
    routers.push(RouterDef {
        id: Txt::copied(alloc, "down")?,
        source_group: 0,
        target_group: 1,
        kind: RouterKind::Default,
        expression: Txt::copied(alloc, "")?,
        parsed: RouterExpression::Everything,
    })?;
    Ok(routers)
}

fn made(
    alloc: Global,
    target: &str,
    source: &str,
    kind: ColumnKind,
    parsed: ColumnExpression,
) -> Result<TransformColumn, NoMemory> {
    Ok(TransformColumn {
        target: Txt::copied(alloc, target)?,
        source: Txt::copied(alloc, source)?,
        pk: target == "id",
        include_on: Txt::copied(alloc, "*")?,
        kind,
        expression: Txt::copied(alloc, "as it is written")?,
        parsed,
    })
}

/// A transform of what comes from a store, as it is loaded.
fn transform(
    alloc: Global,
    source: &str,
    target: &str,
    column_policy: ColumnPolicy,
    columns: List<TransformColumn>,
) -> Result<TransformDef, NoMemory> {
    Ok(TransformDef {
        id: Txt::copied(alloc, target)?,
        source_group: 1,
        target_group: 0,
        point: Point::Load,
        source_table: Txt::copied(alloc, source)?,
        target_table: Txt::copied(alloc, target)?,
        delete_action: DeleteAction::DelRow,
        column_policy,
        columns,
    })
}

/// The table's quantity is added so many times.
fn adding(alloc: Global, table: &str, times: i32) -> Result<TransformDef, NoMemory> {
    let says = ColumnExpression::Additive(times);
    let mut columns = List::new(alloc);
    columns.push(made(alloc, "qty", "qty", ColumnKind::Additive, says)?)?;
    transform(alloc, table, table, ColumnPolicy::Implied, columns)
}

/// Pairs go into a table with their id and name.
fn pairs(alloc: Global, target: &str) -> Result<TransformDef, NoMemory> {
    let mut columns = List::new(alloc);
    for name in ["id", "name"] {
        let says = ColumnExpression::Unused;
        columns.push(made(alloc, name, name, ColumnKind::Copy, says)?)?;
    }
    transform(alloc, "pair", target, ColumnPolicy::Specified, columns)
}

fn substring(
    alloc: Global,
    target: &str,
    first: u32,
    end: Option<u32>,
) -> Result<TransformColumn, NoMemory> {
    let says = ColumnExpression::Substr(Substring { first, end });
    made(alloc, target, "text", ColumnKind::Substr, says)
}

/// `a=1 *=9`.
fn letters(alloc: Global) -> Result<ColumnExpression, NoMemory> {
    let mut pairs = List::new(alloc);
    for (source, target) in [("a", "1"), ("*", "9")] {
        pairs.push(MapPair {
            source: Txt::copied(alloc, source)?,
            target: Txt::copied(alloc, target)?,
        })?;
    }
    Ok(ColumnExpression::ValueMap(pairs))
}

/// Words go into pieces: four substrings of the text, its first two characters, and what stands
/// for the letter.
fn pieces(alloc: Global) -> Result<TransformDef, NoMemory> {
    let mut columns = List::new(alloc);
    let says = ColumnExpression::Unused;
    columns.push(made(alloc, "id", "id", ColumnKind::Copy, says)?)?;
    columns.push(substring(alloc, "a", 2, Some(4))?)?;
    columns.push(substring(alloc, "b", 4, Some(9))?)?;
    columns.push(substring(alloc, "c", 4, Some(2))?)?;
    columns.push(substring(alloc, "d", 9, None)?)?;
    let says = ColumnExpression::Left(2);
    columns.push(made(alloc, "e", "text", ColumnKind::Left, says)?)?;
    let says = letters(alloc)?;
    columns.push(made(alloc, "f", "letter", ColumnKind::ValueMap, says)?)?;
    transform(alloc, "word", "piece", ColumnPolicy::Specified, columns)
}

fn transforms(alloc: Global) -> Result<List<TransformDef>, NoMemory> {
    let mut transforms = List::new(alloc);
    transforms.push(adding(alloc, "stock", 1)?)?;
    transforms.push(adding(alloc, "loss", -2)?)?;
    transforms.push(pairs(alloc, "item")?)?;
    transforms.push(pairs(alloc, "skips")?)?;
    transforms.push(pieces(alloc)?)?;
    Ok(transforms)
}

/// The shop's configuration: the groups corp and store, and one channel.
pub(crate) fn shop(alloc: Global) -> Result<Config, NoMemory> {
    let mut groups = List::new(alloc);
    groups.push(Txt::copied(alloc, "corp")?)?;
    groups.push(Txt::copied(alloc, "store")?)?;
    let mut channels = List::new(alloc);
    channels.push(ChannelDef {
        id: Txt::copied(alloc, "all")?,
        processing_order: 1,
        max_batch_size: 1,
        max_batch_to_send: 1,
        batch_algorithm: Algorithm::Default,
    })?;
    Ok(Config {
        groups,
        links: List::new(alloc),
        channels,
        tables: tables(alloc)?,
        triggers: triggers(alloc)?,
        routers: routers(alloc)?,
        trigger_routers: joins(alloc)?,
        transforms: transforms(alloc)?,
        conflicts: conflicts(alloc)?,
    })
}
