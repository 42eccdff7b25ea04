//! What the tests of batches share: a configuration, ways and batches from words, and prepared
//! batches in words.
use sds_base::{List, NoMemory, Txt};
use sds_types::{
    Algorithm, ChannelDef, ColumnExpression, ColumnKind, ColumnPolicy, Config, ConflictDef,
    DeleteAction, DetectType, Point, ResolveType, TransformColumn, TransformDef, Way,
};
use sds_value::{ColumnDef, DocRow, Event, Field, Kind, TableDef};
use std::alloc::Global;

/// The names in a word, between commas.
fn names(alloc: Global, word: &str) -> Result<List<Txt>, NoMemory> {
    let mut names = List::new(alloc);
    for name in word.split(',') {
        names.push(Txt::copied(alloc, name)?)?;
    }
    Ok(names)
}

fn channel(alloc: Global, id: &str) -> Result<ChannelDef, NoMemory> {
    Ok(ChannelDef {
        id: Txt::copied(alloc, id)?,
        processing_order: 1,
        max_batch_size: 1,
        max_batch_to_send: 1,
        batch_algorithm: Algorithm::Default,
    })
}

fn column(alloc: Global, name: &str, kind: Kind) -> Result<ColumnDef, NoMemory> {
    Ok(ColumnDef {
        name: Txt::copied(alloc, name)?,
        kind,
        not_null: false,
        parent: None,
    })
}

/// A table of the columns `id`, its key, `name`, of so many characters, `price` and `code`.
fn table(alloc: Global, name: &str, longest: u16) -> Result<TableDef, NoMemory> {
    let mut columns = List::new(alloc);
    columns.push(column(alloc, "id", Kind::Integer)?)?;
    columns.push(column(alloc, "name", Kind::Varchar(longest))?)?;
    columns.push(column(alloc, "price", Kind::Decimal(2))?)?;
    columns.push(column(alloc, "code", Kind::Varbinary(2))?)?;
    let mut key = List::new(alloc);
    key.push(0)?;
    Ok(TableDef {
        name: Txt::copied(alloc, name)?,
        columns,
        key,
    })
}

fn made(
    alloc: Global,
    name: &str,
    kind: ColumnKind,
    parsed: ColumnExpression,
) -> Result<TransformColumn, NoMemory> {
    Ok(TransformColumn {
        target: Txt::copied(alloc, name)?,
        source: Txt::copied(alloc, name)?,
        pk: false,
        include_on: Txt::copied(alloc, "*")?,
        kind,
        expression: Txt::copied(alloc, "as it is written")?,
        parsed,
    })
}

/// A transform at LOAD of the table `w` from the stores up to the centre, of two columns beside the
/// key.
fn transform(
    alloc: Global,
    target: &str,
    action: DeleteAction,
    last: TransformColumn,
) -> Result<TransformDef, NoMemory> {
    let mut columns = List::new(alloc);
    let mut key = made(alloc, "id", ColumnKind::Copy, ColumnExpression::Unused)?;
    key.pk = true;
    columns.push(key)?;
    let name = made(alloc, "name", ColumnKind::Copy, ColumnExpression::Unused)?;
    columns.push(name)?;
    columns.push(last)?;
    Ok(TransformDef {
        id: Txt::copied(alloc, target)?,
        source_group: 1,
        target_group: 0,
        point: Point::Load,
        source_table: Txt::copied(alloc, "w")?,
        target_table: Txt::copied(alloc, target)?,
        delete_action: action,
        column_policy: ColumnPolicy::Specified,
        columns,
    })
}

fn conflict(source_group: u32, target_group: u32, target_table: u32) -> ConflictDef {
    ConflictDef {
        source_group,
        target_group,
        target_table,
        detect_type: DetectType::UseOldData,
        detect_expression: None,
        resolve_type: ResolveType::Fallback,
        resolve_row_only: false,
    }
}

/// The settings: of `u` from a store up, of `t` down to a store, of `t` from a shop up, and of `v`
/// from a store up.
fn conflicts(alloc: Global) -> Result<List<ConflictDef>, NoMemory> {
    let mut conflicts = List::new(alloc);
    conflicts.push(conflict(1, 0, 1))?;
    conflicts.push(conflict(0, 1, 0))?;
    conflicts.push(conflict(2, 0, 0))?;
    conflicts.push(conflict(1, 0, 2))?;
    Ok(conflicts)
}

/// From a store up the table `w` goes into `t`, and into `u`, where twice its price is added and
/// deletes are dropped.
fn transforms(alloc: Global) -> Result<List<TransformDef>, NoMemory> {
    let code = made(alloc, "code", ColumnKind::Copy, ColumnExpression::Unused)?;
    let price = made(
        alloc,
        "price",
        ColumnKind::Additive,
        ColumnExpression::Additive(2),
    )?;
    let mut transforms = List::new(alloc);
    transforms.push(transform(alloc, "t", DeleteAction::DelRow, code)?)?;
    transforms.push(transform(alloc, "u", DeleteAction::Nothing, price)?)?;
    Ok(transforms)
}

/// A configuration of the groups `corp`, `store` and `shop`, the channels `sale` and `stock`, and
/// the tables `t`, `u` and `v`, of which the second has the shortest names.
pub(crate) fn config(alloc: Global) -> Result<Config, NoMemory> {
    let mut channels = List::new(alloc);
    channels.push(channel(alloc, "sale")?)?;
    channels.push(channel(alloc, "stock")?)?;
    let mut tables = List::new(alloc);
    tables.push(table(alloc, "t", 4)?)?;
    tables.push(table(alloc, "u", 2)?)?;
    tables.push(table(alloc, "v", 4)?)?;
    Ok(Config {
        groups: names(alloc, "corp,store,shop")?,
        links: List::new(alloc),
        channels,
        tables,
        triggers: List::new(alloc),
        routers: List::new(alloc),
        trigger_routers: List::new(alloc),
        transforms: transforms(alloc)?,
        conflicts: conflicts(alloc)?,
    })
}

/// The way `up` from a store, `down` to it, or otherwise up from a shop.
pub(crate) fn way(alloc: Global, word: &str) -> Result<Way, NoMemory> {
    let (source, source_group, target, target_group) = match word {
        "up" => ("s1", "store", "c", "corp"),
        "down" => ("c", "corp", "s1", "store"),
        _ => ("p1", "shop", "c", "corp"),
    };
    Ok(Way {
        source: Txt::copied(alloc, source)?,
        source_group: Txt::copied(alloc, source_group)?,
        target: Txt::copied(alloc, target)?,
        target_group: Txt::copied(alloc, target_group)?,
    })
}

/// The fields in a word, between commas; `.` is none.
fn fields(alloc: Global, word: &str) -> Result<List<Field>, NoMemory> {
    let mut fields = List::new(alloc);
    if word != "." {
        for text in word.split(',') {
            fields.push(Field::Text(Txt::copied(alloc, text)?))?;
        }
    }
    Ok(fields)
}

/// The row of words: its event, its table, its columns, its new fields and its key's fields.
pub(crate) fn row(alloc: Global, text: &str) -> Result<DocRow, NoMemory> {
    let mut words = text.split(' ');
    Ok(DocRow {
        event: match words.next().unwrap_or("") {
            "insert" => Event::Insert,
            "update" => Event::Update,
            _ => Event::Delete,
        },
        table: Txt::copied(alloc, words.next().unwrap_or(""))?,
        keys: names(alloc, "id")?,
        columns: names(alloc, words.next().unwrap_or(""))?,
        new: fields(alloc, words.next().unwrap_or("."))?,
        key: fields(alloc, words.next().unwrap_or("."))?,
        old: None,
    })
}
