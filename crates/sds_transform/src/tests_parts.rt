//! What the tests of transforms share: configurations with transforms, rows, and rows in words.
use sds_base::{List, NoMemory, Txt};
use sds_types::{
    ColumnExpression, ColumnKind, ColumnPolicy, Config, DeleteAction, MapPair, NodeWord, Point,
    Shaped, Substring, TransformColumn, TransformDef, Way,
};
use sds_value::{ColumnDef, DocRow, Event, Field, Kind, TableDef};
use std::alloc::Global;

/// What a column computes.
#[derive(Clone, Copy, Debug)]
pub(crate) enum Part {
    Copy,
    Remove,
    Const(&'static str),
    Left(u32),
    Substr(u32, Option<u32>),
    /// Two pairs: the source and the target of each.
    Map(&'static str, &'static str, &'static str, &'static str),
    Variable(NodeWord),
    Additive(i32),
}

/// A column of a transform: its target, its source, whether it is a key, its events, and what it
/// computes.
pub(crate) type Column = (&'static str, &'static str, bool, &'static str, Part);

/// A row of the table `t` with the key `id` and the columns `id`, `a` and `b`.
#[derive(Clone, Copy, Debug)]
pub(crate) struct Given {
    pub(crate) event: Event,
    pub(crate) key: &'static str,
    pub(crate) new: [Option<&'static str>; 3],
    pub(crate) old: [Option<&'static str>; 3],
    pub(crate) has_old: bool,
}

fn pair(alloc: Global, source: &str, target: &str) -> Result<MapPair, NoMemory> {
    Ok(MapPair {
        source: Txt::copied(alloc, source)?,
        target: Txt::copied(alloc, target)?,
    })
}

fn pairs(alloc: Global, first: MapPair, second: MapPair) -> Result<List<MapPair>, NoMemory> {
    let mut pairs = List::new(alloc);
    pairs.push(first)?;
    pairs.push(second)?;
    Ok(pairs)
}

fn parsed(alloc: Global, part: Part) -> Result<(ColumnKind, ColumnExpression), NoMemory> {
    Ok(match part {
        Part::Copy => (ColumnKind::Copy, ColumnExpression::Unused),
        Part::Remove => (ColumnKind::Remove, ColumnExpression::Unused),
        Part::Const(text) => (
            ColumnKind::Const,
            ColumnExpression::Const(Txt::copied(alloc, text)?),
        ),
        Part::Left(count) => (ColumnKind::Left, ColumnExpression::Left(count)),
        Part::Substr(first, end) => (
            ColumnKind::Substr,
            ColumnExpression::Substr(Substring { first, end }),
        ),
        Part::Map(one, into, other, onto) => {
            let first = pair(alloc, one, into)?;
            let second = pair(alloc, other, onto)?;
            (
                ColumnKind::ValueMap,
                ColumnExpression::ValueMap(pairs(alloc, first, second)?),
            )
        }
        Part::Variable(node) => (ColumnKind::Variable, ColumnExpression::Variable(node)),
        Part::Additive(factor) => (ColumnKind::Additive, ColumnExpression::Additive(factor)),
    })
}

fn column(alloc: Global, wanted: &Column) -> Result<TransformColumn, NoMemory> {
    let (target, source, pk, events, part) = *wanted;
    let (kind, parsed) = parsed(alloc, part)?;
    Ok(TransformColumn {
        target: Txt::copied(alloc, target)?,
        source: Txt::copied(alloc, source)?,
        pk,
        include_on: Txt::copied(alloc, events)?,
        kind,
        expression: Txt::copied(alloc, "as it is written")?,
        parsed,
    })
}

/// A transform of the table `t` into the table `u`.
pub(crate) fn transform(
    alloc: Global,
    point: Point,
    policy: ColumnPolicy,
    action: DeleteAction,
    columns: &[Column],
) -> Result<TransformDef, NoMemory> {
    let mut made = List::new(alloc);
    for one in columns {
        made.push(column(alloc, one)?)?;
    }
    Ok(TransformDef {
        id: Txt::copied(alloc, "one")?,
        source_group: 1,
        target_group: 0,
        point,
        source_table: Txt::copied(alloc, "t")?,
        target_table: Txt::copied(alloc, "u")?,
        delete_action: action,
        column_policy: policy,
        columns: made,
    })
}

fn column_def(alloc: Global, name: &str, kind: Kind) -> Result<ColumnDef, NoMemory> {
    Ok(ColumnDef {
        name: Txt::copied(alloc, name)?,
        kind,
        not_null: false,
        parent: None,
    })
}

fn table_def(alloc: Global, name: &str) -> Result<TableDef, NoMemory> {
    let mut columns = List::new(alloc);
    columns.push(column_def(alloc, "id", Kind::Integer)?)?;
    columns.push(column_def(alloc, "a", Kind::Varchar(40))?)?;
    columns.push(column_def(alloc, "b", Kind::Decimal(2))?)?;
    let mut key = List::new(alloc);
    key.push(0)?;
    Ok(TableDef {
        name: Txt::copied(alloc, name)?,
        columns,
        key,
    })
}

/// A configuration of the groups `corp` and `store` and the tables `t` and `u`, with transforms.
pub(crate) fn config(alloc: Global, transforms: List<TransformDef>) -> Result<Config, NoMemory> {
    let mut groups = List::new(alloc);
    groups.push(Txt::copied(alloc, "corp")?)?;
    groups.push(Txt::copied(alloc, "store")?)?;
    let mut tables = List::new(alloc);
    tables.push(table_def(alloc, "t")?)?;
    tables.push(table_def(alloc, "u")?)?;
    Ok(Config {
        groups,
        links: List::new(alloc),
        channels: List::new(alloc),
        tables,
        triggers: List::new(alloc),
        routers: List::new(alloc),
        trigger_routers: List::new(alloc),
        transforms,
        conflicts: List::new(alloc),
    })
}

/// The way from the node `s1` up to `corp`.
pub(crate) fn way(alloc: Global) -> Result<Way, NoMemory> {
    Ok(Way {
        source: Txt::copied(alloc, "s1")?,
        source_group: Txt::copied(alloc, "store")?,
        target: Txt::copied(alloc, "corp")?,
        target_group: Txt::copied(alloc, "corp")?,
    })
}

fn field(alloc: Global, text: Option<&str>) -> Result<Field, NoMemory> {
    match text {
        None => Ok(Field::Null),
        Some(text) => Ok(Field::Text(Txt::copied(alloc, text)?)),
    }
}

fn fields(alloc: Global, texts: [Option<&'static str>; 3]) -> Result<List<Field>, NoMemory> {
    let mut made = List::new(alloc);
    for text in texts {
        made.push(field(alloc, text)?)?;
    }
    Ok(made)
}

/// The row of texts.
pub(crate) fn row_of(alloc: Global, given: Given) -> Result<DocRow, NoMemory> {
    let mut keys = List::new(alloc);
    keys.push(Txt::copied(alloc, "id")?)?;
    let mut columns = List::new(alloc);
    columns.push(Txt::copied(alloc, "id")?)?;
    columns.push(Txt::copied(alloc, "a")?)?;
    columns.push(Txt::copied(alloc, "b")?)?;
    let mut key = List::new(alloc);
    if given.event != Event::Insert {
        key.push(field(alloc, Some(given.key))?)?;
    }
    Ok(DocRow {
        event: given.event,
        table: Txt::copied(alloc, "t")?,
        keys,
        columns,
        new: if given.event == Event::Delete {
            List::new(alloc)
        } else {
            fields(alloc, given.new)?
        },
        key,
        old: if given.has_old {
            Some(fields(alloc, given.old)?)
        } else {
            None
        },
    })
}

fn put_field(field: Option<&Field>, out: &mut String) -> Result<(), NoMemory> {
    match field {
        None => out.push_str("nothing")?,
        Some(Field::Null) => out.push_str("null")?,
        Some(Field::Text(text)) => {
            out.push('\'')?;
            out.push_str(text.as_str())?;
            out.push('\'')?;
        }
    }
    Ok(())
}

fn put_names(names: &List<Txt>, out: &mut String) -> Result<(), NoMemory> {
    for name in names.inner() {
        out.push(' ')?;
        out.push_str(name.as_str())?;
    }
    Ok(())
}

fn put_fields(fields: &List<Field>, out: &mut String) -> Result<(), NoMemory> {
    for field in fields.inner() {
        out.push(' ')?;
        put_field(Some(field), out)?;
    }
    Ok(())
}

/// Adds a row in words.
pub(crate) fn put_row(row: &DocRow, out: &mut String) -> Result<(), NoMemory> {
    out.push_str(match row.event {
        Event::Insert => "insert ",
        Event::Update => "update ",
        Event::Delete => "delete ",
    })?;
    out.push_str(row.table.as_str())?;
    out.push_str(" keys")?;
    put_names(&row.keys, out)?;
    put_fields(&row.key, out)?;
    out.push_str("; columns")?;
    put_names(&row.columns, out)?;
    put_fields(&row.new, out)?;
    if let Some(old) = &row.old {
        out.push_str("; old")?;
        put_fields(old, out)?;
    }
    Ok(())
}

/// Rows in words, each with what is added to its columns.
pub(crate) fn told(alloc: Global, rows: &[Shaped]) -> Result<String, NoMemory> {
    let mut out = String::new(alloc);
    for (place, shaped) in rows.iter().enumerate() {
        if place > 0 {
            out.push_str(" | ")?;
        }
        put_row(&shaped.row, &mut out)?;
        for add in shaped.adds.inner() {
            let column = add.column.to_string(alloc)?;
            let factor = add.multiplier.to_string(alloc)?;
            out.push_str("; adds ")?;
            out.push_str(column.as_str())?;
            out.push_str(" by ")?;
            out.push_str(factor.as_str())?;
        }
    }
    Ok(out)
}
