//! Batches in words, and how their loads end.
ghost use Rattle.std.specs.Prelude.{◌≡◌, ◌<◌, ◌^◌, IsTrue, length};
ghost use Rattle.sds_load.specs.Bodies.{rows_in};

use crate::tests_parts::way;
use crate::{Outcome, outcome, prepare};
use sds_base::{List, NoMemory, Txt};
use sds_rows::{Done, Tables};
use sds_types::{BatchDoc, Body, Config, Prepared, Row, RowStep};
use sds_value::{Binary, DocRow, Event, Field, Value};
use std::alloc::Global;

fn field(alloc: Global, text: &str) -> Result<Field, NoMemory> {
    if text == "-" {
        return Ok(Field::Null);
    }
    Ok(Field::Text(Txt::copied(alloc, text)?))
}

/// The row of an event on a table, by its key alone.
fn keyed_row(alloc: Global, words: &str) -> Result<DocRow, NoMemory> {
    let mut words = words.split(' ');
    let event = match words.next().unwrap_or("") {
        "insert" => Event::Insert,
        "update" => Event::Update,
        _ => Event::Delete,
    };
    let table = Txt::copied(alloc, words.next().unwrap_or(""))?;
    let key = field(alloc, words.next().unwrap_or(""))?;
    let mut row = DocRow {
        event,
        table,
        keys: List::new(alloc),
        columns: List::new(alloc),
        new: List::new(alloc),
        key: List::new(alloc),
        old: None,
    };
    row.keys.push(Txt::copied(alloc, "id")?)?;
    if matches!(event, Event::Insert) {
        row.columns.push(Txt::copied(alloc, "id")?)?;
        row.new.push(key)?;
    } else {
        row.key.push(key)?;
    }
    Ok(row)
}

/// The row of words between commas: its event, its table and its key; and then each column with its
/// value, and, after `was`, its old value.
fn row_of(alloc: Global, text: &str) -> Result<DocRow, NoMemory> {
    let (head, columns) = text.split_once(", ").unwrap_or((text, ""));
    let mut row = keyed_row(alloc, head)?;
    let mut olds = List::new(alloc);
    for column in columns.split(", ") {
        let Some((name, value)) = column.split_once(' ') else {
            continue;
        };
        row.columns.push(Txt::copied(alloc, name)?)?;
        let (new, old) = value.split_once(" was ").unwrap_or((value, ""));
        if !matches!(row.event, Event::Delete) {
            row.new.push(field(alloc, new)?)?;
        }
        if !old.is_empty() {
            olds.push(field(alloc, old)?)?;
        }
    }
    if !olds.inner().is_empty() {
        row.old = Some(olds);
    }
    Ok(row)
}

/// The batch of the rows between semicolons, in a channel.
fn batch_of(alloc: Global, channel: &str, text: &str) -> Result<BatchDoc, NoMemory> {
    let mut rows = List::new(alloc);
    for row in text.split("; ") {
        if !row.is_empty() {
            rows.push(row_of(alloc, row)?)?;
        }
    }
    Ok(BatchDoc {
        channel: Txt::copied(alloc, channel)?,
        batch: 1,
        binary: Binary::Base64,
        rows,
    })
}

fn put_value(alloc: Global, out: &mut String, value: &Value) -> Result<(), NoMemory> {
    out.push(' ')?;
    match value {
        Value::Integer(number) => out.push_str(number.to_string(alloc)?.as_str())?,
        Value::Decimal(units) => out.push_str(units.to_string(alloc)?.as_str())?,
        Value::Text(text) if text.is_empty() => out.push_str("''")?,
        Value::Text(text) => out.push_str(text.as_str())?,
        Value::Stamp { nano, .. } => {
            out.push('t')?;
            out.push_str(nano.to_string(alloc)?.as_str())?;
        }
        _ => out.push('-')?,
    }
    Ok(())
}

/// Adds a row's values: a decimal as its units, a time as the nanoseconds of its day, null as a
/// dash.
fn put_row(alloc: Global, out: &mut String, row: &Row) -> Result<(), NoMemory> {
    for value in row.0.inner() {
        put_value(alloc, out, value)?;
    }
    Ok(())
}

/// Adds a step that was made, with the row that stood before it.
fn put_done(alloc: Global, out: &mut String, done: &Done) -> Result<(), NoMemory> {
    out.push_str(match done.step {
        RowStep::Insert { .. } => ", insert",
        RowStep::Update { .. } => ", update",
        RowStep::Delete { .. } => ", delete",
    })?;
    match &done.step {
        RowStep::Insert { row, .. } | RowStep::Update { row, .. } => put_row(alloc, out, row)?,
        RowStep::Delete { .. } => {}
    }
    if let Some(old) = &done.old {
        out.push_str(" for")?;
        put_row(alloc, out, old)?;
    }
    Ok(())
}

/// Adds how a load ended.
fn put_end(alloc: Global, out: &mut String, end: &Outcome) -> Result<(), NoMemory> {
    match end {
        Outcome::Done(dones) => {
            out.push_str("done")?;
            for done in dones.inner() {
                put_done(alloc, out, done)?;
            }
        }
        Outcome::Ignored => out.push_str("ignored")?,
        Outcome::Broken { row, rule } => {
            out.push_str(row.to_string(alloc)?.as_str())?;
            out.push(' ')?;
            out.push_str(rule.name())?;
        }
    }
    Ok(())
}

/// The rows of all tables.
fn dump(alloc: Global, tables: &Tables) -> Result<String, NoMemory> {
    let mut out = String::new(alloc);
    for table in 0..9 {
        for row in tables.rows(alloc, table)? {
            put_row(alloc, &mut out, row)?;
            out.push('\n')?;
        }
        out.push('\n')?;
    }
    Ok(out)
}

fn is_short(batch: &Prepared) -> bool
    ensures { IsTrue result → length (rows_in batch.now.body) < 2 ^ 32 }
{
    match &batch.body {
        Body::Rows(rows) => rows.inner().len() < 100,
        Body::Broken { .. } => true,
    }
}

/// The channel that a batch comes in, and how many changes wait where it is loaded.
#[derive(Clone, Copy, Debug)]
pub(crate) struct Coming<'a> {
    pub channel: &'a str,
    pub waiting: u32,
}

/// How a batch from a store ends at corp, and whether one that isn't done changed the tables.
fn answer(
    alloc: Global,
    config: &Config,
    tables: &mut Tables,
    coming: Coming<'_>,
    text: &str,
) -> Result<String, NoMemory>
    requires { tables.old.defs ≡ config.now.tables }
    ensures { tables.new.defs ≡ config.now.tables }
{
    let doc = batch_of(alloc, coming.channel, text)?;
    if doc.rows.inner().len() > 99 {
        return Err(NoMemory);
    }
    let batch = prepare(alloc, config, &way(alloc, "up")?, &doc)?;
    if !is_short(&batch) {
        return Err(NoMemory);
    }
    let before = dump(alloc, tables)?;
    let end = outcome(alloc, config, "corp", tables, &batch, coming.waiting)?;
    let mut out = String::new(alloc);
    put_end(alloc, &mut out, &end)?;
    if !matches!(end, Outcome::Done(_)) && dump(alloc, tables)? != before {
        out.push_str(", but the tables changed")?;
    }
    Ok(out)
}

/// Adds a line: a batch, an arrow, and how it really ends.
fn tell(
    alloc: Global,
    out: &mut String,
    config: &Config,
    tables: &mut Tables,
    coming: Coming<'_>,
    line: &str,
) -> Result<(), NoMemory>
    requires { tables.old.defs ≡ config.now.tables }
    ensures { tables.new.defs ≡ config.now.tables }
{
    let batch = match line.split_once(" -> ") {
        Some((batch, _)) => batch,
        None => line,
    };
    let ends = answer(alloc, config, tables, coming, batch)?;
    out.push_str(batch)?;
    out.push_str(" -> ")?;
    out.push_str(ends.as_str())?;
    out.push('\n')?;
    Ok(())
}

/// The lines where each batch is followed by how it really ends, one batch after another.
pub(crate) fn told(
    alloc: Global,
    config: &Config,
    tables: &mut Tables,
    coming: Coming<'_>,
    lines: &[&str],
) -> Result<String, NoMemory>
    requires { tables.old.defs ≡ config.now.tables }
    ensures { tables.new.defs ≡ config.now.tables }
{
    let mut out = String::new(alloc);
    for line in lines {
        tell(alloc, &mut out, config, tables, coming, line)?;
    }
    Ok(out)
}

/// The lines as they stand.
pub(crate) fn due(alloc: Global, lines: &[&str]) -> Result<String, NoMemory> {
    let mut out = String::new(alloc);
    for line in lines {
        out.push_str(line)?;
        out.push('\n')?;
    }
    Ok(out)
}
