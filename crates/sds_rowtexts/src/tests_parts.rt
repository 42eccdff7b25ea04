//! What the tests of rows share: the tables, rows of texts from words, and rows of values in words.
use crate::read_row;
use sds_base::{List, NoMemory, Txt};
use sds_types::{Add, LoadRow};
use sds_value::{Binary, ColumnDef, DocRow, Event, Field, Kind, TableDef, Value};
use std::alloc::Global;

fn column_def(alloc: Global, name: &str, kind: Kind) -> Result<ColumnDef, NoMemory> {
    Ok(ColumnDef {
        name: Txt::copied(alloc, name)?,
        kind,
        not_null: false,
        parent: None,
    })
}

/// The tables `s`, whose key is `id`, and `t`, whose key is `area` and then `id`.
pub(crate) fn tables(alloc: Global) -> Result<List<TableDef>, NoMemory> {
    let mut few = List::new(alloc);
    few.push(column_def(alloc, "id", Kind::Integer)?)?;
    let mut one = List::new(alloc);
    one.push(0)?;
    let mut columns = List::new(alloc);
    columns.push(column_def(alloc, "id", Kind::Integer)?)?;
    columns.push(column_def(alloc, "area", Kind::Varchar(2))?)?;
    columns.push(column_def(alloc, "name", Kind::Varchar(4))?)?;
    columns.push(column_def(alloc, "price", Kind::Decimal(2))?)?;
    columns.push(column_def(alloc, "code", Kind::Varbinary(2))?)?;
    let mut key = List::new(alloc);
    key.push(1)?;
    key.push(0)?;
    let mut tables = List::new(alloc);
    tables.push(TableDef {
        name: Txt::copied(alloc, "s")?,
        columns: few,
        key: one,
    })?;
    tables.push(TableDef {
        name: Txt::copied(alloc, "t")?,
        columns,
        key,
    })?;
    Ok(tables)
}

/// The names in a word, between commas; `.` is none.
fn names(alloc: Global, word: &str) -> Result<List<Txt>, NoMemory> {
    let mut names = List::new(alloc);
    if word != "." {
        for name in word.split(',') {
            names.push(Txt::copied(alloc, name)?)?;
        }
    }
    Ok(names)
}

/// The fields in a word, between commas; `.` is none, and `~` is null.
fn fields(alloc: Global, word: &str) -> Result<List<Field>, NoMemory> {
    let mut fields = List::new(alloc);
    if word != "." {
        for text in word.split(',') {
            if text == "~" {
                fields.push(Field::Null)?;
            } else {
                fields.push(Field::Text(Txt::copied(alloc, text)?))?;
            }
        }
    }
    Ok(fields)
}

fn old(alloc: Global, word: &str) -> Result<Option<List<Field>>, NoMemory> {
    if word == "none" {
        return Ok(None);
    }
    Ok(Some(fields(alloc, word)?))
}

/// The row of words: its event, its table, its key's names, its columns, its new fields, its key's
/// fields, and its old fields or `none`.
fn row_of(alloc: Global, line: &str) -> Result<DocRow, NoMemory> {
    let mut words = line.split(' ');
    Ok(DocRow {
        event: match words.next().unwrap_or("") {
            "insert" => Event::Insert,
            "update" => Event::Update,
            _ => Event::Delete,
        },
        table: Txt::copied(alloc, words.next().unwrap_or(""))?,
        keys: names(alloc, words.next().unwrap_or("."))?,
        columns: names(alloc, words.next().unwrap_or("."))?,
        new: fields(alloc, words.next().unwrap_or("."))?,
        key: fields(alloc, words.next().unwrap_or("."))?,
        old: old(alloc, words.next().unwrap_or("none"))?,
    })
}

fn put_value(alloc: Global, value: &Value, out: &mut String) -> Result<(), NoMemory> {
    match value {
        Value::Null => out.push_str(" null")?,
        Value::Integer(number) => {
            let number = number.to_string(alloc)?;
            out.push(' ')?;
            out.push_str(number.as_str())?;
        }
        Value::Decimal(units) => {
            let units = units.to_string(alloc)?;
            out.push_str(" units ")?;
            out.push_str(units.as_str())?;
        }
        Value::Text(text) => {
            out.push_str(" '")?;
            out.push_str(text.as_str())?;
            out.push('\'')?;
        }
        Value::Stamp { .. } => out.push_str(" time")?,
        Value::Bin(bytes) => {
            out.push_str(" bytes")?;
            for byte in bytes.inner() {
                let byte = byte.to_string(alloc)?;
                out.push('.')?;
                out.push_str(byte.as_str())?;
            }
        }
    }
    Ok(())
}

fn put_values(alloc: Global, values: &[Value], out: &mut String) -> Result<(), NoMemory> {
    for value in values {
        put_value(alloc, value, out)?;
    }
    Ok(())
}

fn put_head(alloc: Global, row: &LoadRow, out: &mut String) -> Result<(), NoMemory> {
    let number = row.row.to_string(alloc)?;
    out.push_str(number.as_str())?;
    out.push_str(match row.event {
        Event::Insert => " insert ",
        Event::Update => " update ",
        Event::Delete => " delete ",
    })?;
    let table = row.table.to_string(alloc)?;
    out.push_str(table.as_str())?;
    out.push_str(" key")?;
    put_values(alloc, row.key.0.inner(), out)?;
    out.push_str("; columns")?;
    for column in row.columns.inner() {
        let column = column.to_string(alloc)?;
        out.push(' ')?;
        out.push_str(column.as_str())?;
    }
    Ok(())
}

fn put_adds(alloc: Global, row: &LoadRow, out: &mut String) -> Result<(), NoMemory> {
    for addend in row.adds.inner() {
        let column = addend.column.to_string(alloc)?;
        out.push_str("; to ")?;
        out.push_str(column.as_str())?;
        match addend.add {
            None => out.push_str(" unknown")?,
            Some(add) => {
                let add = add.to_string(alloc)?;
                out.push(' ')?;
                out.push_str(add.as_str())?;
            }
        }
    }
    Ok(())
}

fn told_row(alloc: Global, row: &LoadRow) -> Result<String, NoMemory> {
    let mut out = String::new(alloc);
    put_head(alloc, row, &mut out)?;
    out.push_str("; new")?;
    put_values(alloc, row.new.inner(), &mut out)?;
    if let Some(old) = &row.old {
        out.push_str("; old")?;
        put_values(alloc, old.inner(), &mut out)?;
    }
    put_adds(alloc, row, &mut out)?;
    Ok(out)
}

/// What the row of words, as the seventh of its document, is read as: a row in words, or the name
/// of the rule that it breaks.
pub(crate) fn told(
    alloc: Global,
    form: Binary,
    line: &str,
    adds: &[Add],
) -> Result<String, NoMemory> {
    let tables = tables(alloc)?;
    let row = row_of(alloc, line)?;
    match read_row(alloc, tables.inner(), form, 7, &row, adds)? {
        Err(rule) => Ok(String::from_str(alloc, rule.name())?),
        Ok(read) => told_row(alloc, &read),
    }
}
