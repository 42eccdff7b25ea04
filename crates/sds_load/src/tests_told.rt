//! Prepared batches in words.
use sds_base::NoMemory;
use sds_types::{Body, LoadRow, Prepared};
use sds_value::{Event, Value};
use std::alloc::Global;

fn put_number(alloc: Global, number: i64, out: &mut String) -> Result<(), NoMemory> {
    let number = number.to_string(alloc)?;
    out.push(' ')?;
    out.push_str(number.as_str())?;
    Ok(())
}

fn put_place(alloc: Global, place: Option<u32>, out: &mut String) -> Result<(), NoMemory> {
    match place {
        None => out.push_str(" none")?,
        Some(place) => put_number(alloc, i64::from(place), out)?,
    }
    Ok(())
}

fn put_value(alloc: Global, value: &Value, out: &mut String) -> Result<(), NoMemory> {
    match value {
        Value::Null => out.push_str(" null")?,
        Value::Integer(number) => put_number(alloc, *number, out)?,
        Value::Decimal(units) => put_number(alloc, *units, out)?,
        Value::Text(text) => {
            out.push(' ')?;
            out.push_str(text.as_str())?;
        }
        Value::Stamp { .. } => out.push_str(" time")?,
        Value::Bin(bytes) => {
            for byte in bytes.inner() {
                let byte = byte.to_string(alloc)?;
                out.push('.')?;
                out.push_str(byte.as_str())?;
            }
        }
    }
    Ok(())
}

fn put_values(alloc: Global, values: &[Value], out: &mut String) -> Result<(), NoMemory> {
    for value in values {
        put_value(alloc, value, out)?;
    }
    Ok(())
}

fn put_row(alloc: Global, row: &LoadRow, out: &mut String) -> Result<(), NoMemory> {
    put_number(alloc, i64::from(row.row), out)?;
    out.push_str(match row.event {
        Event::Insert => " insert",
        Event::Update => " update",
        Event::Delete => " delete",
    })?;
    put_number(alloc, i64::from(row.table), out)?;
    out.push_str(" key")?;
    put_values(alloc, row.key.0.inner(), out)?;
    out.push_str(" new")?;
    put_values(alloc, row.new.inner(), out)?;
    for addend in row.adds.inner() {
        out.push_str(" add")?;
        match addend.add {
            None => out.push_str(" unknown")?,
            Some(add) => {
                let add = add.to_string(alloc)?;
                out.push(' ')?;
                out.push_str(add.as_str())?;
            }
        }
    }
    Ok(())
}

/// A body in words: its rows, or the row that is broken with the rule.
pub(crate) fn told_body(alloc: Global, body: &Body) -> Result<String, NoMemory> {
    let mut out = String::new(alloc);
    match body {
        Body::Broken { row, rule } => {
            out.push_str("broken")?;
            put_number(alloc, i64::from(*row), &mut out)?;
            out.push(' ')?;
            out.push_str(rule.name())?;
        }
        Body::Rows(rows) => {
            out.push_str("rows")?;
            for row in rows.inner() {
                out.push(';')?;
                put_row(alloc, row, &mut out)?;
            }
        }
    }
    Ok(out)
}

/// A batch in words but for its body.
pub(crate) fn told_head(alloc: Global, made: &Prepared) -> Result<String, NoMemory> {
    let mut out = String::new(alloc);
    out.push_str(made.from.as_str())?;
    out.push(' ')?;
    out.push_str(made.from_group.as_str())?;
    let number = made.batch.to_string(alloc)?;
    out.push_str(" batch ")?;
    out.push_str(number.as_str())?;
    out.push_str(" channel")?;
    put_place(alloc, made.channel, &mut out)?;
    out.push_str(" settings")?;
    for place in made.settings.inner() {
        put_place(alloc, *place, &mut out)?;
    }
    Ok(out)
}
