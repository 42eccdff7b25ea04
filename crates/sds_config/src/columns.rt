//! The texts of a table's columns.
ghost use Rattle.std.specs.Prelude.{◌≡◌, [], IfOk, IfSome, ◌≤◌, option_map, map};
ghost use Rattle.sds_config.specs.ColumnTexts as wanted;

use sds_base::{NoMemory, Txt};
use sds_expressions::{behind, plain_number, split_at};
use sds_value::{Kind, is_name};
use std::alloc::Global;

/// What a column's text says.
#[derive(Debug, Drop)]
pub struct ColumnText {
    pub name: Txt,
    pub kind: Kind,
    pub not_null: bool,
    pub key: bool,
    /// The name of the table that it refers to.
    pub reference: Option<Txt>,
}

/// The columns that the texts write, where each of them is the text of a column.
pub fn columns_of(alloc: Global, texts: &[&str]) -> Result<Option<Vec<ColumnText>>, NoMemory>
    ensures { IfOk result (λ columns. option_map (λ c. c.items) columns ≡ wanted.columns_from [] (map (λ t. t.now) texts.now)) }
{
    let mut columns = Vec::new(alloc);
    for text in texts {
        match column_text(alloc, text)? {
            None => return Ok(None),
            Some(column) => columns.push(column)?,
        }
    }
    Ok(Some(columns))
}

/// The column that a text writes.
fn column_text(alloc: Global, text: &str) -> Result<Option<ColumnText>, NoMemory>
    ensures { IfOk result (λ column. column ≡ wanted.column_text text.now) }
{
    let Some((name, rest)) = split_at(text, ' ') else {
        return Ok(None);
    };
    if !is_name(name) {
        return Ok(None);
    }
    match kind_in_front(rest) {
        None => Ok(None),
        Some((kind, rest)) => marked(alloc, name, kind, rest),
    }
}

fn marked(alloc: Global, name: &str, kind: Kind, text: &str) -> Result<Option<ColumnText>, NoMemory>
    ensures { IfOk result (λ column. column ≡ wanted.marked name.now kind text.now) }
{
    let (not_null, rest) = mark_in_front(text, " NOT NULL");
    let (key, rest) = mark_in_front(rest, " KEY");
    let reference = match reference_of(alloc, rest)? {
        None => return Ok(None),
        Some(reference) => reference,
    };
    Ok(Some(ColumnText {
        name: Txt::copied(alloc, name)?,
        kind,
        not_null: not_null || key,
        key,
        reference,
    }))
}

fn reference_of(alloc: Global, text: &str) -> Result<Option<Option<Txt>>, NoMemory>
    ensures { IfOk result (λ reference. reference ≡ wanted.reference_of text.now) }
{
    if text.is_empty() {
        return Ok(Some(None));
    }
    match behind(text, " REF ") {
        None => Ok(None),
        Some(name) => Ok(Some(Some(Txt::copied(alloc, name)?))),
    }
}

fn mark_in_front<'a>(text: &'a str, mark: &str) -> (bool, &'a str)
    ensures { (result.0, result.1.now) ≡ wanted.mark_in_front mark.now text.now }
{
    match behind(text, mark) {
        Some(rest) => (true, rest),
        None => (false, text),
    }
}

/// The kind that a text begins with, and what follows it.
fn kind_in_front(text: &str) -> Option<(Kind, &str)>
    ensures { option_map (λ p. (p.0, p.1.now)) result ≡ wanted.kind_in_front text.now }
{
    if let Some(rest) = behind(text, "INTEGER") {
        return Some((Kind::Integer, rest));
    }
    if let Some(rest) = behind(text, "TIMESTAMP") {
        return Some((Kind::Timestamp, rest));
    }
    if let Some(rest) = behind(text, "DECIMAL(") {
        return decimal_in_front(rest);
    }
    if let Some(rest) = behind(text, "VARCHAR(") {
        return varchar_in_front(rest);
    }
    match behind(text, "VARBINARY(") {
        Some(rest) => varbinary_in_front(rest),
        None => None,
    }
}

fn decimal_in_front(text: &str) -> Option<(Kind, &str)>
    ensures { option_map (λ p. (p.0, p.1.now)) result ≡ wanted.decimal_in_front text.now }
{
    match size_in_front(text, 0, 9) {
        Some((size, rest)) => Some((Kind::Decimal(size as u8), rest)),
        None => None,
    }
}

fn varchar_in_front(text: &str) -> Option<(Kind, &str)>
    ensures { option_map (λ p. (p.0, p.1.now)) result ≡ wanted.varchar_in_front text.now }
{
    match size_in_front(text, 1, 2_000) {
        Some((size, rest)) => Some((Kind::Varchar(size as u16), rest)),
        None => None,
    }
}

fn varbinary_in_front(text: &str) -> Option<(Kind, &str)>
    ensures { option_map (λ p. (p.0, p.1.now)) result ≡ wanted.varbinary_in_front text.now }
{
    match size_in_front(text, 1, 4_000) {
        Some((size, rest)) => Some((Kind::Varbinary(size as u16), rest)),
        None => None,
    }
}

/// The size of a kind, and what follows its closing parenthesis.
fn size_in_front(text: &str, least: u32, most: u32) -> Option<(u32, &str)>
    requires { most ≤ 4000 }
    ensures size { option_map (λ p. (p.0, p.1.now)) result ≡ wanted.size_in_front least most text.now }
    ensures bound { IfSome result (λ p. p.0 ≤ most) }
{
    let Some((digits, rest)) = split_at(text, ')') else {
        return None;
    };
    match plain_number(digits.as_bytes(), most) {
        Some(size) if least <= size => Some((size, rest)),
        _ => None,
    }
}
