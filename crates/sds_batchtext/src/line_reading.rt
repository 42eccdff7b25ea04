//! What a line of a document says by itself.
ghost use Rattle.std.specs.Prelude.{◌≡◌, IfOk};
ghost use Rattle.std.specs.List.{list_all};
ghost use Rattle.std.specs.Char.{is_ascii_digit};
ghost use Rattle.sds_batchtext.specs.DocLines as stated;

use crate::words::is_word;
use crate::{Directive, DocLine, NodeLine};
use sds_base::{List, NoMemory, Twin, Txt};
use sds_types::limits::MOST_COUNT;
use sds_value::{Binary, Field, is_name};
use std::alloc::Global;

/// What the line of this number says, by its directive and its other fields; None where they aren't
/// what it asks for.
pub(crate) fn line_said(
    alloc: Global,
    number: u64,
    directive: Directive,
    fields: List<Field>,
) -> Result<Option<DocLine>, NoMemory>
    ensures { IfOk result (λ said. said ≡ stated.line_said number directive fields) }
{
    Ok(match directive {
        Directive::Insert => Some(DocLine::Insert(fields)),
        Directive::Update => Some(DocLine::Update(fields)),
        Directive::Old => Some(DocLine::Old(fields)),
        Directive::Delete => Some(DocLine::Delete(fields)),
        Directive::NodeId => {
            name_in(alloc, &fields)?.map(|id| DocLine::NodeId(NodeLine { id, line: number }))
        }
        Directive::Binary => binary_in(&fields).map(|binary| DocLine::Binary(binary)),
        Directive::Channel => name_in(alloc, &fields)?.map(|name| DocLine::Channel(name)),
        Directive::Batch => id_in(&fields).map(|id| DocLine::Batch(id)),
        Directive::Table => name_in(alloc, &fields)?.map(|name| DocLine::Table(name)),
        Directive::Keys => names_in(alloc, &fields)?.map(|names| DocLine::Keys(names)),
        Directive::Columns => names_in(alloc, &fields)?.map(|names| DocLine::Columns(names)),
        Directive::Commit => id_in(&fields).map(|id| DocLine::Commit(id)),
        Directive::Skipped => Some(DocLine::Skipped),
    })
}

/// The one field, which is a name.
fn name_in(alloc: Global, fields: &List<Field>) -> Result<Option<Txt>, NoMemory>
    ensures { IfOk result (λ name. name ≡ stated.name_in fields.now) }
{
    match fields.inner().as_slice() {
        [Field::Text(name)] => read_name(alloc, name),
        _ => Ok(None),
    }
}

fn read_name(alloc: Global, text: &Txt) -> Result<Option<Txt>, NoMemory>
    ensures { IfOk result (λ name. name ≡ stated.name_of text.now) }
{
    if !is_name(text.as_str()) {
        return Ok(None);
    }
    Ok(Some(text.twin(alloc)?))
}

/// One name or more, which the fields are.
fn names_in(alloc: Global, fields: &List<Field>) -> Result<Option<List<Txt>>, NoMemory>
    ensures { IfOk result (λ names. names ≡ stated.names_in fields.now) }
{
    let fields = fields.inner().as_slice();
    if fields.is_empty() {
        return Ok(None);
    }
    all_names(alloc, fields)
}

#[tactic(auto, using(crate::proofs::Names::after_none, crate::proofs::Names::after_one))]
fn all_names(alloc: Global, fields: &[Field]) -> Result<Option<List<Txt>>, NoMemory>
    ensures { IfOk result (λ names. names ≡ stated.all_names fields.now) }
{
    let mut names = List::new(alloc);
    for field in fields {
        let Some(name) = field_name(alloc, field)? else {
            return Ok(None);
        };
        names.push(name)?;
    }
    Ok(Some(names))
}

fn field_name(alloc: Global, field: &Field) -> Result<Option<Txt>, NoMemory>
    ensures { IfOk result (λ name. name ≡ stated.field_name field.now) }
{
    match field {
        Field::Null => Ok(None),
        Field::Text(text) => read_name(alloc, text),
    }
}

/// How bytes are written: one of three words, which is the one field.
fn binary_in(fields: &List<Field>) -> Option<Binary>
    ensures { result ≡ stated.binary_in fields.now }
{
    match fields.inner().as_slice() {
        [Field::Text(word)] => binary_named(word),
        _ => None,
    }
}

fn binary_named(word: &Txt) -> Option<Binary>
    ensures { result ≡ stated.binary_named word.now }
{
    if is_word(word, "BASE64") {
        Some(Binary::Base64)
    } else if is_word(word, "HEX") {
        Some(Binary::Hex)
    } else if is_word(word, "NONE") {
        Some(Binary::Plain)
    } else {
        None
    }
}

/// The id of a batch, which is the one field.
fn id_in(fields: &List<Field>) -> Option<u64>
    ensures { result ≡ stated.id_in fields.now }
{
    match fields.inner().as_slice() {
        [Field::Text(text)] => read_id(text),
        _ => None,
    }
}

/// The id of a batch that a text writes: 1 to 2^62 in decimal digits, which may begin with zeros.
fn read_id(text: &Txt) -> Option<u64>
    ensures { result ≡ stated.id_of text.now }
{
    id_written(text.as_str())
}

fn id_written(text: &str) -> Option<u64>
    ensures { result ≡ stated.id_of text.now }
{
    if !all_digits(text.as_bytes()) {
        return None;
    }
    match text.parse::<u64>() {
        Err(_) => None,
        Ok(id) => in_range(id),
    }
}

fn in_range(id: u64) -> Option<u64>
    ensures { result ≡ stated.in_range id }
{
    if id < 1 || id > MOST_COUNT {
        return None;
    }
    Some(id)
}

fn all_digits(bytes: &[u8]) -> bool
    ensures { result ≡ list_all is_ascii_digit bytes.now }
{
    bytes.iter().all(|byte| byte.is_ascii_digit())
}
