ghost use Rattle.std.specs.Prelude.{◌≡◌, IfOk, IfSome, IsTrue, MatchOption, true, false};
ghost use Rattle.std.specs.List.{list_all};
ghost use Rattle.std.specs.Char.{is_ascii_digit};
ghost use Rattle.std.specs.Str.{all_scalars};
ghost use Rattle.sds_first_laws.specs.Pairs.{is_of_characters};
ghost use Rattle.sds_value.specs.Values.{digits_value};
ghost use Rattle.sds_first_world.specs.Scenario.{line_of, opening_of, given_of, step_of, write_of, insert_of, row_of, is_number, is_key, is_short};
ghost use Rattle.sds_first_world.specs.Sound.{IsSoundLine};
ghost use Rattle.sds_first_world.specs.Words.{is_plain, is_word, are, texts, ArePlain};

use crate::words::word;
use crate::{Line, Opening};
use sds_base::{List, NoMemory, Twin, Txt};
use sds_types::TxRow;
use sds_value::{Binary, Event, Field, Kind, Value, ValueRefusal, is_name};
use std::alloc::Global;

/// What the fields of one line of a scenario say by themselves, wherever the line stands: `Other` where none of the forms
/// fits.
pub fn read_fields(alloc: Global, fields: &[Field]) -> Result<Line, NoMemory>
    ensures said { IfOk result (λ said. said ≡ line_of fields.now) }
    ensures sound { IfOk result IsSoundLine }
{
    if let Some(line) = read_opening(fields) {
        return Ok(line);
    }
    if let Some(line) = read_given(alloc, fields)? {
        return Ok(line);
    }
    Ok(read_step(alloc, fields)?.unwrap_or(Line::Other))
}

/// One of the four lines with which a scenario begins.
fn read_opening(fields: &[Field]) -> Option<Line>
    ensures said { result ≡ opening_of fields.now }
    ensures sound { IfSome result IsSoundLine }
{
    if are(fields, &["node", "corp", "corp", "corp"]) {
        Some(Line::Opening(Opening::Corp))
    } else if are(fields, &["node", "s1", "store", "001"]) {
        Some(Line::Opening(Opening::Store))
    } else if are(fields, &["open", "corp", "store", "001"]) {
        Some(Line::Opening(Opening::Open))
    } else if are(fields, &["register", "s1", "corp"]) {
        Some(Line::Opening(Opening::Register))
    } else {
        None
    }
}

/// One of the other lines that are always the same.
fn read_step(alloc: Global, fields: &[Field]) -> Result<Option<Line>, NoMemory>
    ensures said { IfOk result (λ line. line ≡ step_of fields.now) }
    ensures sound { IfOk result (λ line. IfSome line IsSoundLine) }
{
    if are(fields, &["end"]) {
        Ok(Some(Line::End))
    } else if are(fields, &["route", "corp"]) {
        Ok(Some(Line::Route))
    } else if are(fields, &["push", "corp", "s1"]) {
        Ok(Some(Line::Push))
    } else if are(fields, &["show", "corp"]) {
        Ok(Some(Line::Show {
            node: word(alloc, "corp")?,
        }))
    } else if are(fields, &["show", "s1"]) {
        Ok(Some(Line::Show {
            node: word(alloc, "s1")?,
        }))
    } else {
        Ok(None)
    }
}

/// One of the two lines with fields of their own.
fn read_given(alloc: Global, fields: &[Field]) -> Result<Option<Line>, NoMemory>
    ensures said { IfOk result (λ line. line ≡ given_of fields.now) }
    ensures sound { IfOk result (λ line. IfSome line IsSoundLine) }
{
    let [directive, place, first, second] = fields else {
        return Ok(None);
    };
    if is_word(directive, "write") && is_word(place, "corp") {
        read_write(alloc, first, second)
    } else if is_word(directive, "insert") && is_word(place, "pair") {
        read_insert(alloc, first, second)
    } else {
        Ok(None)
    }
}

/// The begin of a write, of this writer and this number.
fn read_write(alloc: Global, writer: &Field, number: &Field) -> Result<Option<Line>, NoMemory>
    ensures said { IfOk result (λ line. line ≡ write_of writer.now number.now) }
    ensures sound { IfOk result (λ line. IfSome line IsSoundLine) }
{
    let (Field::Text(writer), Field::Text(number)) = (writer, number) else {
        return Ok(None);
    };
    if !is_name(writer.as_str()) {
        return Ok(None);
    }
    let Some(number) = read_number(number) else {
        return Ok(None);
    };
    let writer = writer.twin(alloc)?;
    Ok(Some(Line::Write { writer, number }))
}

/// The number that 1 to 19 decimal digits write.
fn read_number(text: &Txt) -> Option<u64>
    ensures { MatchOption result (is_number text.now ≡ false) (λ number. (is_number text.now ≡ true) × (number ≡ digits_value text.now)) }
{
    read_digits(text.as_str())
}

fn read_digits(text: &str) -> Option<u64>
    ensures { MatchOption result (is_number text.now ≡ false) (λ number. (is_number text.now ≡ true) × (number ≡ digits_value text.now)) }
{
    let digits = text.as_bytes();
    if digits.len() > 19 || !all_digits(digits) {
        return None;
    }
    text.parse().ok()
}

fn all_digits(bytes: &[u8]) -> bool
    ensures { result ≡ list_all is_ascii_digit bytes.now }
{
    bytes.iter().all(|byte| byte.is_ascii_digit())
}

/// A row of the table pair, of this key and this text.
fn read_insert(alloc: Global, key: &Field, text: &Field) -> Result<Option<Line>, NoMemory>
    ensures said { IfOk result (λ line. line ≡ insert_of key.now text.now) }
    ensures sound { IfOk result (λ line. IfSome line IsSoundLine) }
{
    let Field::Text(key) = key else {
        return Ok(None);
    };
    if !is_key(alloc, key)? {
        return Ok(None);
    }
    if !is_short(alloc, text)? {
        return Ok(None);
    }
    Ok(Some(Line::Row(row(alloc, key, text)?)))
}

/// Whether it is the printed text of an INTEGER.
fn is_key(alloc: Global, key: &Txt) -> Result<bool, NoMemory>
    ensures holds { IfOk result (λ holds. holds ≡ is_key key.now) }
    ensures characters { IfOk result (λ _. all_scalars key.now ≡ true) }
{
    let text = key.as_str();
    let value = match Value::read(alloc, Kind::Integer, text, Binary::Base64) {
        Ok(value) => value,
        Err(ValueRefusal::NoMemory) => return Err(NoMemory),
        Err(_) => return Ok(false),
    };
    let mut printed = Vec::new(alloc);
    value.put(Kind::Integer, Binary::Base64, &mut printed)?;
    Ok(printed.as_slice() == text.as_bytes())
}

/// Whether it is null or a text of VARCHAR(40).
fn is_short(alloc: Global, field: &Field) -> Result<bool, NoMemory>
    ensures holds { IfOk result (λ holds. holds ≡ is_short field.now) }
    ensures characters { IfOk result (λ _. is_of_characters field.now ≡ true) }
{
    let Field::Text(text) = field else {
        return Ok(true);
    };
    match Value::read(alloc, Kind::Varchar(40), text.as_str(), Binary::Base64) {
        Ok(_) => Ok(true),
        Err(ValueRefusal::NoMemory) => Err(NoMemory),
        Err(_) => Ok(false),
    }
}

fn row(alloc: Global, key: &Txt, text: &Field) -> Result<TxRow, NoMemory>
    ensures { IfOk result (λ row. row ≡ row_of key.now text.now) }
{
    let key = Field::Text(key.twin(alloc)?);
    let text = text.twin(alloc)?;
    Ok(TxRow {
        event: Event::Insert,
        table: word(alloc, "pair")?,
        fields: List::of(vec![in alloc; key, text]?),
    })
}

/// Whether the field is this word.
fn is_word(field: &Field, word: &str) -> bool
    requires { IsTrue (is_plain word.now) }
    ensures { result ≡ is_word field.now word.now }
{
    match field {
        Field::Null => false,
        Field::Text(text) => text.is(word),
    }
}

/// Whether the fields are these words.
fn are(fields: &[Field], words: &[&str]) -> bool
    requires { ArePlain (texts words.now) }
    ensures { result ≡ are fields.now (texts words.now) }
{
    let [field, fields @ ..] = fields else {
        return words.is_empty();
    };
    let [word, words @ ..] = words else {
        return false;
    };
    is_word(field, word) && are(fields, words)
}
