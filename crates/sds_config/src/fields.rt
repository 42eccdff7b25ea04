//! The fields of an entry: where each is found, what it may hold, and how it is refused.
ghost use Rattle.std.specs.Prelude.{◌≡◌, ◌≤◌, [], IfOk, option_map, string_bytes, length, map};
ghost use Rattle.std.specs.Str.{chars};
ghost use Rattle.toml.specs.Data.{get_member};
ghost use Rattle.toml.specs.View.{table_view, view};
ghost use Rattle.sds_config.specs.Fields as wanted;
ghost use Rattle.sds_config.specs.Refusals.{Answers};

use crate::ConfigRefusal;
use crate::named::{Named, place_of};
use crate::words::Word;
use sds_base::{List, NoMemory, Txt};
use sds_value::is_name;
use std::alloc::Global;
use toml::{Table, Value};

/// The value of a field, where it is there.
pub fn field<'a>(table: &'a Table, key: &str) -> Option<&'a Value>
    ensures { option_map (λ v. view v.now) result ≡ get_member key.now (table_view table.now) }
{
    table.get(key)
}

/// The path of a field.
pub fn field_path(alloc: Global, at: &str, key: &str) -> Result<Txt, NoMemory>
    ensures { IfOk result (λ path. path ≡ chars (wanted.field_path at.now key.now)) }
{
    Ok(Txt::of(field_text(alloc, at, key)?))
}

/// The path of a field, as a string.
pub fn field_text(alloc: Global, at: &str, key: &str) -> Result<String, NoMemory>
    ensures { IfOk result (λ path. string_bytes path ≡ wanted.field_path at.now key.now) }
{
    if at.is_empty() {
        return Ok(String::from_str(alloc, key)?);
    }
    Ok(format!(in alloc; "{at}.{key}")?)
}

/// The path of an entry.
pub fn entry_path(alloc: Global, section: &str, place: usize) -> Result<String, NoMemory>
    ensures { IfOk result (λ path. string_bytes path ≡ wanted.entry_path section.now place) }
{
    Ok(format!(in alloc; "{section}[{place}]")?)
}

/// A text, by its characters.
pub fn text_at(alloc: Global, table: &Table, at: &str, key: &str) -> Result<Txt, ConfigRefusal>
    ensures { Answers result (wanted.text_at (table_view table.now) at.now key.now) }
{
    match field(table, key) {
        None => Err(ConfigRefusal::MissingEntry(field_path(alloc, at, key)?)),
        Some(value) => match value.as_str() {
            None => Err(ConfigRefusal::WrongType(field_path(alloc, at, key)?)),
            Some(text) => Ok(Txt::copied(alloc, text)?),
        },
    }
}

/// A name.
pub fn name_at(alloc: Global, table: &Table, at: &str, key: &str) -> Result<Txt, ConfigRefusal>
    ensures { Answers result (wanted.name_at (table_view table.now) at.now key.now) }
{
    let name = text_at(alloc, table, at, key)?;
    if !is_name(name.as_str()) {
        return Err(ConfigRefusal::BadSetting(field_path(alloc, at, key)?));
    }
    Ok(name)
}

/// A whole number from the least to the most.
pub fn number_at(
    alloc: Global,
    table: &Table,
    at: &str,
    key: &str,
    least: u32,
    most: u32,
) -> Result<u32, ConfigRefusal>
    ensures { Answers result (wanted.number_at least most (table_view table.now) at.now key.now) }
{
    match field(table, key) {
        None => Err(ConfigRefusal::MissingEntry(field_path(alloc, at, key)?)),
        Some(value) => match value.as_integer() {
            None => Err(ConfigRefusal::WrongType(field_path(alloc, at, key)?)),
            Some(number) => match number_within(number, least, most) {
                None => Err(ConfigRefusal::BadSetting(field_path(alloc, at, key)?)),
                Some(number) => Ok(number),
            },
        },
    }
}

fn number_within(number: i64, least: u32, most: u32) -> Option<u32>
    ensures { result ≡ wanted.number_within least most number }
{
    if number < least as i64 || number > most as i64 {
        return None;
    }
    Some(number as u32)
}

/// True or false, and the default where the field is absent.
pub fn flag_at(
    alloc: Global,
    table: &Table,
    at: &str,
    key: &str,
    default: bool,
) -> Result<bool, ConfigRefusal>
    ensures { Answers result (wanted.flag_at default (table_view table.now) at.now key.now) }
{
    match field(table, key) {
        None => Ok(default),
        Some(value) => match value.as_bool() {
            None => Err(ConfigRefusal::WrongType(field_path(alloc, at, key)?)),
            Some(flag) => Ok(flag),
        },
    }
}

fn empty(alloc: Global) -> Txt
    ensures { result ≡ [] }
{
    Txt::of(String::new(alloc))
}

/// A text that may be absent and is then empty.
pub fn text_or_empty(
    alloc: Global,
    table: &Table,
    at: &str,
    key: &str,
) -> Result<Txt, ConfigRefusal>
    ensures { Answers result (wanted.text_or_empty (table_view table.now) at.now key.now) }
{
    match field(table, key) {
        None => Ok(empty(alloc)),
        Some(_) => text_at(alloc, table, at, key),
    }
}

/// One of the field's words.
pub fn word_at<W: Word>(
    alloc: Global,
    table: &Table,
    at: &str,
    key: &str,
) -> Result<W, ConfigRefusal>
    ensures { Answers result (wanted.word_at W.word_of (table_view table.now) at.now key.now) }
{
    match field(table, key) {
        None => Err(ConfigRefusal::MissingEntry(field_path(alloc, at, key)?)),
        Some(value) => match value.as_str() {
            None => Err(ConfigRefusal::WrongType(field_path(alloc, at, key)?)),
            Some(word) => match W::read(word) {
                None => Err(ConfigRefusal::BadSetting(field_path(alloc, at, key)?)),
                Some(setting) => Ok(setting),
            },
        },
    }
}

/// One of the field's words, and the default where the field is absent.
pub fn word_or<W: Word>(
    alloc: Global,
    table: &Table,
    at: &str,
    key: &str,
    default: W,
) -> Result<W, ConfigRefusal>
    ensures { Answers result (wanted.word_or default W.word_of (table_view table.now) at.now key.now) }
{
    match field(table, key) {
        None => Ok(default),
        Some(_) => word_at(alloc, table, at, key),
    }
}

/// A name that no earlier entry of the section has.
pub fn id_at<N: Named>(
    alloc: Global,
    table: &Table,
    at: &str,
    key: &str,
    earlier: &[N],
) -> Result<Txt, ConfigRefusal>
    ensures { Answers result (wanted.id_at N.name_of earlier.now (table_view table.now) at.now key.now) }
{
    let name = name_at(alloc, table, at, key)?;
    match place_of(earlier, name.as_str()) {
        None => Ok(name),
        Some(_) => Err(ConfigRefusal::Duplicate(field_path(alloc, at, key)?)),
    }
}

/// The place of the entry that is named.
pub fn place_at<N: Named>(
    alloc: Global,
    table: &Table,
    at: &str,
    key: &str,
    entries: &List<N>,
) -> Result<u32, ConfigRefusal>
    requires { length entries.now ≤ 1024 }
    ensures { Answers result (wanted.place_at N.name_of entries.now (table_view table.now) at.now key.now) }
{
    let name = name_at(alloc, table, at, key)?;
    match place_of(entries.inner().as_slice(), name.as_str()) {
        None => Err(ConfigRefusal::UnknownName(field_path(alloc, at, key)?)),
        Some(place) => Ok(place as u32),
    }
}

/// Whether the key is one of the names.
fn is_listed(names: &[&str], key: &str) -> bool
    ensures { result ≡ wanted.is_listed (map (λ n. n.now) names.now) key.now }
{
    for name in names {
        if *name == key {
            return true;
        }
    }
    false
}

/// The least key, in byte order, that isn't one of the names.
fn first_unlisted<'a>(table: &'a Table, names: &[&str]) -> Option<&'a str>
    ensures { option_map (λ s. s.now) result ≡ wanted.first_unlisted (map (λ n. n.now) names.now) (table_view table.now) }
{
    for (key, _value) in table.iter() {
        if !is_listed(names, key.as_str()) {
            return Some(key.as_str());
        }
    }
    None
}

/// No key but these stands in the entry.
pub fn only_keys(
    alloc: Global,
    table: &Table,
    at: &str,
    names: &[&str],
) -> Result<(), ConfigRefusal>
    ensures { Answers result (wanted.only_keys (map (λ n. n.now) names.now) (table_view table.now) at.now) }
{
    match first_unlisted(table, names) {
        None => Ok(()),
        Some(key) => Err(ConfigRefusal::BadSetting(field_path(alloc, at, key)?)),
    }
}
