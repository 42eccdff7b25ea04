//! The expression of a `lookuptable` router.
ghost use Rattle.std.specs.Prelude.{◌≡◌, ◌==◌, IfOk, if◌then◌else◌};
ghost use Rattle.std.specs.Str.{bytes_eq, chars};
ghost use Rattle.std.specs.List.{starts_with};
ghost use Rattle.sds_expressions.specs.Automaton.{LeadsTo};
ghost use Rattle.sds_expressions.specs.BadPlaces.{ReadsAs};
ghost use Rattle.sds_expressions.specs.LookupForm.{IsLookupForm, key_text};
ghost use Rattle.sds_expressions.specs.LookupRouter as wanted;

use crate::automaton::{Automaton, read_text};
use crate::letters::{LONGEST_NAME, begins, characters_of, is_name_character, text_of};
use sds_base::{List, NoMemory, Txt};
use sds_types::Lookup;
use std::alloc::Global;

const TABLE: [char; 13] = [
    'L', 'O', 'O', 'K', 'U', 'P', '_', 'T', 'A', 'B', 'L', 'E', '=',
];

const COLUMN: [char; 11] = ['K', 'E', 'Y', '_', 'C', 'O', 'L', 'U', 'M', 'N', '='];

const LOOKUP_COLUMN: [char; 18] = [
    'L', 'O', 'O', 'K', 'U', 'P', '_', 'K', 'E', 'Y', '_', 'C', 'O', 'L', 'U', 'M', 'N', '=',
];

const EXTERNAL_ID: [char; 19] = [
    'E', 'X', 'T', 'E', 'R', 'N', 'A', 'L', '_', 'I', 'D', '_', 'C', 'O', 'L', 'U', 'M', 'N', '=',
];

/// The keys of a `lookuptable` router's expression.
#[derive(Clone, Copy, Debug)]
pub enum LookupKey {
    Table,
    Column,
    LookupColumn,
    ExternalId,
}

/// Where the reading of a `lookuptable` router's expression stands: in a key, in a name, or after
/// the last line.
#[derive(Clone, Copy, Debug)]
pub enum LookupPart {
    Key,
    Name,
    Ended,
}

/// What is read of a `lookuptable` router's expression so far.
#[derive(Debug, Drop)]
pub struct LookupReading {
    pub table: Option<Txt>,
    pub column: Option<Txt>,
    pub lookup_column: Option<Txt>,
    pub external_id: Option<Txt>,
    pub key: LookupKey,
    pub word: List<char>,
    pub part: LookupPart,
}

/// The lookup of a `lookuptable` router's expression, or the place of the first character, from 0,
/// from which no continuation has the form; where the text ends too early that is its length.
pub fn lookup_text(alloc: Global, text: &str) -> Result<Result<Lookup, usize>, NoMemory>
    ensures form { IfOk result (λ read. ReadsAs IsLookupForm (chars text.now) read) }
    ensures decided { IfOk result (λ read. read ≡ wanted.lookup_read (chars text.now)) }
{
    let characters = characters_of(alloc, text)?;
    read_text(alloc, beginning(alloc), characters.as_slice())
}

impl Automaton<Lookup> for LookupReading {
    ghost step = { wanted.step };

    ghost finish = { wanted.finish };

    fn read(&mut self, alloc: Global, c: char) -> Result<bool, NoMemory> {
        match self.part {
            LookupPart::Key => step_key(alloc, self, c),
            LookupPart::Name => step_name(alloc, self, c),
            LookupPart::Ended => Ok(false),
        }
    }

    fn end(self, alloc: Global) -> Result<Option<Lookup>, NoMemory> {
        match self.part {
            LookupPart::Key => Ok(None),
            LookupPart::Name => last_line(alloc, self),
            LookupPart::Ended => Ok(lookup_of(self)),
        }
    }
}

fn beginning(alloc: Global) -> LookupReading
    ensures { result ≡ wanted.beginning }
{
    LookupReading {
        table: None,
        column: None,
        lookup_column: None,
        external_id: None,
        key: LookupKey::Table,
        word: List::new(alloc),
        part: LookupPart::Key,
    }
}

fn last_line(alloc: Global, mut reading: LookupReading) -> Result<Option<Lookup>, NoMemory>
    ensures { IfOk result (λ lookup. lookup ≡ wanted.last_line reading reading.word) }
{
    if reading.word.inner().is_empty() {
        return Ok(None);
    }
    let name = text_of(alloc, reading.word.inner().as_slice())?;
    let key = reading.key;
    put_line(&mut reading, key, name);
    Ok(lookup_of(reading))
}

fn lookup_of(reading: LookupReading) -> Option<Lookup>
    ensures { result ≡ wanted.lookup_of reading }
{
    match (
        reading.table,
        reading.column,
        reading.lookup_column,
        reading.external_id,
    ) {
        (Some(table), Some(column), Some(lookup_column), Some(external_id)) => Some(Lookup {
            table,
            column,
            lookup_column,
            external_id,
        }),
        _ => None,
    }
}

fn step_key(alloc: Global, reading: &mut LookupReading, c: char) -> Result<bool, NoMemory>
    ensures { LeadsTo result reading.new (wanted.step_key reading.old c) }
{
    let mut word = List::of(reading.word.inner().as_slice().to_vec(alloc)?);
    word.push(c)?;
    match key_of(reading, word.inner().as_slice()) {
        Some(key) => {
            reading.word = List::new(alloc);
            reading.key = key;
            reading.part = LookupPart::Name;
            Ok(true)
        }
        None => Ok(longer(reading, word)),
    }
}

fn longer(reading: &mut LookupReading, word: List<char>) -> bool
    ensures { (if result then Some reading.new else None) ≡ wanted.key_read reading.old word None }
{
    let goes = begins_any(reading, word.inner().as_slice());
    reading.word = word;
    goes
}

fn step_name(alloc: Global, reading: &mut LookupReading, c: char) -> Result<bool, NoMemory>
    ensures { LeadsTo result reading.new (wanted.step_name reading.old c) }
{
    if is_name_character(c) {
        let goes = reading.word.inner().len() < LONGEST_NAME;
        reading.word.push(c)?;
        return Ok(goes);
    }
    if c != '\n' || reading.word.inner().is_empty() {
        return Ok(false);
    }
    let name = text_of(alloc, reading.word.inner().as_slice())?;
    let key = reading.key;
    put_line(reading, key, name);
    reading.part = part_after(reading);
    reading.word = List::new(alloc);
    Ok(true)
}

fn part_after(reading: &LookupReading) -> LookupPart
    ensures { result ≡ wanted.part_after (wanted.lookup_of reading.now) }
{
    match (
        &reading.table,
        &reading.column,
        &reading.lookup_column,
        &reading.external_id,
    ) {
        (Some(_), Some(_), Some(_), Some(_)) => LookupPart::Ended,
        _ => LookupPart::Key,
    }
}

fn put_line(reading: &mut LookupReading, key: LookupKey, name: Txt)
    ensures { reading.new ≡ wanted.with_line key reading.old name }
{
    match key {
        LookupKey::Table => reading.table = Some(name),
        LookupKey::Column => reading.column = Some(name),
        LookupKey::LookupColumn => reading.lookup_column = Some(name),
        LookupKey::ExternalId => reading.external_id = Some(name),
    }
}

fn key_of(reading: &LookupReading, word: &[char]) -> Option<LookupKey>
    ensures { result ≡ wanted.key_of reading.now word.now }
{
    if is_key(reading, word, LookupKey::Table) {
        return Some(LookupKey::Table);
    }
    if is_key(reading, word, LookupKey::Column) {
        return Some(LookupKey::Column);
    }
    if is_key(reading, word, LookupKey::LookupColumn) {
        return Some(LookupKey::LookupColumn);
    }
    if is_key(reading, word, LookupKey::ExternalId) {
        return Some(LookupKey::ExternalId);
    }
    None
}

fn begins_any(reading: &LookupReading, word: &[char]) -> bool
    ensures { result ≡ wanted.begins reading.now word.now }
{
    begins_key(reading, word, LookupKey::Table)
        || begins_key(reading, word, LookupKey::Column)
        || begins_key(reading, word, LookupKey::LookupColumn)
        || begins_key(reading, word, LookupKey::ExternalId)
}

fn is_key(reading: &LookupReading, word: &[char], key: LookupKey) -> bool
    ensures { result ≡ wanted.is_key reading.now word.now key }
{
    is_open(reading, key) && is_text(word, key)
}

fn begins_key(reading: &LookupReading, word: &[char], key: LookupKey) -> bool
    ensures { result ≡ wanted.begins_key reading.now word.now key }
{
    is_open(reading, key) && begins_text(word, key)
}

fn is_open(reading: &LookupReading, key: LookupKey) -> bool
    ensures { result ≡ wanted.is_open reading.now key }
{
    match key {
        LookupKey::Table => reading.table.is_none(),
        LookupKey::Column => reading.column.is_none(),
        LookupKey::LookupColumn => reading.lookup_column.is_none(),
        LookupKey::ExternalId => reading.external_id.is_none(),
    }
}

fn is_text(word: &[char], key: LookupKey) -> bool
    ensures { result ≡ bytes_eq word.now (key_text key) }
{
    match key {
        LookupKey::Table => word == TABLE.as_slice(),
        LookupKey::Column => word == COLUMN.as_slice(),
        LookupKey::LookupColumn => word == LOOKUP_COLUMN.as_slice(),
        LookupKey::ExternalId => word == EXTERNAL_ID.as_slice(),
    }
}

fn begins_text(word: &[char], key: LookupKey) -> bool
    ensures { result ≡ starts_with (λ a b. a == b) (key_text key) word.now }
{
    match key {
        LookupKey::Table => begins(&TABLE, word),
        LookupKey::Column => begins(&COLUMN, word),
        LookupKey::LookupColumn => begins(&LOOKUP_COLUMN, word),
        LookupKey::ExternalId => begins(&EXTERNAL_ID, word),
    }
}
