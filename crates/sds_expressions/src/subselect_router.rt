//! The expression of a `subselect` router.
ghost use Rattle.std.specs.Prelude.{◌≡◌, true, false, IfOk, OnOk, if◌then◌else◌};
ghost use Rattle.std.specs.Str.{chars};
ghost use Rattle.sds_expressions.specs.Automaton.{LeadsTo};
ghost use Rattle.sds_expressions.specs.BadPlaces.{ReadsAs};
ghost use Rattle.sds_expressions.specs.SubselectForm.{IsSubselectForm, is_spacing};
ghost use Rattle.sds_expressions.specs.SubselectRouter as wanted;

use crate::automaton::{Automaton, read_text};
use crate::letters::{LONGEST_NAME, begins, characters_of, is_name_character, one, text_of};
use sds_base::{List, NoMemory};
use sds_types::{Compared, Condition, NodeColumn, Subselect};
use std::alloc::Global;

const NODE: [char; 1] = ['c'];

const EXTERNAL_ID: [char; 11] = ['e', 'x', 't', 'e', 'r', 'n', 'a', 'l', '_', 'i', 'd'];

const NODE_ID: [char; 7] = ['n', 'o', 'd', 'e', '_', 'i', 'd'];

const IN: [char; 2] = ['i', 'n'];

const SELECT: [char; 6] = ['s', 'e', 'l', 'e', 'c', 't'];

const FROM: [char; 4] = ['f', 'r', 'o', 'm'];

const WHERE: [char; 5] = ['w', 'h', 'e', 'r', 'e'];

const AND: [char; 3] = ['a', 'n', 'd'];

/// Where the reading of a `subselect` router's expression stands: at a keyword, a sign, a name or a
/// value.
#[derive(Clone, Copy, Debug)]
pub enum SubselectSlot {
    /// `c`
    Prefix,
    /// `.`
    Dot,
    /// `external_id` or `node_id`
    Which,
    /// `in`
    In,
    /// `(`
    Open,
    /// `select`
    Select,
    /// The column that is chosen.
    Column,
    /// `from`
    From,
    /// The table.
    Table,
    /// `where`
    Where,
    /// The column of a condition.
    Tested,
    /// `=`
    Equals,
    /// A colon, or a quote.
    Value,
    /// The column of the routed row.
    Routed,
    /// Between quotes.
    Quoted,
    /// After a quote that ends the text or is the first of two.
    Quote,
    /// `and`, or `)`.
    Next,
    /// After the closing parenthesis.
    Close,
}

/// What is read of a `subselect` router's expression so far.
#[derive(Debug, Drop)]
pub struct SubselectReading {
    pub by: NodeColumn,
    pub column: List<char>,
    pub table: List<char>,
    pub tested: List<char>,
    pub conditions: List<Condition>,
    /// The word or text so far.
    pub word: List<char>,
    /// Whether a word may begin here.
    pub spaced: bool,
    pub slot: SubselectSlot,
}

/// The choice of a `subselect` router's expression, or the place of the first character, from 0,
/// from which no continuation has the form; where the text ends too early that is its length.
pub fn subselect_text(alloc: Global, text: &str) -> Result<Result<Subselect, usize>, NoMemory>
    ensures form { IfOk result (λ read. ReadsAs IsSubselectForm (chars text.now) read) }
    ensures decided { IfOk result (λ read. read ≡ wanted.subselect_of (chars text.now)) }
{
    let characters = characters_of(alloc, text)?;
    read_text(alloc, beginning(alloc), characters.as_slice())
}

impl Automaton<Subselect> for SubselectReading {
    ghost step = { wanted.step };

    ghost finish = { wanted.finish };

    fn read(&mut self, alloc: Global, c: char) -> Result<bool, NoMemory> {
        match self.slot {
            SubselectSlot::Quoted => in_quotes(alloc, self, c),
            SubselectSlot::Quote => after_quote(alloc, self, c),
            _ => outside(alloc, self, c),
        }
    }

    fn end(self, alloc: Global) -> Result<Option<Subselect>, NoMemory> {
        match self.slot {
            SubselectSlot::Close => Ok(Some(Subselect {
                by: self.by,
                column: text_of(alloc, self.column.inner().as_slice())?,
                table: text_of(alloc, self.table.inner().as_slice())?,
                conditions: self.conditions,
            })),
            _ => Ok(None),
        }
    }
}

fn beginning(alloc: Global) -> SubselectReading
    ensures { result ≡ wanted.beginning }
{
    SubselectReading {
        by: NodeColumn::ExternalId,
        column: List::new(alloc),
        table: List::new(alloc),
        tested: List::new(alloc),
        conditions: List::new(alloc),
        word: List::new(alloc),
        spaced: true,
        slot: SubselectSlot::Prefix,
    }
}

fn outside(alloc: Global, reading: &mut SubselectReading, c: char) -> Result<bool, NoMemory>
    ensures { LeadsTo result reading.new (wanted.outside reading.old.word reading.old c) }
{
    if reading.word.inner().is_empty() {
        return fresh(alloc, reading, c);
    }
    if takes_name(reading.slot) {
        return in_name(alloc, reading, c);
    }
    in_keyword(alloc, reading, c)
}

fn in_quotes(_alloc: Global, reading: &mut SubselectReading, c: char) -> Result<bool, NoMemory>
    ensures { LeadsTo result reading.new (wanted.in_quotes reading.old c) }
{
    if c == '\'' {
        reading.slot = SubselectSlot::Quote;
        return Ok(true);
    }
    reading.word.push(c)?;
    Ok(true)
}

fn after_quote(alloc: Global, reading: &mut SubselectReading, c: char) -> Result<bool, NoMemory>
    ensures { LeadsTo result reading.new (wanted.after_quote reading.old c) }
{
    if c == '\'' {
        reading.word.push(c)?;
        reading.slot = SubselectSlot::Quoted;
        return Ok(true);
    }
    let text = text_of(alloc, reading.word.inner().as_slice())?;
    put_condition(alloc, reading, Compared::Text(text), true)?;
    fresh(alloc, reading, c)
}

fn in_name(alloc: Global, reading: &mut SubselectReading, c: char) -> Result<bool, NoMemory>
    ensures { LeadsTo result reading.new (wanted.in_name reading.old c) }
{
    if is_name_character(c) {
        let goes = reading.word.inner().len() < LONGEST_NAME;
        reading.word.push(c)?;
        return Ok(goes);
    }
    finish(alloc, reading)?;
    fresh(alloc, reading, c)
}

fn in_keyword(alloc: Global, reading: &mut SubselectReading, c: char) -> Result<bool, NoMemory>
    ensures { LeadsTo result reading.new (wanted.in_keyword reading.old c) }
{
    let mut word = List::of(reading.word.inner().as_slice().to_vec(alloc)?);
    word.push(c.to_ascii_lowercase())?;
    if begins_keyword(reading.slot, word.inner().as_slice()) {
        reading.word = word;
        return Ok(true);
    }
    if !is_keyword(reading.slot, reading.word.inner().as_slice()) {
        return Ok(false);
    }
    finish(alloc, reading)?;
    fresh(alloc, reading, c)
}

fn fresh(alloc: Global, reading: &mut SubselectReading, c: char) -> Result<bool, NoMemory>
    ensures { LeadsTo result reading.new (wanted.fresh reading.old c) }
{
    match reading.slot {
        SubselectSlot::Dot => Ok(sign(alloc, reading, c, '.', SubselectSlot::Which)),
        SubselectSlot::Open => Ok(sign(alloc, reading, c, '(', SubselectSlot::Select)),
        SubselectSlot::Equals => Ok(sign(alloc, reading, c, '=', SubselectSlot::Value)),
        SubselectSlot::Value => before_value(alloc, reading, c),
        SubselectSlot::Column
        | SubselectSlot::Table
        | SubselectSlot::Tested
        | SubselectSlot::Routed => before_name(alloc, reading, c),
        SubselectSlot::Next => before_next(alloc, reading, c),
        SubselectSlot::Close => Ok(is_spacing(c)),
        _ => before_keyword(alloc, reading, c),
    }
}

/// A sign, round which spacing may stand.
fn sign(
    alloc: Global,
    reading: &mut SubselectReading,
    c: char,
    mark: char,
    next: SubselectSlot,
) -> bool
    ensures { (if result then Some reading.new else None) ≡ wanted.sign mark next reading.old c }
{
    if is_spacing(c) {
        return true;
    }
    if c != mark {
        return false;
    }
    put_slot(alloc, reading, next, true);
    true
}

fn before_keyword(alloc: Global, reading: &mut SubselectReading, c: char) -> Result<bool, NoMemory>
    ensures { LeadsTo result reading.new (wanted.before_keyword reading.old c) }
{
    if is_spacing(c) {
        reading.spaced = true;
        return Ok(true);
    }
    let word = one(alloc, c.to_ascii_lowercase())?;
    if !reading.spaced || !begins_keyword(reading.slot, word.inner().as_slice()) {
        return Ok(false);
    }
    reading.word = word;
    Ok(true)
}

fn before_name(alloc: Global, reading: &mut SubselectReading, c: char) -> Result<bool, NoMemory>
    ensures { LeadsTo result reading.new (wanted.before_name reading.old c) }
{
    if is_spacing(c) {
        reading.spaced = true;
        return Ok(true);
    }
    if !reading.spaced || !is_name_character(c) {
        return Ok(false);
    }
    reading.word = one(alloc, c)?;
    Ok(true)
}

fn before_next(alloc: Global, reading: &mut SubselectReading, c: char) -> Result<bool, NoMemory>
    ensures { LeadsTo result reading.new (wanted.before_next reading.old c) }
{
    if c == ')' {
        put_slot(alloc, reading, SubselectSlot::Close, true);
        return Ok(true);
    }
    before_keyword(alloc, reading, c)
}

fn before_value(alloc: Global, reading: &mut SubselectReading, c: char) -> Result<bool, NoMemory>
    ensures { LeadsTo result reading.new (wanted.before_value reading.old c) }
{
    if is_spacing(c) {
        return Ok(true);
    }
    let next = match c {
        ':' => SubselectSlot::Routed,
        '\'' => SubselectSlot::Quoted,
        _ => return Ok(false),
    };
    put_slot(alloc, reading, next, true);
    Ok(true)
}

/// Stands before a slot, where a word may begin at once or only after spacing.
fn put_slot(alloc: Global, reading: &mut SubselectReading, next: SubselectSlot, spaced: bool)
    ensures { reading.new ≡ wanted.moved reading.old next spaced }
{
    reading.word = List::new(alloc);
    reading.spaced = spaced;
    reading.slot = next;
}

fn put_condition(
    alloc: Global,
    reading: &mut SubselectReading,
    value: Compared,
    spaced: bool,
) -> Result<(), NoMemory>
    ensures { OnOk result (reading.new ≡ wanted.with_condition reading.old value spaced) }
{
    let column = text_of(alloc, reading.tested.inner().as_slice())?;
    reading.conditions.push(Condition { column, value })?;
    put_slot(alloc, reading, SubselectSlot::Next, spaced);
    Ok(())
}

/// Goes on after a whole word.
fn finish(alloc: Global, reading: &mut SubselectReading) -> Result<(), NoMemory>
    ensures { OnOk result (reading.new ≡ wanted.finished_at reading.old.slot reading.old) }
{
    match reading.slot {
        SubselectSlot::Column
        | SubselectSlot::Table
        | SubselectSlot::Tested
        | SubselectSlot::Routed => finish_name(alloc, reading),
        _ => {
            finish_keyword(alloc, reading);
            Ok(())
        }
    }
}

fn finish_name(alloc: Global, reading: &mut SubselectReading) -> Result<(), NoMemory>
    requires { wanted.takes_name reading.old.slot ≡ true }
    ensures { OnOk result (reading.new ≡ wanted.finished_at reading.old.slot reading.old) }
{
    let word = List::of(reading.word.inner().as_slice().to_vec(alloc)?);
    match reading.slot {
        SubselectSlot::Column => {
            reading.column = word;
            put_slot(alloc, reading, SubselectSlot::From, false);
        }
        SubselectSlot::Table => {
            reading.table = word;
            put_slot(alloc, reading, SubselectSlot::Where, false);
        }
        SubselectSlot::Tested => {
            reading.tested = word;
            put_slot(alloc, reading, SubselectSlot::Equals, false);
        }
        _ => {
            let name = text_of(alloc, word.inner().as_slice())?;
            return put_condition(alloc, reading, Compared::Routed(name), false);
        }
    }
    Ok(())
}

fn finish_keyword(alloc: Global, reading: &mut SubselectReading)
    requires { wanted.takes_name reading.old.slot ≡ false }
    ensures { reading.new ≡ wanted.finished_at reading.old.slot reading.old }
{
    let next = match reading.slot {
        SubselectSlot::Prefix => SubselectSlot::Dot,
        SubselectSlot::Which => {
            reading.by = node_column(reading.word.inner().as_slice());
            SubselectSlot::In
        }
        SubselectSlot::In => SubselectSlot::Open,
        SubselectSlot::Select => SubselectSlot::Column,
        SubselectSlot::From => SubselectSlot::Table,
        SubselectSlot::Where | SubselectSlot::Next => SubselectSlot::Tested,
        _ => return,
    };
    put_slot(alloc, reading, next, false);
}

fn node_column(word: &[char]) -> NodeColumn
    ensures { result ≡ wanted.node_column word.now }
{
    if word == NODE_ID.as_slice() {
        return NodeColumn::NodeId;
    }
    NodeColumn::ExternalId
}

fn is_spacing(c: char) -> bool
    ensures { result ≡ is_spacing c }
{
    c == ' ' || c == '\t' || c == '\r' || c == '\n'
}

fn takes_name(slot: SubselectSlot) -> bool
    ensures { result ≡ wanted.takes_name slot }
{
    matches!(
        slot,
        SubselectSlot::Column | SubselectSlot::Table | SubselectSlot::Tested | SubselectSlot::Routed
    )
}

fn is_keyword(slot: SubselectSlot, word: &[char]) -> bool
    ensures { result ≡ wanted.is_keyword slot word.now }
{
    match slot {
        SubselectSlot::Prefix => word == NODE.as_slice(),
        SubselectSlot::Which => word == EXTERNAL_ID.as_slice() || word == NODE_ID.as_slice(),
        SubselectSlot::In => word == IN.as_slice(),
        SubselectSlot::Select => word == SELECT.as_slice(),
        SubselectSlot::From => word == FROM.as_slice(),
        SubselectSlot::Where => word == WHERE.as_slice(),
        SubselectSlot::Next => word == AND.as_slice(),
        _ => false,
    }
}

fn begins_keyword(slot: SubselectSlot, word: &[char]) -> bool
    ensures { result ≡ wanted.begins_keyword slot word.now }
{
    match slot {
        SubselectSlot::Prefix => begins(&NODE, word),
        SubselectSlot::Which => begins(&EXTERNAL_ID, word) || begins(&NODE_ID, word),
        SubselectSlot::In => begins(&IN, word),
        SubselectSlot::Select => begins(&SELECT, word),
        SubselectSlot::From => begins(&FROM, word),
        SubselectSlot::Where => begins(&WHERE, word),
        SubselectSlot::Next => begins(&AND, word),
        _ => false,
    }
}
