//! The expression of a `column` router.
ghost use Rattle.std.specs.Prelude.{◌≡◌, ◌∷◌, [], IfOk, if◌then◌else◌};
ghost use Rattle.std.specs.Str.{chars};
ghost use Rattle.sds_expressions.specs.Automaton.{LeadsTo};
ghost use Rattle.sds_expressions.specs.BadPlaces.{ReadsAs};
ghost use Rattle.sds_expressions.specs.ColumnForm.{IsColumnForm, begins_old, is_bare_character};
ghost use Rattle.sds_expressions.specs.ColumnRouter as wanted;

use crate::automaton::{Automaton, read_text};
use crate::letters::{LONGEST_NAME, begins, characters_of, is_name_character, one, text_of};
use sds_base::{List, NoMemory};
use sds_types::{ColumnTest, Operand};
use std::alloc::Global;

const NODE_ID: [char; 7] = ['N', 'O', 'D', 'E', '_', 'I', 'D'];

const EXTERNAL_ID: [char; 11] = ['E', 'X', 'T', 'E', 'R', 'N', 'A', 'L', '_', 'I', 'D'];

const NODE_GROUP_ID: [char; 13] = [
    'N', 'O', 'D', 'E', '_', 'G', 'R', 'O', 'U', 'P', '_', 'I', 'D',
];

const NULL: [char; 4] = ['N', 'U', 'L', 'L'];

/// Where the reading of a `column` router's expression stands.
#[derive(Clone, Copy, Debug)]
pub enum ColumnPart {
    /// Before a test.
    Before,
    /// After a line feed, which may be the end.
    Fresh,
    /// In a name, and after it.
    Name,
    Named,
    /// Between `!` and `=`.
    Bang,
    /// After the sign.
    Sign,
    /// In a word after a colon.
    Colon,
    /// In a bare text.
    Bare,
    /// Between quotes.
    Quoted,
    /// After a quote that ends the text or is the first of two.
    Quote,
    /// After a test and a space.
    After,
    /// After the first letter of `or`, and after both.
    Letter,
    Joined,
}

/// What is read of a `column` router's expression so far.
#[derive(Debug, Drop)]
pub struct ColumnReading {
    pub tests: List<ColumnTest>,
    pub name: List<char>,
    pub differs: bool,
    pub text: List<char>,
    pub part: ColumnPart,
}

/// The tests of a `column` router's expression, or the place of the first character, from 0, from
/// which no continuation has the form; where the text ends too early that is its length.
pub fn column_tests(alloc: Global, text: &str) -> Result<Result<List<ColumnTest>, usize>, NoMemory>
    ensures form { IfOk result (λ read. ReadsAs IsColumnForm (chars text.now) read) }
    ensures decided { IfOk result (λ read. read ≡ wanted.tests_of (chars text.now)) }
{
    let characters = characters_of(alloc, text)?;
    read_text(alloc, beginning(alloc), characters.as_slice())
}

impl Automaton<List<ColumnTest>> for ColumnReading {
    ghost step = { wanted.step };

    ghost finish = { wanted.finish };

    fn read(&mut self, alloc: Global, c: char) -> Result<bool, NoMemory> {
        match self.part {
            ColumnPart::Before | ColumnPart::Fresh => step_before(alloc, self, c),
            ColumnPart::Name => step_name(alloc, self, c),
            ColumnPart::Named => step_named(alloc, self, c),
            ColumnPart::Bang => step_bang(alloc, self, c),
            ColumnPart::Sign => step_sign(alloc, self, c),
            ColumnPart::Colon => step_colon(alloc, self, c),
            ColumnPart::Bare => step_bare(alloc, self, c),
            ColumnPart::Quoted => step_quoted(alloc, self, c),
            ColumnPart::Quote => step_quote(alloc, self, c),
            ColumnPart::After => step_after(alloc, self, c),
            ColumnPart::Letter => step_letter(alloc, self, c),
            ColumnPart::Joined => step_joined(alloc, self, c),
        }
    }

    fn end(self, alloc: Global) -> Result<Option<List<ColumnTest>>, NoMemory> {
        let text = self.text.inner().as_slice();
        let operand = match self.part {
            ColumnPart::After | ColumnPart::Fresh => return Ok(Some(self.tests)),
            ColumnPart::Colon => operand_named(text),
            ColumnPart::Bare => Some(bare_operand(alloc, text)?),
            ColumnPart::Quote => Some(Operand::Text(text_of(alloc, text)?)),
            _ => None,
        };
        last_test(alloc, self, operand)
    }
}

fn beginning(alloc: Global) -> ColumnReading
    ensures { result ≡ wanted.beginning }
{
    ColumnReading {
        tests: List::new(alloc),
        name: List::new(alloc),
        differs: false,
        text: List::new(alloc),
        part: ColumnPart::Before,
    }
}

fn last_test(
    alloc: Global,
    reading: ColumnReading,
    operand: Option<Operand>,
) -> Result<Option<List<ColumnTest>>, NoMemory>
    ensures { IfOk result (λ tests. tests ≡ wanted.tests_ended reading operand) }
{
    match operand {
        None => Ok(None),
        Some(operand) => {
            let mut reading = reading;
            let test = test_of(alloc, &reading, operand)?;
            reading.tests.push(test)?;
            Ok(Some(reading.tests))
        }
    }
}

fn step_before(alloc: Global, reading: &mut ColumnReading, c: char) -> Result<bool, NoMemory>
    ensures { LeadsTo result reading.new (wanted.step_before reading.old c) }
{
    if c == ' ' {
        reading.part = ColumnPart::Before;
        return Ok(true);
    }
    if !is_name_character(c) {
        return Ok(false);
    }
    reading.name = one(alloc, c)?;
    reading.part = ColumnPart::Name;
    Ok(true)
}

fn step_named(_alloc: Global, reading: &mut ColumnReading, c: char) -> Result<bool, NoMemory>
    ensures { LeadsTo result reading.new (wanted.step_named reading.old c) }
{
    match c {
        ' ' => reading.part = ColumnPart::Named,
        '=' => {
            reading.differs = false;
            reading.part = ColumnPart::Sign;
        }
        '!' => reading.part = ColumnPart::Bang,
        _ => return Ok(false),
    }
    Ok(true)
}

fn step_name(alloc: Global, reading: &mut ColumnReading, c: char) -> Result<bool, NoMemory>
    ensures { LeadsTo result reading.new (wanted.step_name reading.old c) }
{
    if !is_name_character(c) {
        if !is_whole(reading.name.inner().as_slice()) {
            return Ok(false);
        }
        return step_named(alloc, reading, c);
    }
    reading.name.push(c)?;
    Ok(is_short(reading.name.inner().as_slice()))
}

fn step_bang(_alloc: Global, reading: &mut ColumnReading, c: char) -> Result<bool, NoMemory>
    ensures { LeadsTo result reading.new (wanted.step_bang reading.old c) }
{
    if c != '=' {
        return Ok(false);
    }
    reading.differs = true;
    reading.part = ColumnPart::Sign;
    Ok(true)
}

fn step_sign(alloc: Global, reading: &mut ColumnReading, c: char) -> Result<bool, NoMemory>
    ensures { LeadsTo result reading.new (wanted.step_sign reading.old c) }
{
    if c == ' ' {
        return Ok(true);
    }
    if c == '\'' {
        reading.text = List::new(alloc);
        reading.part = ColumnPart::Quoted;
        return Ok(true);
    }
    if c == ':' {
        reading.text = List::new(alloc);
        reading.part = ColumnPart::Colon;
        return Ok(true);
    }
    if !is_bare_character(c) {
        return Ok(false);
    }
    reading.text = one(alloc, c)?;
    reading.part = ColumnPart::Bare;
    Ok(true)
}

fn step_colon(alloc: Global, reading: &mut ColumnReading, c: char) -> Result<bool, NoMemory>
    ensures { LeadsTo result reading.new (wanted.step_colon reading.old c) }
{
    let mut longer = List::of(reading.text.inner().as_slice().to_vec(alloc)?);
    longer.push(c)?;
    if begins_word(longer.inner().as_slice()) {
        reading.text = longer;
        return Ok(true);
    }
    let operand = operand_named(reading.text.inner().as_slice());
    ended(alloc, reading, c, operand)
}

fn step_bare(alloc: Global, reading: &mut ColumnReading, c: char) -> Result<bool, NoMemory>
    ensures { LeadsTo result reading.new (wanted.step_bare reading.old c) }
{
    if is_bare_character(c) {
        reading.text.push(c)?;
        return Ok(true);
    }
    let operand = bare_operand(alloc, reading.text.inner().as_slice())?;
    ended(alloc, reading, c, Some(operand))
}

fn step_quoted(_alloc: Global, reading: &mut ColumnReading, c: char) -> Result<bool, NoMemory>
    ensures { LeadsTo result reading.new (wanted.step_quoted reading.old c) }
{
    if c == '\'' {
        reading.part = ColumnPart::Quote;
        return Ok(true);
    }
    reading.text.push(c)?;
    Ok(true)
}

fn step_quote(alloc: Global, reading: &mut ColumnReading, c: char) -> Result<bool, NoMemory>
    ensures { LeadsTo result reading.new (wanted.step_quote reading.old c) }
{
    if c == '\'' {
        reading.text.push(c)?;
        reading.part = ColumnPart::Quoted;
        return Ok(true);
    }
    let text = text_of(alloc, reading.text.inner().as_slice())?;
    ended(alloc, reading, c, Some(Operand::Text(text)))
}

fn step_after(_alloc: Global, reading: &mut ColumnReading, c: char) -> Result<bool, NoMemory>
    ensures { LeadsTo result reading.new (wanted.step_after reading.old c) }
{
    match c {
        ' ' => {}
        '\n' => reading.part = ColumnPart::Fresh,
        'o' => reading.part = ColumnPart::Letter,
        _ => return Ok(false),
    }
    Ok(true)
}

fn step_letter(_alloc: Global, reading: &mut ColumnReading, c: char) -> Result<bool, NoMemory>
    ensures { LeadsTo result reading.new (wanted.step_letter reading.old c) }
{
    if c != 'r' {
        return Ok(false);
    }
    reading.part = ColumnPart::Joined;
    Ok(true)
}

fn step_joined(_alloc: Global, reading: &mut ColumnReading, c: char) -> Result<bool, NoMemory>
    ensures { LeadsTo result reading.new (wanted.step_joined reading.old c) }
{
    if c != ' ' {
        return Ok(false);
    }
    reading.part = ColumnPart::Before;
    Ok(true)
}

/// What a value leads to, after which a space or a line feed stands.
fn ended(
    alloc: Global,
    reading: &mut ColumnReading,
    c: char,
    operand: Option<Operand>,
) -> Result<bool, NoMemory>
    ensures { LeadsTo result reading.new (wanted.ended reading.old c operand) }
{
    let Some(operand) = operand else {
        return Ok(false);
    };
    let next = match c {
        ' ' => ColumnPart::After,
        '\n' => ColumnPart::Fresh,
        _ => return Ok(false),
    };
    let test = test_of(alloc, reading, operand)?;
    reading.tests.push(test)?;
    reading.part = next;
    Ok(true)
}

fn test_of(alloc: Global, reading: &ColumnReading, operand: Operand) -> Result<ColumnTest, NoMemory>
    ensures { IfOk result (λ test. test ≡ wanted.test_of reading.now operand) }
{
    let name = reading.name.inner().as_slice();
    Ok(ColumnTest {
        name: text_of(alloc, column_name(name))?,
        old: begins_old(name),
        differs: reading.differs,
        operand,
    })
}

fn begins_old(name: &[char]) -> bool
    ensures { result ≡ begins_old name.now }
{
    begins(name, &['O', 'L', 'D', '_'])
}

fn column_name(name: &[char]) -> &[char]
    ensures { result.now ≡ wanted.column_name name.now }
{
    match name {
        ['O', 'L', 'D', '_', rest @ ..] => rest,
        _ => name,
    }
}

fn is_short(name: &[char]) -> bool
    ensures { result ≡ wanted.is_short name.now }
{
    column_name(name).len() <= LONGEST_NAME
}

fn is_whole(name: &[char]) -> bool
    ensures { result ≡ wanted.is_whole name.now }
{
    !column_name(name).is_empty()
}

fn is_bare_character(c: char) -> bool
    ensures { result ≡ is_bare_character c }
{
    is_name_character(c) || c == '.'
}

fn operand_named(word: &[char]) -> Option<Operand>
    ensures { result ≡ wanted.operand_named word.now }
{
    if word == NODE_ID.as_slice() {
        return Some(Operand::NodeId);
    }
    if word == EXTERNAL_ID.as_slice() {
        return Some(Operand::ExternalId);
    }
    if word == NODE_GROUP_ID.as_slice() {
        return Some(Operand::NodeGroupId);
    }
    None
}

fn begins_word(prefix: &[char]) -> bool
    ensures { result ≡ wanted.begins_word prefix.now }
{
    begins(&NODE_ID, prefix) || begins(&EXTERNAL_ID, prefix) || begins(&NODE_GROUP_ID, prefix)
}

fn bare_operand(alloc: Global, text: &[char]) -> Result<Operand, NoMemory>
    ensures { IfOk result (λ operand. operand ≡ wanted.bare_operand text.now) }
{
    if text == NULL.as_slice() {
        return Ok(Operand::Null);
    }
    Ok(Operand::Text(text_of(alloc, text)?))
}
