//! The current table of a batch, and the rows that are given under it.
ghost use Rattle.std.specs.Prelude.{◌≡◌, ◌+◌, ◌==◌, IfOk, length};
ghost use Rattle.sds_batchtext.specs.Judging as stated;
ghost use Rattle.sds_batchtext.specs.Documents.{given_text, row_of};

use crate::DocLine;
use sds_base::{List, NoMemory, Twin, Txt};
use sds_value::{DocRow, Event, Field};
use std::alloc::Global;

/// The table that a batch is at, where it is at one, and the names that hold for it.
#[derive(Debug, Drop)]
pub struct Heading {
    pub table: Option<Txt>,
    pub keys: Option<List<Txt>>,
    pub columns: Option<List<Txt>>,
}

/// The names that are given, of which there are none where they aren't.
fn given_names(alloc: Global, names: &Option<List<Txt>>) -> Result<List<Txt>, NoMemory>
    ensures { IfOk result (λ copy. copy ≡ stated.given names.now) }
{
    match names {
        None => Ok(List::new(alloc)),
        Some(names) => names.twin(alloc),
    }
}

/// The text that is given, which is empty where it isn't.
pub(crate) fn given_text(alloc: Global, text: &Option<Txt>) -> Result<Txt, NoMemory>
    ensures { IfOk result (λ copy. copy ≡ given_text text.now) }
{
    match text {
        None => Ok(Txt::of(String::new(alloc))),
        Some(text) => text.twin(alloc),
    }
}

/// How many names are given.
fn count_of(names: &Option<List<Txt>>) -> usize
    ensures { result ≡ length (stated.given names.now) }
{
    match names {
        None => 0,
        Some(names) => names.inner().len(),
    }
}

/// Whether a count is the sum of two others.
fn is_sum(count: usize, first: usize, second: usize) -> bool
    ensures { result ≡ (count == first + second) }
{
    count >= first && count - first == second
}

impl Heading {
    /// A row of the table.
    pub(crate) fn row(
        &self,
        alloc: Global,
        event: Event,
        new: List<Field>,
        key: List<Field>,
        old: Option<List<Field>>,
    ) -> Result<DocRow, NoMemory>
        ensures { IfOk result (λ row. row ≡ row_of self.now event new key old) }
    {
        Ok(DocRow {
            event,
            table: given_text(alloc, &self.table)?,
            keys: given_names(alloc, &self.keys)?,
            columns: given_names(alloc, &self.columns)?,
            new,
            key,
            old,
        })
    }

    /// How many columns are given.
    pub(crate) fn width(&self) -> usize
        ensures { result ≡ length (stated.given self.now.columns) }
    {
        count_of(&self.columns)
    }

    /// Whether a table is the current one, and its keys and columns are given.
    pub(crate) fn is_complete(&self) -> bool
        ensures { result ≡ stated.is_complete self.now }
    {
        self.table.is_some() && (self.keys.is_some() && self.columns.is_some())
    }

    /// Whether a row has a value for each column and for each key that it asks for.
    pub(crate) fn has_values(&self, line: &DocLine) -> bool
        ensures { result ≡ stated.has_values self.now line.now }
    {
        match line {
            DocLine::Insert(values) => values.inner().len() == count_of(&self.columns),
            DocLine::Update(values) => {
                let count = values.inner().len();
                is_sum(count, count_of(&self.columns), count_of(&self.keys))
            }
            DocLine::Old(values) => values.inner().len() == count_of(&self.columns),
            DocLine::Delete(values) => values.inner().len() == count_of(&self.keys),
            _ => true,
        }
    }
}
