//! The batch that is written and read.
ghost use Rattle.std.specs.Prelude.{◌≡◌, IfOk, IsTrue};
ghost use Rattle.sds_batchtext.specs.Words.{is_plain};
ghost use Rattle.sds_measure.specs.Sample as stated;

use sds_base::{List, NoMemory, Txt};
use sds_types::BatchDoc;
use sds_value::{Binary, DocRow, Event, Field};
use std::alloc::Global;

/// A word in ASCII, whose characters are its bytes.
fn word(alloc: Global, word: &str) -> Result<Txt, NoMemory>
    requires { IsTrue (is_plain word.now) }
    ensures { IfOk result (λ copy. copy ≡ word.now) }
{
    Txt::copied(alloc, word)
}

fn value(alloc: Global, text: &str) -> Result<Field, NoMemory>
    requires { IsTrue (is_plain text.now) }
    ensures { IfOk result (λ field. field ≡ Field.Text text.now) }
{
    Ok(Field::Text(word(alloc, text)?))
}

fn keys(alloc: Global) -> Result<List<Txt>, NoMemory>
    ensures { IfOk result (λ names. names ≡ stated.sample_row.keys) }
{
    let mut names = List::new(alloc);
    names.push(word(alloc, "id")?)?;
    Ok(names)
}

fn columns(alloc: Global) -> Result<List<Txt>, NoMemory>
    ensures { IfOk result (λ names. names ≡ stated.sample_row.columns) }
{
    let mut names = List::new(alloc);
    names.push(word(alloc, "id")?)?;
    names.push(word(alloc, "store")?)?;
    names.push(word(alloc, "item_id")?)?;
    names.push(word(alloc, "qty")?)?;
    Ok(names)
}

fn values(alloc: Global) -> Result<List<Field>, NoMemory>
    ensures { IfOk result (λ values. values ≡ stated.sample_row.new) }
{
    let mut values = List::new(alloc);
    values.push(value(alloc, "s1-123456")?)?;
    values.push(value(alloc, "001")?)?;
    values.push(value(alloc, "1")?)?;
    values.push(value(alloc, "2")?)?;
    Ok(values)
}

fn row(alloc: Global) -> Result<DocRow, NoMemory>
    ensures { IfOk result (λ row. row ≡ stated.sample_row) }
{
    Ok(DocRow {
        event: Event::Insert,
        table: word(alloc, "sale")?,
        keys: keys(alloc)?,
        columns: columns(alloc)?,
        new: values(alloc)?,
        key: List::new(alloc),
        old: None,
    })
}

#[tactic(auto, using(crate::proofs::Samples::one_more))]
fn rows(alloc: Global, count: usize) -> Result<List<DocRow>, NoMemory>
    ensures { IfOk result (λ rows. rows ≡ (stated.sample_batch count).rows) }
{
    let mut rows = List::new(alloc);
    for _turn in 0..count {
        rows.push(row(alloc)?)?;
    }
    Ok(rows)
}

/// A batch of so many inserts.
pub(crate) fn batch(alloc: Global, count: usize) -> Result<BatchDoc, NoMemory>
    ensures { IfOk result (λ batch. batch ≡ stated.sample_batch count) }
{
    Ok(BatchDoc {
        channel: word(alloc, "sale")?,
        batch: 1,
        binary: Binary::Base64,
        rows: rows(alloc, count)?,
    })
}
