//! The batches of a document's text.
ghost use Rattle.std.specs.Prelude.{◌≡◌, ◌++◌, ℕ, List, IfOk, true};
ghost use Rattle.std.specs.List.{All, list_all};
ghost use Rattle.sds_types.specs.declared.document.BatchDoc as document;
ghost use Rattle.sds_batchtext.specs.Documents.{batches_in, document_of};
ghost use Rattle.sds_batchtext.specs.Reading.{HasRead};
ghost use Rattle.sds_loadlaws.specs.ReadBatches.{IsLoadable};
ghost use Rattle.sds_received.specs.Rows.{has_few_rows};

use crate::texts::batches_are_of_characters;
use sds_base::{List, NoMemory};
use sds_batchtext::Reader;
use sds_types::BatchDoc;
use std::alloc::Global;

/// A batch has fewer rows.
const ROWS_END: u64 = 4294967296;

/// A text has fewer bytes.
const BYTES_END: u64 = 4611686018427387904;

/// The whole batches of a document's text, in order, up to the first line that may not stand. Each
/// may be loaded. A batch of 2^32 rows or more, or a text of 2^62 bytes or more, is out of memory.
pub fn read_batches(alloc: Global, text: &[u8]) -> Result<List<BatchDoc>, NoMemory>
    ensures docs { IfOk result (λ docs. docs ≡ (document_of text.now).batches) }
    ensures loadable { IfOk result (λ docs. All IsLoadable docs) }
{
    let docs = whole_batches(alloc, text)?;
    let all = docs.inner().as_slice();
    if !have_few_rows(all) {
        return Err(NoMemory);
    }
    batches_are_of_characters(all);
    Ok(docs)
}

/// The whole batches of a text.
fn whole_batches(alloc: Global, text: &[u8]) -> Result<List<BatchDoc>, NoMemory>
    ensures { IfOk result (λ docs. docs ≡ batches_in true text.now) }
{
    if text.len() as u64 >= BYTES_END {
        return Err(NoMemory);
    }
    let mut reader = Reader::new(alloc);
    reader.feed(text)?;
    reader.finish()?;
    rest_of(alloc, &mut reader)
}

/// The batches that a reader of a whole text still has.
fn rest_of(alloc: Global, reader: &mut Reader) -> Result<List<BatchDoc>, NoMemory>
    ensures { IfOk result (λ docs. (text : List ℕ) (taken : List document.BatchDoc)
        → HasRead text taken true reader.old → taken ++ docs ≡ batches_in true text) }
{
    let mut docs = List::new(alloc);
    // No memory holds as many batches as this has turns.
    for _turn in 0..u64::MAX {
        match reader.take()? {
            Some(doc) => docs.push(doc)?,
            None => return Ok(docs),
        }
    }
    Err(NoMemory)
}

/// Whether each batch has fewer than 2^32 rows.
fn have_few_rows(docs: &[BatchDoc]) -> bool
    ensures { result ≡ list_all has_few_rows docs.now }
{
    for doc in docs {
        if !few_rows(doc) {
            return false;
        }
    }
    true
}

fn few_rows(doc: &BatchDoc) -> bool
    ensures { result ≡ has_few_rows doc.now }
{
    (doc.rows.inner().len() as u64) < ROWS_END
}
