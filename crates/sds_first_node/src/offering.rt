// What a node offers to its peer: the batches that aren't known to be loaded, and their rows.
ghost use Rattle.std.specs.Prelude.{◌≡◌, ◌∷◌, [], IfOk, MatchOption, None, Some, map};
ghost use Rattle.std.specs.Str.{chars};
ghost use Rattle.sds_first_spec.specs.Lanes.{is_ok, is_erred, field_of, values_of, doc_of, change_at, batch_at};
ghost use Rattle.sds_first_spec.specs.One.{one};
ghost use Rattle.sds_first_node.specs.Documents.{doc_with, pair_doc, docs_of};
ghost use Rattle.sds_first_node.specs.Offered.{is_open, open_ids};

use crate::routing::CHANNEL;
use crate::rows::TABLE;
use sds_base::{List, NoMemory, Txt};
use sds_types::{Change, OutBatch, Standing};
use sds_value::{DocRow, Event, Field, Value};
use std::alloc::Global;

/// How many batches of a channel a message takes at most.
const MOST: usize = 10000;

/// Whether a batch is of the lane to a peer and isn't known to be loaded.
fn is_open(batch: &OutBatch, to: &str) -> bool
    ensures { result ≡ is_open (chars to.now) batch.now }
{
    batch.peer.is(to) && batch.channel == CHANNEL && !is_loaded(batch.standing)
}

/// Whether a batch is known to be loaded.
fn is_loaded(standing: Standing) -> bool
    ensures { result ≡ is_ok standing }
{
    match standing {
        Standing::Acked => true,
        _ => false,
    }
}

/// Whether a batch is known to be in error.
fn is_erred(standing: Standing) -> bool
    ensures { result ≡ is_erred standing }
{
    match standing {
        Standing::Erred { .. } => true,
        _ => false,
    }
}

/// The numbers of the batches of the lane to a peer that a message takes.
pub(crate) fn offered(alloc: Global, batches: &[OutBatch], to: &str) -> Result<List<u64>, NoMemory>
    ensures { IfOk result (λ ids. ids ≡ open_ids 10000 (chars to.now) batches.now) }
{
    let mut ids = Vec::new(alloc);
    let mut left = MOST;
    for batch in batches {
        if left == 0 {
            return Ok(List::of(ids));
        }
        if !is_open(batch, to) {
            continue;
        }
        ids.push(batch.id)?;
        if is_erred(batch.standing) {
            return Ok(List::of(ids));
        }
        left -= 1;
    }
    Ok(List::of(ids))
}

/// The field of a value.
fn make_field(alloc: Global, value: &Value) -> Result<Field, NoMemory>
    ensures { IfOk result (λ field. field ≡ field_of value.now) }
{
    match value {
        Value::Null => Ok(Field::Null),
        Value::Text(text) => Ok(Field::Text(Txt::copied(alloc, text.as_str())?)),
        Value::Integer(number) => Ok(Field::Text(Txt::of(number.to_string(alloc)?))),
        Value::Decimal(_) => Ok(Field::Text(Txt::of(String::new(alloc)))),
        Value::Stamp { .. } => Ok(Field::Text(Txt::of(String::new(alloc)))),
        Value::Bin(_) => Ok(Field::Text(Txt::of(String::new(alloc)))),
    }
}

/// The fields of a row.
fn make_fields(alloc: Global, values: &[Value]) -> Result<List<Field>, NoMemory>
    ensures { IfOk result (λ fields. fields ≡ map field_of values.now) }
{
    let mut fields = Vec::new(alloc);
    for value in values {
        fields.push(make_field(alloc, value)?)?;
    }
    Ok(List::of(fields))
}

/// The fields of a change's new row, or none.
fn make_new(alloc: Global, change: &Change) -> Result<List<Field>, NoMemory>
    ensures { IfOk result (λ fields. fields ≡ map field_of (values_of change.now.new)) }
{
    match &change.new {
        None => Ok(List::new(alloc)),
        Some(row) => make_fields(alloc, row.0.inner()),
    }
}

/// A list of one name.
fn one_name(alloc: Global, name: &str) -> Result<List<Txt>, NoMemory>
    ensures { IfOk result (λ names. names ≡ chars name.now ∷ []) }
{
    let mut names = List::new(alloc);
    names.push(Txt::copied(alloc, name)?)?;
    Ok(names)
}

/// A list of two names.
fn two_names(alloc: Global, first: &str, second: &str) -> Result<List<Txt>, NoMemory>
    ensures { IfOk result (λ names. names ≡ chars first.now ∷ (chars second.now ∷ [])) }
{
    let mut names = one_name(alloc, first)?;
    names.push(Txt::copied(alloc, second)?)?;
    Ok(names)
}

/// A row of the one table.
#[tactic(auto, using(crate::proofs::Docs::pair_name, crate::proofs::Docs::id_name, crate::proofs::Docs::text_name))]
fn pair_doc(alloc: Global, event: Event, new: List<Field>) -> Result<DocRow, NoMemory>
    ensures { IfOk result (λ doc. doc ≡ pair_doc event new) }
{
    Ok(DocRow {
        event,
        table: Txt::copied(alloc, "pair")?,
        keys: one_name(alloc, "id")?,
        columns: two_names(alloc, "id", "text")?,
        new,
        key: List::new(alloc),
        old: None,
    })
}

/// A row of a table that isn't in the configuration.
fn bare_doc(alloc: Global, event: Event, new: List<Field>) -> DocRow
    ensures { result ≡ doc_with event [] [] [] new }
{
    DocRow {
        event,
        table: Txt::of(String::new(alloc)),
        keys: List::new(alloc),
        columns: List::new(alloc),
        new,
        key: List::new(alloc),
        old: None,
    }
}

/// The row by which a document carries a change.
#[tactic(auto, using(crate::proofs::Docs::doc_of_pair, crate::proofs::Docs::doc_of_none))]
fn make_doc(alloc: Global, change: &Change) -> Result<DocRow, NoMemory>
    ensures { IfOk result (λ doc. doc ≡ doc_of one change.now) }
{
    let new = make_new(alloc, change)?;
    if change.table == TABLE {
        pair_doc(alloc, change.event, new)
    } else {
        Ok(bare_doc(alloc, change.event, new))
    }
}

/// The change of a number.
fn change_at(changes: &[Change], id: u64) -> Option<&Change>
    ensures { MatchOption result (change_at id changes.now ≡ None) (λ change. change_at id changes.now ≡ Some change.now) }
{
    for change in changes {
        if change.id == id {
            return Some(change);
        }
    }
    None
}

/// The batch of a number.
pub(crate) fn batch_at(batches: &[OutBatch], id: u64) -> Option<&OutBatch>
    ensures { MatchOption result (batch_at id batches.now ≡ None) (λ batch. batch_at id batches.now ≡ Some batch.now) }
{
    for batch in batches {
        if batch.id == id {
            return Some(batch);
        }
    }
    None
}

/// The rows of changes by their numbers.
pub(crate) fn make_docs(
    alloc: Global,
    changes: &[Change],
    ids: &[u64],
) -> Result<List<DocRow>, NoMemory>
    ensures { IfOk result (λ docs. docs ≡ docs_of changes.now ids.now) }
{
    let mut docs = Vec::new(alloc);
    for id in ids {
        if let Some(change) = change_at(changes, *id) {
            docs.push(make_doc(alloc, change)?)?;
        }
    }
    Ok(List::of(docs))
}
