// An own write: its rows, their first broken one, and their changes.
ghost use Rattle.std.specs.Prelude.{◌≡◌, ◌<◌, ◌≤◌, ◌+◌, ◌^◌, ◌++◌, ◌∷◌, [], ℕ, List, Result, IfOk, OnOk, OnErr, MatchOption, Some, None, Ok, Err, length, codes, map, vec_len};
ghost use Rattle.std.specs.Str.{bytes_eq, chars};
ghost use Rattle.sds_first_spec.specs.Calls.{by_writer, write_acts};
ghost use Rattle.sds_types.specs.declared.tx_row.TxRow.{TxRow};
ghost use Rattle.sds_first_spec.specs.Kept.{writer_in};
ghost use Rattle.sds_first_spec.specs.One.{one};
ghost use Rattle.sds_first_spec.specs.Tables.{key_of, stands};
ghost use Rattle.sds_types.specs.declared.write_answer.WriteRefusal.{WriteRefusal};
ghost use Rattle.sds_types.specs.declared.write_answer.Written.{Written};
ghost use Rattle.sds_first_node.specs.NewRows.{new_rows, first_taken, numbered};

use crate::find::writer_place;
use crate::rows::{TABLE, is_in, read_row};
use sds_base::{NoMemory, Twin};
use sds_types::{Change, Rule, TableRow, TxRow, WriteRefusal, WriterLast, Written};
use sds_value::Event;
use std::alloc::Global;

/// What a write is answered by its number alone, or none where the number is the writer's next.
pub(crate) fn judge_number(
    lasts: &[WriterLast],
    writer: &str,
    number: u64,
) -> Option<Result<Written, WriteRefusal>>
    ensures { MatchOption result
        ((next : Result Written WriteRefusal) → by_writer (writer_in (chars writer.now) lasts.now) number next ≡ next)
        (λ answer. ((next : Result Written WriteRefusal) → by_writer (writer_in (chars writer.now) lasts.now) number next ≡ answer)
        × ((tx : List TxRow) → write_acts answer (chars writer.now) number tx ≡ [])) }
{
    let mut before = 0;
    if let Some(place) = writer_place(lasts, writer) {
        let last = &lasts[place];
        if number == last.number && number != 0 {
            return Some(Ok(Written::Again {
                first: last.first,
                count: last.count,
            }));
        }
        before = last.number;
    }
    if number == 0 || number < before {
        return Some(Err(WriteRefusal::OldNumber(before)));
    }
    if number - before > 1 {
        return Some(Err(WriteRefusal::GapNumber(before)));
    }
    None
}

/// The rows of an own write, as they would be kept.
pub(crate) fn read_own_rows(alloc: Global, tx: &[TxRow]) -> Result<Vec<TableRow>, NoMemory>
    ensures { IfOk result (λ rows. rows.items ≡ new_rows tx.now) }
{
    let mut rows = Vec::new(alloc);
    for row in tx {
        rows.push(TableRow {
            table: TABLE,
            row: read_row(alloc, row.fields.inner())?,
        })?;
    }
    Ok(rows)
}

/// The number, from 1, of the first of these rows whose key stands in the tables or before it.
pub(crate) fn first_taken(tables: &[TableRow], rows: &[TableRow]) -> Option<(u32, Rule)>
    requires { length rows.now ≤ 10000 }
    ensures { result ≡ first_taken 1 tables.now rows.now }
{
    for (place, row) in rows.iter().enumerate() {
        let (before, _) = rows.split_at(place);
        if is_taken(tables, before, row) {
            return Some((place as u32 + 1, Rule::DuplicateKey));
        }
    }
    None
}

/// Whether the key of a row stands in the tables or among the rows before it.
#[tactic(auto, using(crate::proofs::Written::stands_append))]
fn is_taken(tables: &[TableRow], before: &[TableRow], row: &TableRow) -> bool
    ensures { result ≡ stands one 0 (key_of one 0 row.now.row) (tables.now ++ before.now) }
{
    is_in(tables, &row.row) || is_in(before, &row.row)
}

/// The changes of these rows.
pub(crate) fn number_rows(
    alloc: Global,
    first: u64,
    tx: u64,
    rows: &[TableRow],
) -> Result<Vec<Change>, NoMemory>
    requires { first + length rows.now < 2 ^ 63 }
    ensures items { IfOk result (λ changes. changes.items ≡ numbered first tx rows.now) }
    ensures len { IfOk result (λ changes. vec_len changes ≡ length rows.now) }
{
    let mut changes = Vec::new(alloc);
    let mut id = first;
    for row in rows {
        changes.push(Change {
            id,
            tx,
            table: TABLE,
            event: Event::Insert,
            new: Some(row.row.twin(alloc)?),
            old: None,
            channel: 0,
            source: None,
        })?;
        id += 1;
    }
    Ok(changes)
}
