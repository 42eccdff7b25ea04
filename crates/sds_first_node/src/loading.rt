// Loading a batch: its rows, and what becomes of the tables.
ghost use Rattle.std.specs.Prelude.{◌≡◌, ◌<◌, ◌≤◌, ◌+◌, ◌++◌, IfOk, vec_len, vec_capacity, length, map};
ghost use Rattle.std.specs.VecDeque.{deque_len};
ghost use Rattle.sds_first_node.specs.Loaded.{doc_row, overwritten, updated, with_row, with_rows};

use crate::rows::{TABLE, read_row, row_place};
use sds_base::{List, NoMemory};
use sds_types::{Row, TableRow};
use sds_value::{DocRow, Value};
use std::alloc::Global;
use std::collections::VecDeque;
use std::mem::{replace, swap};

/// The rows of a batch, as they would be kept.
pub(crate) fn read_doc_rows(alloc: Global, docs: &[DocRow]) -> Result<VecDeque<TableRow>, NoMemory>
    ensures { IfOk result (λ rows. rows.items ≡ map doc_row docs.now) }
{
    let mut rows = VecDeque::new(alloc);
    for doc in docs {
        rows.push_back(TableRow {
            table: TABLE,
            row: read_row(alloc, doc.new.inner())?,
        })?;
    }
    Ok(rows)
}

/// Gives the values of one row the place of the first of another's, as far as both go.
fn overwrite(kept: &mut [Value], new: &mut [Value])
    ensures { kept.new ≡ overwritten new.old kept.old }
{
    for place in 0..new.len() {
        if place >= kept.len() {
            return;
        }
        swap(&mut kept[place], &mut new[place]);
    }
}

/// A row that stands, with the values of another.
fn updated(kept: TableRow, row: TableRow) -> TableRow
    ensures { result ≡ updated row kept }
{
    let mut values = kept.row.0.into_inner();
    let mut new = row.row.0.into_inner();
    overwrite(&mut values, &mut new);
    TableRow {
        table: TABLE,
        row: Row(List::of(values)),
    }
}

/// A row without values.
fn empty_row(alloc: Global) -> TableRow {
    TableRow {
        table: TABLE,
        row: Row(List::new(alloc)),
    }
}

/// Updates the row with the key of a row by its values, or puts it behind the others, where there is room for one more.
fn put_row(alloc: Global, tables: &mut Vec<TableRow>, row: TableRow)
    requires { vec_len tables.old < vec_capacity tables.old }
    ensures len { vec_len tables.new ≤ vec_len tables.old + 1 }
    ensures capacity { vec_capacity tables.old ≤ vec_capacity tables.new }
    ensures items { tables.new.items ≡ with_row row tables.old.items }
{
    match row_place(tables, &row.row) {
        Some(place) => {
            let kept = replace(&mut tables[place], empty_row(alloc));
            tables[place] = updated(kept, row);
        }
        None => tables.push(row).unwrap(),
    }
}

/// Puts rows one after another, where there is room for as many.
pub(crate) fn put_rows(alloc: Global, tables: &mut Vec<TableRow>, mut rows: VecDeque<TableRow>)
    requires { vec_len tables.old + deque_len rows ≤ vec_capacity tables.old }
    ensures { tables.new.items ≡ with_rows tables.old.items rows.items }
{
    while let Some(row) = rows.pop_front() {
        put_row(alloc, tables, row);
    }
}
