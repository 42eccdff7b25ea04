//! A row of texts, read for its table.
ghost use Rattle.std.specs.Prelude.{◌≡◌, IfOk, []};
ghost use Rattle.sds_trade.specs.rules.LoadRows as read;

use crate::addends::addends_of;
use crate::texts::{Texts, read_texts};
use sds_base::{List, NoMemory};
use sds_rowvalues::table_place;
use sds_types::{Add, Key, LoadRow, Rule};
use sds_value::{Binary, DocRow, Event, TableDef};
use std::alloc::Global;

/// A row of texts as a row of values of its table, with what is added to these columns, or the
/// first of the rules on texts that it breaks (the rules and their order are symds' own):
///
/// 1. `UnknownTable`: no table has its table's name.
/// 2. `UnknownColumn`: a name among its keys or its columns is no column's or stands twice in its
///    list, or it has another number of fields than its event asks for.
/// 3. `MissingKey`: its key names aren't those of the table's key, in whatever order, or a column
///    of the key is null or absent among the fields that tell the key: of an insert the new values,
///    else the old key's.
/// 4. `BadValue`: a text, new, old or of the key, doesn't read as its column's kind or is out of
///    the kind's range. The form settles how bytes are written.
/// 5. `TooLong`: a text, new, old or of the key, is longer than its column takes.
///
/// The row has this number, and its key in the order of the table's key. Where an update or a
/// delete hasn't the old values, nothing is told of what it adds. A place past 32 bits, where no
/// table of a configuration stands, is out of memory.
pub fn read_row(
    alloc: Global,
    defs: &[TableDef],
    form: Binary,
    number: u32,
    row: &DocRow,
    adds: &[Add],
) -> Result<Result<LoadRow, Rule>, NoMemory>
    ensures { IfOk result (λ made. made ≡ read.row_of defs.now form number row.now adds.now) }
{
    let Some(place) = table_place(defs, &row.table) else {
        return Ok(Err(Rule::UnknownTable));
    };
    let Ok(table) = u32::try_from(place) else {
        return Err(NoMemory);
    };
    match read_texts(alloc, &defs[place], form, row)? {
        Err(rule) => Ok(Err(rule)),
        Ok(texts) => {
            let made = plain_row(alloc, number, table, row.event, texts);
            Ok(Ok(with_adds(alloc, made, adds)?))
        }
    }
}

/// A row of these values that adds nothing.
fn plain_row(alloc: Global, number: u32, table: u32, event: Event, texts: Texts) -> LoadRow
    ensures { result ≡ record {
      row = number;
      table = table;
      event = event;
      key = record { 0 = texts.key };
      columns = texts.columns;
      new = texts.new;
      old = texts.old;
      adds = [];
    } }
{
    LoadRow {
        row: number,
        table,
        event,
        key: Key(texts.key),
        columns: texts.columns,
        new: texts.new,
        old: texts.old,
        adds: List::new(alloc),
    }
}

/// The row with what is added to these columns.
fn with_adds(alloc: Global, row: LoadRow, adds: &[Add]) -> Result<LoadRow, NoMemory>
    ensures { IfOk result (λ made. made ≡ read.with_adds row adds.now) }
{
    let adds = addends_of(alloc, &row, adds)?;
    Ok(LoadRow { adds, ..row })
}
