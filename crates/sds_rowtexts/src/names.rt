//! The names of a row: the places of its columns, and whether it has as many fields as names.
ghost use Rattle.std.specs.Prelude.{◌≡◌, ◌==◌, true, IfOk, List, length};
ghost use Rattle.std.specs.Option.{option_map_or};
ghost use Rattle.sds_value.specs.declared.row.Field.{Field};
ghost use Rattle.sds_trade.specs.rules.DocRows as doc;
ghost use Rattle.sds_rowtexts.specs.Placed.{places_of};

use sds_base::{List, NoMemory, Txt};
use sds_rowvalues::{column_place, is_among};
use sds_value::{ColumnDef, DocRow, Event};
use std::alloc::Global;

/// The places of the columns that these names are of; none where a name is no column's or stands
/// twice. A place past 32 bits, where no table of a configuration has a column, is out of memory.
pub(crate) fn places_of(
    alloc: Global,
    columns: &[ColumnDef],
    names: &[Txt],
) -> Result<Option<List<u32>>, NoMemory>
    ensures { IfOk result (λ found. found ≡ places_of columns.now names.now) }
{
    let mut places = Vec::with_capacity(alloc, names.len())?;
    for (at, name) in names.iter().enumerate() {
        let Some(place) = column_place(columns, name) else {
            return Ok(None);
        };
        if is_among(&names[at + 1..], name) {
            return Ok(None);
        }
        let Ok(place) = u32::try_from(place) else {
            return Err(NoMemory);
        };
        places.push(place)?;
    }
    Ok(Some(List::of(places)))
}

/// Whether a row has as many fields as names.
pub(crate) fn counts_fit(row: &DocRow) -> bool
    ensures { result ≡ doc.counts_fit row.now }
{
    row.new.inner().len() == new_count(row)
        && row.key.inner().len() == key_count(row)
        && old_count_fits(row)
}

/// How many values a row has by its event.
fn new_count(row: &DocRow) -> usize
    ensures { result ≡ doc.new_count row.now }
{
    match row.event {
        Event::Insert | Event::Update => row.columns.inner().len(),
        Event::Delete => 0,
    }
}

/// How many key values a row has by its event.
fn key_count(row: &DocRow) -> usize
    ensures { result ≡ doc.key_count row.now }
{
    match row.event {
        Event::Insert => 0,
        Event::Update | Event::Delete => row.keys.inner().len(),
    }
}

/// Whether the old values, where they are given, are as many as the columns.
fn old_count_fits(row: &DocRow) -> bool
    ensures { result ≡ option_map_or
        (λ (old : List Field). length old == length row.now.columns) row.now.old true }
{
    match &row.old {
        None => true,
        Some(old) => old.inner().len() == row.columns.inner().len(),
    }
}
