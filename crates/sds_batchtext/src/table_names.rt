//! The names that hold for the tables of a document.
ghost use Rattle.std.specs.Prelude.{◌≡◌, ℕ, List, Some, IfOk, OnOk, if◌then◌else◌};
ghost use Rattle.std.specs.Str.{bytes_eq};
ghost use Rattle.sds_batchtext.specs.Positions.{names_at};
ghost use Rattle.sds_batchtext.specs.Entries.{place_of};

use sds_base::{List, NoMemory, Same, Twin, Txt};
use std::alloc::Global;

/// A table and the names of columns that were given for it.
#[derive(Debug, Drop)]
pub(crate) struct TableNames {
    pub(crate) table: Txt,
    pub(crate) names: List<Txt>,
}

/// The names of a table, where the list has it.
pub(crate) fn names_at(
    alloc: Global,
    table: &Txt,
    entries: &[TableNames],
) -> Result<Option<List<Txt>>, NoMemory>
    ensures { IfOk result (λ names. names ≡ names_at table.now entries.now) }
{
    for entry in entries {
        if entry.table == *table {
            return Ok(Some(entry.names.twin(alloc)?));
        }
    }
    Ok(None)
}

/// The place of the first entry of a table, or the length of the list where there is none.
fn place_of(table: &Txt, entries: &[TableNames]) -> usize
    ensures { result ≡ place_of table.now entries.now }
{
    for (place, entry) in entries.iter().enumerate() {
        if entry.table == *table {
            return place;
        }
    }
    entries.len()
}

/// Keeps the names of a table in place of those that it had.
pub(crate) fn put_names(
    alloc: Global,
    entries: &mut Vec<TableNames>,
    table: &Txt,
    names: &List<Txt>,
) -> Result<(), NoMemory>
    ensures { OnOk result ((other : List ℕ) → names_at other entries.new.items
        ≡ (if bytes_eq table.now other then Some names.now else names_at other entries.old.items)) }
{
    let place = place_of(table, entries.as_slice());
    let entry = TableNames {
        table: table.twin(alloc)?,
        names: names.twin(alloc)?,
    };
    if place < entries.len() {
        entries[place] = entry;
        return Ok(());
    }
    entries.push(entry)?;
    Ok(())
}
