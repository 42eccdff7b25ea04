//! What is to be done with a row of a batch where certain rows stand.
ghost use Rattle.std.specs.Prelude.{◌≡◌, IfOk, slice_get};
ghost use Rattle.std.specs.Prelude.{option_and_then, option_copied, option_map};
ghost use Rattle.sds_trade.specs.rules.Resolutions as resolved;
ghost use Rattle.sds_trade.specs.rules.Conflicts.{target_row};
ghost use Rattle.sds_rowvalues.specs.Found.{or_null};

use crate::KeyedRows;
use crate::detection::{conflicts, setting_at};
use sds_base::{NoMemory, Twin};
use sds_rowvalues::{
    gives, key_alone, new_key, new_value, old_value, order_of, put_values, sums_fit, value_at,
};
use sds_types::{
    Config, ConflictDef, Key, LoadRow, Resolution, ResolveType, Row, RowStep, Rule, Verdict,
};
use sds_value::{Event, TableDef, Value};
use std::alloc::Global;
use std::cmp::Ordering;

/// Whether the batch doesn't give an old value that an addend is reckoned from.
fn lacks_addend(row: &LoadRow) -> bool
    ensures { result ≡ resolved.lacks_addend row.now }
{
    row.adds.inner().iter().any(|addend| addend.add.is_none())
}

/// What is to be done with a row of a batch where these rows stand, by the setting at this place.
/// First an addend without a value breaks `OldMissing`, and so does an old value that the detection
/// needs. A conflict is resolved as the setting says, without one by falling back: `Manual` breaks
/// `ManualConflict`; where the newer wins and the named column isn't given, `OldMissing` is broken.
/// A row that is applied breaks `SumOutOfRange` where a sum has no room in 64 bits with a sign.
/// Else it makes the row stand: an insert whose key stands updates, an update goes to the row of its
/// old key, else to that of its new key, else it inserts, and a delete of a row that doesn't stand
/// is skipped (the SymmetricDS guide's chapter on conflicts; the order of the rules is symds' own).
pub fn resolve<T: KeyedRows>(
    alloc: Global,
    config: &Config,
    setting: Option<u32>,
    row: &LoadRow,
    tables: &T,
) -> Result<Resolution, NoMemory>
    requires { T.defs tables.now ≡ config.now.tables }
    ensures { IfOk result (λ done. done ≡ resolved.resolution_of config.now.tables
        (option_and_then (slice_get config.now.conflicts) setting) (T.rows tables.now) row.now) }
{
    if lacks_addend(row) {
        return Ok(Resolution::Broken(Rule::OldMissing));
    }
    let target = tables.row(row.table, &row.key);
    let defs = config.tables.inner().as_slice();
    match conflicts(config, setting, row, target) {
        Verdict::No => fall_back(alloc, defs, tables, row),
        Verdict::OldMissing => Ok(Resolution::Broken(Rule::OldMissing)),
        Verdict::Yes => by_setting(alloc, defs, tables, row, setting_at(config, setting)),
    }
}

/// What is done at a conflict, which without a setting falls back.
fn by_setting<T: KeyedRows>(
    alloc: Global,
    defs: &[TableDef],
    tables: &T,
    row: &LoadRow,
    setting: Option<&ConflictDef>,
) -> Result<Resolution, NoMemory>
    requires { T.defs tables.now ≡ defs.now }
    ensures { IfOk result (λ done. done ≡ resolved.by_setting defs.now (T.rows tables.now) row.now
        (option_copied setting.entry)) }
{
    let Some(setting) = setting else {
        return fall_back(alloc, defs, tables, row);
    };
    match setting.resolve_type {
        ResolveType::Fallback => fall_back(alloc, defs, tables, row),
        ResolveType::Ignore => Ok(skip_of(setting.resolve_row_only)),
        ResolveType::Manual => Ok(Resolution::Broken(Rule::ManualConflict)),
        ResolveType::NewerWins => {
            by_newer_value(alloc, defs, tables, row, setting.detect_expression)
        }
    }
}

/// The row alone is skipped, or its whole batch.
fn skip_of(row_only: bool) -> Resolution
    ensures { result ≡ resolved.skip_of row_only }
{
    if row_only {
        Resolution::SkipRow
    } else {
        Resolution::SkipBatch
    }
}

/// The greater value of the named column wins; where no row stands there is nothing to compare.
fn by_newer_value<T: KeyedRows>(
    alloc: Global,
    defs: &[TableDef],
    tables: &T,
    row: &LoadRow,
    column: Option<u32>,
) -> Result<Resolution, NoMemory>
    requires { T.defs tables.now ≡ defs.now }
    ensures { IfOk result (λ done. done ≡ resolved.by_newer_value defs.now (T.rows tables.now)
        row.now column (target_row defs.now (T.rows tables.now) row.now)) }
{
    let Some(kept) = tables.row(row.table, &row.key) else {
        return fall_back(alloc, defs, tables, row);
    };
    let Some(column) = column else {
        return Ok(Resolution::Broken(Rule::OldMissing));
    };
    let Some(incoming) = incoming_value(row, column as usize) else {
        return Ok(Resolution::Broken(Rule::OldMissing));
    };
    let stands = value_at(kept.0.inner().as_slice(), column as usize);
    if order_of(incoming, stands) == Ordering::Greater {
        return fall_back(alloc, defs, tables, row);
    }
    Ok(Resolution::SkipRow)
}

/// The incoming value of the named column, of a delete the old one, where it is given.
fn incoming_value(row: &LoadRow, column: usize) -> Option<Option<&Value>>
    ensures { option_map (λ found. or_null (option_copied found)) result
        ≡ resolved.incoming_value row.now column }
{
    if !gives(row, column) {
        return None;
    }
    match row.event {
        Event::Insert | Event::Update => Some(new_value(row, column)),
        Event::Delete => match &row.old {
            None => None,
            Some(old) => Some(old_value(row, old, column)),
        },
    }
}

/// The step that makes the row stand.
fn fall_back<T: KeyedRows>(
    alloc: Global,
    defs: &[TableDef],
    tables: &T,
    row: &LoadRow,
) -> Result<Resolution, NoMemory>
    requires { T.defs tables.now ≡ defs.now }
    ensures { IfOk result (λ done. done ≡ resolved.fallback defs.now (T.rows tables.now) row.now) }
{
    let target = tables.row(row.table, &row.key);
    match (row.event, target) {
        (Event::Insert, None) => insert_of(alloc, defs, row),
        (Event::Insert | Event::Update, Some(kept)) => update_of(alloc, defs, row, &row.key, kept),
        (Event::Update, None) => move_or_insert(alloc, defs, tables, row),
        (Event::Delete, None) => Ok(Resolution::SkipRow),
        (Event::Delete, Some(_)) => Ok(Resolution::Apply(RowStep::Delete {
            table: row.table,
            key: Key(row.key.0.twin(alloc)?),
        })),
    }
}

/// An update whose old key no row has goes to the row of its new key, else it inserts.
fn move_or_insert<T: KeyedRows>(
    alloc: Global,
    defs: &[TableDef],
    tables: &T,
    row: &LoadRow,
) -> Result<Resolution, NoMemory>
    requires { T.defs tables.now ≡ defs.now }
    ensures { IfOk result (λ done. done ≡ resolved.update_or_insert defs.now (T.rows tables.now)
        row.now None) }
{
    let key = new_key(alloc, defs, row)?;
    match tables.row(row.table, &key) {
        None => insert_of(alloc, defs, row),
        Some(kept) => update_of(alloc, defs, row, &key, kept),
    }
}

/// The row is inserted, where its sums have room.
fn insert_of(alloc: Global, defs: &[TableDef], row: &LoadRow) -> Result<Resolution, NoMemory>
    ensures { IfOk result (λ done. done ≡ resolved.insert_of defs.now row.now) }
{
    let values = key_alone(alloc, defs, row)?;
    if !sums_fit(row, values.as_slice()) {
        return Ok(Resolution::Broken(Rule::SumOutOfRange));
    }
    Ok(Resolution::Apply(RowStep::Insert {
        table: row.table,
        row: put_values(alloc, defs, row, values.as_slice())?,
    }))
}

/// The row of a key is updated, where the sums have room.
fn update_of(
    alloc: Global,
    defs: &[TableDef],
    row: &LoadRow,
    key: &Key,
    kept: &Row,
) -> Result<Resolution, NoMemory>
    ensures { IfOk result (λ done. done ≡ resolved.update_of defs.now row.now key.now kept.now) }
{
    let values = kept.0.inner().as_slice();
    if !sums_fit(row, values) {
        return Ok(Resolution::Broken(Rule::SumOutOfRange));
    }
    Ok(Resolution::Apply(RowStep::Update {
        table: row.table,
        key: Key(key.0.twin(alloc)?),
        row: put_values(alloc, defs, row, values)?,
    }))
}
