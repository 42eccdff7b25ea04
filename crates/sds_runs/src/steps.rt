//! What steps put and take: their rows, and the edits of these.
ghost use Rattle.std.specs.Prelude.{◌≡◌, ◌++◌, false, IfOk, OnOk, option_copied, option_map};
ghost use Rattle.std.specs.Option.{option_map_or};
ghost use Rattle.std.specs.Str.{bytes_eq};
ghost use Rattle.sds_types.specs.declared.row.Row.{Row};
ghost use Rattle.sds_trade.specs.rules.Steps as stepped;
ghost use Rattle.sds_outside.specs.declared.keeping.Edit.{Edit};
ghost use Rattle.sds_imagelaws.specs.Edits.{record_at, row_edits, step_edits};
ghost use Rattle.sds_records.specs.Parts.{FitsSide, HasKey, put_edit};
ghost use Rattle.sds_rows.specs.Undoing.{without_undo, without_undos};
ghost use Rattle.sds_runs.specs.Fitting.{FitSteps, FitsStep};

use sds_base::{Bytes, NoMemory, Same};
use sds_image::{Part, drop_part, put_part};
use sds_outside::Edit;
use sds_rows::Done;
use sds_types::{Config, Row, RowStep};
use std::alloc::Global;

/// The place of a step's table.
pub(crate) fn table_of(step: &RowStep) -> u32
    ensures { result ≡ stepped.table_of step.now }
{
    match step {
        RowStep::Insert { table, .. } => *table,
        RowStep::Update { table, .. } => *table,
        RowStep::Delete { table, .. } => *table,
    }
}

/// The row that a step puts, if it puts one.
pub(crate) fn new_row(step: &RowStep) -> Option<&Row>
    ensures { option_copied result ≡ stepped.new_row step.now }
{
    match step {
        RowStep::Insert { row, .. } => Some(row),
        RowStep::Update { row, .. } => Some(row),
        RowStep::Delete { .. } => None,
    }
}

/// The edit that puts a row of the table at a place, where there is one.
fn put_of(
    alloc: Global,
    config: &Config,
    table: u32,
    row: Option<&Row>,
) -> Result<Option<Edit>, NoMemory>
    requires row { FitsSide config.now.tables table (option_copied row) }
    requires key { HasKey config.now.tables table }
    ensures { IfOk result (λ edit. edit
        ≡ option_map (λ (kept : Row). put_edit (record_at config.now table kept))
        (option_copied row.entry)) }
{
    match row {
        Some(row) => Ok(Some(put_part(alloc, config, &Part::Row(table, row))?)),
        None => Ok(None),
    }
}

/// Whether an edit, where there is one, has this key.
fn has_key(edit: &Option<Edit>, key: &Bytes) -> bool
    ensures { result
        ≡ option_map_or (λ (put : Edit). bytes_eq put.key key.now) edit.now false }
{
    match edit {
        Some(put) => put.key.same(key),
        None => false,
    }
}

/// Adds the edits of a step: the old row's record is dropped, unless the new row's has its key, and
/// then the new row's is put.
fn push_step(
    alloc: Global,
    config: &Config,
    done: &Done,
    edits: &mut Vec<Edit>,
) -> Result<(), NoMemory>
    requires { FitsStep config.now (without_undo done.now) }
    ensures { OnOk result (edits.new.items
        ≡ edits.old.items ++ step_edits config.now (without_undo done.now)) }
{
    let table = table_of(&done.step);
    let put = put_of(alloc, config, table, new_row(&done.step))?;
    if let Some(old) = &done.old {
        let dropped = drop_part(alloc, config, &Part::Row(table, old))?;
        if !has_key(&put, &dropped.key) {
            edits.push(dropped)?;
        }
    }
    if let Some(put) = put {
        edits.push(put)?;
    }
    Ok(())
}

/// Adds the edits of the rows of steps, one step after another.
pub(crate) fn push_steps(
    alloc: Global,
    config: &Config,
    dones: &[Done],
    edits: &mut Vec<Edit>,
) -> Result<(), NoMemory>
    requires { FitSteps config.now dones.now }
    ensures { OnOk result (edits.new.items
        ≡ edits.old.items ++ row_edits config.now (without_undos dones.now)) }
{
    for done in dones {
        push_step(alloc, config, done, edits)?;
    }
    Ok(())
}
