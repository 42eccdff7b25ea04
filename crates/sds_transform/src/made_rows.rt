//! What a transform makes of a row: of an insert, an update, and a delete by its delete action.
ghost use Rattle.std.specs.Prelude.{◌≡◌, ◌++◌, List, ℕ, IfOk, map};
ghost use Rattle.std.specs.Option.{option_to_list};
ghost use Rattle.sds_trade.specs.rules.MadeRows as rows;

use crate::fields::{looked_up, names_of, values_of};
use crate::made_keys::{fields_of_keys, keys_of, remaining_keys};
use crate::made_sides::{made_fields, made_side};
use crate::side::Side;
use sds_base::{List, NoMemory, Twin, Txt};
use sds_types::{DeleteAction, TransformDef, Way};
use sds_value::{DocRow, Event, Field};
use std::alloc::Global;

/// What a row becomes; a delete may become nothing.
pub(crate) fn made_row(
    alloc: Global,
    way: &Way,
    transform: &TransformDef,
    row: &DocRow,
) -> Result<Option<DocRow>, NoMemory>
    ensures { IfOk result (λ made. option_to_list made
        ≡ rows.made_rows way.now transform.now row.now row.now.event) }
{
    match (row.event, transform.delete_action) {
        (Event::Insert, _) => Ok(Some(made_insert(alloc, way, transform, row)?)),
        (Event::Update, _) => Ok(Some(made_update(alloc, way, transform, row)?)),
        (Event::Delete, DeleteAction::DelRow) => {
            Ok(Some(made_delete(alloc, way, transform, row)?))
        }
        (Event::Delete, DeleteAction::UpdateCol) => {
            Ok(Some(made_mark(alloc, way, transform, row)?))
        }
        (Event::Delete, DeleteAction::Nothing) => Ok(None),
    }
}

/// The old side of a made row, where the row gives it.
fn old_if_given(
    alloc: Global,
    row: &DocRow,
    fields: &[(Txt, Field)],
) -> Result<Option<List<Field>>, NoMemory>
    ensures { IfOk result (λ old. old ≡ rows.old_if_given row.now fields.now) }
{
    if row.old.is_none() {
        return Ok(None);
    }
    Ok(Some(values_of(alloc, fields)?))
}

fn made_insert(
    alloc: Global,
    way: &Way,
    transform: &TransformDef,
    row: &DocRow,
) -> Result<DocRow, NoMemory>
    ensures { IfOk result (λ made. made ≡ rows.made_insert way.now transform.now row.now) }
{
    let side = Side::new(alloc, row)?;
    let new = made_side(alloc, way, transform, row, &side)?;
    Ok(DocRow {
        event: Event::Insert,
        table: transform.target_table.twin(alloc)?,
        keys: keys_of(alloc, transform, row, new.as_slice())?,
        columns: names_of(alloc, new.as_slice())?,
        new: values_of(alloc, new.as_slice())?,
        key: List::new(alloc),
        old: None,
    })
}

fn made_update(
    alloc: Global,
    way: &Way,
    transform: &TransformDef,
    row: &DocRow,
) -> Result<DocRow, NoMemory>
    ensures { IfOk result (λ made. made ≡ rows.made_update way.now transform.now row.now) }
{
    let new_side = Side::new(alloc, row)?;
    let old_side = Side::old(alloc, row)?;
    let new = made_side(alloc, way, transform, row, &new_side)?;
    let old = made_side(alloc, way, transform, row, &old_side)?;
    let keys = keys_of(alloc, transform, row, new.as_slice())?;
    let key = fields_of_keys(alloc, old.as_slice(), &keys)?;
    Ok(DocRow {
        event: Event::Update,
        table: transform.target_table.twin(alloc)?,
        keys,
        columns: names_of(alloc, new.as_slice())?,
        new: values_of(alloc, new.as_slice())?,
        key,
        old: old_if_given(alloc, row, old.as_slice())?,
    })
}

fn made_delete(
    alloc: Global,
    way: &Way,
    transform: &TransformDef,
    row: &DocRow,
) -> Result<DocRow, NoMemory>
    ensures { IfOk result (λ made. made ≡ rows.made_delete way.now transform.now row.now) }
{
    let side = Side::old(alloc, row)?;
    let old = made_side(alloc, way, transform, row, &side)?;
    let keys = keys_of(alloc, transform, row, old.as_slice())?;
    let key = fields_of_keys(alloc, old.as_slice(), &keys)?;
    Ok(DocRow {
        event: Event::Delete,
        table: transform.target_table.twin(alloc)?,
        keys,
        columns: names_of(alloc, old.as_slice())?,
        new: List::new(alloc),
        key,
        old: old_if_given(alloc, row, old.as_slice())?,
    })
}

/// The fields of a delete that becomes an update: the listed columns, and then the source's keys
/// that remain, all of them computed from the old row.
fn marked_fields(
    alloc: Global,
    way: &Way,
    transform: &TransformDef,
    row: &DocRow,
) -> Result<Vec<(Txt, Field)>, NoMemory>
    ensures { IfOk result (λ fields. fields.items
        ≡ rows.marked_fields way.now transform.now row.now) }
{
    let side = Side::old(alloc, row)?;
    let old = made_side(alloc, way, transform, row, &side)?;
    let columns = transform.columns.inner().as_slice();
    let mut made = made_fields(alloc, way, columns, row.event, &side)?;
    let names = names_of(alloc, made.as_slice())?;
    let keys = remaining_keys(
        alloc,
        transform.column_policy,
        row,
        old.as_slice(),
        names.inner().as_slice(),
    )?;
    let mut others = looked_up(alloc, old.as_slice(), keys.as_slice())?;
    made.append(&mut others)?;
    Ok(made)
}

/// A delete that becomes an update.
fn made_mark(
    alloc: Global,
    way: &Way,
    transform: &TransformDef,
    row: &DocRow,
) -> Result<DocRow, NoMemory>
    ensures { IfOk result (λ made. made ≡ rows.made_mark way.now transform.now row.now) }
{
    let fields = marked_fields(alloc, way, transform, row)?;
    let made = made_delete(alloc, way, transform, row)?;
    Ok(DocRow {
        event: Event::Update,
        columns: names_of(alloc, fields.as_slice())?,
        new: values_of(alloc, fields.as_slice())?,
        old: old_if_given(alloc, row, fields.as_slice())?,
        ..made
    })
}
