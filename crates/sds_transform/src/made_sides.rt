//! What a transform makes of a side of a row.
ghost use Rattle.std.specs.Prelude.{◌≡◌, ◌++◌, List, ℕ, IfOk, OnOk, OnErr, option_copied};
ghost use Rattle.std.specs.List.{filter};
ghost use Rattle.sds_trade.specs.rules.ColumnFunctions as computed;
ghost use Rattle.sds_trade.specs.rules.MadeRows as rows;
ghost use Rattle.sds_trade.specs.rules.MadeSides as made;

use crate::column_functions::{field_made, is_remove, takes_part};
use crate::fields::{copy_of, field_in, is_listed};
use crate::side::Side;
use sds_base::{NoMemory, Twin, Txt};
use sds_types::{ColumnPolicy, TransformColumn, TransformDef, Way};
use sds_value::{DocRow, Event, Field};
use std::alloc::Global;

/// Whether the columns that aren't listed stay.
pub(crate) fn is_implied(policy: ColumnPolicy) -> bool
    ensures { result ≡ made.is_implied policy }
{
    policy == ColumnPolicy::Implied
}

/// What the columns of a transform that take part make of a side: the listed columns alone; or the
/// source's in their places, and then the further ones.
pub(crate) fn made_side(
    alloc: Global,
    way: &Way,
    transform: &TransformDef,
    row: &DocRow,
    side: &Side,
) -> Result<Vec<(Txt, Field)>, NoMemory>
    ensures { IfOk result (λ fields. fields.items
        ≡ rows.side_of way.now transform.now row.now side.now) }
{
    let columns = transform.columns.inner().as_slice();
    if !is_implied(transform.column_policy) {
        return made_fields(alloc, way, columns, row.event, side);
    }
    let mut fields = passed_fields(alloc, way, columns, row.event, side)?;
    for column in columns {
        if takes_part(row.event, column)
            && !is_remove(column.kind)
            && !is_listed(side.listed.as_slice(), &column.target)
        {
            fields.push((
                column.target.twin(alloc)?,
                made_field(alloc, way, side, column)?,
            ))?;
        }
    }
    Ok(fields)
}

/// The field that a column makes of a side, from its source there; an absent source is null.
fn made_field(
    alloc: Global,
    way: &Way,
    side: &Side,
    column: &TransformColumn,
) -> Result<Field, NoMemory>
    ensures { IfOk result (λ field. field ≡ made.made_field way.now side.now column.now) }
{
    let null = Field::Null;
    let source = match field_in(side.sources.as_slice(), &column.source) {
        None => &null,
        Some(source) => source,
    };
    field_made(alloc, way, &column.parsed, source)
}

/// The columns that make something, with what they make.
pub(crate) fn made_fields(
    alloc: Global,
    way: &Way,
    columns: &[TransformColumn],
    event: Event,
    side: &Side,
) -> Result<Vec<(Txt, Field)>, NoMemory>
    ensures { IfOk result (λ fields. fields.items
        ≡ made.made_fields way.now (filter (computed.takes_part event) columns.now) side.now) }
{
    let mut fields = Vec::new(alloc);
    for column in columns {
        if takes_part(event, column) && !is_remove(column.kind) {
            fields.push((
                column.target.twin(alloc)?,
                made_field(alloc, way, side, column)?,
            ))?;
        }
    }
    Ok(fields)
}

/// The first column that takes part and has a target.
fn column_for<'a>(
    columns: &'a [TransformColumn],
    event: Event,
    name: &Txt,
) -> Option<&'a TransformColumn>
    ensures { option_copied result
        ≡ made.column_for (filter (computed.takes_part event) columns.now) name.now }
{
    for column in columns {
        if takes_part(event, column) && column.target == *name {
            return Some(column);
        }
    }
    None
}

/// The columns of the source, each of which passes, or gives way to the column of its name, or is
/// removed by it.
fn passed_fields(
    alloc: Global,
    way: &Way,
    columns: &[TransformColumn],
    event: Event,
    side: &Side,
) -> Result<Vec<(Txt, Field)>, NoMemory>
    ensures { IfOk result (λ fields. fields.items
        ≡ made.passed_fields way.now (filter (computed.takes_part event) columns.now) side.now) }
{
    let mut fields = Vec::new(alloc);
    for (name, field) in &side.listed {
        match column_for(columns, event, name) {
            None => fields.push((name.twin(alloc)?, field.twin(alloc)?))?,
            Some(column) if is_remove(column.kind) => {}
            Some(column) => {
                fields.push((name.twin(alloc)?, made_field(alloc, way, side, column)?))?;
            }
        }
    }
    Ok(fields)
}
