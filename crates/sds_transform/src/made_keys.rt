//! The keys of the rows that a transform makes.
ghost use Rattle.std.specs.Prelude.{◌≡◌, ◌++◌, List, ℕ, IfOk, map};
ghost use Rattle.std.specs.List.{filter};
ghost use Rattle.sds_trade.specs.rules.ColumnFunctions as computed;
ghost use Rattle.sds_trade.specs.rules.DocRows as doc;
ghost use Rattle.sds_trade.specs.rules.MadeRows as rows;
ghost use Rattle.sds_trade.specs.rules.MadeSides as made;

use crate::column_functions::takes_part;
use crate::fields::{copy_of, field_in, is_listed};
use crate::made_sides::is_implied;
use sds_base::{List, NoMemory, Twin, Txt};
use sds_rowvalues::is_among;
use sds_types::{ColumnPolicy, TransformColumn, TransformDef};
use sds_value::{DocRow, Event, Field};
use std::alloc::Global;

/// The targets of the key columns that take part.
fn pk_targets(
    alloc: Global,
    columns: &[TransformColumn],
    event: Event,
) -> Result<Vec<Txt>, NoMemory>
    ensures { IfOk result (λ keys. keys.items
        ≡ made.pk_targets (filter (computed.takes_part event) columns.now)) }
{
    let mut keys = Vec::new(alloc);
    for column in columns {
        if takes_part(event, column) && column.pk {
            keys.push(column.target.twin(alloc)?)?;
        }
    }
    Ok(keys)
}

/// Where columns that aren't listed stay, the source's keys that the made side still has, but for
/// those among certain names.
pub(crate) fn remaining_keys(
    alloc: Global,
    policy: ColumnPolicy,
    row: &DocRow,
    fields: &[(Txt, Field)],
    others: &[Txt],
) -> Result<Vec<Txt>, NoMemory>
    ensures { IfOk result (λ keys. keys.items
        ≡ made.remaining_keys policy row.now fields.now others.now) }
{
    let mut keys = Vec::new(alloc);
    for key in row.keys.inner() {
        if is_implied(policy) && is_listed(fields, key) && !is_among(others, key) {
            keys.push(key.twin(alloc)?)?;
        }
    }
    Ok(keys)
}

/// The keys of a made row: the key columns, and then those of the source that remain.
pub(crate) fn keys_of(
    alloc: Global,
    transform: &TransformDef,
    row: &DocRow,
    fields: &[(Txt, Field)],
) -> Result<List<Txt>, NoMemory>
    ensures { IfOk result (λ keys. keys ≡ rows.keys_of transform.now row.now fields.now) }
{
    let mut keys = pk_targets(alloc, transform.columns.inner().as_slice(), row.event)?;
    let mut others = remaining_keys(alloc, transform.column_policy, row, fields, keys.as_slice())?;
    keys.append(&mut others)?;
    Ok(List::of(keys))
}

/// The fields of these keys.
pub(crate) fn fields_of_keys(
    alloc: Global,
    fields: &[(Txt, Field)],
    keys: &List<Txt>,
) -> Result<List<Field>, NoMemory>
    ensures { IfOk result (λ values. values ≡ map (doc.field_in fields.now) keys.now) }
{
    let mut values = List::new(alloc);
    for key in keys.inner() {
        values.push(copy_of(alloc, field_in(fields, key))?)?;
    }
    Ok(values)
}
