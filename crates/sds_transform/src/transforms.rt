//! Which transforms are for a row on its way from one node to another, and what they make of it, as
//! its batch is written and as it is loaded.
ghost use Rattle.std.specs.Prelude.{◌≡◌, IfOk, IfSome, [], ◌∷◌, length, unwrap_or};
ghost use Rattle.std.specs.List.{flat_map, list_any};
ghost use Rattle.std.specs.Option.{option_to_list};
ghost use Rattle.sds_types.specs.declared.transform.Point.TheVariants.{Extract, Load};
ghost use Rattle.sds_trade.specs.rules.Fitting.{FitsRow};
ghost use Rattle.sds_trade.specs.rules.Places as place;
ghost use Rattle.sds_trade.specs.rules.Transforms as stated;
ghost use Rattle.sds_transform.specs.Made.{rows_by};

use crate::change_rows::row_of_change;
use crate::column_functions::takes_part;
use crate::made_rows::made_row;
use sds_base::{List, NoMemory, Twin, Txt};
use sds_rowvalues::{column_place, is_group, table_place};
use sds_types::{
    Add, Change, ColumnExpression, Config, Point, Shaped, TransformColumn, TransformDef, Way,
};
use sds_value::{ColumnDef, DocRow, TableDef};
use std::alloc::Global;

/// The rows that a change becomes as its batch is written: its own row, or what each transform for
/// its table at EXTRACT between the two groups makes of that row, in the configuration's order (the
/// SymmetricDS guide's chapter on transforms).
pub fn extract(
    alloc: Global,
    config: &Config,
    way: &Way,
    change: &Change,
) -> Result<List<DocRow>, NoMemory>
    requires new { IfSome change.now.new (FitsRow config.now.tables change.now.table) }
    requires old { IfSome change.now.old (FitsRow config.now.tables change.now.table) }
    ensures { IfOk result (λ rows. rows ≡ stated.extracted_rows config.now way.now change.now) }
{
    let row = row_of_change(alloc, config.tables.inner().as_slice(), change)?;
    if is_transformed(config, way, Point::Extract, &row.table) {
        let rows = rows_made(alloc, config, way, &row)?;
        return Ok(rows);
    }
    let rows = one(alloc, row)?;
    Ok(rows)
}

/// The rows that a row becomes as its batch is loaded: itself, or what each transform for its table
/// at LOAD between the two groups makes of it, in the configuration's order, each with the columns
/// of its target table that are added to (the SymmetricDS guide's chapter on transforms).
pub fn at_load(
    alloc: Global,
    config: &Config,
    way: &Way,
    row: &DocRow,
) -> Result<List<Shaped>, NoMemory>
    ensures { IfOk result (λ rows. rows ≡ stated.shaped_rows config.now way.now row.now) }
{
    if is_transformed(config, way, Point::Load, &row.table) {
        let rows = rows_shaped(alloc, config, way, row)?;
        return Ok(rows);
    }
    let shaped = Shaped {
        row: row.twin(alloc)?,
        adds: List::new(alloc),
    };
    let rows = one(alloc, shaped)?;
    Ok(rows)
}

/// The list of one row.
fn one<T: Drop>(alloc: Global, row: T) -> Result<List<T>, NoMemory>
    ensures { IfOk result (λ rows. rows ≡ row ∷ []) }
{
    let mut rows = List::new(alloc);
    rows.push(row)?;
    Ok(rows)
}

/// The rows that the transforms at LOAD make, with the columns that are added to.
fn rows_shaped(
    alloc: Global,
    config: &Config,
    way: &Way,
    row: &DocRow,
) -> Result<List<Shaped>, NoMemory>
    ensures { IfOk result (λ rows. rows ≡ flat_map
        (stated.shaped_by config.now.tables way.now row.now)
        (stated.transforms_for config.now way.now Load row.now.table)) }
{
    let mut rows = List::new(alloc);
    for transform in config.transforms.inner() {
        if is_meant(config, way, Point::Load, &row.table, transform) {
            if let Some(made) = shaped_by(alloc, config, way, row, transform)? {
                rows.push(made)?;
            }
        }
    }
    Ok(rows)
}

/// The rows that the transforms at EXTRACT make.
fn rows_made(
    alloc: Global,
    config: &Config,
    way: &Way,
    row: &DocRow,
) -> Result<List<DocRow>, NoMemory>
    ensures { IfOk result (λ rows. rows ≡ rows_by way.now row.now
        (stated.transforms_for config.now way.now Extract row.now.table)) }
{
    let mut rows = List::new(alloc);
    for transform in config.transforms.inner() {
        if is_meant(config, way, Point::Extract, &row.table, transform) {
            if let Some(made) = made_row(alloc, way, transform, row)? {
                rows.push(made)?;
            }
        }
    }
    Ok(rows)
}

/// Whether some transform is for a table at a point of a way.
fn is_transformed(config: &Config, way: &Way, point: Point, table: &Txt) -> bool
    ensures { result ≡ list_any (stated.is_meant config.now way.now point table.now)
        config.now.transforms }
{
    for transform in config.transforms.inner() {
        if is_meant(config, way, point, table, transform) {
            return true;
        }
    }
    false
}

/// Whether a transform is for a table at a point of a way.
fn is_meant(config: &Config, way: &Way, point: Point, table: &Txt, transform: &TransformDef) -> bool
    ensures { result ≡ stated.is_meant config.now way.now point table.now transform.now }
{
    let groups = config.groups.inner().as_slice();
    transform.point == point
        && is_group(groups, transform.source_group as usize, &way.source_group)
        && is_group(groups, transform.target_group as usize, &way.target_group)
        && transform.source_table == *table
}

/// What a transform makes of a row, with the columns that are added to.
fn shaped_by(
    alloc: Global,
    config: &Config,
    way: &Way,
    row: &DocRow,
    transform: &TransformDef,
) -> Result<Option<Shaped>, NoMemory>
    ensures { IfOk result (λ made. option_to_list made
        ≡ stated.shaped_by config.now.tables way.now row.now transform.now) }
{
    match made_row(alloc, way, transform, row)? {
        None => Ok(None),
        Some(made) => Ok(Some(Shaped {
            row: made,
            adds: adds_of(alloc, config.tables.inner().as_slice(), transform, row)?,
        })),
    }
}

/// The columns of the target table that are added to.
fn adds_of(
    alloc: Global,
    defs: &[TableDef],
    transform: &TransformDef,
    row: &DocRow,
) -> Result<List<Add>, NoMemory>
    ensures { IfOk result (λ adds. adds ≡ stated.adds_of defs.now transform.now row.now) }
{
    let table = columns_named(defs, &transform.target_table);
    let mut adds = List::new(alloc);
    for column in transform.columns.inner() {
        if takes_part(row.event, column) {
            if let Some(add) = add_of(table, column)? {
                adds.push(add)?;
            }
        }
    }
    Ok(adds)
}

/// The column of a table that a transform's column adds to. A place past 32 bits, where no table of
/// a configuration has a column, is out of memory.
fn add_of(table: &[ColumnDef], column: &TransformColumn) -> Result<Option<Add>, NoMemory>
    ensures { IfOk result (λ add. add ≡ stated.add_by
        (place.column_place table.now column.now.target) column.now.parsed) }
{
    let ColumnExpression::Additive(factor) = &column.parsed else {
        return Ok(None);
    };
    let Some(place) = column_place(table, &column.target) else {
        return Ok(None);
    };
    let Ok(place) = u32::try_from(place) else {
        return Err(NoMemory);
    };
    Ok(Some(Add {
        column: place,
        multiplier: *factor as i64,
    }))
}

/// The columns of the table of a name, of which there are none where no table has it.
fn columns_named<'a>(defs: &'a [TableDef], name: &Txt) -> &'a [ColumnDef]
    ensures { result.now ≡ place.columns_at defs.now
        (unwrap_or (place.table_place defs.now name.now) (length defs.now)) }
{
    match table_place(defs, name) {
        None => &[],
        Some(place) => defs[place].columns.inner().as_slice(),
    }
}
