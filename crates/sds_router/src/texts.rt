//! The texts that routers compare: the printed values of rows, null being no text.
ghost use Rattle.std.specs.Prelude.{◌≡◌, IfOk, IfSome};
ghost use Rattle.sds_trade.specs.rules.Fitting.{FitColumns, FitsRow};
ghost use Rattle.sds_trade.specs.rules.RoutedValues.{current_text, old_text, text_at, text_in};
ghost use Rattle.sds_trade.specs.rules.Routers.{tested_text};

use crate::places::{column_at, routed_row, value_at};
use sds_base::{NoMemory, Txt};
use sds_rowvalues::{column_place, columns_at, text_of};
use sds_types::{Change, ColumnTest, Row};
use sds_value::{ColumnDef, TableDef};
use std::alloc::Global;

/// The printed text at a place of a row.
pub(crate) fn text_at(
    alloc: Global,
    columns: &[ColumnDef],
    row: &Row,
    place: usize,
) -> Result<Option<Txt>, NoMemory>
    requires { FitColumns columns.now row.now.0 }
    ensures { IfOk result (λ text. text ≡ text_at columns.now row.now place) }
{
    let Some(column) = column_at(columns, place) else {
        return Ok(None);
    };
    let Some(value) = value_at(row, place) else {
        return Ok(None);
    };
    text_of(alloc, column.kind, value)
}

/// The printed text in the column of a name.
fn text_in(
    alloc: Global,
    columns: &[ColumnDef],
    name: &Txt,
    row: &Row,
) -> Result<Option<Txt>, NoMemory>
    requires { FitColumns columns.now row.now.0 }
    ensures { IfOk result (λ text. text ≡ text_in columns.now name.now row.now) }
{
    match column_place(columns, name) {
        Some(place) => text_at(alloc, columns, row, place),
        None => Ok(None),
    }
}

/// The text of the routed row in the column of a name.
pub(crate) fn current_text(
    alloc: Global,
    defs: &[TableDef],
    change: &Change,
    name: &Txt,
) -> Result<Option<Txt>, NoMemory>
    requires new { IfSome change.now.new (FitsRow defs.now change.now.table) }
    requires old { IfSome change.now.old (FitsRow defs.now change.now.table) }
    ensures { IfOk result (λ text. text ≡ current_text defs.now change.now name.now) }
{
    match routed_row(change) {
        Some(row) => text_in(alloc, columns_at(defs, change.table as usize), name, row),
        None => Ok(None),
    }
}

/// The old text in the column of a name, which an insert lacks.
fn old_text(
    alloc: Global,
    defs: &[TableDef],
    change: &Change,
    name: &Txt,
) -> Result<Option<Txt>, NoMemory>
    requires { IfSome change.now.old (FitsRow defs.now change.now.table) }
    ensures { IfOk result (λ text. text ≡ old_text defs.now change.now name.now) }
{
    match &change.old {
        Some(row) => text_in(alloc, columns_at(defs, change.table as usize), name, row),
        None => Ok(None),
    }
}

/// The text that a test of a `column` router looks at.
pub(crate) fn tested_text(
    alloc: Global,
    defs: &[TableDef],
    change: &Change,
    test: &ColumnTest,
) -> Result<Option<Txt>, NoMemory>
    requires new { IfSome change.now.new (FitsRow defs.now change.now.table) }
    requires old { IfSome change.now.old (FitsRow defs.now change.now.table) }
    ensures { IfOk result (λ text. text ≡ tested_text defs.now change.now test.now) }
{
    if test.old {
        old_text(alloc, defs, change, &test.name)
    } else {
        current_text(alloc, defs, change, &test.name)
    }
}
