//! Rows as they are printed.
#![tactic(auto, using(sds_line::proofs::Fronts::extends_same, sds_line::proofs::Fronts::extends_by, sds_line::proofs::Fronts::extends_if, sds_line::proofs::Fronts::extends_then))]

ghost use Rattle.std.specs.Prelude.{◌≡◌, ◌==◌, ◌++◌, List, ℕ, OnOk, OnErr};
ghost use Rattle.std.specs.List.{All};
ghost use Rattle.sds_line.specs.Written.{Extends};
ghost use Rattle.sds_types.specs.declared.row.TableRow.{TableRow};
ghost use Rattle.sds_trade.specs.rules.Fitting.{FitColumns, FitsRow};
ghost use Rattle.sds_rows.specs.Shown as shown;

use sds_base::NoMemory;
use sds_line::put_fields;
use sds_rowvalues::{columns_at, fields_of};
use sds_types::TableRow;
use sds_value::{ColumnDef, TableDef};
use std::alloc::Global;

/// Puts a row as a line.
fn put_row(
    alloc: Global,
    columns: &[ColumnDef],
    row: &TableRow,
    out: &mut Vec<u8>,
) -> Result<(), NoMemory>
    requires { FitColumns columns.now row.now.row.0 }
    ensures ok { OnOk result (out.new.items
        ≡ out.old.items ++ shown.row_text columns.now row.now) }
    ensures front { Extends out.old.items out.new.items }
{
    let fields = fields_of(alloc, columns, &row.row)?;
    put_fields(fields.inner(), out)?;
    out.push(b'\n')?;
    Ok(())
}

/// Puts those rows that are of a table, each as a line.
fn put_lines(
    alloc: Global,
    defs: &[TableDef],
    rows: &[TableRow],
    table: u32,
    out: &mut Vec<u8>,
) -> Result<(), NoMemory>
    requires { All (λ (row : TableRow). FitsRow defs.now row.table row.row) rows.now }
    ensures ok { OnOk result (out.new.items
        ≡ out.old.items ++ shown.rows_text defs.now table rows.now) }
    ensures front { Extends out.old.items out.new.items }
{
    let columns = columns_at(defs, table as usize);
    for row in rows {
        if row.table != table {
            continue;
        }
        put_row(alloc, columns, row, out)?;
    }
    Ok(())
}

/// Puts the rows of a table, each as a line; where memory is wanting, none.
pub(crate) fn put_rows(
    alloc: Global,
    defs: &[TableDef],
    rows: &[TableRow],
    table: u32,
    out: &mut Vec<u8>,
) -> Result<(), NoMemory>
    requires { All (λ (row : TableRow). FitsRow defs.now row.table row.row) rows.now }
    ensures ok { OnOk result (out.new.items
        ≡ out.old.items ++ shown.rows_text defs.now table rows.now) }
    ensures err { OnErr result (out.new.items ≡ out.old.items) }
{
    let start = out.len();
    let answer = put_lines(alloc, defs, rows, table, out);
    if answer.is_err() {
        out.truncate(start);
    }
    answer
}
