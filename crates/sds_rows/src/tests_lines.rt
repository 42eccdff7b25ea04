//! Rows as a node prints them.
ghost use Rattle.std.specs.Prelude.{◌≡◌, ◌≤◌, IfOk, IsTrue, None, OnOk, length};
ghost use Rattle.sds_types.specs.Limits.{most_rows};
ghost use Rattle.sds_types.specs.declared.row.RowStep.TheVariants.{Insert};
ghost use Rattle.sds_trade.specs.rules.Fitting.{FitColumns, FitsStep, Suits};
ghost use Rattle.sds_trade.specs.rules.StepRules.{broken_rule};
ghost use Rattle.sds_trade.specs.rules.Steps.{rows_after};
ghost use Rattle.sds_trade.specs.rules.Tables.{AreTables};

use crate::Tables;
use sds_base::{List, NoMemory, Txt};
use sds_rowvalues::columns_at;
use sds_types::{Row, RowStep};
use sds_value::{ColumnDef, Kind, TableDef, Value};
use std::alloc::Global;
use std::test::Fail;

/// Whether a value is null, or a number in a column of numbers.
fn is_suited(column: &ColumnDef, value: &Value) -> bool
    ensures { IsTrue result → Suits (column.now, value.now) }
{
    match (column.kind, value) {
        (_, Value::Null) => true,
        (Kind::Integer, Value::Integer(number)) => {
            let _number: i64 = *number;
            true
        }
        (Kind::Decimal(_), Value::Decimal(units)) => {
            let _units: i64 = *units;
            true
        }
        _ => false,
    }
}

/// Whether there are as many values as columns, each of which suits its column.
fn are_suited(columns: &[ColumnDef], values: &[Value]) -> bool
    ensures { IsTrue result → FitColumns columns.now values.now }
{
    match (columns, values) {
        ([], []) => true,
        ([column, columns @ ..], [value, values @ ..]) => {
            is_suited(column, value) && are_suited(columns, values)
        }
        _ => false,
    }
}

/// Prices by id.
fn prices(alloc: Global) -> Result<Tables, NoMemory>
    ensures { IfOk result (λ tables. AreTables tables.defs tables.rows) }
{
    let mut columns = List::new(alloc);
    for (name, kind) in [("id", Kind::Integer), ("price", Kind::Decimal(2))] {
        columns.push(ColumnDef {
            name: Txt::copied(alloc, name)?,
            kind,
            not_null: false,
            parent: None,
        })?;
    }
    let mut key = List::new(alloc);
    key.push(0)?;
    let mut defs = List::new(alloc);
    defs.push(TableDef {
        name: Txt::copied(alloc, "price")?,
        columns,
        key,
    })?;
    Tables::new(alloc, &defs)
}

/// Whether there is a table, and a row suits the first.
fn is_fit(tables: &Tables, row: &Row) -> bool
    ensures { IsTrue result → FitsStep tables.now.defs (Insert 0 row.now) }
{
    let defs = tables.defs().inner().as_slice();
    0 < defs.len() && are_suited(columns_at(defs, 0), row.0.inner())
}

/// Makes a step that breaks no rule, where no more rows stand after it than a node may have.
fn make(tables: &mut Tables, step: RowStep) -> Result<(), NoMemory>
    ensures allowed { OnOk result (broken_rule tables.old.defs tables.old.rows step ≡ None) }
    ensures rows { OnOk result (tables.new.rows
        ≡ rows_after tables.old.defs tables.old.rows step) }
    ensures few { OnOk result (length tables.new.rows ≤ most_rows) }
    ensures defs { tables.new.defs ≡ tables.old.defs }
{
    if tables.test(&step).is_some() {
        return Err(NoMemory);
    }
    tables.reserve(1)?;
    let _ = tables.apply(step);
    if tables.count() > 200_000 {
        return Err(NoMemory);
    }
    Ok(())
}

/// Inserts a row into the first table, where it suits.
fn insert(tables: &mut Tables, row: Row) -> Result<(), NoMemory>
    requires { AreTables tables.old.defs tables.old.rows }
    ensures { OnOk result (AreTables tables.new.defs tables.new.rows) }
{
    if !is_fit(tables, &row) {
        return Err(NoMemory);
    }
    make(tables, RowStep::Insert { table: 0, row })?;
    Ok(())
}

/// The prices that are inserted: the null as nothing, and the text of each number in quotes.
const PRICES: &[u8] = b">\"-3\",\n\"5\",\"-0.05\"\n\"7\",\"2.50\"\n";

fn price(alloc: Global, id: i64, units: Option<i64>) -> Result<Row, NoMemory> {
    let mut values = List::new(alloc);
    values.push(Value::Integer(id))?;
    values.push(match units {
        None => Value::Null,
        Some(units) => Value::Decimal(units),
    })?;
    Ok(Row(values))
}

#[test]
fn rows_are_printed_by_key(rt: HostRuntime) -> Result<(), Fail> {
    let alloc = rt.alloc();
    let mut tables = prices(alloc)?;
    insert(&mut tables, price(alloc, 7, Some(250))?)?;
    insert(&mut tables, price(alloc, -3, None)?)?;
    insert(&mut tables, price(alloc, 5, Some(-5))?)?;
    let mut out = Vec::new(alloc);
    out.push(b'>')?;
    tables.put_rows(alloc, 0, &mut out)?;
    assert!(rt; out.as_slice() == PRICES);
    tables.put_rows(alloc, 1, &mut out)?;
    assert!(rt; out.as_slice() == PRICES);
    Ok(())
}
