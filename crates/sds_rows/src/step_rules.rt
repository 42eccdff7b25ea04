//! The rules on a step where certain rows stand, in the order in which they are judged.
ghost use Rattle.std.specs.Prelude.{◌≡◌};
ghost use Rattle.sds_trade.specs.rules.StepRules as judged;
ghost use Rattle.sds_trade.specs.rules.Tables.{Ascend};

use crate::keys::has_own_key;
use crate::references::{finds_parents, is_null, others_refer};
use crate::search::{has_key, has_key_of};
use sds_rowvalues::columns_at;
use sds_types::limits::MOST_ROWS;
use sds_types::{Row, RowStep, Rule, TableRow};
use sds_value::{ColumnDef, TableDef};

/// The first rule that a step breaks, or none.
pub(crate) fn broken_rule(defs: &[TableDef], rows: &[TableRow], step: &RowStep) -> Option<Rule>
    requires { Ascend defs.now rows.now }
    ensures { result ≡ judged.broken_rule defs.now rows.now step.now }
{
    if puts_null(defs, step) {
        return Some(Rule::NullNotAllowed);
    }
    if doubles_key(defs, rows, step) {
        return Some(Rule::DuplicateKey);
    }
    if misses_row(defs, rows, step) {
        return Some(Rule::RowMissing);
    }
    if misses_parent(defs, rows, step) {
        return Some(Rule::MissingParent);
    }
    if leaves_children(defs, rows, step) {
        return Some(Rule::HasChildren);
    }
    if overfills(rows, step) {
        return Some(Rule::TableFull);
    }
    None
}

/// Whether a row has a null in a column that doesn't allow it.
pub fn has_null(columns: &[ColumnDef], row: &Row) -> bool
    ensures { result ≡ judged.has_null columns.now row.now }
{
    let values = row.0.inner().as_slice();
    for (place, column) in columns.iter().enumerate() {
        let Some(value) = values.get(place) else {
            return false;
        };
        if column.not_null && is_null(value) {
            return true;
        }
    }
    false
}

fn puts_null(defs: &[TableDef], step: &RowStep) -> bool
    ensures { result ≡ judged.puts_null defs.now step.now }
{
    match step {
        RowStep::Insert { table, row } => has_null(columns_at(defs, *table as usize), row),
        RowStep::Update { table, row, .. } => has_null(columns_at(defs, *table as usize), row),
        RowStep::Delete { .. } => false,
    }
}

/// Whether another row has the new key.
fn doubles_key(defs: &[TableDef], rows: &[TableRow], step: &RowStep) -> bool
    requires { Ascend defs.now rows.now }
    ensures { result ≡ judged.doubles_key defs.now rows.now step.now }
{
    match step {
        RowStep::Insert { table, row } => has_key_of(defs, rows, *table, row),
        RowStep::Update { table, key, row } => {
            !has_own_key(defs, *table, row, key.0.inner().as_slice())
                && has_key_of(defs, rows, *table, row)
        }
        RowStep::Delete { .. } => false,
    }
}

/// Whether the row that is to be updated or deleted doesn't stand.
fn misses_row(defs: &[TableDef], rows: &[TableRow], step: &RowStep) -> bool
    requires { Ascend defs.now rows.now }
    ensures { result ≡ judged.misses_row defs.now rows.now step.now }
{
    match step {
        RowStep::Insert { .. } => false,
        RowStep::Update { table, key, .. } => {
            !has_key(defs, rows, *table, key.0.inner().as_slice())
        }
        RowStep::Delete { table, key } => !has_key(defs, rows, *table, key.0.inner().as_slice()),
    }
}

/// Whether the new row refers to a row that doesn't stand after the step.
fn misses_parent(defs: &[TableDef], rows: &[TableRow], step: &RowStep) -> bool
    requires { Ascend defs.now rows.now }
    ensures { result ≡ judged.misses_parent defs.now rows.now step.now }
{
    match step {
        RowStep::Insert { table, row } => !finds_parents(defs, rows, step, *table, row),
        RowStep::Update { table, row, .. } => !finds_parents(defs, rows, step, *table, row),
        RowStep::Delete { .. } => false,
    }
}

/// Whether another row refers to the old key, which no row has after the step.
fn leaves_children(defs: &[TableDef], rows: &[TableRow], step: &RowStep) -> bool
    requires { Ascend defs.now rows.now }
    ensures { result ≡ judged.leaves_children defs.now rows.now step.now }
{
    match step {
        RowStep::Insert { .. } => false,
        RowStep::Update { table, key, row } => {
            let key = key.0.inner().as_slice();
            !has_own_key(defs, *table, row, key) && others_refer(defs, rows, *table, key)
        }
        RowStep::Delete { table, key } => {
            others_refer(defs, rows, *table, key.0.inner().as_slice())
        }
    }
}

/// Whether a step inserts a row where as many stand as a node may have.
pub(crate) fn overfills(rows: &[TableRow], step: &RowStep) -> bool
    ensures { result ≡ judged.overfills rows.now step.now }
{
    match step {
        RowStep::Insert { .. } => rows.len() >= MOST_ROWS as usize,
        RowStep::Update { .. } | RowStep::Delete { .. } => false,
    }
}
