//! The expressions of a transform's columns, read once the transform is known as a whole.
ghost use Rattle.std.specs.Prelude.{◌≡◌, IfOk};
ghost use Rattle.sds_config.specs.ComputedColumns as wanted;

use crate::formulas::ColumnEntry;
use crate::{ColumnExpression, ColumnKind, TransformColumn};
use sds_base::{List, NoMemory, Twin, Txt};
use sds_expressions::{left_of, multiplier_of, substr_of, value_map_of, variable_of};
use std::alloc::Global;

/// The columns of these entries, where each expression is of its type's form.
pub fn columns_of(
    alloc: Global,
    entries: List<ColumnEntry>,
) -> Result<Option<List<TransformColumn>>, NoMemory>
    ensures { IfOk result (λ columns. columns ≡ wanted.columns_of entries) }
{
    let mut columns = Vec::new(alloc);
    for entry in entries.into_inner() {
        match column_of(alloc, entry)? {
            None => return Ok(None),
            Some(column) => columns.push(column)?,
        }
    }
    Ok(Some(List::of(columns)))
}

fn column_of(alloc: Global, entry: ColumnEntry) -> Result<Option<TransformColumn>, NoMemory>
    ensures { IfOk result (λ column. column ≡ wanted.column_of entry) }
{
    match column_expression_of(alloc, entry.kind, &entry.expression)? {
        None => Ok(None),
        Some(parsed) => Ok(Some(TransformColumn {
            target: entry.target,
            source: entry.source,
            pk: entry.pk,
            include_on: entry.include_on,
            kind: entry.kind,
            expression: entry.expression,
            parsed,
        })),
    }
}

/// What the expression of a column of this type says, where it is of the type's form.
fn column_expression_of(
    alloc: Global,
    kind: ColumnKind,
    expression: &Txt,
) -> Result<Option<ColumnExpression>, NoMemory>
    ensures { IfOk result (λ parsed. parsed ≡ wanted.column_expression_of kind expression.now) }
{
    let text = expression.as_str();
    Ok(match kind {
        ColumnKind::Copy | ColumnKind::Remove => Some(ColumnExpression::Unused),
        ColumnKind::Const => Some(ColumnExpression::Const(expression.twin(alloc)?)),
        ColumnKind::Left => left_of(text).map(ColumnExpression::Left),
        ColumnKind::Substr => substr_of(text).map(ColumnExpression::Substr),
        ColumnKind::ValueMap => value_map_of(alloc, text)?.map(ColumnExpression::ValueMap),
        ColumnKind::Variable => variable_of(text).map(ColumnExpression::Variable),
        ColumnKind::Additive => multiplier_of(text).map(ColumnExpression::Additive),
    })
}
