//! The rows of a batch, transformed and read, or the first that breaks a rule.
ghost use Rattle.std.specs.Prelude.{◌≡◌, ◌++◌, ◌<◌, ◌^◌, IfOk, List, length, map};
ghost use Rattle.sds_trade.specs.rules.Outcomes as outcome;
ghost use Rattle.sds_trade.specs.rules.Transforms.{shaped_rows};
ghost use Rattle.sds_load.specs.Bodies.{Reading, body_after, body_from};

use sds_base::{List, NoMemory};
use sds_rowtexts::read_row;
use sds_transform::at_load;
use sds_types::{BatchDoc, Body, Config, LoadRow, Rule, Way};
use sds_value::{Binary, DocRow};
use std::alloc::Global;

/// The rows that a batch's rows become, or the first of them that breaks one of the rules on texts,
/// after which none is read.
pub(crate) fn body_of(
    alloc: Global,
    config: &Config,
    way: &Way,
    batch: &BatchDoc,
) -> Result<Body, NoMemory>
    requires { length batch.now.rows < 2 ^ 32 }
    ensures { IfOk result (λ body. body ≡ outcome.body_of config.now way.now batch.now) }
{
    let mut rows = Vec::with_capacity(alloc, batch.rows.inner().len())?;
    for (at, row) in batch.rows.inner().iter().enumerate() {
        let number = at as u32 + 1;
        if let Some(rule) = read_made(alloc, config, way, batch.binary, number, row, &mut rows)? {
            return Ok(Body::Broken { row: number, rule });
        }
    }
    Ok(Body::Rows(List::of(rows)))
}

/// Puts the rows that the document's row of this number becomes behind others, up to the first that
/// breaks a rule, which is told.
fn read_made(
    alloc: Global,
    config: &Config,
    way: &Way,
    form: Binary,
    number: u32,
    row: &DocRow,
    rows: &mut Vec<LoadRow>,
) -> Result<Option<Rule>, NoMemory>
    ensures { IfOk result (λ broken. (rest : List Reading) →
        body_after rows.old.items (map (outcome.reading_of config.now form number)
        (shaped_rows config.now way.now row.now) ++ rest)
        ≡ body_from broken number rows.new.items rest) }
{
    let shaped = at_load(alloc, config, way, row)?;
    for made in shaped.inner() {
        let tables = config.tables.inner().as_slice();
        match read_row(alloc, tables, form, number, &made.row, made.adds.inner())? {
            Err(rule) => return Ok(Some(rule)),
            Ok(row) => rows.push(row)?,
        }
    }
    Ok(None)
}
