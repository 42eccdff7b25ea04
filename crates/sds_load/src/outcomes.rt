//! How the load of a batch ends.
ghost use Rattle.std.specs.Prelude.{◌≡◌, ◌<◌, ◌^◌, IfOk, OnErr, length};
ghost use Rattle.std.specs.Str.{chars};
ghost use Rattle.sds_trade.specs.rules.Outcomes.{outcome_of_batch};
ghost use Rattle.sds_rows.specs.Undoing.{Undone};
ghost use Rattle.sds_capture.specs.Ends.{dones_of, end_of};
ghost use Rattle.sds_load.specs.Bodies.{rows_in, setting_at};

use sds_base::NoMemory;
use sds_capture::{Capturing, Judge, Outcome, run_rows};
use sds_conflict::{KeyedRows, resolve};
use sds_rows::Tables;
use sds_types::{Body, Config, Key, LoadRow, Prepared, Resolution, Row, Rule};
use std::alloc::Global;

/// The rows of a node's tables, each found by its key.
#[derive(Drop)]
struct KeptRows<'a> {
    tables: &'a Tables,
}

impl KeyedRows for KeptRows<'_> {
    ghost defs = { λ kept. kept.tables.now.defs };

    ghost rows = { λ kept. kept.tables.now.rows };

    fn row(&self, table: u32, key: &Key) -> Option<&Row> {
        self.tables.row(table, key)
    }
}

/// The judge of the rows of a batch.
#[derive(Drop)]
struct BatchJudge<'a> {
    config: &'a Config,
    batch: &'a Prepared,
}

impl Judge for BatchJudge<'_> {
    ghost use Rattle.sds_trade.specs.rules.Outcomes.{batch_judge};

    type Row = LoadRow;

    ghost defs = { λ judge. judge.config.now.tables };

    ghost number = { λ judge place row. row.row };

    ghost asked = { λ judge rows row. batch_judge judge.config.now judge.batch.now rows row };

    fn number(&self, _place: usize, row: &LoadRow) -> u32 {
        row.row
    }

    fn ask(&self, alloc: Global, tables: &Tables, row: &LoadRow) -> Result<Resolution, NoMemory> {
        let setting = setting_for(self.batch, row.table);
        resolve(alloc, self.config, setting, row, &KeptRows { tables })
    }
}

/// The place of the conflict setting that a batch has for the table at a place.
fn setting_for(batch: &Prepared, table: u32) -> Option<u32>
    ensures { result ≡ setting_at batch.now.settings table }
{
    match batch.settings.inner().get(table as usize) {
        Some(setting) => *setting,
        None => None,
    }
}

/// Loads a batch at a node of a group, where so many changes wait to be routed: its rows are taken
/// one after another, each on the tables that those before it left. A row is judged by its conflict
/// setting, then by the rules on steps, then by whether its step would be captured while 100,000
/// changes wait. The steps stand in the order of the rows. Where a row asks to skip the batch, or
/// is the first that breaks a rule, the tables' rows are as before, and so they are where memory is
/// wanting. A batch of an unknown channel is broken as a whole, which is told by the number 0, and
/// one that couldn't be read at its own row (the SymmetricDS guide's chapters on loading and on
/// conflicts; the rules are symds' own).
///
/// A batch has fewer than 2^32 rows.
pub fn outcome(
    alloc: Global,
    config: &Config,
    group: &str,
    tables: &mut Tables,
    batch: &Prepared,
    waiting: u32,
) -> Result<Outcome, NoMemory>
    requires defs { tables.old.defs ≡ config.now.tables }
    requires count { length (rows_in batch.now.body) < 2 ^ 32 }
    ensures outcome { IfOk result (λ outcome. end_of outcome tables.new.rows
        ≡ outcome_of_batch config.now (chars group.now) waiting tables.old.rows batch.now) }
    ensures undone { IfOk result (λ outcome. Undone (dones_of outcome) tables.new tables.old.rows) }
    ensures err { OnErr result (tables.new.rows ≡ tables.old.rows) }
    ensures defs { tables.new.defs ≡ tables.old.defs }
{
    if batch.channel.is_none() {
        return Ok(Outcome::Broken {
            row: 0,
            rule: Rule::UnknownChannel,
        });
    }
    match &batch.body {
        Body::Broken { row, rule } => Ok(Outcome::Broken {
            row: *row,
            rule: *rule,
        }),
        Body::Rows(rows) => {
            let at = Capturing {
                config,
                group,
                incoming: true,
                waiting,
            };
            let judge = BatchJudge { config, batch };
            run_rows(alloc, &at, &judge, tables, rows.inner().as_slice())
        }
    }
}
