//! Own writes: the transactions of a node's own applications.
ghost use Rattle.std.specs.Prelude.{◌≡◌, ◌≢◌, ◌≤◌, length, Err};
ghost use Rattle.std.specs.Str.{chars};
ghost use Rattle.sds_types.specs.Limits.{most_write_rows};
ghost use Rattle.sds_trade.specs.rules.OwnWrites.{outcome_of_write};
ghost use Rattle.sds_rows.specs.Undoing.{Undone};
ghost use Rattle.sds_capture.specs.Ends.{write_dones, write_end};

use crate::own_rows::doc_of;
use crate::own_steps::own_step;
use crate::{Capturing, Judge, Outcome, run_rows};
use sds_base::{List, NoMemory};
use sds_rows::{Done, Tables};
use sds_rowtexts::read_row;
use sds_types::{Broken, Config, Resolution, TxRow};
use sds_value::{Binary, TableDef};
use std::alloc::Global;

/// The judge of the rows of own writes, for these tables.
#[derive(Drop)]
struct OwnJudge<'a> {
    defs: &'a List<TableDef>,
}

impl Judge for OwnJudge<'_> {
    ghost use Rattle.std.specs.Prelude.{◌+◌};
    ghost use Rattle.sds_trade.specs.rules.OwnWrites.{own_judge};

    type Row = TxRow;

    ghost defs = { λ judge. judge.defs.now };

    ghost number = { λ judge place row. place + 1 };

    ghost asked = { λ judge rows row. own_judge judge.defs.now rows row };

    fn number(&self, place: usize, _row: &TxRow) -> u32 {
        place as u32 + 1
    }

    fn ask(&self, alloc: Global, tables: &Tables, row: &TxRow) -> Result<Resolution, NoMemory> {
        let defs = self.defs.inner().as_slice();
        let doc = doc_of(alloc, defs, row)?;
        match read_row(alloc, defs, Binary::Base64, 0, &doc, &[])? {
            Err(rule) => Ok(Resolution::Broken(rule)),
            Ok(row) => own_step(alloc, tables, &row),
        }
    }
}

/// Makes an own write at a node of a group, where so many changes wait to be routed: its rows are
/// taken one after another, each on the tables that those before it left, and each is judged by the
/// rules on texts, then by those on steps, then by whether its step would be captured while 100,000
/// changes wait. The steps stand in the order of the rows; where a row breaks a rule, or memory is
/// wanting, the tables' rows are as before. The rules and their order are symds' own.
pub fn run_write(
    alloc: Global,
    config: &Config,
    group: &str,
    tables: &mut Tables,
    tx: &[TxRow],
    waiting: u32,
) -> Result<List<Done>, Broken>
    requires defs { tables.old.defs ≡ config.now.tables }
    requires count { length tx.now ≤ most_write_rows }
    ensures outcome { result ≢ Err Broken.NoMemory → write_end result tables.new.rows
        ≡ outcome_of_write config.now (chars group.now) waiting tables.old.rows tx.now }
    ensures undone { Undone (write_dones result) tables.new tables.old.rows }
    ensures defs { tables.new.defs ≡ tables.old.defs }
{
    let at = Capturing {
        config,
        group,
        incoming: false,
        waiting,
    };
    let judge = OwnJudge {
        defs: &config.tables,
    };
    match run_rows(alloc, &at, &judge, tables, tx) {
        Ok(Outcome::Done(dones)) => Ok(dones),
        Ok(Outcome::Broken { row, rule }) => Err(Broken::Rule { row, rule }),
        Ok(Outcome::Ignored) => unreachable!(),
        Err(NoMemory) => Err(Broken::NoMemory),
    }
}
